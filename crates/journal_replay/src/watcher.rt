//! What looks on while a journal is replayed.
ghost use Rattle.std.specs.Prelude.{◌≡◌};
ghost use Rattle.market_types.specs.declared.command.Cmd.{Cmd};
ghost use Rattle.market_types.specs.declared.reply.Reply.{Reply};
ghost use Rattle.market_types.specs.State.{State};

use market_core::Market;
use market_types::{Cmd, Reply};

/// What looks on while a journal is replayed.
pub trait Watcher: Drop {
    // What it has made of the entries so far.
    ghost Made: { Type 0 };

    ghost made: { Self → Self.Made };

    // What an entry makes of that, by the market after it, its command and the reply that is due.
    ghost seen: { Self.Made → State → Cmd → Reply → Self.Made };

    /// Sees the next entry: the market after it, its command, and the reply that is due. It sees the entry too whose reply is
    /// another than that one, so that the journal is not legal.
    fn see(&mut self, market: &Market, cmd: &Cmd, reply: &Reply)
        ensures { made self.new ≡ seen (made self.old) market.now cmd.now reply.now };
}

/// Looks at nothing.
#[derive(Drop)]
pub struct Unwatched;

impl Watcher for Unwatched {
    ghost use Rattle.std.specs.Prelude.{⊤};

    ghost Made = { ⊤ };

    ghost made = { λ _. tt };

    ghost seen = { λ _ _ _ _. tt };

    #[inline(always)]
    fn see(&mut self, _market: &Market, _cmd: &Cmd, _reply: &Reply) {}
}
