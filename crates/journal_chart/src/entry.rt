//! What an entry of a history is about, by its command and its reply.
ghost use Rattle.std.specs.Prelude.{◌≡◌};
ghost use Rattle.journal_chart.specs.Steps.{keeps_order, moves_seat, subject, told};

use market_types::{ArenaId, Cmd, Reply};

/// A command after which at most a seat has moved.
pub(crate) fn moves_seat(cmd: &Cmd) -> bool
    ensures { result ≡ moves_seat cmd.now }
{
    matches!(cmd, Cmd::Join | Cmd::Stay | Cmd::Leave)
}

/// A command after which the arenas stand in the order in which they stood.
pub(crate) fn keeps_order(cmd: &Cmd) -> bool
    ensures { result ≡ keeps_order cmd.now }
{
    !matches!(cmd, Cmd::Priority(_, _))
}

/// The arena that a reply names, if the entry changed it.
fn told(reply: &Reply) -> Option<ArenaId>
    ensures { result ≡ told reply.now }
{
    match reply {
        Reply::Opened(arena) | Reply::Placed(arena) | Reply::Recalled(arena) | Reply::Left(arena) =>
            Some(*arena),
        _ => None,
    }
}

/// The arena whose claim, level or seats a command may have changed.
pub(crate) fn subject(cmd: &Cmd, reply: &Reply) -> Option<ArenaId>
    ensures { result ≡ subject cmd.now reply.now }
{
    match cmd {
        Cmd::Close(arena)
        | Cmd::Priority(arena, _)
        | Cmd::Resize(arena, _, _)
        | Cmd::Request(arena, _, _) => Some(*arena),
        _ => told(reply),
    }
}
