//! A history that exists in proofs alone.
ghost use Rattle.std.specs.Prelude.{◌≡◌, ◌++◌, [], ◌∷◌};

use market_types::Entry;
use std::marker::Model;
use std::snapshot::Snapshot;

/// Contracts see it as its entries. It stores none of them, and its size never changes.
#[cycle(past)]
#[derive(Drop)]
pub(crate) struct Past {
    last: Last,
}

#[cycle(past)]
#[derive(Drop)]
enum Last {
    Nothing,
    After(Snapshot<Past>, Snapshot<Vec<Entry>>),
    AfterOne(Snapshot<Past>, Snapshot<Entry>),
}

impl Model for Past {
    ghost use Rattle.std.specs.Prelude.{List, length};
    ghost use Rattle.market_types.specs.declared.reply.Entry.{Entry};

    ghost Value = { List Entry };

    ghost use Rattle.edit_history.specs.Pasts.{entries};

    ghost view = { λ p. entries p.last };

    ghost use Rattle.edit_history.specs.Pasts.{IsGrown};

    ghost invariant = { λ p. IsGrown p.last };

    ghost size = { length };

    ghost use Rattle.edit_history.specs.Falls.{falls};

    ghost size_decreases = { λ a h. falls a.last h };
}

impl Past {
    /// No entry.
    pub(crate) fn new() -> Past
        ensures { result ≡ [] }
    {
        Past {
            last: Last::Nothing,
        }
    }

    /// These entries come behind the others. None of them is stored.
    pub(crate) fn append(&mut self, part: &Vec<Entry>)
        ensures { self.new ≡ self.old ++ part.now.items }
    {
        if part.len() > 0 {
            let before = Snapshot::of(&*self);
            self.last = Last::After(before, Snapshot::of(part));
        }
    }

    /// This entry comes behind the others. It isn't stored.
    #[inline(always)]
    pub(crate) fn push(&mut self, entry: &Entry)
        ensures { self.new ≡ self.old ++ entry.now ∷ [] }
    {
        let before = Snapshot::of(&*self);
        self.last = Last::AfterOne(before, Snapshot::of(entry));
    }
}
