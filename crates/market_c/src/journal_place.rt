//! What C keeps for a journal, whose state can be read.
ghost use Rattle.std.specs.Prelude.{◌≡◌, ◌≢◌, true, false, Some, None, IsSome, IfSome, IfNone};

use crate::held_journal::HeldJournal;
use journal_text::Unread;
use std::alloc::Global;
use std::mem;
use std_alloc::room::Vacant;

/// The state of a place that holds a journal. A place of zeros holds none.
const LIVE: u32 = 0x10C0_DA7A;

/// Where C keeps a journal. Its state says whether it holds one.
#[repr(C)]
pub struct JournalPlace {
    state: u32,
    pub(crate) held: HeldJournal,
    ghost live: { state ≡ 281074298 → IsSome held.unread },
    ghost empty: { state ≢ 281074298 → held.unread ≡ None },
}

impl JournalPlace {
    /// A place that holds no journal.
    fn vacant(alloc: Global) -> JournalPlace
        ensures { result.held.unread ≡ None }
    {
        JournalPlace {
            state: 0,
            held: HeldJournal::vacant(alloc),
        }
    }

    /// A place that holds this journal, in this room.
    fn of(room: Vacant<Unread, Global>, journal: Unread) -> JournalPlace
        ensures { result.held.unread ≡ Some journal }
    {
        JournalPlace {
            state: LIVE,
            held: HeldJournal::of(room, journal),
        }
    }

    /// Whether it holds a journal.
    pub fn is_live(&self) -> bool
        ensures yes { result ≡ true → IsSome self.now.held.unread }
        ensures no { result ≡ false → self.now.held.unread ≡ None }
    {
        self.state == LIVE
    }

    /// Takes the journal out, with the room that it leaves: the place then holds none.
    #[inline(always)]
    pub fn take(&mut self, alloc: Global) -> Option<(Unread, Vacant<Unread, Global>)>
        ensures some { IfSome result (λ taken. self.old.held.unread ≡ Some taken.0) }
        ensures vacant { IfSome result (λ _. self.new.held.unread ≡ None) }
        ensures none { IfNone result (self.new ≡ self.old) }
        ensures empty { IfNone result (self.old.held.unread ≡ None) }
    {
        if self.state != LIVE {
            return None;
        }
        let JournalPlace { state: _, held } = mem::replace(self, JournalPlace::vacant(alloc));
        Some(held.take())
    }

    /// Puts a journal into a place that holds none.
    #[inline(always)]
    pub fn put(&mut self, room: Vacant<Unread, Global>, journal: Unread)
        requires { self.old.held.unread ≡ None }
        ensures { self.new.held.unread ≡ Some journal }
    {
        let JournalPlace { state: _, held } = mem::replace(self, JournalPlace::of(room, journal));
        held.let_go();
    }
}
