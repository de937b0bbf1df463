//! A journal on the heap, in a type that names no other type, so that it crosses to C.
ghost use Rattle.std.specs.Prelude.{◌≡◌, Option, Some, None, IsSome};
ghost use Rattle.journal_text.specs.Texts.{OfUnread};
ghost use Rattle.market_c.specs.HeldJournal.{journal_owns, journal_coded};

use journal_text::Unread;
use std::alloc::Global;
use std::marker::Model;
use std_alloc::room::Vacant;

/// A pointer to a journal, or one that owns nothing, whatever its bits. It is not dropped, so that no text is lost.
#[repr(C)]
pub struct HeldJournal {
    ptr: *mut u8,
    alloc: Global,
    pub ghost unread: { Option OfUnread } by { journal_coded },
}

impl Model for HeldJournal {
    ghost also_owns = { λ h. journal_owns h.alloc h.ptr h.unread };
}

impl HeldJournal {
    /// A pointer that owns nothing.
    pub fn vacant(alloc: Global) -> HeldJournal
        ensures { result.unread ≡ None }
    {
        HeldJournal {
            ptr: std::ptr::null_mut(),
            alloc,
        }
    }

    /// A pointer that owns nothing goes.
    pub fn let_go(self)
        requires { self.unread ≡ None }
    {
        let HeldJournal { ptr: _, alloc: _ } = self;
    }

    /// The journal goes into the room.
    pub fn of(room: Vacant<Unread, Global>, journal: Unread) -> HeldJournal
        ensures { result.unread ≡ Some journal }
    {
        let Vacant { ptr, alloc } = room;
        unsafe {
            ptr.write(journal);
        }
        HeldJournal {
            ptr: ptr as *mut u8,
            alloc,
        }
    }

    /// Takes the journal out, and leaves the room.
    pub fn take(self) -> (Unread, Vacant<Unread, Global>)
        requires { IsSome self.unread }
        ensures { Some result.0 ≡ self.unread }
    {
        let HeldJournal { ptr, alloc } = self;
        let ptr = ptr as *mut Unread;
        let journal = unsafe { ptr.read() };
        (journal, Vacant { ptr, alloc })
    }
}

unsafe impl Send for HeldJournal {}
