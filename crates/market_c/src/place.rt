//! What C keeps for a caller, whose state can be read.
ghost use Rattle.std.specs.Prelude.{◌≡◌, ◌≢◌, true, false, Some, None, IsSome, IfSome, IfNone};

use crate::held::Held;
use market_seat::Seat;
use std::alloc::Global;
use std::mem;
use std_alloc::room::Vacant;

/// The state of a place that holds a seat. A place of zeros holds none.
const LIVE: u32 = 0x5EA7_1157;

/// Where C keeps a seat. Its state says whether it holds one.
#[repr(C)]
pub struct Place {
    state: u32,
    pub(crate) held: Held,
    ghost live: { state ≡ 1588007255 → IsSome held.seat },
    ghost empty: { state ≢ 1588007255 → held.seat ≡ None },
}

impl Place {
    /// A place that holds no seat.
    fn vacant(alloc: Global) -> Place
        ensures { result.held.seat ≡ None }
    {
        Place {
            state: 0,
            held: Held::vacant(alloc),
        }
    }

    /// A place that holds this seat, in this room.
    fn of(room: Vacant<Seat, Global>, seat: Seat) -> Place
        ensures { result.held.seat ≡ Some seat }
    {
        Place {
            state: LIVE,
            held: Held::of(room, seat),
        }
    }

    /// Whether it holds a seat.
    pub fn is_live(&self) -> bool
        ensures yes { result ≡ true → IsSome self.now.held.seat }
        ensures no { result ≡ false → self.now.held.seat ≡ None }
    {
        self.state == LIVE
    }

    /// Takes the seat out, with the room that it leaves: the place then holds none.
    #[inline(always)]
    pub fn take(&mut self, alloc: Global) -> Option<(Seat, Vacant<Seat, Global>)>
        ensures some { IfSome result (λ taken. self.old.held.seat ≡ Some taken.0) }
        ensures vacant { IfSome result (λ _. self.new.held.seat ≡ None) }
        ensures none { IfNone result (self.new ≡ self.old) }
        ensures empty { IfNone result (self.old.held.seat ≡ None) }
    {
        if self.state != LIVE {
            return None;
        }
        let Place { state: _, held } = mem::replace(self, Place::vacant(alloc));
        Some(held.take())
    }

    /// Puts a seat into a place that holds none.
    #[inline(always)]
    pub fn put(&mut self, room: Vacant<Seat, Global>, seat: Seat)
        requires { self.old.held.seat ≡ None }
        ensures { self.new.held.seat ≡ Some seat }
    {
        let Place { state: _, held } = mem::replace(self, Place::of(room, seat));
        held.let_go();
    }
}
