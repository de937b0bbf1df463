//! A seat on the heap, in a type that names no other type, so that it crosses to C.
ghost use Rattle.std.specs.Prelude.{◌≡◌, Option, Some, None, IsSome};
ghost use Rattle.market_seat.specs.Seated.{OfSeat};
ghost use Rattle.market_c.specs.Held.{held_owns, held_coded};

use market_seat::Seat;
use std::alloc::Global;
use std::marker::Model;
use std_alloc::room::Vacant;

/// A pointer to a seat, or one that owns nothing, whatever its bits. It can't be dropped, as a seat can't.
#[repr(C)]
pub struct Held {
    ptr: *mut u8,
    alloc: Global,
    pub ghost seat: { Option OfSeat } by { held_coded },
}

impl Model for Held {
    ghost also_owns = { λ h. held_owns h.alloc h.ptr h.seat };
}

impl Held {
    /// A pointer that owns nothing.
    pub fn vacant(alloc: Global) -> Held
        ensures { result.seat ≡ None }
    {
        Held {
            ptr: std::ptr::null_mut(),
            alloc,
        }
    }

    /// A pointer that owns nothing goes.
    pub fn let_go(self)
        requires { self.seat ≡ None }
    {
        let Held { ptr: _, alloc: _ } = self;
    }

    /// The seat goes into the room.
    pub fn of(room: Vacant<Seat, Global>, seat: Seat) -> Held
        ensures { result.seat ≡ Some seat }
    {
        let Vacant { ptr, alloc } = room;
        unsafe {
            ptr.write(seat);
        }
        Held {
            ptr: ptr as *mut u8,
            alloc,
        }
    }

    /// Takes the seat out, and leaves the room.
    pub fn take(self) -> (Seat, Vacant<Seat, Global>)
        requires { IsSome self.seat }
        ensures { Some result.0 ≡ self.seat }
    {
        let Held { ptr, alloc } = self;
        let ptr = ptr as *mut Seat;
        let seat = unsafe { ptr.read() };
        (seat, Vacant { ptr, alloc })
    }
}

unsafe impl Send for Held {}
