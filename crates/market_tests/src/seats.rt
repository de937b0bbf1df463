//! Each call of a seat once, with ample memory, and what it can't ask.
ghost use Rattle.std.specs.Prelude.{◌≡◌};

use crate::asserts::holds;
use edit_history::{Keeping, Terms};
use market_seat::{Answer, Asked, Cutting, Kept, Seat, Unclosed, Unmerged, WhyNot};
use market_types::{ArenaId, Cmd, LastNumber, Level, Opening};
use std::alloc::Global;
use std::process::Abort;
use std::rt::HostRuntime;

const TERMS: Terms = Terms {
    opening: Opening {
        base: 8,
        hard: 64,
        seats: 2,
        levels: 3,
        last: LastNumber::USUAL,
    },
    places: 100,
    keeping: Keeping::Everything,
};

/// The seat makes this call at once.
fn call(rt: &impl Abort, alloc: Global, seat: &mut Seat, cmd: Cmd)
    ensures office { seat.new.office ≡ seat.old.office }
{
    let answer = seat.try_call(alloc, cmd);
    holds(rt, matches!(&answer, Answer::Made(_)));
}

/// The seat is placed at the first arena, can't join again, stays, and leaves.
fn visit(rt: &impl Abort, alloc: Global, seat: Seat) -> Seat
    ensures office { result.office ≡ seat.office }
{
    let Asked { seat, answer } = seat.try_leave();
    holds(rt, matches!(&answer, Answer::Unfit));
    let Asked { seat, answer } = seat.try_join(alloc);
    holds(
        rt,
        matches!(&answer, Answer::Made(Some(arena)) if arena.get() == 1),
    );
    let Asked { seat, answer } = seat.try_join(alloc);
    holds(rt, matches!(&answer, Answer::Unfit));
    let Asked { seat, answer } = seat.try_stay(alloc);
    holds(
        rt,
        matches!(&answer, Answer::Made(Kept::Wanted(arena)) if arena.get() == 1),
    );
    let Asked { seat, answer } = seat.try_leave();
    holds(
        rt,
        matches!(&answer, Answer::Made(arena) if arena.get() == 1),
    );
    seat
}

/// The seat closes its office, with so many calls.
fn close(rt: &impl Abort, alloc: Global, seat: Seat, calls: u64) {
    match seat.close(alloc) {
        Ok(closed) => holds(rt, closed.calls == calls && closed.workers == 0),
        Err(
            Unclosed {
                seat: _seat,
                why: _,
            },
        ) => {
            panic!(rt; "the office is not closed");
        }
    }
}

/// One seat opens an arena that asks for a worker, another visits it, and they close together.
fn both_once(rt: &impl Abort, alloc: Global, first: Seat) {
    let mut first = first;
    let Some(second) = first.split(alloc) else {
        panic!(rt; "no seat is left");
    };
    call(rt, alloc, &mut first, Cmd::Open(8, 1, Level::from_index(1)));
    call(rt, alloc, &mut first, Cmd::Request(ArenaId::new(1), 1, 0));
    let second = visit(rt, alloc, second);
    let Err(Unclosed { seat, why }) = first.close(alloc) else {
        panic!(rt; "it closes too early");
    };
    holds(rt, why == WhyNot::OthersOut);
    let mut first = seat;
    if let Err(
        Unmerged {
            seat: _seat,
            why: _,
        },
    ) = first.merge(second)
    {
        panic!(rt; "it is not taken back");
    }
    close(rt, alloc, first, 5);
}

#[test]
fn each_call_is_made_once(rt: HostRuntime) {
    let Ok(first) = Seat::open(rt.alloc(), TERMS) else {
        panic!(&rt; "no office");
    };
    both_once(&rt, rt.alloc(), first);
}

/// The seat cuts all calls of its office out, of which there are so many.
fn cut(rt: &impl Abort, alloc: Global, seat: &mut Seat, calls: usize)
    ensures office { seat.new.office ≡ seat.old.office }
{
    let Ok(spare) = Vec::with_capacity(alloc, 2) else {
        panic!(rt; "no room");
    };
    let Cutting::Made(Some(part)) = seat.try_cut(spare) else {
        panic!(rt; "nothing is cut");
    };
    holds(rt, part.from == 0 && part.entries.len() == calls);
}

#[test]
fn a_part_is_cut_once(rt: HostRuntime) {
    let terms = Terms {
        keeping: Keeping::InParts,
        ..TERMS
    };
    let Ok(first) = Seat::open(rt.alloc(), terms) else {
        panic!(&rt; "no office");
    };
    let mut first = first;
    let Some(second) = first.split(rt.alloc()) else {
        panic!(&rt; "no seat is left");
    };
    call(&rt, rt.alloc(), &mut first, Cmd::Limit);
    cut(&rt, rt.alloc(), &mut first, 1);
    if let Err(
        Unmerged {
            seat: _seat,
            why: _,
        },
    ) = first.merge(second)
    {
        panic!(&rt; "it is not taken back");
    }
    close(&rt, rt.alloc(), first, 1);
}
