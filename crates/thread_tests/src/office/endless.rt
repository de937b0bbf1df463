//! A crew at an office that lasts, with more calls than a history has places.
ghost use Rattle.std.specs.Prelude.{◌≡◌, vec_len};
ghost use Rattle.market_lock.specs.Seen.{IsSamePass};
ghost use Rattle.office_crew.specs.Callers.{who_is};

use crate::asserts::{holds, same};
use edit_history::Keeping;
use market_lock::{Closed, Office, Pass, Placed};
use market_types::{Cmd, LastNumber, OpenFault};
use office_crew::{Asked, Caller, MeetingTerms, Task, ask, meet};
use std::alloc::Global;
use std::process::Abort;
use std::rt::HostRuntime;
use std::sync::Wait;
use std::thread::Threads;

/// No entry is kept.
const UNRECORDED: MeetingTerms = MeetingTerms {
    base: 8,
    hard: 64,
    places: 20,
    levels: 3,
    last: LastNumber::USUAL,
    keeping: Keeping::Nothing,
};

/// Asks for the limit until it was answered so many times.
fn ask_often<R: Wait>(
    rt: &R,
    alloc: Global,
    office: &Office,
    caller: Caller<Pass, Placed>,
    times: u64,
) -> Caller<Pass, Placed>
    requires office { (who_is caller).table ≡ office.now.table }
    ensures same { IsSamePass (who_is caller) (who_is result) }
{
    let mut caller = caller;
    let mut answered = 0_u64;
    for _ in rt.forever() {
        if answered >= times {
            break;
        }
        let Asked {
            caller: next,
            answer,
        } = ask(rt, alloc, office, caller, Cmd::Limit);
        caller = next;
        if matches!(&answer, Some(Ok(_))) {
            answered = answered.saturating_add(1);
        }
    }
    caller
}

/// Asks so many times.
#[derive(Drop)]
struct Asker(u64);

impl Task for Asker {
    fn work<R: Wait>(
        &mut self,
        rt: &R,
        alloc: Global,
        office: &Office,
        caller: Caller<Pass, Placed>,
    ) -> Caller<Pass, Placed> {
        ask_often(rt, alloc, office, caller, self.0)
    }

    fn lets_others_work(&self) -> bool {
        true
    }
}

/// No openers.
fn nobody(alloc: Global) -> Vec<Asker>
    ensures { vec_len result ≡ 0 }
{
    Vec::new(alloc)
}

/// Two that ask so many times each, and no more.
fn askers(rt: &impl Abort, alloc: Global, times: u64) -> Vec<Asker> {
    let mut askers = Vec::new(alloc);
    holds(rt, askers.push(Asker(times)).is_ok());
    holds(rt, askers.push(Asker(times)).is_ok());
    askers
}

/// All calls are counted, no worker is placed, and no entry is kept.
fn has_answered(rt: &impl Abort, closed: &Closed, calls: u64) {
    same(rt, (closed.calls, closed.workers), (calls, 0));
    same(rt, closed.chronicle.len(), calls);
    holds(rt, closed.chronicle.kept().is_empty());
}

#[test]
fn an_unrecorded_crew_makes_more_calls_than_a_history_has_places(rt: HostRuntime) {
    let alloc = rt.alloc();
    let askers = askers(&rt, alloc, 600_000);
    same(&rt, askers.len(), 2);
    let Ok(meeting) = meet(&rt, alloc, UNRECORDED, nobody(alloc), askers) else {
        panic!(&rt; "no office");
    };
    has_answered(&rt, &meeting.closed, 1_200_000);
    same(&rt, (meeting.openers.len(), meeting.tasks.len()), (0, 2));
    drop(meeting);
}

/// No office opens on these terms, for this reason, and both askers come back.
fn come_back<R: Threads + Wait + Sync + Abort>(
    rt: &R,
    alloc: Global,
    terms: MeetingTerms,
    due: OpenFault,
) {
    let askers = askers(rt, alloc, 1);
    same(rt, askers.len(), 2);
    let Err(unmet) = meet(rt, alloc, terms, nobody(alloc), askers) else {
        panic!(rt; "an office");
    };
    same(rt, unmet.fault, due);
    same(rt, unmet.tasks.len(), 2);
    drop(unmet);
}

#[test]
fn askers_come_back_from_an_office_that_does_not_open(rt: HostRuntime) {
    let no_places = MeetingTerms {
        places: 0,
        ..UNRECORDED
    };
    come_back(&rt, rt.alloc(), no_places, OpenFault::BadPlaces);
    let no_base = MeetingTerms {
        base: 0,
        ..UNRECORDED
    };
    come_back(&rt, rt.alloc(), no_base, OpenFault::BadBase);
}
