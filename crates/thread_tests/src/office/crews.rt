//! Callers that follow scripts.
ghost use Rattle.std.specs.Prelude.{◌≡◌, length, vec_len};

use crate::asserts::{holds, same};
use edit_history::{Chronicle, Keeping};
use market_lock::{Office, Pass, Placed};
use market_texts::push_reply;
use market_types::{ArenaId, Cmd, LastNumber, Level, SeatNo};
use office_crew::{Asked, Caller, Meeting, MeetingTerms, Script, Task, ask, meet};
use std::alloc::Global;
use std::process::Abort;
use std::rt::HostRuntime;
use std::sync::Wait;
use std::thread;
use std::thread::Threads;

const TERMS: MeetingTerms = MeetingTerms {
    base: 8,
    hard: 64,
    places: 100,
    levels: 3,
    last: LastNumber::USUAL,
    keeping: Keeping::Everything,
};

/// A worker comes, is shown, stays and leaves.
fn visit() -> [Cmd; 6] {
    let arena = ArenaId::new(1);
    [
        Cmd::Open(8, 1, Level::from_index(1)),
        Cmd::Request(arena, 1, 0),
        Cmd::Join,
        Cmd::Show(arena),
        Cmd::Stay,
        Cmd::Leave,
    ]
}

/// A script for each list of commands.
fn scripts_of<'a>(rt: &impl Abort, alloc: Global, lists: &[&'a [Cmd]]) -> Vec<Script<'a>> {
    let mut scripts = Vec::new(alloc);
    for cmds in lists {
        let Ok(script) = Script::new(alloc, *cmds) else {
            panic!(rt; "no memory");
        };
        holds(rt, scripts.push(script).is_ok());
    }
    scripts
}

/// No openers.
fn nobody<'a>(alloc: Global) -> Vec<Script<'a>>
    ensures { vec_len result ≡ 0 }
{
    Vec::new(alloc)
}

/// The script's caller is told so, alone in an office of these terms, and the office counts so many calls and workers.
fn is_told<R: Threads + Wait + Sync + Abort>(
    rt: &R,
    alloc: Global,
    terms: MeetingTerms,
    cmds: &[Cmd],
    due: &[u8],
    totals: (u64, u64),
) {
    let scripts = scripts_of(rt, alloc, &[cmds]);
    same(rt, scripts.len(), 1);
    let Ok(meeting) = meet(rt, alloc, terms, nobody(alloc), scripts) else {
        panic!(rt; "no office");
    };
    holds(rt, meeting.tasks.iter().all(|script| script.told() == due));
    same(rt, (meeting.closed.calls, meeting.closed.workers), totals);
    same(rt, meeting.closed.chronicle.len(), totals.0);
    drop(meeting);
}

#[test]
fn a_worker_visits_an_arena(rt: HostRuntime) {
    let due =
        b"arena 1\nrequest 1\nplaced 1\narena 1 request 1 allot 1 top yes active 1 recall 0 hire 0\nstays 1\nleft 1\n";
    is_told(&rt, rt.alloc(), TERMS, &visit(), due, (6, 0));
}

#[test]
fn a_worker_is_still_there_when_the_office_closes(rt: HostRuntime) {
    let due =
        b"arena 1\nrequest 1\nplaced 1\narena 1 request 1 allot 1 top yes active 1 recall 0 hire 0\nstays 1\n";
    is_told(&rt, rt.alloc(), TERMS, &visit()[..5], due, (5, 1));
}

#[test]
fn the_last_place_is_for_the_leave(rt: HostRuntime) {
    let terms = MeetingTerms { places: 4, ..TERMS };
    let due = b"arena 1\nrequest 1\nplaced 1\nC2 history full\nC2 history full\nleft 1\n";
    is_told(&rt, rt.alloc(), terms, &visit(), due, (4, 0));
}

#[test]
fn a_join_takes_two_places(rt: HostRuntime) {
    let terms = MeetingTerms { places: 3, ..TERMS };
    let due =
        b"arena 1\nrequest 1\nC2 history full\narena 1 request 1 allot 1 top yes active 0 recall 0 hire 1\nnot asked\nnot asked\n";
    is_told(&rt, rt.alloc(), terms, &visit(), due, (3, 0));
}

#[test]
fn a_recalled_worker_is_a_pass_again(rt: HostRuntime) {
    let arena = ArenaId::new(1);
    let cmds = [
        Cmd::Open(8, 1, Level::from_index(1)),
        Cmd::Request(arena, 1, 0),
        Cmd::Join,
        Cmd::Join,
        Cmd::Request(arena, -1, 0),
        Cmd::Stay,
        Cmd::Leave,
        Cmd::Join,
    ];
    let due = b"arena 1\nrequest 1\nplaced 1\nnot asked\nrequest 0\nrecalled 1\nnot asked\nidle\n";
    is_told(&rt, rt.alloc(), TERMS, &cmds, due, (6, 0));
}

/// The first caller gives two commands; when it has ended, another gives the last in a thread that is made for it. One that has no
/// command is in the calling thread meanwhile.
fn is_seen_next<R: Threads + Wait + Sync + Abort>(rt: &R, alloc: Global, cmds: &[Cmd])
    requires { length cmds.now ≡ 3 }
{
    let openers = scripts_of(rt, alloc, &[&cmds[..2]]);
    let tasks = scripts_of(rt, alloc, &[&cmds[..0], &cmds[2..]]);
    holds(rt, openers.len() == 1 && tasks.len() == 2);
    let Ok(meeting) = meet(rt, alloc, TERMS, openers, tasks) else {
        panic!(rt; "no office");
    };
    let Meeting {
        closed,
        openers,
        tasks,
    } = meeting;
    let seen = b"arena 1 request 3 allot 3 top yes active 0 recall 0 hire 3\n";
    holds(
        rt,
        openers.iter().all(|script| script.told() == b"arena 1\nrequest 3\n".as_slice()),
    );
    same(rt, (openers.len(), tasks.len()), (1, 2));
    same(rt, tasks[0].told(), b"".as_slice());
    same(rt, tasks[1].told(), seen.as_slice());
    same(
        rt,
        (closed.calls, closed.workers, closed.chronicle.len()),
        (3, 0, 3),
    );
    drop(tasks);
    drop(openers);
    drop(closed);
}

#[test]
fn the_next_thread_sees_what_the_last_one_did(rt: HostRuntime) {
    let arena = ArenaId::new(1);
    let cmds = [
        Cmd::Open(8, 1, Level::from_index(1)),
        Cmd::Request(arena, 3, 0),
        Cmd::Show(arena),
    ];
    is_seen_next(&rt, rt.alloc(), &cmds);
}

/// Two callers ask for the limit so many times each, at the same time.
fn are_told_the_limit<R: Threads + Wait + Sync + Abort>(rt: &R, alloc: Global, cmds: &[Cmd]) {
    let terms = MeetingTerms {
        places: 2_000,
        ..TERMS
    };
    let scripts = scripts_of(rt, alloc, &[cmds, cmds]);
    same(rt, scripts.len(), 2);
    let Ok(meeting) = meet(rt, alloc, terms, nobody(alloc), scripts) else {
        panic!(rt; "no office");
    };
    let Meeting {
        closed,
        openers,
        tasks,
    } = meeting;
    drop(openers);
    let line = b"value 8 limit 7 effective 7\n";
    for script in tasks.iter() {
        same(rt, script.told().len(), 1_000 * line.len());
        holds(
            rt,
            script
                .told()
                .chunks(line.len())
                .all(|told| told == line.as_slice()),
        );
    }
    same(
        rt,
        (closed.calls, closed.workers, closed.chronicle.len()),
        (2_000, 0, 2_000),
    );
    drop(tasks);
    drop(closed);
}

#[test]
fn two_threads_ask_a_thousand_times_each(rt: HostRuntime) {
    are_told_the_limit(&rt, rt.alloc(), &[Cmd::Limit; 1_000]);
}

/// What the entries of a seat tell, in their order.
fn told_in(rt: &impl Abort, alloc: Global, chronicle: &Chronicle, seat: SeatNo) -> Vec<u8> {
    let mut told = Vec::new(alloc);
    for entry in chronicle.kept() {
        if entry.call.seat == seat {
            holds(rt, push_reply(&mut told, &entry.reply).is_ok());
            holds(rt, told.push(b'\n').is_ok());
        }
    }
    told
}

/// The first opener gives one command; when it has ended, the second gives the next one, and after it a task the last.
fn come_back_in_order<R: Threads + Wait + Sync + Abort>(rt: &R, alloc: Global, cmds: &[Cmd])
    requires { length cmds.now ≡ 3 }
{
    let openers = scripts_of(rt, alloc, &[&cmds[..1], &cmds[1..2]]);
    let tasks = scripts_of(rt, alloc, &[&cmds[2..]]);
    holds(rt, openers.len() == 2 && tasks.len() == 1);
    let Ok(meeting) = meet(rt, alloc, TERMS, openers, tasks) else {
        panic!(rt; "no office");
    };
    let Meeting {
        closed,
        openers,
        tasks,
    } = meeting;
    holds(rt, openers.len() == 2 && tasks.len() == 1);
    same(rt, openers[0].told(), b"arena 1\n".as_slice());
    same(rt, openers[1].told(), b"arena 2\n".as_slice());
    same(rt, tasks[0].told(), b"request 3\n".as_slice());
    let told = told_in(rt, alloc, &closed.chronicle, SeatNo::new(1));
    same(rt, told.as_slice(), b"arena 2\n".as_slice());
    same(
        rt,
        (closed.calls, closed.workers, closed.chronicle.len()),
        (3, 0, 3),
    );
    drop(told);
    drop(tasks);
    drop(openers);
    drop(closed);
}

#[test]
fn openers_work_one_after_the_other(rt: HostRuntime) {
    let cmds = [
        Cmd::Open(8, 1, Level::from_index(1)),
        Cmd::Open(4, 1, Level::from_index(1)),
        Cmd::Request(ArenaId::new(2), 3, 0),
    ];
    come_back_in_order(&rt, rt.alloc(), &cmds);
}

/// The first caller gives two commands in its thread; when it has met, one visits while another comes to work.
fn one_visits_and_one_stays<R: Threads + Wait + Sync + Abort>(rt: &R, alloc: Global, cmds: &[Cmd])
    requires { length cmds.now ≡ 6 }
{
    let openers = scripts_of(rt, alloc, &[&cmds[..2]]);
    let tasks = scripts_of(rt, alloc, &[&cmds[2..5], &cmds[5..]]);
    holds(rt, openers.len() == 1 && tasks.len() == 2);
    let Ok(meeting) = meet(rt, alloc, TERMS, openers, tasks) else {
        panic!(rt; "no office");
    };
    let Meeting {
        closed,
        openers,
        tasks,
    } = meeting;
    drop(openers);
    same(rt, tasks.len(), 2);
    same(
        rt,
        tasks[0].told(),
        b"placed 1\nstays 1\nleft 1\n".as_slice(),
    );
    same(rt, tasks[1].told(), b"placed 1\n".as_slice());
    same(
        rt,
        (closed.calls, closed.workers, closed.chronicle.len()),
        (6, 1, 6),
    );
    let told = told_in(rt, alloc, &closed.chronicle, SeatNo::new(1));
    same(
        rt,
        told.as_slice(),
        b"placed 1\nstays 1\nleft 1\n".as_slice(),
    );
    let view = closed.chronicle.market().view(ArenaId::new(1));
    holds(rt, matches!(view, Some(arena) if arena.active == 1));
    drop(told);
    drop(tasks);
    drop(closed);
}

#[test]
fn a_worker_visits_while_another_comes(rt: HostRuntime) {
    let cmds = [
        Cmd::Open(8, 1, Level::from_index(1)),
        Cmd::Request(ArenaId::new(1), 2, 0),
        Cmd::Join,
        Cmd::Stay,
        Cmd::Leave,
        Cmd::Join,
    ];
    one_visits_and_one_stays(&rt, rt.alloc(), &cmds);
}

/// An opener that lets nobody work after it.
#[derive(Drop)]
struct Strict;

impl Task for Strict {
    fn work<R: Wait>(
        &mut self,
        rt: &R,
        alloc: Global,
        office: &Office,
        caller: Caller<Pass, Placed>,
    ) -> Caller<Pass, Placed> {
        let _ = rt;
        let _ = alloc;
        let _ = office;
        caller
    }

    fn lets_others_work(&self) -> bool {
        false
    }
}

/// Two tasks come back that have not worked.
fn are_sent_home<R: Threads + Wait + Sync + Abort>(rt: &R, alloc: Global) {
    let mut openers = Vec::new(alloc);
    holds(rt, openers.push(Strict).is_ok());
    let tasks = scripts_of(rt, alloc, &[&[Cmd::Limit], &[Cmd::Limit]]);
    holds(rt, openers.len() == 1 && tasks.len() == 2);
    let Ok(meeting) = meet(rt, alloc, TERMS, openers, tasks) else {
        panic!(rt; "no office");
    };
    same(rt, (meeting.openers.len(), meeting.tasks.len()), (1, 2));
    holds(
        rt,
        meeting.tasks.iter().all(|script| script.told().is_empty()),
    );
    same(rt, (meeting.closed.calls, meeting.closed.workers), (0, 0));
    drop(meeting);
}

#[test]
fn nobody_works_where_an_opener_lets_nobody(rt: HostRuntime) {
    are_sent_home(&rt, rt.alloc());
}

/// Six callers give a command each. Each works once, openers in the order of their seats, and all come back in that order.
fn each_works_once<R: Threads + Wait + Sync + Abort>(rt: &R, alloc: Global, cmds: &[Cmd])
    requires { length cmds.now ≡ 6 }
{
    let openers = scripts_of(rt, alloc, &[&cmds[..1], &cmds[1..2], &cmds[2..3]]);
    let tasks = scripts_of(rt, alloc, &[&cmds[3..4], &cmds[4..5], &cmds[5..]]);
    holds(rt, openers.len() == 3 && tasks.len() == 3);
    let Ok(meeting) = meet(rt, alloc, TERMS, openers, tasks) else {
        panic!(rt; "no office");
    };
    let Meeting {
        closed,
        openers,
        tasks,
    } = meeting;
    same(rt, closed.chronicle.len(), 6);
    for entry in closed.chronicle.kept() {
        let place = entry.call.seat.get() as usize;
        holds(rt, place < 6 && entry.call.cmd == cmds[place]);
    }
    let first = [SeatNo::new(0), SeatNo::new(1), SeatNo::new(2)];
    for (entry, seat) in closed.chronicle.kept().iter().zip(first.iter()) {
        same(rt, entry.call.seat, *seat);
    }
    let mut seat = 0_u8;
    for script in openers.iter().chain(tasks.iter()) {
        let told = told_in(rt, alloc, &closed.chronicle, SeatNo::new(seat));
        same(rt, script.told(), told.as_slice());
        drop(told);
        seat = seat.wrapping_add(1);
    }
    drop(tasks);
    drop(openers);
    drop(closed);
}

#[test]
fn each_caller_works_once_and_comes_back_in_the_order_of_its_seat(rt: HostRuntime) {
    let low = Level::from_index(2);
    let cmds = [
        Cmd::Open(1, 1, low),
        Cmd::Open(2, 1, low),
        Cmd::Open(3, 1, low),
        Cmd::Open(4, 1, low),
        Cmd::Open(5, 1, low),
        Cmd::Open(6, 1, low),
    ];
    each_works_once(&rt, rt.alloc(), &cmds);
}

/// Lets other threads run so often, and then gives a command.
#[derive(Drop)]
struct Late {
    yields: u32,
    cmd: Cmd,
}

impl Task for Late {
    fn work<R: Wait>(
        &mut self,
        rt: &R,
        alloc: Global,
        office: &Office,
        caller: Caller<Pass, Placed>,
    ) -> Caller<Pass, Placed> {
        for _ in 0..self.yields {
            thread::yield_now();
        }
        let Asked { caller, answer } = ask(rt, alloc, office, caller, self.cmd);
        let _ = answer;
        caller
    }

    fn lets_others_work(&self) -> bool {
        true
    }
}

/// One for each command, of which the first comes so late.
fn first_is_late(rt: &impl Abort, alloc: Global, cmds: &[Cmd], yields: u32) -> Vec<Late> {
    let mut late = Vec::new(alloc);
    let mut yields = yields;
    for cmd in cmds {
        holds(rt, late.push(Late { yields, cmd: *cmd }).is_ok());
        yields = 0;
    }
    late
}

/// The first opener takes long. This refuses openers that work at the same time, or in another order, and tasks that do not wait.
fn wait_for_each_opener<R: Threads + Wait + Sync + Abort>(rt: &R, alloc: Global, cmds: &[Cmd])
    requires { length cmds.now ≡ 4 }
{
    let openers = first_is_late(rt, alloc, &cmds[..3], 100_000);
    let tasks = first_is_late(rt, alloc, &cmds[3..], 0);
    holds(rt, openers.len() == 3 && tasks.len() == 1);
    let Ok(meeting) = meet(rt, alloc, TERMS, openers, tasks) else {
        panic!(rt; "no office");
    };
    let kept = meeting.closed.chronicle.kept();
    same(rt, kept.len(), 4);
    for (entry, cmd) in kept.iter().zip(cmds.iter()) {
        holds(rt, entry.call.cmd == *cmd);
    }
    drop(meeting);
}

#[test]
fn each_opener_is_waited_for(rt: HostRuntime) {
    let low = Level::from_index(2);
    let cmds = [
        Cmd::Open(1, 1, low),
        Cmd::Open(2, 1, low),
        Cmd::Open(3, 1, low),
        Cmd::Open(4, 1, low),
    ];
    wait_for_each_opener(&rt, rt.alloc(), &cmds);
}
