//! Attempts, which do not wait: at a desk that is at home each is made, at one that is away it is told so and a later one is made, and
//! threads that make nothing but attempts lose no call.
ghost use Rattle.std.specs.Prelude.{◌≡◌, ◌+◌, ◌<◌, vec_len, vec_capacity, All, false};
ghost use Rattle.market_types.specs.Commands.{moves_seat};
ghost use Rattle.market_lock.specs.Moves.{HasJoined, HasStayed};
ghost use Rattle.market_lock.specs.Seen.{IsSamePass, OfPass};

use crate::asserts::{holds, same};
use edit_history::{CallFault, Keeping};
use market_lock::{Attempt, Closed, Joined, Office, Pass, Placed, Stayed};
use market_types::{ArenaId, Cmd, Entry, LastNumber, Level, OpenFault, Reply};
use office_crew::{Caller, MeetingTerms, Task, meet};
use std::alloc::Global;
use std::process::Abort;
use std::rt::HostRuntime;
use std::sync::Wait;
use std::thread;
use std::thread::Threads;

/// The terms of an office that answers as many calls as these tests make.
const TERMS: MeetingTerms = MeetingTerms {
    base: 8,
    hard: 64,
    places: 6,
    levels: 3,
    last: LastNumber::USUAL,
    keeping: Keeping::Nothing,
};

/// A pass comes back.
fn put(office: &Office, passes: &mut Vec<Pass>, pass: Pass)
    requires room { vec_len passes.old < vec_capacity passes.old }
    requires own { pass.table ≡ office.now.table }
    requires all { All (λ (p : OfPass). p.table ≡ office.now.table) passes.old.items }
    ensures all { All (λ (p : OfPass). p.table ≡ office.now.table) passes.new.items }
    ensures more { vec_len passes.new ≡ vec_len passes.old + 1 }
    ensures capacity { vec_capacity passes.new ≡ vec_capacity passes.old }
{
    passes.push_reserved(pass);
}

/// A call of the pass is made by one attempt.
fn call_at_once(rt: &impl Abort, alloc: Global, office: &Office, pass: &mut Pass, cmd: Cmd)
    requires own { pass.old.table ≡ office.now.table }
    requires still { moves_seat cmd ≡ false }
    ensures own { pass.new.table ≡ office.now.table }
{
    let tried = office.try_call(alloc, pass, cmd);
    holds(rt, matches!(&tried, Attempt::Made(Ok(_))));
}

/// What was called so far, two entries, is cut out by one attempt.
fn cut_at_once(rt: &impl Abort, office: &Office, pass: &mut Pass, spare: Vec<Entry>)
    requires own { pass.old.table ≡ office.now.table }
    ensures own { pass.new.table ≡ office.now.table }
{
    let tried = office.try_cut(pass, spare);
    holds(
        rt,
        matches!(&tried, Attempt::Made(Some(part)) if part.from == 0 && part.entries.len() == 2),
    );
}

/// The worker leaves by one attempt.
fn leave_at_once<R: Wait + Abort>(rt: &R, office: &Office, worker: Placed) -> Pass
    requires own { worker.who.table ≡ office.now.table }
    ensures own { result.table ≡ office.now.table }
{
    match office.try_leave(worker) {
        Attempt::Made(pass) => pass,
        Attempt::Busy(worker) => {
            holds(rt, false);
            office.leave(rt, worker)
        }
    }
}

/// The worker asks for the limit, stays and leaves, each by one attempt.
fn stay_at_once<R: Wait + Abort>(rt: &R, alloc: Global, office: &Office, worker: Placed) -> Pass
    requires own { worker.who.table ≡ office.now.table }
    ensures own { result.table ≡ office.now.table }
{
    let mut worker = worker;
    let tried = office.try_call_placed(alloc, &mut worker, Cmd::Limit);
    holds(rt, matches!(&tried, Attempt::Made(Ok(_))));
    match office.try_stay(alloc, worker) {
        Attempt::Made(Stayed::Stays(worker)) => leave_at_once(rt, office, worker),
        Attempt::Made(Stayed::Recalled(pass)) => pass,
        Attempt::Made(Stayed::Failed(worker, _)) => office.leave(rt, worker),
        Attempt::Busy(worker) => {
            holds(rt, false);
            office.leave(rt, worker)
        }
    }
}

/// The pass joins by one attempt, and the worker that it becomes stays and leaves.
fn join_at_once<R: Wait + Abort>(rt: &R, alloc: Global, office: &Office, pass: Pass) -> Pass
    requires own { pass.table ≡ office.now.table }
    ensures own { result.table ≡ office.now.table }
{
    match office.try_join(alloc, pass) {
        Attempt::Made(Joined::Placed(worker)) => stay_at_once(rt, alloc, office, worker),
        Attempt::Made(Joined::Idle(pass)) => pass,
        Attempt::Made(Joined::Failed(pass, _)) => pass,
        Attempt::Busy(pass) => {
            holds(rt, false);
            pass
        }
    }
}

/// One seat opens an arena that asks for a worker, and cuts these two entries out; the other visits it.
fn each_at_once<R: Wait + Abort>(rt: &R, alloc: Global, office: Office, passes: Vec<Pass>) -> Closed
    requires own { All (λ (p : OfPass). p.table ≡ office.table) passes.items }
    requires two { (vec_len passes ≡ 2) × (office.terms.opening.seats ≡ 2) }
{
    let mut passes = passes;
    let Some(second) = passes.pop() else {
        unreachable!()
    };
    let Some(mut first) = passes.pop() else {
        unreachable!()
    };
    let open = Cmd::Open(8, 1, Level::from_index(1));
    call_at_once(rt, alloc, &office, &mut first, open);
    let request = Cmd::Request(ArenaId::new(1), 1, 0);
    call_at_once(rt, alloc, &office, &mut first, request);
    cut_at_once(rt, &office, &mut first, Vec::new(alloc));
    let second = join_at_once(rt, alloc, &office, second);
    put(&office, &mut passes, first);
    put(&office, &mut passes, second);
    office.close(passes, Vec::<Placed>::new(alloc))
}

fn opened_for_two<R: Wait + Abort>(rt: &R, alloc: Global) -> Result<Closed, OpenFault> {
    let (office, passes) = Office::open_in_parts(alloc, 8, 64, 2, 100, 3)?;
    Ok(each_at_once(rt, alloc, office, passes))
}

/// This refuses attempts that tell of a busy desk where nobody has it.
#[test]
fn an_attempt_at_a_desk_that_is_at_home_is_made(rt: HostRuntime) {
    let answer = opened_for_two(&rt, rt.alloc());
    let Ok(closed) = answer else {
        panic!(&rt; "no office");
    };
    same(&rt, (closed.calls, closed.workers), (6, 0));
    same(
        &rt,
        (closed.chronicle.len(), closed.chronicle.kept().len()),
        (6, 4),
    );
    drop(closed);
}

/// A call by attempts, until one is made.
fn insist<R: Wait>(
    rt: &R,
    alloc: Global,
    office: &Office,
    pass: &mut Pass,
    cmd: &Cmd,
) -> Result<Reply, CallFault>
    requires own { pass.old.table ≡ office.now.table }
    requires still { moves_seat cmd.now ≡ false }
    ensures same { IsSamePass pass.old pass.new }
{
    for _ in rt.forever() {
        match office.try_call(alloc, pass, *cmd) {
            Attempt::Made(answer) => return answer,
            Attempt::Busy(()) => thread::yield_now(),
        }
    }
    unreachable!()
}

/// Joins by attempts, until one is made.
fn insist_on_joining<R: Wait>(
    rt: &R,
    alloc: Global,
    office: &Office,
    pass: Pass,
) -> Joined<Pass, Placed>
    requires own { pass.table ≡ office.now.table }
    ensures exact { HasJoined pass result }
{
    let mut pass = pass;
    for _ in rt.forever() {
        match office.try_join(alloc, pass) {
            Attempt::Made(joined) => return joined,
            Attempt::Busy(back) => pass = back,
        }
        thread::yield_now();
    }
    unreachable!()
}

/// Asks by attempts whether the worker stays, until one is made.
fn insist_on_staying<R: Wait>(
    rt: &R,
    alloc: Global,
    office: &Office,
    worker: Placed,
) -> Stayed<Pass, Placed>
    requires own { worker.who.table ≡ office.now.table }
    ensures exact { HasStayed worker result }
{
    let mut worker = worker;
    for _ in rt.forever() {
        match office.try_stay(alloc, worker) {
            Attempt::Made(stayed) => return stayed,
            Attempt::Busy(back) => worker = back,
        }
        thread::yield_now();
    }
    unreachable!()
}

/// Leaves by attempts, until one is made.
fn insist_on_leaving<R: Wait>(rt: &R, office: &Office, worker: Placed) -> Pass
    requires own { worker.who.table ≡ office.now.table }
    ensures same { IsSamePass worker.who result }
{
    let mut worker = worker;
    for _ in rt.forever() {
        match office.try_leave(worker) {
            Attempt::Made(pass) => return pass,
            Attempt::Busy(back) => worker = back,
        }
        thread::yield_now();
    }
    unreachable!()
}

/// Opens an arena and visits so many times, by attempts alone, and counts what it was answered.
#[derive(Drop)]
struct Insistent {
    times: u32,
    answered: u64,
}

impl Insistent {
    /// One call more was answered.
    fn count(&mut self) {
        self.answered = self.answered.saturating_add(1);
    }

    /// Joins, stays and leaves.
    fn visit<R: Wait>(&mut self, rt: &R, alloc: Global, office: &Office, pass: Pass) -> Pass
        requires own { pass.table ≡ office.now.table }
        ensures same { IsSamePass pass result }
    {
        let worker = match insist_on_joining(rt, alloc, office, pass) {
            Joined::Placed(worker) => worker,
            Joined::Idle(pass) => {
                self.count();
                return pass;
            }
            Joined::Failed(pass, _) => return pass,
        };
        self.count();
        match insist_on_staying(rt, alloc, office, worker) {
            Stayed::Stays(worker) => {
                self.count();
                self.count();
                insist_on_leaving(rt, office, worker)
            }
            Stayed::Recalled(pass) => {
                self.count();
                pass
            }
            Stayed::Failed(worker, _) => {
                self.count();
                insist_on_leaving(rt, office, worker)
            }
        }
    }

    /// Opens an arena of two slots that asks for a worker, and visits.
    fn visit_often<R: Wait>(&mut self, rt: &R, alloc: Global, office: &Office, pass: Pass) -> Pass
        requires own { pass.table ≡ office.now.table }
        ensures same { IsSamePass pass result }
    {
        let mut pass = pass;
        let open = Cmd::Open(2, 1, Level::from_index(1));
        let opened = insist(rt, alloc, office, &mut pass, &open);
        if let Ok(Reply::Opened(arena)) = &opened {
            self.count();
            let request = Cmd::Request(*arena, 1, 0);
            if insist(rt, alloc, office, &mut pass, &request).is_ok() {
                self.count();
            }
        }
        for _ in 0..self.times {
            pass = self.visit(rt, alloc, office, pass);
        }
        pass
    }
}

impl Task for Insistent {
    fn work<R: Wait>(
        &mut self,
        rt: &R,
        alloc: Global,
        office: &Office,
        caller: Caller<Pass, Placed>,
    ) -> Caller<Pass, Placed> {
        match caller {
            Caller::Free(pass) => Caller::Free(self.visit_often(rt, alloc, office, pass)),
            Caller::Working(worker) => Caller::Working(worker),
        }
    }

    fn lets_others_work(&self) -> bool {
        true
    }
}

/// Four callers visit at the same time, by attempts alone.
fn four_insist<R: Threads + Wait + Sync + Abort>(rt: &R, alloc: Global, times: u32) {
    let mut tasks = Vec::new(alloc);
    for _ in 0..4 {
        let task = Insistent { times, answered: 0 };
        holds(rt, tasks.push(task).is_ok());
    }
    same(rt, tasks.len(), 4);
    let Ok(meeting) = meet(rt, alloc, TERMS, Vec::<Insistent>::new(alloc), tasks) else {
        panic!(rt; "no office");
    };
    let answered = meeting
        .tasks
        .iter()
        .fold(0_u64, |sum, task| sum.saturating_add(task.answered));
    // Each opened an arena and asked for a worker, and its visits were three calls each, or one.
    holds(
        rt,
        answered >= 4 * (2 + u64::from(times)) && answered <= 4 * (2 + 3 * u64::from(times)),
    );
    same(
        rt,
        (meeting.closed.calls, meeting.closed.chronicle.len()),
        (answered, answered),
    );
    same(rt, meeting.closed.workers, 0);
    drop(meeting);
}

#[test]
fn four_threads_that_make_attempts_alone_lose_no_call(rt: HostRuntime) {
    four_insist(&rt, rt.alloc(), 20_000);
}

/// One asks for an arena until it is there; the other opens it, once an attempt of its own has found the desk away.
#[derive(Drop)]
struct Player {
    opens: bool,
    answered: u64,
    busy: u64,
}

impl Player {
    /// Attempts until one finds the desk away.
    fn find_it_away<R: Wait>(&mut self, rt: &R, alloc: Global, office: &Office, pass: &mut Pass)
        requires own { pass.old.table ≡ office.now.table }
        ensures same { IsSamePass pass.old pass.new }
    {
        for _ in rt.forever() {
            match office.try_call(alloc, pass, Cmd::Limit) {
                Attempt::Made(_) => self.answered = self.answered.saturating_add(1),
                Attempt::Busy(()) => {
                    self.busy = self.busy.saturating_add(1);
                    return;
                }
            }
        }
        unreachable!()
    }

    /// Asks for the arena until it is there.
    fn look_for_it<R: Wait>(&mut self, rt: &R, alloc: Global, office: &Office, pass: &mut Pass)
        requires own { pass.old.table ≡ office.now.table }
        ensures same { IsSamePass pass.old pass.new }
    {
        let show = Cmd::Show(ArenaId::new(1));
        for _ in rt.forever() {
            let answer = insist(rt, alloc, office, pass, &show);
            self.answered = self.answered.saturating_add(1);
            if matches!(&answer, Ok(Reply::Shown(_))) {
                return;
            }
        }
        unreachable!()
    }

    /// Plays its part.
    fn play<R: Wait>(&mut self, rt: &R, alloc: Global, office: &Office, pass: &mut Pass)
        requires own { pass.old.table ≡ office.now.table }
        ensures same { IsSamePass pass.old pass.new }
    {
        if !self.opens {
            self.look_for_it(rt, alloc, office, pass);
            return;
        }
        self.find_it_away(rt, alloc, office, pass);
        let open = Cmd::Open(8, 1, Level::from_index(1));
        if insist(rt, alloc, office, pass, &open).is_ok() {
            self.answered = self.answered.saturating_add(1);
        }
    }
}

impl Task for Player {
    fn work<R: Wait>(
        &mut self,
        rt: &R,
        alloc: Global,
        office: &Office,
        caller: Caller<Pass, Placed>,
    ) -> Caller<Pass, Placed> {
        match caller {
            Caller::Free(pass) => {
                let mut pass = pass;
                self.play(rt, alloc, office, &mut pass);
                Caller::Free(pass)
            }
            Caller::Working(worker) => Caller::Working(worker),
        }
    }

    fn lets_others_work(&self) -> bool {
        true
    }
}

/// Both play.
fn two_play<R: Threads + Wait + Sync + Abort>(rt: &R, alloc: Global) {
    let mut tasks = Vec::new(alloc);
    for opens in [true, false] {
        let task = Player {
            opens,
            answered: 0,
            busy: 0,
        };
        holds(rt, tasks.push(task).is_ok());
    }
    same(rt, tasks.len(), 2);
    let Ok(meeting) = meet(rt, alloc, TERMS, Vec::<Player>::new(alloc), tasks) else {
        panic!(rt; "no office");
    };
    same(rt, meeting.tasks.len(), 2);
    same(rt, meeting.tasks[0].busy, 1);
    let answered = meeting.tasks[0]
        .answered
        .saturating_add(meeting.tasks[1].answered);
    same(
        rt,
        (meeting.closed.calls, meeting.closed.chronicle.len()),
        (answered, answered),
    );
    drop(meeting);
}

/// The test ends because an attempt was told that the desk was away, and because the one after it that found it at home was made.
#[test]
fn a_busy_desk_is_told_and_a_later_attempt_is_made(rt: HostRuntime) {
    two_play(&rt, rt.alloc());
}
