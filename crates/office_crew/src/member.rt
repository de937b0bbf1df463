//! A caller with its task, in a place that a thread can borrow.
ghost use Rattle.std.specs.Prelude.{◌≡◌, Some, true, false, vec_len, All, Contains};
ghost use Rattle.std.specs.List.{AllZip};
ghost use Rattle.office_crew.specs.Callers.{who_is};
ghost use Rattle.office_crew.specs.Members.{HasDone, OfMember};
ghost use Rattle.office_crew.specs.declared.caller.Caller.TheVariants.{Free};

use crate::caller::{Caller, Task};
use market_lock::{Office, Pass, Placed};
use std::alloc::Global;
use std::marker::{Brand, Model, PhantomData};
use std::sync::Wait;
use std::thread::Threads;
use std::{mem, thread};

/// Names one office.
pub(crate) trait Room {
    ghost use Rattle.atomic_table.specs.Seated.{TableId};

    ghost table: { TableId };
}

impl Room for Brand {
    ghost use Rattle.office_crew.specs.Rooms.{no_table};

    ghost table = { no_table };
}

/// A caller of the room's office and its task. The caller is away only while its task has it.
pub(crate) struct Member<B: Room, T> {
    caller: Option<Caller<Pass, Placed>>,
    task: T,
    room: PhantomData<B>,
}

impl<B: Room, T> Model for Member<B, T> {
    ghost use Rattle.std.specs.Prelude.{◌≡◌, IsSomeAnd};
    ghost use Rattle.office_crew.specs.Callers.{who_is};
    ghost use Rattle.office_crew.specs.Members.{OfMember};

    ghost Value = { OfMember T };

    ghost view = { λ m. record { caller = m.caller; task = m.task } };

    ghost invariant = { λ m. IsSomeAnd m.caller (λ c. (who_is c).table ≡ B.table) };
}

impl<B: Room, T: Task> Member<B, T> {
    /// A pass with its task.
    pub(crate) fn new(pass: Pass, task: T) -> Self
        requires { pass.table ≡ B.table }
        ensures caller { result.caller ≡ Some (Free pass) }
        ensures task { result.task ≡ task }
    {
        Member {
            caller: Some(Caller::Free(pass)),
            task,
            room: PhantomData,
        }
    }

    /// The task works.
    fn work<R: Wait>(&mut self, rt: &R, alloc: Global, office: &Office)
        requires { office.now.table ≡ B.table }
        ensures { HasDone T.worked self.old self.new }
    {
        let taken = self.caller.take();
        let Some(caller) = taken else { unreachable!() };
        let caller = self.task.work(rt, alloc, office, caller);
        let away = mem::replace(&mut self.caller, Some(caller));
        let None = away else { unreachable!() };
    }

    /// Whether others may work after it.
    pub(crate) fn lets_others_work(&self) -> bool
        ensures { T.lets self.now.task result }
    {
        self.task.lets_others_work()
    }

    /// The caller, and the task.
    pub(crate) fn into_parts(self) -> (Caller<Pass, Placed>, T)
        ensures own { (who_is result.0).table ≡ B.table }
        ensures caller { self.caller ≡ Some result.0 }
        ensures task { self.task ≡ result.1 }
    {
        let Member {
            caller,
            task,
            room: _,
        } = self;
        let Some(caller) = caller else { unreachable!() };
        (caller, task)
    }
}

/// A member's task works.
fn work_one<B: Room, T: Task, R: Wait>(
    rt: &R,
    alloc: Global,
    office: &Office,
    member: &mut Member<B, T>,
)
    requires { office.now.table ≡ B.table }
    ensures { HasDone T.worked member.old member.new }
{
    member.work(rt, alloc, office)
}

/// Whether all of them let others work.
pub(crate) fn let_others_work<B: Room, T: Task>(members: &[Member<B, T>]) -> bool
    ensures all { result ≡ true → All (λ (m : OfMember T). T.lets m.task true) members.now }
    ensures one { result ≡ false → (m : OfMember T) × Contains members.now m × T.lets m.task false }
{
    for member in members {
        if !member.lets_others_work() {
            return false;
        }
    }
    true
}

/// Each works, when the one before has ended its work.
fn work_slice_in_turn<B: Room, T: Task, R: Wait>(
    rt: &R,
    alloc: Global,
    office: &Office,
    members: &mut [Member<B, T>],
)
    requires { office.now.table ≡ B.table }
    ensures { AllZip (HasDone T.worked) members.old members.new }
{
    for place in 0..members.len() {
        work_one(rt, alloc, office, &mut members[place]);
    }
}

/// The same of a vector of them.
pub(crate) fn work_in_turn<B: Room, T: Task, R: Wait>(
    rt: &R,
    alloc: Global,
    office: &Office,
    members: Vec<Member<B, T>>,
) -> Vec<Member<B, T>>
    requires { office.now.table ≡ B.table }
    ensures all { vec_len result ≡ vec_len members }
    ensures done { AllZip (HasDone T.worked) members.items result.items }
{
    let mut members = members;
    work_slice_in_turn(rt, alloc, office, members.as_mut_slice());
    members
}

/// All work at the same time, each in a thread of its own, of which this one is one; where none can be made, one after the other.
fn work_slice_at_once<B: Room + Send, T: Task + Send, R: Threads + Wait + Sync>(
    rt: &R,
    alloc: Global,
    office: &Office,
    members: &mut [Member<B, T>],
)
    requires { office.now.table ≡ B.table }
    ensures { AllZip (HasDone T.worked) members.old members.new }
{
    let threads = members.len().max(1);
    let work = |_: usize, member: &mut Member<B, T>|
        requires { office.now.table ≡ B.table }
        ensures { HasDone T.worked member.entry.now member.exit.now }
    { work_one(rt, alloc, office, member) };
    thread::for_each_mut(rt, members, threads, &work);
}

/// The same of a vector of them.
fn work_vec_at_once<B: Room + Send, T: Task + Send, R: Threads + Wait + Sync>(
    rt: &R,
    alloc: Global,
    office: &Office,
    members: Vec<Member<B, T>>,
) -> Vec<Member<B, T>>
    requires { office.now.table ≡ B.table }
    ensures all { vec_len result ≡ vec_len members }
    ensures done { AllZip (HasDone T.worked) members.items result.items }
{
    let mut members = members;
    work_slice_at_once(rt, alloc, office, members.as_mut_slice());
    members
}

/// The same. Where no thread can be made, std's call goes from the last place to the first: so they stand the other way round
/// meanwhile, and work in the order of their seats.
pub(crate) fn work_at_once<B: Room + Send, T: Task + Send, R: Threads + Wait + Sync>(
    rt: &R,
    alloc: Global,
    office: &Office,
    members: Vec<Member<B, T>>,
) -> Vec<Member<B, T>>
    requires { office.now.table ≡ B.table }
    ensures all { vec_len result ≡ vec_len members }
    ensures done { AllZip (HasDone T.worked) members.items result.items }
{
    let mut members = members;
    members.reverse();
    let mut members = work_vec_at_once(rt, alloc, office, members);
    members.reverse();
    members
}
