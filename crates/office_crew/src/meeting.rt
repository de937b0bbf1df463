//! An office is opened, its callers work, and it is closed.
ghost use Rattle.std.specs.Prelude.{◌≡◌, ◌⊎◌, Err, Some, ◌+◌, ◌<◌, ◌≤◌, ◌++◌, [], ℕ, Bool, reverse, slice_get, vec_len, vec_capacity, length, IfOk, IfErr, All};
ghost use Rattle.std.specs.List.{AllZip};
ghost use Rattle.market_types.specs.State.{opening_to};
ghost use Rattle.market_lock.specs.Headline.{IsGivenBy};
ghost use Rattle.market_lock.specs.Seen.{OfPass, OfPlaced, fresh};
ghost use Rattle.market_lock.specs.Views.{opening_of, chronicle_cut};
ghost use Rattle.edit_history.specs.Chronicled.{market_of, opened_by};
ghost use Rattle.edit_history.specs.Places.{placed as seats_placed};
ghost use Rattle.office_crew.specs.Callers.{terms_of};
ghost use Rattle.office_crew.specs.Members.{AreSeated, HasDone, OfMember, free_of, tasks_of, working_of};
ghost use Rattle.office_crew.specs.Works.{HasFollowed, HaveWorked};

use crate::caller::{Caller, Task};
use crate::member::{Member, Room, let_others_work, work_at_once, work_in_turn};
use edit_history::{Keeping, Terms};
use market_lock::{Closed, Office, Pass, Placed};
use market_types::{LastNumber, OpenFault, Opening};
use std::alloc::{AllocError, Global};
use std::marker::Brand;
use std::sync::Wait;
use std::thread::Threads;

/// What an office is opened with, as `Office::on_terms` takes it. It has a seat for each task.
#[derive(Clone, Copy, Debug)]
pub struct MeetingTerms {
    pub base: u32,
    pub hard: u32,
    /// Where no entries are kept, two more than seats are enough.
    pub places: u32,
    pub levels: u32,
    pub last: LastNumber,
    /// Entries that are to be cut out in parts take places until a task cuts them out with its pass, by `Office::cut`.
    pub keeping: Keeping,
}

/// What is left when all have met.
#[derive(Drop)]
pub struct Meeting<O, T> {
    /// What the office left.
    pub closed: Closed,
    /// The openers, in the order of their seats.
    pub openers: Vec<O>,
    /// The tasks, in the order of their seats.
    pub tasks: Vec<T>,
}

/// A meeting that did not come about. Nobody has worked.
#[derive(Drop)]
pub struct Unmet<O, T> {
    /// Why there is none.
    pub fault: OpenFault,
    /// The openers, as they were given.
    pub openers: Vec<O>,
    /// The tasks, as they were given.
    pub tasks: Vec<T>,
}

/// Memory ran out before anybody worked: all passes go back.
fn sent_home<O, T>(
    alloc: Global,
    office: Office,
    passes: Vec<Pass>,
    openers: Vec<O>,
    tasks: Vec<T>,
) -> Unmet<O, T>
    requires own { All (λ (p : OfPass). p.table ≡ office.table) passes.items }
    requires all { vec_len passes ≡ office.terms.opening.seats }
    ensures memory { result.fault ≡ OpenFault.Memory }
    ensures same { (result.openers ≡ openers) × (result.tasks ≡ tasks) }
{
    drop(office.close(passes, Vec::new(alloc)));
    Unmet {
        fault: OpenFault::Memory,
        openers,
        tasks,
    }
}

/// A pass with each task, the last ones. The last seat's comes first.
fn seated<B: Room, T: Task>(
    passes: &mut Vec<Pass>,
    tasks: &mut Vec<T>,
    members: &mut Vec<Member<B, T>>,
)
    requires own { All (λ (p : OfPass). p.table ≡ B.table) passes.old.items }
    requires enough { vec_len tasks.old ≤ vec_len passes.old }
    requires room { (vec_len members.old ≡ 0) × (vec_len tasks.old ≤ vec_capacity members.old) }
    requires empty { members.old.items ≡ [] }
    ensures own { All (λ (p : OfPass). p.table ≡ B.table) passes.new.items }
    ensures all { vec_len members.new ≡ vec_len tasks.old }
    ensures seated { AreSeated passes.old.items passes.new.items tasks.old.items tasks.new.items members.new.items }
    ensures none_left { tasks.new.items ≡ [] }
    ensures left { vec_len passes.new + vec_len tasks.old ≡ vec_len passes.old }
    ensures capacity { (vec_capacity passes.new ≡ vec_capacity passes.old) × (vec_capacity tasks.new ≡ vec_capacity tasks.old) }
{
    while let Some(task) = tasks.pop() {
        let Some(pass) = passes.pop() else {
            unreachable!()
        };
        members.push_reserved(Member::new(pass, task));
    }
}

/// Each member's caller and task, the last first. Those that are placed stand apart.
fn gathered<B: Room, T: Task>(
    members: Vec<Member<B, T>>,
    passes: &mut Vec<Pass>,
    placed: &mut Vec<Placed>,
    tasks: &mut Vec<T>,
)
    requires own { All (λ (p : OfPass). p.table ≡ B.table) passes.old.items }
    requires own_placed { All (λ (p : OfPlaced). p.who.table ≡ B.table) placed.old.items }
    requires room { (vec_len passes.old + vec_len members ≤ vec_capacity passes.old) × (vec_len placed.old + vec_len members ≤ vec_capacity placed.old) × (vec_len tasks.old + vec_len members ≤ vec_capacity tasks.old) }
    ensures own { All (λ (p : OfPass). p.table ≡ B.table) passes.new.items }
    ensures own_placed { All (λ (p : OfPlaced). p.who.table ≡ B.table) placed.new.items }
    ensures all { vec_len passes.new + vec_len placed.new ≡ (vec_len passes.old + vec_len placed.old) + vec_len members }
    ensures count { vec_len tasks.new ≡ vec_len tasks.old + vec_len members }
    ensures tasks { tasks.new.items ≡ tasks.old.items ++ tasks_of (reverse members.items) }
    ensures free { passes.new.items ≡ passes.old.items ++ free_of (reverse members.items) }
    ensures working { placed.new.items ≡ placed.old.items ++ working_of (reverse members.items) }
    ensures capacity { (vec_capacity passes.new ≡ vec_capacity passes.old) × (vec_capacity placed.new ≡ vec_capacity placed.old) }
{
    let mut left = members;
    while let Some(member) = left.pop() {
        let (caller, task) = member.into_parts();
        tasks.push_reserved(task);
        match caller {
            Caller::Free(pass) => passes.push_reserved(pass),
            Caller::Working(worker) => placed.push_reserved(worker),
        }
    }
    left.destroy_empty();
}

/// Room for members of two kinds, `X` and `Y`, and for those that are placed in the end.
struct Rooms<X, Y, Z> {
    first: Vec<X>,
    others: Vec<Y>,
    placed: Vec<Z>,
}

/// Room for so many of each.
fn make_rooms<X, Y, Z>(
    alloc: Global,
    openers: usize,
    tasks: usize,
) -> Result<Rooms<X, Y, Z>, AllocError>
    requires few { openers + tasks ≤ 64 }
    ensures empty { IfOk result (λ rooms. (vec_len rooms.first ≡ 0) × (vec_len rooms.others ≡ 0) × (vec_len rooms.placed ≡ 0)) }
    ensures fresh { IfOk result (λ rooms. (rooms.first.items ≡ []) × (rooms.others.items ≡ []) × (rooms.placed.items ≡ [])) }
    ensures room { IfOk result (λ rooms. (openers ≤ vec_capacity rooms.first) × (tasks ≤ vec_capacity rooms.others) × (openers + tasks ≤ vec_capacity rooms.placed)) }
{
    let first = Vec::with_capacity(alloc, openers)?;
    let Ok(others) = Vec::with_capacity(alloc, tasks) else {
        first.destroy_empty();
        return Err(AllocError);
    };
    let Ok(placed) = Vec::with_capacity(alloc, openers + tasks) else {
        first.destroy_empty();
        others.destroy_empty();
        return Err(AllocError);
    };
    Ok(Rooms {
        first,
        others,
        placed,
    })
}

/// The openers work one after the other, and where they let them the tasks after them.
fn work_in_order<B: Room + Send, O: Task + Send, T: Task + Send, R: Threads + Wait + Sync>(
    rt: &R,
    alloc: Global,
    office: &Office,
    first: Vec<Member<B, O>>,
    others: Vec<Member<B, T>>,
) -> (Vec<Member<B, O>>, Vec<Member<B, T>>)
    requires { office.now.table ≡ B.table }
    ensures all { (vec_len result.0 ≡ vec_len first) × (vec_len result.1 ≡ vec_len others) }
    ensures first { AllZip (HasDone O.worked) first.items result.0.items }
    ensures others { HasFollowed (λ (m : OfMember O) (b : Bool). O.lets m.task b) result.0.items (AllZip (HasDone T.worked) others.items result.1.items) (result.1.items ≡ others.items) }
{
    let first = work_in_turn(rt, alloc, office, first);
    if !let_others_work(first.as_slice()) {
        return (first, others);
    }
    (first, work_at_once(rt, alloc, office, others))
}

/// The callers of an open office work, and it is closed.
pub(crate) fn met<B: Room + Send, O: Task + Send, T: Task + Send, R: Threads + Wait + Sync>(
    rt: &R,
    alloc: Global,
    office: Office,
    passes: Vec<Pass>,
    openers: Vec<O>,
    tasks: Vec<T>,
) -> Result<Meeting<O, T>, Unmet<O, T>>
    requires office { office.table ≡ B.table }
    requires own { All (λ (p : OfPass). p.table ≡ office.table) passes.items }
    requires unused { (k : ℕ) → k < office.terms.opening.seats → slice_get passes.items k ≡ Some (fresh office k) }
    requires all { (vec_len passes ≡ office.terms.opening.seats) × (vec_len openers + vec_len tasks ≡ office.terms.opening.seats) }
    requires few { vec_len openers + vec_len tasks ≤ 64 }
    ensures headline { IfOk result (λ meeting. IsGivenBy (opening_of office.terms) meeting.closed.chronicle) }
    ensures whole { IfOk result (λ meeting. meeting.closed.chronicle ≡ chronicle_cut office.terms meeting.closed.chronicle.log meeting.closed.chronicle.from) }
    ensures calls { IfOk result (λ meeting. meeting.closed.calls ≡ length meeting.closed.chronicle.log) }
    ensures workers { IfOk result (λ meeting. meeting.closed.workers ≡ seats_placed (market_of meeting.closed.chronicle)) }
    ensures tasks { IfOk result (λ meeting. (vec_len meeting.openers ≡ vec_len openers) × (vec_len meeting.tasks ≡ vec_len tasks)) }
    ensures opened { IfOk result (λ meeting. HaveWorked O.worked office.terms meeting.closed.chronicle.log 0 openers.items meeting.openers.items) }
    ensures worked { IfOk result (λ meeting. HasFollowed O.lets meeting.openers.items (HaveWorked T.worked office.terms meeting.closed.chronicle.log (vec_len openers) tasks.items meeting.tasks.items) (meeting.tasks.items ≡ tasks.items)) }
    ensures memory { IfErr result (λ unmet. unmet.fault ≡ OpenFault.Memory) }
    ensures unmet { IfErr result (λ unmet. (unmet.openers ≡ openers) × (unmet.tasks ≡ tasks)) }
{
    let rooms = make_rooms::<Member<B, O>, Member<B, T>, Placed>(alloc, openers.len(), tasks.len());
    let Ok(
        Rooms {
            mut first,
            mut others,
            mut placed,
        },
    ) = rooms
    else {
        return Err(sent_home(alloc, office, passes, openers, tasks));
    };
    let (mut passes, mut openers, mut tasks) = (passes, openers, tasks);
    seated(&mut passes, &mut tasks, &mut others);
    seated(&mut passes, &mut openers, &mut first);
    others.reverse();
    first.reverse();
    let (first, others) = work_in_order(rt, alloc, &office, first, others);
    gathered(others, &mut passes, &mut placed, &mut tasks);
    gathered(first, &mut passes, &mut placed, &mut openers);
    tasks.reverse();
    openers.reverse();
    Ok(Meeting {
        closed: office.close(passes, placed),
        openers,
        tasks,
    })
}

/// Opens an office with a seat for each opener and then each task, and lets each work once with its seat's pass: the openers one
/// after the other, in the calling thread; when all have ended, and let others work, the tasks at the same time, each in a thread
/// of its own, of which the calling thread is one. Where no thread can be made they work in the calling thread. It waits for all
/// of them, and closes the office. They come back in the order of their seats, and what each says of its work by `worked` is so
/// of what it was and has become, of its seat's new pass and of that pass in the end. The history that is left is the whole one;
/// the entries of it that can still be read are those that the office kept. The faults are those of `Office::on_terms`, and
/// `Memory`; nobody has worked then, and all come back.
pub fn meet<O: Task + Send, T: Task + Send, R: Threads + Wait + Sync>(
    rt: &R,
    alloc: Global,
    terms: MeetingTerms,
    openers: Vec<O>,
    tasks: Vec<T>,
) -> Result<Meeting<O, T>, Unmet<O, T>>
    requires few { vec_len openers + vec_len tasks ≤ 64 }
    ensures headline { IfOk result (λ meeting. IsGivenBy (opening_to terms.base terms.hard (vec_len openers + vec_len tasks) terms.levels terms.last) meeting.closed.chronicle) }
    ensures whole { IfOk result (λ meeting. meeting.closed.chronicle ≡ chronicle_cut (terms_of terms (vec_len openers + vec_len tasks)) meeting.closed.chronicle.log meeting.closed.chronicle.from) }
    ensures calls { IfOk result (λ meeting. meeting.closed.calls ≡ length meeting.closed.chronicle.log) }
    ensures workers { IfOk result (λ meeting. meeting.closed.workers ≡ seats_placed (market_of meeting.closed.chronicle)) }
    ensures tasks { IfOk result (λ meeting. (vec_len meeting.openers ≡ vec_len openers) × (vec_len meeting.tasks ≡ vec_len tasks)) }
    ensures opened { IfOk result (λ meeting. HaveWorked O.worked (terms_of terms (vec_len openers + vec_len tasks)) meeting.closed.chronicle.log 0 openers.items meeting.openers.items) }
    ensures worked { IfOk result (λ meeting. HasFollowed O.lets meeting.openers.items (HaveWorked T.worked (terms_of terms (vec_len openers + vec_len tasks)) meeting.closed.chronicle.log (vec_len openers) tasks.items meeting.tasks.items) (meeting.tasks.items ≡ tasks.items)) }
    ensures refused { IfErr result (λ unmet. (unmet.fault ≡ OpenFault.Memory) ⊎ (opened_by (terms_of terms (vec_len openers + vec_len tasks)) ≡ Err unmet.fault)) }
    ensures unmet { IfErr result (λ unmet. (unmet.openers ≡ openers) × (unmet.tasks ≡ tasks)) }
{
    let opening = Opening {
        base: terms.base,
        hard: terms.hard,
        seats: (openers.len() + tasks.len()) as u8,
        levels: terms.levels,
        last: terms.last,
    };
    let terms = Terms {
        opening,
        places: terms.places,
        keeping: terms.keeping,
    };
    match Office::on_terms(alloc, terms) {
        Err(fault) => Err(Unmet {
            fault,
            openers,
            tasks,
        }),
        Ok((office, passes)) => { met::<Brand, O, T, R>(rt, alloc, office, passes, openers, tasks) }
    }
}
