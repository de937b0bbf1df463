//! Callers at work in threads of their own.
ghost use Rattle.std.specs.Prelude.{◌≡◌, ◌≤◌, length, vec_len, IfOk};
ghost use Rattle.edit_history.specs.Chronicled.{market_of};
ghost use Rattle.edit_history.specs.Places.{placed as seats_placed};

use crate::fault::DemoFault;
use crate::note::LEVELS;
use crate::visitor::Visitor;
use edit_history::Keeping;
use market_lock::Closed;
use market_types::LastNumber;
use office_crew::{Meeting, MeetingTerms, meet};
use std::alloc::{AllocError, Global};
use std::sync::Wait;
use std::thread::Threads;

/// What the demo's office is opened with.
pub const TERMS: MeetingTerms = MeetingTerms {
    base: 8,
    hard: 64,
    places: 1_048_576,
    levels: LEVELS,
    last: LastNumber::USUAL,
    keeping: Keeping::Everything,
};

/// What is left of the callers' work.
#[derive(Drop)]
pub struct Outcome {
    /// What the office left.
    pub closed: Closed,
    /// How many callers there were.
    pub callers: u8,
    /// How many callers find their own calls in it, in their order.
    pub agreeing: u8,
}

/// A visitor for each seat, no two of one seed.
fn visitors(alloc: Global, callers: u8, calls: u32) -> Result<Vec<Visitor>, AllocError>
    ensures { IfOk result (λ visitors. vec_len visitors ≡ callers) }
{
    let mut visitors = Vec::with_capacity(alloc, usize::from(callers))?;
    for seed in 0..callers {
        visitors.push_reserved(Visitor::new(alloc, u64::from(seed), calls));
    }
    Ok(visitors)
}

/// How many of the visitors find what they noted as their seat's entries.
fn count_agreeing(alloc: Global, closed: &Closed, visitors: &[Visitor]) -> Result<u8, AllocError>
    requires whole { closed.now.chronicle.from ≡ 0 }
    requires few { length visitors.now ≤ 64 }
{
    let mut agreeing = 0_u8;
    for (seat, visitor) in visitors.iter().enumerate() {
        if visitor.notes.agree(alloc, &closed.chronicle, seat as u8)? {
            agreeing = agreeing.saturating_add(1);
        }
    }
    Ok(agreeing)
}

/// So many callers of an office of these terms, which keeps all entries, call so many times each. Neither the journal nor what they
/// noted is written.
pub fn work<R: Threads + Wait + Sync>(
    rt: &R,
    alloc: Global,
    terms: MeetingTerms,
    callers: u8,
    calls: u32,
) -> Result<Outcome, DemoFault>
    requires { callers ≤ 64 }
    ensures callers { IfOk result (λ outcome. outcome.callers ≡ callers) }
    ensures whole { IfOk result (λ outcome. outcome.closed.chronicle.from ≡ 0) }
    ensures calls { IfOk result (λ outcome. outcome.closed.calls ≡ length outcome.closed.chronicle.log) }
    ensures workers { IfOk result (λ outcome. outcome.closed.workers ≡ seats_placed (market_of outcome.closed.chronicle)) }
{
    let visitors = visitors(alloc, callers, calls)?;
    let nobody = Vec::<Visitor>::new(alloc);
    let terms = MeetingTerms {
        keeping: Keeping::Everything,
        ..terms
    };
    let meeting = meet(rt, alloc, terms, nobody, visitors).map_err(|unmet| unmet.fault)?;
    let Meeting {
        closed,
        openers: _,
        tasks,
    } = meeting;
    let agreeing = count_agreeing(alloc, &closed, &tasks)?;
    Ok(Outcome {
        closed,
        callers,
        agreeing,
    })
}
