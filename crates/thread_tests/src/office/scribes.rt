//! An office with two scribes, each of which is told what it missed.
ghost use Rattle.std.specs.Prelude.{◌≡◌, ◌+◌, ◌<◌, vec_len, vec_capacity, All};
ghost use Rattle.market_lock.specs.Seen.{OfPass};

use crate::asserts::{holds, same};
use market_lock::{Closed, Office, Pass};
use market_types::{Cmd, Entry, OpenFault};
use office_crew::{Missed, Scribe};
use std::alloc::Global;
use std::process::Abort;
use std::rt::HostRuntime;
use std::sync::Wait;

/// A pass comes back.
fn put(office: &Office, passes: &mut Vec<Pass>, pass: Pass)
    requires room { vec_len passes.old < vec_capacity passes.old }
    requires own { pass.table ≡ office.now.table }
    requires all { All (λ (p : OfPass). p.table ≡ office.now.table) passes.old.items }
    ensures all { All (λ (p : OfPass). p.table ≡ office.now.table) passes.new.items }
    ensures more { vec_len passes.new ≡ vec_len passes.old + 1 }
    ensures capacity { vec_capacity passes.new ≡ vec_capacity passes.old }
{
    passes.push_reserved(pass);
}

/// The scribe is told of a part that begins behind so many entries.
fn misses<R: Wait + Abort>(
    rt: &R,
    office: &Office,
    scribe: &mut Scribe,
    spare: Vec<Entry>,
    from: u64,
)
    requires { scribe.old.pass.table ≡ office.now.table }
    ensures { scribe.new.pass.table ≡ office.now.table }
{
    let missed = scribe.cut(rt, office, spare);
    holds(
        rt,
        matches!(&missed, Err(Missed::Elsewhere(part)) if part.from == from),
    );
}

/// Two scribes on one office: the second is told that its part begins behind the first one's.
fn two_scribes<R: Wait + Abort>(rt: &R, alloc: Global, office: Office, passes: Vec<Pass>) -> Closed
    requires own { All (λ (p : OfPass). p.table ≡ office.table) passes.items }
    requires two { (vec_len passes ≡ 2) × (office.terms.opening.seats ≡ 2) }
{
    let mut passes = passes;
    let Some(second) = passes.pop() else {
        unreachable!()
    };
    let Some(first) = passes.pop() else {
        unreachable!()
    };
    let (mut first, mut second) = (Scribe::new(first), Scribe::new(second));
    drop(first.call(rt, alloc, &office, Cmd::Limit));
    let Ok(part) = first.cut(rt, &office, Vec::new(alloc)) else {
        panic!(rt; "no part");
    };
    holds(rt, part.from == 0 && part.entries.len() == 1);
    drop(first.call(rt, alloc, &office, Cmd::Lists));
    misses(rt, &office, &mut second, part.entries, 1);
    same(rt, second.written(), 0);
    // The entry that the second scribe was told of is out, so that the first one misses it.
    misses(rt, &office, &mut first, Vec::new(alloc), 2);
    same(rt, first.written(), 1);
    put(&office, &mut passes, first.into_pass());
    put(&office, &mut passes, second.into_pass());
    office.close(passes, Vec::new(alloc))
}

fn opened_for_two<R: Wait + Abort>(rt: &R, alloc: Global) -> Result<Closed, OpenFault> {
    let (office, passes) = Office::open_in_parts(alloc, 8, 64, 2, 1000, 3)?;
    Ok(two_scribes(rt, alloc, office, passes))
}

#[test]
fn a_second_scribe_is_told_what_it_missed(rt: HostRuntime) {
    let answer = opened_for_two(&rt, rt.alloc());
    let Ok(closed) = answer else {
        panic!(&rt; "no office");
    };
    same(&rt, closed.calls, 2);
    drop(closed);
}
