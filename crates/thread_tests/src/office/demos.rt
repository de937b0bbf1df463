//! Callers in threads of their own: each finds its own calls in the one history, which a market of one thread answers alike.
ghost use Rattle.std.specs.Prelude.{◌≡◌, ◌≤◌};

use crate::asserts::{holds, same};
use byte_devices::{DeviceFault, Sink, TestSink};
use demo_callers::{DemoFault, Outcome, Record, TERMS, last, work};
use edit_history::Chronicle;
use journal_replay::{Verdict, check};
use market_core::Market;
use market_texts::push_reply;
use market_types::Entry;
use office_crew::MeetingTerms;
use std::alloc::{AllocError, Global};
use std::process::Abort;
use std::rt::HostRuntime;
use std::sync::{Mutex, Wait};
use std::thread::Threads;
use std::time::Duration;

/// The market gives the entry's reply to its command.
fn answers(
    rt: &impl Abort,
    alloc: Global,
    market: &mut Market,
    entry: &Entry,
) -> Result<bool, AllocError> {
    holds(rt, entry.call.seat.get() < market.seats());
    let due = market.apply(alloc, entry.call.seat, entry.call.cmd)?;
    let (mut due_text, mut told_text) = (Vec::new(alloc), Vec::new(alloc));
    push_reply(&mut due_text, &due)?;
    push_reply(&mut told_text, &entry.reply)?;
    Ok(due_text.as_slice() == told_text.as_slice())
}

/// The market answers each call of the chronicle as it was answered.
fn are_answered_alike(
    rt: &impl Abort,
    alloc: Global,
    market: &mut Market,
    chronicle: &Chronicle,
) -> Result<bool, AllocError>
    requires whole { chronicle.now.from ≡ 0 }
{
    for index in 0..chronicle.len() {
        if !answers(rt, alloc, market, chronicle.entry(index))? {
            return Ok(false);
        }
    }
    Ok(true)
}

/// So does a market of one thread.
fn is_answered_alike(
    rt: &impl Abort,
    alloc: Global,
    chronicle: &Chronicle,
) -> Result<bool, AllocError>
    requires whole { chronicle.now.from ≡ 0 }
{
    let asked = chronicle.market();
    let (base, hard) = (asked.base(), asked.hard());
    let Ok(mut market) = Market::new(alloc, base, hard, asked.seats(), asked.levels()) else {
        panic!(rt; "no market");
    };
    let alike = are_answered_alike(rt, alloc, &mut market, chronicle);
    drop(market);
    alike
}

/// So many callers meet in one history.
fn meets<R: Threads + Wait + Sync + Abort>(
    rt: &R,
    alloc: Global,
    terms: MeetingTerms,
    callers: u8,
    calls: u32,
) -> Outcome
    requires { callers ≤ 64 }
{
    let Ok(outcome) = work(rt, alloc, terms, callers, calls) else {
        panic!(rt; "no office");
    };
    let chronicle = &outcome.closed.chronicle;
    same(rt, outcome.closed.calls, chronicle.len());
    same(
        rt,
        outcome.closed.workers,
        u64::from(chronicle.market().placed()),
    );
    same(rt, outcome.agreeing, callers);
    same(rt, is_answered_alike(rt, alloc, chronicle), Ok(true));
    outcome
}

#[test]
fn few_and_many_callers_meet(rt: HostRuntime) {
    for callers in [1_u8, 2, 8, 64] {
        let outcome = meets(&rt, rt.alloc(), TERMS, callers, 2_000);
        same(&rt, outcome.closed.calls, 2_000 * u64::from(callers));
        drop(outcome);
    }
}

#[test]
fn sixteen_callers_make_nearly_a_million_calls(rt: HostRuntime) {
    let outcome = meets(&rt, rt.alloc(), TERMS, 16, 60_000);
    same(&rt, outcome.closed.calls, 960_000);
    drop(outcome);
}

/// The last places are for placed workers to leave.
#[test]
fn a_history_fills_up(rt: HostRuntime) {
    let terms = MeetingTerms {
        places: 600,
        ..TERMS
    };
    let outcome = meets(&rt, rt.alloc(), terms, 8, 500);
    let taken = outcome.closed.calls.saturating_add(outcome.closed.workers);
    holds(&rt, taken == 599 || taken == 600);
    same(
        &rt,
        u64::from(outcome.closed.chronicle.free()),
        600_u64.saturating_sub(taken),
    );
    drop(outcome);
}

#[test]
fn an_office_without_calls_is_closed(rt: HostRuntime) {
    let outcome = meets(&rt, rt.alloc(), TERMS, 64, 0);
    same(&rt, outcome.closed.calls, 0);
    same(&rt, outcome.closed.workers, 0);
    drop(outcome);
}

/// Each caller looks at the clock behind some calls for the first time.
#[test]
fn callers_call_until_the_time_is_over(rt: HostRuntime) {
    let time = Duration::from_millis(200);
    let nowhere = TestSink::new(Vec::new(rt.alloc()));
    let Ok(lasted) = last(&rt, &rt, rt.alloc(), time, 4, Record::Nothing, nowhere) else {
        panic!(&rt; "no office");
    };
    let closed = &lasted.closed;
    holds(&rt, closed.calls >= 4_096);
    same(&rt, closed.chronicle.len(), closed.calls);
    holds(&rt, closed.chronicle.kept().is_empty());
    same(
        &rt,
        closed.workers,
        u64::from(closed.chronicle.market().placed()),
    );
    holds(&rt, lasted.time >= time && lasted.rate() > 0);
    drop(lasted);
}

/// A device that has room for so many bytes more, and keeps none.
#[derive(Drop)]
struct Chute {
    room: usize,
    failed: bool,
}

impl Sink for Chute {
    ghost use Rattle.std.specs.Prelude.{None};

    ghost taken = { λ _. None };

    ghost failed = { λ s. s.failed };

    fn write(&mut self, bytes: &[u8]) -> Result<usize, DeviceFault> {
        let count = bytes.len().min(self.room);
        if count == 0 && !bytes.is_empty() {
            self.failed = true;
            return Err(DeviceFault);
        }
        self.room -= count;
        Ok(count)
    }

    fn failed(&self) -> bool {
        self.failed
    }
}

/// So many entries wait at most to be written, in lines of no more than 128 bytes: the device has room for as many more than twice.
const ROOM: usize = 3 * 65_536 * 128;

/// Who writes the journal cuts the office's entries out again and again: without that no more than twice as many as can wait are
/// ever written.
#[test]
fn a_journal_goes_on_until_its_device_is_full(rt: HostRuntime) {
    let device = Chute {
        room: ROOM,
        failed: false,
    };
    let time = Duration::from_secs(50);
    let ended = last(&rt, &rt, rt.alloc(), time, 4, Record::Journal, device);
    holds(&rt, matches!(&ended, Err(DemoFault::Write)));
    drop(ended);
}

/// A device whose text stands when the device is gone.
#[derive(Drop)]
struct Tray<'a, R> {
    rt: &'a R,
    text: &'a Mutex<Vec<u8>>,
    failed: bool,
}

impl<R: Wait> Sink for Tray<'_, R> {
    ghost use Rattle.std.specs.Prelude.{None};

    ghost taken = { λ _. None };

    ghost failed = { λ s. s.failed };

    fn write(&mut self, bytes: &[u8]) -> Result<usize, DeviceFault> {
        let mut text = self.text.lock(self.rt);
        if text.extend_from_slice(bytes).is_err() {
            self.failed = true;
            return Err(DeviceFault);
        }
        Ok(bytes.len())
    }

    fn failed(&self) -> bool {
        self.failed
    }
}

/// So many callers call for a while: the journal that is written of it has this header, and tells each call, to the last.
fn is_written<R: Threads + Wait + Sync + Abort>(
    rt: &R,
    system: &HostRuntime,
    alloc: Global,
    callers: u8,
    header: &[u8],
)
    requires few { callers ≤ 63 }
{
    let text = Mutex::new(Vec::new(alloc));
    let tray = Tray {
        rt,
        text: &text,
        failed: false,
    };
    let time = Duration::from_millis(20);
    let Ok(lasted) = last(rt, system, alloc, time, callers, Record::Journal, tray) else {
        panic!(rt; "no journal");
    };
    let journal = text.into_inner();
    holds(rt, journal.as_slice().starts_with(header));
    let Ok(verdict) = check(alloc, journal.as_slice()) else {
        panic!(rt; "no memory");
    };
    holds(
        rt,
        matches!(&verdict, Verdict::Legal(entries) if *entries == lasted.closed.calls),
    );
    drop(verdict);
    drop(lasted);
}

/// The last part is what callers do after the writer's last cut. It may be empty by chance, so that several rounds are made.
#[test]
fn each_call_is_in_the_journal(rt: HostRuntime) {
    let alone =
        b"{\"base\":8,\"hard\":64,\"journal\":3,\"last\":4294967294,\"levels\":3,\"seats\":2}\n";
    let seven =
        b"{\"base\":8,\"hard\":64,\"journal\":3,\"last\":4294967294,\"levels\":3,\"seats\":8}\n";
    let most =
        b"{\"base\":8,\"hard\":64,\"journal\":3,\"last\":4294967294,\"levels\":3,\"seats\":64}\n";
    for _ in 0..4 {
        is_written(&rt, &rt, rt.alloc(), 1, alone);
        is_written(&rt, &rt, rt.alloc(), 7, seven);
        is_written(&rt, &rt, rt.alloc(), 63, most);
    }
}
