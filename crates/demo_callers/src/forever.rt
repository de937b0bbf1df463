//! Callers at work for so long, through an office that lasts.
ghost use Rattle.std.specs.Prelude.{◌≡◌, ◌≤◌, ◌*◌, ◌/◌, ◌++◌, ℕ, codes, false, length, vec_len, IfOk, OnOk};
ghost use Rattle.std.specs.Io.KnownBytes.{Appends};
ghost use Rattle.std.specs.Duration.{as_nanos};
ghost use Rattle.market_types.specs.State.{opening_to};
ghost use Rattle.edit_history.specs.Chronicled.{market_of};
ghost use Rattle.edit_history.specs.Places.{placed as seats_placed};
ghost use Rattle.journal_replay.specs.Journal.{header_line};
ghost use Rattle.demo_callers.specs.Records.{most_callers, seats_of, keeping_of, lasting, header_of};

use crate::attendant::Attendant;
use crate::fault::DemoFault;
use crate::guest::Guest;
use crate::note::LEVELS;
use crate::watch::Watch;
use crate::writer::Writer;
use byte_devices::{OutFault, Sink};
use edit_history::{Chronicle, Keeping};
use journal_replay::{Extent, Header, write_header};
use market_lock::Closed;
use market_types::{LastNumber, OpenFault, Opening};
use office_crew::{Meeting, MeetingTerms, meet};
use std::alloc::{AllocError, Global};
use std::rt::HostRuntime;
use std::sync::Wait;
use std::thread::Threads;
use std::time::Duration;

/// The greatest last number: arenas are opened as long as anybody waits.
const GREATEST_LAST: u32 = 4_294_967_294;

/// What becomes of the entries.
#[derive(Clone, Copy, Debug, PartialEq, Eq)]
pub enum Record {
    /// None is kept.
    Nothing,
    /// They are written as a journal, part by part.
    Journal,
}

impl Record {
    /// How many callers there can be. Who writes the journal has a seat too.
    pub fn most_callers(self) -> u8
        ensures { result ≡ most_callers self }
    {
        match self {
            Record::Nothing => 64,
            Record::Journal => 63,
        }
    }

    /// How the office keeps its entries.
    fn keeping(self) -> Keeping
        ensures { result ≡ keeping_of self }
    {
        match self {
            Record::Nothing => Keeping::Nothing,
            Record::Journal => Keeping::InParts,
        }
    }

    /// What the office is opened with.
    fn terms(self) -> MeetingTerms
        ensures lasting { (seats : ℕ) → opening_to result.base result.hard seats result.levels result.last ≡ lasting seats }
        ensures keeping { result.keeping ≡ keeping_of self }
    {
        MeetingTerms {
            base: BASE,
            hard: HARD,
            places: PLACES,
            levels: LEVELS,
            last: last_number(),
            keeping: self.keeping(),
        }
    }
}

const BASE: u32 = 8;

const HARD: u32 = 64;

/// How many entries can wait to be written.
const PLACES: u32 = 65_536;

/// The last number of an arena, a stamp and a control.
fn last_number() -> LastNumber
    ensures { result ≡ 4294967294 }
{
    LastNumber::new(GREATEST_LAST).unwrap_or(LastNumber::USUAL)
}

/// What is left when the time is over.
#[derive(Drop)]
pub struct Lasted {
    /// What the office left.
    pub closed: Closed,
    /// How long it was open.
    pub time: Duration,
    /// The kilobytes that the process had at a quarter of the time, where the system tells them: the most that a caller saw.
    pub quarter: Option<u64>,
    /// And at its end.
    pub end: Option<u64>,
}

impl Lasted {
    /// How many calls were answered in a second, rounded down; 0 where it took less than a millisecond.
    pub fn rate(&self) -> u128
        ensures { result ≡ self.now.closed.calls * 1_000 / (as_nanos self.now.time / 1_000_000) }
    {
        let calls = u128::from(self.closed.calls) * 1_000;
        calls.checked_div(self.time.as_millis()).unwrap_or(0)
    }
}

/// A guest for each seat, no two of one seed, and behind them who writes the journal to the output, if there is to be one.
fn attendants<'a, O: Sink + Drop>(
    system: &'a HostRuntime,
    alloc: Global,
    watch: &'a Watch<'a, HostRuntime>,
    callers: u8,
    recorded: Record,
    output: O,
) -> Result<Vec<Attendant<'a, O>>, AllocError>
    requires few { callers ≤ 64 }
    ensures each { IfOk result (λ attendants. vec_len attendants ≡ seats_of recorded callers) }
{
    let mut attendants = Vec::with_capacity(alloc, usize::from(callers) + 1)?;
    for seed in 0..callers {
        let guest = Guest::new(system, watch, u64::from(seed));
        attendants.push_reserved(Attendant::Guest(guest));
    }
    if recorded == Record::Journal {
        attendants.push_reserved(Attendant::Writer(Writer::new(watch, output)));
    }
    Ok(attendants)
}

/// Writes the header of the journal. Who writes the rest has a seat too.
fn begin_journal<O: Sink>(alloc: Global, callers: u8, output: &mut O) -> Result<(), OutFault>
    requires few { callers ≤ 63 }
    requires working { O.failed output.old ≡ false }
    ensures all { OnOk result (Appends (O.taken output.old) (O.taken output.new) (header_line (header_of callers) ++ codes "\n")) }
{
    let opening = Opening {
        base: BASE,
        hard: HARD,
        seats: callers + 1,
        levels: LEVELS,
        last: last_number(),
    };
    let header = Header {
        opening,
        extent: Extent::Endless,
    };
    write_header(alloc, header, output)
}

/// Writes what is left of the journal where somebody writes one, and tells why that ended before its time.
fn end_journal<O: Sink>(
    alloc: Global,
    attendants: &mut [Attendant<'_, O>],
    chronicle: &mut Chronicle,
) -> Result<(), DemoFault>
    ensures log { chronicle.new.log ≡ chronicle.old.log }
    ensures market { market_of chronicle.new ≡ market_of chronicle.old }
    ensures start { chronicle.new.start ≡ chronicle.old.start }
    ensures keeping { chronicle.new.keeping ≡ chronicle.old.keeping }
{
    match attendants.last_mut() {
        Some(Attendant::Writer(writer)) => writer.finish(alloc, chronicle),
        _ => Ok(()),
    }
}

/// All attend, until the time is over, an office that lasts: what it left, and who attended.
fn attend<'a, O: Sink + Send + Drop, R: Threads + Wait + Sync>(
    rt: &R,
    alloc: Global,
    recorded: Record,
    attendants: Vec<Attendant<'a, O>>,
) -> Result<(Closed, Vec<Attendant<'a, O>>), OpenFault>
    requires few { vec_len attendants ≤ 64 }
    ensures start { IfOk result (λ met. met.0.chronicle.start ≡ lasting (vec_len attendants.entry)) }
    ensures keeping { IfOk result (λ met. met.0.chronicle.keeping ≡ keeping_of recorded) }
    ensures calls { IfOk result (λ met. met.0.calls ≡ length met.0.chronicle.log) }
    ensures workers { IfOk result (λ met. met.0.workers ≡ seats_placed (market_of met.0.chronicle)) }
{
    let nobody = Vec::<Attendant<'_, O>>::new(alloc);
    let met = meet(rt, alloc, recorded.terms(), nobody, attendants);
    let Meeting {
        closed,
        openers: _,
        tasks,
    } = met.map_err(|unmet| unmet.fault)?;
    Ok((closed, tasks))
}

/// So many callers call until so much time has gone by, through an office that lasts. `system` is what they look at the clock and
/// the memory by, and `output` takes the journal, if there is to be one.
pub fn last<O: Sink + Send + Drop, R: Threads + Wait + Sync>(
    rt: &R,
    system: &HostRuntime,
    alloc: Global,
    time: Duration,
    callers: u8,
    recorded: Record,
    output: O,
) -> Result<Lasted, DemoFault>
    requires few { callers ≤ most_callers recorded }
    requires working { O.failed output ≡ false }
    ensures start { IfOk result (λ lasted. lasted.closed.chronicle.start ≡ lasting (seats_of recorded callers)) }
    ensures keeping { IfOk result (λ lasted. lasted.closed.chronicle.keeping ≡ keeping_of recorded) }
    ensures calls { IfOk result (λ lasted. lasted.closed.calls ≡ length lasted.closed.chronicle.log) }
    ensures workers { IfOk result (λ lasted. lasted.closed.workers ≡ seats_placed (market_of lasted.closed.chronicle)) }
{
    let mut output = output;
    if recorded == Record::Journal {
        begin_journal(alloc, callers, &mut output)?;
    }
    let watch = Watch::new(system, time)?;
    let attendants = attendants(system, alloc, &watch, callers, recorded, output)?;
    let (mut closed, mut attendants) = attend(rt, alloc, recorded, attendants)?;
    let ended = end_journal(alloc, &mut attendants, &mut closed.chronicle);
    let lasted = Lasted {
        time: watch.elapsed(),
        quarter: attendants.iter().filter_map(Attendant::quarter).max(),
        end: attendants.iter().filter_map(Attendant::end).max(),
        closed,
    };
    drop(attendants);
    if let Err(fault) = ended {
        drop(lasted);
        return Err(fault);
    }
    Ok(lasted)
}
