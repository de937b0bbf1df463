//! A caller that writes down what others do, while they do it.
ghost use Rattle.std.specs.Prelude.{◌≡◌, ◌≤◌, [], drop, vec_capacity, IfOk, OnOk};
ghost use Rattle.std.specs.Io.KnownBytes.{Appends};
ghost use Rattle.edit_history.specs.Chronicled.{market_of};
ghost use Rattle.journal_replay.specs.Journal.{entry_lines};
ghost use Rattle.market_lock.specs.Seen.{IsSamePass};

use crate::fault::DemoFault;
use crate::note::LEVELS;
use crate::watch::Watch;
use byte_devices::{OutFault, Sink};
use edit_history::{Chronicle, Part};
use journal_replay::write_part;
use market_lock::{Office, Pass, Placed};
use market_types::Entry;
use office_crew::{Caller, Missed, Scribe, Task};
use std::alloc::{AllocError, Global};
use std::rt::HostRuntime;
use std::sync::Wait;

/// A vector that entries are cut into has room for one of each seat.
const MOST_SEATS: usize = 64;

/// Why a writer stopped.
#[derive(Clone, Copy)]
pub(crate) enum Stop {
    /// The time is over.
    Over,
    /// There was no memory.
    Memory,
    /// The journal's device took no more.
    Write,
    /// The office gave no part, or one that does not go on where the last one ended.
    Missed,
}

impl From<AllocError> for Stop {
    fn from(_error: AllocError) -> Stop
        ensures { result ≡ Stop.Memory }
    {
        Stop::Memory
    }
}

impl From<OutFault> for Stop {
    fn from(fault: OutFault) -> Stop
        ensures memory { fault ≡ OutFault.Memory → result ≡ Stop.Memory }
        ensures write { fault ≡ OutFault.Write → result ≡ Stop.Write }
    {
        match fault {
            OutFault::Memory => Stop::Memory,
            OutFault::Write => Stop::Write,
        }
    }
}

impl From<Missed> for Stop {
    fn from(_missed: Missed) -> Stop
        ensures { result ≡ Stop.Missed }
    {
        Stop::Missed
    }
}

/// It cuts the entries of its office out and writes their lines to its device, part after part, until the time is over.
#[derive(Drop)]
pub(crate) struct Writer<'a, O> {
    watch: &'a Watch<'a, HostRuntime>,
    output: O,
    /// Why it stopped.
    stop: Stop,
}

impl<'a, O: Sink> Writer<'a, O> {
    /// Until the watch has run down.
    pub(crate) fn new(watch: &'a Watch<'a, HostRuntime>, output: O) -> Self {
        Writer {
            watch,
            output,
            stop: Stop::Over,
        }
    }

    /// Writes the lines of a part.
    fn write(&mut self, alloc: Global, part: &Part) -> Result<(), OutFault>
        ensures all { OnOk result (Appends (O.taken self.old.output) (O.taken self.new.output) (entry_lines 3 part.now.entries.items)) }
    {
        if self.output.failed() {
            return Err(OutFault::Write);
        }
        write_part(alloc, LEVELS, part, &mut self.output)
    }

    /// Writes part after part. It ends with why.
    fn write_parts<R: Wait>(
        &mut self,
        rt: &R,
        alloc: Global,
        office: &Office,
        scribe: &mut Scribe,
    ) -> Result<(), Stop>
        requires office { scribe.old.pass.table ≡ office.now.table }
        requires begins { scribe.old.written ≡ [] }
        ensures same { IsSamePass scribe.old.pass scribe.new.pass }
        ensures written { OnOk result (Appends (O.taken self.old.output) (O.taken self.new.output) (entry_lines 3 scribe.new.written)) }
    {
        let mut spare = Vec::with_capacity(alloc, MOST_SEATS)?;
        for _ in rt.forever() {
            let is_over = self.watch.is_over();
            let part = scribe.cut(rt, office, spare)?;
            self.write(alloc, &part)?;
            if is_over {
                break;
            }
            spare = room_of(part)?;
        }
        Ok(())
    }

    /// Writes what is left of the journal, and tells why it stopped where its time was not over.
    pub(crate) fn finish(
        &mut self,
        alloc: Global,
        chronicle: &mut Chronicle,
    ) -> Result<(), DemoFault>
        ensures written { OnOk result (Appends (O.taken self.old.output) (O.taken self.new.output) (entry_lines 3 (drop chronicle.old.from chronicle.old.log))) }
        ensures log { chronicle.new.log ≡ chronicle.old.log }
        ensures market { market_of chronicle.new ≡ market_of chronicle.old }
        ensures start { chronicle.new.start ≡ chronicle.old.start }
        ensures keeping { chronicle.new.keeping ≡ chronicle.old.keeping }
    {
        match self.stop {
            Stop::Over => {}
            Stop::Memory => return Err(DemoFault::Memory),
            Stop::Write => return Err(DemoFault::Write),
            Stop::Missed => return Err(DemoFault::Missed),
        }
        let Some(part) = chronicle.cut(Vec::with_capacity(alloc, MOST_SEATS)?) else {
            return Err(DemoFault::Missed);
        };
        self.write(alloc, &part)?;
        Ok(())
    }
}

/// What a part that was written leaves, with room for an entry of each seat: more of them may be placed now than when the part was
/// begun.
fn room_of(part: Part) -> Result<Vec<Entry>, AllocError>
    ensures { IfOk result (λ room. 64 ≤ vec_capacity room) }
{
    let Part { from: _, entries } = part;
    let mut room = entries;
    room.clear();
    room.reserve(MOST_SEATS)?;
    Ok(room)
}

impl<O: Sink> Task for Writer<'_, O> {
    fn work<R: Wait>(
        &mut self,
        rt: &R,
        alloc: Global,
        office: &Office,
        caller: Caller<Pass, Placed>,
    ) -> Caller<Pass, Placed> {
        let pass = match caller {
            Caller::Free(pass) => pass,
            Caller::Working(worker) => return Caller::Working(worker),
        };
        let mut scribe = Scribe::new(pass);
        if let Err(stop) = self.write_parts(rt, alloc, office, &mut scribe) {
            self.stop = stop;
            // The office fills up now: nobody has anything to call for.
            self.watch.stop();
        }
        Caller::Free(scribe.into_pass())
    }

    fn lets_others_work(&self) -> bool {
        true
    }
}
