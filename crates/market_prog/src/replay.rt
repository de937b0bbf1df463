//! The engine that replays a journal.
ghost use Rattle.std.specs.Prelude.{◌≡◌, ◌≢◌, true, false, IfOk, IfErr, OnOk, OnErr};
ghost use Rattle.std.specs.Io.KnownBytes.{Appends, IsAtEnd};
ghost use Rattle.byte_devices.specs.Devices.{WritesFront};
ghost use Rattle.market_prog.specs.Replay.{IsTellingFault, StopsTelling, Tells, replay_status, verdict_line};

use crate::fault::RunFault;
use byte_devices::{Sink, Source, put_all};
use journal_replay::{Verdict, check_source};
use std::alloc::Global;

/// Writes the line of a verdict. All of its memory is taken before the first write.
fn tell<W: Sink>(alloc: Global, found: &Verdict, sink: &mut W) -> Result<(), RunFault>
    requires sink_working { W.failed sink.old ≡ false }
    ensures told { OnOk result (Appends (W.taken sink.old) (W.taken sink.new) (verdict_line found.now)) }
    ensures working { OnOk result (W.failed sink.new ≡ false) }
    ensures prefix { OnErr result (WritesFront (W.taken sink.old) (W.taken sink.new) (verdict_line found.now)) }
    ensures cause { IfErr result (λ fault. IsTellingFault fault (W.failed sink.new)) }
    ensures untouched { IfErr result (λ fault. fault ≢ RunFault.Write → sink.new ≡ sink.old) }
{
    let Ok(line) = format!(in alloc; "{found}\n") else {
        return Err(RunFault::Memory);
    };
    match put_all(sink, line.as_bytes()) {
        Ok(()) => Ok(()),
        Err(_) => Err(RunFault::Write),
    }
}

/// Replays the journal that a source has left, and writes the line of its verdict: legal with
/// the number of its entries, or its first faulty line. Nothing is written before the journal was read to its end. It takes
/// the memory of the market, of `check`, which keeps room from line to line, and of one piece of 65,536 bytes.
///
/// Whichever fault comes first stops it. A read that fails is `Read`, a journal of more than 268,435,456 bytes `TooLong`, where no
/// header of version 3 begins it, a write that fails or takes none `Write`, running out of memory `Memory`; it answers no other.
pub fn run_replay<R: Source, W: Sink>(
    alloc: Global,
    source: &mut R,
    sink: &mut W,
) -> Result<Verdict, RunFault>
    requires source_working { R.failed source.old ≡ false }
    requires source_begins { R.ended source.old ≡ false }
    requires sink_working { W.failed sink.old ≡ false }

    // The whole journal is read, and the line of its verdict is written.
    ensures tells { IfOk result (λ found. Tells (R.left source.old) (R.left source.new) (W.taken sink.old) (W.taken sink.new) found) }
    ensures end { OnOk result (R.ended source.new ≡ true) }
    ensures whole { OnOk result (IsAtEnd (R.left source.new)) }
    ensures working { OnOk result ((R.failed source.new ≡ false) × (W.failed sink.new ≡ false)) }

    // After a write that failed a prefix of that line is written; after any other fault nothing is.
    ensures stops { IfErr result (λ fault. StopsTelling (R.left source.old) (R.left source.new) (W.taken sink.old) (W.taken sink.new) (R.failed source.new) (W.failed sink.new) fault) }
    ensures whole_before_write { IfErr result (λ fault. fault ≡ RunFault.Write → (R.ended source.new ≡ true) × IsAtEnd (R.left source.new)) }
    ensures untouched { IfErr result (λ fault. fault ≢ RunFault.Write → sink.new ≡ sink.old) }
{
    let found = check_source(alloc, source)?;
    tell(alloc, &found, sink)?;
    Ok(found)
}

/// The exit status of `market replay`: 0 where the journal is legal, 1 where it is not, and 3 after any fault. It takes no
/// memory.
pub fn status_of_replay(replay: &Result<Verdict, RunFault>) -> u8
    ensures exact { result ≡ replay_status replay.now }
{
    match replay {
        Ok(Verdict::Legal(_)) => 0,
        Ok(_) => 1,
        Err(_) => 3,
    }
}
