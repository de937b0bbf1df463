//! The engine that writes the journal of a script.
ghost use Rattle.std.specs.Prelude.{◌≡◌, ◌↔◌, true, false, IsOk, IsErr, Err, OnOk, IfOk, IfErr};
ghost use Rattle.std.specs.Io.KnownBytes.{IsAtEnd};
ghost use Rattle.market_types.specs.declared.reply.OpenFault.{OpenFault};
ghost use Rattle.market_types.specs.Opening.{MemoryAside, opened_with, opening_with};
ghost use Rattle.market_prog.specs.Journal.{Journals, StopsJournaling, unwritten};
ghost use Rattle.market_prog.specs.Recording.{start_of};

use crate::fault::RunFault;
use crate::recording::RecordingSession;
use byte_devices::{Sink, Source};
use edit_history::{Chronicle, Keeping, MOST_PLACES, Terms};
use journal_replay::write_journal;
use line_engine::{silence, take_lines};
use market_types::{OpenFault, Opening};
use std::alloc::Global;

/// A market with an empty history.
fn open_chronicle(alloc: Global, options: Opening) -> Result<Chronicle, OpenFault>
    ensures exact { MemoryAside (opened_with options) (start_of result) }
    ensures opened { IfOk result (λ chronicle. chronicle ≡ unwritten (opening_with options)) }
{
    let terms = Terms {
        opening: options,
        places: MOST_PLACES,
        keeping: Keeping::Everything,
    };
    Chronicle::on_terms(alloc, terms)
}

/// Gives a new market, opened with these options, the lines of a script, as `run_script` does, and then writes the journal of their calls,
/// and no reply. A line that is silent or unread is no call. The result is the number of lines that were unread.
///
/// The history has 1,048,576 places. The memory is that of the market and of its history, and of two pieces of some 65,536
/// bytes.
///
/// Faults, in this order: the opening's, then whichever comes first. A read that fails is `Read`, a write that fails or
/// takes none `Write`, an input of more than 268,435,456 bytes `TooLong`, a call that finds too few free places
/// `HistoryFull`, running out of memory `Memory`. Nothing is written before the whole script is read.
pub fn run_journal<R: Source, W: Sink>(
    alloc: Global,
    options: Opening,
    source: &mut R,
    sink: &mut W,
) -> Result<u64, RunFault>
    requires source_working { R.failed source.old ≡ false }
    requires source_begins { R.ended source.old ≡ false }
    requires sink_working { W.failed sink.old ≡ false }

    // The whole script is read, and its journal is written.
    ensures journals { IfOk result (λ unread. Journals (opening_with options) (R.left source.old) (R.left source.new) (W.taken sink.old) (W.taken sink.new) unread) }
    ensures end { OnOk result (R.ended source.new ≡ true) }
    ensures whole { OnOk result (IsAtEnd (R.left source.new)) }
    ensures working { OnOk result ((R.failed source.new ≡ false) × (W.failed sink.new ≡ false)) }

    // After a write or memory fault a prefix of the journal is written, after any other nothing is.
    ensures stops { IsOk (opened_with options) → IfErr result (λ fault. StopsJournaling (opening_with options) (R.left source.old) (R.left source.new) (W.taken sink.old) (W.taken sink.new) (R.failed source.new) (W.failed sink.new) fault) }

    // Without a market nothing is read or written.
    ensures opening { (fault : OpenFault) → (result ≡ Err (RunFault.Open fault)) ↔ (opened_with options ≡ Err fault) }
    ensures untouched { IsErr (opened_with options) → (source.new ≡ source.old) × (sink.new ≡ sink.old) }
{
    silence::<RecordingSession>();
    let chronicle = open_chronicle(alloc, options)?;
    let session = take_lines(alloc, RecordingSession::new(alloc, chronicle), source, sink)?;
    let written = write_journal(alloc, session.chronicle(), sink);
    let unread = session.unread();
    drop(session);
    written?;
    Ok(unread)
}
