//! The engine that runs a script.
ghost use Rattle.std.specs.Prelude.{◌≡◌, ◌↔◌, true, false, IsOk, IsErr, Err, OnOk, IfOk, IfErr};
ghost use Rattle.std.specs.Io.KnownBytes.{IsAtEnd};
ghost use Rattle.market_types.specs.declared.reply.OpenFault.{OpenFault};
ghost use Rattle.market_types.specs.Opening.{opened_with, opening_with};
ghost use Rattle.market_prog.specs.Run.{Answers, Stops, HandsOver};

use crate::fault::RunFault;
use crate::session::Session;
use byte_devices::{Sink, Source};
use line_engine::take_lines;
use market_core::Market;
use market_types::Opening;
use std::alloc::Global;

/// Runs a script over a new market, opened with these options: each of its lines is answered by a line, but for the empty ones and those
/// that begin with `#`. The result is the number of lines that were unread.
///
/// Before each read, all replies to the lines that have ended are handed over to the sink, so that a caller can write a
/// line and wait for its reply. They are handed over once a piece, and in the middle of a piece where they are much. The
/// memory is that of the market, of one piece of 65,536 bytes, and of the replies not yet handed over: at most 65,536
/// bytes and one reply.
///
/// Faults, in this order: the opening's, then whichever comes first. A read that fails is `Read`, a write that fails or
/// takes none `Write`, an input of more than 268,435,456 bytes `TooLong`, running out of memory `Memory`.
pub fn run_script<R: Source, W: Sink>(
    alloc: Global,
    options: Opening,
    source: &mut R,
    sink: &mut W,
) -> Result<u64, RunFault>
    requires source_working { R.failed source.old ≡ false }
    requires source_begins { R.ended source.old ≡ false }
    requires sink_working { W.failed sink.old ≡ false }

    // The whole script is read and answered.
    ensures answers { IfOk result (λ unread. Answers (opening_with options) (R.left source.old) (R.left source.new) (W.taken sink.old) (W.taken sink.new) unread) }
    ensures end { OnOk result (R.ended source.new ≡ true) }
    ensures whole { OnOk result (IsAtEnd (R.left source.new)) }
    ensures working { OnOk result ((R.failed source.new ≡ false) × (W.failed sink.new ≡ false)) }

    // After a fault a prefix of the replies is written; before a read that fails, all replies to ended lines are.
    ensures stops { IsOk (opened_with options) → IfErr result (λ fault. Stops (opening_with options) (R.left source.old) (R.left source.new) (W.taken sink.old) (W.taken sink.new) (R.failed source.new) (W.failed sink.new) fault) }
    ensures prompt { result ≡ Err RunFault.Read → HandsOver (opening_with options) (R.left source.old) (R.left source.new) (W.taken sink.old) (W.taken sink.new) }

    // Without a market nothing is read or written.
    ensures opening { (fault : OpenFault) → (result ≡ Err (RunFault.Open fault)) ↔ (opened_with options ≡ Err fault) }
    ensures untouched { IsErr (opened_with options) → (source.new ≡ source.old) × (sink.new ≡ sink.old) }
{
    let market = Market::with_opening(alloc, options)?;
    let session = take_lines(alloc, Session::<true>::new(alloc, market), source, sink)?;
    Ok(session.unread())
}
