//! The engine that explains the market of a script.
ghost use Rattle.std.specs.Prelude.{◌≡◌, ◌↔◌, true, false, IsOk, IsErr, Err, OnOk, IfOk, IfErr};
ghost use Rattle.std.specs.Io.KnownBytes.{IsAtEnd};
ghost use Rattle.market_types.specs.declared.reply.OpenFault.{OpenFault};
ghost use Rattle.market_types.specs.Opening.{opened_with, opening_with};
ghost use Rattle.market_prog.specs.Explain.{Explains, StopsExplaining};

use crate::fault::RunFault;
use crate::session::Session;
use byte_devices::{Sink, Source};
use explainer::explain;
use line_engine::{silence, take_lines};
use market_core::Market;
use market_types::Opening;
use std::alloc::Global;

/// Gives a new market the lines of a script, as `run_script` does, and then writes the explanation of the market, and no
/// reply. The result is the number of lines that were unread.
///
/// The memory is that of the market, of one piece of 65,536 bytes, and of the explanation, some 137,000 bytes at most.
///
/// Faults, in this order: the opening's, then whichever comes first. A read that fails is `Read`, a write that fails or
/// takes none `Write`, an input of more than 268,435,456 bytes `TooLong`, running out of memory `Memory`. Nothing is written
/// before the whole script is read.
pub fn explain_script<R: Source, W: Sink>(
    alloc: Global,
    options: Opening,
    source: &mut R,
    sink: &mut W,
) -> Result<u64, RunFault>
    requires source_working { R.failed source.old ≡ false }
    requires source_begins { R.ended source.old ≡ false }
    requires sink_working { W.failed sink.old ≡ false }

    // The whole script is read, and the market that it leads to is explained.
    ensures explains { IfOk result (λ unread. Explains (opening_with options) (R.left source.old) (R.left source.new) (W.taken sink.old) (W.taken sink.new) unread) }
    ensures end { OnOk result (R.ended source.new ≡ true) }
    ensures whole { OnOk result (IsAtEnd (R.left source.new)) }
    ensures working { OnOk result ((R.failed source.new ≡ false) × (W.failed sink.new ≡ false)) }

    // After a write or memory fault a prefix of the explanation is written, after any other nothing is.
    ensures stops { IsOk (opened_with options) → IfErr result (λ fault. StopsExplaining (opening_with options) (R.left source.old) (R.left source.new) (W.taken sink.old) (W.taken sink.new) (R.failed source.new) (W.failed sink.new) fault) }

    // Without a market nothing is read or written.
    ensures opening { (fault : OpenFault) → (result ≡ Err (RunFault.Open fault)) ↔ (opened_with options ≡ Err fault) }
    ensures untouched { IsErr (opened_with options) → (source.new ≡ source.old) × (sink.new ≡ sink.old) }
{
    silence::<Session<false>>();
    let market = Market::with_opening(alloc, options)?;
    let session = take_lines(alloc, Session::<false>::new(alloc, market), source, sink)?;
    explain(alloc, session.market(), sink)?;
    Ok(session.unread())
}
