//! The engine that draws a journal.
ghost use Rattle.std.specs.Prelude.{◌≡◌, ◌≢◌, ◌+◌, ◌*◌, ◌<◌, ◌≤◌, ◌^◌, true, false, length, IfOk, IfErr, OnOk, OnErr};
ghost use Rattle.std.specs.Io.KnownBytes.{Appends, IsAtEnd};
ghost use Rattle.byte_devices.specs.Devices.{WritesFront};
ghost use Rattle.journal_chart.specs.Picture.{picture_text};
ghost use Rattle.market_prog.specs.Drawing.{Draws, StopsDrawing, columns_of};
ghost use Rattle.market_prog.specs.Replay.{IsTellingFault};

use crate::fault::RunFault;
use byte_devices::{Sink, Source};
use journal_chart::{Chart, chart_source, write_picture};
use journal_replay::Verdict;
use market_words::ChartOptions;
use std::alloc::Global;

/// How many cells a picture has at most, a cell being a column of an arena. So a picture has less than 2 MB.
const MOST_CELLS: usize = 1_792;

/// How many columns the chart has at most.
fn columns_of(options: &ChartOptions) -> u32
    requires width { 1 ≤ options.now.width }
    requires few { length options.now.arenas.items ≤ 16 }
    ensures exact { result ≡ columns_of options.now }
    ensures some { 0 < result }
{
    let most = MOST_CELLS / options.arenas.len().max(1);
    options.width.min(most as u32)
}

/// Writes the picture of a chart, before whose moments so many entries came. All of its memory is taken before the first write.
fn draw<W: Sink>(alloc: Global, before: u32, chart: &Chart, sink: &mut W) -> Result<(), RunFault>
    requires few { length chart.now.lines.rows < 2 ^ 32 }
    requires countable { before + chart.now.moments < 2 ^ 64 }
    requires sink_working { W.failed sink.old ≡ false }
    ensures drawn { OnOk result (Appends (W.taken sink.old) (W.taken sink.new) (picture_text before chart.now)) }
    ensures working { OnOk result (W.failed sink.new ≡ false) }
    ensures prefix { OnErr result (WritesFront (W.taken sink.old) (W.taken sink.new) (picture_text before chart.now)) }
    ensures cause { IfErr result (λ fault. IsTellingFault fault (W.failed sink.new)) }
    ensures untouched { IfErr result (λ fault. fault ≢ RunFault.Write → sink.new ≡ sink.old) }
{
    write_picture(alloc, before, chart, sink)?;
    Ok(())
}

/// Replays the journal that a source has left, as `run_replay` does, and where it is legal writes the picture of it: an SVG that stands
/// alone, with less than 2 MB. Nothing is written of a journal that is not legal, and nothing before the journal was read to its end.
/// It takes the memory of `run_replay`, of the chart, whose arenas have at most 1,792 columns together, and of one row of the picture.
///
/// Whichever fault comes first stops it. A read that fails is `Read`, a journal of more than 268,435,456 bytes `TooLong`, where no
/// header of version 3 begins it, a write that fails or takes none `Write`, running out of memory `Memory`; it answers no other.
pub fn run_chart<R: Source, W: Sink>(
    alloc: Global,
    options: &ChartOptions,
    source: &mut R,
    sink: &mut W,
) -> Result<Verdict, RunFault>
    requires width { 1 ≤ options.now.width }
    requires from { 1 ≤ options.now.from }
    requires few { length options.now.arenas.items ≤ 16 }
    requires source_working { R.failed source.old ≡ false }
    requires source_begins { R.ended source.old ≡ false }
    requires sink_working { W.failed sink.old ≡ false }

    // The whole journal is read, and its picture is written where it is legal.
    ensures draws { IfOk result (λ found. Draws options.now (R.left source.old) (R.left source.new) (W.taken sink.old) (W.taken sink.new) found) }
    ensures end { OnOk result (R.ended source.new ≡ true) }
    ensures whole { OnOk result (IsAtEnd (R.left source.new)) }
    ensures working { OnOk result ((R.failed source.new ≡ false) × (W.failed sink.new ≡ false)) }

    // After a write that failed a prefix of that picture is written; after any other fault nothing is.
    ensures stops { IfErr result (λ fault. StopsDrawing options.now (R.left source.old) (R.left source.new) (W.taken sink.old) (W.taken sink.new) (R.failed source.new) (W.failed sink.new) fault) }
    ensures whole_before_write { IfErr result (λ fault. fault ≡ RunFault.Write → (R.ended source.new ≡ true) × IsAtEnd (R.left source.new)) }
    ensures untouched { IfErr result (λ fault. fault ≢ RunFault.Write → sink.new ≡ sink.old) }
{
    let columns = columns_of(options);
    let (from, to) = (options.from, options.to);
    let (found, chart) = chart_source(alloc, columns, &options.arenas, from, to, source)?;
    if let Verdict::Legal(_) = &found {
        draw(alloc, from - 1, &chart, sink)?;
    }
    Ok(found)
}
