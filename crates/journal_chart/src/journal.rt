//! The chart of a journal.
ghost use Rattle.std.specs.Prelude.{◌≡◌, ◌<◌, ◌≤◌, false, true, IfErr, IfOk, OnOk};
ghost use Rattle.std.specs.Io.KnownBytes.{IsAtEnd};
ghost use Rattle.journal_replay.specs.Verdicts.{StopsReading};
ghost use Rattle.journal_chart.specs.Journals.{Charts};
ghost use Rattle.journal_chart.specs.Numbers.{chart_of};

use crate::chart::Chart;
use crate::notes::Notes;
use crate::numbering::numbering;
use crate::row::Known;
use crate::shares::Shares;
use allotment::no_carry_to_keep;
use byte_devices::Source;
use journal_replay::{Verdict, Watcher, watch_source};
use line_engine::InputFault;
use market_core::Market;
use market_types::{ArenaId, Cmd, Reply};
use std::alloc::{AllocError, Global};
use std::marker::Model;

/// A chart of the entries of a journal that lie between two.
#[derive(Drop)]
struct Making {
    /// How many entries come before the first that is drawn.
    before: u32,
    /// The last entry that is drawn.
    to: u32,
    /// How many were seen, as far as they are drawn.
    seen: u32,
    chart: Chart,
    /// What is kept of the market since the last moment that was taken.
    notes: Notes,
}

impl Model for Making {
    ghost use Rattle.std.specs.Prelude.{◌≡◌, ◌≤◌, length};
    ghost use Rattle.journal_chart.specs.Numbering.{AreNumbered};
    ghost use Rattle.journal_chart.specs.Steps.{Making};

    ghost Value = { Making };

    ghost view = { λ m. record { before = m.before; to = m.to; seen = m.seen; followed = record { chart = m.chart; known = m.notes.known.items; shares = m.notes.shares } } };

    ghost invariant = { λ m. (m.chart.moments ≤ m.seen) × ((length m.notes.known.items ≡ length m.chart.lines.rows) × AreNumbered m.notes.first m.chart.lines.rows) };
}

impl Watcher for Making {
    ghost use Rattle.journal_chart.specs.Steps.{Making, made_more};

    ghost Made = { Making };

    ghost made = { λ m. m };

    ghost seen = { made_more };

    fn see(&mut self, market: &Market, cmd: &Cmd, reply: &Reply) {
        if self.to <= self.seen {
            return;
        }
        if self.seen < self.before {
            self.chart.pass(cmd, reply);
            self.seen += 1;
            return;
        }
        self.chart.take_next(&mut self.notes, market, cmd, reply);
        self.seen += 1;
    }
}

/// What is found of the journal that a source has left, as `check_source` finds it, and the chart of these arenas, in at most so many
/// columns, over its entries from one on to another, counted from 1: of no moment where none lies between. Where the journal is not legal
/// the chart is of no use. It takes the memory of `check_source` and of the chart, and the same faults stop it; memory for the chart is
/// taken first.
pub fn chart_source<R: Source>(
    alloc: Global,
    columns: u32,
    arenas: &[ArenaId],
    from: u32,
    to: u32,
    source: &mut R,
) -> Result<(Verdict, Chart), InputFault<AllocError>>
    requires some { 0 < columns }
    requires counted { 1 ≤ from }
    requires source_working { R.failed source.old ≡ false }
    requires source_begins { R.ended source.old ≡ false }
    ensures charts { IfOk result (λ end. Charts columns arenas.now from to (R.left source.old) (R.left source.new) end.0 end.1) }
    ensures end { OnOk result (R.ended source.new ≡ true) }
    ensures whole { OnOk result (IsAtEnd (R.left source.new)) }
    ensures working { OnOk result (R.failed source.new ≡ false) }
    ensures stops { IfErr result (λ fault. StopsReading (R.left source.old) (R.left source.new) (R.failed source.new) fault) }
{
    no_carry_to_keep();
    let making = Making {
        before: from - 1,
        to,
        seen: 0,
        chart: Chart::new(alloc, columns, arenas)?,
        notes: Notes {
            known: vec![in alloc; Known::nothing(); arenas.len()]?,
            shares: Shares::none(),
            first: numbering(arenas),
        },
    };
    let (found, making) = watch_source(alloc, making, source)?;
    Ok((found, making.chart))
}
