//! The columns of a picture.
ghost use Rattle.std.specs.Prelude.{◌≡◌, ◌+◌, ◌*◌, ◌<◌, ◌≤◌, ◌^◌, max};
ghost use Rattle.std.specs.List.{list_any};
ghost use Rattle.journal_chart.specs.declared.cell.Cell.{Cell};
ghost use Rattle.journal_chart.specs.Cells.{actives_of, allots_of, levels_of, requests_of};
ghost use Rattle.journal_chart.specs.Highest.{highest, highest_in, highest_of};
ghost use Rattle.journal_chart.specs.Picture.{entries_of, filled, first_entry, greatest, is_at, last_entry, most_of, scale_of, stands_at, wide_of};

use crate::cell::Cell;
use crate::column::Column;
use crate::figure::{Entries, Run, stands_at};
use crate::row::Row;

/// How many entries came before the first moment, how many moments there are, how many of them a column holds, and at most how many
/// columns there are.
#[derive(Clone, Copy)]
pub(crate) struct Sheet {
    pub(crate) before: u32,
    pub(crate) width: u64,
    pub(crate) moments: u64,
    pub(crate) columns: u32,
}

impl Sheet {
    /// How wide the picture is.
    pub(crate) fn wide(self) -> u64
        ensures { result ≡ wide_of self }
    {
        (256 + 8 * u64::from(self.columns)).max(660)
    }

    /// How many columns have moments.
    pub(crate) fn filled(self) -> u32
        requires { 0 < self.width }
        ensures { result ≡ filled self }
    {
        if self.moments == 0 {
            return 0;
        }
        ((self.moments - 1) / self.width + 1).min(u64::from(self.columns)) as u32
    }

    /// The number of moments before a column.
    fn moments_before(self, place: u32) -> u64
        requires wide { 0 < self.width }
        requires inside { place < filled self }
        ensures exact { result ≡ place * self.width }
        ensures within { result < self.moments }
    {
        u64::from(place) * self.width
    }

    /// The first entry of a column.
    pub(crate) fn first_entry(self, place: u32) -> u64
        requires wide { 0 < self.width }
        requires countable { self.before + self.moments < 2 ^ 64 }
        requires inside { place < filled self }
        ensures { result ≡ first_entry self place }
    {
        u64::from(self.before) + self.moments_before(place) + 1
    }

    /// The last entry of a column.
    fn last_entry(self, place: u32) -> u64
        requires wide { 0 < self.width }
        requires countable { self.before + self.moments < 2 ^ 64 }
        requires inside { place < filled self }
        ensures { result ≡ last_entry self place }
    {
        let passed = self.moments_before(place);
        u64::from(self.before) + passed + self.width.min(self.moments - passed)
    }

    /// The entries of columns beside each other.
    pub(crate) fn entries(self, run: Run) -> Entries
        requires wide { 0 < self.width }
        requires countable { self.before + self.moments < 2 ^ 64 }
        requires some { run.first ≤ run.last }
        requires inside { run.last < filled self }
        ensures { result ≡ entries_of self run }
    {
        Entries {
            first: self.first_entry(run.first),
            last: self.last_entry(run.last),
        }
    }
}

/// The most of a column, or 0.
fn most_of(column: Column) -> u32
    ensures { result ≡ most_of column }
{
    match column.span() {
        Some(span) => span.most,
        None => 0,
    }
}

/// The greatest number of a line, or 0.
pub(crate) fn greatest(columns: &[Column]) -> u32
    ensures { result ≡ greatest columns.now }
{
    let mut most = 0;
    for column in columns {
        most = most.max(most_of(*column));
    }
    most
}

/// What stands at the top of a row.
pub(crate) fn scale_of(row: &Row) -> u64
    ensures exact { result ≡ scale_of row.now }
    ensures some { 0 < result }
{
    u64::from(greatest_needs(row.cells()).max(1))
}

/// The greatest number of what an arena asked for, was allotted, and had, or 0.
fn greatest_needs(cells: &[Cell]) -> u32
    ensures { result ≡ max (greatest (requests_of cells.now)) (max (greatest (allots_of cells.now)) (greatest (actives_of cells.now))) }
{
    let mut most = 0;
    for cell in cells {
        let needs = most_of(cell.allot).max(most_of(cell.active));
        most = most.max(most_of(cell.request).max(needs));
    }
    most
}

/// The highest level of a column, or 0.
fn highest_in(column: Column) -> u32
    ensures { result ≡ highest_in column }
{
    match column.span() {
        Some(span) => span.least.max(span.most),
        None => 0,
    }
}

/// The highest level of all columns, or 0.
fn highest_of(cells: &[Cell]) -> u32
    ensures { result ≡ highest_of (levels_of cells.now) }
{
    let mut level = 0;
    for cell in cells {
        level = level.max(highest_in(cell.level));
    }
    level
}

/// The highest level of all rows, or 0: none of them stands above it, so that their columns need not be searched for it.
pub(crate) fn highest(rows: &[Row]) -> u32
    ensures { result ≡ highest rows.now }
{
    let mut level = 0;
    for row in rows {
        level = level.max(highest_of(row.cells()));
    }
    level
}

/// This is the least or the greatest level of one of these columns.
fn any_at(cells: &[Cell], level: u32) -> bool
    ensures { result ≡ list_any (λ (c : Cell). stands_at level c.level) cells.now }
{
    cells.iter().any(|cell| stands_at(level, cell.level.span()))
}

/// This is the least or the greatest level of one of the columns of a row.
pub(crate) fn is_at(row: &Row, level: u32) -> bool
    ensures { result ≡ is_at level row.now }
{
    any_at(row.cells(), level)
}
