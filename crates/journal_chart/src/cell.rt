//! What a row has in one column of a chart: the columns of all its lines.
//!
//! They stand side by side, 48 bytes, and not each in a line of its own:
//!
//! ```text
//!   level        request      allot        active       recall       hire
//!   least above  least above  least above  least above  least above  least above
//! ```
//!
//! So what a moment adds to a row is put down at one address after one bound, where six were asked for, and two cells are made one by three vectors of
//! four words (`joined_pairs`): to halve a chart takes half of the instructions that it took while each line was a list of its own.
ghost use Rattle.std.specs.Prelude.{◌≡◌, get_or, set};
ghost use Rattle.journal_chart.specs.Columns.{alone};
ghost use Rattle.journal_chart.specs.Cells.{joined_cells, no_cell, same_cells, with_active, with_level, with_numbers, with_request};

use crate::column::{Column, joined_pairs};
use crate::halving::Joins;
use crate::stands::Standing;

/// What an arena was over the moments of one column: of each of its lines the least and the most, where it lived.
#[derive(Clone, Copy)]
pub struct Cell {
    /// The number of its level.
    pub level: Column,
    /// How many workers it asked for.
    pub request: Column,
    /// How many workers it was allotted.
    pub allot: Column,
    /// How many seats were placed at it.
    pub active: Column,
    /// How many of these were too many.
    pub recall: Column,
    /// How many more it was allotted.
    pub hire: Column,
}

impl Cell {
    /// No numbers.
    pub(crate) fn none() -> Cell
        ensures { result ≡ no_cell }
    {
        Cell {
            level: Column::none(),
            request: Column::none(),
            allot: Column::none(),
            active: Column::none(),
            recall: Column::none(),
            hire: Column::none(),
        }
    }

    /// The numbers of both.
    // By three vectors of four words, where each column apart would take two words of it.
    #[inline(always)]
    fn joined(self, other: Cell) -> Cell
        ensures { result ≡ joined_cells self other }
    {
        let (level, request) = joined_pairs(
            (self.level, self.request),
            (other.level, other.request),
        );
        let (allot, active) = joined_pairs((self.allot, self.active), (other.allot, other.active));
        let (recall, hire) = joined_pairs((self.recall, self.hire), (other.recall, other.hire));
        Cell {
            level,
            request,
            allot,
            active,
            recall,
            hire,
        }
    }

    /// These, the number of a level more, if there is one, and a number more of each other line.
    #[inline(always)]
    pub(crate) fn told(
        self,
        level: Standing,
        request: u32,
        allot: u32,
        active: u32,
        recall: u32,
        hire: u32,
    ) -> Cell
        ensures { result ≡ with_numbers request allot active recall hire (with_level level self) }
    {
        self.joined(Cell {
            level: level_column(level),
            request: Column::of(request),
            allot: Column::of(allot),
            active: Column::of(active),
            recall: Column::of(recall),
            hire: Column::of(hire),
        })
    }

    /// These and the number of a level more, if there is one.
    #[inline(always)]
    pub(crate) fn with_level(self, level: Standing) -> Cell
        ensures { result ≡ with_level level self }
    {
        Cell {
            level: self.level.joined(level_column(level)),
            ..self
        }
    }

    /// These and a number more of each other line.
    #[inline(always)]
    pub(crate) fn with_numbers(
        self,
        request: u32,
        allot: u32,
        active: u32,
        recall: u32,
        hire: u32,
    ) -> Cell
        ensures { result ≡ with_numbers request allot active recall hire self }
    {
        Cell {
            level: self.level,
            request: self.request.with(request),
            allot: self.allot.with(allot),
            active: self.active.with(active),
            recall: self.recall.with(recall),
            hire: self.hire.with(hire),
        }
    }

    /// These and a number more of what the arena asks for.
    #[inline(always)]
    pub(crate) fn with_request(self, request: u32) -> Cell
        ensures { result ≡ with_request request self }
    {
        Cell {
            request: self.request.with(request),
            ..self
        }
    }

    /// These and a number more of what it has.
    #[inline(always)]
    pub(crate) fn with_active(self, active: u32) -> Cell
        ensures { result ≡ with_active active self }
    {
        Cell {
            active: self.active.with(active),
            ..self
        }
    }

    /// Both say the same.
    #[inline]
    pub(crate) fn is_same(self, other: Cell) -> bool
        ensures { result ≡ same_cells self other }
    {
        self.level.is_same(other.level)
            && self.request.is_same(other.request)
            && self.allot.is_same(other.allot)
            && self.active.is_same(other.active)
            && self.recall.is_same(other.recall)
            && self.hire.is_same(other.hire)
    }
}

impl Joins for Cell {
    ghost use Rattle.journal_chart.specs.Cells.{joined_cells, no_cell};

    ghost nothing = { no_cell };

    ghost both = { joined_cells };

    #[inline(always)]
    fn nothing() -> Cell {
        Cell::none()
    }

    #[inline(always)]
    fn both(self, other: Cell) -> Cell {
        self.joined(other)
    }
}

/// The number of a level alone, if there is one.
#[inline(always)]
fn level_column(level: Standing) -> Column
    ensures { result ≡ alone level }
{
    match level.level() {
        Some(level) => Column::of(level.get()),
        None => Column::none(),
    }
}

/// The cell at a place, without numbers beyond the last.
#[inline(always)]
pub(crate) fn cell_at(cells: &[Cell], place: usize) -> Cell
    ensures { result ≡ get_or cells.now place no_cell }
{
    match cells.get(place) {
        Some(cell) => *cell,
        None => Cell::none(),
    }
}

/// Puts a cell at a place, if there is one: what then stands there, which need not be read again.
#[inline(always)]
pub(crate) fn put_cell(cells: &mut [Cell], place: usize, cell: Cell) -> Cell
    ensures cells { cells.new ≡ set cells.old place cell }
    ensures there { result ≡ get_or (set cells.old place cell) place no_cell }
{
    if place >= cells.len() {
        return Cell::none();
    }
    let there = cell;
    cells[place] = cell;
    there
}
