//! The rows of all eight levels, and the boxes that none of them uses.
//!
//! ```text
//!   levels   1   Leaf     [ 7 9 12 .. ]                                      1 leaf
//!            2   Empty
//!            3   Shelf    ( [ 1 4 .. ] [ 30 31 .. ] .. [ 88 90 ] )           5 leaves, 1 shelf
//!            ..
//!            8   Leaf     [ 5 ]                                              1 leaf
//!   spare        leaves   [    ] [    ] [    ]    shelves   ( )              of 10 leaves and 2 shelves that were made
//!   rows         how many rows all levels have
//! ```
//!
//! A row that is promoted, taken out or changed takes no memory, so these calls cannot fail. Only `push` takes some: it makes
//! what boxes one row more may need, and then puts the row in, which cannot fail. Where memory runs out before, the boxes that
//! it made stay as spare ones, and the rows are as they were.
//!
//! No box is ever missing:
//!
//! - Two neighbouring leaves of a level have 13 rows or more together, so r rows stand in at most `2 * (r / 13) + 1` leaves, and
//!   in none where r is 0. So n rows at eight levels stand in at most `2 * (n / 13) + min n 8` leaves.
//! - A level has a shelf only for two leaves or more, so for 13 rows or more: `min (n / 13) 8` shelves at most.
//! - Boxes that levels use and spare boxes are together those that were made: while there are rows, more leaves than n rows can
//!   use, and as many shelves as they can. So a leaf is always spare. A row that finds its level's one leaf full needs a shelf:
//!   that level counts among those with 13 rows and has none yet, so a shelf is spare too.
//! - A promoted row is out for a moment: n - 1 rows need no more than n. The only row of a level that goes to one with none takes its
//!   leaf along.
ghost use Rattle.std.specs.Prelude.{◌≡◌, ◌≢◌, ℕ, ◌+◌, ◌*◌, ◌^◌, ◌<◌, ◌≤◌, [], ◌∷◌, length, replicate, slice_get, slice_set, Some, All, IsSome, IfSome, OnOk, OnErr};
ghost use Rattle.market_types.specs.declared.row.Row.{Row};
ghost use Rattle.market_types.specs.Rows.{IsNewestFirst, requests, requests_above, first_mandated, row_at, without, set_row};
ghost use Rattle.market_types.specs.Bits.{bits};
ghost use Rattle.wide_rows.specs.Leveled.{rows_at, total_rows, with_first, without_at};
ghost use Rattle.wide_rows.specs.Passed.{with_height};
ghost use Rattle.wide_rows.specs.Ways.{least_way, least_node, least_put};

use crate::level::Level;
use crate::spans::Span;
use crate::spare::Spare;
use market_types::Row;
use std::alloc::{AllocError, Global};
use std::marker::Model;
use std::mem;

/// The rows of eight levels, at most 1,024 in all, each with a request of at most 65,535. Contracts see them as the list of each
/// level's rows, newest first, level 1 at index 0.
///
/// A call that searches a level of `n` rows makes at most twice as many visits as `n` has binary digits, and one more where it
/// puts a row in. It adds their number to its last argument. Up to 12 rows stand in one leaf, so that the number of rows alone
/// says what a call counts: `alone`. More may stand in two leaves or more, and then a way down to a row is through three nodes,
/// which count 4 or more: `least`. Only a row that is put in, or changed in the leaf that is looked at first, takes no way down.
#[derive(Drop)]
pub struct Levels {
    levels: [Level; 8],
    spare: Spare,
    /// How many rows there are at all levels.
    rows: usize,
}

impl Model for Levels {
    ghost use Rattle.std.specs.Prelude.{List};
    ghost use Rattle.market_types.specs.declared.row.Row.{Row};

    ghost Value = { List (List Row) };

    ghost use Rattle.wide_rows.specs.Leveled.{rows_of_each, AreLevels};

    ghost view = { λ a. rows_of_each a.levels };

    ghost invariant = { λ a. AreLevels a.levels a.spare a.rows };
}

impl Levels {
    /// No rows, and no memory taken.
    pub fn new(alloc: Global) -> Levels
        ensures exact { result ≡ replicate 8 [] }
    {
        Levels {
            levels: [
                Level::new(),
                Level::new(),
                Level::new(),
                Level::new(),
                Level::new(),
                Level::new(),
                Level::new(),
                Level::new(),
            ],
            spare: Spare::new(alloc),
            rows: 0,
        }
    }

    /// How many rows there are at all levels.
    pub fn len(&self) -> usize
        ensures exact { result ≡ total_rows self.now }
        ensures most { total_rows self.now ≤ 1024 }
        ensures eight { length self.now ≡ 8 }
        ensures newest_first { All IsNewestFirst self.now }
    {
        self.rows
    }

    /// What a level asks for: the sum of all its requests.
    #[inline]
    pub fn demand(&self, level: usize) -> u64
        requires level { level < 8 }
        ensures exact { result ≡ requests (rows_at level self.now) }
        ensures most { result ≤ 1024 * 65535 }
    {
        u64::from(self.levels[level].total())
    }

    /// All rows of a level.
    #[inline(always)]
    pub fn whole(&self, level: usize) -> Span<'_>
        requires level { level < 8 }
        ensures exact { result ≡ with_height (rows_at level self.now) }
        ensures few { length (rows_at level self.now) ≤ 1024 }
    {
        Span::new(&self.levels[level])
    }

    /// The sum of the requests of the rows of a level whose stamp is above `stamp`, which need not be that of a row.
    #[inline]
    pub fn before(&self, level: usize, stamp: u32, visits: &mut u32) -> u64
        requires level { level < 8 }
        requires few { visits.old < 2 ^ 30 }
        ensures exact { result ≡ requests_above stamp (rows_at level self.now) }
        ensures least { visits.old + least_way (length (rows_at level self.now)) ≤ visits.new }
        ensures alone { length (rows_at level self.now) ≤ 12 → visits.new ≡ visits.old + bits (length (rows_at level self.now)) }
        ensures visits { visits.new ≤ visits.old + 2 * bits (length (rows_at level self.now)) }
    {
        u64::from(self.levels[level].sum_above(stamp, visits))
    }

    /// The row at an index of a level, from 0 on, None beyond its end.
    pub fn walk(&self, level: usize, index: usize, visits: &mut u32) -> Option<Row>
        requires level { level < 8 }
        requires few { visits.old < 2 ^ 30 }
        ensures exact { result ≡ slice_get (rows_at level self.now) index }
        ensures entered { visits.old + least_node (length (rows_at level self.now)) ≤ visits.new }
        ensures least { IfSome result (λ _. visits.old + least_way (length (rows_at level self.now)) ≤ visits.new) }
        ensures alone { length (rows_at level self.now) ≤ 12 → visits.new ≡ visits.old + bits (length (rows_at level self.now)) }
        ensures visits { visits.new ≤ visits.old + 2 * bits (length (rows_at level self.now)) }
    {
        self.levels[level].row(index, visits)
    }

    /// The first mandated row of a level.
    pub fn first_mandated(&self, level: usize, visits: &mut u32) -> Option<Row>
        requires level { level < 8 }
        requires few { visits.old < 2 ^ 30 }
        ensures exact { result ≡ first_mandated (rows_at level self.now) }
        ensures entered { visits.old + least_node (length (rows_at level self.now)) ≤ visits.new }
        ensures least { IfSome result (λ _. visits.old + least_way (length (rows_at level self.now)) ≤ visits.new) }
        ensures alone { length (rows_at level self.now) ≤ 12 → visits.new ≡ visits.old + bits (length (rows_at level self.now)) }
        ensures visits { visits.new ≤ visits.old + 2 * bits (length (rows_at level self.now)) }
    {
        self.levels[level].first_mandated(visits)
    }

    /// Sets the request and the mandate of a row that a level has, as it stands there, and leaves all others.
    ///
    /// `near` names the leaf to look at first, and afterwards the one where the row is: keep it with the row for the next call, which
    /// then searches one leaf in place of three nodes. It is never trusted, so any number will do at first.
    // Inlined, since a count that goes through memory is made even where nobody reads it.
    #[inline(always)]
    pub fn update(
        &mut self,
        level: usize,
        row: Row,
        request: u32,
        mandated: bool,
        near: &mut u8,
        visits: &mut u32,
    )
        requires level { level < 8 }
        requires request { request ≤ 65535 }
        requires there { row_at row.stamp (rows_at level self.old) ≡ Some row }
        requires few { visits.old < 2 ^ 30 }
        ensures rows { self.new ≡ slice_set self.old level (set_row row.stamp request mandated (rows_at level self.old)) }
        ensures newest_first { IsNewestFirst (rows_at level self.new) }
        ensures least { visits.old + least_node (length (rows_at level self.old)) ≤ visits.new }
        ensures far { near.new ≢ near.old → visits.old + least_way (length (rows_at level self.old)) ≤ visits.new }
        ensures alone { length (rows_at level self.old) ≤ 12 → visits.new ≡ visits.old + bits (length (rows_at level self.old)) }
        ensures visits { visits.new ≤ visits.old + 2 * bits (length (rows_at level self.old)) }
    {
        self.levels[level].update(&row, request, mandated, near, visits);
    }

    /// Adds a row that is newer than all others of its level at the front. An error says that memory ran out, and leaves the rows
    /// as they were.
    pub fn push(
        &mut self,
        alloc: Global,
        level: usize,
        row: Row,
        visits: &mut u32,
    ) -> Result<(), AllocError>
        requires level { level < 8 }
        requires room { total_rows self.old < 1024 }
        requires request { row.request ≤ 65535 }
        requires newest { All (λ older. older.stamp < row.stamp) (rows_at level self.old) }
        requires few { visits.old < 2 ^ 30 }
        ensures pushed { OnOk result (self.new ≡ with_first level row self.old) }
        ensures unchanged { OnErr result (self.new ≡ self.old) }
        ensures newest_first { OnOk result (IsNewestFirst (rows_at level self.new)) }
        ensures least { OnOk result (visits.old + least_put (length (rows_at level self.old)) ≤ visits.new) }
        ensures alone { length (rows_at level self.old) ≤ 12 → OnOk result (visits.new ≡ visits.old + bits (length (rows_at level self.old) + 1)) }
        ensures visits { OnOk result (visits.new ≤ visits.old + 2 * bits (length (rows_at level self.old)) + 1) }
    {
        self.spare.reserve(alloc, self.rows + 1)?;
        self.levels[level].push(&row, &mut self.spare, visits);
        self.rows += 1;
        Ok(())
    }

    /// Takes the row of a level with that stamp out, None where no row has it. Its memory stays, for rows to come.
    pub fn take(&mut self, level: usize, stamp: u32, visits: &mut u32) -> Option<Row>
        requires level { level < 8 }
        requires few { visits.old < 2 ^ 30 }
        ensures taken { result ≡ row_at stamp (rows_at level self.old) }
        ensures rows { self.new ≡ without_at level stamp self.old }
        ensures newest_first { IsNewestFirst (rows_at level self.new) }
        ensures least { visits.old + least_way (length (rows_at level self.old)) ≤ visits.new }
        ensures alone { length (rows_at level self.old) ≤ 12 → visits.new ≡ visits.old + bits (length (rows_at level self.old)) }
        ensures visits { visits.new ≤ visits.old + 2 * bits (length (rows_at level self.old)) }
    {
        let row = self.levels[level].take(stamp, &mut self.spare, visits);
        let Some(row) = row else {
            return None;
        };
        self.rows -= 1;
        Some(row)
    }

    /// Takes the row with that stamp out of one level, and adds it at the front of another, or of the same, under a stamp that is
    /// newer than all others there. It takes no memory.
    pub fn promote(&mut self, from: usize, stamp: u32, to: usize, newest: u32, visits: &mut u32)
        requires from { from < 8 }
        requires to { to < 8 }
        requires there { IsSome (row_at stamp (rows_at from self.old)) }
        requires newest { All (λ older. older.stamp < newest) (rows_at to (without_at from stamp self.old)) }
        requires few { visits.old < 2 ^ 30 }
        ensures promoted { (row : Row) → row_at stamp (rows_at from self.old) ≡ Some row
            → self.new ≡ with_first to (record row { stamp = newest }) (without_at from stamp self.old) }
        ensures newest_first_from { IsNewestFirst (rows_at from self.new) }
        ensures newest_first_to { IsNewestFirst (rows_at to self.new) }
        ensures least { visits.old + least_way (length (rows_at from self.old)) + least_put (length (rows_at to (without_at from stamp self.old))) ≤ visits.new }
        ensures alone { length (rows_at from self.old) ≤ 12 → length (rows_at to (without_at from stamp self.old)) ≤ 12
            → visits.new ≡ visits.old + bits (length (rows_at from self.old)) + bits (length (rows_at to (without_at from stamp self.old)) + 1) }
        ensures visits { visits.new ≤ visits.old + 2 * bits (length (rows_at from self.old)) + 2 * bits (length (rows_at to (without_at from stamp self.old))) + 1 }
    {
        if self.levels[from].has_one() && (from == to || self.levels[to].is_empty()) {
            self.carry_over(from, to, newest, visits);
            return;
        }
        let Some(row) = self.levels[from].take(stamp, &mut self.spare, visits) else {
            unreachable!()
        };
        let row = Row {
            stamp: newest,
            ..row
        };
        self.levels[to].push(&row, &mut self.spare, visits);
    }

    /// Moves the only row of a level to another that has none, or to the front of the same, under another stamp.
    // With its leaf, which saves a Priority some 170 instructions: the row stays in its lane, and no box is given back to be taken again.
    #[inline(always)]
    fn carry_over(&mut self, from: usize, to: usize, newest: u32, visits: &mut u32)
        requires from { from < 8 }
        requires to { to < 8 }
        requires one { length (rows_at from self.old) ≡ 1 }
        requires free { from ≢ to → rows_at to self.old ≡ [] }
        requires few { visits.old < 2 ^ 30 }
        ensures moved { (row : Row) → rows_at from self.old ≡ row ∷ [] → self.new ≡ with_first to (record row { stamp = newest }) (slice_set self.old from []) }
        ensures newest_first_from { IsNewestFirst (rows_at from self.new) }
        ensures newest_first_to { IsNewestFirst (rows_at to self.new) }
        ensures visits { visits.new ≡ visits.old + 2 }
    {
        let mut level = mem::replace(&mut self.levels[from], Level::new());
        level.restamp(newest, visits);
        self.levels[to] = level;
    }
}
