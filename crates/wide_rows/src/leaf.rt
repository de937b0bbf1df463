//! The leaf, and its calls.
ghost use Rattle.std.specs.Prelude.{◌≡◌, ◌≢◌, ℕ, ◌+◌, ◌-◌, ◌*◌, ◌<◌, ◌≤◌, [], ◌∷◌, ◌++◌, length, slice_get, is_some, All, IfNone, IfSome};
ghost use Rattle.std.specs.Bool.{OnTrue};
ghost use Rattle.market_types.specs.declared.row.Row.{Row};
ghost use Rattle.market_types.specs.Rows.{IsNewestFirst, HasLowRequests, requests, requests_above, first_mandated, row_at, without, set_row};

use crate::columns::Columns;
use crate::quads::Quads;
use crate::search;
use market_types::Row;
use std::marker::Model;

/// At most 16 rows by stamp, each with a request of at most 65,535. Contracts see them as a list, the newest first.
///
/// They stand in columns, the oldest in lane 0, so that a new row, which is the newest, goes behind the others:
///
/// ```text
///   lane            0    1    2    3  ..  15
///   stamps          4    7    9
///   requests        3    0    6    0  ..   0
///   arenas         21    5    8
///   mandated        1    0    1    0  ..   0
///   rows            3
/// ```
///
/// A search for stamp 7 compares all stamps with it at once; the sum above it is that of the requests beside greater stamps, 6.
/// So a call takes as long wherever a row stands: some 5 nanoseconds for a sum above a stamp, and 15 for a row that is taken out
/// and put back as the newest, where plain Rust with `copy_within` takes 22.
#[derive(Drop)]
pub struct Leaf {
    columns: Columns,
}

impl Model for Leaf {
    ghost use Rattle.std.specs.Prelude.{List};
    ghost use Rattle.market_types.specs.declared.row.Row.{Row};
    ghost use Rattle.wide_rows.specs.Leaves.{rows_in, IsLeaf};

    ghost Value = { List Row };

    ghost view = { λ a. rows_in a.columns };

    ghost invariant = { λ a. IsLeaf a.columns };
}

const _: () = prove!(Leaf::MOST_ROWS == 16);

impl Leaf {
    /// The most rows of a leaf.
    pub const MOST_ROWS: usize = 16;

    /// A leaf with no rows.
    pub fn new() -> Leaf
        ensures { result ≡ [] }
    {
        Leaf {
            columns: Columns::new(),
        }
    }

    /// How many rows.
    #[inline]
    pub fn len(&self) -> usize
        ensures exact { result ≡ length self.now }
        ensures most { length self.now ≤ 16 }
        ensures newest_first { IsNewestFirst self.now }
        ensures low { HasLowRequests self.now }
    {
        self.columns.count as usize
    }

    /// The sum of all requests, in workers.
    #[inline]
    pub fn total(&self) -> u32
        ensures exact { result ≡ requests self.now }
        ensures most { result ≤ 16 * 65535 }
    {
        search::total(&self.columns.requests)
    }

    /// The sum of the requests of the rows whose stamp is above `stamp`, which need not be that of a row.
    #[inline]
    pub fn sum_above(&self, stamp: u32) -> u32
        ensures exact { result ≡ requests_above stamp self.now }
        ensures most { result ≤ 16 * 65535 }
    {
        // The only row of a leaf is compared alone, which saves a market with one arena the vectors.
        if self.columns.count == 1 {
            return self.columns.above(0, stamp);
        }
        search::sum_above(&self.columns.stamps, &self.columns.requests, stamp)
    }

    /// The row at an index of the list, from 0 on, None beyond its end.
    #[inline]
    pub fn row(&self, index: usize) -> Option<Row>
        ensures { result ≡ slice_get self.now index }
    {
        let count = self.columns.count as usize;
        if index < count {
            Some(self.columns.row((count - 1 - index) as u32))
        } else {
            None
        }
    }

    /// The row of a leaf that has one. None where it has none, or several.
    #[inline(always)]
    pub(crate) fn only(&self) -> Option<Row>
        ensures some { IfSome result (λ row. self.now ≡ row ∷ []) }
        ensures none { IfNone result (length self.now ≢ 1) }
    {
        if self.columns.count == 1 {
            Some(self.columns.row(0))
        } else {
            None
        }
    }

    /// The first mandated row of the list.
    #[inline]
    pub fn first_mandated(&self) -> Option<Row>
        ensures { result ≡ first_mandated self.now }
    {
        let mandated = self.columns.mandated;
        if mandated == 0 {
            None
        } else {
            Some(self.columns.row(31 - mandated.leading_zeros()))
        }
    }

    /// Whether a stamp stands between those of its oldest and its newest row.
    #[inline(always)]
    pub(crate) fn spans(&self, stamp: u32) -> bool
        requires some { 0 < length self.now }
        ensures oldest { OnTrue result (IfSome (slice_get self.now (length self.now - 1)) (λ row. row.stamp ≤ stamp)) }
        ensures newest { OnTrue result (IfSome (slice_get self.now 0) (λ row. stamp ≤ row.stamp)) }
    {
        let last = self.columns.count - 1;
        if stamp < self.columns.stamps[0] {
            return false;
        }
        if stamp > self.columns.stamps[last as usize] {
            return false;
        }
        true
    }

    /// Whether some row is mandated.
    #[inline]
    pub fn has_mandated(&self) -> bool
        ensures { result ≡ is_some (first_mandated self.now) }
    {
        self.columns.mandated != 0
    }

    /// Sets the request and the mandate of the row with that stamp, and leaves all others; nothing where no row has it.
    #[inline]
    pub fn set(&mut self, stamp: u32, request: u32, mandated: bool)
        requires { request ≤ 65535 }
        ensures { self.new ≡ set_row stamp request mandated self.old }
    {
        let place = search::place_of(&self.columns.stamps, self.columns.count, stamp);
        if place < self.columns.count {
            self.columns.set(place, request, mandated);
        }
    }

    /// Its only row gets this stamp.
    #[inline(always)]
    pub(crate) fn restamp(&mut self, stamp: u32)
        requires one { length self.old ≡ 1 }
        ensures { (row : Row) → self.old ≡ row ∷ [] → self.new ≡ record row { stamp = stamp } ∷ [] }
    {
        self.columns.stamps[0] = stamp;
    }

    /// Adds a row that is newer than all others.
    #[inline]
    pub fn push_newest(&mut self, row: &Row)
        requires room { length self.old < 16 }
        requires request { row.now.request ≤ 65535 }
        requires newest { All (λ other. other.stamp < row.now.stamp) self.old }
        ensures { self.new ≡ row.now ∷ self.old }
    {
        self.columns.push(row);
    }

    /// Takes the row with that stamp out, None where no row has it.
    #[inline]
    pub fn take(&mut self, stamp: u32) -> Option<Row>
        ensures taken { result ≡ row_at stamp self.old }
        ensures rows { self.new ≡ without stamp self.old }
    {
        let place = search::place_of(&self.columns.stamps, self.columns.count, stamp);
        if place < self.columns.count {
            let row = self.columns.row(place);
            self.columns.remove(place);
            Some(row)
        } else {
            None
        }
    }

    /// Its rows, by quads.
    #[inline(always)]
    pub(crate) fn quads(&self) -> Quads<'_>
        ensures { result ≡ self.now }
    {
        Quads::new(&self.columns)
    }

    /// None of its rows.
    #[inline(always)]
    pub(crate) fn no_quads(&self) -> Quads<'_>
        ensures { result ≡ [] }
    {
        Quads::none(&self.columns)
    }

    /// Adds the rows of another leaf, which are newer than all that it has.
    pub fn absorb(&mut self, newer: &Leaf)
        requires room { length newer.now + length self.old ≤ 16 }
        requires newest { IsNewestFirst (newer.now ++ self.old) }
        ensures { self.new ≡ newer.now ++ self.old }
    {
        self.columns.absorb(&newer.columns);
    }

    /// Its rows go.
    pub fn clear(&mut self)
        ensures { self.new ≡ [] }
    {
        self.columns = Columns::new();
    }
}
