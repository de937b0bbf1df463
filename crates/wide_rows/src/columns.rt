//! The columns of a leaf, and what is written into one lane of them.
ghost use Rattle.std.specs.Prelude.{◌≡◌, ℕ, ◌<◌, ◌≤◌, ◌+◌, [], ◌∷◌, ◌++◌, ◌==◌, nat_lt, if◌then◌else◌};
ghost use Rattle.market_types.specs.Rows.{requests_above};
ghost use Rattle.wide_rows.specs.Leaves.{lane, rows_in, IsTidy};

use crate::search::without_lane;
use market_types::{ArenaId, Row};

/// Up to 16 rows, in lanes: a row's numbers stand at the same place of each column. A lane with no row asks for nothing; its
/// stamp and its arena are not read.
#[derive(Drop)]
pub(crate) struct Columns {
    /// What a search reads: the stamps, rising.
    pub(crate) stamps: [u32; 16],
    pub(crate) requests: [u32; 16],
    pub(crate) arenas: [u32; 16],
    /// Which rows are mandated, a bit for each.
    pub(crate) mandated: u32,
    /// How many rows: they stand in the first lanes.
    pub(crate) count: u32,
}

impl Columns {
    /// Columns with no rows.
    pub(crate) fn new() -> Columns
        ensures tidy { IsTidy result }
        ensures count { result.count ≡ 0 }
    {
        Columns {
            stamps: [0; 16],
            requests: [0; 16],
            arenas: [0; 16],
            mandated: 0,
            count: 0,
        }
    }

    /// The row in a lane.
    #[inline]
    pub(crate) fn row(&self, place: u32) -> Row
        requires { place < 16 }
        ensures { result ≡ lane self.now place }
    {
        Row {
            stamp: self.stamps[place as usize],
            arena: ArenaId::new(self.arenas[place as usize]),
            request: self.requests[place as usize],
            mandated: self.mandated >> place & 1 == 1,
        }
    }

    /// What the row in a lane asks for where its stamp is above this one, else 0.
    #[inline]
    pub(crate) fn above(&self, place: u32, stamp: u32) -> u32
        requires { place < 16 }
        ensures { result ≡ requests_above stamp (lane self.now place ∷ []) }
    {
        if self.stamps[place as usize] > stamp {
            self.requests[place as usize]
        } else {
            0
        }
    }

    /// Sets the request and the mandate of the row in a lane.
    #[inline]
    pub(crate) fn set(&mut self, place: u32, request: u32, mandated: bool)
        requires tidy { IsTidy self.old }
        requires there { place < self.old.count }
        ensures tidy { IsTidy self.new }
        ensures count { self.new.count ≡ self.old.count }
        ensures rows { (i : ℕ) → i < 16 → lane self.new i ≡ (if i == place then record (lane self.old i) { request = request; mandated = mandated } else lane self.old i) }
    {
        self.requests[place as usize] = request;
        self.mandated = self.mandated & !(1 << place) | one_bit(mandated) << place;
    }

    /// Puts a row into the first free lane.
    #[inline]
    pub(crate) fn push(&mut self, row: &Row)
        requires tidy { IsTidy self.old }
        requires room { self.old.count < 16 }
        ensures tidy { IsTidy self.new }
        ensures count { self.new.count ≡ self.old.count + 1 }
        ensures rows { (i : ℕ) → i < 16 → lane self.new i ≡ (if i == self.old.count then row.now else lane self.old i) }
    {
        let place = self.count;
        self.stamps[place as usize] = row.stamp;
        self.requests[place as usize] = row.request;
        self.arenas[place as usize] = row.arena.get();
        self.mandated |= one_bit(row.mandated) << place;
        self.count = place + 1;
    }

    /// Takes the row in a lane out: those behind it move up by one.
    #[inline]
    pub(crate) fn remove(&mut self, place: u32)
        requires tidy { IsTidy self.old }
        requires there { place < self.old.count }
        ensures tidy { IsTidy self.new }
        ensures count { self.new.count + 1 ≡ self.old.count }
        ensures rows { (i : ℕ) → i < self.new.count → lane self.new i ≡ lane self.old (if nat_lt i place then i else i + 1) }
    {
        // The only row goes without the vectors: nothing is behind it.
        if self.count == 1 {
            self.requests[0] = 0;
            self.mandated = 0;
            self.count = 0;
            return;
        }
        self.stamps = without_lane(&self.stamps, place);
        self.requests = without_lane(&self.requests, place);
        self.arenas = without_lane(&self.arenas, place);
        let before = (1 << place) - 1;
        self.mandated = self.mandated & before | self.mandated >> 1 & !before;
        self.count -= 1;
    }

    /// Adds the rows of other columns, as newer ones.
    pub(crate) fn absorb(&mut self, newer: &Columns)
        requires tidy { IsTidy self.old }
        requires other { IsTidy newer.now }
        requires room { self.old.count + newer.now.count ≤ 16 }
        ensures tidy { IsTidy self.new }
        ensures rows { rows_in self.new ≡ rows_in newer.now ++ rows_in self.old }
    {
        for place in 0..newer.count {
            let row = newer.row(place);
            self.push(&row);
        }
    }
}

/// 1 for a mandate.
#[inline]
pub(crate) fn one_bit(mandated: bool) -> u32
    ensures { result ≡ (if mandated then 1 else 0) }
{
    if mandated { 1 } else { 0 }
}
