//! What a node knows of those below it: up to 16 children side by side, in columns.
//!
//! ```text
//!   stamps below:     4 7 8 | 9 12 15 | 20 21            three children, the oldest first
//!   oldest              4       9        18    MAX ..     at most the stamps of its rows, above those of all older children
//!   sums                9       3         7      0 ..     what its rows ask for
//!   counts              3       3         2      0 ..     how many they are
//!   mandated           no      no       yes     no ..     whether some row is mandated: a bit each
//! ```
//!
//! A search compares all 16 of `oldest` with a stamp at once, and adds up what stands beside those above it, so no branch hangs
//! on where the stamp stands. A change of one child changes one lane by the difference.
ghost use Rattle.std.specs.Prelude.{◌≡◌, ℕ, ◌+◌, ◌-◌, ◌^◌, ◌<◌, ◌≤◌, List, length, slice_get, slice_index, MatchOption, false};
ghost use Rattle.market_types.specs.declared.row.Row.{Row};
ghost use Rattle.market_types.specs.Rows.{requests, first_mandated};
ghost use Rattle.wide_rows.specs.Columns.{sum_above, total};
ghost use Rattle.wide_rows.specs.Joined.{joined_below};
ghost use Rattle.wide_rows.specs.Storeys.{IsStorey, IsPlace, IsNext, IsChange, has_mandated};

use crate::columns::one_bit;
use crate::search;

/// Up to 16 children.
#[derive(Drop)]
pub(crate) struct Index {
    oldest: [u32; 16],
    sums: [u32; 16],
    counts: [u32; 16],
    mandated: u32,
    len: u32,
}

/// What is known of one child.
#[derive(Clone, Copy)]
pub(crate) struct Entry {
    /// At most the stamps of its rows, and above those of all older children.
    pub(crate) oldest: u32,
    /// What its rows ask for.
    pub(crate) sum: u32,
    /// How many they are.
    pub(crate) count: u32,
    /// Some row is mandated.
    pub(crate) mandated: bool,
}

/// What has changed in a child.
#[derive(Clone, Copy)]
pub(crate) struct Change {
    /// What its rows ask for less.
    pub(crate) less: u32,
    /// What its rows ask for more.
    pub(crate) more: u32,
    /// How many rows are gone.
    pub(crate) gone: u32,
    /// How many rows have come.
    pub(crate) come: u32,
}

impl Index {
    /// No children.
    pub(crate) fn new() -> Index
        ensures { (rows : ℕ → List Row) → IsStorey result rows 0 }
    {
        Index {
            oldest: [u32::MAX; 16],
            sums: [0; 16],
            counts: [0; 16],
            mandated: 0,
            len: 0,
        }
    }

    /// How many children.
    #[inline(always)]
    pub(crate) fn len(&self) -> usize
        ensures { result ≡ self.now.len }
    {
        self.len as usize
    }

    /// What is known of all of them together; the first one's `oldest`.
    pub(crate) fn whole(&self) -> Entry
        requires low { total self.now.sums < 2 ^ 32 }
        requires few { total self.now.counts < 2 ^ 32 }
        ensures oldest { result.oldest ≡ slice_index self.now.oldest 0 }
        ensures rows { (rows : ℕ → List Row) (count : ℕ) → IsStorey self.now rows count
            → (result.sum ≡ requests (joined_below rows count)) × (result.count ≡ length (joined_below rows count)) × (result.mandated ≡ has_mandated (joined_below rows count)) }
    {
        Entry {
            oldest: self.oldest[0],
            sum: search::total(&self.sums),
            count: search::total(&self.counts),
            mandated: self.mandated != 0,
        }
    }

    /// The sum of what stands beside those of `oldest` that are above a stamp.
    #[inline(always)]
    pub(crate) fn sum_above(&self, stamp: u32) -> u32
        requires { total self.now.sums < 2 ^ 32 }
        ensures { result ≡ sum_above stamp self.now.oldest self.now.sums }
    {
        search::sum_above(&self.oldest, &self.sums, stamp)
    }

    /// What a child asks for.
    #[inline(always)]
    pub(crate) fn sum(&self, place: usize) -> u32
        requires there { place < 16 }
        requires wide { length self.now.sums ≡ 16 }
        ensures { result ≡ slice_index self.now.sums place }
    {
        self.sums[place]
    }

    /// The child where a stamp stands, which is not below the first one's `oldest`.
    #[inline(always)]
    pub(crate) fn place(&self, stamp: u32) -> usize
        requires some { 0 < self.now.len }
        requires first { slice_index self.now.oldest 0 ≤ stamp }
        ensures { (rows : ℕ → List Row) (count : ℕ) → IsStorey self.now rows count → IsPlace stamp self.now rows count result }
    {
        // A level of up to 16 leaves has one block, so that its top is not searched.
        if self.len == 1 {
            return 0;
        }
        search::place_above(&self.oldest, stamp).min(self.len) as usize - 1
    }

    /// The newest child with a mandated row.
    pub(crate) fn mandated(&self) -> Option<usize>
        ensures { (rows : ℕ → List Row) (count : ℕ) → IsStorey self.now rows count
            → MatchOption result (has_mandated (joined_below rows count) ≡ false) (λ place. (place < count) × (first_mandated (joined_below rows count) ≡ first_mandated (rows place))) }
    {
        if self.mandated == 0 {
            return None;
        }
        Some(31 - self.mandated.leading_zeros() as usize)
    }

    /// The child in which the row of an index stands, the newest first, and how many rows of it are newer. None beyond the end.
    pub(crate) fn row_at(&self, index: usize) -> Option<(usize, usize)>
        requires { self.now.len ≤ 16 }
        ensures { (rows : ℕ → List Row) (count : ℕ) → IsStorey self.now rows count
            → MatchOption result (length (joined_below rows count) ≤ index) (λ at. (at.0 < count) × (at.1 < length (rows at.0)) × (slice_get (joined_below rows count) index ≡ slice_get (rows at.0) at.1)) }
    {
        let mut rest = index;
        let mut place = self.len as usize;
        while place > 0 {
            place -= 1;
            let count = self.counts[place] as usize;
            if rest < count {
                return Some((place, rest));
            }
            rest -= count;
        }
        None
    }

    /// One child more, newer than all others.
    pub(crate) fn push(&mut self, entry: Entry)
        requires room { self.old.len < 16 }
        ensures rows { (rows : ℕ → List Row) (count : ℕ) → IsStorey self.old rows count → IsNext entry self.old rows count → IsStorey self.new rows (count + 1) }
        ensures oldest { slice_index self.new.oldest self.old.len ≡ entry.oldest }
        ensures others { (place : ℕ) → place < self.old.len → slice_index self.new.oldest place ≡ slice_index self.old.oldest place }
    {
        let place = self.len as usize;
        self.oldest[place] = entry.oldest;
        self.sums[place] = entry.sum;
        self.counts[place] = entry.count;
        self.mandated |= one_bit(entry.mandated) << self.len;
        self.len += 1;
    }

    /// What a child asks for becomes so much less and so much more; so many rows go and come; and some are mandated or none.
    #[inline(always)]
    pub(crate) fn change(&mut self, place: usize, change: Change, mandated: bool)
        requires there { place < 16 }
        requires less { change.less ≤ slice_index self.old.sums place }
        requires more { slice_index self.old.sums place - change.less + change.more < 2 ^ 32 }
        requires gone { change.gone ≤ slice_index self.old.counts place }
        requires come { slice_index self.old.counts place - change.gone + change.come < 2 ^ 32 }
        ensures rows { (rows now : ℕ → List Row) (count : ℕ) → IsStorey self.old rows count → IsChange rows now count place change → mandated ≡ has_mandated (now place) → IsStorey self.new now count }
        ensures oldest { self.new.oldest ≡ self.old.oldest }
    {
        self.sums[place] = self.sums[place] - change.less + change.more;
        self.counts[place] = self.counts[place] - change.gone + change.come;
        self.mandated = self.mandated & !(1 << place as u32) | one_bit(mandated) << place as u32;
    }

    /// Whether some row is mandated.
    #[inline(always)]
    pub(crate) fn has_mandated(&self) -> bool
        ensures { (rows : ℕ → List Row) (count : ℕ) → IsStorey self.now rows count → result ≡ has_mandated (joined_below rows count) }
    {
        self.mandated != 0
    }
}
