//! Rows at the end of a chart whose arenas do not live. A moment that is about none of them leaves them as they are, so that they need not be
//! passed one by one: a chart of arenas that are named ahead has rows of many that no entry has opened yet.
ghost use Rattle.std.specs.Prelude.{◌≡◌, ℕ, ◌+◌, ◌<◌, ◌≤◌, false, length};
ghost use Rattle.std.specs.Bool.{OnFalse};
ghost use Rattle.market_types.specs.Allotment.{is_just};
ghost use Rattle.journal_chart.specs.Resting.{AreLeft, AreResting};

use crate::row::Row;
use market_types::ArenaId;

/// The last rows of a chart, whose arenas do not live.
#[derive(Clone, Copy)]
pub(crate) struct Resting {
    /// How many rows come before them.
    pub(crate) before: usize,
    /// The least and the greatest number of their arenas.
    pub(crate) least: u32,
    pub(crate) most: u32,
}

impl Resting {
    /// None of so many rows.
    pub(crate) fn none(rows: usize) -> Resting
        ensures { result.before ≡ rows }
    {
        Resting {
            before: rows,
            least: u32::MAX,
            most: 0,
        }
    }

    /// Those of all rows whose arenas do not live, up to the last that does.
    pub(crate) fn of(rows: &[Row]) -> Resting
        ensures resting { AreResting result rows.now }
        ensures within { result.before ≤ length rows.now }
    {
        let mut resting = Resting::none(rows.len());
        while resting.before > 0 {
            let row = &rows[resting.before - 1];
            if row.stands().is_some() {
                return resting;
            }
            resting = resting.with(row.arena());
        }
        resting
    }

    /// These and the row before them, of this arena.
    fn with(self, arena: ArenaId) -> Resting
        requires some { 0 < self.before }
        ensures before { self.before ≡ result.before + 1 }
        ensures least { result.least ≤ self.least }
        ensures most { self.most ≤ result.most }
        ensures from { result.least ≤ arena }
        ensures to { arena ≤ result.most }
    {
        let number = arena.get();
        Resting {
            before: self.before - 1,
            least: self.least.min(number),
            most: self.most.max(number),
        }
    }

    /// An entry about this arena may be about one of these.
    #[inline]
    fn may_have(self, about: &Option<ArenaId>) -> bool
        ensures { OnFalse result ((number : ℕ) → self.least ≤ number → number ≤ self.most → is_just number about.now ≡ false) }
    {
        match about {
            Some(arena) => self.least <= arena.get() && arena.get() <= self.most,
            None => false,
        }
    }

    /// So many of these rows have to be looked at for an entry about this arena: the others it leaves as they are.
    #[inline]
    pub(crate) fn awake(self, rows: &[Row], about: &Option<ArenaId>) -> usize
        requires resting { AreResting self rows.now }
        requires within { self.before ≤ length rows.now }
        ensures left { AreLeft result about.now rows.now }
        ensures within { result ≤ length rows.now }
        ensures most { self.before ≤ result }
    {
        if self.may_have(about) {
            return rows.len();
        }
        self.before
    }

    /// Those of rows of which the first so many were looked at since. An arena behind these may live now, where all were.
    #[inline]
    pub(crate) fn renewed(self, count: usize, rows: &[Row]) -> Resting
        requires rest { count ≤ self.before → AreResting self rows.now }
        requires within { self.before ≤ length rows.now }
        ensures resting { AreResting result rows.now }
        ensures within { result.before ≤ length rows.now }
    {
        if count > self.before {
            return Resting::of(rows);
        }
        self
    }
}
