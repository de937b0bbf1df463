//! A walk through a level's rows in order, the newest first, that passes over what asks for little without looking at its rows.
//!
//! ```text
//!   top          entry 0         entry 1        ..      a block of 16 leaves is passed over by one entry
//!   blocks       block 0         block 1        ..      a leaf by one entry
//!   leaves     0 1 2 .. 15     16 17 .. 31      ..      a quad of a leaf by one of four sums
//!   left       ------------------------>                the leaves that the walk has not come to
//! ```
//!
//! It goes on from where it stands: the quads of the leaf that it is in, then the leaves before it, a block at a time where it
//! comes to one's end. So it has a branch for each sum that it reads, and none for how deep it is.
//!
//! What it passes over is counted: a run of k sums in one node as many visits as k has binary digits, as many as a search in a node
//! of k keys. From one row that is looked at to the next it passes over quads, leaves, blocks, leaves and quads, at most, and goes
//! on only where something more is due: so it counts no more than a way down from the top, twice the binary digits of the number of
//! rows (`IsCounted`).
ghost use Rattle.std.specs.Prelude.{◌≡◌, ◌≢◌, ℕ, ◌+◌, ◌*◌, ◌^◌, ◌<◌, ◌≤◌, List, [], ◌∷◌, ◌++◌, length, IfNone, IfSome};
ghost use Rattle.std.specs.Bool.{OnTrue, OnFalse};
ghost use Rattle.market_types.specs.Rows.{requests};
ghost use Rattle.market_types.specs.Bits.{bits};
ghost use Rattle.wide_rows.specs.Joined.{joined_below};
ghost use Rattle.wide_rows.specs.Shelves.{leaf_at};
ghost use Rattle.wide_rows.specs.Storeys.{IsIndexed};
ghost use Rattle.wide_rows.specs.Passed.{IsPassed, IsDue, IsCounted, AreFirst, AreLeavesPassed, AreRowsPassed, with_height};

use crate::leaf::Leaf;
use crate::level::Level;
use crate::quads::{Quad, Quads};
use crate::storeys::Storeys;
use crate::visits::pass_over;
use market_types::Row;
use std::marker::Model;

/// Counts what was passed over from so many leaves down to one: leaves of the block where it began, whole blocks, and leaves of the
/// block where it ended, each run as a node of so many keys.
#[inline(always)]
fn count_leaves(left: usize, at: usize, visits: &mut u32)
    requires before { at < left }
    requires few { left ≤ 160 }
    requires room { visits.old < 2 ^ 31 }
    ensures { AreLeavesPassed left at visits.old visits.new }
{
    if at / 16 == (left - 1) / 16 {
        pass_over(left - 1 - at, visits);
    } else {
        pass_over(left % 16, visits);
        pass_over(left / 16 - at / 16 - 1, visits);
        pass_over(15 - at % 16, visits);
    }
}

/// Goes on to the next leaf where the demand is reached. False where there is none.
#[inline(always)]
fn pass(
    leaves: &Vec<Box<Leaf>>,
    storeys: &Storeys,
    left: &mut usize,
    workers: u64,
    demand: u64,
    carry: &mut u64,
    visits: &mut u32,
) -> bool
    requires indexed { IsIndexed storeys.now (leaf_at leaves.now.items) (length leaves.now.items) }
    requires within { left.old ≤ length leaves.now.items }
    requires few { workers < 2 ^ 31 }
    requires small { demand < 2 ^ 32 }
    requires low { carry.old < 2 ^ 32 }
    requires room { visits.old < 2 ^ 31 }
    ensures due { OnTrue result (IsDue workers demand (joined_below (leaf_at leaves.now.items) left.old) (leaf_at leaves.now.items left.new) (joined_below (leaf_at leaves.now.items) left.new) carry.old carry.new) }
    ensures left { OnTrue result (left.new < left.old) }
    ensures none { OnFalse result (IsPassed workers demand (joined_below (leaf_at leaves.now.items) left.old) [] carry.old carry.new) }
    ensures empty { OnFalse result (left.new ≡ 0) }
    ensures low { carry.new < 2 ^ 32 }
    ensures counted { OnTrue result (AreLeavesPassed left.old left.new visits.old visits.new) }
    ensures counted_all { OnFalse result (visits.old ≤ visits.new) }
    ensures most { OnFalse result (visits.new ≤ visits.old + left.old) }
{
    let _ = leaves;
    let all = *left;
    while *left > 0 {
        if *left % 16 == 0 {
            let sum = storeys.top.sum(*left / 16 - 1);
            let due = workers * u64::from(sum) + *carry;
            if due < demand {
                *carry = due;
                *left -= 16;
                continue;
            }
        }
        *left -= 1;
        let sum = storeys.blocks[*left / 16].sum(*left % 16);
        let due = workers * u64::from(sum) + *carry;
        if due >= demand {
            count_leaves(all, *left, visits);
            return true;
        }
        *carry = due;
    }
    pass_over(all % 16, visits);
    pass_over(all / 16, visits);
    false
}

/// Leaves of a shelf that a walk has not come to, the first ones. Contracts see their rows, newest first.
#[derive(Drop)]
pub(crate) struct Leaves<'a> {
    leaves: &'a Vec<Box<Leaf>>,
    storeys: &'a Storeys,
    /// How many are left.
    left: usize,
}

impl<'a> Model for Leaves<'a> {
    ghost use Rattle.std.specs.Prelude.{List};
    ghost use Rattle.market_types.specs.declared.row.Row.{Row};
    ghost use Rattle.wide_rows.specs.Joined.{joined_below};
    ghost use Rattle.wide_rows.specs.Shelves.{leaf_at};
    ghost use Rattle.wide_rows.specs.Passed.{AreFirst};

    ghost Value = { List Row };

    ghost view = { λ a. joined_below (leaf_at a.leaves.now.items) a.left };

    ghost invariant = { λ a. AreFirst a.leaves.now.items a.storeys.now a.left };
}

impl<'a> Leaves<'a> {
    /// The first leaves of a shelf.
    #[inline(always)]
    pub(crate) fn new(leaves: &'a Vec<Box<Leaf>>, storeys: &'a Storeys, left: usize) -> Leaves<'a>
        requires { AreFirst leaves.now.items storeys.now left }
        ensures { result ≡ joined_below (leaf_at leaves.now.items) left }
    {
        Leaves {
            leaves,
            storeys,
            left,
        }
    }

    /// The next leaf where what the rows up to its end ask for, times the workers, on top of the carry reaches the demand. The
    /// carry goes on past all rows before it. None where no leaf is left.
    #[inline(always)]
    fn next_due(
        &mut self,
        workers: u64,
        demand: u64,
        carry: &mut u64,
        visits: &mut u32,
    ) -> Option<Quads<'a>>
        requires few { workers < 2 ^ 31 }
        requires small { demand < 2 ^ 32 }
        requires low { carry.old < 2 ^ 32 }
        requires room { visits.old < 2 ^ 31 }
        ensures due { IfSome result (λ leaf. IsDue workers demand self.old leaf self.new carry.old carry.new) }
        ensures some { IfSome result (λ leaf. 0 < length leaf) }
        ensures none { IfNone result (IsPassed workers demand self.old [] carry.old carry.new) }
        ensures low { carry.new < 2 ^ 32 }
        ensures counted { IfSome result (λ leaf. AreRowsPassed self.old leaf self.new visits.old visits.new) }
        ensures counted_all { IfNone result (visits.old ≤ visits.new) }
        ensures most { IfNone result (visits.new ≤ visits.old + length self.old) }
    {
        let mut left = self.left;
        let found = pass(
            self.leaves,
            self.storeys,
            &mut left,
            workers,
            demand,
            carry,
            visits,
        );
        self.left = left;
        if !found {
            return None;
        }
        Some(self.leaves[left].quads())
    }
}

/// A walk through a level's rows. Contracts see those that it has not come to, newest first.
#[derive(Drop)]
pub struct Walk<'a> {
    /// What is left of the leaf that it is in.
    quads: Quads<'a>,
    /// The leaves after that.
    leaves: Option<Leaves<'a>>,
}

impl<'a> Model for Walk<'a> {
    ghost use Rattle.std.specs.Prelude.{List, ◌++◌};
    ghost use Rattle.market_types.specs.declared.row.Row.{Row};
    ghost use Rattle.wide_rows.specs.Passed.{rows_left, AreBegun};

    ghost Value = { List Row };

    ghost view = { λ a. a.quads ++ rows_left a.leaves };

    ghost invariant = { λ a. AreBegun a.quads a.leaves };
}

impl<'a> Walk<'a> {
    /// A walk through a leaf, which is all of a level.
    #[inline(always)]
    pub(crate) fn of_leaf(leaf: Quads<'a>) -> Walk<'a>
        ensures { result ≡ leaf.entry }
    {
        Walk {
            quads: leaf,
            leaves: None,
        }
    }

    /// A walk through leaves, of which none has been entered.
    #[inline(always)]
    pub(crate) fn of_leaves(none: Quads<'a>, all: Leaves<'a>) -> Walk<'a>
        requires { none ≡ [] }
        ensures { result ≡ all.entry }
    {
        Walk {
            quads: none,
            leaves: Some(all),
        }
    }

    /// The next rows, at most four, where what the rows up to their end ask for, times the workers, on top of the carry reaches
    /// the demand. The carry goes on past all rows before them. None where there are none. A run of sums in one node that it passes
    /// over is counted as a node of so many keys.
    #[inline(always)]
    pub fn next_due(
        &mut self,
        workers: u64,
        demand: u64,
        carry: &mut u64,
        visits: &mut u32,
    ) -> Option<Quad<'a>>
        requires few { workers < 2 ^ 31 }
        requires small { demand < 2 ^ 32 }
        requires low { carry.old < 2 ^ 32 }
        requires room { visits.old < 2 ^ 30 }
        ensures due { IfSome result (λ quad. IsDue workers demand self.old quad self.new carry.old carry.new) }
        ensures some { IfSome result (λ quad. 0 < length quad) }
        ensures four { IfSome result (λ quad. length quad ≤ 4) }
        ensures none { IfNone result (IsPassed workers demand self.old [] carry.old carry.new) }
        ensures low { carry.new < 2 ^ 32 }
        ensures counted { IfSome result (λ quad. IsCounted self.old quad self.new visits.old visits.new) }
        ensures counted_all { IfNone result (visits.old ≤ visits.new) }
        ensures most { IfNone result (visits.new ≤ visits.old + length self.old) }
    {
        loop {
            if let Some(quad) = self.quads.next_due(workers, demand, carry, visits) {
                return Some(quad);
            }
            let Some(leaves) = &mut self.leaves else {
                return None;
            };
            let Some(leaf) = leaves.next_due(workers, demand, carry, visits) else {
                return None;
            };
            self.quads = leaf;
        }
    }

    /// The same where enough is due to all rows that are left, so that there are such rows.
    #[inline(always)]
    pub fn next_surely_due(
        &mut self,
        workers: u64,
        demand: u64,
        carry: &mut u64,
        visits: &mut u32,
    ) -> Quad<'a>
        requires few { workers < 2 ^ 31 }
        requires small { demand < 2 ^ 32 }
        requires low { carry.old < demand }
        requires due { demand ≤ carry.old + workers * requests self.old }
        requires room { visits.old < 2 ^ 30 }
        ensures due { IsDue workers demand self.old result self.new carry.old carry.new }
        ensures some { 0 < length result }
        ensures four { length result ≤ 4 }
        ensures low { carry.new < demand }
        ensures counted { IsCounted self.old result self.new visits.old visits.new }
    {
        let Some(quad) = self.next_due(workers, demand, carry, visits) else {
            unreachable!()
        };
        quad
    }

    /// The next rows, at most four. None where there are none.
    #[inline(always)]
    pub fn next(&mut self) -> Option<Quad<'a>>
        ensures some { IfSome result (λ quad. self.old ≡ quad ++ self.new) }
        ensures none { IfNone result (self.old ≡ []) }
        ensures rows { IfSome result (λ quad. 0 < length quad) }
        ensures four { IfSome result (λ quad. length quad ≤ 4) }
    {
        let mut carry = 0;
        let mut visits = 0;
        self.next_due(0, 0, &mut carry, &mut visits)
    }
}

/// All rows of a level. Contracts see them, newest first, and how many visits of a walk an arena that it looks at makes at
/// most.
#[derive(Drop)]
pub struct Span<'a> {
    level: &'a Level,
}

impl<'a> Model for Span<'a> {
    ghost use Rattle.std.specs.Prelude.{List, ℕ};
    ghost use Rattle.market_types.specs.declared.row.Row.{Row};
    ghost use Rattle.wide_rows.specs.Passed.{with_height};

    ghost Value = { List Row × ℕ };

    ghost view = { λ a. with_height a.level.now.rows };
}

impl<'a> Span<'a> {
    /// The rows of a level.
    #[inline(always)]
    pub(crate) fn new(level: &'a Level) -> Span<'a>
        ensures { result ≡ with_height level.now.rows }
    {
        Span { level }
    }

    /// The sum of the requests of its rows.
    #[inline(always)]
    pub fn requests(&self) -> u64
        ensures exact { result ≡ requests self.now.0 }
    {
        u64::from(self.level.total())
    }

    /// The row of a level that has one, which needs no walk. None where it has none, or several.
    #[inline(always)]
    pub fn only(&self) -> Option<Row>
        ensures some { IfSome result (λ row. self.now.0 ≡ row ∷ []) }
        ensures none { IfNone result (length self.now.0 ≢ 1) }
        ensures height { self.now.1 ≡ 2 * bits (length self.now.0) }
    {
        self.level.only()
    }

    /// A walk through its rows. None where there are none.
    #[inline(always)]
    pub fn walk(&self) -> Option<Walk<'a>>
        ensures none { IfNone result (self.now.0 ≡ []) }
        ensures all { IfSome result (λ rows. rows ≡ self.now.0) }
        ensures height { self.now.1 ≡ 2 * bits (length self.now.0) }
    {
        self.level.walk()
    }
}
