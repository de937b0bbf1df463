//! The rows of a leaf by quads, four lanes side by side: a walk passes over a quad whose sum is low.
//!
//! ```text
//!   lane        0  1  2  3 |  4  5  6  7 |  8  9 10 11 | 12 13 14 15
//!   requests    3  0  6  1 |  0  0  0  0 |  2  9  0  0 |  0  0  0  0
//!   sums            10     |      0      |     11      |      0          all four at once, by vectors
//!   left        0 and 1: the rows of quad 2 come next, then those of quad 0
//! ```
ghost use Rattle.std.specs.Prelude.{◌≡◌, ℕ, ◌+◌, ◌-◌, ◌*◌, ◌^◌, ◌<◌, ◌≤◌, List, [], ◌∷◌, length, IfNone, IfSome};
ghost use Rattle.wide_rows.specs.Leaves.{IsLeaf, lane, rows_in};
ghost use Rattle.wide_rows.specs.Passed.{IsPassed, IsDue, IsReached, AreQuads, AreQuadsPassed, AllQuadsPassed, quad_rows, rows_from, rows_of_quads};
ghost use Rattle.market_types.specs.Bits.{bits};
ghost use Rattle.market_types.specs.Rows.{requests};

use crate::columns::Columns;
use crate::search;
use crate::visits::pass_over;
use market_types::{ArenaId, Row};
use std::marker::Model;

/// Up to four rows that stand side by side. Contracts see those that are left of them, newest first.
#[derive(Drop)]
pub struct Quad<'a> {
    columns: &'a Columns,
    /// The lane of the oldest.
    first: u32,
    /// How many are left.
    count: u32,
    /// What these ask for.
    asked: u32,
}

impl<'a> Model for Quad<'a> {
    ghost use Rattle.std.specs.Prelude.{List};
    ghost use Rattle.market_types.specs.declared.row.Row.{Row};
    ghost use Rattle.wide_rows.specs.Passed.{rows_from, AreAside};

    ghost Value = { List Row };

    ghost view = { λ a. rows_from a.columns.now a.first a.count };

    ghost invariant = { λ a. AreAside a.columns.now a.first a.count a.asked };
}

impl<'a> Quad<'a> {
    /// The rows of a quad.
    #[inline(always)]
    fn new(columns: &'a Columns, quad: u32, asked: u32) -> Quad<'a>
        requires room { columns.now.count ≤ 16 }
        requires some { 4 * quad < columns.now.count }
        requires asked { asked ≡ requests (quad_rows columns.now quad) }
        ensures rows { result ≡ quad_rows columns.now quad }
        ensures some { 0 < length result }
        ensures four { length result ≤ 4 }
    {
        let first = 4 * quad;
        Quad {
            columns,
            first,
            count: (columns.count - first).min(4),
            asked,
        }
    }

    /// The sum of the requests of its rows.
    #[inline(always)]
    pub fn requests(&self) -> u64
        ensures { result ≡ requests self.now }
    {
        u64::from(self.asked)
    }

    /// The next row, which is a visit. None where none is left.
    #[inline(always)]
    pub fn next(&mut self, visits: &mut u32) -> Option<Row>
        requires few { visits.old < 2 ^ 31 }
        ensures none { IfNone result (self.old ≡ []) }
        ensures some { IfSome result (λ row. self.old ≡ row ∷ self.new) }
        ensures uncounted { IfNone result (visits.new ≡ visits.old) }
        ensures counted { IfSome result (λ _. visits.new ≡ visits.old + 1) }
    {
        if self.count == 0 {
            return None;
        }
        *visits += 1;
        self.count -= 1;
        let row = self.columns.row(self.first + self.count);
        self.asked -= row.request;
        Some(row)
    }

    /// The arena at which the demand is reached, where it is reached by these rows. Each of them is a visit.
    #[inline(always)]
    pub fn reaching(&self, workers: u64, demand: u64, carry: u64, visits: &mut u32) -> ArenaId
        requires few { workers < 2 ^ 31 }
        requires low { carry < demand }
        requires small { demand < 2 ^ 32 }
        requires due { demand ≤ carry + workers * requests self.now }
        requires room { visits.old < 2 ^ 31 }
        ensures reached { IsReached workers demand carry self.now result }
        ensures counted { visits.new ≡ visits.old + length self.now }
    {
        *visits += self.count;
        let place = lane_reaching(self.columns, self.first, self.count, workers, demand, carry);
        ArenaId::new(self.columns.arenas[(self.first + place) as usize])
    }
}

/// Which of so many lanes from one on is the newest by which the demand is reached, where it is reached by all of them. Which it is is no
/// branch, since it would be guessed wrongly half of the time.
#[inline(always)]
fn lane_reaching(
    columns: &Columns,
    first: u32,
    count: u32,
    workers: u64,
    demand: u64,
    carry: u64,
) -> u32
    requires room { first ≤ 12 }
    requires four { count ≤ 4 }
    requires few { workers < 2 ^ 31 }
    requires low { carry < demand }
    requires small { demand < 2 ^ 32 }
    requires asked { requests (rows_from columns.now first count) < 2 ^ 32 }
    requires due { demand ≤ carry + workers * requests (rows_from columns.now first count) }
    ensures there { result < count }
    ensures reached { IsReached workers demand carry (rows_from columns.now first count) (lane columns.now (first + result)).arena }
{
    let mut place = 0;
    let mut behind = carry;
    let mut lane = 4;
    while lane > 0 {
        lane -= 1;
        let asked = columns.requests[(first + lane) as usize];
        let request = if lane < count { asked } else { 0 };
        place = if behind < demand { lane } else { place };
        behind += workers * u64::from(request);
    }
    place
}

/// Rows of a leaf, those of its first quads. Contracts see them as a list, newest first.
#[derive(Drop)]
pub(crate) struct Quads<'a> {
    columns: &'a Columns,
    /// What each quad asks for.
    sums: [u32; 4],
    /// How many quads are left.
    left: u32,
}

impl<'a> Model for Quads<'a> {
    ghost use Rattle.std.specs.Prelude.{List};
    ghost use Rattle.market_types.specs.declared.row.Row.{Row};
    ghost use Rattle.wide_rows.specs.Passed.{rows_of_quads, AreQuads};

    ghost Value = { List Row };

    ghost view = { λ a. rows_of_quads a.columns.now a.left };

    ghost invariant = { λ a. AreQuads a.columns.now a.sums a.left };
}

/// Goes on to the next quad where the demand is reached, and gives what it asks for. None where there is none. The sums that it
/// passes over are counted as a node of so many keys.
#[inline(always)]
fn pass(
    columns: &Columns,
    sums: &[u32; 4],
    left: &mut u32,
    workers: u64,
    demand: u64,
    carry: &mut u64,
    visits: &mut u32,
) -> Option<u32>
    requires quads { AreQuads columns.now sums.now left.old }
    requires few { workers < 2 ^ 31 }
    requires small { demand < 2 ^ 32 }
    requires low { carry.old < 2 ^ 32 }
    requires room { visits.old < 2 ^ 31 }
    ensures due { IfSome result (λ _. IsDue workers demand (rows_of_quads columns.now left.old) (quad_rows columns.now left.new) (rows_of_quads columns.now left.new) carry.old carry.new) }
    ensures left { IfSome result (λ _. left.new < left.old) }
    ensures asked { IfSome result (λ sum. sum ≡ requests (quad_rows columns.now left.new)) }
    ensures none { IfNone result (IsPassed workers demand (rows_of_quads columns.now left.old) [] carry.old carry.new) }
    ensures empty { IfNone result (left.new ≡ 0) }
    ensures low { carry.new < 2 ^ 32 }
    ensures counted { IfSome result (λ _. visits.new ≡ visits.old + bits (left.old - 1 - left.new)) }
    ensures counted_all { IfNone result (visits.new ≡ visits.old + bits left.old) }
{
    let _ = &columns.count;
    let all = *left;
    while *left > 0 {
        *left -= 1;
        let sum = sums[*left as usize];
        let due = workers * u64::from(sum) + *carry;
        if due >= demand {
            pass_over((all - 1 - *left) as usize, visits);
            return Some(sum);
        }
        *carry = due;
    }
    pass_over(all as usize, visits);
    None
}

impl<'a> Quads<'a> {
    /// All rows of a leaf.
    #[inline(always)]
    pub(crate) fn new(columns: &'a Columns) -> Quads<'a>
        requires leaf { IsLeaf columns.now }
        ensures { result ≡ rows_in columns.now }
    {
        Quads {
            columns,
            sums: search::quad_sums(&columns.requests),
            left: (columns.count + 3) / 4,
        }
    }

    /// No rows of a leaf.
    #[inline(always)]
    pub(crate) fn none(columns: &'a Columns) -> Quads<'a>
        requires leaf { IsLeaf columns.now }
        ensures { result ≡ [] }
    {
        Quads {
            columns,
            sums: [0; 4],
            left: 0,
        }
    }

    /// The next quad where what the rows up to its end ask for, times the workers, on top of the carry reaches the demand. The
    /// carry goes on past all rows before it. None where no quad is left.
    #[inline(always)]
    pub(crate) fn next_due(
        &mut self,
        workers: u64,
        demand: u64,
        carry: &mut u64,
        visits: &mut u32,
    ) -> Option<Quad<'a>>
        requires few { workers < 2 ^ 31 }
        requires small { demand < 2 ^ 32 }
        requires low { carry.old < 2 ^ 32 }
        requires room { visits.old < 2 ^ 31 }
        ensures due { IfSome result (λ quad. IsDue workers demand self.old quad self.new carry.old carry.new) }
        ensures some { IfSome result (λ quad. 0 < length quad) }
        ensures four { IfSome result (λ quad. length quad ≤ 4) }
        ensures none { IfNone result (IsPassed workers demand self.old [] carry.old carry.new) }
        ensures empty { IfNone result (self.new ≡ []) }
        ensures low { carry.new < 2 ^ 32 }
        ensures counted { IfSome result (λ quad. AreQuadsPassed self.old quad self.new visits.old visits.new) }
        ensures counted_all { IfNone result (AllQuadsPassed self.old visits.old visits.new) }
    {
        let mut left = self.left;
        let found = pass(
            self.columns,
            &self.sums,
            &mut left,
            workers,
            demand,
            carry,
            visits,
        );
        self.left = left;
        let Some(asked) = found else {
            return None;
        };
        Some(Quad::new(self.columns, left, asked))
    }
}
