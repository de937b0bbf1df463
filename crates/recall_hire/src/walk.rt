//! A walk through a level's arenas in order, with the carry going along. It passes over those that ask for too little for any of
//! them to be allotted a worker, and looks at the others four by four.
ghost use Rattle.std.specs.Prelude.{◌≡◌, ℕ, None, ◌+◌, ◌*◌, ◌^◌, ◌<◌, ◌≤◌, [], ◌∷◌, length};
ghost use Rattle.std.specs.Bool.{OnTrue, OnFalse};
ghost use Rattle.std.specs.List.{count_by};
ghost use Rattle.market_types.specs.Allotment.{is_just};
ghost use Rattle.market_types.specs.Rows.{requests};
ghost use Rattle.wide_rows.specs.Passed.{with_height};
ghost use Rattle.recall_hire.specs.declared.sharing.Sharing.TheVariants.{Carried};
ghost use Rattle.recall_hire.specs.Staffed.{first_in_need, searches};
ghost use Rattle.recall_hire.specs.Shared.{CanShare, IsLook, IsSearch, staffed, row_share, row_carry};

use crate::roster::Roster;
use crate::served::first_short;
use market_types::{ArenaId, Row};
use wide_rows::{Quad, Span, Walk};

/// The first arena of a level, newest first, that is allotted more workers than it has, where the level is assigned
/// `workers` of its `demand`. It adds the visits that it makes: one at least for each arena that is allotted a worker, up to and
/// with the one that was found, and no more than a way down for each of these. None is looked at twice, and those that are passed
/// over count no more than one each.
pub fn first_in_need(
    roster: &Roster,
    rows: &Span,
    workers: u64,
    demand: u64,
    visits: &mut u32,
) -> Option<ArenaId>
    requires within { workers ≤ demand }
    requires small { demand ≤ 1024 * 65535 }
    requires part { requests rows.now.0 ≤ demand }
    requires few { length rows.now.0 ≤ 1024 }
    requires room { visits.old + length rows.now.0 < 2 ^ 30 }
    ensures exact { result ≡ first_in_need (staffed (Carried workers demand) roster.now 0 rows.now.0) }
    ensures looked { visits.old + searches (staffed (Carried workers demand) roster.now 0 rows.now.0) ≤ visits.new }
    ensures once { visits.new ≤ visits.old + length rows.now.0 }
    ensures most { visits.new ≤ visits.old + rows.now.1 * searches (staffed (Carried workers demand) roster.now 0 rows.now.0) }
{
    if workers == 0 {
        return None;
    }
    let search = Search {
        roster,
        workers,
        demand,
    };
    // A market with one arena needs no walk.
    if let Some(row) = rows.only() {
        return search.only_needing(row, visits);
    }
    let Some(walk) = rows.walk() else {
        return None;
    };
    let asked = rows.requests();
    if workers == demand {
        return first_short(roster, walk, asked, visits);
    }
    search.first_needing(walk, workers * asked, visits)
}

/// Where some worker may be active: who has workers, how many the level is assigned, and what it asks for.
#[derive(Clone, Copy)]
struct Search<'a> {
    roster: &'a Roster,
    workers: u64,
    demand: u64,
}

impl Search<'_> {
    /// The only arena of a level, where it is allotted more workers than it has. Looks at it only where it is allotted one.
    #[inline(always)]
    fn only_needing(&self, row: Row, visits: &mut u32) -> Option<ArenaId>
        requires shared { CanShare self.now.workers self.now.demand 0 }
        requires part { row.request ≤ self.now.demand }
        requires few { visits.old < 2 ^ 30 }
        ensures { IsSearch self.now.workers self.now.demand self.now.roster.now (with_height (row ∷ [])) 0 visits.old visits.new result }
    {
        if self.workers * u64::from(row.request) < self.demand {
            return None;
        }
        *visits += 1;
        let arena = row.arena;
        let mut carry = 0;
        if self.lacks(row, &mut carry) {
            return Some(arena);
        }
        None
    }

    /// The first arena of a level that is allotted more workers than it has. Looks at four only where one of them is allotted a
    /// worker, and ends as soon as none of those left is: `due` says what is due to all of them, as many parts of a worker as the
    /// demand has.
    #[inline(always)]
    fn first_needing(&self, rows: Walk<'_>, due: u64, visits: &mut u32) -> Option<ArenaId>
        requires shared { CanShare self.now.workers self.now.demand 0 }
        requires part { requests rows ≤ self.now.demand }
        requires due { due ≡ self.now.workers * requests rows }
        requires few { visits.old + length rows < 2 ^ 30 }
        ensures { IsSearch self.now.workers self.now.demand self.now.roster.now (with_height rows.entry) 0 visits.old visits.new result }
    {
        let mut rest = rows;
        let mut left = due;
        let mut carry = 0;
        while left >= self.demand {
            let quad = rest.next_surely_due(self.workers, self.demand, &mut carry, visits);
            let here = carry + self.workers * quad.requests();
            if let Some(arena) = self.first_among(quad, &mut carry, visits) {
                return Some(arena);
            }
            left -= here - carry;
        }
        None
    }

    /// The first of a few arenas that is allotted more workers than it has, where they are allotted one at least. Where there is none,
    /// the carry has gone past all of them.
    #[inline(always)]
    fn first_among(&self, rows: Quad<'_>, carry: &mut u64, visits: &mut u32) -> Option<ArenaId>
        requires shared { CanShare self.now.workers self.now.demand carry.old }
        requires part { requests rows ≤ self.now.demand }
        requires due { self.now.demand ≤ carry.old + self.now.workers * requests rows }
        requires few { visits.old + length rows < 2 ^ 31 }
        ensures { IsLook self.now.workers self.now.demand self.now.roster.now rows.entry carry.old carry.new visits.old visits.new result }
    {
        let past_one = *carry + self.workers * rows.requests() - self.demand;
        if past_one < self.demand {
            return self.only_due_among(rows, past_one, carry, visits);
        }
        self.first_by_rows(rows, carry, visits)
    }

    /// The first of a few arenas that is allotted more workers than it has, where they are allotted one worker together, and `past`
    /// is the carry past all of them: it is the one at which that worker is due, or there is none.
    #[inline(always)]
    fn only_due_among(
        &self,
        rows: Quad<'_>,
        past: u64,
        carry: &mut u64,
        visits: &mut u32,
    ) -> Option<ArenaId>
        requires shared { CanShare self.now.workers self.now.demand carry.old }
        requires part { requests rows ≤ self.now.demand }
        requires one { past + self.now.demand ≡ carry.old + self.now.workers * requests rows }
        requires low { past < self.now.demand }
        requires few { visits.old + length rows < 2 ^ 31 }
        ensures { IsLook self.now.workers self.now.demand self.now.roster.now rows.entry carry.old carry.new visits.old visits.new result }
    {
        let arena = rows.reaching(self.workers, self.demand, *carry, visits);
        if self.roster.active(arena) == 0 {
            return Some(arena);
        }
        *carry = past;
        None
    }

    /// The first of a few arenas that is allotted more workers than it has, by a look at each. Where there is none, the carry has gone
    /// past all of them.
    #[inline(always)]
    fn first_by_rows(&self, rows: Quad<'_>, carry: &mut u64, visits: &mut u32) -> Option<ArenaId>
        requires shared { CanShare self.now.workers self.now.demand carry.old }
        requires part { requests rows ≤ self.now.demand }
        requires few { visits.old + length rows < 2 ^ 31 }
        ensures { IsLook self.now.workers self.now.demand self.now.roster.now rows.entry carry.old carry.new visits.old visits.new result }
    {
        let mut rest = rows;
        while let Some(row) = rest.next(visits) {
            let arena = row.arena;
            if self.lacks(row, carry) {
                return Some(arena);
            }
        }
        None
    }

    /// Whether an arena is allotted more workers than it has. Where it is not, the carry goes on past it. It divides only
    /// where the arena has workers too many.
    #[inline(always)]
    fn lacks(&self, row: Row, carry: &mut u64) -> bool
        requires shared { CanShare self.now.workers self.now.demand carry.old }
        requires part { row.request ≤ self.now.demand }
        ensures yes { OnTrue result (count_by (is_just row.arena) self.now.roster.now < row_share (Carried self.now.workers self.now.demand) carry.old row) }
        ensures no { OnFalse result (row_share (Carried self.now.workers self.now.demand) carry.old row ≤ count_by (is_just row.arena) self.now.roster.now) }
        ensures carry { OnFalse result (carry.new ≡ row_carry (Carried self.now.workers self.now.demand) carry.old row) }
        ensures low { OnFalse result (carry.new < self.now.demand) }
    {
        let due = u64::from(row.request) * self.workers + *carry;
        if due < self.demand {
            *carry = due;
            return false;
        }
        let kept = u64::from(self.roster.active(row.arena)) * self.demand;
        if due < kept {
            *carry = due % self.demand;
            return false;
        }
        let rest = due - kept;
        if rest < self.demand {
            *carry = rest;
            return false;
        }
        true
    }
}
