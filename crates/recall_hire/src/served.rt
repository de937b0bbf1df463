//! A walk through the arenas of a level that gets all that it asks for: each is allotted what it asks for, and nothing is
//! carried.
ghost use Rattle.std.specs.Prelude.{◌≡◌, ℕ, ◌+◌, ◌^◌, ◌<◌, ◌≤◌, length};
ghost use Rattle.std.specs.Bool.{OnTrue, OnFalse};
ghost use Rattle.std.specs.List.{count_by};
ghost use Rattle.market_types.specs.Allotment.{is_just};
ghost use Rattle.market_types.specs.Rows.{requests};
ghost use Rattle.wide_rows.specs.Passed.{with_height};
ghost use Rattle.recall_hire.specs.Shared.{IsLook, IsSearch};

use crate::roster::Roster;
use market_types::{ArenaId, Row};
use wide_rows::{Quad, Walk};

/// The first arena of a level that asks for more workers than it has. Looks at four only where one of them asks for a worker, and
/// ends as soon as none of those left does: `asked` says how many workers all of them ask for.
#[inline(always)]
pub(crate) fn first_short(
    roster: &Roster,
    rows: Walk<'_>,
    asked: u64,
    visits: &mut u32,
) -> Option<ArenaId>
    requires asked { asked ≡ requests rows }
    requires few { visits.old + length rows < 2 ^ 30 }
    ensures { (demand : ℕ) → 0 < demand → IsSearch demand demand roster.now (with_height rows.entry) 0 visits.old visits.new result }
{
    let mut rest = rows;
    let mut left = asked;
    let mut carry = 0;
    // One of one: a quad is due where it asks for anything at all, and nothing is carried past those that are not.
    while left > 0 {
        let quad = rest.next_surely_due(1, 1, &mut carry, visits);
        left -= quad.requests();
        if let Some(arena) = short_among(roster, quad, visits) {
            return Some(arena);
        }
    }
    None
}

/// The first of a few arenas that asks for more workers than it has.
#[inline(always)]
fn short_among(roster: &Roster, rows: Quad<'_>, visits: &mut u32) -> Option<ArenaId>
    requires few { visits.old + length rows < 2 ^ 31 }
    ensures { (demand : ℕ) → 0 < demand → IsLook demand demand roster.now rows.entry 0 0 visits.old visits.new result }
{
    let mut rest = rows;
    while let Some(row) = rest.next(visits) {
        let arena = row.arena;
        if is_short(roster, row) {
            return Some(arena);
        }
    }
    None
}

/// Whether an arena asks for more workers than it has. One that asks for none is not looked up.
#[inline(always)]
fn is_short(roster: &Roster, row: Row) -> bool
    ensures yes { OnTrue result (count_by (is_just row.arena) roster.now < row.request) }
    ensures no { OnFalse result (row.request ≤ count_by (is_just row.arena) roster.now) }
{
    row.request > 0 && roster.active(row.arena) < row.request
}
