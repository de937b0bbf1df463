//! Where workers are too many or too few: a walk through a level's arenas, past those that cannot be listed.
ghost use Rattle.std.specs.Prelude.{◌≡◌, ◌+◌, ◌^◌, ◌<◌, ◌≤◌, [], ◌∷◌, ◌++◌, length, IsOk, IfOk, IfSome, IfNone, OnOk, OnErr};
ghost use Rattle.market_types.specs.Rows.{requests};
ghost use Rattle.recall_hire.specs.Staffed.{actives, counts_in, imbalances, looks};
ghost use Rattle.recall_hire.specs.Shared.{CanShareAll, IsLow, row_share, row_carry, staffed, IsListed, IsOver, IsWalk};

use crate::roster::Roster;
use crate::rows::{Staffing, hire, recall};
use crate::sharing::{Sharing, whole};
use market_types::{Correction, Imbalance, Lists, Row};
use std::alloc::AllocError;
use std::cmp::Ordering;
use wide_rows::{Quad, Span, Walk};

/// How many arenas lists have room for as soon as one is listed.
const FIRST_ROOM: usize = 16;

/// Puts a level's arenas, newest first, at the end of lists, each with how many workers it has too many or too few; and
/// adds the visits that it makes: one at least for each arena that it lists, for each up to the last that has some of the seats,
/// and for each behind it that is allotted a worker; and no more than one for each that it looks at or passes over. Wants memory
/// only for what it lists.
///
/// `unmet` counts seats that may be placed at these arenas, at least those that are. They are taken off it; once none is
/// left, arenas are passed over where none of them is allotted a worker.
pub fn list(
    roster: &Roster,
    rows: &Span,
    sharing: Sharing,
    unmet: &mut u32,
    lists: &mut Lists,
    visits: &mut u32,
) -> Result<(), AllocError>
    requires shared { CanShareAll sharing 0 (requests rows.now.0) }
    requires few { length rows.now.0 ≤ 1024 }
    requires room { visits.old + length rows.now.0 < 2 ^ 30 }
    requires unmet { actives (staffed sharing roster.now 0 rows.now.0) ≤ unmet.old }
    ensures listed { OnOk result (IsListed (staffed sharing roster.now 0 rows.now.0) lists.old lists.new) }
    ensures met { OnOk result (unmet.old ≡ unmet.new + actives (staffed sharing roster.now 0 rows.now.0)) }
    ensures looked { OnOk result (visits.old + imbalances (staffed sharing roster.now 0 rows.now.0) ≤ visits.new) }
    ensures met_first { OnOk result (visits.old + looks unmet.old (staffed sharing roster.now 0 rows.now.0) ≤ visits.new) }
    ensures once { OnOk result (visits.new ≤ visits.old + length rows.now.0) }
    ensures succeeds { counts_in (staffed sharing roster.now 0 rows.now.0) ≡ record { recalls = []; hires = [] } → IsOk result }
{
    let listing = Listing { roster, sharing };
    // A market with one arena needs no walk.
    if let Some(row) = rows.only() {
        listing.add(row, 0, unmet, lists)?;
        *visits += 1;
        return Ok(());
    }
    let Some(walk) = rows.walk() else {
        return Ok(());
    };
    let mut rest = walk;
    let mut carry = 0;
    while let Some(quad) = listing.next(&mut rest, &mut carry, *unmet, visits) {
        carry = listing.list(quad, carry, unmet, visits, lists)?;
    }
    Ok(())
}

/// Who has workers, and how those of the level are shared out.
#[derive(Clone, Copy)]
struct Listing<'a> {
    roster: &'a Roster,
    sharing: Sharing,
}

impl Listing<'_> {
    /// The next arenas, at most four, of which one may be listed. The carry goes on past those before them, where nobody is
    /// allotted a worker or has one. All are next while seats are left to be met; then those where a worker is due.
    #[inline(always)]
    fn next<'b>(
        &self,
        rest: &mut Walk<'b>,
        carry: &mut u64,
        unmet: u32,
        visits: &mut u32,
    ) -> Option<Quad<'b>>
        requires shared { CanShareAll self.now.sharing carry.old (requests rest.old) }
        requires low { IsLow self.now.sharing carry.old }
        requires unmet { actives (staffed self.now.sharing self.now.roster.now carry.old rest.old) ≤ unmet }
        requires room { visits.old < 2 ^ 30 }
        ensures passed { IfSome result (λ quad. IsOver self.now.sharing self.now.roster.now rest.old (quad ++ rest.new) carry.old carry.new unmet) }
        ensures some { IfSome result (λ quad. 0 < length quad) }
        ensures none { IfNone result (IsOver self.now.sharing self.now.roster.now rest.old [] carry.old carry.new unmet) }
        ensures counted { visits.old ≤ visits.new }
        ensures once { IfSome result (λ quad. visits.new + length quad + length rest.new ≤ visits.old + length rest.old) }
        ensures most { IfNone result (visits.new ≤ visits.old + length rest.old) }
    {
        if unmet > 0 {
            return rest.next();
        }
        match self.sharing {
            // A level that asks for nobody has a demand of 0, and all of it is passed over.
            Sharing::Carried { workers, demand } => {
                rest.next_due(workers, demand.max(1), carry, visits)
            }
            Sharing::Picked { arena, .. } => match arena {
                None => None,
                Some(_) => rest.next(),
            },
        }
    }

    /// Puts a few arenas at the end of lists, and gives the carry past all of them. Their seats are met.
    #[inline(always)]
    fn list(
        &self,
        rows: Quad<'_>,
        carry: u64,
        unmet: &mut u32,
        visits: &mut u32,
        lists: &mut Lists,
    ) -> Result<u64, AllocError>
        requires shared { CanShareAll self.now.sharing carry (requests rows) }
        requires low { IsLow self.now.sharing carry }
        requires few { visits.old + length rows < 2 ^ 31 }
        requires unmet { actives (staffed self.now.sharing self.now.roster.now carry rows) ≤ unmet.old }
        ensures walked { IfOk result (λ after. IsWalk self.now.sharing self.now.roster.now rows.entry carry after unmet.old unmet.new visits.old visits.new lists.old lists.new) }
        ensures succeeds { counts_in (staffed self.now.sharing self.now.roster.now carry rows.entry) ≡ record { recalls = []; hires = [] } → IsOk result }
    {
        let mut rest = rows;
        let mut carry = carry;
        while let Some(row) = rest.next(visits) {
            carry = self.add(row, carry, unmet, lists)?;
        }
        Ok(carry)
    }

    /// Puts an arena at the end of the list that it belongs to, if any, and gives the carry past it. Its seats are met.
    #[inline(always)]
    fn add(
        &self,
        row: Row,
        carry: u64,
        unmet: &mut u32,
        lists: &mut Lists,
    ) -> Result<u64, AllocError>
        requires shared { CanShareAll self.now.sharing carry row.request }
        requires unmet { actives (staffed self.now.sharing self.now.roster.now carry (row ∷ [])) ≤ unmet.old }
        ensures listed { OnOk result (IsListed (staffed self.now.sharing self.now.roster.now carry (row ∷ [])) lists.old lists.new) }
        ensures carry { IfOk result (λ after. after ≡ row_carry self.now.sharing carry row) }
        ensures met { OnOk result (unmet.old ≡ unmet.new + actives (staffed self.now.sharing self.now.roster.now carry (row ∷ []))) }
        ensures succeeds { counts_in (staffed self.now.sharing self.now.roster.now carry (row ∷ [])) ≡ record { recalls = []; hires = [] } → IsOk result }
    {
        let arena = row.arena;
        let active = self.roster.active(arena);
        *unmet -= active;
        let (allotted, after) = self.allotment(row, active, carry);
        let staffing = Staffing {
            arena,
            allotted,
            active,
        };
        put(lists, staffing)?;
        Ok(after)
    }

    /// How many workers an arena is allotted, and the carry past it. It divides only in a level that gets fewer than it asks
    /// for.
    #[inline(always)]
    fn allotment(&self, row: Row, active: u32, carry: u64) -> (u32, u64)
        requires shared { CanShareAll self.now.sharing carry row.request }
        ensures share { result.0 ≡ row_share self.now.sharing carry row }
        ensures carry { result.1 ≡ row_carry self.now.sharing carry row }
    {
        match self.sharing {
            Sharing::Carried { workers, demand } => {
                if workers == demand {
                    return (row.request, carry);
                }
                if row.request == 0 {
                    return (0, carry);
                }
                let due = u64::from(row.request) * workers + carry;
                whole(due, demand, active)
            }
            Sharing::Picked { arena, workers } => match arena {
                Some(picked) if picked == row.arena => (workers, carry),
                _ => (0, carry),
            },
        }
    }
}

/// Puts an arena at the end of the list that it belongs to, if any. Wants memory only where there is one.
#[inline(always)]
fn put(lists: &mut Lists, row: Staffing) -> Result<(), AllocError>
    ensures listed { OnOk result (IsListed (row ∷ []) lists.old lists.new) }
    ensures unchanged { OnErr result (lists.new ≡ lists.old) }
    ensures succeeds { counts_in (row ∷ []) ≡ record { recalls = []; hires = [] } → IsOk result }
{
    let (correction, count) = match row.active.cmp(&row.allotted) {
        Ordering::Less => (Correction::Hire, hire(row.active, row.allotted)),
        Ordering::Equal => return Ok(()),
        Ordering::Greater => (Correction::Recall, recall(row.active, row.allotted)),
    };
    make_room(lists)?;
    lists.push(Imbalance {
        arena: row.arena,
        correction,
        count,
    })
}

/// Takes room for some arenas at once where none is listed, since a growth for each of the first few takes longer than all
/// else that is done for them.
#[inline(always)]
fn make_room(lists: &mut Lists) -> Result<(), AllocError>
    ensures same { lists.new ≡ lists.old }
{
    if lists.arenas.is_empty() {
        lists.arenas.reserve(FIRST_ROOM)?;
    }
    Ok(())
}
