//! The living arenas: a table by number, and for each level a list of rows by stamp.
ghost use Rattle.std.specs.Prelude.{◌≡◌, ℕ, ◌-◌, slice_index, ◌+◌, ◌*◌, ◌^◌, ◌<◌, ◌≤◌, ◌∷◌, [], None, Some, Ok, Err, length, take, slice_get, nat_lt, if◌then◌else◌, option_map, IsSome, OnSome, IfNone, IfSome, IfOk, IfErr, OnOk, OnErr};
ghost use Rattle.std.specs.List.{All, find};
ghost use Rattle.market_types.specs.State.{Arena};
ghost use Rattle.market_types.specs.Claims.{is_mandated};
ghost use Rattle.market_types.specs.Allotment.{total_request, at_level, has_mandatory};
ghost use Rattle.market_types.specs.Step.{arena_at, with_claim, without};
ghost use Rattle.arena_store.specs.Arenas.{StandOnce, newer, level_rows, beside};
ghost use Rattle.arena_store.specs.Changed.{changed_at};
ghost use Rattle.market_types.specs.Bits.{bits};
ghost use Rattle.market_types.specs.Rows.{requests};
ghost use Rattle.wide_rows.specs.Ways.{least_way, least_node, least_put};

use crate::change::Change;
use crate::stored_arena::StoredArena;
use crate::table::Table;
use arena_record::ArenaRecord;
use market_types::{ArenaId, Fault, Level};
use std::alloc::{AllocError, Global};
use std::marker::Model;
use wide_rows::{Levels, Span};

/// The living arenas, at most 1,024. Contracts see them as a list, the greatest stamp first.
#[derive(Drop)]
pub struct Arenas {
    /// By number.
    table: Table,
    /// The rows of each level, level 1 first.
    lists: Levels,
    /// How many arenas have enqueued work.
    enqueued: u32,
}

impl Model for Arenas {
    ghost use Rattle.std.specs.Prelude.{List};
    ghost use Rattle.market_types.specs.State.{Arena};
    ghost use Rattle.arena_store.specs.Store.{by_stamp, IsStored};

    ghost Value = { List Arena };

    ghost view = { λ a. by_stamp a.table.arenas };

    ghost invariant = { λ a. IsStored a.table.arenas a.lists a.enqueued };
}

impl Arenas {
    /// The most arenas that live at a time.
    pub const MOST_ARENAS: usize = 1024;

    /// No arena lives.
    pub fn new(alloc: Global) -> Self
        ensures { result ≡ [] }
    {
        Arenas {
            table: Table::new(alloc),
            lists: Levels::new(alloc),
            enqueued: 0,
        }
    }

    /// Each living arena stands in the list once: behind all that are newer, at its index of its level. This does nothing:
    /// what it ensures holds wherever it is called.
    #[inline(always)]
    pub fn stand_once(&self)
        ensures { StandOnce self.now }
    {
        // The fact is the store's invariant, which a look at a field opens.
        let _ = &self.table;
    }

    /// How many arenas live.
    pub fn len(&self) -> usize
        ensures exact { result ≡ length self.now }
        ensures few { result ≤ 1024 }
    {
        self.table.len()
    }

    /// The arena of this number.
    pub fn get(&self, arena: ArenaId) -> Option<StoredArena>
        ensures exact { result ≡ arena_at arena self.now }
        ensures number { IfSome result (λ found. found.number ≡ arena) }
    {
        let place = self.table.place_of(arena)?;
        Some(self.table.at(place))
    }

    /// Some arena has enqueued work.
    pub fn has_mandatory(&self) -> bool
        ensures exact { result ≡ has_mandatory self.now }
    {
        self.enqueued > 0
    }

    /// What the arenas of a level ask for.
    pub fn demand(&self, level: Level) -> u64
        ensures exact { result ≡ total_request (at_level level self.now) }
        ensures small { result ≤ 1024 * 65535 }
    {
        self.lists.demand(level.index())
    }

    /// What the arenas of a level ask for that are newer than this stamp.
    pub fn before(&self, level: Level, stamp: u32, visits: &mut u32) -> u64
        requires few { visits.old < 2 ^ 30 }
        ensures exact { result ≡ total_request (at_level level (newer stamp self.now)) }
        ensures least { visits.old + least_way (length (at_level level self.now)) ≤ visits.new }
        ensures alone { length (at_level level self.now) ≤ 12 → visits.new ≡ visits.old + bits (length (at_level level self.now)) }
        ensures visits { visits.new ≤ visits.old + 2 * bits (length self.now) }
        ensures few { visits.new ≤ visits.old + 22 }
    {
        self.lists.before(level.index(), stamp, visits)
    }

    /// What each level asks for, level 1 first.
    pub fn demands(&self) -> [u64; 8]
        ensures exact { (level : ℕ) → 1 ≤ level → level ≤ 8
            → slice_index result (level - 1) ≡ total_request (at_level level self.now) }
        ensures small { (index : ℕ) → slice_index result index ≤ 1024 * 65535 }
        ensures size { length result ≡ 8 }
    {
        let mut demands = [0; 8];
        for index in 0..8 {
            demands[index] = self.demand(Level::from_index(index));
        }
        demands
    }

    /// The first arena of a level that has enqueued work and asks for workers.
    pub fn first_mandated(&self, level: Level, visits: &mut u32) -> Option<ArenaId>
        requires few { visits.old < 2 ^ 30 }
        ensures exact { result
            ≡ option_map (λ (a : Arena). a.number) (find (λ (a : Arena). is_mandated a.claim) (at_level level self.now)) }
        ensures entered { visits.old + least_node (length (at_level level self.now)) ≤ visits.new }
        ensures least { IfSome result (λ _. visits.old + least_way (length (at_level level self.now)) ≤ visits.new) }
        ensures alone { length (at_level level self.now) ≤ 12 → visits.new ≡ visits.old + bits (length (at_level level self.now)) }
        ensures visits { visits.new ≤ visits.old + 2 * bits (length self.now) }
        ensures few { visits.new ≤ visits.old + 22 }
    {
        let row = self.lists.first_mandated(level.index(), visits);
        match row {
            Some(row) => Some(row.arena),
            None => None,
        }
    }

    /// The arena at an index, from 0 on, of a level; `None` beyond its last.
    pub fn nth_of(&self, level: Level, index: usize) -> Option<StoredArena>
        ensures exact { result ≡ slice_get (at_level level self.now) index }
        ensures there { IfSome result (λ found. arena_at found.number self.now ≡ Some found) }
    {
        let mut visits = 0;
        let row = self.lists.walk(level.index(), index, &mut visits)?;
        self.get(row.arena)
    }

    /// What the list of a level keeps of its arenas, for a walk in order that may pass over some.
    pub fn whole(&self, level: Level) -> Span<'_>
        ensures rows { result.0 ≡ level_rows level self.now }
        ensures asked { requests result.0 ≡ total_request (at_level level self.now) }
        ensures height { result.1 ≤ 2 * bits (length self.now) }
        ensures short { length result.0 ≤ 1024 }
        ensures few { length self.now ≤ 1024 }
    {
        self.lists.whole(level.index())
    }

    /// A new arena, newer than all others.
    pub fn push(
        &mut self,
        alloc: Global,
        arena: StoredArena,
        visits: &mut u32,
    ) -> Result<(), AllocError>
        requires room { length self.old < 1024 }
        requires newest { All (λ (a : Arena). a.stamp < arena.stamp) self.old }
        requires last { All (λ (a : Arena). a.number < arena.number) self.old }
        requires few { visits.old < 2 ^ 30 }
        ensures pushed { OnOk result (self.new ≡ arena ∷ self.old) }
        ensures unchanged { OnErr result (self.new ≡ self.old) }
        ensures least { OnOk result (visits.old + least_put (length (at_level arena.level self.old)) ≤ visits.new) }
        ensures alone { length (at_level arena.level self.old) ≤ 12
            → OnOk result (visits.new ≡ visits.old + bits (length (at_level arena.level self.old) + 1)) }
        ensures visits { OnOk result (visits.new ≤ visits.old + 2 * bits (length self.old) + 1) }
    {
        self.table.reserve()?;
        self.lists
            .push(alloc, arena.level().index(), arena.row(), visits)?;
        self.table.push_reserved(arena);
        self.enqueued += counted(arena.claim());
        Ok(())
    }

    /// Changes an arena's claim, unless the change is refused or no living arena has this number. Gives the claim then.
    #[inline(always)]
    pub fn change(
        &mut self,
        arena: ArenaId,
        change: Change,
        visits: &mut u32,
    ) -> Result<ArenaRecord, Fault>
        requires few { visits.old < 2 ^ 30 }
        ensures claim { IfOk result (λ claim. changed_at (arena_at arena self.old) change ≡ Ok claim) }
        ensures next { IfOk result (λ claim. self.new ≡ with_claim arena claim self.old) }
        ensures fault { IfErr result (λ fault. changed_at (arena_at arena self.old) change ≡ Err fault) }
        ensures unchanged { OnErr result (self.new ≡ self.old) }
        ensures least { OnOk result (visits.old + least_node (beside arena self.old) ≤ visits.new) }
        ensures alone { beside arena self.old ≤ 12 → OnOk result (visits.new ≡ visits.old + bits (beside arena self.old)) }
        ensures visits { OnOk result (visits.new ≤ visits.old + 2 * bits (length self.old)) }
        ensures uncounted { OnErr result (visits.new ≡ visits.old) }
    {
        let Some(place) = self.table.place_to_change(arena) else {
            return Err(Fault::NoArena);
        };
        let old = self.table.at(place);
        let claim = change.made_to(old.claim())?;
        let new = old.with_claim(claim);
        let mut near = self.table.near(place);
        self.enqueued = self.enqueued - counted(old.claim()) + counted(claim);
        let row = new.row();
        let level = old.level().index();
        self.lists.update(
            level,
            old.row(),
            row.request,
            row.mandated,
            &mut near,
            visits,
        );
        self.table.set(place, new, near);
        Ok(claim)
    }

    /// The arena goes; `None` where no living arena has this number.
    pub fn remove(&mut self, arena: ArenaId, visits: &mut u32) -> Option<()>
        requires few { visits.old < 2 ^ 30 }
        ensures exact { self.new ≡ without arena self.old }
        ensures there { OnSome result (IsSome (arena_at arena self.old)) }
        ensures missing { IfNone result (arena_at arena self.old ≡ None) }
        ensures unchanged { IfNone result (self.new ≡ self.old) }
        ensures least { OnSome result (visits.old + least_way (beside arena self.old) ≤ visits.new) }
        ensures alone { beside arena self.old ≤ 12 → OnSome result (visits.new ≡ visits.old + bits (beside arena self.old)) }
        ensures visits { OnSome result (visits.new ≤ visits.old + 2 * bits (length self.old)) }
        ensures uncounted { IfNone result (visits.new ≡ visits.old) }
    {
        let index = self.table.index_of(arena)?;
        let old = self.table.remove(index);
        self.enqueued -= counted(old.claim());
        let _taken = self.lists.take(old.level().index(), old.stamp(), visits);
        Some(())
    }

    /// The arena goes first at this level, with a new stamp; `None` where no living arena has this number.
    pub fn promote(
        &mut self,
        arena: ArenaId,
        stamp: u32,
        level: Level,
        visits: &mut u32,
    ) -> Option<()>
        requires newest { All (λ (a : Arena). a.stamp < stamp) self.old }
        requires few { visits.old < 2 ^ 30 }
        ensures there { OnSome result (IsSome (arena_at arena self.old)) }
        ensures exact { (a : Arena) → arena_at arena self.old ≡ Some a
            → self.new ≡ record a { stamp = stamp; level = level } ∷ without a.number self.old }
        ensures missing { IfNone result (arena_at arena self.old ≡ None) }
        ensures unchanged { IfNone result (self.new ≡ self.old) }
        ensures least { OnSome result
            (visits.old + least_way (beside arena self.old) + least_put (length (at_level level (without arena self.old))) ≤ visits.new) }
        ensures alone { beside arena self.old ≤ 12 → length (at_level level (without arena self.old)) ≤ 12
            → OnSome result (visits.new ≡ visits.old + bits (beside arena self.old) + bits (length (at_level level (without arena self.old)) + 1)) }
        ensures visits { OnSome result (visits.new ≤ visits.old + 4 * bits (length self.old) + 1) }
        ensures uncounted { IfNone result (visits.new ≡ visits.old) }
    {
        let place = self.table.place_to_change(arena)?;
        let old = self.table.at(place);
        let from = old.level().index();
        self.lists
            .promote(from, old.stamp(), level.index(), stamp, visits);
        self.table
            .set(place, old.promoted(stamp, level), self.table.near(place));
        Some(())
    }
}

/// 1 where there is enqueued work.
fn counted(claim: ArenaRecord) -> u32
    ensures { result ≡ (if nat_lt 0 claim.mandatory then 1 else 0) }
{
    if claim.mandatory() > 0 { 1 } else { 0 }
}
