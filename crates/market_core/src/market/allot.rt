//! What the market allots.
ghost use Rattle.std.specs.Prelude.{◌≡◌, ℕ, ◌+◌, ◌-◌, ◌*◌, ◌≤◌, ◌<◌, Some, None, IfSome, OnSome, length, slice_get, option_map, slice_index, ◌==◌};
ghost use Rattle.market_types.specs.Allotment.{allotment_of, active, assigned, at_level, demand, is_top, limit_of};
ghost use Rattle.market_types.specs.Step.{arena_at, view_of};
ghost use Rattle.allotment.specs.Levels.{AreDemandsOf, ArePicksOf, IsLeveled, pick_of};
ghost use Rattle.arena_store.specs.Bits.{bits};
ghost use Rattle.market_core.specs.Divided.{IsDivisionOf, IsSharedAt, asked_before, left_after};
ghost use Rattle.market_core.specs.Visits.{HasSmallLevels, extra_visits, least_extra, least_picked, least_seen, least_share};
ghost use Rattle.market_types.specs.State.{Arena, State};
ghost use Rattle.market_types.specs.Claims.{request_of};
ghost use Rattle.market_core.specs.Allotted.{IsWithin, level_allotment};
ghost use Rattle.market_core.specs.Ahead.{asked_ahead};

use super::Market;
use crate::by_level::ByLevel;
use crate::division::{Division, LevelShare, Portion, sum_of};
use allotment::{assign, bound_is_given_out, mandatory_pick, no_carry_to_keep, share};
use arena_store::StoredArena;
use market_types::{ArenaId, ArenaView, Level};
use recall_hire::{hire, recall};

impl Market {
    /// What each level asks for, and 0 above the levels of the market.
    fn demands(&self) -> [u64; 8]
        ensures exact { AreDemandsOf self.now result }
        ensures size { length result ≡ 8 }
        ensures small { (index : ℕ) → slice_index result index ≤ 1024 * 65535 }
        ensures leveled { IsLeveled self.now }
    {
        self.arenas.demands()
    }

    /// The first arena of each level that has enqueued work and asks for workers.
    fn first_mandated_by_level(&self, visits: &mut u32) -> [Option<ArenaId>; 8]
        requires uncounted { visits.old ≡ 0 }
        ensures exact { ArePicksOf self.now result }
        ensures least { least_picked self.now.arenas self.now.levels ≤ visits.new }
        ensures alone { HasSmallLevels self.now → visits.new ≡ least_picked self.now.arenas self.now.levels }
        ensures visits { visits.new ≤ self.now.levels * (2 * bits (length self.now.arenas)) }
        ensures few { visits.new ≤ 176 }
    {
        let mut picks = [None; 8];
        for index in 0..self.opening.levels {
            let pick = self
                .arenas
                .first_mandated(Level::from_index(index as usize), visits);
            picks[index as usize] = pick;
        }
        picks
    }

    /// The arena whose enqueued work is served where no worker may be active.
    // Apart, since each command that divides workers would else make room for the picks at its start, and few need them.
    #[cold]
    #[inline(never)]
    fn mandatory_arena(&self, visits: &mut u32) -> Option<ArenaId>
        requires uncounted { visits.old ≡ 0 }
        ensures exact { result ≡ pick_of self.now }
        ensures least { least_picked self.now.arenas self.now.levels ≤ visits.new }
        ensures alone { HasSmallLevels self.now → visits.new ≡ least_picked self.now.arenas self.now.levels }
        ensures visits { visits.new ≤ self.now.levels * (2 * bits (length self.now.arenas)) }
        ensures few { visits.new ≤ 176 }
    {
        mandatory_pick(&self.first_mandated_by_level(visits))
    }

    /// How workers are divided now.
    // Else each caller copies the division once more, which takes longer than to make it.
    #[inline(always)]
    pub(super) fn divide(&self, visits: &mut u32) -> Division
        requires uncounted { visits.old ≡ 0 }
        ensures exact { IsDivisionOf self.now result }
        ensures least { least_extra self.now ≤ visits.new }
        ensures alone { HasSmallLevels self.now → visits.new ≡ least_extra self.now }
        ensures visits { visits.new ≤ extra_visits self.now }
        ensures few { visits.new ≤ 176 }
    {
        bound_is_given_out();
        self.arenas.stand_once();
        let limits = self.limits();
        let demands = self.demands();
        let bound = sum_of(&demands).min(u64::from(limits.effective)) as u32;
        let picked = if limits.limit == 0 {
            self.mandatory_arena(visits)
        } else {
            None
        };
        Division {
            limit: limits.limit,
            bound,
            demands: ByLevel { values: demands },
            assigned: ByLevel {
                values: assign(&demands, u64::from(bound)),
            },
            picked,
        }
    }

    /// Each living arena is at a level of the market. This does nothing: what it ensures holds wherever it is called.
    #[inline(always)]
    fn arenas_are_leveled(&self)
        ensures { (a : Arena) → arena_at a.number self.now.arenas ≡ Some a → (1 ≤ a.level) × (a.level ≤ self.now.levels) }
    {
        // The fact is the market's invariant, which a look at a field opens.
        let _ = &self.arenas;
    }

    /// What the levels before one ask for together.
    // All levels are gone through and none branched on: which level an arena is at is guessed wrongly as often as not.
    #[inline(always)]
    fn asked_before(&self, level: Level) -> u64
        requires high { level ≤ self.now.levels }
        ensures { result ≡ asked_before self.now (level - 1) }
    {
        let mut asked = 0;
        for place in 0..self.opening.levels as usize {
            let demand = self.demand(Level::from_index(place));
            asked += if place < level.index() { demand } else { 0 };
        }
        asked
    }

    /// What a level is assigned of what it asks for, where some worker may be active and so many are left for it. No level behind it is
    /// looked at, as a division looks at all.
    #[inline(always)]
    pub(super) fn part_of(&self, level: Level, left: u64) -> LevelShare
        requires some { 0 < limit_of self.now }
        requires high { level ≤ self.now.levels }
        requires left { left ≡ left_after self.now (level - 1) }
        ensures { IsSharedAt level self.now result }
    {
        bound_is_given_out();
        self.arenas.stand_once();
        let demand = self.demand(level);
        LevelShare {
            assigned: demand.min(left),
            demand,
        }
    }

    /// How many workers a living arena is allotted whose level is assigned this.
    #[inline(always)]
    fn carried_to(&self, stored: StoredArena, part: LevelShare, visits: &mut u32) -> u32
        requires there { arena_at stored.number self.now.arenas ≡ Some stored }
        requires shared { IsSharedAt stored.level self.now part }
        requires room { visits.old ≤ 176 }
        ensures exact { result ≡ allotment_of self.now stored.number }
        ensures least { visits.old + least_share self.now stored ≤ visits.new }
        ensures alone { HasSmallLevels self.now → visits.new ≡ visits.old + least_share self.now stored }
        ensures visits { visits.new ≤ visits.old + 2 * bits (length self.now.arenas) }
    {
        no_carry_to_keep();
        let request = u64::from(stored.claim().request());
        if request == 0 {
            return 0;
        }
        let level = stored.level();
        let before = self.arenas.before(level, stored.stamp(), visits);
        let workers = share(part.assigned, part.demand, before, request);
        workers as u32
    }

    /// What `carried_to` tells of a living arena whose level is assigned this, and what comes before it there.
    // Where the arena asks for nobody, it goes down the level too: what comes before it is told all the same.
    #[inline(always)]
    fn portion_of(&self, stored: StoredArena, part: LevelShare) -> Portion
        requires there { arena_at stored.number self.now.arenas ≡ Some stored }
        requires shared { IsSharedAt stored.level self.now part }
        ensures workers { result.workers ≡ allotment_of self.now stored.number }
        ensures before { result.before ≡ asked_ahead stored.number (at_level stored.level self.now.arenas) }
    {
        no_carry_to_keep();
        let request = u64::from(stored.claim().request());
        let level = stored.level();
        let mut visits = 0;
        let asked_before = self.arenas.before(level, stored.stamp(), &mut visits);
        let before = asked_before as u32;
        if request == 0 {
            return Portion { workers: 0, before };
        }
        let workers = share(part.assigned, part.demand, asked_before, request);
        Portion {
            workers: workers as u32,
            before,
        }
    }

    /// How many workers an arena is allotted where no worker may be active.
    // Apart, as what finds the arena whose enqueued work is served.
    #[cold]
    #[inline(never)]
    fn served_to(&self, arena: ArenaId, visits: &mut u32) -> u32
        requires none { limit_of self.now ≡ 0 }
        requires uncounted { visits.old ≡ 0 }
        ensures exact { result ≡ allotment_of self.now arena }
        ensures least { least_extra self.now ≤ visits.new }
        ensures alone { HasSmallLevels self.now → visits.new ≡ least_extra self.now }
        ensures visits { visits.new ≤ extra_visits self.now }
    {
        self.divide(visits).mandatory_workers(arena)
    }

    /// How many workers a living arena is allotted, where the levels before its own ask for so many.
    fn allotment_of(&self, stored: StoredArena, asked: u64, visits: &mut u32) -> u32
        requires there { arena_at stored.number self.now.arenas ≡ Some stored }
        requires asked { asked ≡ asked_before self.now (stored.level - 1) }
        requires uncounted { visits.old ≡ 0 }
        ensures exact { result ≡ allotment_of self.now stored.number }
        ensures least { least_seen self.now (Some stored) ≤ visits.new }
        ensures alone { HasSmallLevels self.now → visits.new ≡ least_seen self.now (Some stored) }
        ensures visits { visits.new ≤ 2 * bits (length self.now.arenas) + extra_visits self.now }
    {
        let limit = self.limit();
        if limit == 0 {
            return self.served_to(stored.arena(), visits);
        }
        self.arenas_are_leveled();
        let left = u64::from(limit).saturating_sub(asked);
        let part = self.part_of(stored.level(), left);
        self.carried_to(stored, part, visits)
    }

    /// A living arena is top priority, where the levels before its own ask for so many.
    #[inline(always)]
    fn is_top(&self, stored: StoredArena, asked: u64) -> bool
        requires there { arena_at stored.number self.now.arenas ≡ Some stored }
        requires asked { asked ≡ asked_before self.now (stored.level - 1) }
        ensures { result ≡ is_top self.now stored }
    {
        self.arenas_are_leveled();
        self.arenas.stand_once();
        asked == 0 && stored.claim().request() > 0
    }

    /// What is seen of a living arena.
    pub(super) fn view_of(&self, stored: StoredArena, visits: &mut u32) -> ArenaView
        requires there { arena_at stored.number self.now.arenas ≡ Some stored }
        requires uncounted { visits.old ≡ 0 }
        ensures exact { result ≡ view_of self.now stored }
        ensures small { result.request ≤ 65535 }
        ensures least { least_seen self.now (Some stored) ≤ visits.new }
        ensures alone { HasSmallLevels self.now → visits.new ≡ least_seen self.now (Some stored) }
        ensures visits { visits.new ≤ 2 * bits (length self.now.arenas) + extra_visits self.now }
    {
        self.arenas_are_leveled();
        let asked = self.asked_before(stored.level());
        let allot = self.allotment_of(stored, asked, visits);
        let active = self.roster.active(stored.arena());
        ArenaView {
            arena: stored.arena(),
            request: stored.claim().request(),
            allot,
            top: self.is_top(stored, asked),
            active,
            recall: recall(active, allot),
            hire: hire(active, allot),
        }
    }

    /// What is seen of an arena, or `None` where no living arena has this number. An arena is allotted no more than it
    /// asks for, asks for no more than it can use, and can use no more than its slots. It takes no memory.
    pub fn view(&self, arena: ArenaId) -> Option<ArenaView>
        ensures exact { result ≡ option_map (view_of self.now) (arena_at arena self.now.arenas) }
        ensures within { IfSome (arena_at arena self.now.arenas) (IsWithin self.now) }
    {
        self.arenas_are_within();
        let stored = self.arenas.get(arena)?;
        let mut visits = 0;
        Some(self.view_of(stored, &mut visits))
    }

    /// What is seen of the arena at an index, from 0 on, of a level; `None` beyond its last, which is below 1,024, and where
    /// the market has no such level. An arena asks for at most 65,535 workers. It takes no memory.
    pub fn row(&self, level: Level, index: usize) -> Option<ArenaView>
        ensures exact { result ≡ option_map (view_of self.now) (slice_get (at_level level self.now.arenas) index) }
        ensures within { IfSome (slice_get (at_level level self.now.arenas) index) (IsWithin self.now) }
        ensures small { IfSome result (λ view. view.request ≤ 65535) }
        ensures few { OnSome result (index < 1024) }
    {
        self.arenas_are_within();
        // That there are at most 1,024 arenas is what this call promises.
        let _ = self.arenas.len();
        let stored = self.arenas.nth_of(level, index)?;
        let mut visits = 0;
        Some(self.view_of(stored, &mut visits))
    }

    /// What the arenas of a level ask for together, 0 to 67,107,840; 0 where the market has no such level. It takes no
    /// memory.
    pub fn demand(&self, level: Level) -> u64
        ensures exact { result ≡ demand self.now level }
        ensures small { result ≤ 1024 * 65535 }
    {
        self.arenas.demand(level)
    }

    /// How many workers the arenas of a level are allotted together; 0 where the market has no such level. Where some
    /// worker may be active, it is what the level is assigned. It takes no memory.
    pub fn assigned(&self, level: Level) -> u64
        ensures exact { result ≡ level_allotment self.now level }
        ensures assigned { 0 < limit_of self.now → result ≡ assigned self.now level }
    {
        bound_is_given_out();
        no_carry_to_keep();
        let mut visits = 0;
        let division = &self.divide(&mut visits);
        if division.limit > 0 {
            return division.assigned.at(level);
        }
        let Some(picked) = division.picked else {
            return 0;
        };
        match self.arenas.get(picked) {
            Some(stored) if stored.level() == level => u64::from(division.bound),
            _ => 0,
        }
    }

    /// How the workers are divided now, for `allotment_by`: where no worker may be active, all allotments of a moment can be asked with one
    /// division. It takes no memory.
    pub fn division(&self) -> Division
        ensures { IsDivisionOf self.now result }
    {
        let mut visits = 0;
        self.divide(&mut visits)
    }

    /// How many workers an arena is allotted, by how the workers are divided now; none where no living arena has this number. It is what
    /// `allotment` tells, which reckons what the arena's level is assigned anew, and divides all workers where none may be active. It takes
    /// no memory.
    pub fn allotment_by(&self, arena: ArenaId, division: &Division) -> u32
        requires { IsDivisionOf self.now division.now }
        ensures { result ≡ allotment_of self.now arena }
    {
        if division.limit == 0 {
            return division.mandatory_workers(arena);
        }
        let Some(stored) = self.arenas.get(arena) else {
            return 0;
        };
        let mut visits = 0;
        self.carried_to(stored, division.share_at(stored.level()), &mut visits)
    }

    /// How many workers an arena is allotted, where some worker may be active and a level is assigned `given` of the `asked` workers that it asks
    /// for, as `assigned` and `demand` tell; none where no living arena has this number. It is what `allotment` tells, in less time where the arena
    /// is at this level, since `allotment` looks at the limit and at the other levels for it. It takes no memory.
    // Always in its callers, which ask for nothing else: to save and to restore registers is a tenth of what a call would take.
    #[inline(always)]
    pub fn allotment_at(&self, arena: ArenaId, level: Level, given: u64, asked: u64) -> u32
        requires some { 0 < limit_of self.now }
        requires given { level ≤ self.now.levels → given ≡ assigned self.now level }
        requires asked { level ≤ self.now.levels → asked ≡ demand self.now level }
        ensures { result ≡ allotment_of self.now arena }
    {
        self.arenas.stand_once();
        match self.arenas.get(arena) {
            Some(stored) if stored.level() == level => {
                self.arenas_are_leveled();
                bound_is_given_out();
                // That a level asks for few workers is what this call promises.
                let _ = self.demand(level);
                let part = LevelShare {
                    assigned: given,
                    demand: asked,
                };
                let mut visits = 0;
                self.carried_to(stored, part, &mut visits)
            }
            _ => self.allotment(arena),
        }
    }

    /// What `allotment_at` tells of an arena, and what the arenas before it at this level ask for together, 0 to 67,107,840: all of the level, where the
    /// arena is not at it, or does not live. It takes no memory.
    // Always in its callers, as `allotment_at`.
    #[inline(always)]
    pub fn portion_at(&self, arena: ArenaId, level: Level, given: u64, asked: u64) -> Portion
        requires some { 0 < limit_of self.now }
        requires given { level ≤ self.now.levels → given ≡ assigned self.now level }
        requires asked { level ≤ self.now.levels → asked ≡ demand self.now level }
        ensures workers { result.workers ≡ allotment_of self.now arena }
        ensures before { result.before ≡ asked_ahead arena (at_level level self.now.arenas) }
    {
        self.arenas.stand_once();
        let part = LevelShare {
            assigned: given,
            demand: asked,
        };
        match self.arenas.get(arena) {
            Some(own) if own.level() == level => {
                self.arenas_are_leveled();
                bound_is_given_out();
                // That a level asks for few workers is what this call promises.
                let _ = self.demand(level);
                self.portion_of(own, part)
            }
            _ => Portion {
                workers: self.allotment(arena),
                before: self.demand(level) as u32,
            },
        }
    }

    /// How many workers an arena is allotted; none where no living arena has this number. It is what `view` tells of it, in less time, and
    /// takes no memory.
    pub fn allotment(&self, arena: ArenaId) -> u32
        ensures { result ≡ allotment_of self.now arena }
    {
        let mut visits = 0;
        self.allotment_by_number(arena, &mut visits)
    }

    /// How many workers an arena is allotted; none where no living arena has this number.
    pub(super) fn allotment_by_number(&self, arena: ArenaId, visits: &mut u32) -> u32
        requires uncounted { visits.old ≡ 0 }
        ensures exact { result ≡ allotment_of self.now arena }
        ensures least { least_seen self.now (arena_at arena self.now.arenas) ≤ visits.new }
        ensures alone { HasSmallLevels self.now → visits.new ≡ least_seen self.now (arena_at arena self.now.arenas) }
        ensures visits { visits.new ≤ 2 * bits (length self.now.arenas) + extra_visits self.now }
    {
        self.arenas_are_within();
        let Some(stored) = self.arenas.get(arena) else {
            return 0;
        };
        self.arenas_are_leveled();
        let asked = self.asked_before(stored.level());
        self.allotment_of(stored, asked, visits)
    }
}
