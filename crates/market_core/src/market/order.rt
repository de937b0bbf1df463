//! The arenas in the order in which they are served, beside what they are allotted and have.
ghost use Rattle.std.specs.Prelude.{◌≡◌, ℕ, ◌+◌, ◌-◌, ◌*◌, ◌≤◌, length, IfOk, OnOk, IfSome};
ghost use Rattle.market_types.specs.Allotment.{at_level, limit_of};
ghost use Rattle.market_types.specs.Step.{counts_of};
ghost use Rattle.recall_hire.specs.Staffed.{actives, imbalances, looks, need_among, need_of, searches};
ghost use Rattle.recall_hire.specs.Shared.{IsListed};
ghost use Rattle.arena_store.specs.Bits.{bits};
ghost use Rattle.market_core.specs.Divided.{IsServing, IsSharedAt, IsSharingOf, left_after, rows_at};
ghost use Rattle.market_core.specs.Visits.{extra_visits, least_extra, least_listed, most_joined, most_listed, searched};

use super::Market;
use crate::division::LevelShare;
use allotment::no_carry_to_keep;
use market_types::{ArenaId, Level, Lists};
use recall_hire::{Sharing, first_in_need, hire, list};
use std::alloc::{AllocError, Global};

impl Market {
    /// The arena whose enqueued work is served, where no worker may be active and it is allotted more workers than it has.
    #[cold]
    #[inline(never)]
    fn mandatory_in_need(&self, visits: &mut u32) -> Option<ArenaId>
        requires none { limit_of self.now ≡ 0 }
        requires uncounted { visits.old ≡ 0 }
        ensures exact { result ≡ need_of self.now }
        ensures least { least_extra self.now ≤ visits.new }
        ensures most { visits.new ≤ extra_visits self.now }
    {
        let division = &self.divide(visits);
        let picked = division.picked?;
        if hire(self.roster.active(picked), division.bound) > 0 {
            Some(picked)
        } else {
            None
        }
    }

    /// The first arena in order that is allotted more workers than it has.
    // Each level is looked at before what the next is assigned is reckoned: most often the first one has an arena in need.
    pub(super) fn first_in_need(&self, visits: &mut u32) -> Option<ArenaId>
        requires uncounted { visits.old ≡ 0 }
        ensures exact { result ≡ need_of self.now }
        ensures entered { IfSome result (λ _. 1 ≤ visits.new) }
        ensures every_search { searched self.now + least_extra self.now ≤ visits.new }
        ensures most { visits.new ≤ most_joined self.now }
    {
        let levels = self.opening.levels;
        let limit = self.limit();
        if limit == 0 {
            return self.mandatory_in_need(visits);
        }
        let mut left = u64::from(limit);
        for index in 0..levels {
            let level = Level::from_index(index as usize);
            let part = self.part_of(level, left);
            let found = self.in_need_at(part, level, visits);
            if found.is_some() {
                return found;
            }
            left = left.saturating_sub(part.demand);
        }
        None
    }

    /// The first arena of a level that is allotted more workers than it has, where some worker may be active.
    fn in_need_at(&self, part: LevelShare, level: Level, visits: &mut u32) -> Option<ArenaId>
        requires shared { IsSharedAt level self.now part }
        requires room { visits.old ≤ length self.now.arenas }
        ensures exact { result ≡ need_among self.now (at_level level self.now.arenas) }
        ensures looked { visits.old + searches (rows_at self.now level) ≤ visits.new }
        ensures once { visits.new ≤ visits.old + length (rows_at self.now level) }
        ensures most { visits.new ≤ visits.old + searches (rows_at self.now level) * (2 * bits (length self.now.arenas)) }
        ensures few { length self.now.arenas ≤ 1024 }
    {
        no_carry_to_keep();
        first_in_need(
            &self.roster,
            &self.arenas.whole(level),
            part.assigned,
            part.demand,
            visits,
        )
    }

    /// How workers are shared out where none may be active: all go to the arena whose enqueued work is served.
    // Apart, as what finds that arena.
    #[cold]
    #[inline(never)]
    fn mandatory_sharing(&self, visits: &mut u32) -> Sharing
        requires none { limit_of self.now ≡ 0 }
        requires uncounted { visits.old ≡ 0 }
        ensures exact { (level : ℕ) → IsSharingOf level self.now result }
        ensures least { least_extra self.now ≤ visits.new }
        ensures visits { visits.new ≤ extra_visits self.now }
        ensures few { visits.new ≤ 176 }
    {
        let division = &self.divide(visits);
        Sharing::Picked {
            arena: division.picked,
            workers: division.bound,
        }
    }

    /// How workers are shared out among all levels alike, where none may be active.
    #[inline(always)]
    fn served(&self, limit: u32, visits: &mut u32) -> Option<Sharing>
        requires limit { limit ≡ limit_of self.now }
        requires uncounted { visits.old ≡ 0 }
        ensures exact { IsServing self.now result }
        ensures least { least_extra self.now ≤ visits.new }
        ensures visits { visits.new ≤ extra_visits self.now }
        ensures few { visits.new ≤ 176 }
    {
        if limit == 0 {
            Some(self.mandatory_sharing(visits))
        } else {
            None
        }
    }

    /// How the workers of a level are shared out, where so many are left for it; those that it leaves are left then.
    // No level behind it is looked at, as a division looks at all.
    #[inline(always)]
    fn sharing_at(&self, level: Level, served: &Option<Sharing>, left: &mut u64) -> Sharing
        requires served { IsServing self.now served.now }
        requires high { level ≤ self.now.levels }
        requires left { left.old ≡ left_after self.now (level - 1) }
        ensures exact { IsSharingOf level self.now result }
        ensures left { left.new ≡ left_after self.now level }
    {
        if let Some(sharing) = served {
            return *sharing;
        }
        no_carry_to_keep();
        let part = self.part_of(level, *left);
        *left = left.saturating_sub(part.demand);
        Sharing::Carried {
            workers: part.assigned,
            demand: part.demand,
        }
    }

    /// Puts a level's arenas at the end of lists, each with how many workers it has too many or too few. Their seats are met.
    fn list_level(
        &self,
        sharing: Sharing,
        level: Level,
        unmet: &mut u32,
        lists: &mut Lists,
        visits: &mut u32,
    ) -> Result<(), AllocError>
        requires shared { IsSharingOf level self.now sharing }
        requires unmet { actives (rows_at self.now level) ≤ unmet.old }
        requires room { visits.old ≤ length self.now.arenas + 176 }
        ensures listed { OnOk result (IsListed (rows_at self.now level) lists.old lists.new) }
        ensures met { OnOk result (unmet.old ≡ unmet.new + actives (rows_at self.now level)) }
        ensures looked { OnOk result (visits.old + imbalances (rows_at self.now level) ≤ visits.new) }
        ensures met_first { OnOk result (visits.old + looks unmet.old (rows_at self.now level) ≤ visits.new) }
        ensures once { OnOk result (visits.new ≤ visits.old + length (rows_at self.now level)) }
        ensures few { length self.now.arenas ≤ 1024 }
    {
        list(
            &self.roster,
            &self.arenas.whole(level),
            sharing,
            unmet,
            lists,
            visits,
        )
    }

    /// The arenas with workers too many, and those with too few.
    pub(super) fn lists(&self, alloc: Global, visits: &mut u32) -> Result<Lists, AllocError>
        requires uncounted { visits.old ≡ 0 }
        ensures exact { IfOk result (λ lists. lists ≡ counts_of self.now) }
        ensures looked { IfOk result (λ lists. length lists.recalls + length lists.hires ≤ visits.new) }
        ensures met_first { OnOk result (least_listed self.now ≤ visits.new) }
        ensures once { OnOk result (visits.new ≤ most_listed self.now) }
    {
        self.arenas.stand_once();
        let limit = self.limit();
        let served = self.served(limit, visits);
        // A count of its own stays in a register while rows are walked.
        let mut made = *visits;
        let mut left = u64::from(limit);
        let mut unmet = self.roster.placed();
        let mut lists = Lists {
            arenas: Vec::new(alloc),
        };
        for level in 0..self.opening.levels {
            let level = Level::from_index(level as usize);
            let sharing = self.sharing_at(level, &served, &mut left);
            self.list_level(sharing, level, &mut unmet, &mut lists, &mut made)?;
        }
        *visits = made;
        Ok(lists)
    }
}
