//! What a command does.
ghost use Rattle.std.specs.Prelude.{◌≡◌, ◌≤◌, ◌<◌, length, None, false, true, IsOk, IfOk, OnOk, OnErr};
ghost use Rattle.std.specs.Bool.{OnTrue};
ghost use Rattle.market_types.specs.Step.{open_step, close_step, priority_step, resize_step, request_step, control_step, uncontrol_step, join_from, stay_from, leave_from, place_of, with_place, show_step, counts_of, step};
ghost use Rattle.market_types.specs.declared.command.Cmd.TheVariants.{Open, Close, Priority, Resize, Request, Join, Stay, Show, Lists};
ghost use Rattle.market_types.specs.declared.reply.Reply.TheVariants.{Idle, Listed};
ghost use Rattle.market_core.specs.Memory.{is_refusal, takes_memory};
ghost use Rattle.market_core.specs.Visits.{HasSmallLevels, most_visits, most_listed, most_joined, least_visits, looks_in_order, lists_all};

use super::Market;
use arena_record::ArenaRecord;
use arena_store::{Arenas, Change, StoredArena};
use market_types::{ArenaId, Cmd, ControlId, Fault, Level, Reply, SeatNo};
use recall_hire::recall;
use std::alloc::{AllocError, Global};

impl Market {
    /// Does what a seat asks, or refuses it: the first refusal that applies is the reply, and changes nothing. Only Open,
    /// Control and Lists can give an `Err`, where there is no memory for what no refusal stops, and after one the market is as
    /// before. The seat is one that the market has. A Join is answered at once where an earlier one found no arena in need of a
    /// worker, and only reads, Joins and Stays that stay came after it.
    ///
    /// That an arena has no more workers than it is allotted after one was placed, no fewer after one was recalled, and that
    /// no command changes the number of seats, are laws of the definitions: `placed_worker_is_allotted`, `a_call_moves_its_own_seat`.
    #[inline(always)]
    pub fn apply(&mut self, alloc: Global, seat: SeatNo, cmd: Cmd) -> Result<Reply, AllocError>
        requires seat { seat < length self.old.seats }
        ensures reply { IfOk result (λ reply. reply ≡ (step self.old seat cmd).0) }
        ensures next { OnOk result (self.new ≡ (step self.old seat cmd).1) }
        ensures unchanged { OnErr result (self.new ≡ self.old) }
        ensures no_memory { takes_memory cmd ≡ false → IsOk result }
        ensures memory_last { OnErr result (is_refusal (step self.old seat cmd).0 ≡ false) }
    {
        if let Cmd::Join = cmd {
            if self.is_unneeded(seat) {
                return Ok(Reply::Idle);
            }
        }
        // Taken out of its result and put into one again: a result that is handed on whole goes through memory.
        let reply = self.answer(alloc, seat, cmd, &mut 0)?;
        Ok(reply)
    }

    /// Does what `apply` does, but never from what the market keeps of an earlier Join, and says how many visits it made: a
    /// node of k keys that is entered counts as many as k has binary digits, a run of k sums in one node that a walk passes
    /// over the same, a row that it looks at one. For every command but Join and Lists they are no more than four times as
    /// many as the number of living arenas has binary digits, and one; for Lists no more than there are arenas; for Join no
    /// more than there are arenas, nor than 22 for each arena that is allotted a worker until one has too few, and for each
    /// level; where no worker may be active, twice as many as these digits more for each level.
    ///
    /// They are no fewer than a way down takes to an arena that goes, moves, or is seen and asks for workers: as many as the
    /// number of arenas at its level has binary digits, and 4 for 8 or more; one for an arena that is put in or set; one for
    /// each arena that is allotted a worker, up to the one that a Join finds; for Lists one for each arena up to the last that
    /// has seats, and for each behind it that is allotted a worker; and where no worker may be active, one for each level that
    /// has arenas. Where no level has more than 12 arenas they are just so many, but for Join and Lists.
    #[inline(always)]
    pub fn apply_counted(
        &mut self,
        alloc: Global,
        seat: SeatNo,
        cmd: Cmd,
    ) -> Result<(Reply, u64), AllocError>
        requires seat { seat < length self.old.seats }
        ensures reply { IfOk result (λ answer. answer.0 ≡ (step self.old seat cmd).0) }
        ensures next { OnOk result (self.new ≡ (step self.old seat cmd).1) }
        ensures unchanged { OnErr result (self.new ≡ self.old) }
        ensures no_memory { takes_memory cmd ≡ false → IsOk result }
        ensures memory_last { OnErr result (is_refusal (step self.old seat cmd).0 ≡ false) }
        ensures least { IfOk result (λ answer. least_visits self.old cmd answer.0 ≤ answer.1) }
        ensures alone { HasSmallLevels self.old → looks_in_order cmd ≡ false → IfOk result (λ answer. answer.1 ≡ least_visits self.old cmd answer.0) }
        ensures visits { looks_in_order cmd ≡ false → IfOk result (λ answer. answer.1 ≤ most_visits self.old) }
        ensures listed { lists_all cmd ≡ true → IfOk result (λ answer. answer.1 ≤ most_listed self.old) }
        ensures joined { cmd ≡ Join → IfOk result (λ answer. answer.1 ≤ most_joined self.old) }
    {
        let mut visits = 0;
        let reply = self.answer(alloc, seat, cmd, &mut visits)?;
        Ok((reply, u64::from(visits)))
    }

    // Each command's function is inlined, since a reply that goes through memory is read in other pieces than it was written in.

    /// Does what a seat asks, or refuses it, and counts the visits that it makes, of which there are none yet.
    #[inline(always)]
    fn answer(
        &mut self,
        alloc: Global,
        seat: SeatNo,
        cmd: Cmd,
        visits: &mut u32,
    ) -> Result<Reply, AllocError>
        requires seat { seat < length self.old.seats }
        requires uncounted { visits.old ≡ 0 }
        ensures reply { IfOk result (λ reply. reply ≡ (step self.old seat cmd).0) }
        ensures next { OnOk result (self.new ≡ (step self.old seat cmd).1) }
        ensures unchanged { OnErr result (self.new ≡ self.old) }
        ensures no_memory { takes_memory cmd ≡ false → IsOk result }
        ensures memory_last { OnErr result (is_refusal (step self.old seat cmd).0 ≡ false) }
        ensures least { IfOk result (λ reply. least_visits self.old cmd reply ≤ visits.new) }
        ensures alone { HasSmallLevels self.old → looks_in_order cmd ≡ false → IfOk result (λ reply. visits.new ≡ least_visits self.old cmd reply) }
        ensures visits { looks_in_order cmd ≡ false → OnOk result (visits.new ≤ most_visits self.old) }
        ensures listed { lists_all cmd ≡ true → OnOk result (visits.new ≤ most_listed self.old) }
        ensures joined { cmd ≡ Join → OnOk result (visits.new ≤ most_joined self.old) }
    {
        // One place for the reply of whichever command. Where each arm puts its own reply into a result, each has a place of its own, and all of
        // these are cleared at every call.
        let reply = match cmd {
            Cmd::Open(slots, reserved, level) => {
                return self.open(alloc, slots, reserved, level, visits);
            }
            Cmd::Control(value) => return self.control(value),
            Cmd::Lists => return self.list(alloc, visits),
            Cmd::Close(arena) => self.close(arena, visits),
            Cmd::Priority(arena, level) => self.priority(arena, level, visits),
            Cmd::Resize(arena, slots, reserved) => self.resize(arena, slots, reserved, visits),
            Cmd::Request(arena, workers, mandatory) => {
                self.request(arena, workers, mandatory, visits)
            }
            Cmd::Uncontrol(control) => self.uncontrol(control),
            Cmd::Join => self.join(seat, visits),
            Cmd::Stay => self.stay(seat, visits),
            Cmd::Leave => self.leave(seat),
            Cmd::Show(arena) => self.show(arena, visits),
            Cmd::Limit => Reply::Limits(self.limits()),
        };
        Ok(reply)
    }

    /// A new arena, before all others.
    #[inline(always)]
    fn open(
        &mut self,
        alloc: Global,
        slots: u32,
        reserved: u32,
        level: Level,
        visits: &mut u32,
    ) -> Result<Reply, AllocError>
        requires uncounted { visits.old ≡ 0 }
        ensures reply { IfOk result (λ reply. reply ≡ (open_step self.old slots reserved level).0) }
        ensures next { OnOk result (self.new ≡ (open_step self.old slots reserved level).1) }
        ensures unchanged { OnErr result (self.new ≡ self.old) }
        ensures memory_last { OnErr result (is_refusal (open_step self.old slots reserved level).0 ≡ false) }
        ensures least { IfOk result (λ reply. least_visits self.old (Open slots reserved level) reply ≤ visits.new) }
        ensures alone { HasSmallLevels self.old → IfOk result (λ reply. visits.new ≡ least_visits self.old (Open slots reserved level) reply) }
        ensures visits { OnOk result (visits.new ≤ most_visits self.old) }
    {
        let claim = match ArenaRecord::new(slots, reserved) {
            Ok(claim) => claim,
            Err(fault) => return Ok(Reply::Refused(fault)),
        };
        if level.get() > self.opening.levels {
            return Ok(Reply::Refused(Fault::BadLevel));
        }
        if self.arenas.len() >= Arenas::MOST_ARENAS {
            return Ok(Reply::Refused(Fault::TooManyArenas));
        }
        let last = self.opening.last.get();
        if self.next_arena > last {
            return Ok(Reply::Refused(Fault::OutOfNumbers));
        }
        if self.next_stamp > last {
            return Ok(Reply::Refused(Fault::OutOfNumbers));
        }
        let arena = ArenaId::new(self.next_arena);
        let stored = StoredArena::new(arena, self.next_stamp, level, claim);
        self.nobody_needed = false;
        self.arenas.push(alloc, stored, visits)?;
        self.next_arena += 1;
        self.next_stamp += 1;
        Ok(Reply::Opened(arena))
    }

    /// The arena goes, unless a seat is placed at it.
    #[inline(always)]
    fn close(&mut self, arena: ArenaId, visits: &mut u32) -> Reply
        requires uncounted { visits.old ≡ 0 }
        ensures reply { result ≡ (close_step self.old arena).0 }
        ensures next { self.new ≡ (close_step self.old arena).1 }
        ensures least { least_visits self.old (Close arena) result ≤ visits.new }
        ensures alone { HasSmallLevels self.old → visits.new ≡ least_visits self.old (Close arena) result }
        ensures visits { visits.new ≤ most_visits self.old }
    {
        let active = self.roster.active(arena);
        if active > 0 {
            return match self.arenas.get(arena) {
                Some(_) => Reply::Refused(Fault::Busy(active)),
                None => Reply::Refused(Fault::NoArena),
            };
        }
        self.nobody_needed = false;
        match self.arenas.remove(arena, visits) {
            Some(()) => Reply::Closed,
            None => Reply::Refused(Fault::NoArena),
        }
    }

    /// The arena goes first, at this level.
    #[inline(always)]
    fn priority(&mut self, arena: ArenaId, level: Level, visits: &mut u32) -> Reply
        requires uncounted { visits.old ≡ 0 }
        ensures reply { result ≡ (priority_step self.old arena level).0 }
        ensures next { self.new ≡ (priority_step self.old arena level).1 }
        ensures least { least_visits self.old (Priority arena level) result ≤ visits.new }
        ensures alone { HasSmallLevels self.old → visits.new ≡ least_visits self.old (Priority arena level) result }
        ensures visits { visits.new ≤ most_visits self.old }
    {
        if self.opening.levels < level.get() {
            return Reply::Refused(Fault::BadLevel);
        }
        if self.next_stamp > self.opening.last.get() {
            return match self.arenas.get(arena) {
                Some(_) => Reply::Refused(Fault::OutOfNumbers),
                None => Reply::Refused(Fault::NoArena),
            };
        }
        self.nobody_needed = false;
        let Some(()) = self.arenas.promote(arena, self.next_stamp, level, visits) else {
            return Reply::Refused(Fault::NoArena);
        };
        self.next_stamp += 1;
        Reply::Moved
    }

    /// The arena gets other slots, at its place.
    #[inline(always)]
    fn resize(&mut self, arena: ArenaId, slots: u32, reserved: u32, visits: &mut u32) -> Reply
        requires uncounted { visits.old ≡ 0 }
        ensures reply { result ≡ (resize_step self.old arena slots reserved).0 }
        ensures next { self.new ≡ (resize_step self.old arena slots reserved).1 }
        ensures least { least_visits self.old (Resize arena slots reserved) result ≤ visits.new }
        ensures alone { HasSmallLevels self.old → visits.new ≡ least_visits self.old (Resize arena slots reserved) result }
        ensures visits { visits.new ≤ most_visits self.old }
    {
        if let Err(fault) = ArenaRecord::new(slots, reserved) {
            return Reply::Refused(fault);
        }
        self.nobody_needed = false;
        match self
            .arenas
            .change(arena, Change::Resize(slots, reserved), visits)
        {
            Ok(claim) => Reply::Resized(claim.request()),
            Err(fault) => Reply::Refused(fault),
        }
    }

    /// Adds to what the arena asks for.
    #[inline(always)]
    fn request(&mut self, arena: ArenaId, workers: i32, mandatory: i32, visits: &mut u32) -> Reply
        requires uncounted { visits.old ≡ 0 }
        ensures reply { result ≡ (request_step self.old arena workers mandatory).0 }
        ensures next { self.new ≡ (request_step self.old arena workers mandatory).1 }
        ensures least { least_visits self.old (Request arena workers mandatory) result ≤ visits.new }
        ensures alone { HasSmallLevels self.old → visits.new ≡ least_visits self.old (Request arena workers mandatory) result }
        ensures visits { visits.new ≤ most_visits self.old }
    {
        self.nobody_needed = false;
        match self
            .arenas
            .change(arena, Change::Add(workers, mandatory), visits)
        {
            Ok(claim) => Reply::Requested(claim.request()),
            Err(fault) => Reply::Refused(fault),
        }
    }

    /// A new limit on parallelism.
    #[inline(always)]
    fn control(&mut self, value: u32) -> Result<Reply, AllocError>
        ensures reply { IfOk result (λ reply. reply ≡ (control_step self.old value).0) }
        ensures next { OnOk result (self.new ≡ (control_step self.old value).1) }
        ensures unchanged { OnErr result (self.new ≡ self.old) }
        ensures memory_last { OnErr result (is_refusal (control_step self.old value).0 ≡ false) }
    {
        self.nobody_needed = false;
        let made = self.controls.make(value, self.opening.last)?;
        match made {
            Ok(control) => Ok(Reply::Controlled(control)),
            Err(fault) => Ok(Reply::Refused(fault)),
        }
    }

    /// The control goes.
    #[inline(always)]
    fn uncontrol(&mut self, control: ControlId) -> Reply
        ensures reply { result ≡ (uncontrol_step self.old control).0 }
        ensures next { self.new ≡ (uncontrol_step self.old control).1 }
    {
        self.nobody_needed = false;
        match self.controls.remove(control) {
            Ok(()) => Reply::Uncontrolled,
            Err(fault) => Reply::Refused(fault),
        }
    }

    /// Whether a seat's Join is known to find no arena in need of a worker.
    #[inline(always)]
    fn is_unneeded(&self, seat: SeatNo) -> bool
        requires seat { seat < length self.now.seats }
        ensures { OnTrue result (join_from self.now seat (place_of self.now seat) ≡ (Idle, self.now)) }
    {
        self.nobody_needed && self.roster.at(seat).is_none()
    }

    /// An unplaced seat goes to the first arena in need of a worker.
    #[inline(always)]
    fn join(&mut self, seat: SeatNo, visits: &mut u32) -> Reply
        requires seat { seat < length self.old.seats }
        requires uncounted { visits.old ≡ 0 }
        ensures reply { result ≡ (join_from self.old seat (place_of self.old seat)).0 }
        ensures least { least_visits self.old Join result ≤ visits.new }
        ensures joined { visits.new ≤ most_joined self.old }
        ensures next { self.new ≡ (join_from self.old seat (place_of self.old seat)).1 }
    {
        if let Some(arena) = self.roster.at(seat) {
            return Reply::Refused(Fault::AlreadyPlaced(arena));
        }
        let arena = self.first_in_need(visits);
        self.nobody_needed = arena.is_none();
        let Some(arena) = arena else {
            return Reply::Idle;
        };
        self.roster.place(seat, arena);
        Reply::Placed(arena)
    }

    /// The seat stays at its arena, unless that has a worker too many.
    #[inline(always)]
    fn stay(&mut self, seat: SeatNo, visits: &mut u32) -> Reply
        requires seat { seat < length self.old.seats }
        requires uncounted { visits.old ≡ 0 }
        ensures reply { result ≡ (stay_from self.old seat (place_of self.old seat)).0 }
        ensures next { self.new ≡ (stay_from self.old seat (place_of self.old seat)).1 }
        ensures least { least_visits self.old Stay result ≤ visits.new }
        ensures alone { HasSmallLevels self.old → visits.new ≡ least_visits self.old Stay result }
        ensures visits { visits.new ≤ most_visits self.old }
    {
        let Some(arena) = self.roster.at(seat) else {
            return Reply::Refused(Fault::NotPlaced);
        };
        let allotted = self.allotment_by_number(arena, visits);
        if recall(self.roster.active(arena), allotted) == 0 {
            return Reply::Stays(arena);
        }
        self.unplace(seat);
        Reply::Recalled(arena)
    }

    /// The seat leaves its arena.
    #[inline(always)]
    fn leave(&mut self, seat: SeatNo) -> Reply
        requires seat { seat < length self.old.seats }
        ensures reply { result ≡ (leave_from self.old seat (place_of self.old seat)).0 }
        ensures next { self.new ≡ (leave_from self.old seat (place_of self.old seat)).1 }
    {
        let Some(arena) = self.roster.at(seat) else {
            return Reply::Refused(Fault::NotPlaced);
        };
        self.unplace(seat);
        Reply::Left(arena)
    }

    /// Takes a seat from its arena, which may need a worker then.
    fn unplace(&mut self, seat: SeatNo)
        requires seat { seat < length self.old.seats }
        ensures { self.new ≡ with_place self.old seat None }
    {
        self.roster.unplace(seat);
        self.nobody_needed = false;
    }

    /// What is seen of an arena, or that there is none.
    #[inline(always)]
    fn show(&self, arena: ArenaId, visits: &mut u32) -> Reply
        requires uncounted { visits.old ≡ 0 }
        ensures reply { result ≡ (show_step self.now arena).0 }
        ensures least { least_visits self.now (Show arena) result ≤ visits.new }
        ensures alone { HasSmallLevels self.now → visits.new ≡ least_visits self.now (Show arena) result }
        ensures visits { visits.new ≤ most_visits self.now }
    {
        let Some(stored) = self.arenas.get(arena) else {
            return Reply::Refused(Fault::NoArena);
        };
        Reply::Shown(self.view_of(stored, visits))
    }

    /// The arenas with workers too many, and those with too few.
    #[inline(always)]
    fn list(&self, alloc: Global, visits: &mut u32) -> Result<Reply, AllocError>
        requires uncounted { visits.old ≡ 0 }
        ensures reply { IfOk result (λ reply. reply ≡ Listed (counts_of self.now)) }
        ensures least { IfOk result (λ reply. least_visits self.now Lists reply ≤ visits.new) }
        ensures listed { OnOk result (visits.new ≤ most_listed self.now) }
    {
        Ok(Reply::Listed(self.lists(alloc, visits)?))
    }
}
