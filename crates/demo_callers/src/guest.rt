//! A caller that goes on until its time is over.
ghost use Rattle.std.specs.Prelude.{◌≡◌};
ghost use Rattle.market_lock.specs.Seen.{IsSamePass};
ghost use Rattle.office_crew.specs.Callers.{who_is};

use crate::dice::Dice;
use crate::resident::resident;
use crate::watch::Watch;
use market_lock::{Office, Pass, Placed};
use market_types::{ArenaId, Cmd, Level, Reply};
use office_crew::{Asked, Caller, Task, ask};
use std::alloc::Global;
use std::rt::HostRuntime;
use std::sync::Wait;

/// It looks at the clock each time that it has called so often.
const CALLS_A_LOOK: u32 = 1_024;

/// It comes to close its arena once in so many of the calls that ask for no move.
const CALLS_A_CLOSE: u32 = 2_048;

/// So many workers an arena asks for, or none.
const WORKERS: i32 = 3;

/// It opens an arena, asks for workers and gives them back, works in whatever arena wants it, and at times closes its own and opens
/// another. It notes nothing of it, so that it takes no more memory however long it calls.
#[derive(Drop)]
pub(crate) struct Guest<'a> {
    system: &'a HostRuntime,
    watch: &'a Watch<'a, HostRuntime>,
    dice: Dice,
    arena: Option<ArenaId>,
    /// Its arena asks for workers.
    asks: bool,
    /// The kilobytes that the process had at a quarter of the time.
    pub(crate) quarter: Option<u64>,
    /// And at its end.
    pub(crate) end: Option<u64>,
}

impl<'a> Guest<'a> {
    /// Of this seed, until the watch has run down.
    pub(crate) fn new(
        system: &'a HostRuntime,
        watch: &'a Watch<'a, HostRuntime>,
        seed: u64,
    ) -> Self {
        Guest {
            system,
            watch,
            dice: Dice::new(seed),
            arena: None,
            asks: false,
            quarter: None,
            end: None,
        }
    }

    /// A command that moves no seat: an Open where it has no arena.
    fn cmd(&mut self) -> Cmd {
        let Some(arena) = self.arena else {
            return Cmd::Open(8, 1, Level::from_index(self.dice.below(3) as usize));
        };
        if self.dice.below(CALLS_A_CLOSE) == 0 {
            return Cmd::Close(arena);
        }
        match self.dice.below(8) {
            0 => Cmd::Lists,
            1 => Cmd::Limit,
            2 | 3 => Cmd::Show(arena),
            _ if self.asks => Cmd::Request(arena, -WORKERS, 0),
            _ => Cmd::Request(arena, WORKERS, 0),
        }
    }

    /// What it asks for while its seat is not placed.
    fn free_cmd(&mut self) -> Cmd {
        match self.dice.below(3) {
            0 => Cmd::Join,
            _ => self.cmd(),
        }
    }

    /// What it asks for while its seat is placed.
    fn working_cmd(&mut self) -> Cmd {
        match self.dice.below(6) {
            0 | 1 => Cmd::Stay,
            2 => Cmd::Leave,
            _ => self.cmd(),
        }
    }

    /// What a reply says of its arena.
    fn hear(&mut self, reply: &Reply) {
        match reply {
            Reply::Opened(arena) => {
                self.arena = Some(*arena);
                self.asks = false;
            }
            Reply::Closed => self.arena = None,
            Reply::Requested(_) => self.asks = !self.asks,
            _ => {}
        }
    }

    /// Calls so often as it does between two looks at the clock.
    fn call_often<R: Wait>(
        &mut self,
        rt: &R,
        alloc: Global,
        office: &Office,
        caller: Caller<Pass, Placed>,
    ) -> Caller<Pass, Placed>
        requires office { (who_is caller).table ≡ office.now.table }
        ensures same { IsSamePass (who_is caller) (who_is result) }
    {
        let mut caller = caller;
        for _ in 0..CALLS_A_LOOK {
            let cmd = match &caller {
                Caller::Free(_) => self.free_cmd(),
                Caller::Working(_) => self.working_cmd(),
            };
            let Asked {
                caller: next,
                answer,
            } = ask(rt, alloc, office, caller, cmd);
            if let Some(Ok(reply)) = &answer {
                self.hear(reply);
            }
            caller = next;
        }
        caller
    }

    /// Looks at the clock, and at the process's memory where a quarter of the time, or all, has gone by: whether it goes on.
    fn looks_on(&mut self) -> bool {
        if self.quarter.is_none() && self.watch.is_past_quarter() {
            self.quarter = resident(self.system);
        }
        if !self.watch.is_over() {
            return true;
        }
        self.end = resident(self.system);
        false
    }
}

impl Task for Guest<'_> {
    fn work<R: Wait>(
        &mut self,
        rt: &R,
        alloc: Global,
        office: &Office,
        caller: Caller<Pass, Placed>,
    ) -> Caller<Pass, Placed> {
        let mut caller = caller;
        for _ in rt.forever() {
            caller = self.call_often(rt, alloc, office, caller);
            if !self.looks_on() {
                break;
            }
        }
        caller
    }

    fn lets_others_work(&self) -> bool {
        true
    }
}
