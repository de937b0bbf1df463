//! A caller that calls at random.
use crate::dice::Dice;
use crate::note::Notes;
use market_lock::{Office, Pass, Placed};
use market_types::{ArenaId, Cmd, ControlId, Level, Reply};
use office_crew::{Asked, Caller, Task, ask};
use std::alloc::Global;
use std::sync::Wait;

/// It calls so many arenas, the newest that it opened and those before.
const ARENAS: u32 = 24;

/// It calls so many times, what its seed says, and notes what it is answered.
#[derive(Drop)]
pub(crate) struct Visitor {
    dice: Dice,
    turns: u32,
    newest: ArenaId,
    pub(crate) notes: Notes,
}

impl Visitor {
    /// Of this seed, to call so many times.
    pub(crate) fn new(alloc: Global, seed: u64, turns: u32) -> Self {
        Visitor {
            dice: Dice::new(seed),
            turns,
            newest: ArenaId::new(0),
            notes: Notes::new(alloc),
        }
    }

    fn arena(&mut self) -> ArenaId {
        let newest = self.newest.get();
        let before = self.dice.below(newest.clamp(1, ARENAS));
        ArenaId::new(newest.saturating_sub(before))
    }

    /// Notes what a call was answered.
    fn note(&mut self, cmd: &Cmd, reply: &Reply) {
        if let Reply::Opened(arena) = reply {
            self.newest = *arena;
        }
        self.notes.take(cmd, reply);
    }

    fn level(&mut self) -> Level {
        Level::from_index(self.dice.below(4) as usize)
    }

    /// A command that moves no seat, an Open at first. Some are refused.
    fn cmd(&mut self) -> Cmd {
        if self.newest.get() == 0 {
            return Cmd::Open(8, 1, Level::from_index(1));
        }
        match self.dice.below(20) {
            0 => Cmd::Open(self.dice.below(9), self.dice.below(3), self.level()),
            1 | 2 => Cmd::Close(self.arena()),
            3 => Cmd::Priority(self.arena(), self.level()),
            4 => Cmd::Resize(self.arena(), self.dice.below(9), self.dice.below(3)),
            5 => Cmd::Control(self.dice.below(16)),
            6 | 7 => Cmd::Uncontrol(ControlId::new(self.dice.below(512))),
            8..=15 => {
                let workers = self.dice.below(9) as i32 - 3;
                Cmd::Request(self.arena(), workers, self.dice.below(3) as i32 - 1)
            }
            16 | 17 => Cmd::Show(self.arena()),
            18 => Cmd::Lists,
            _ => Cmd::Limit,
        }
    }

    /// What it asks for while its seat is not placed.
    fn free_cmd(&mut self) -> Cmd {
        match self.dice.below(3) {
            0 => Cmd::Join,
            _ => self.cmd(),
        }
    }

    /// What it asks for while its seat is placed.
    fn working_cmd(&mut self) -> Cmd {
        match self.dice.below(6) {
            0 | 1 => Cmd::Stay,
            2 => Cmd::Leave,
            _ => self.cmd(),
        }
    }
}

impl Task for Visitor {
    fn work<R: Wait>(
        &mut self,
        rt: &R,
        alloc: Global,
        office: &Office,
        caller: Caller<Pass, Placed>,
    ) -> Caller<Pass, Placed> {
        let mut caller = caller;
        for _ in 0..self.turns {
            let cmd = match &caller {
                Caller::Free(_) => self.free_cmd(),
                Caller::Working(_) => self.working_cmd(),
            };
            let Asked {
                caller: next,
                answer,
            } = ask(rt, alloc, office, caller, cmd);
            if let Some(Ok(reply)) = &answer {
                self.note(&cmd, reply);
            }
            caller = next;
        }
        caller
    }

    fn lets_others_work(&self) -> bool {
        true
    }
}
