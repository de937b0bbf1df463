//! A caller that takes the same turn again and again.
ghost use Rattle.std.specs.Prelude.{◌≡◌, false};
ghost use Rattle.market_types.specs.Commands.{moves_seat};
ghost use Rattle.market_lock.specs.Seen.{IsSamePass};
ghost use Rattle.office_crew.specs.Callers.{who_is};

use edit_history::Keeping;
use market_lock::{Joined, Office, Pass, Placed, Stayed};
use market_types::{ArenaId, Cmd, Entry, Level};
use office_crew::{Asked, Caller, Task, ask};
use std::alloc::Global;
use std::sync::Wait;

/// How many seats an office has at most: a vector that entries are cut into has room for each.
const MOST_SEATS: usize = 64;

/// What a turn is.
#[derive(Clone, Copy)]
pub enum Turn {
    /// The lock alone: the desk is taken, asked for entries that it does not cut out, and given back.
    Lock,
    /// A Request, by one worker more and then by one less.
    Request,
    /// The same, and the entries are cut out after some 100,000 calls each time.
    RequestInParts,
    /// The same, and no entry is kept.
    RequestUnrecorded,
    /// A Limit, whose own work is next to nothing, and no entry is kept.
    LimitUnrecorded,
    /// A Show.
    Show,
    /// A Join, a Stay and a Leave.
    Visit,
}

impl Turn {
    /// Every turn, as the table has them.
    pub const ALL: [Turn; 7] = [
        Turn::Lock,
        Turn::Request,
        Turn::RequestInParts,
        Turn::RequestUnrecorded,
        Turn::LimitUnrecorded,
        Turn::Show,
        Turn::Visit,
    ];

    /// What the table calls it.
    pub fn name(self) -> &'static str {
        match self {
            Turn::Lock => "lock alone",
            Turn::Request => "request",
            Turn::RequestInParts => "request, in parts",
            Turn::RequestUnrecorded => "request, no record",
            Turn::LimitUnrecorded => "limit, no record",
            Turn::Show => "show",
            Turn::Visit => "join, stay, leave",
        }
    }

    /// How many turns all callers take together.
    pub fn times(self) -> u32 {
        match self {
            Turn::Visit => 80_000,
            _ => 240_000,
        }
    }

    /// Which entries its office keeps.
    pub fn keeping(self) -> Keeping {
        match self {
            Turn::RequestInParts => Keeping::InParts,
            Turn::RequestUnrecorded | Turn::LimitUnrecorded => Keeping::Nothing,
            _ => Keeping::Everything,
        }
    }
}

/// Takes its turns. The one of seat 0 opens the arenas before.
#[derive(Drop)]
pub struct Repeater {
    pub turn: Turn,
    pub times: u32,
    pub opens: bool,
    /// How many arenas there are, no fewer than 1.
    pub arenas: u32,
    /// It cuts entries out each time that it has called so often, if it does.
    pub cuts: Option<u32>,
}

impl Repeater {
    /// The arena of this turn: near ones in far turns. There is no division, which would take a part of what is measured.
    fn arena(&self, index: u32) -> ArenaId {
        let scattered = u64::from(index.wrapping_mul(2_654_435_761));
        let place = (scattered * u64::from(self.arenas)) >> 32;
        ArenaId::new(u32::try_from(place).unwrap_or(0).saturating_add(1))
    }

    /// The command of a turn that moves no seat.
    pub fn cmd(&self, index: u32) -> Cmd
        ensures still { moves_seat result ≡ false }
    {
        match self.turn {
            Turn::LimitUnrecorded => Cmd::Limit,
            Turn::Lock | Turn::Show | Turn::Visit => Cmd::Show(self.arena(index)),
            _ if index % 2 == 0 => Cmd::Request(self.arena(index), 1, 0),
            _ => Cmd::Request(self.arena(index), -1, 0),
        }
    }

    /// Opens the arenas, each of which asks for three workers.
    fn open<R: Wait>(
        &self,
        rt: &R,
        alloc: Global,
        office: &Office,
        caller: Caller<Pass, Placed>,
    ) -> Caller<Pass, Placed>
        requires office { (who_is caller).table ≡ office.now.table }
        ensures same { IsSamePass (who_is caller) (who_is result) }
    {
        let mut caller = caller;
        for index in 0..self.arenas {
            let level = Level::from_index((index % 3) as usize);
            caller = give(rt, alloc, office, caller, Cmd::Open(8, 1, level));
            let arena = ArenaId::new(index.saturating_add(1));
            caller = give(rt, alloc, office, caller, Cmd::Request(arena, 3, 0));
        }
        caller
    }
}

/// Gives a command.
fn give<R: Wait>(
    rt: &R,
    alloc: Global,
    office: &Office,
    caller: Caller<Pass, Placed>,
    cmd: Cmd,
) -> Caller<Pass, Placed>
    requires office { (who_is caller).table ≡ office.now.table }
    ensures same { IsSamePass (who_is caller) (who_is result) }
{
    let Asked { caller, answer: _ } = ask(rt, alloc, office, caller, cmd);
    caller
}

/// Joins, stays and leaves.
fn visit<R: Wait>(rt: &R, alloc: Global, office: &Office, pass: Pass) -> Pass
    requires office { pass.table ≡ office.now.table }
    ensures same { IsSamePass pass result }
{
    match office.join(rt, alloc, pass) {
        Joined::Placed(worker) => match office.stay(rt, alloc, worker) {
            Stayed::Stays(worker) => office.leave(rt, worker),
            Stayed::Recalled(pass) => pass,
            Stayed::Failed(worker, _) => office.leave(rt, worker),
        },
        Joined::Idle(pass) => pass,
        Joined::Failed(pass, _) => pass,
    }
}

/// Cuts the entries out. What comes back is room for the next ones.
fn cut_out<R: Wait>(
    rt: &R,
    alloc: Global,
    office: &Office,
    pass: &mut Pass,
    spare: Vec<Entry>,
) -> Vec<Entry>
    requires office { pass.old.table ≡ office.now.table }
    ensures same { IsSamePass pass.old pass.new }
{
    match office.cut(rt, pass, spare) {
        Some(part) => part.entries,
        None => Vec::new(alloc),
    }
}

impl Repeater {
    /// Whether it cuts entries out after this turn.
    fn cuts_after(&self, index: u32) -> bool {
        match self.cuts {
            Some(turns) => index.checked_rem(turns) == turns.checked_sub(1),
            None => false,
        }
    }

    /// Takes all turns that move no seat.
    fn call_all<R: Wait>(&self, rt: &R, alloc: Global, office: &Office, pass: Pass) -> Pass
        requires office { pass.table ≡ office.now.table }
        ensures same { IsSamePass pass result }
    {
        let mut pass = pass;
        let mut spare = Vec::with_capacity(alloc, MOST_SEATS).unwrap_or(Vec::new(alloc));
        for index in 0..self.times {
            drop(office.call(rt, alloc, &mut pass, self.cmd(index)));
            if self.cuts_after(index) {
                spare = cut_out(rt, alloc, office, &mut pass, spare);
            }
        }
        pass
    }

    /// Takes all turns of the lock alone.
    fn lock_all<R: Wait>(&self, rt: &R, alloc: Global, office: &Office, pass: Pass) -> Pass
        requires office { pass.table ≡ office.now.table }
        ensures same { IsSamePass pass result }
    {
        let mut pass = pass;
        let mut spare = Vec::new(alloc);
        for _ in 0..self.times {
            spare = cut_out(rt, alloc, office, &mut pass, spare);
        }
        pass
    }

    /// Takes all turns that move a seat.
    fn visit_all<R: Wait>(&self, rt: &R, alloc: Global, office: &Office, pass: Pass) -> Pass
        requires office { pass.table ≡ office.now.table }
        ensures same { IsSamePass pass result }
    {
        let mut pass = pass;
        for _ in 0..self.times {
            pass = visit(rt, alloc, office, pass);
        }
        pass
    }
}

impl Repeater {
    /// Takes all turns.
    fn take_all<R: Wait>(&self, rt: &R, alloc: Global, office: &Office, pass: Pass) -> Pass
        requires office { pass.table ≡ office.now.table }
        ensures same { IsSamePass pass result }
    {
        match self.turn {
            Turn::Lock => self.lock_all(rt, alloc, office, pass),
            Turn::Visit => self.visit_all(rt, alloc, office, pass),
            _ => self.call_all(rt, alloc, office, pass),
        }
    }
}

impl Task for Repeater {
    fn work<R: Wait>(
        &mut self,
        rt: &R,
        alloc: Global,
        office: &Office,
        caller: Caller<Pass, Placed>,
    ) -> Caller<Pass, Placed> {
        let mut caller = caller;
        if self.opens {
            caller = self.open(rt, alloc, office, caller);
        }
        match caller {
            Caller::Free(pass) => Caller::Free(self.take_all(rt, alloc, office, pass)),
            Caller::Working(worker) => Caller::Working(worker),
        }
    }

    fn lets_others_work(&self) -> bool {
        true
    }
}
