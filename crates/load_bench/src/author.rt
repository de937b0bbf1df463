//! Calls as the seats of a long-lived market give them.
ghost use Rattle.std.specs.Prelude.{◌<◌};

use crate::dice::Dice;
use crate::shape::Shape;
use market_types::{ArenaId, Call, Cmd, ControlId, Level, SeatNo};

/// An arena asks for at most so many workers more at a time.
const MOST_ASKED: u32 = 8;

/// What a visiting arena does next.
#[derive(Clone, Copy)]
enum Errand {
    /// It is to ask for workers.
    Ask,
    /// It is to be shown.
    Show,
    /// It is to give its workers back.
    GiveBack,
    /// It is to be closed.
    Close,
}

/// Calls at random: mostly requests, shows, and workers that join, stay and leave. First the arenas are opened that live all the
/// time, and ask for workers; now and then an arena comes for one errand.
#[derive(Drop)]
pub struct Author {
    dice: Dice,
    shape: Shape,
    /// How many arenas were opened that live all the time.
    opened: u32,
    /// How many of them have asked for workers.
    asking: u32,
    /// What each arena asks for, by the remainder of its number.
    asked: [u8; 1024],
    /// How far each seat is with its visit.
    steps: [u8; 64],
    /// The number of the next arena.
    arena: u32,
    /// The number of the next control.
    control: u32,
    /// A control lives.
    controlled: bool,
    errand: Option<Errand>,
}

impl Author {
    /// For a new market of this shape.
    pub fn new(dice: Dice, shape: Shape) -> Self {
        Author {
            dice,
            shape,
            opened: 0,
            asking: 0,
            asked: [0; 1024],
            steps: [0; 64],
            arena: 1,
            control: 1,
            controlled: false,
            errand: None,
        }
    }

    /// An arena that lives all the time.
    fn some_arena(&mut self) -> ArenaId {
        ArenaId::new(self.dice.below(self.shape.arenas).wrapping_add(1))
    }

    fn some_level(&mut self) -> Level {
        Level::from_index(self.dice.below(self.shape.levels) as usize)
    }

    /// An arena is opened, and gets the next number.
    fn open(&mut self) -> Cmd {
        self.arena = self.arena.wrapping_add(1);
        let slots = self.dice.below(32) + 1;
        Cmd::Open(slots, u32::from(slots > 1), self.some_level())
    }

    /// An arena asks for workers, or gives those back that it asked for.
    fn request(&mut self, arena: ArenaId) -> Cmd {
        let index = (arena.get() % 1024) as usize;
        let asked = u32::from(self.asked[index]);
        if asked >= MOST_ASKED {
            self.asked[index] = 0;
            return Cmd::Request(arena, -(asked.min(255) as i32), 0);
        }
        let more = self.dice.below(MOST_ASKED) + 1;
        self.asked[index] = (asked + more) as u8;
        Cmd::Request(arena, more as i32, 0)
    }

    /// What a seat does next on its visit.
    fn visit(&mut self, seat: u8) -> Cmd {
        let index = usize::from(seat % 64);
        let step = self.steps[index];
        self.steps[index] = if step < 4 { step + 1 } else { 0 };
        match step {
            0 => Cmd::Join,
            1..=3 => Cmd::Stay,
            _ => Cmd::Leave,
        }
    }

    /// What the visiting arena does.
    fn go_on(&mut self, errand: Errand) -> Cmd {
        let arena = ArenaId::new(self.arena.wrapping_sub(1));
        let (cmd, next) = match errand {
            Errand::Ask => (Cmd::Request(arena, 3, 1), Some(Errand::Show)),
            Errand::Show => (Cmd::Show(arena), Some(Errand::GiveBack)),
            Errand::GiveBack => (Cmd::Request(arena, -3, -1), Some(Errand::Close)),
            Errand::Close => (Cmd::Close(arena), None),
        };
        self.errand = next;
        cmd
    }

    /// A control is made, or goes again.
    fn limit(&mut self) -> Cmd {
        self.controlled = !self.controlled;
        if self.controlled {
            self.control = self.control.wrapping_add(1);
            let base = self.shape.base;
            return Cmd::Control(base / 2 + self.dice.below(base) + 1);
        }
        Cmd::Uncontrol(ControlId::new(self.control.wrapping_sub(1)))
    }

    /// What a seat asks for.
    fn some_cmd(&mut self, seat: u8) -> Cmd {
        match self.dice.below(1000) {
            0..=379 => {
                let arena = self.some_arena();
                self.request(arena)
            }
            380..=599 => Cmd::Show(self.some_arena()),
            600..=889 => self.visit(seat),
            890..=919 => {
                self.errand = Some(Errand::Ask);
                self.open()
            }
            920..=939 => Cmd::Priority(self.some_arena(), self.some_level()),
            940..=959 => {
                let slots = self.dice.below(32) + 1;
                Cmd::Resize(self.some_arena(), slots, u32::from(slots > 1))
            }
            960..=969 => Cmd::Lists,
            970..=984 => Cmd::Limit,
            _ => self.limit(),
        }
    }

    /// The next command of this seat.
    fn next_cmd(&mut self, seat: u8) -> Cmd {
        if self.opened < self.shape.arenas {
            self.opened += 1;
            return self.open();
        }
        if self.asking < self.shape.arenas {
            self.asking += 1;
            return self.request(ArenaId::new(self.asking));
        }
        match self.errand {
            Some(errand) => self.go_on(errand),
            None => self.some_cmd(seat),
        }
    }

    /// The next call.
    pub fn next_call(&mut self) -> Call {
        let seat = self.dice.below(u32::from(self.shape.seats)) as u8;
        Call {
            seat: SeatNo::new(seat),
            cmd: self.next_cmd(seat),
        }
    }

    /// One of so many things.
    pub fn choose(&mut self, bound: u32) -> u32
        requires { 0 < bound }
        ensures { result < bound }
    {
        self.dice.below(bound)
    }
}
