//! Calls to a market where arenas come and go, and where most workers that look for work find none.
//!
//! One arena in four asks for workers as long as it lives. The others are at rest: they ask for some on an errand, and give them back at once. So
//! what each is allotted seldom changes, all of the limit's workers are placed, and a Join goes through the arenas in vain. Any living arena may
//! close; another is opened in its stead, so that the numbers of the living have gaps. Now and then comes a season: the limit is 0 and arenas
//! have enqueued work, arenas are opened until no more may live, or controls are made until no more may.
ghost use Rattle.std.specs.Prelude.{◌<◌, ◌≤◌};

use crate::dice::Dice;
use crate::shape::Shape;
use market_types::{ArenaId, Call, Cmd, ControlId, Fault, Level, Reply, SeatNo};

/// The most arenas that live in a market.
const MOST_ARENAS: u32 = 1024;

/// An arena asks for at most so many workers.
const MOST_ASKED: u32 = 8;

/// One closing, priority or resize in so many is of an arena that asks for workers all the time.
const CHANGES_A_SHIFT: u32 = 32;

/// So many calls after a season began the next one does.
const SEASON: u32 = 8192;

/// So many calls the limit is 0.
const DROUGHT: u32 = 512;

/// What goes on in the market.
#[derive(Clone, Copy)]
enum Season {
    /// Nothing besides.
    Usual,
    /// A control is to be made that brings the limit to 0.
    Drying,
    /// The limit is 0 while the control of this number lives.
    Drought(u32),
    /// Arenas are opened until no more may live.
    Crowd,
    /// So many controls were made; more are made until no more may live.
    Controls(u32),
    /// So many of them are still to go.
    Release(u32),
}

/// Whether an arena is missing, for which another is to be opened.
#[derive(Clone, Copy)]
enum Vacancy {
    None,
    /// It is opened next.
    Now,
    /// The opening was refused. It is tried again in place of a closing.
    Later,
}

/// Calls at random of a market where arenas come and go. Who applies them tells what each was answered.
#[derive(Drop)]
pub struct Churn {
    dice: Dice,
    shape: Shape,
    /// The numbers of the living arenas. Those that ask for workers all the time come first.
    living: [u32; 1024],
    /// How many they are.
    lives: u32,
    /// The index among them of the arena that is opened or closed.
    place: u32,
    vacancy: Vacancy,
    /// The number of the newest arena.
    newest: u32,
    /// The number of the newest control.
    control: u32,
    /// A bit for each seat: whether it is placed.
    placed: u64,
    season: Season,
    /// How many calls were made.
    calls: u32,
    /// What is still to be done of an errand, the last first.
    errand: [Cmd; 8],
    /// How much that is.
    steps: u32,
}

impl Churn {
    /// For a new market of this shape.
    pub fn new(dice: Dice, shape: Shape) -> Self {
        Churn {
            dice,
            shape,
            living: [0; 1024],
            lives: 0,
            place: 0,
            vacancy: Vacancy::None,
            newest: 0,
            control: 0,
            placed: 0,
            season: Season::Usual,
            calls: 0,
            errand: [Cmd::Limit; 8],
            steps: 0,
        }
    }

    /// How many arenas ask for workers all the time.
    fn steady(&self) -> u32 {
        self.shape.arenas / 4
    }

    /// The living arena at an index.
    fn arena_at(&self, index: u32) -> ArenaId {
        ArenaId::new(self.living[(index % MOST_ARENAS) as usize])
    }

    /// The index of a living arena, of which each is as likely.
    fn some_index(&mut self) -> u32 {
        self.dice.below(self.lives.max(1))
    }

    /// The index of a living arena, seldom of one that asks for workers all the time.
    fn index_to_change(&mut self) -> u32 {
        let steady = self.steady();
        if self.dice.below(CHANGES_A_SHIFT) == 0 {
            return self.dice.below(steady.max(1));
        }
        let others = self.lives.saturating_sub(steady).max(1);
        steady.wrapping_add(self.dice.below(others))
    }

    fn some_level(&mut self) -> Level {
        Level::from_index(self.dice.below(self.shape.levels) as usize)
    }

    fn some_seat(&mut self) -> SeatNo {
        SeatNo::new(self.dice.below(u32::from(self.shape.seats)) as u8)
    }

    /// A seat of those with a bit, the next from some seat on. Any where none has one.
    fn seat_among(&mut self, seats: u64) -> SeatNo {
        let first = self.dice.below(u32::from(self.shape.seats));
        let behind = seats & (u64::MAX << first);
        let chosen = if behind == 0 { seats } else { behind };
        if chosen == 0 {
            return SeatNo::new(first as u8);
        }
        SeatNo::new(chosen.trailing_zeros() as u8)
    }

    /// The seats of the market, a bit for each.
    fn all_seats(&self) -> u64 {
        u64::MAX >> (64 - u32::from(self.shape.seats))
    }

    /// A seat that is placed, if one is.
    fn placed_seat(&mut self) -> SeatNo {
        self.seat_among(self.placed)
    }

    /// A seat that is not placed, if there is one.
    fn idle_seat(&mut self) -> SeatNo {
        let idle = !self.placed & self.all_seats();
        self.seat_among(idle)
    }

    /// A command is to be given next.
    fn plan(&mut self, cmd: Cmd) {
        self.errand[(self.steps % 8) as usize] = cmd;
        self.steps = self.steps % 8 + 1;
    }

    /// An arena is opened.
    fn open(&mut self) -> Cmd {
        let slots = self.dice.below(32) + 1;
        Cmd::Open(slots, u32::from(slots > 1), self.some_level())
    }

    /// An arena is closed, or the one is opened at last that is missing.
    fn close(&mut self) -> Cmd {
        if let Vacancy::Later = self.vacancy {
            return self.open();
        }
        self.place = self.index_to_change();
        Cmd::Close(self.arena_at(self.place))
    }

    /// An arena asks for workers and gives them back, and then a seat looks for work.
    fn usual_errand(&mut self) -> Cmd {
        let index = self.some_index();
        let arena = self.arena_at(index);
        let asked = (self.dice.below(MOST_ASKED) + 1) as i32;
        self.plan(Cmd::Join);
        self.plan(Cmd::Request(arena, -asked, 0));
        Cmd::Request(arena, asked, 0)
    }

    /// Two arenas have enqueued work, a seat looks for work, and again once that is done.
    fn errand_in_drought(&mut self) -> Cmd {
        let (first, second) = (self.some_index(), self.some_index());
        let (first, second) = (self.arena_at(first), self.arena_at(second));
        self.plan(Cmd::Join);
        self.plan(Cmd::Request(second, -1, -1));
        self.plan(Cmd::Request(first, -1, -1));
        self.plan(Cmd::Join);
        self.plan(Cmd::Request(second, 1, 1));
        Cmd::Request(first, 1, 1)
    }

    /// A call that is refused, nearly always.
    fn bad_call(&mut self) -> Call {
        let seat = self.some_seat();
        let cmd = match self.dice.below(11) {
            0 => Cmd::Open(0, 0, self.some_level()),
            1 => Cmd::Open(2, 3, self.some_level()),
            2 => match self.shape.levels {
                levels @ 0..=7 => Cmd::Open(2, 1, Level::from_index(levels as usize)),
                _ => Cmd::Close(ArenaId::new(0)),
            },
            3 => Cmd::Show(self.old_arena()),
            4 => Cmd::Request(self.old_arena(), 0, 0),
            5 => {
                let steady = self.steady();
                let index = self.dice.below(steady.max(1));
                Cmd::Request(self.arena_at(index), i32::MAX, 0)
            }
            6 => {
                let index = self.some_index();
                Cmd::Request(self.arena_at(index), 0, -1)
            }
            7 => Cmd::Control(0),
            8 => Cmd::Uncontrol(ControlId::new(0)),
            9 => {
                let seat = self.placed_seat();
                return Call {
                    seat,
                    cmd: Cmd::Join,
                };
            }
            _ => {
                let seat = self.idle_seat();
                return Call {
                    seat,
                    cmd: Cmd::Leave,
                };
            }
        };
        Call { seat, cmd }
    }

    /// An arena that may be gone: of any number that was used.
    fn old_arena(&mut self) -> ArenaId {
        ArenaId::new(self.dice.below(self.newest.max(1)))
    }

    /// The control that brings the limit to 0 goes, once that has been long enough.
    fn end_drought(&mut self, control: u32) -> Option<Cmd> {
        if self.calls % SEASON < DROUGHT {
            return None;
        }
        self.season = Season::Usual;
        Some(Cmd::Uncontrol(ControlId::new(control)))
    }

    /// One more arena is opened.
    fn open_more(&mut self) -> Cmd {
        self.place = self.lives;
        self.open()
    }

    /// The first of so many controls goes that are still to go.
    fn release(&mut self, left: u32) -> Cmd {
        let more = left.saturating_sub(1);
        self.season = if more > 0 {
            Season::Release(more)
        } else {
            Season::Usual
        };
        Cmd::Uncontrol(ControlId::new(self.control.wrapping_sub(more)))
    }

    /// What the season asks for, if anything.
    fn in_season(&mut self) -> Option<Cmd> {
        match self.season {
            Season::Usual => None,
            Season::Drying => Some(Cmd::Control(1)),
            Season::Drought(control) => self.end_drought(control),
            Season::Crowd => Some(self.open_more()),
            Season::Controls(_) => Some(Cmd::Control(self.shape.base)),
            Season::Release(left) => Some(self.release(left)),
        }
    }

    /// The season that begins, if one does.
    fn turn(&mut self) {
        if self.calls % SEASON != 0 {
            return;
        }
        self.season = match self.calls / SEASON % 3 {
            0 => Season::Controls(0),
            1 => Season::Drying,
            // Where few live it would take too long until they are few again.
            _ if self.shape.arenas >= MOST_ARENAS / 2 => Season::Crowd,
            _ => Season::Usual,
        };
    }

    /// What is given besides errands and seasons.
    fn some_call(&mut self) -> Call {
        let seat = self.some_seat();
        let cmd = match self.dice.below(130) {
            0..=29 => match self.season {
                Season::Drought(_) => self.errand_in_drought(),
                _ => self.usual_errand(),
            },
            30..=89 => {
                let index = self.some_index();
                Cmd::Show(self.arena_at(index))
            }
            90..=99 => self.close(),
            100..=104 => {
                let index = self.index_to_change();
                Cmd::Priority(self.arena_at(index), self.some_level())
            }
            105..=108 => {
                let index = self.index_to_change();
                let slots = self.dice.below(32) + 1;
                Cmd::Resize(self.arena_at(index), slots, u32::from(slots > 1))
            }
            109 => Cmd::Lists,
            110..=111 => return self.bad_call(),
            _ => Cmd::Stay,
        };
        self.call(seat, cmd)
    }

    /// A command of this seat, but a Join of one that is not placed, and a Stay of one that is.
    fn call(&mut self, seat: SeatNo, cmd: Cmd) -> Call {
        let seat = match cmd {
            Cmd::Join => self.idle_seat(),
            Cmd::Stay => self.placed_seat(),
            _ => seat,
        };
        Call { seat, cmd }
    }

    /// The next call.
    #[inline(never)]
    pub fn next_call(&mut self) -> Call {
        self.calls = self.calls.wrapping_add(1);
        let seat = SeatNo::new(0);
        if self.steps > 0 {
            self.steps -= 1;
            let cmd = self.errand[(self.steps % 8) as usize];
            return self.call(seat, cmd);
        }
        if let Vacancy::Now = self.vacancy {
            let cmd = self.open();
            return self.call(seat, cmd);
        }
        if self.lives < self.shape.arenas {
            let cmd = self.open_more();
            return self.call(seat, cmd);
        }
        self.turn();
        match self.in_season() {
            Some(cmd) => self.call(seat, cmd),
            None => self.some_call(),
        }
    }

    /// The arena was opened that was asked for.
    fn note_opened(&mut self, arena: ArenaId) {
        self.newest = arena.get();
        self.vacancy = Vacancy::None;
        self.living[(self.place % MOST_ARENAS) as usize] = arena.get();
        if self.place == self.lives {
            self.lives = self.lives.wrapping_add(1);
        }
        if self.place < self.steady() {
            let asked = (self.dice.below(MOST_ASKED) + 1) as i32;
            self.plan(Cmd::Request(arena, asked, 0));
        }
    }

    /// The arena was closed that was to be.
    fn note_closed(&mut self) {
        if self.lives <= self.shape.arenas || self.place < self.steady() {
            self.vacancy = Vacancy::Now;
            return;
        }
        // There are more than usual: the last one takes its place.
        self.lives -= 1;
        self.living[(self.place % MOST_ARENAS) as usize] = self.arena_at(self.lives).get();
    }

    /// A control was made.
    fn note_controlled(&mut self, control: ControlId) {
        self.control = control.get();
        self.season = match self.season {
            Season::Drying => Season::Drought(control.get()),
            Season::Controls(made) => Season::Controls(made.wrapping_add(1)),
            other => other,
        };
    }

    /// A call was refused.
    fn note_refused(&mut self, fault: Fault) {
        if let Fault::OutOfNumbers = fault
            && let Vacancy::Now = self.vacancy
        {
            self.vacancy = Vacancy::Later;
            return;
        }
        self.season = match (self.season, fault) {
            (Season::Crowd, Fault::TooManyArenas | Fault::OutOfNumbers) => Season::Usual,
            (Season::Drying, Fault::OutOfNumbers) => Season::Usual,
            (Season::Controls(made), Fault::TooManyControls | Fault::OutOfNumbers) => {
                Season::Release(made)
            }
            (other, _) => other,
        };
    }

    /// What a call was answered.
    #[inline(never)]
    pub fn note(&mut self, seat: SeatNo, reply: &Reply) {
        let bit = 1u64 << (u32::from(seat.get()) % 64);
        match reply {
            Reply::Opened(arena) => self.note_opened(*arena),
            Reply::Closed => self.note_closed(),
            Reply::Controlled(control) => self.note_controlled(*control),
            Reply::Placed(_) => self.placed |= bit,
            Reply::Recalled(_) | Reply::Left(_) => self.placed &= !bit,
            Reply::Refused(fault) => self.note_refused(*fault),
            _ => {}
        }
    }
}
