//! What came out, as one number.
ghost use Rattle.std.specs.Prelude.{None, false};

use byte_devices::{DeviceFault, Sink};
use market_types::{ArenaView, Correction, Fault, LimitView, Lists, Reply};

/// How many bytes are mixed in at a time.
const WORD: usize = 8;

/// A number for each fault, and the number that it tells.
fn parts_of(fault: Fault) -> (u32, u32) {
    match fault {
        Fault::BadSlots => (101, 0),
        Fault::BadReserve => (102, 0),
        Fault::TooManyArenas => (103, 0),
        Fault::OutOfNumbers => (104, 0),
        Fault::NoArena => (105, 0),
        Fault::Busy(seats) => (106, seats),
        Fault::WantedRange => (107, 0),
        Fault::MandatoryRange => (108, 0),
        Fault::BadValue => (109, 0),
        Fault::TooManyControls => (110, 0),
        Fault::NoControl => (111, 0),
        Fault::AlreadyPlaced(arena) => (112, arena.get()),
        Fault::NotPlaced => (113, 0),
        Fault::BadLevel => (114, 0),
    }
}

/// A number for all bytes that a sink takes, in whatever pieces they come, and for all numbers that are mixed in.
#[derive(Drop)]
pub struct Digest {
    sum: u64,
    /// The bytes that do not make a word yet, the first of them lowest.
    word: u64,
    /// How many bytes were taken.
    count: u64,
}

impl Digest {
    /// Of nothing.
    pub fn new() -> Self {
        Digest {
            sum: 0,
            word: 0,
            count: 0,
        }
    }

    /// Mixes a number in.
    #[inline(always)]
    pub fn mix(&mut self, number: u64) {
        self.sum = (self.sum ^ number)
            .wrapping_mul(0x9E37_79B9_7F4A_7C15)
            .rotate_left(29);
    }

    /// Takes one byte.
    fn take_byte(&mut self, byte: u8) {
        self.word = (self.word >> 8) | (u64::from(byte) << 56);
        self.count = self.count.wrapping_add(1);
        if self.count % 8 == 0 {
            self.mix(self.word);
        }
    }

    /// Takes bytes, one by one.
    fn take_bytes(&mut self, bytes: &[u8]) {
        for byte in bytes {
            self.take_byte(*byte);
        }
    }

    /// Takes whole words.
    fn take_words(&mut self, bytes: &[u8]) {
        for word in bytes.chunks_exact(WORD) {
            if let [a, b, c, d, e, f, g, h] = word {
                self.mix(u64::from_le_bytes([*a, *b, *c, *d, *e, *f, *g, *h]));
            }
        }
        self.count = self.count.wrapping_add(bytes.len() as u64);
    }

    /// Takes bytes.
    fn take(&mut self, bytes: &[u8]) {
        let room = (WORD - (self.count % 8) as usize) % WORD;
        let (begun, rest) = bytes.split_at(room.min(bytes.len()));
        self.take_bytes(begun);
        let (words, rest) = rest.split_at(rest.len() - rest.len() % WORD);
        self.take_words(words);
        self.take_bytes(rest);
    }

    /// Mixes two numbers of 32 bits in.
    #[inline(always)]
    fn mix_both(&mut self, high: u32, low: u32) {
        self.mix(u64::from(high) << 32 | u64::from(low));
    }

    /// Mixes what is seen of an arena in.
    fn mix_view(&mut self, view: &ArenaView) {
        self.mix_both(view.arena.get(), view.request);
        self.mix_both(view.allot, view.active);
        self.mix_both(view.recall, view.hire);
        self.mix(u64::from(view.top));
    }

    /// Mixes what is listed of arenas in.
    #[inline(always)]
    fn mix_lists(&mut self, lists: &Lists) {
        self.mix(lists.arenas.len() as u64);
        for listed in &lists.arenas {
            self.mix_both(listed.arena.get(), listed.count);
            self.mix(u64::from(listed.correction == Correction::Hire));
        }
    }

    /// Mixes the limits on parallelism in.
    #[inline(always)]
    fn mix_limits(&mut self, limits: &LimitView) {
        self.mix_both(limits.value, limits.limit);
        self.mix_both(13, limits.effective);
    }

    /// Mixes in why a call was refused.
    #[inline(always)]
    fn mix_fault(&mut self, fault: Fault) {
        let (code, number) = parts_of(fault);
        self.mix_both(code, number);
    }

    /// Mixes in what a reply says of the seat that called, if it is such a one.
    #[inline(always)]
    fn mix_of_seat(&mut self, reply: &Reply) {
        match reply {
            Reply::Placed(arena) => self.mix_both(8, arena.get()),
            Reply::Idle => self.mix_both(9, 0),
            Reply::Stays(arena) => self.mix_both(10, arena.get()),
            Reply::Recalled(arena) => self.mix_both(11, arena.get()),
            Reply::Left(arena) => self.mix_both(12, arena.get()),
            _ => {}
        }
    }

    /// Mixes what a reply says in.
    pub fn mix_reply(&mut self, reply: &Reply) {
        match reply {
            Reply::Opened(arena) => self.mix_both(1, arena.get()),
            Reply::Closed => self.mix_both(2, 0),
            Reply::Moved => self.mix_both(3, 0),
            Reply::Resized(request) => self.mix_both(4, *request),
            Reply::Requested(request) => self.mix_both(5, *request),
            Reply::Controlled(control) => self.mix_both(6, control.get()),
            Reply::Uncontrolled => self.mix_both(7, 0),
            Reply::Shown(view) => self.mix_view(view),
            Reply::Listed(lists) => self.mix_lists(lists),
            Reply::Limits(limits) => self.mix_limits(limits),
            Reply::Refused(fault) => self.mix_fault(*fault),
            of_seat => self.mix_of_seat(of_seat),
        }
    }

    /// The number.
    pub fn value(&self) -> u64 {
        (self.sum ^ self.word).wrapping_add(self.count)
    }
}

impl Sink for Digest {
    ghost taken = { λ _. None };

    ghost failed = { λ _. false };

    fn write(&mut self, bytes: &[u8]) -> Result<usize, DeviceFault> {
        self.take(bytes);
        Ok(bytes.len())
    }

    fn failed(&self) -> bool {
        false
    }
}
