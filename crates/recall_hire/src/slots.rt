//! How many seats are placed at the arenas of each slot. An arena's slot is the remainder of its number.
ghost use Rattle.std.specs.Prelude.{◌≡◌, ℕ, ◌+◌, ◌%◌, ◌<◌, ◌==◌, IfOk};
ghost use Rattle.recall_hire.specs.Crowds.{one_if};
ghost use Rattle.recall_hire.specs.Slots.{hint_in, seats_in};

use market_types::ArenaId;
use std::alloc::{AllocError, Global};
use std::marker::Model;

/// How many slots there are. Arenas share one where their numbers leave the same remainder.
const SLOTS: u32 = 1024;

/// What is kept for the arenas of a slot.
#[derive(Clone, Copy)]
pub struct Slot {
    /// How many seats are placed at them together.
    pub seats: u8,
    /// Where the crowd of one of them was put last. Another crowd may stand there, or none.
    pub hint: u8,
}

/// The slots by their remainders.
#[derive(Drop)]
pub struct SlotTable {
    slots: Vec<Slot>,
}

impl Model for SlotTable {
    ghost use Rattle.std.specs.Prelude.{◌≡◌, List, length};
    ghost use Rattle.recall_hire.specs.declared.slots.Slot.{Slot};

    ghost Value = { List Slot };

    ghost view = { λ t. t.slots.items };

    ghost invariant = { λ t. length t.slots.items ≡ 1024 };
}

impl SlotTable {
    /// The slots of arenas where nobody is placed.
    pub fn new(alloc: Global) -> Result<Self, AllocError>
        ensures empty { IfOk result (λ table. (i : ℕ) → seats_in i table ≡ 0) }
    {
        Ok(SlotTable {
            slots: vec![in alloc; Slot { seats: 0, hint: 0 }; SLOTS as usize]?,
        })
    }

    /// The slot of an arena.
    pub fn slot_of(&self, arena: ArenaId) -> Slot
        ensures seats { result.seats ≡ seats_in (arena % 1024) self.now }
        ensures hint { result.hint ≡ hint_in (arena % 1024) self.now }
    {
        self.slots[index_of(arena)]
    }

    /// One seat more at an arena.
    pub fn add(&mut self, arena: ArenaId)
        requires room { seats_in (arena % 1024) self.old < 255 }
        ensures seats { (i : ℕ) → seats_in i self.new ≡ seats_in i self.old + one_if (arena % 1024 == i) }
    {
        self.slots[index_of(arena)].seats += 1;
    }

    /// One seat less at an arena.
    pub fn remove(&mut self, arena: ArenaId)
        requires some { 0 < seats_in (arena % 1024) self.old }
        ensures seats { (i : ℕ) → seats_in i self.old ≡ seats_in i self.new + one_if (arena % 1024 == i) }
    {
        self.slots[index_of(arena)].seats -= 1;
    }

    /// Notes where an arena's crowd stands.
    pub fn point(&mut self, arena: ArenaId, hint: u8)
        ensures seats { (i : ℕ) → seats_in i self.new ≡ seats_in i self.old }
        ensures noted { hint_in (arena % 1024) self.new ≡ hint }
    {
        self.slots[index_of(arena)].hint = hint;
    }
}

/// The index of an arena's slot.
#[inline(always)]
fn index_of(arena: ArenaId) -> usize
    ensures exact { result ≡ arena % 1024 }
    ensures below { result < 1024 }
{
    (arena.get() % SLOTS) as usize
}
