//! How many seats are placed at an arena, for each arena that has some.
ghost use Rattle.std.specs.Prelude.{◌≡◌, ℕ, ◌+◌, ◌%◌, ◌<◌, ◌≤◌, ◌==◌, IfSome, IfNone, length};
ghost use Rattle.std.specs.Vec.{vec_capacity};
ghost use Rattle.recall_hire.specs.Crowds.{IsTable, size_at, total_size, one_if, arena_at};
ghost use Rattle.recall_hire.specs.Slots.{seats_in};

use crate::slots::{Slot, SlotTable};
use market_types::ArenaId;

/// The seats that are placed at an arena.
#[derive(Clone, Copy)]
pub struct Crowd {
    pub arena: ArenaId,
    /// How many they are, at least 1.
    pub size: u32,
}

/// The index of an arena's crowd, if it has one. Looks at no crowd where the arena's slot has no seats, at one where the
/// slot's hint is right, and else at all of them.
fn index_of(crowds: &[Crowd], slot: Slot, arena: ArenaId) -> Option<usize>
    requires counted { size_at arena crowds.now ≤ slot.seats }
    ensures here { IfSome result (λ index. arena_at index crowds.now ≡ Some arena) }
    ensures nowhere { IfNone result (size_at arena crowds.now ≡ 0) }
{
    if slot.seats == 0 {
        return None;
    }
    let hint = usize::from(slot.hint);
    match crowds.get(hint) {
        Some(crowd) if crowd.arena == arena => Some(hint),
        _ => search(crowds, arena),
    }
}

/// The index of an arena's crowd, if it has one, by a look at each crowd.
fn search(crowds: &[Crowd], arena: ArenaId) -> Option<usize>
    ensures here { IfSome result (λ index. arena_at index crowds.now ≡ Some arena) }
    ensures nowhere { IfNone result (size_at arena crowds.now ≡ 0) }
{
    for index in 0..crowds.len() {
        if crowds[index].arena == arena {
            return Some(index);
        }
    }
    None
}

/// How many seats are placed at an arena, of this slot.
pub fn size_of(crowds: &[Crowd], slot: Slot, arena: ArenaId) -> u32
    requires kept { IsTable crowds.now }
    requires counted { size_at arena crowds.now ≤ slot.seats }
    ensures { result ≡ size_at arena crowds.now }
{
    match index_of(crowds, slot, arena) {
        Some(index) => crowds[index].size,
        None => 0,
    }
}

/// One seat more at an arena.
pub fn grow(crowds: &mut Vec<Crowd>, slots: &mut SlotTable, arena: ArenaId)
    requires kept { IsTable crowds.old.items }
    requires counted { size_at arena crowds.old.items ≤ seats_in (arena % 1024) slots.old }
    requires room { total_size crowds.old.items < vec_capacity crowds.old }
    requires few { total_size crowds.old.items < 64 }
    ensures kept { IsTable crowds.new.items }
    ensures sizes { (a : ℕ) → size_at a crowds.new.items ≡ size_at a crowds.old.items + one_if (arena == a) }
    ensures total { total_size crowds.new.items ≡ total_size crowds.old.items + 1 }
    ensures capacity { vec_capacity crowds.new ≡ vec_capacity crowds.old }
    ensures slots { (i : ℕ) → seats_in i slots.new ≡ seats_in i slots.old }
{
    match index_of(crowds, slots.slot_of(arena), arena) {
        Some(index) => crowds[index].size += 1,
        None => {
            slots.point(arena, crowds.len() as u8);
            crowds.push_reserved(Crowd { arena, size: 1 });
        }
    }
}

/// One seat less at an arena that has some.
pub fn shrink(crowds: &mut Vec<Crowd>, slots: &mut SlotTable, arena: ArenaId)
    requires kept { IsTable crowds.old.items }
    requires counted { size_at arena crowds.old.items ≤ seats_in (arena % 1024) slots.old }
    requires some { 0 < size_at arena crowds.old.items }
    requires few { total_size crowds.old.items ≤ 64 }
    ensures kept { IsTable crowds.new.items }
    ensures sizes { (a : ℕ) → size_at a crowds.old.items ≡ size_at a crowds.new.items + one_if (arena == a) }
    ensures total { total_size crowds.old.items ≡ total_size crowds.new.items + 1 }
    ensures capacity { vec_capacity crowds.new ≡ vec_capacity crowds.old }
    ensures slots { (i : ℕ) → seats_in i slots.new ≡ seats_in i slots.old }
{
    if let Some(index) = index_of(crowds, slots.slot_of(arena), arena) {
        if crowds[index].size > 1 {
            crowds[index].size -= 1;
        } else {
            crowds.swap_remove(index);
            point_at(slots, crowds, index);
        }
    }
}

/// Notes where the crowd at an index stands, if there is one.
fn point_at(slots: &mut SlotTable, crowds: &[Crowd], index: usize)
    requires few { length crowds.now ≤ 64 }
    ensures slots { (i : ℕ) → seats_in i slots.new ≡ seats_in i slots.old }
{
    if let Some(crowd) = crowds.get(index) {
        slots.point(crowd.arena, index as u8);
    }
}
