//! At which arena each seat is placed.
ghost use Rattle.std.specs.Prelude.{◌≡◌, ◌≤◌, ◌<◌, None, Some, length, replicate, is_some, slice_get, slice_set, IfOk};
ghost use Rattle.std.specs.List.{count_by};
ghost use Rattle.market_types.specs.Allotment.{is_just};

use crate::crowd::{Crowd, grow, shrink, size_of};
use crate::slots::SlotTable;
use market_types::{ArenaId, SeatNo};
use std::alloc::{AllocError, Global};
use std::marker::Model;

/// For each seat the arena that it is placed at, if any.
#[derive(Drop)]
pub struct Roster {
    seats: Vec<Option<ArenaId>>,
    /// How many seats are placed.
    placed: u32,
    /// The arenas where somebody is placed, so that their seats need not be counted again.
    crowds: Vec<Crowd>,
    /// Where their crowds are found, and which arenas have none.
    slots: SlotTable,
}

impl Model for Roster {
    ghost use Rattle.std.specs.Prelude.{ℕ, List, Option};
    ghost use Rattle.std.specs.Vec.{vec_capacity};
    ghost use Rattle.recall_hire.specs.Crowds.{IsCounted};

    ghost Value = { List (Option ℕ) };

    ghost view = { λ r. r.seats.items };

    ghost invariant = { λ r. IsCounted r.seats.items r.placed r.crowds.items (vec_capacity r.crowds) r.slots };
}

impl Roster {
    /// So many seats, 1 to 64, none of them placed. Takes the memory of all that comes: no other call takes any.
    pub fn new(alloc: Global, seats: u8) -> Result<Self, AllocError>
        requires some { 1 ≤ seats }
        requires few { seats ≤ 64 }
        ensures unplaced { IfOk result (λ roster. roster ≡ replicate seats None) }
    {
        Ok(Roster {
            seats: vec![in alloc; None; usize::from(seats)]?,
            placed: 0,
            crowds: Vec::with_capacity(alloc, usize::from(seats))?,
            slots: SlotTable::new(alloc)?,
        })
    }

    /// How many seats there are.
    pub fn seats(&self) -> u8
        ensures exact { result ≡ length self.now }
    {
        self.seats.len() as u8
    }

    /// The arena that a seat is placed at.
    pub fn at(&self, seat: SeatNo) -> Option<ArenaId>
        requires known { seat < length self.now }
        ensures exact { slice_get self.now seat ≡ Some result }
    {
        self.seats[usize::from(seat.get())]
    }

    /// Places a seat that is not placed.
    pub fn place(&mut self, seat: SeatNo, arena: ArenaId)
        requires known { seat < length self.old }
        requires unplaced { slice_get self.old seat ≡ Some None }
        ensures placed { self.new ≡ slice_set self.old seat (Some arena) }
    {
        let index = usize::from(seat.get());
        self.seats[index] = Some(arena);
        self.placed += 1;
        grow(&mut self.crowds, &mut self.slots, arena);
        self.slots.add(arena);
    }

    /// Takes a seat from its arena, and gives that arena; nothing happens where it is not placed.
    pub fn unplace(&mut self, seat: SeatNo) -> Option<ArenaId>
        requires known { seat < length self.old }
        ensures was { slice_get self.old seat ≡ Some result }
        ensures unplaced { self.new ≡ slice_set self.old seat None }
    {
        let index = usize::from(seat.get());
        let was = self.seats[index];
        if let Some(arena) = was {
            self.seats[index] = None;
            self.placed -= 1;
            shrink(&mut self.crowds, &mut self.slots, arena);
            self.slots.remove(arena);
        }
        was
    }

    /// How many seats are placed at an arena. Takes a fixed time where no other arena of its slot has or had seats beside it,
    /// which is one whose number differs by a multiple of 1,024; else it looks at 64 entries at most.
    pub fn active(&self, arena: ArenaId) -> u32
        ensures exact { result ≡ count_by (is_just arena) self.now }
        ensures few { result ≤ 64 }
    {
        size_of(&self.crowds, self.slots.slot_of(arena), arena)
    }

    /// How many seats are placed. Takes a fixed time.
    pub fn placed(&self) -> u32
        ensures exact { result ≡ count_by is_some self.now }
        ensures few { result ≤ 64 }
    {
        self.placed
    }
}
