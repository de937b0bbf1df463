//! The table that finds an arena by its number.
//!
//! An arena stays at the place at which it was put. Beside the records lie the numbers of the living arenas, sorted, with the
//! place of each. A new number is the greatest, so it goes to the end; where an arena goes, the later numbers and places move
//! down, by 6 bytes an arena. A place that is left is free, and is used again. Here arenas 4, 6 and 8 live:
//!
//! ```text
//! keys     4  6  8         records   0: 8   1: -   2: 4   3: 6
//! places   2  3  0         free      1
//!
//! hints    0: 0   1: 0   2: 3   3: 0       as if there were four of them
//! ```
//!
//! Where arenas come and go in any order their numbers have gaps, and a search among them guesses wrongly at every second
//! step. So a hint says, for each remainder of a number by the count of hints, at which place an arena with it was put last.
//! A hint is never trusted: where another arena stands at its place, or none, the sorted numbers are searched. Above, hint 0
//! was 4's until 8 came; a search for 4 that is to change it gives it the hint back.
ghost use Rattle.std.specs.Prelude.{◌≡◌, ◌≢◌, ◌<◌, ◌%◌, ◌++◌, ◌∷◌, [], length, slice_index_or, slice_set, IfNone, IfSome, OnOk, vec_len, vec_capacity};
ghost use Rattle.std.specs.List.{All, remove};
ghost use Rattle.market_types.specs.State.{Arena};
ghost use Rattle.arena_store.specs.Store.{IsByNumber};
ghost use Rattle.arena_store.specs.Held.{index_in};

use crate::lookup::index_of;
use crate::stored_arena::StoredArena;
use market_types::ArenaId;
use std::alloc::{AllocError, Global};
use std::marker::Model;
use std::mem;

/// How many hints there are: a power of two, so that a remainder takes no division.
const HINTS: usize = 2048;

/// An arena at its place. Contracts see the arena alone.
#[derive(Drop)]
struct Kept {
    arena: StoredArena,
    /// The leaf of its level that had its row last: where to look first. Nothing but speed rests on it.
    near: u8,
}

impl Model for Kept {
    ghost use Rattle.market_types.specs.State.{Arena};

    ghost Value = { Arena };

    ghost view = { λ k. k.arena };
}

impl Kept {
    /// The arena.
    #[inline(always)]
    fn arena(&self) -> StoredArena
        ensures { result ≡ self.now }
    {
        self.arena
    }
}

/// Arenas, found by number. Contracts see them as a list by rising number, with the place of each.
#[derive(Drop)]
pub struct Table {
    /// The numbers of the arenas, rising.
    keys: Vec<u32>,
    /// The place of each.
    places: Vec<u16>,
    /// The arenas, each at its place.
    records: Vec<Option<Kept>>,
    /// The places at which no arena stands.
    free: Vec<u16>,
    /// By the remainder of a number, the place to look at first; empty before the first arena.
    hints: Vec<u16>,
}

impl Model for Table {
    ghost use Rattle.std.specs.Prelude.{length, vec_capacity};
    ghost use Rattle.arena_store.specs.Held.{Held, arenas_at, IsInPlace, HasRoom};

    ghost Value = { Held };

    ghost view = { λ t. record {
      arenas = arenas_at t.records.items t.places.items;
      places = t.places.items;
      spare = length t.free.items;
    } };

    ghost invariant = { λ t. IsInPlace t.keys.items t.places.items t.free.items t.records.items
        × HasRoom (length t.records.items) (vec_capacity t.keys) (vec_capacity t.places) (vec_capacity t.free) };
}

impl Table {
    /// No arena.
    pub fn new(alloc: Global) -> Self
        ensures { result ≡ record { arenas = []; places = []; spare = 0 } }
    {
        Table {
            keys: Vec::new(alloc),
            places: Vec::new(alloc),
            records: Vec::new(alloc),
            free: Vec::new(alloc),
            hints: Vec::new(alloc),
        }
    }

    /// How many arenas there are.
    pub fn len(&self) -> usize
        ensures { result ≡ length self.now.arenas }
    {
        self.keys.len()
    }

    /// The place of the arena of this number.
    #[inline(always)]
    pub fn place_of(&self, arena: ArenaId) -> Option<usize>
        requires { IsByNumber self.now.arenas }
        ensures missing { IfNone result (All (λ (a : Arena). a.number ≢ arena) self.now.arenas) }
        ensures there { IfSome result (λ place. index_in self.now.places place < length self.now.arenas) }
        ensures found { IfSome result (λ place. (d : Arena)
            → (slice_index_or self.now.arenas (index_in self.now.places place) d).number ≡ arena) }
    {
        let hinted = self.hinted(arena);
        if hinted.is_some() {
            return hinted;
        }
        let place = self.searched(arena)?;
        Some(place as usize)
    }

    /// The place of the arena of this number; its hint names it from now on.
    #[inline(always)]
    pub fn place_to_change(&mut self, arena: ArenaId) -> Option<usize>
        requires { IsByNumber self.old.arenas }
        ensures missing { IfNone result (All (λ (a : Arena). a.number ≢ arena) self.old.arenas) }
        ensures there { IfSome result (λ place. index_in self.old.places place < length self.old.arenas) }
        ensures found { IfSome result (λ place. (d : Arena)
            → (slice_index_or self.old.arenas (index_in self.old.places place) d).number ≡ arena) }
        ensures unchanged { self.new ≡ self.old }
    {
        let hinted = self.hinted(arena);
        if hinted.is_some() {
            return hinted;
        }
        let place = self.searched(arena)?;
        put_hint(&mut self.hints, arena, place);
        Some(place as usize)
    }

    /// The place that the hint names, if the arena of this number stands there.
    #[inline(always)]
    fn hinted(&self, arena: ArenaId) -> Option<usize>
        ensures there { IfSome result (λ place. index_in self.now.places place < length self.now.arenas) }
        ensures found { IfSome result (λ place. (d : Arena)
            → (slice_index_or self.now.arenas (index_in self.now.places place) d).number ≡ arena) }
    {
        let hint = *self.hints.get(arena.get() as usize % HINTS)?;
        let place = hint as usize;
        match self.records.get(place) {
            Some(Some(kept)) if kept.arena().arena().get() == arena.get() => Some(place),
            _ => None,
        }
    }

    /// The place beside this number.
    #[cold]
    #[inline(never)]
    fn searched(&self, arena: ArenaId) -> Option<u16>
        requires { IsByNumber self.now.arenas }
        ensures missing { IfNone result (All (λ (a : Arena). a.number ≢ arena) self.now.arenas) }
        ensures there { IfSome result (λ place. index_in self.now.places place < length self.now.arenas) }
        ensures found { IfSome result (λ place. (d : Arena)
            → (slice_index_or self.now.arenas (index_in self.now.places place) d).number ≡ arena) }
    {
        let index = self.index_of(arena)?;
        Some(self.places[index])
    }

    /// The index of the arena of this number.
    pub fn index_of(&self, arena: ArenaId) -> Option<usize>
        requires { IsByNumber self.now.arenas }
        ensures missing { IfNone result (All (λ (a : Arena). a.number ≢ arena) self.now.arenas) }
        ensures there { IfSome result (λ index. index < length self.now.arenas) }
        ensures found { IfSome result (λ index. (d : Arena) → (slice_index_or self.now.arenas index d).number ≡ arena) }
    {
        index_of(&self.keys, arena.get())
    }

    /// The arena at a place.
    #[inline(always)]
    pub fn at(&self, place: usize) -> StoredArena
        requires { index_in self.now.places place < length self.now.arenas }
        ensures { result ≡ slice_index_or self.now.arenas (index_in self.now.places place) result }
    {
        match &self.records[place] {
            Some(kept) => kept.arena(),
            None => unreachable!(),
        }
    }

    /// The leaf that had the row of the arena at a place last.
    #[inline(always)]
    pub fn near(&self, place: usize) -> u8
        requires { index_in self.now.places place < length self.now.arenas }
    {
        match &self.records[place] {
            Some(kept) => kept.near,
            None => unreachable!(),
        }
    }

    /// The arena at a place becomes this one, of the same number, and the leaf that has its row is noted.
    #[inline(always)]
    pub fn set(&mut self, place: usize, arena: StoredArena, near: u8)
        requires there { index_in self.old.places place < length self.old.arenas }
        requires same { (d : Arena) → (slice_index_or self.old.arenas (index_in self.old.places place) d).number ≡ arena.number }
        ensures { self.new.arenas ≡ slice_set self.old.arenas (index_in self.old.places place) arena }
    {
        self.records[place] = Some(Kept { arena, near });
    }

    /// Room for one more arena, where there is none.
    #[inline(always)]
    pub fn reserve(&mut self) -> Result<(), AllocError>
        requires { length self.old.arenas < 1024 }
        ensures room { OnOk result (0 < self.new.spare) }
        ensures unchanged { self.new.arenas ≡ self.old.arenas }
    {
        if self.free.is_empty() {
            self.grow()?;
        }
        Ok(())
    }

    /// One more place.
    #[cold]
    #[inline(never)]
    fn grow(&mut self) -> Result<(), AllocError>
        requires few { length self.old.arenas < 1024 }
        requires full { self.old.spare ≡ 0 }
        ensures room { OnOk result (0 < self.new.spare) }
        ensures unchanged { self.new.arenas ≡ self.old.arenas }
    {
        let more = self.records.len() + 1;
        self.hints.resize(HINTS, 0)?;
        self.keys.reserve(1)?;
        self.places.reserve(1)?;
        self.free.reserve(more)?;
        self.records.reserve(1)?;
        self.free.push_reserved(self.records.len() as u16);
        self.records.push_reserved(None);
        Ok(())
    }

    /// A new arena, of a greater number than all others.
    pub fn push_reserved(&mut self, arena: StoredArena)
        requires { 0 < self.old.spare }
        ensures { self.new.arenas ≡ self.old.arenas ++ arena ∷ [] }
    {
        let Some(place) = self.free.pop() else {
            unreachable!();
        };
        let number = arena.arena();
        self.records[place as usize] = Some(Kept { arena, near: 0 });
        self.keys.push_reserved(number.get());
        self.places.push_reserved(place);
        put_hint(&mut self.hints, number, place);
    }

    /// The arena at this index goes.
    pub fn remove(&mut self, index: usize) -> StoredArena
        requires { index < length self.old.arenas }
        ensures value { result ≡ slice_index_or self.old.arenas index result }
        ensures items { self.new.arenas ≡ remove self.old.arenas index }
    {
        let _number = take_out(&mut self.keys, index);
        let place = take_out(&mut self.places, index);
        let record = mem::replace(&mut self.records[place as usize], None);
        let Some(old) = record else {
            unreachable!();
        };
        self.free.push_reserved(place);
        old.arena()
    }
}

/// The hint for this number names this place from now on. Nothing but speed rests on it.
#[inline(always)]
fn put_hint(hints: &mut [u16], arena: ArenaId, place: u16)
    ensures { hints.new ≡ slice_set hints.old (arena % HINTS) place }
{
    let hint = arena.get() as usize % HINTS;
    if hint < hints.len() {
        hints[hint] = place;
    }
}

/// The element at this index goes. Where it is the last, nothing is to be moved, and a call is saved.
#[inline(always)]
fn take_out<T>(list: &mut Vec<T>, index: usize) -> T
    requires { index < vec_len list.old }
    ensures value { result ≡ slice_index_or list.old.items index result }
    ensures items { list.new.items ≡ remove list.old.items index }
    ensures capacity { vec_capacity list.new ≡ vec_capacity list.old }
{
    if index + 1 < list.len() {
        return list.remove(index);
    }
    let Some(last) = list.pop() else {
        unreachable!();
    };
    last
}
