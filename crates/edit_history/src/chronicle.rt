//! The market and its history.
ghost use Rattle.std.specs.Prelude.{◌≡◌, ◌+◌, ◌<◌, ◌≤◌, ◌++◌, [], ◌∷◌, true, false, Some, length, slice_get, vec_capacity, IfOk, OnErr, IfErr, IsErrOf, IsOk, IfSome, IfNone, OnSome, IsSome};
ghost use Rattle.std.specs.List.{All};
ghost use Rattle.market_types.specs.Commands.{Fits};
ghost use Rattle.market_types.specs.Step.{step, place_of};
ghost use Rattle.market_types.specs.History.{IsLegal};
ghost use Rattle.market_types.specs.Opening.{MemoryAside};
ghost use Rattle.edit_history.specs.Answered.{IsAnswered};
ghost use Rattle.edit_history.specs.Chronicled.{begun, entry, market_of, opened_by, opened_chronicle, usual_terms, most_forgotten, HasNumbersOf, IsCallOf, IsOpening};
ghost use Rattle.edit_history.specs.Parts.{EndsWith};
ghost use Rattle.edit_history.specs.Places.{placed, takes, taken, LacksPlaces};
ghost use Rattle.edit_history.specs.declared.fault.CallFault.TheVariants.{HistoryFull, Memory};

use crate::fault::CallFault;
use crate::keeping::Keeping;
use crate::part::Part;
use crate::past::Past;
use crate::terms::{MOST_PLACES, Terms};
use market_core::Market;
use market_types::{ArenaId, Call, Cmd, Entry, OpenFault, Opening, Reply, SeatNo};
use std::alloc::Global;
use std::marker::Model;
use std::mem;
use std::snapshot::Snapshot;

/// How long a history is at most whose entries are all forgotten or cut out: with all places after it, 64 bits still count its calls.
pub const MOST_FORGOTTEN: u64 = u64::MAX - MOST_PLACES as u64;

/// A market whose calls are recorded. Contracts see it as its opening, the market that it holds, the history since, and its number
/// of places.
pub struct Chronicle {
    opened: Snapshot<Market>,
    market: Market,
    // The history is the past, which takes no memory, and the entries since.
    past: Past,
    from: u64,
    recent: Vec<Entry>,
    places: u32,
    keeping: Keeping,
}

impl Model for Chronicle {
    ghost use Rattle.std.specs.Prelude.{◌++◌, vec_capacity};
    ghost use Rattle.edit_history.specs.Chronicled.{Chronicled};
    ghost use Rattle.edit_history.specs.Kept.{IsKept};

    ghost Value = { Chronicled };

    ghost view = { λ c. record { start = c.opened.value; market = c.market; log = c.past ++ c.recent.items; places = c.places; from = c.from; keeping = c.keeping } };

    ghost invariant = { λ c. IsKept c.opened.value c.market c.past c.recent.items c.from c.places (vec_capacity c.recent) };
}

// By hand, as a market's: who drops a chronicle makes one call.
impl Drop for Chronicle {
    fn drop(self) {
        let Chronicle {
            opened: _,
            market: _,
            past: _,
            from: _,
            recent: _,
            places: _,
            keeping: _,
        } = self;
    }
}

impl Chronicle {
    /// A chronicle that nothing has happened to, on these terms: with a base of 1 to 65,536, else `BadBase`; a hard limit of 1
    /// to 65,535, else `BadHard`; 1 to 64 seats, else `BadSeats`; 1 to 1,048,576 places, else `BadPlaces`; and 1 to 8 levels,
    /// else `BadLevels`. Then out of memory is `Memory`.
    ///
    /// Entries that are to be cut out in parts are kept until whoever calls has it `cut`. Those that are not to be kept take their
    /// places until whoever calls has it `forget` them, after each call, or none where it has an `answer` that keeps nothing: two
    /// places more than seats are then enough.
    pub fn on_terms(alloc: Global, terms: Terms) -> Result<Self, OpenFault>
        ensures exact { MemoryAside (opened_by terms) result }
        ensures opened { IfOk result (λ chronicle. chronicle ≡ begun terms) }
    {
        let Terms {
            opening,
            places,
            keeping,
        } = terms;
        terms.check()?;
        let market = Market::with_opening(alloc, opening)?;
        Ok(Chronicle {
            opened: Snapshot::of(&market),
            market,
            past: Past::new(),
            from: 0,
            recent: Vec::new(alloc),
            places,
            keeping,
        })
    }

    /// The same, with the usual last number, and every entry is kept.
    pub fn new(
        alloc: Global,
        base: u32,
        hard: u32,
        seats: u8,
        places: u32,
        levels: u32,
    ) -> Result<Self, OpenFault>
        ensures exact { MemoryAside (opened_chronicle base hard seats places levels) result }
        ensures opened { IfOk result (λ chronicle. chronicle ≡ begun (usual_terms base hard seats places levels)) }
    {
        let terms = Terms {
            opening: Opening::new(base, hard, seats, levels),
            places,
            keeping: Keeping::Everything,
        };
        Chronicle::on_terms(alloc, terms)
    }

    /// Does what a seat asks, as the market does, and records it with its reply, be it a refusal. A Join by a seat that is not
    /// placed needs two free places, a Leave by a placed seat none, every other call one; where they lack, the answer is
    /// `HistoryFull`. Then out of memory, for the command or for its entry, is `Memory`. After either nothing is changed, and
    /// nothing recorded. The memory of a later Leave is taken by the call that places its seat, so that a Leave by a placed
    /// seat takes none and always succeeds. The seat is one that the market has.
    pub fn call(&mut self, alloc: Global, seat: SeatNo, cmd: Cmd) -> Result<Reply, CallFault>
        requires seat { seat < length self.old.start.seats }
        ensures reply { IfOk result (λ reply. reply ≡ (step (market_of self.old) seat cmd).0) }
        ensures held { IfOk result (λ reply. self.new.market ≡ (step self.old.market seat cmd).1) }
        ensures recorded { IfOk result (λ reply. self.new.log ≡ self.old.log ++ entry seat cmd reply ∷ []) }
        ensures unchanged { OnErr result (self.new ≡ self.old) }
        ensures full { LacksPlaces self.old seat cmd → IsErrOf result HistoryFull }
        ensures room { IfErr result (λ fault. fault ≡ HistoryFull → LacksPlaces self.old seat cmd) }
        ensures leave { takes (place_of (market_of self.old) seat) cmd ≡ 0 → IsOk result }
        ensures start { self.new.start ≡ self.old.start }
        ensures places { self.new.places ≡ self.old.places }
        ensures from { self.new.from ≡ self.old.from }
        ensures keeping { self.new.keeping ≡ self.old.keeping }
    {
        self.answer(alloc, seat, cmd, true)
    }

    /// The same, but where `keeps` is false the entry is forgotten at once: it is an entry of the history, it is never stored,
    /// and its place is free again. This can be asked only where all entries before are forgotten too, and while the history is
    /// not longer than 18,446,744,073,708,503,038 entries, so that 64 bits count its calls.
    #[inline(always)]
    pub fn answer(
        &mut self,
        alloc: Global,
        seat: SeatNo,
        cmd: Cmd,
        keeps: bool,
    ) -> Result<Reply, CallFault>
        requires seat { seat < length self.old.start.seats }
        requires none { keeps ≡ false → self.old.from ≡ length self.old.log }
        requires countable { keeps ≡ false → self.old.from < most_forgotten }
        ensures answered { IsAnswered self.old seat cmd result self.new }
        ensures kept { keeps ≡ true → self.new.from ≡ self.old.from }
        ensures forgotten { keeps ≡ false → self.new.from ≡ length self.new.log }
    {
        let call = Call { seat, cmd };
        command_holds_its_numbers(call.cmd);
        let placed = self.market.placed();
        let takes = takes_of(self.market.arena_of(call.seat), call.cmd);
        if self.free() < takes {
            return Err(CallFault::HistoryFull);
        }
        // One entry for this call, if it needs a place, one for each placed seat, and one for a seat that joins.
        let Ok(()) = self.recent.reserve((placed + takes) as usize) else {
            return Err(CallFault::Memory);
        };
        let Ok(reply) = self.market.apply(alloc, call.seat, call.cmd) else {
            return Err(CallFault::Memory);
        };
        if !keeps {
            let entry = Entry { call, reply };
            self.past.push(&entry);
            self.from += 1;
            let Entry { call: _, reply } = entry;
            return Ok(reply);
        }
        // Only lists take memory here, and they change nothing.
        let Ok(kept) = reply.copied(alloc) else {
            return Err(CallFault::Memory);
        };
        self.recent.push_reserved(Entry { call, reply: kept });
        Ok(reply)
    }

    /// Forgets the entries that are kept: they take no place any more, and can't be read. The history stays what it is. It takes
    /// no memory, and constant time for one entry. Where the history is longer than 18,446,744,073,708,503,039 entries nothing
    /// is done, so that 64 bits count its calls.
    pub fn forget(&mut self)
        ensures same { self.new ≡ record self.old { from = self.new.from } }
        ensures forgotten { length self.old.log ≤ most_forgotten → self.new.from ≡ length self.old.log }
        ensures late { most_forgotten < length self.old.log → self.new.from ≡ self.old.from }
    {
        let calls = self.len();
        if calls > MOST_FORGOTTEN {
            return;
        }
        self.past.append(&self.recent);
        self.from = calls;
        self.recent.clear();
    }

    /// Takes out the entries that are kept, as the next part of the history: they take no place any more, and can be read in the
    /// part. The history stays what it is. `spare` comes in their stead, emptied, so that no memory is taken; where it has no room
    /// for an entry for each placed seat, which leaves without taking memory, the answer is `None`, and so it is where the history
    /// is longer than 18,446,744,073,708,503,039 entries. Nothing is then changed. It takes constant time, but for the entries that
    /// `spare` had.
    pub fn cut(&mut self, spare: Vec<Entry>) -> Option<Part>
        ensures part { IfSome result (λ part. EndsWith self.old.log part.from part.entries.items) }
        ensures from { IfSome result (λ part. part.from ≡ self.old.from) }
        ensures cut { OnSome result (self.new ≡ record self.old { from = length self.old.log }) }
        ensures unchanged { IfNone result (self.new ≡ self.old) }
        ensures room { OnSome result (placed (market_of self.old) ≤ vec_capacity spare) }
        ensures countable { OnSome result (length self.old.log ≤ most_forgotten) }
        ensures served { placed (market_of self.old) ≤ vec_capacity spare → length self.old.log ≤ most_forgotten → IsSome result }
    {
        let end = self.len();
        if end > MOST_FORGOTTEN {
            return None;
        }
        if spare.capacity() < self.market.placed() as usize {
            return None;
        }
        let mut emptied = spare;
        emptied.clear();
        self.past.append(&self.recent);
        let from = mem::replace(&mut self.from, end);
        let entries = mem::replace(&mut self.recent, emptied);
        Some(Part { from, entries })
    }

    /// Which entries are to be kept.
    pub fn keeping(&self) -> Keeping
        ensures exact { result ≡ self.now.keeping }
    {
        self.keeping
    }

    /// How many calls were answered. The entries that are kept are 1,048,576 at most.
    pub fn len(&self) -> u64
        ensures exact { result ≡ length self.now.log }
        ensures kept { self.now.from ≤ result }
        ensures few { result ≤ self.now.from + 1048576 }
    {
        self.from + self.recent.len() as u64
    }

    /// The entry of a call, the first being 0. It takes no memory.
    pub fn entry(&self, index: u64) -> &Entry
        requires kept { self.now.from ≤ index }
        requires there { index < length self.now.log }
        ensures exact { slice_get self.now.log index ≡ Some result.now }
    {
        &self.recent[(index - self.from) as usize]
    }

    /// The entries that are kept, the last ones of the history in its order. There are 1,048,576 at most. It takes no memory.
    pub fn kept(&self) -> &[Entry]
        ensures exact { EndsWith self.now.log self.now.from result.now }
        ensures few { length result.now ≤ 1048576 }
    {
        self.recent.as_slice()
    }

    /// The market as it stands: the one that the chronicle holds, which is what the opening becomes by the calls of the history. The
    /// history is legal: each reply is the one that was due, and each call is one that the market can have. The market has the
    /// numbers of its opening still.
    pub fn market(&self) -> &Market
        ensures held { result.now ≡ self.now.market }
        ensures exact { result.now ≡ market_of self.now }
        ensures legal { IsLegal self.now.start self.now.log }
        ensures calls { All (IsCallOf (length self.now.start.seats)) self.now.log }
        ensures opened { IsOpening self.now.start }
        ensures numbers { HasNumbersOf self.now.start result.now }
    {
        &self.market
    }

    /// How many places the history has, 1 to 1,048,576.
    pub fn places(&self) -> u32
        ensures exact { result ≡ self.now.places }
    {
        self.places
    }

    /// How many places are free.
    pub fn free(&self) -> u32
        ensures exact { result + taken self.now ≡ self.now.places }
    {
        let unused = self.places - self.recent.len() as u32;
        unused - self.market.placed()
    }
}

/// Each number of a command is one that a command can hold. This does nothing: what it ensures holds wherever it is called.
#[inline(always)]
fn command_holds_its_numbers(cmd: Cmd)
    ensures { Fits cmd }
{
    let _ = cmd;
}

/// How many places a call takes by a seat that is placed there.
fn takes_of(arena: Option<ArenaId>, cmd: Cmd) -> u32
    ensures exact { result ≡ takes arena cmd }
    ensures few { result ≤ 2 }
{
    match (arena, cmd) {
        (None, Cmd::Join) => 2,
        (Some(_), Cmd::Leave) => 0,
        _ => 1,
    }
}
