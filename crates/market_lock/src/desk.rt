//! The desk of an office: the market with its history, as one value that a lock can guard. Its chronicle may be one that keeps no
//! entries, or whose entries are taken out in parts ([`Desk::cut`]).
ghost use Rattle.std.specs.Prelude.{◌≡◌, ℕ, ◌+◌, ◌<◌, ◌≤◌, ◌++◌, [], ◌∷◌, length, IfOk, OnOk, OnErr, IfErr, IsErrOf, IsOk, vec_capacity, IfSome, IfNone, OnSome, IsSome};
ghost use Rattle.market_types.specs.Step.{step, place_of};
ghost use Rattle.market_types.specs.History.{IsLegal, place_in};
ghost use Rattle.market_core.specs.Moves.{Answers};
ghost use Rattle.edit_history.specs.Answered.{IsAnswered};
ghost use Rattle.edit_history.specs.Chronicled.{entry, market_of, most_forgotten};
ghost use Rattle.edit_history.specs.Parts.{EndsWith};
ghost use Rattle.edit_history.specs.Places.{takes, placed, LacksPlaces};
ghost use Rattle.edit_history.specs.declared.fault.CallFault.TheVariants.{HistoryFull};
ghost use Rattle.edit_history.specs.declared.keeping.Keeping.TheVariants.{InParts};
ghost use Rattle.market_lock.specs.Forgetting.{forgotten, most_counted};

use edit_history::{CallFault, Chronicle, Keeping, MOST_FORGOTTEN, Part, own_entries_place_a_seat};
use market_core::a_call_moves_its_own_seat;
use market_types::{Cmd, Entry, Reply, SeatNo};
use std::alloc::Global;
use std::marker::Model;

/// The market with its history. Contracts see it as its chronicle: the opening, the history since, and the number of places.
#[derive(Drop)]
pub struct Desk {
    chronicle: Chronicle,
}

impl Model for Desk {
    ghost use Rattle.std.specs.Prelude.{◌≡◌, length};
    ghost use Rattle.edit_history.specs.Chronicled.{Chronicled};
    ghost use Rattle.market_lock.specs.Forgetting.{forgotten};

    ghost Value = { Chronicled };

    ghost view = { λ d. d.chronicle };

    ghost invariant = { λ d. d.chronicle.from ≡ forgotten d.chronicle.keeping (length d.chronicle.log) d.chronicle.from };
}

impl Desk {
    /// A desk of a new chronicle, recorded or not. It takes no memory.
    pub fn new(chronicle: Chronicle) -> Self
        requires begun { chronicle.log ≡ [] }
        requires whole { chronicle.from ≡ 0 }
        ensures exact { result ≡ chronicle }
    {
        Desk { chronicle }
    }

    /// Does what a seat asks, as `Chronicle::call` does. `HistoryFull`, where free places lack, and then `Memory` are as there:
    /// nothing is then changed or recorded. A Leave by a placed seat takes no memory and always succeeds. The seat is one that the
    /// market has. An unrecorded chronicle stores none of its first 18,446,744,073,708,503,039 entries.
    pub fn serve(&mut self, alloc: Global, seat: SeatNo, cmd: Cmd) -> Result<Reply, CallFault>
        requires seat { seat < length self.old.start.seats }
        ensures reply { IfOk result (λ reply. reply ≡ (step (market_of self.old) seat cmd).0) }
        ensures answers { IfOk result (λ reply. Answers (place_in seat self.old.log) cmd reply) }
        ensures held { self.new.market ≡ market_of self.new }
        ensures recorded { IfOk result (λ reply. self.new.log ≡ self.old.log ++ entry seat cmd reply ∷ []) }
        ensures unchanged { OnErr result (self.new ≡ self.old) }
        ensures full { LacksPlaces self.old seat cmd → IsErrOf result HistoryFull }
        ensures room { IfErr result (λ fault. fault ≡ HistoryFull → LacksPlaces self.old seat cmd) }
        ensures leave { takes (place_in seat self.old.log) cmd ≡ 0 → IsOk result }
        ensures start { self.new.start ≡ self.old.start }
        ensures places { self.new.places ≡ self.old.places }
        ensures from { self.new.from ≡ forgotten self.new.keeping (length self.new.log) self.old.from }
        ensures found_from { self.old.from ≡ forgotten self.old.keeping (length self.old.log) self.old.from }
        ensures keeping { self.new.keeping ≡ self.old.keeping }
        ensures found { IsLegal self.old.start self.old.log }
        ensures legal { IsLegal self.new.start self.new.log }
        ensures countable { length self.new.log ≤ most_counted }
    {
        a_call_moves_its_own_seat();
        facts_of(&self.chronicle);
        let reply = answer(&mut self.chronicle, alloc, seat, cmd)?;
        facts_of(&self.chronicle);
        Ok(reply)
    }

    /// Takes out the entries that are kept, as `Chronicle::cut` does, where they are to be kept in parts; else the answer is
    /// `None`. Nothing is then changed.
    pub fn cut(&mut self, spare: Vec<Entry>) -> Option<Part>
        ensures part { IfSome result (λ part. EndsWith self.old.log part.from part.entries.items) }
        ensures from { IfSome result (λ part. part.from ≡ self.old.from) }
        ensures cut { OnSome result (self.new ≡ record self.old { from = length self.old.log }) }
        ensures unchanged { IfNone result (self.new ≡ self.old) }
        ensures in_parts { OnSome result (self.old.keeping ≡ InParts) }
        ensures room { OnSome result (placed (market_of self.old) ≤ vec_capacity spare) }
        ensures countable { OnSome result (length self.old.log ≤ most_forgotten) }
        ensures served { self.old.keeping ≡ InParts → placed (market_of self.old) ≤ vec_capacity spare → length self.old.log ≤ most_forgotten → IsSome result }
        ensures found { self.old.from ≤ length self.old.log }
        ensures few { placed (market_of self.old) ≤ length self.old.start.seats }
        ensures legal { IsLegal self.old.start self.old.log }
    {
        facts_of(&self.chronicle);
        match self.chronicle.keeping() {
            Keeping::InParts => self.chronicle.cut(spare),
            Keeping::Everything | Keeping::Nothing => None,
        }
    }

    /// The market with its history, as it stands.
    pub fn chronicle(&self) -> &Chronicle
        ensures exact { result.now ≡ self.now }
    {
        &self.chronicle
    }

    /// The chronicle, whose history is legal and has made the market that it holds.
    pub fn into_chronicle(self) -> Chronicle
        ensures chronicle { result ≡ self }
        ensures legal { IsLegal self.start self.log }
        ensures held { result.market ≡ market_of result }
        ensures from { self.from ≡ forgotten self.keeping (length self.log) self.from }
    {
        let Desk { chronicle } = self;
        facts_of(&chronicle);
        chronicle
    }
}

/// What is true of every chronicle. This does nothing: what it ensures holds wherever it is called.
#[inline(always)]
fn facts_of(chronicle: &Chronicle)
    ensures held { chronicle.now.market ≡ market_of chronicle.now }
    ensures legal { IsLegal chronicle.now.start chronicle.now.log }
    ensures own { (seat : ℕ) → seat < length chronicle.now.start.seats
        → place_of (market_of chronicle.now) seat ≡ place_in seat chronicle.now.log }
    ensures seats { length (market_of chronicle.now).seats ≡ length chronicle.now.start.seats }
    ensures few_calls { length chronicle.now.log ≤ most_counted }
    ensures kept { chronicle.now.from ≤ length chronicle.now.log }
    ensures few_placed { placed (market_of chronicle.now) ≤ length chronicle.now.start.seats }
{
    own_entries_place_a_seat();
    // What a chronicle's readers promise is true of it.
    let _ = chronicle.market();
    let _ = chronicle.len();
}

/// Does what a seat asks, and keeps the entry where it is to be kept.
#[inline(always)]
fn answer(
    chronicle: &mut Chronicle,
    alloc: Global,
    seat: SeatNo,
    cmd: Cmd,
) -> Result<Reply, CallFault>
    requires seat { seat < length chronicle.old.start.seats }
    requires before { chronicle.old.from ≡ forgotten chronicle.old.keeping (length chronicle.old.log) chronicle.old.from }
    ensures answered { IsAnswered chronicle.old seat cmd result chronicle.new }
    ensures from { chronicle.new.from ≡ forgotten chronicle.new.keeping (length chronicle.new.log) chronicle.old.from }
{
    let keeps = chronicle.keeping() != Keeping::Nothing || chronicle.len() >= MOST_FORGOTTEN;
    chronicle.answer(alloc, seat, cmd, keeps)
}
