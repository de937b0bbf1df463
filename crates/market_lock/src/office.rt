//! The office: what each call does to what its caller knows.
ghost use Rattle.std.specs.Prelude.{◌≡◌, ℕ, ◌+◌, ◌<◌, ◌≤◌, ◌==◌, [], length, false, vec_len, vec_capacity, slice_get, Some, None, IfOk, IfErr, OnErr, IfSome, OnSome, IsSome, All, sum_by, count_by};
ghost use Rattle.market_types.specs.declared.command.Cmd.TheVariants.{Join, Stay, Leave};
ghost use Rattle.market_types.specs.declared.reply.OpenFault.TheVariants.{Memory};
ghost use Rattle.market_types.specs.declared.reply.Reply.TheVariants.{Left};
ghost use Rattle.market_types.specs.Allotment.{active};
ghost use Rattle.market_types.specs.Commands.{moves_seat};
ghost use Rattle.market_types.specs.Opening.{MemoryAside};
ghost use Rattle.edit_history.specs.Chronicled.{market_of, most_forgotten, opened_by, opened_chronicle, opened_in_parts, opened_unrecorded, in_parts, unrecorded, usual_terms};
ghost use Rattle.edit_history.specs.Parts.{EndsWith};
ghost use Rattle.edit_history.specs.Places.{placed as seats_placed};
ghost use Rattle.edit_history.specs.declared.keeping.Keeping.TheVariants.{InParts, Nothing};
ghost use Rattle.market_types.specs.History.{IsLegal, place_after};
ghost use Rattle.market_core.specs.Moves.{Answers};
ghost use Rattle.market_lock.specs.Workers.{own_place};
ghost use Rattle.market_lock.specs.Attempts.{IfMade, IfBusy};
ghost use Rattle.market_lock.specs.Views.{opening_of, chronicle_of, chronicle_cut, seats_placed_after, IsEndless};
ghost use Rattle.market_lock.specs.Seen.{OfPass, OfPlaced, IsSamePass, Looks, HasCut, fresh, kept_by, Met, AllParts};
ghost use Rattle.market_lock.specs.Moves.{Called, Fails, HasJoined, HasStayed};
ghost use Rattle.market_lock.specs.Headline.{IsGivenBy};

use crate::attempt::Attempt;
use crate::closing::{take_back_passes, take_back_placed};
use crate::opening::{Furnished, deal, furnish};
use crate::pass::{Joined, Pass, Placed, Stayed};
use crate::rule::{Enter, Shelf};
use crate::ticket::Ticket;
use edit_history::{
    CallFault, Chronicle, Keeping, Part, Terms, a_forgetful_chronicle_is_never_full,
    own_entries_place_a_seat,
};
use market_types::{ArenaId, Cmd, Entry, OpenFault, Opening, Reply, SeatNo};
use std::alloc::Global;
use std::marker::Model;
use std::sync::Wait;

/// A market that callers on any threads share by `&`.
#[derive(Drop)]
pub struct Office {
    table: Shelf,
    alloc: Global,
}

impl Model for Office {
    ghost use Rattle.std.specs.Prelude.{◌≡◌};
    ghost use Rattle.market_lock.specs.Seen.{OfOffice, office_of};

    ghost Value = { OfOffice };

    ghost view = { λ o. office_of o.table.shared.table_id o.table.shared.key };

    ghost invariant = { λ o. (o.table.shared.table_id.words ≡ 1) × (o.table.shared.table_id.slots ≡ 1) };
}

/// What an office leaves: its market with its history, how many calls its callers made, and how many of them are placed.
#[derive(Drop)]
pub struct Closed {
    pub chronicle: Chronicle,
    pub calls: u64,
    pub workers: u64,
}

impl Office {
    /// An office with an empty history, on these terms, and a pass for each seat, in order, which has seen and called nothing.
    /// The faults are those of `Chronicle::on_terms`: `BadBase`, `BadHard`, `BadSeats`, `BadPlaces`, `BadLevels`, then `Memory`.
    /// It doesn't wait.
    pub fn on_terms(alloc: Global, terms: Terms) -> Result<(Self, Vec<Pass>), OpenFault>
        ensures exact { MemoryAside (opened_by terms) (kept_by result) }
        ensures terms { IfOk result (λ o. o.0.terms ≡ terms) }
        ensures one_for_each { IfOk result (λ o. length o.1.items ≡ terms.opening.seats) }
        ensures passes { IfOk result (λ o. (k : ℕ) → k < terms.opening.seats → slice_get o.1.items k ≡ Some (fresh o.0 k)) }
        ensures own { IfOk result (λ o. All (λ (p : OfPass). p.table ≡ o.0.table) o.1.items) }
        ensures endless { terms.keeping ≡ Nothing → terms.opening.seats + 2 ≤ terms.places → IfOk result (λ o. IsEndless o.0.terms) }
    {
        a_forgetful_chronicle_is_never_full();
        let chronicle = Chronicle::on_terms(alloc, terms)?;
        Self::with_chronicle(alloc, &terms, chronicle)
    }

    /// The same with the usual last number, and every entry is kept.
    pub fn open(
        alloc: Global,
        base: u32,
        hard: u32,
        seats: u8,
        places: u32,
        levels: u32,
    ) -> Result<(Self, Vec<Pass>), OpenFault>
        ensures exact { MemoryAside (opened_chronicle base hard seats places levels) (kept_by result) }
        ensures terms { IfOk result (λ o. o.0.terms ≡ usual_terms base hard seats places levels) }
        ensures one_for_each { IfOk result (λ o. length o.1.items ≡ seats) }
        ensures passes { IfOk result (λ o. (k : ℕ) → k < seats → slice_get o.1.items k ≡ Some (fresh o.0 k)) }
        ensures own { IfOk result (λ o. All (λ (p : OfPass). p.table ≡ o.0.table) o.1.items) }
    {
        let terms = Terms {
            opening: Opening::new(base, hard, seats, levels),
            places,
            keeping: Keeping::Everything,
        };
        Self::on_terms(alloc, terms)
    }

    /// An office whose entries are taken out in parts by `cut`. Its places are taken by the entries since the last cut alone, so
    /// that no call is answered `HistoryFull` where it is cut in time. All else is as with `open`: the numbers and their faults,
    /// and what each call does.
    pub fn open_in_parts(
        alloc: Global,
        base: u32,
        hard: u32,
        seats: u8,
        places: u32,
        levels: u32,
    ) -> Result<(Self, Vec<Pass>), OpenFault>
        ensures exact { MemoryAside (opened_in_parts base hard seats places levels) (kept_by result) }
        ensures terms { IfOk result (λ o. o.0.terms ≡ in_parts (usual_terms base hard seats places levels)) }
        ensures one_for_each { IfOk result (λ o. length o.1.items ≡ seats) }
        ensures passes { IfOk result (λ o. (k : ℕ) → k < seats → slice_get o.1.items k ≡ Some (fresh o.0 k)) }
        ensures own { IfOk result (λ o. All (λ (p : OfPass). p.table ≡ o.0.table) o.1.items) }
    {
        let terms = Terms {
            opening: Opening::new(base, hard, seats, levels),
            places,
            keeping: Keeping::InParts,
        };
        Self::on_terms(alloc, terms)
    }

    /// An office that keeps no entries. Its history exists in proofs alone, so that a call takes no memory but the market's own,
    /// and room for a few entries, at most one for each seat and two. It never answers `HistoryFull` in the first
    /// 18,446,744,073,708,503,039 calls. All else is as with `open`: the numbers and their faults, and what each call does.
    pub fn open_unrecorded(
        alloc: Global,
        base: u32,
        hard: u32,
        seats: u8,
        levels: u32,
    ) -> Result<(Self, Vec<Pass>), OpenFault>
        ensures exact { MemoryAside (opened_unrecorded base hard seats levels) (kept_by result) }
        ensures terms { IfOk result (λ o. o.0.terms ≡ unrecorded (usual_terms base hard seats 0 levels)) }
        ensures one_for_each { IfOk result (λ o. length o.1.items ≡ seats) }
        ensures passes { IfOk result (λ o. (k : ℕ) → k < seats → slice_get o.1.items k ≡ Some (fresh o.0 k)) }
        ensures own { IfOk result (λ o. All (λ (p : OfPass). p.table ≡ o.0.table) o.1.items) }
        ensures endless { IfOk result (λ o. IsEndless o.0.terms) }
    {
        let terms = Terms {
            opening: Opening::new(base, hard, seats, levels),
            places: u32::from(seats) + 2,
            keeping: Keeping::Nothing,
        };
        Self::on_terms(alloc, terms)
    }

    /// An office of a new chronicle, and its passes. Out of memory is the only fault.
    fn with_chronicle(
        alloc: Global,
        terms: &Terms,
        chronicle: Chronicle,
    ) -> Result<(Self, Vec<Pass>), OpenFault>
        requires chronicle { chronicle ≡ chronicle_of terms.now [] }
        ensures terms { IfOk result (λ o. o.0.terms ≡ terms.now) }
        ensures fault { IfErr result (λ fault. fault ≡ Memory) }
        ensures one_for_each { IfOk result (λ o. length o.1.items ≡ terms.now.opening.seats) }
        ensures passes { IfOk result (λ o. (k : ℕ) → k < terms.now.opening.seats → slice_get o.1.items k ≡ Some (fresh o.0 k)) }
        ensures own { IfOk result (λ o. All (λ (p : OfPass). p.table ≡ o.0.table) o.1.items) }
    {
        let seats = terms.opening.seats;
        let Ok(mut passes) = Vec::<Pass>::with_capacity(alloc, seats as usize) else {
            drop(chronicle);
            return Err(OpenFault::Memory);
        };
        let Ok(furnished) = furnish(alloc, terms, chronicle) else {
            passes.destroy_empty();
            return Err(OpenFault::Memory);
        };
        let Furnished { table, mut seat } = furnished;
        for number in 0..seats {
            passes.push_reserved(deal(&table, &mut seat, SeatNo::new(number)));
        }
        Ok((Office { table, alloc }, passes))
    }

    /// A call that moves no seat, by a caller whose seat is not placed. It waits for the lock, and for nothing else.
    /// `HistoryFull`, where the history has too few free places, and then `Memory` are the faults of `Chronicle::call`: nothing
    /// is then changed.
    pub fn call<R: Wait>(
        &self,
        rt: &R,
        alloc: Global,
        pass: &mut Pass,
        cmd: Cmd,
    ) -> Result<Reply, CallFault>
        requires office { pass.old.table ≡ self.now.table }
        requires still { moves_seat cmd ≡ false }
        ensures same { IsSamePass pass.old pass.new }
        ensures answered { IfOk result (λ reply. Called pass.old cmd reply pass.new) }
        ensures failed { IfErr result (λ fault. Fails pass.old cmd fault pass.new) }
    {
        pass.ticket.call(rt, alloc, &self.table, cmd)
    }

    /// An attempt at a `call`, which does not wait: where another caller has the desk it is `Busy`, and nothing is changed, nor
    /// has its caller seen more. It makes one atomic operation then, and else those of a `call` that waits for nobody. All else is
    /// as with `call`.
    pub fn try_call(
        &self,
        alloc: Global,
        pass: &mut Pass,
        cmd: Cmd,
    ) -> Attempt<Result<Reply, CallFault>, ()>
        requires office { pass.old.table ≡ self.now.table }
        requires still { moves_seat cmd ≡ false }
        ensures same { IsSamePass pass.old pass.new }
        ensures answered { IfMade result (λ answer. IfOk answer (λ reply. Called pass.old cmd reply pass.new)) }
        ensures failed { IfMade result (λ answer. IfErr answer (λ fault. Fails pass.old cmd fault pass.new)) }
        ensures busy { IfBusy result (λ _. pass.new ≡ pass.old) }
    {
        pass.ticket.try_call(alloc, &self.table, cmd)
    }

    /// The same by a placed worker, which stays where it is.
    pub fn call_placed<R: Wait>(
        &self,
        rt: &R,
        alloc: Global,
        placed: &mut Placed,
        cmd: Cmd,
    ) -> Result<Reply, CallFault>
        requires office { placed.old.who.table ≡ self.now.table }
        requires still { moves_seat cmd ≡ false }
        ensures same { IsSamePass placed.old.who placed.new.who }
        ensures answered { IfOk result (λ reply. Called placed.old.who cmd reply placed.new.who) }
        ensures failed { IfErr result (λ fault. Fails placed.old.who cmd fault placed.new.who) }
        ensures arena { placed.new.arena ≡ placed.old.arena }
    {
        placed.ticket.call(rt, alloc, &self.table, cmd)
    }

    /// An attempt at a `call_placed`.
    pub fn try_call_placed(
        &self,
        alloc: Global,
        placed: &mut Placed,
        cmd: Cmd,
    ) -> Attempt<Result<Reply, CallFault>, ()>
        requires office { placed.old.who.table ≡ self.now.table }
        requires still { moves_seat cmd ≡ false }
        ensures same { IsSamePass placed.old.who placed.new.who }
        ensures answered { IfMade result (λ answer. IfOk answer (λ reply. Called placed.old.who cmd reply placed.new.who)) }
        ensures failed { IfMade result (λ answer. IfErr answer (λ fault. Fails placed.old.who cmd fault placed.new.who)) }
        ensures arena { placed.new.arena ≡ placed.old.arena }
        ensures busy { IfBusy result (λ _. placed.new ≡ placed.old) }
    {
        placed.ticket.try_call(alloc, &self.table, cmd)
    }

    /// Asks for an arena in need of a worker. Whatever others do, the seat is not placed before: so it is never told that it is.
    /// The faults are those of `call`; the pass then comes back.
    pub fn join<R: Wait>(&self, rt: &R, alloc: Global, pass: Pass) -> Joined<Pass, Placed>
        requires office { pass.table ≡ self.now.table }
        ensures exact { HasJoined pass result }
    {
        let Pass { mut ticket } = pass;
        let answer = ticket.call(rt, alloc, &self.table, Cmd::Join);
        Self::after_join(ticket, answer)
    }

    /// An attempt at a `join`.
    pub fn try_join(&self, alloc: Global, pass: Pass) -> Attempt<Joined<Pass, Placed>, Pass>
        requires office { pass.table ≡ self.now.table }
        ensures exact { IfMade result (λ joined. HasJoined pass joined) }
        ensures busy { IfBusy result (λ back. back ≡ pass) }
    {
        let Pass { mut ticket } = pass;
        match ticket.try_call(alloc, &self.table, Cmd::Join) {
            Attempt::Made(answer) => Attempt::Made(Self::after_join(ticket, answer)),
            Attempt::Busy(()) => Attempt::Busy(Pass { ticket }),
        }
    }

    /// What a Join has made of its caller.
    #[inline(always)]
    fn after_join(ticket: Ticket, answer: Result<Reply, CallFault>) -> Joined<Pass, Placed>
        requires answers { IfOk answer (λ reply. Answers None Join reply) }
        requires moved { IfOk answer (λ reply. own_place ticket.mine ≡ place_after None reply) }
        requires still { OnErr answer (own_place ticket.mine ≡ None) }
        ensures ok { IfOk answer (λ reply. (p : OfPass) → Called p Join reply ticket → HasJoined p result) }
        ensures err { IfErr answer (λ fault. (p : OfPass) → Fails p Join fault ticket → HasJoined p result) }
    {
        match answer {
            Ok(reply) => match &reply {
                Reply::Placed(arena) => Joined::Placed(Placed {
                    ticket,
                    arena: *arena,
                }),
                Reply::Idle => Joined::Idle(Pass { ticket }),
                _ => unreachable!(),
            },
            Err(fault) => Joined::Failed(Pass { ticket }, fault),
        }
    }

    /// Asks whether the worker's arena still wants it. Whatever others do, the seat is placed there before. The faults are those
    /// of `call`; the worker then stays placed.
    pub fn stay<R: Wait>(&self, rt: &R, alloc: Global, placed: Placed) -> Stayed<Pass, Placed>
        requires office { placed.who.table ≡ self.now.table }
        ensures exact { HasStayed placed result }
    {
        let Placed { mut ticket, arena } = placed;
        let answer = ticket.call(rt, alloc, &self.table, Cmd::Stay);
        Self::after_stay(ticket, arena, answer)
    }

    /// An attempt at a `stay`.
    pub fn try_stay(&self, alloc: Global, placed: Placed) -> Attempt<Stayed<Pass, Placed>, Placed>
        requires office { placed.who.table ≡ self.now.table }
        ensures exact { IfMade result (λ stayed. HasStayed placed stayed) }
        ensures busy { IfBusy result (λ back. back ≡ placed) }
    {
        let Placed { mut ticket, arena } = placed;
        match ticket.try_call(alloc, &self.table, Cmd::Stay) {
            Attempt::Made(answer) => Attempt::Made(Self::after_stay(ticket, arena, answer)),
            Attempt::Busy(()) => Attempt::Busy(Placed { ticket, arena }),
        }
    }

    /// What a Stay has made of the worker of this arena.
    #[inline(always)]
    fn after_stay(
        ticket: Ticket,
        arena: ArenaId,
        answer: Result<Reply, CallFault>,
    ) -> Stayed<Pass, Placed>
        requires answers { IfOk answer (λ reply. Answers (Some arena) Stay reply) }
        requires moved { IfOk answer (λ reply. own_place ticket.mine ≡ place_after (Some arena) reply) }
        requires still { OnErr answer (own_place ticket.mine ≡ Some arena) }
        ensures ok { IfOk answer (λ reply. (p : OfPlaced) → p.arena ≡ arena → Called p.who Stay reply ticket → HasStayed p result) }
        ensures err { IfErr answer (λ fault. (p : OfPlaced) → p.arena ≡ arena → Fails p.who Stay fault ticket → HasStayed p result) }
    {
        match answer {
            Ok(reply) => match &reply {
                Reply::Stays(_) => Stayed::Stays(Placed { ticket, arena }),
                Reply::Recalled(_) => Stayed::Recalled(Pass { ticket }),
                _ => unreachable!(),
            },
            Err(fault) => Stayed::Failed(Placed { ticket, arena }, fault),
        }
    }

    /// The worker leaves its arena. It takes no memory and is never refused.
    pub fn leave<R: Wait>(&self, rt: &R, placed: Placed) -> Pass
        requires office { placed.who.table ≡ self.now.table }
        ensures exact { Called placed.who Leave (Left placed.arena) result }
    {
        let Placed {
            mut ticket,
            arena: _,
        } = placed;
        match ticket.call(rt, self.alloc, &self.table, Cmd::Leave) {
            Ok(_) => Pass { ticket },
            Err(_) => unreachable!(),
        }
    }

    /// An attempt at a `leave`. It takes no memory, and is not refused where the desk is at home.
    pub fn try_leave(&self, placed: Placed) -> Attempt<Pass, Placed>
        requires office { placed.who.table ≡ self.now.table }
        ensures exact { IfMade result (λ pass. Called placed.who Leave (Left placed.arena) pass) }
        ensures busy { IfBusy result (λ back. back ≡ placed) }
    {
        let Placed { mut ticket, arena } = placed;
        match ticket.try_call(self.alloc, &self.table, Cmd::Leave) {
            Attempt::Made(Ok(_)) => Attempt::Made(Pass { ticket }),
            Attempt::Made(Err(_)) => unreachable!(),
            Attempt::Busy(()) => Attempt::Busy(Placed { ticket, arena }),
        }
    }

    /// Takes out the entries that the office keeps, as the next part of its history: they take no place any more. The caller has
    /// then seen the whole history, which the part ends; the part begins where the last cut was, by whichever caller. `spare` comes
    /// in the entries' stead: it is emptied before the lock is taken, and nothing is allocated, so that the lock is held for a
    /// constant time. `spare` needs room for one entry for each seat that is placed at that moment, whoever calls from it: each of
    /// these workers is to find room for its Leave there. Room for as many entries as the office has seats is always enough. The
    /// answer is `None` where `spare` has less room than that, where the office was not opened by `open_in_parts`, and where the
    /// history is longer than 18,446,744,073,708,503,039 entries; nothing is then cut out. It waits for the lock, and for nothing else.
    pub fn cut<R: Wait>(&self, rt: &R, pass: &mut Pass, spare: Vec<Entry>) -> Option<Part>
        requires office { pass.old.table ≡ self.now.table }
        ensures same { IsSamePass pass.old pass.new }
        ensures legal { IsLegal (opening_of pass.new.terms) pass.new.seen }
        ensures looks { Looks pass.old pass.new }
        ensures later { pass.old.from ≤ pass.new.from }
        ensures part { IfSome result (λ part. EndsWith pass.new.seen part.from part.entries.items) }
        ensures goes_on { IfSome result (λ part. pass.old.from ≤ part.from) }
        ensures all { OnSome result (pass.new.from ≡ length pass.new.seen) }
        ensures cuts { HasCut pass.old result pass.new }
        ensures countable { OnSome result (length pass.new.seen ≤ most_forgotten) }
        ensures in_parts { OnSome result (pass.old.terms.keeping ≡ InParts) }
        ensures room { OnSome result (seats_placed_after pass.old.terms pass.new.seen ≤ vec_capacity spare) }
        ensures enough { pass.old.terms.keeping ≡ InParts → seats_placed_after pass.old.terms pass.new.seen ≤ vec_capacity spare → length pass.new.seen ≤ most_forgotten → IsSome result }
        ensures served { pass.old.terms.keeping ≡ InParts → pass.old.terms.opening.seats ≤ vec_capacity spare → length pass.new.seen ≤ most_forgotten → IsSome result }
    {
        let mut emptied = spare;
        emptied.clear();
        pass.ticket.cut(rt, &self.table, emptied)
    }

    /// An attempt at a `cut`. Where another caller has the desk the spare vector comes back, emptied, with the room that it had.
    pub fn try_cut(&self, pass: &mut Pass, spare: Vec<Entry>) -> Attempt<Option<Part>, Vec<Entry>>
        requires office { pass.old.table ≡ self.now.table }
        ensures same { IsSamePass pass.old pass.new }
        ensures legal { IfMade result (λ _. IsLegal (opening_of pass.new.terms) pass.new.seen) }
        ensures looks { IfMade result (λ _. Looks pass.old pass.new) }
        ensures later { IfMade result (λ _. pass.old.from ≤ pass.new.from) }
        ensures part { IfMade result (λ answer. IfSome answer (λ part. EndsWith pass.new.seen part.from part.entries.items)) }
        ensures goes_on { IfMade result (λ answer. IfSome answer (λ part. pass.old.from ≤ part.from)) }
        ensures all { IfMade result (λ answer. OnSome answer (pass.new.from ≡ length pass.new.seen)) }
        ensures cuts { IfMade result (λ answer. HasCut pass.old answer pass.new) }
        ensures countable { IfMade result (λ answer. OnSome answer (length pass.new.seen ≤ most_forgotten)) }
        ensures in_parts { IfMade result (λ answer. OnSome answer (pass.old.terms.keeping ≡ InParts)) }
        ensures room { IfMade result (λ answer. OnSome answer (seats_placed_after pass.old.terms pass.new.seen ≤ vec_capacity spare)) }
        ensures enough { IfMade result (λ answer. pass.old.terms.keeping ≡ InParts → seats_placed_after pass.old.terms pass.new.seen ≤ vec_capacity spare → length pass.new.seen ≤ most_forgotten → IsSome answer) }
        ensures served { IfMade result (λ answer. pass.old.terms.keeping ≡ InParts → pass.old.terms.opening.seats ≤ vec_capacity spare → length pass.new.seen ≤ most_forgotten → IsSome answer) }
        ensures busy { IfBusy result (λ _. pass.new ≡ pass.old) }
        ensures spare { IfBusy result (λ back. (back.items ≡ []) × (vec_capacity back ≡ vec_capacity spare)) }
    {
        let mut emptied = spare;
        emptied.clear();
        pass.ticket.try_cut(&self.table, emptied)
    }

    /// Takes all passes and placed workers back, and leaves one history: each of them had seen a beginning of it, and its entries
    /// are all that the history has of its seat. The entries that can be read are those since the last cut. Of an office in
    /// parts, all parts that the passes cut, put one behind the other by where they begin, and then these entries, are the whole
    /// history: no gap, nothing twice. It doesn't wait, and takes no memory.
    pub fn close(self, passes: Vec<Pass>, placed: Vec<Placed>) -> Closed
        requires own { All (λ (p : OfPass). p.table ≡ self.table) passes.items }
        requires own_placed { All (λ (p : OfPlaced). p.who.table ≡ self.table) placed.items }
        requires all { vec_len passes + vec_len placed ≡ self.terms.opening.seats }
        ensures headline { IsGivenBy (opening_of self.terms) result.chronicle }
        ensures whole { result.chronicle ≡ chronicle_cut self.terms result.chronicle.log result.chronicle.from }
        ensures passes { All (Met result.chronicle.log) passes.items }
        ensures placed { All (λ (p : OfPlaced). Met result.chronicle.log p.who) placed.items }
        ensures parts { AllParts self.terms.keeping result.chronicle.log result.chronicle.from passes.items placed.items }
        ensures calls { result.calls ≡ length result.chronicle.log }
        ensures calls_made { result.calls ≡ sum_by (λ (p : OfPass). length p.mine) passes.items + sum_by (λ (p : OfPlaced). length p.who.mine) placed.items }
        ensures workers { result.workers ≡ seats_placed (market_of result.chronicle) }
        ensures workers_placed { result.workers ≡ vec_len placed }
        ensures active { (a : ℕ) → active (market_of result.chronicle) a ≡ count_by (λ (p : OfPlaced). p.arena == a) placed.items }
    {
        let Office { table, alloc: _ } = self;
        let workers = placed.len() as u64;
        let mut seat = table.shared.load_new_seat::<Enter>(0).1;
        take_back_passes(&table, &mut seat, passes);
        take_back_placed(&table, &mut seat, placed);
        let mut closed = table.close_with(seat);
        let desk = closed.take(0);
        closed.free();
        let chronicle = desk.into_chronicle();
        // These two tell that the market still has its seats, and that a seat's own entries say where it is.
        let _ = chronicle.market();
        own_entries_place_a_seat();
        let calls = chronicle.len();
        Closed {
            chronicle,
            calls,
            workers,
        }
    }
}
