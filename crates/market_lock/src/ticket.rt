//! What a pass and a placed worker have in common, an attempt at one call of it, and the call that waits.
ghost use Rattle.std.specs.Prelude.{◌≡◌, ◌<◌, ◌≤◌, length, true, false, vec_capacity, IfOk, IfErr, IsOk, IfSome, OnSome, IsSome};
ghost use Rattle.market_types.specs.Commands.{moves_seat};
ghost use Rattle.market_types.specs.History.{IsLegal, of_seat, place_after};
ghost use Rattle.market_core.specs.Moves.{Answers};
ghost use Rattle.edit_history.specs.Chronicled.{most_forgotten};
ghost use Rattle.edit_history.specs.Parts.{EndsWith};
ghost use Rattle.edit_history.specs.Places.{takes};
ghost use Rattle.edit_history.specs.declared.keeping.Keeping.TheVariants.{InParts};
ghost use Rattle.market_lock.specs.Workers.{own_place};
ghost use Rattle.market_lock.specs.Attempts.{IfMade, IfBusy};
ghost use Rattle.market_lock.specs.Cutting.{IsCutUp};
ghost use Rattle.market_lock.specs.Views.{opening_of, seats_placed_after, same_cuts, next_cuts};
ghost use Rattle.market_lock.specs.Rule.{Follows};
ghost use Rattle.market_lock.specs.Seen.{Extends, IsSamePass, Looks, OthersCut, HasCut};
ghost use Rattle.market_lock.specs.Moves.{Fails};
ghost use Rattle.market_lock.specs.Held.{IsOutside, HasTaken, HasDesk, HoldsDesk, HasGiven};
ghost use Rattle.market_lock.specs.Serving.{Serves, MayServe, Cuts};

use crate::attempt::Attempt;
use crate::rule::{Give, GiveCut, Place, Shelf, Take};
use edit_history::{CallFault, Part};
use market_types::{Cmd, Entry, Reply, SeatNo};
use std::alloc::Global;
use std::hint::spin_loop;
use std::marker::Model;
use std::sync::Wait;
use std::thread;

/// How many pauses of its processor a caller makes that lost for the first time.
const FEWEST_PAUSES: u32 = 16;

/// And how many at most.
const MOST_PAUSES: u32 = 512;

/// A seat of the table with its number, and how many of its calls were answered. It can't be dropped.
pub(crate) struct Ticket {
    pub seat: Place,
    pub number: SeatNo,
    pub calls: u64,
}

impl Model for Ticket {
    ghost use Rattle.std.specs.Prelude.{◌≡◌, []};
    ghost use Rattle.market_lock.specs.declared.view.View.TheVariants.{Outside};
    ghost use Rattle.market_lock.specs.Seen.{OfPass, known_of, pass_of, IsTicket};

    ghost Value = { OfPass };

    ghost view = { λ t. pass_of t.seat.table_id (known_of t.seat.me.0) };

    ghost invariant = { λ t. (t.seat.me ≡ (Outside (known_of t.seat.me.0), [])) × IsTicket (known_of t.seat.me.0) t.number t.calls };
}

/// Waits for so many pauses, and says how many it should be next time: twice as many, up to a bound. Who waits does not look at
/// the word, so that whoever calls meanwhile has it to itself, and with it the whole desk in its processor's memory. At the
/// bound the processor is given away, since it may be the one that whoever has the desk is waiting for.
fn wait_a_while(pauses: u32) -> u32 {
    for _ in 0..pauses {
        spin_loop();
    }
    if pauses < MOST_PAUSES {
        return pauses.saturating_mul(2);
    }
    thread::yield_now();
    MOST_PAUSES
}

/// Takes the desk, if it is at home, and says whether it was.
fn take(table: &Shelf, seat: &mut Place) -> bool
    requires table { (seat.old.table_id ≡ table.now.shared.table_id) × (table.now.shared.table_id.words ≡ 1) }
    requires seat { IsOutside seat.old.me }
    ensures table { seat.new.table_id ≡ seat.old.table_id }
    ensures taken { result ≡ true → HasTaken seat.old.me seat.new.me }
    ensures away { result ≡ false → seat.new.me ≡ seat.old.me }
{
    table.shared.compare_exchange::<Take>(seat, 0, 0, 1) == 0
}

/// One call of the desk that the seat has, which is counted where it is answered.
fn serve(
    alloc: Global,
    table: &Shelf,
    seat: &mut Place,
    calls: &mut u64,
    number: SeatNo,
    cmd: Cmd,
) -> Result<Reply, CallFault>
    requires table { seat.old.table_id ≡ table.now.shared.table_id }
    requires desk { HasDesk seat.old.me (λ d. MayServe number d calls.old) }
    ensures table { seat.new.table_id ≡ seat.old.table_id }
    ensures view { seat.new.me.0 ≡ seat.old.me.0 }
    ensures desk { HasDesk seat.old.me (λ d. HasDesk seat.new.me (λ e. Serves number cmd result d e calls.old calls.new)) }
{
    let desk = seat.slot_mut(&table.shared, 0);
    let answer = desk.serve(alloc, number, cmd);
    if answer.is_ok() {
        *calls += 1;
    }
    answer
}

/// The desk that the seat has hands out the entries that it keeps.
fn cut_off(table: &Shelf, seat: &mut Place, spare: Vec<Entry>) -> Option<Part>
    requires table { seat.old.table_id ≡ table.now.shared.table_id }
    requires desk { HasDesk seat.old.me (λ _. Unit {0}) }
    ensures table { seat.new.table_id ≡ seat.old.table_id }
    ensures view { seat.new.me.0 ≡ seat.old.me.0 }
    ensures desk { HasDesk seat.old.me (λ d. HasDesk seat.new.me (λ e. Cuts (vec_capacity spare) result d e)) }
{
    let desk = seat.slot_mut(&table.shared, 0);
    desk.cut(spare)
}

/// Gives the desk back.
fn give(table: &Shelf, seat: &mut Place)
    requires table { (seat.old.table_id ≡ table.now.shared.table_id) × (table.now.shared.table_id.words ≡ 1) × (table.now.shared.table_id.slots ≡ 1) }
    requires desk { HoldsDesk seat.old.me (λ k log from. Follows k log from (same_cuts k log)) }
    ensures table { seat.new.table_id ≡ seat.old.table_id }
    ensures seat { HasGiven same_cuts seat.old.me seat.new.me }
{
    table.shared.store::<Give>(seat, 0, 0);
}

/// Gives the desk back, from which this part was cut, or none.
fn give_cut(table: &Shelf, seat: &mut Place, part: &Option<Part>)
    requires table { (seat.old.table_id ≡ table.now.shared.table_id) × (table.now.shared.table_id.words ≡ 1) × (table.now.shared.table_id.slots ≡ 1) }
    requires desk { HoldsDesk seat.old.me (λ k log from. Follows k log from (next_cuts part.now k log)) }
    ensures table { seat.new.table_id ≡ seat.old.table_id }
    ensures seat { HasGiven (next_cuts part.now) seat.old.me seat.new.me }
{
    match part {
        Some(_) => table.shared.store::<GiveCut>(seat, 0, 0),
        None => give(table, seat),
    }
}

impl Ticket {
    /// An attempt at one call: the desk is taken, if it is at home, serves it, and is given back.
    #[inline(always)]
    pub fn try_call(
        &mut self,
        alloc: Global,
        table: &Shelf,
        cmd: Cmd,
    ) -> Attempt<Result<Reply, CallFault>, ()>
        requires { (self.old.table ≡ table.now.shared.table_id) × (table.now.shared.table_id.words ≡ 1) × (table.now.shared.table_id.slots ≡ 1) }
        ensures same { IsSamePass self.old self.new }
        ensures legal { IfMade result (λ _. IsLegal (opening_of self.new.terms) self.new.seen) }
        ensures ok { IfMade result (λ answer. IfOk answer (λ reply. Extends self.old cmd reply self.new)) }
        ensures err { IfMade result (λ answer. IfErr answer (λ fault. Fails self.old cmd fault self.new)) }
        ensures later { IfMade result (λ _. self.old.from ≤ self.new.from) }
        ensures cuts { IfMade result (λ _. OthersCut self.old self.new) }
        ensures answers { IfMade result (λ answer. IfOk answer (λ reply. Answers (own_place self.old.mine) cmd reply)) }
        ensures moved { IfMade result (λ answer. IfOk answer (λ reply. own_place self.new.mine ≡ place_after (own_place self.old.mine) reply)) }
        ensures still { moves_seat cmd ≡ false → own_place self.new.mine ≡ own_place self.old.mine }
        ensures never { IfMade result (λ answer. takes (own_place self.old.mine) cmd ≡ 0 → IsOk answer) }
        ensures busy { IfBusy result (λ _. self.new ≡ self.old) }
    {
        if !take(table, &mut self.seat) {
            return Attempt::Busy(());
        }
        let answer = serve(
            alloc,
            table,
            &mut self.seat,
            &mut self.calls,
            self.number,
            cmd,
        );
        give(table, &mut self.seat);
        Attempt::Made(answer)
    }

    /// One call: attempts at it, with pauses between them, until the desk was at home.
    pub fn call<R: Wait>(
        &mut self,
        rt: &R,
        alloc: Global,
        table: &Shelf,
        cmd: Cmd,
    ) -> Result<Reply, CallFault>
        requires { (self.old.table ≡ table.now.shared.table_id) × (table.now.shared.table_id.words ≡ 1) × (table.now.shared.table_id.slots ≡ 1) }
        ensures same { IsSamePass self.old self.new }
        ensures legal { IsLegal (opening_of self.new.terms) self.new.seen }
        ensures ok { IfOk result (λ reply. Extends self.old cmd reply self.new) }
        ensures err { IfErr result (λ fault. Fails self.old cmd fault self.new) }
        ensures later { self.old.from ≤ self.new.from }
        ensures cuts { OthersCut self.old self.new }
        ensures answers { IfOk result (λ reply. Answers (own_place self.old.mine) cmd reply) }
        ensures moved { IfOk result (λ reply. own_place self.new.mine ≡ place_after (own_place self.old.mine) reply) }
        ensures still { moves_seat cmd ≡ false → own_place self.new.mine ≡ own_place self.old.mine }
        ensures never { takes (own_place self.old.mine) cmd ≡ 0 → IsOk result }
    {
        let cmd = &cmd;
        let mut pauses = FEWEST_PAUSES;
        for _ in rt.forever() {
            match self.try_call(alloc, table, *cmd) {
                Attempt::Made(answer) => return answer,
                Attempt::Busy(()) => pauses = wait_a_while(pauses),
            }
        }
        unreachable!()
    }

    /// An attempt at a cut: the desk is taken, if it is at home, hands out the entries that it keeps, and is given back.
    #[inline(always)]
    pub fn try_cut(&mut self, table: &Shelf, spare: Vec<Entry>) -> Attempt<Option<Part>, Vec<Entry>>
        requires { (self.old.table ≡ table.now.shared.table_id) × (table.now.shared.table_id.words ≡ 1) × (table.now.shared.table_id.slots ≡ 1) }
        ensures same { IsSamePass self.old self.new }
        ensures legal { IfMade result (λ _. IsLegal (opening_of self.new.terms) self.new.seen) }
        ensures looks { IfMade result (λ _. Looks self.old self.new) }
        ensures later { IfMade result (λ _. self.old.from ≤ self.new.from) }
        ensures part { IfMade result (λ answer. IfSome answer (λ part. EndsWith self.new.seen part.from part.entries.items)) }
        ensures goes_on { IfMade result (λ answer. IfSome answer (λ part. self.old.from ≤ part.from)) }
        ensures all { IfMade result (λ answer. OnSome answer (self.new.from ≡ length self.new.seen)) }
        ensures cuts { IfMade result (λ answer. HasCut self.old answer self.new) }
        ensures countable { IfMade result (λ answer. OnSome answer (length self.new.seen ≤ most_forgotten)) }
        ensures in_parts { IfMade result (λ answer. OnSome answer (self.old.terms.keeping ≡ InParts)) }
        ensures room { IfMade result (λ answer. OnSome answer (seats_placed_after self.old.terms self.new.seen ≤ vec_capacity spare)) }
        ensures enough { IfMade result (λ answer. self.old.terms.keeping ≡ InParts → seats_placed_after self.old.terms self.new.seen ≤ vec_capacity spare → length self.new.seen ≤ most_forgotten → IsSome answer) }
        ensures served { IfMade result (λ answer. self.old.terms.keeping ≡ InParts → self.old.terms.opening.seats ≤ vec_capacity spare → length self.new.seen ≤ most_forgotten → IsSome answer) }
        ensures busy { IfBusy result (λ _. self.new ≡ self.old) }
        ensures spare { IfBusy result (λ back. back ≡ spare) }
    {
        if !take(table, &mut self.seat) {
            return Attempt::Busy(spare);
        }
        let part = cut_off(table, &mut self.seat, spare);
        give_cut(table, &mut self.seat, &part);
        Attempt::Made(part)
    }

    /// A cut: attempts at it, with pauses between them, until the desk was at home.
    pub fn cut<R: Wait>(&mut self, rt: &R, table: &Shelf, spare: Vec<Entry>) -> Option<Part>
        requires { (self.old.table ≡ table.now.shared.table_id) × (table.now.shared.table_id.words ≡ 1) × (table.now.shared.table_id.slots ≡ 1) }
        ensures same { IsSamePass self.old self.new }
        ensures legal { IsLegal (opening_of self.new.terms) self.new.seen }
        ensures looks { Looks self.old self.new }
        ensures later { self.old.from ≤ self.new.from }
        ensures part { IfSome result (λ part. EndsWith self.new.seen part.from part.entries.items) }
        ensures goes_on { IfSome result (λ part. self.old.from ≤ part.from) }
        ensures all { OnSome result (self.new.from ≡ length self.new.seen) }
        ensures cuts { HasCut self.old result self.new }
        ensures countable { OnSome result (length self.new.seen ≤ most_forgotten) }
        ensures in_parts { OnSome result (self.old.terms.keeping ≡ InParts) }
        ensures room { OnSome result (seats_placed_after self.old.terms self.new.seen ≤ vec_capacity spare) }
        ensures enough { self.old.terms.keeping ≡ InParts → seats_placed_after self.old.terms self.new.seen ≤ vec_capacity spare → length self.new.seen ≤ most_forgotten → IsSome result }
        ensures served { self.old.terms.keeping ≡ InParts → self.old.terms.opening.seats ≤ vec_capacity spare → length self.new.seen ≤ most_forgotten → IsSome result }
    {
        let mut spare = spare;
        let mut pauses = FEWEST_PAUSES;
        for _ in rt.forever() {
            match self.try_cut(table, spare) {
                Attempt::Made(part) => return part,
                Attempt::Busy(back) => spare = back,
            }
            pauses = wait_a_while(pauses);
        }
        unreachable!()
    }

    /// Its seat.
    pub fn number(&self) -> SeatNo
        ensures exact { result ≡ self.now.seat }
        ensures own { of_seat self.now.seat self.now.seen ≡ self.now.mine }
        ensures parts { IsCutUp self.now.terms.keeping self.now.seen self.now.from self.now.cuts }
        ensures legal { IsLegal (opening_of self.now.terms) self.now.seen }
    {
        self.number
    }

    /// How many of its calls were answered.
    pub fn calls(&self) -> u64
        ensures exact { result ≡ length self.now.mine }
    {
        self.calls
    }
}
