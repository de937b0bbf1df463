//! A seat, and what it can do.
ghost use Rattle.std.specs.Prelude.{◌≡◌, ◌≢◌, ◌≤◌, if◌then◌else◌, true, ◌+◌, ◌++◌, [], ◌∷◌, length, vec_capacity, None, IfOk, IfErr, IfSome, IfNone, OnSome, IsSome, is_some, is_none, All, sum_by};
ghost use Rattle.market_types.specs.declared.command.Cmd.TheVariants.{Join, Stay, Leave};
ghost use Rattle.market_types.specs.declared.reply.Reply.TheVariants.{Left};
ghost use Rattle.market_types.specs.Commands.{moves_seat};
ghost use Rattle.market_types.specs.Opening.{MemoryAside};
ghost use Rattle.market_types.specs.History.{IsLegal};
ghost use Rattle.edit_history.specs.Chronicled.{market_of, opened_by, most_forgotten};
ghost use Rattle.edit_history.specs.Parts.{EndsWith};
ghost use Rattle.edit_history.specs.Places.{placed};
ghost use Rattle.edit_history.specs.declared.keeping.Keeping.TheVariants.{InParts};
ghost use Rattle.market_lock.specs.Views.{opening_of, chronicle_cut, seats_placed_after};
ghost use Rattle.market_lock.specs.Seen.{OfPass, Met, AllParts, Looks, HasCut};
ghost use Rattle.market_lock.specs.Moves.{Called, Fails};
ghost use Rattle.market_lock.specs.Headline.{IsGivenBy};
ghost use Rattle.market_seat.specs.Seated.{who, place_of, HasPlace, IsSameSeat, IsFresh, kept_by_seat, callers};
ghost use Rattle.market_seat.specs.Answered.{IfAnswered, IfFailed, IfUnasked, is_unfit, IfCut, IfUncut, is_unfit_to_cut, joined_by, stayed_by, arena_of, place_kept};
ghost use Rattle.market_seat.specs.declared.answer.WhyNot.TheVariants.{StillPlaced, OthersOut, Memory};
ghost use Rattle.market_seat.specs.declared.hand.Hand.TheVariants.{Free};

use crate::answer::{Answer, Asked, Cutting, Kept, Unclosed, Unmerged, WhyNot};
use crate::hand::Hand;
use edit_history::Terms;
use market_lock::{Closed, Office, Pass};
use market_types::{ArenaId, Cmd, Entry, OpenFault, Reply};
use std::alloc::Global;
use std::marker::Model;
use std::sync::Arc;

/// One caller's way into an office. It keeps the office alive, and has in hand what the caller calls with, and the passes of seats
/// that were not given out or that came back. It can't be dropped, as a pass can't: an office is closed with all of its seats.
pub struct Seat {
    office: Arc<Office, Global>,
    terms: Terms,
    hand: Hand,
    spare: Vec<Pass>,
}

impl Model for Seat {
    ghost use Rattle.std.specs.Prelude.{◌≡◌, All};
    ghost use Rattle.std.specs.Arc.{arc_value};
    ghost use Rattle.market_lock.specs.Seen.{OfPass};
    ghost use Rattle.market_seat.specs.Seated.{OfSeat, who};

    ghost Value = { OfSeat };

    ghost view = { λ s. record { office = arc_value s.office; hand = s.hand; spare = s.spare.items } };

    ghost invariant = { λ s. ((who s.hand).table ≡ (arc_value s.office).table) × All (λ (p : OfPass). p.table ≡ (arc_value s.office).table) s.spare.items × ((arc_value s.office).terms ≡ s.terms) };
}

impl Seat {
    /// The first seat of a new office on these terms, with the passes of all others. The faults are those of `Office::on_terms`:
    /// `BadBase`, `BadHard`, `BadSeats`, `BadPlaces`, `BadLevels`, then `Memory`.
    pub fn open(alloc: Global, terms: Terms) -> Result<Seat, OpenFault>
        ensures exact { MemoryAside (opened_by terms) (kept_by_seat result) }
        ensures terms { IfOk result (λ s. s.office.terms ≡ terms) }
        ensures free { IfOk result (λ s. place_of s.hand ≡ None) }
        ensures all { IfOk result (λ s. length s.spare + 1 ≡ terms.opening.seats) }
        ensures fresh { IfOk result (λ s. All (IsFresh s.office) (callers s)) }
    {
        let (office, mut passes) = Office::on_terms(alloc, Terms { ..terms })?;
        match Arc::new(alloc, office) {
            Ok(office) => {
                let Some(pass) = passes.pop() else {
                    unreachable!()
                };
                Ok(Seat {
                    office,
                    terms,
                    hand: Hand::Free(pass),
                    spare: passes,
                })
            }
            Err(failed) => {
                drop(failed.value.close(passes, Vec::new(alloc)));
                Err(OpenFault::Memory)
            }
        }
    }

    /// What the office was opened with.
    pub fn terms(&self) -> Terms
        ensures exact { result ≡ self.now.office.terms }
    {
        self.terms
    }

    /// A seat for one more caller, by the last of the passes that were not given out or that came back. `None` where there is no
    /// such pass, or where 9,223,372,036,854,775,807 seats are out: nothing is then changed. It takes no memory.
    pub fn split(&mut self, alloc: Global) -> Option<Seat>
        ensures some { IfSome result (λ s. (s.hand ≡ Free (who s.hand)) × (self.old.spare ≡ self.new.spare ++ who s.hand ∷ [])) }
        ensures alone { IfSome result (λ s. s.spare ≡ []) }
        ensures office { IfSome result (λ s. s.office ≡ self.old.office) }
        ensures same { (self.new.office ≡ self.old.office) × (self.new.hand ≡ self.old.hand) }
        ensures none { IfNone result (self.new ≡ self.old) }
    {
        let Ok(office) = Arc::try_clone(&self.office) else {
            return None;
        };
        let pass = self.spare.pop()?;
        Some(Seat {
            office,
            terms: self.terms,
            hand: Hand::Free(pass),
            spare: Vec::new(alloc),
        })
    }

    /// Takes a seat of the same office back, with all passes that it has. At `Err` it comes back, and nothing is changed: it is
    /// `StillPlaced`, or out of memory.
    pub fn merge(&mut self, other: Seat) -> Result<(), Unmerged>
        requires office { other.office ≡ self.old.office }
        ensures ok { IfOk result (λ _. self.new.spare ≡ self.old.spare ++ callers other) }
        ensures free { IfOk result (λ _. place_of other.hand ≡ None) }
        ensures same { (self.new.office ≡ self.old.office) × (self.new.hand ≡ self.old.hand) }
        ensures err { IfErr result (λ refused. (refused.seat ≡ other) × (self.new ≡ self.old)) }
        ensures placed { IfErr result (λ refused. refused.why ≡ (if is_some (place_of other.hand) then StillPlaced else Memory)) }
    {
        let Seat {
            office,
            terms,
            hand,
            mut spare,
        } = other;
        let pass = match hand {
            Hand::Free(pass) => pass,
            Hand::Working(worker) => {
                let seat = Seat {
                    office,
                    terms,
                    hand: Hand::Working(worker),
                    spare,
                };
                return Err(Unmerged {
                    seat,
                    why: WhyNot::StillPlaced,
                });
            }
        };
        if self.spare.reserve(spare.len() + 1).is_err() {
            let seat = Seat {
                office,
                terms,
                hand: Hand::Free(pass),
                spare,
            };
            return Err(Unmerged {
                seat,
                why: WhyNot::Memory,
            });
        }
        let Ok(()) = self.spare.append(&mut spare) else {
            unreachable!()
        };
        spare.destroy_empty();
        self.spare.push_reserved(pass);
        Ok(())
    }

    /// Ends the office, once all of its seats are merged into this one, with what `Office::close` leaves. At `Err` the seat comes
    /// back as it was: it is `StillPlaced`, `OthersOut`, or out of memory.
    pub fn close(self, alloc: Global) -> Result<Closed, Unclosed>
        ensures headline { IfOk result (λ closed. IsGivenBy (opening_of self.office.terms) closed.chronicle) }
        ensures whole { IfOk result (λ closed. closed.chronicle ≡ chronicle_cut self.office.terms closed.chronicle.log closed.chronicle.from) }
        ensures passes { IfOk result (λ closed. All (Met closed.chronicle.log) (callers self)) }
        ensures parts { IfOk result (λ closed. AllParts self.office.terms.keeping closed.chronicle.log closed.chronicle.from (callers self) []) }
        ensures calls { IfOk result (λ closed. closed.calls ≡ length closed.chronicle.log) }
        ensures calls_made { IfOk result (λ closed. closed.calls ≡ sum_by (λ (p : OfPass). length p.mine) (callers self)) }
        ensures all { IfOk result (λ _. length (callers self) ≡ self.office.terms.opening.seats) }
        ensures unplaced { IfOk result (λ closed. closed.workers ≡ 0) }
        ensures nobody { IfOk result (λ closed. placed (market_of closed.chronicle) ≡ 0) }
        ensures err { IfErr result (λ refused. refused.seat ≡ self) }
        ensures placed { IfErr result (λ refused. refused.why ≡ StillPlaced → is_some (place_of self.hand) ≡ true) }
        ensures others { length (callers self) ≢ self.office.terms.opening.seats → IfErr result (λ refused. refused.why ≡ (if is_some (place_of self.hand) then StillPlaced else OthersOut)) }
    {
        let Seat {
            office,
            terms,
            hand,
            mut spare,
        } = self;
        let pass = match hand {
            Hand::Free(pass) => pass,
            Hand::Working(worker) => {
                let seat = Seat {
                    office,
                    terms,
                    hand: Hand::Working(worker),
                    spare,
                };
                return Err(Unclosed {
                    seat,
                    why: WhyNot::StillPlaced,
                });
            }
        };
        let why = if spare.len() + 1 != terms.opening.seats as usize {
            WhyNot::OthersOut
        } else if spare.reserve(1).is_err() {
            WhyNot::Memory
        } else {
            match Arc::try_unwrap(office) {
                Ok(office) => {
                    spare.push_reserved(pass);
                    return Ok(office.close(spare, Vec::new(alloc)));
                }
                Err(office) => {
                    let seat = Seat {
                        office,
                        terms,
                        hand: Hand::Free(pass),
                        spare,
                    };
                    return Err(Unclosed {
                        seat,
                        why: WhyNot::OthersOut,
                    });
                }
            }
        };
        let seat = Seat {
            office,
            terms,
            hand: Hand::Free(pass),
            spare,
        };
        Err(Unclosed { seat, why })
    }

    /// An attempt at a call that moves no seat, by the seat, placed or not. A command that moves a seat is `Unfit`. The faults are
    /// those of `Office::call`.
    #[inline(always)]
    pub fn try_call(&mut self, alloc: Global, cmd: Cmd) -> Answer<Reply>
        ensures same { IsSameSeat self.old self.new }
        ensures still { place_of self.new.hand ≡ place_of self.old.hand }
        ensures answered { IfAnswered result (λ reply. Called (who self.old.hand) cmd reply (who self.new.hand)) }
        ensures failed { IfFailed result (λ fault. Fails (who self.old.hand) cmd fault (who self.new.hand)) }
        ensures unasked { IfUnasked result (self.new ≡ self.old) }
        ensures unfit { is_unfit result ≡ moves_seat cmd }
    {
        self.hand.try_call(&self.office, alloc, cmd)
    }

    /// An attempt at a cut: the next part of the history, as `Office::cut` gives it, and as there none where `spare` has too little
    /// room, where the office does not keep its entries in parts, or where the history is too long. A seat that is placed is
    /// `Unfit`. Room for one entry for each seat of the office is always enough. It takes no memory.
    pub fn try_cut(&mut self, spare: Vec<Entry>) -> Cutting
        ensures same { IsSameSeat self.old self.new }
        ensures still { place_of self.new.hand ≡ place_of self.old.hand }
        ensures legal { IfCut result (λ _. IsLegal (opening_of (who self.new.hand).terms) (who self.new.hand).seen) }
        ensures looks { IfCut result (λ _. Looks (who self.old.hand) (who self.new.hand)) }
        ensures later { IfCut result (λ _. (who self.old.hand).from ≤ (who self.new.hand).from) }
        ensures part { IfCut result (λ answer. IfSome answer (λ part. EndsWith (who self.new.hand).seen part.from part.entries.items)) }
        ensures goes_on { IfCut result (λ answer. IfSome answer (λ part. (who self.old.hand).from ≤ part.from)) }
        ensures all { IfCut result (λ answer. OnSome answer ((who self.new.hand).from ≡ length (who self.new.hand).seen)) }
        ensures cuts { IfCut result (λ answer. HasCut (who self.old.hand) answer (who self.new.hand)) }
        ensures countable { IfCut result (λ answer. OnSome answer (length (who self.new.hand).seen ≤ most_forgotten)) }
        ensures in_parts { IfCut result (λ answer. OnSome answer ((who self.old.hand).terms.keeping ≡ InParts)) }
        ensures room { IfCut result (λ answer. OnSome answer (seats_placed_after (who self.old.hand).terms (who self.new.hand).seen ≤ vec_capacity spare)) }
        ensures enough { IfCut result (λ answer. (who self.old.hand).terms.keeping ≡ InParts → seats_placed_after (who self.old.hand).terms (who self.new.hand).seen ≤ vec_capacity spare → length (who self.new.hand).seen ≤ most_forgotten → IsSome answer) }
        ensures served { IfCut result (λ answer. (who self.old.hand).terms.keeping ≡ InParts → (who self.old.hand).terms.opening.seats ≤ vec_capacity spare → length (who self.new.hand).seen ≤ most_forgotten → IsSome answer) }
        ensures uncut { IfUncut result (λ back. (self.new ≡ self.old) × (vec_capacity back ≡ vec_capacity spare)) }
        ensures unfit { is_unfit_to_cut result ≡ is_some (place_of self.old.hand) }
    {
        self.hand.try_cut(&self.office, spare)
    }

    /// An attempt at a Join: the arena at which the seat then is placed, or none that is in need of a worker. A seat that is placed
    /// is `Unfit`. The faults are those of `Office::join`.
    pub fn try_join(self, alloc: Global) -> Asked<Option<ArenaId>>
        ensures same { IsSameSeat self result.seat }
        ensures answered { IfAnswered result.answer (λ place. Called (who self.hand) Join (joined_by place) (who result.seat.hand)) }
        ensures placed { IfAnswered result.answer (λ place. place_of result.seat.hand ≡ place) }
        ensures failed { IfFailed result.answer (λ fault. Fails (who self.hand) Join fault (who result.seat.hand)) }
        ensures still { IfFailed result.answer (λ _. place_of result.seat.hand ≡ None) }
        ensures unasked { IfUnasked result.answer (result.seat ≡ self) }
        ensures unfit { is_unfit result.answer ≡ is_some (place_of self.hand) }
    {
        let Seat {
            office,
            terms,
            hand,
            spare,
        } = self;
        let (hand, answer) = hand.try_join(&office, alloc);
        let seat = Seat {
            office,
            terms,
            hand,
            spare,
        };
        Asked { seat, answer }
    }

    /// An attempt at a Stay: whether the seat's arena still wants it. A seat that is not placed is `Unfit`. The faults are those of
    /// `Office::stay`.
    pub fn try_stay(self, alloc: Global) -> Asked<Kept>
        ensures same { IsSameSeat self result.seat }
        ensures answered { IfAnswered result.answer (λ kept. Called (who self.hand) Stay (stayed_by kept) (who result.seat.hand)) }
        ensures from { IfAnswered result.answer (λ kept. HasPlace (arena_of kept) self.hand) }
        ensures placed { IfAnswered result.answer (λ kept. place_of result.seat.hand ≡ place_kept kept) }
        ensures failed { IfFailed result.answer (λ fault. Fails (who self.hand) Stay fault (who result.seat.hand)) }
        ensures still { IfFailed result.answer (λ _. place_of result.seat.hand ≡ place_of self.hand) }
        ensures unasked { IfUnasked result.answer (result.seat ≡ self) }
        ensures unfit { is_unfit result.answer ≡ is_none (place_of self.hand) }
    {
        let Seat {
            office,
            terms,
            hand,
            spare,
        } = self;
        let (hand, answer) = hand.try_stay(&office, alloc);
        let seat = Seat {
            office,
            terms,
            hand,
            spare,
        };
        Asked { seat, answer }
    }

    /// An attempt at a Leave: the arena that the seat has left. A seat that is not placed is `Unfit`. It takes no memory, and never
    /// fails.
    pub fn try_leave(self) -> Asked<ArenaId>
        ensures same { IsSameSeat self result.seat }
        ensures answered { IfAnswered result.answer (λ arena. Called (who self.hand) Leave (Left arena) (who result.seat.hand)) }
        ensures from { IfAnswered result.answer (λ arena. HasPlace arena self.hand) }
        ensures left { IfAnswered result.answer (λ _. place_of result.seat.hand ≡ None) }
        ensures never { IfFailed result.answer (λ _. ⊥) }
        ensures unasked { IfUnasked result.answer (result.seat ≡ self) }
        ensures unfit { is_unfit result.answer ≡ is_none (place_of self.hand) }
    {
        let Seat {
            office,
            terms,
            hand,
            spare,
        } = self;
        let (hand, answer) = hand.try_leave(&office);
        let seat = Seat {
            office,
            terms,
            hand,
            spare,
        };
        Asked { seat, answer }
    }
}
