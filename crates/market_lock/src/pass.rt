//! A caller's pass, and a worker that is placed.
ghost use Rattle.std.specs.Prelude.{◌≡◌, Some, None, length};
ghost use Rattle.market_types.specs.History.{IsLegal, place_in};
ghost use Rattle.market_lock.specs.Cutting.{IsCutUp};
ghost use Rattle.market_lock.specs.Views.{opening_of};

use crate::ticket::Ticket;
use edit_history::CallFault;
use market_types::{ArenaId, SeatNo};
use std::marker::Model;

/// The right to call an office from one seat, while that seat is not placed. It can't be dropped: an office closes with all of its
/// passes. Contracts see what its caller knows: the history that it saw last, its own entries in it, and all parts that had been
/// cut out of it then: by which seat, and where each began and ended.
pub struct Pass {
    pub(crate) ticket: Ticket,
}

impl Model for Pass {
    ghost use Rattle.std.specs.Prelude.{◌≡◌, None};
    ghost use Rattle.market_lock.specs.Workers.{own_place};
    ghost use Rattle.market_lock.specs.Seen.{OfPass};

    ghost Value = { OfPass };

    ghost view = { λ p. p.ticket };

    ghost invariant = { λ p. own_place p.ticket.mine ≡ None };
}

/// The same while the seat is placed, as a worker of an arena. It can't be dropped either.
pub struct Placed {
    pub(crate) ticket: Ticket,
    pub(crate) arena: ArenaId,
}

impl Model for Placed {
    ghost use Rattle.std.specs.Prelude.{◌≡◌, Some};
    ghost use Rattle.market_lock.specs.Workers.{own_place};
    ghost use Rattle.market_lock.specs.Seen.{OfPlaced};

    ghost Value = { OfPlaced };

    ghost view = { λ p. record { who = p.ticket; arena = p.arena } };

    ghost invariant = { λ p. own_place p.ticket.mine ≡ Some p.arena };
}

impl Pass {
    /// Its seat, which the history that it saw does not place.
    pub fn seat(&self) -> SeatNo
        ensures exact { result ≡ self.now.seat }
        ensures unplaced { place_in self.now.seat self.now.seen ≡ None }
        ensures legal { IsLegal (opening_of self.now.terms) self.now.seen }
        ensures parts { IsCutUp self.now.terms.keeping self.now.seen self.now.from self.now.cuts }
    {
        self.ticket.number()
    }

    /// How many of its calls were answered: its part of what the office counts. It takes no memory and doesn't wait.
    pub fn calls(&self) -> u64
        ensures exact { result ≡ length self.now.mine }
    {
        self.ticket.calls()
    }
}

impl Placed {
    /// Its seat.
    pub fn seat(&self) -> SeatNo
        ensures exact { result ≡ self.now.who.seat }
        ensures legal { IsLegal (opening_of self.now.who.terms) self.now.who.seen }
        ensures parts { IsCutUp self.now.who.terms.keeping self.now.who.seen self.now.who.from self.now.who.cuts }
    {
        self.ticket.number()
    }

    /// How many of its calls were answered: its part of what the office counts. It takes no memory and doesn't wait.
    pub fn calls(&self) -> u64
        ensures exact { result ≡ length self.now.who.mine }
    {
        self.ticket.calls()
    }

    /// Its arena, at which the history that it saw places it.
    pub fn arena(&self) -> ArenaId
        ensures exact { result ≡ self.now.arena }
        ensures placed { place_in self.now.who.seat self.now.who.seen ≡ Some self.now.arena }
    {
        // That its own entries place it here is what its ticket promises.
        let _ = self.ticket.number();
        self.arena
    }
}

/// What a Join gives: `P` is the pass, `Q` the placed worker.
pub enum Joined<P, Q> {
    /// The seat is placed.
    Placed(Q),
    /// No arena is in need of a worker.
    Idle(P),
    /// The call was not answered, and nothing was changed.
    Failed(P, CallFault),
}

/// What a Stay gives: `P` is the pass, `Q` the placed worker.
pub enum Stayed<P, Q> {
    /// The arena still wants the worker.
    Stays(Q),
    /// The arena had a worker too many: the seat is no longer placed.
    Recalled(P),
    /// The call was not answered, and nothing was changed.
    Failed(Q, CallFault),
}
