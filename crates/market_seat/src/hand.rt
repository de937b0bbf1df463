//! What a seat has in hand, and what that can do at an office.
ghost use Rattle.std.specs.Prelude.{◌≡◌, ◌≤◌, length, vec_capacity, None, IfSome, OnSome, IsSome, is_some, is_none};
ghost use Rattle.market_types.specs.declared.command.Cmd.TheVariants.{Join, Stay, Leave};
ghost use Rattle.market_types.specs.declared.reply.Reply.TheVariants.{Left};
ghost use Rattle.market_types.specs.Commands.{moves_seat};
ghost use Rattle.market_types.specs.History.{IsLegal};
ghost use Rattle.edit_history.specs.Chronicled.{most_forgotten};
ghost use Rattle.edit_history.specs.Parts.{EndsWith};
ghost use Rattle.edit_history.specs.declared.keeping.Keeping.TheVariants.{InParts};
ghost use Rattle.market_lock.specs.Views.{opening_of, seats_placed_after};
ghost use Rattle.market_lock.specs.Seen.{IsSamePass, Looks, HasCut};
ghost use Rattle.market_lock.specs.Moves.{Called, Fails};
ghost use Rattle.market_seat.specs.Answered.{IfAnswered, IfFailed, IfUnasked, is_unfit, IfCut, IfUncut, is_unfit_to_cut, answer_to, joined_by, stayed_by, arena_of, place_kept};
ghost use Rattle.market_seat.specs.Seated.{who, place_of, HasPlace};

use crate::answer::{Answer, Cutting, Kept};
use edit_history::CallFault;
use market_lock::{Attempt, Joined, Office, Pass, Placed, Stayed};
use market_types::{ArenaId, Cmd, Entry, Reply};
use std::alloc::Global;

/// What a caller of an office has in hand: a pass, or the worker that it became.
pub enum Hand {
    /// Its seat is not placed.
    Free(Pass),
    /// Its seat is placed.
    Working(Placed),
}

/// What an attempt at a call came to.
#[inline(always)]
fn told(attempt: Attempt<Result<Reply, CallFault>, ()>) -> Answer<Reply>
    ensures { result ≡ answer_to attempt }
{
    match attempt {
        Attempt::Made(Ok(reply)) => Answer::Made(reply),
        Attempt::Made(Err(fault)) => Answer::Failed(fault),
        Attempt::Busy(()) => Answer::Busy,
    }
}

impl Hand {
    /// An attempt at a call that moves no seat.
    #[inline(always)]
    pub(crate) fn try_call(&mut self, office: &Office, alloc: Global, cmd: Cmd) -> Answer<Reply>
        requires office { (who self.old).table ≡ office.now.table }
        ensures same { IsSamePass (who self.old) (who self.new) }
        ensures still { place_of self.new ≡ place_of self.old }
        ensures answered { IfAnswered result (λ reply. Called (who self.old) cmd reply (who self.new)) }
        ensures failed { IfFailed result (λ fault. Fails (who self.old) cmd fault (who self.new)) }
        ensures unasked { IfUnasked result (self.new ≡ self.old) }
        ensures unfit { is_unfit result ≡ moves_seat cmd }
    {
        let cmd = &cmd;
        if (*cmd).moves_seat() {
            return Answer::Unfit;
        }
        match self {
            Hand::Free(pass) => told(office.try_call(alloc, pass, *cmd)),
            Hand::Working(worker) => told(office.try_call_placed(alloc, worker, *cmd)),
        }
    }

    /// An attempt at a cut.
    pub(crate) fn try_cut(&mut self, office: &Office, spare: Vec<Entry>) -> Cutting
        requires office { (who self.old).table ≡ office.now.table }
        ensures same { IsSamePass (who self.old) (who self.new) }
        ensures still { place_of self.new ≡ place_of self.old }
        ensures legal { IfCut result (λ _. IsLegal (opening_of (who self.new).terms) (who self.new).seen) }
        ensures looks { IfCut result (λ _. Looks (who self.old) (who self.new)) }
        ensures later { IfCut result (λ _. (who self.old).from ≤ (who self.new).from) }
        ensures part { IfCut result (λ answer. IfSome answer (λ part. EndsWith (who self.new).seen part.from part.entries.items)) }
        ensures goes_on { IfCut result (λ answer. IfSome answer (λ part. (who self.old).from ≤ part.from)) }
        ensures all { IfCut result (λ answer. OnSome answer ((who self.new).from ≡ length (who self.new).seen)) }
        ensures cuts { IfCut result (λ answer. HasCut (who self.old) answer (who self.new)) }
        ensures countable { IfCut result (λ answer. OnSome answer (length (who self.new).seen ≤ most_forgotten)) }
        ensures in_parts { IfCut result (λ answer. OnSome answer ((who self.old).terms.keeping ≡ InParts)) }
        ensures room { IfCut result (λ answer. OnSome answer (seats_placed_after (who self.old).terms (who self.new).seen ≤ vec_capacity spare)) }
        ensures enough { IfCut result (λ answer. (who self.old).terms.keeping ≡ InParts → seats_placed_after (who self.old).terms (who self.new).seen ≤ vec_capacity spare → length (who self.new).seen ≤ most_forgotten → IsSome answer) }
        ensures served { IfCut result (λ answer. (who self.old).terms.keeping ≡ InParts → (who self.old).terms.opening.seats ≤ vec_capacity spare → length (who self.new).seen ≤ most_forgotten → IsSome answer) }
        ensures uncut { IfUncut result (λ back. (self.new ≡ self.old) × (vec_capacity back ≡ vec_capacity spare)) }
        ensures unfit { is_unfit_to_cut result ≡ is_some (place_of self.old) }
    {
        let pass = match self {
            Hand::Free(pass) => pass,
            Hand::Working(_) => return Cutting::Unfit(spare),
        };
        match office.try_cut(pass, spare) {
            Attempt::Made(answer) => Cutting::Made(answer),
            Attempt::Busy(back) => Cutting::Busy(back),
        }
    }

    /// An attempt at a Join.
    pub(crate) fn try_join(self, office: &Office, alloc: Global) -> (Hand, Answer<Option<ArenaId>>)
        requires office { (who self).table ≡ office.now.table }
        ensures same { IsSamePass (who self) (who result.0) }
        ensures answered { IfAnswered result.1 (λ place. Called (who self) Join (joined_by place) (who result.0)) }
        ensures placed { IfAnswered result.1 (λ place. place_of result.0 ≡ place) }
        ensures failed { IfFailed result.1 (λ fault. Fails (who self) Join fault (who result.0)) }
        ensures still { IfFailed result.1 (λ _. place_of result.0 ≡ None) }
        ensures unasked { IfUnasked result.1 (result.0 ≡ self) }
        ensures unfit { is_unfit result.1 ≡ is_some (place_of self) }
    {
        let pass = match self {
            Hand::Free(pass) => pass,
            Hand::Working(worker) => return (Hand::Working(worker), Answer::Unfit),
        };
        match office.try_join(alloc, pass) {
            Attempt::Made(Joined::Placed(worker)) => {
                let arena = worker.arena();
                (Hand::Working(worker), Answer::Made(Some(arena)))
            }
            Attempt::Made(Joined::Idle(pass)) => (Hand::Free(pass), Answer::Made(None)),
            Attempt::Made(Joined::Failed(pass, fault)) => (Hand::Free(pass), Answer::Failed(fault)),
            Attempt::Busy(pass) => (Hand::Free(pass), Answer::Busy),
        }
    }

    /// An attempt at a Stay.
    pub(crate) fn try_stay(self, office: &Office, alloc: Global) -> (Hand, Answer<Kept>)
        requires office { (who self).table ≡ office.now.table }
        ensures same { IsSamePass (who self) (who result.0) }
        ensures answered { IfAnswered result.1 (λ kept. Called (who self) Stay (stayed_by kept) (who result.0)) }
        ensures from { IfAnswered result.1 (λ kept. HasPlace (arena_of kept) self) }
        ensures placed { IfAnswered result.1 (λ kept. place_of result.0 ≡ place_kept kept) }
        ensures failed { IfFailed result.1 (λ fault. Fails (who self) Stay fault (who result.0)) }
        ensures still { IfFailed result.1 (λ _. place_of result.0 ≡ place_of self) }
        ensures unasked { IfUnasked result.1 (result.0 ≡ self) }
        ensures unfit { is_unfit result.1 ≡ is_none (place_of self) }
    {
        let worker = match self {
            Hand::Working(worker) => worker,
            Hand::Free(pass) => return (Hand::Free(pass), Answer::Unfit),
        };
        let arena = worker.arena();
        match office.try_stay(alloc, worker) {
            Attempt::Made(Stayed::Stays(worker)) => {
                (Hand::Working(worker), Answer::Made(Kept::Wanted(arena)))
            }
            Attempt::Made(Stayed::Recalled(pass)) => {
                (Hand::Free(pass), Answer::Made(Kept::Recalled(arena)))
            }
            Attempt::Made(Stayed::Failed(worker, fault)) => {
                (Hand::Working(worker), Answer::Failed(fault))
            }
            Attempt::Busy(worker) => (Hand::Working(worker), Answer::Busy),
        }
    }

    /// An attempt at a Leave, which never fails.
    pub(crate) fn try_leave(self, office: &Office) -> (Hand, Answer<ArenaId>)
        requires office { (who self).table ≡ office.now.table }
        ensures same { IsSamePass (who self) (who result.0) }
        ensures answered { IfAnswered result.1 (λ arena. Called (who self) Leave (Left arena) (who result.0)) }
        ensures from { IfAnswered result.1 (λ arena. HasPlace arena self) }
        ensures left { IfAnswered result.1 (λ _. place_of result.0 ≡ None) }
        ensures never { IfFailed result.1 (λ _. ⊥) }
        ensures unasked { IfUnasked result.1 (result.0 ≡ self) }
        ensures unfit { is_unfit result.1 ≡ is_none (place_of self) }
    {
        let worker = match self {
            Hand::Working(worker) => worker,
            Hand::Free(pass) => return (Hand::Free(pass), Answer::Unfit),
        };
        let arena = worker.arena();
        match office.try_leave(worker) {
            Attempt::Made(pass) => (Hand::Free(pass), Answer::Made(arena)),
            Attempt::Busy(worker) => (Hand::Working(worker), Answer::Busy),
        }
    }
}
