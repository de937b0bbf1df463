//! One pass of an office, and what it has written.
ghost use Rattle.std.specs.Prelude.{◌≡◌, ◌≤◌, ◌++◌, [], length, false, vec_capacity, IfOk, IfErr, OnOk, OnErr};
ghost use mathlib.Core.List.{IsPrefix};
ghost use Rattle.market_types.specs.Commands.{moves_seat};
ghost use Rattle.market_types.specs.History.{IsLegal};
ghost use Rattle.edit_history.specs.Chronicled.{most_forgotten};
ghost use Rattle.edit_history.specs.declared.keeping.Keeping.TheVariants.{InParts};
ghost use Rattle.market_lock.specs.Views.{opening_of};
ghost use Rattle.market_lock.specs.Seen.{IsSamePass, Looks, HasCut};
ghost use Rattle.market_lock.specs.Moves.{Called, Fails};
ghost use Rattle.office_crew.specs.Written.{part_of, HasMissed, IsElsewhere, HasWrittenAll, IsAlone};
ghost use Rattle.office_crew.specs.declared.missed.Missed.TheVariants.{NoPart};

use crate::missed::Missed;
use edit_history::{CallFault, Part};
use market_lock::{Office, Pass};
use market_types::{Cmd, Entry, Reply};
use std::alloc::Global;
use std::marker::Model;
use std::sync::Wait;

/// A caller that writes an office's history down. It can't be dropped, as its pass can't. Contracts see the pass, and all that the
/// scribe was handed: its parts one after the other, which begin the history that the pass has seen. It stores none of it.
pub struct Scribe {
    pass: Pass,
    next: u64,
}

impl Model for Scribe {
    ghost use Rattle.std.specs.Prelude.{◌≤◌, length, take};
    ghost use Rattle.office_crew.specs.Written.{OfScribe};

    ghost Value = { OfScribe };

    ghost view = { λ s. record { pass = s.pass; written = take s.next s.pass.seen } };

    ghost invariant = { λ s. s.next ≤ length s.pass.seen };
}

impl Scribe {
    /// A scribe that has written nothing: its first part is to begin with the first entry of the history.
    pub fn new(pass: Pass) -> Self
        ensures pass { result.pass ≡ pass }
        ensures nothing { result.written ≡ [] }
    {
        Scribe { pass, next: 0 }
    }

    /// The next part of the history, as `Office::cut` gives it. It goes on behind what was written, and with it all that the pass
    /// has seen is written. `NoPart` is as there. Where somebody else had cut, it is `Elsewhere` with the part, from then on at
    /// each call. Nothing is written then. A scribe that is the only one who cuts is never told `Elsewhere`.
    pub fn cut<R: Wait>(
        &mut self,
        rt: &R,
        office: &Office,
        spare: Vec<Entry>,
    ) -> Result<Part, Missed>
        requires office { self.old.pass.table ≡ office.now.table }
        ensures same { IsSamePass self.old.pass self.new.pass }
        ensures legal { IsLegal (opening_of self.new.pass.terms) self.new.pass.seen }
        ensures looks { Looks self.old.pass self.new.pass }
        ensures cuts { HasCut self.old.pass (part_of result) self.new.pass }
        ensures alone { HasWrittenAll self.old → IsAlone self.new → IfErr result (λ missed. missed ≡ NoPart) }
        ensures still_all { HasWrittenAll self.old → IsAlone self.new → HasWrittenAll self.new }
        ensures goes_on { IfOk result (λ part. part.from ≡ length self.old.written) }
        ensures written { IfOk result (λ part. self.new.written ≡ self.old.written ++ part.entries.items) }
        ensures all { OnOk result (self.new.written ≡ self.new.pass.seen) }
        ensures unwritten { OnErr result (self.new.written ≡ self.old.written) }
        ensures missed { IfErr result (λ missed. HasMissed self.old.written self.new.pass.seen missed) }
        ensures served { self.old.pass.terms.keeping ≡ InParts → self.old.pass.terms.opening.seats ≤ vec_capacity spare → length self.new.pass.seen ≤ most_forgotten → IfErr result (λ missed. IsElsewhere self.old.written self.new.pass.seen missed) }
    {
        let Some(part) = office.cut(rt, &mut self.pass, spare) else {
            return Err(Missed::NoPart);
        };
        if part.from != self.next {
            return Err(Missed::Elsewhere(part));
        }
        self.next = part.from + part.entries.len() as u64;
        Ok(part)
    }

    /// A call that moves no seat, by the scribe's pass, as `Office::call` makes it. It comes into the next part.
    pub fn call<R: Wait>(
        &mut self,
        rt: &R,
        alloc: Global,
        office: &Office,
        cmd: Cmd,
    ) -> Result<Reply, CallFault>
        requires office { self.old.pass.table ≡ office.now.table }
        requires still { moves_seat cmd ≡ false }
        ensures same { IsSamePass self.old.pass self.new.pass }
        ensures answered { IfOk result (λ reply. Called self.old.pass cmd reply self.new.pass) }
        ensures failed { IfErr result (λ fault. Fails self.old.pass cmd fault self.new.pass) }
        ensures unwritten { self.new.written ≡ self.old.written }
        ensures still_all { HasWrittenAll self.old → IsAlone self.new → HasWrittenAll self.new }
    {
        office.call(rt, alloc, &mut self.pass, cmd)
    }

    /// How many entries are written. They are the first ones of the history.
    pub fn written(&self) -> u64
        ensures exact { result ≡ length self.now.written }
        ensures front { IsPrefix self.now.written self.now.pass.seen }
    {
        self.next
    }

    /// The pass, with which an office can be closed. What was written is a beginning of what it has seen.
    pub fn into_pass(self) -> Pass
        ensures exact { result ≡ self.pass }
        ensures front { IsPrefix self.written result.seen }
    {
        let Scribe { pass, next: _ } = self;
        pass
    }
}
