//! The controls that live.
ghost use Rattle.std.specs.Prelude.{◌≡◌, ◌↔◌, ◌≤◌, [], IsTrue, IsOk, OnOk, OnErr, IfOk, IfErr};
ghost use Rattle.market_types.specs.State.{State};
ghost use Rattle.market_types.specs.Allotment.{active_value};
ghost use Rattle.market_types.specs.Step.{control_step, uncontrol_step};
ghost use Rattle.market_types.specs.declared.reply.Fault.TheVariants.{NoControl};
ghost use Rattle.control_set.specs.Controls.{new_control, with_control, without_control, is_living};
ghost use Rattle.control_set.specs.Market.{controls_of, with_controls, control_reply, uncontrol_reply};

use crate::control::{LivingControl, is_among, least_of, least_with, take_out};
use market_types::{ControlId, Fault, LastNumber};
use std::alloc::{AllocError, Global};
use std::marker::Model;

/// The most controls that live at once.
const MOST_CONTROLS: usize = 256;

/// The controls that live, oldest first, and the number of the next.
#[derive(Debug, Drop)]
pub struct ControlSet {
    controls: Vec<LivingControl>,
    next: u32,
    least: Option<u32>,
}

impl Model for ControlSet {
    ghost use Rattle.control_set.specs.Controls.{Controls, IsKept};

    ghost Value = { Controls };

    ghost view = { λ c. record { living = c.controls.items; next = c.next } };

    ghost invariant = { λ c. IsKept c.controls.items c.least };
}

impl ControlSet {
    /// No control lives, and the next gets number 1. Takes no memory.
    pub fn new(alloc: Global) -> Self
        ensures empty { result ≡ record { living = []; next = 1 } }
    {
        ControlSet {
            controls: Vec::new(alloc),
            next: 1,
            least: None,
        }
    }

    /// Makes a control of this value, 1 to 65,536, and gives its number: from 1 to the last, never used before.
    ///
    /// Refuses by F09 another value, by F10 where 256 controls live, by F04 where the last number has been given, and
    /// then may need memory. It is as before wherever no control is made.
    pub fn make(
        &mut self,
        value: u32,
        last: LastNumber,
    ) -> Result<Result<ControlId, Fault>, AllocError>
        ensures answer { IfOk result (λ answer. answer ≡ new_control self.old value last) }
        ensures made { IfOk result (λ answer. OnOk answer (self.new ≡ with_control self.old value)) }
        ensures refused { IfOk result (λ answer. OnErr answer (self.new ≡ self.old)) }
        ensures memory_last { OnErr result (IsOk (new_control self.old value last)) }
        ensures unchanged { OnErr result (self.new ≡ self.old) }

        // In a market this is the command Control.
        ensures in_market { (s : State) → self.old ≡ controls_of s → s.last ≡ last
            → IfOk result (λ answer. control_step s value ≡ (control_reply answer, with_controls s self.new)) }
    {
        if value == 0 || value > 65536 {
            return Ok(Err(Fault::BadValue));
        }
        if self.controls.len() >= MOST_CONTROLS {
            return Ok(Err(Fault::TooManyControls));
        }
        if self.next > last.get() {
            return Ok(Err(Fault::OutOfNumbers));
        }
        let id = ControlId::new(self.next);
        self.controls.push(LivingControl { id, value })?;
        self.next += 1;
        self.least = Some(least_with(self.least, value));
        Ok(Ok(id))
    }

    /// Removes a control, or refuses by F11 where none of this number lives. Takes no memory, and walks over the
    /// controls that live.
    pub fn remove(&mut self, id: ControlId) -> Result<(), Fault>
        ensures removed { IsOk result ↔ IsTrue (is_living self.old id) }
        ensures after { OnOk result (self.new ≡ without_control self.old id) }
        ensures fault { IfErr result (λ fault. fault ≡ NoControl) }
        ensures unchanged { OnErr result (self.new ≡ self.old) }

        // In a market this is the command Uncontrol.
        ensures in_market { (s : State) → self.old ≡ controls_of s
            → uncontrol_step s id ≡ (uncontrol_reply result, with_controls s self.new) }
    {
        if !is_among(&self.controls, id) {
            return Err(Fault::NoControl);
        }
        take_out(&mut self.controls, id);
        self.least = least_of(&self.controls);
        Ok(())
    }

    /// The least value of a control that lives, or the base where none does. Takes no memory, and walks over nothing.
    pub fn active_value(&self, base: u32) -> u32
        ensures exact { result ≡ active_value base self.now.living }
        ensures low { 1 ≤ base → 1 ≤ result }
        ensures high { base ≤ 65536 → result ≤ 65536 }
    {
        self.least.unwrap_or(base)
    }
}
