//! What an arena may use, and the running totals of what it has asked for.
//!
//! A total above what the arena can use is not forgotten: the request is cut to it anew at each reading.
#![tactic(auto)]

ghost use Rattle.std.specs.Prelude.{◌≡◌, ◌≤◌, Ok, Err, OnOk, OnErr, IfErr};
ghost use Rattle.market_types.specs.Claims.{cap_of, request_of, is_mandated, sized, new_claim, added_claim, resized_claim};
ghost use Rattle.market_types.specs.State.{Claim};

use market_types::Fault;
use std::marker::Model;

/// The most slots that an arena can have.
const MOST_SLOTS: u32 = 65535;

/// The most enqueued work that an arena can count.
const MOST_MANDATORY: u32 = 65535;

/// The slots of an arena, and the running totals of its requests.
#[derive(Clone, Copy, Debug, PartialEq, Eq)]
pub struct ArenaRecord {
    slots: u32,
    reserved: u32,
    wanted: i32,
    mandatory: u32,
}

impl Model for ArenaRecord {
    ghost use Rattle.std.specs.Prelude.{◌≤◌};
    ghost use Rattle.market_types.specs.State.{Claim};

    ghost Value = { Claim };

    ghost view = { λ a. record {
      slots = a.slots;
      reserved = a.reserved;
      wanted = a.wanted;
      mandatory = a.mandatory;
    } };

    ghost invariant = { λ a. (1 ≤ a.slots) × (a.slots ≤ 65535) × (a.reserved ≤ a.slots) × (a.mandatory ≤ 65535) };

    ghost inverse = { λ c. record {
      slots = c.slots;
      reserved = c.reserved;
      wanted = c.wanted;
      mandatory = c.mandatory;
    } };
}

impl ArenaRecord {
    /// An arena that has asked for nothing: with 1 to 65,535 slots, else `BadSlots`, and at most all of them reserved,
    /// else `BadReserve`.
    pub fn new(slots: u32, reserved: u32) -> Result<Self, Fault>
        ensures exact { result ≡ new_claim slots reserved }
    {
        check_slots(slots, reserved)?;
        Ok(ArenaRecord {
            slots,
            reserved,
            wanted: 0,
            mandatory: 0,
        })
    }

    /// How many workers the arena can use, 0 to 65,535: its slots but the reserved ones. An arena of one slot, which is
    /// reserved, can use one for its enqueued work.
    pub fn cap(self) -> u32
        ensures exact { result ≡ cap_of self }
        ensures within { result ≤ self.slots }
        ensures small { result ≤ 65535 }
    {
        if self.slots == 1 && self.reserved == 1 && self.mandatory > 0 {
            1
        } else {
            self.slots - self.reserved
        }
    }

    /// How many workers the arena asks for, 0 to 65,535: the total wanted, at least 0 and at most the cap.
    pub fn request(self) -> u32
        ensures exact { result ≡ request_of self }
        ensures within { result ≤ cap_of self }
        ensures small { result ≤ 65535 }
    {
        if self.wanted < 0 {
            return 0;
        }
        (self.wanted as u32).min(self.cap())
    }

    /// How much enqueued work the arena has, 0 to 65,535.
    pub fn mandatory(self) -> u32
        ensures exact { result ≡ self.mandatory }
        ensures small { result ≤ 65535 }
    {
        self.mandatory
    }

    /// The arena has enqueued work, and asks for some worker.
    pub fn mandated(self) -> bool
        ensures exact { result ≡ is_mandated self }
    {
        self.mandatory > 0 && self.request() > 0
    }

    /// Adds to the total wanted and to the enqueued work, or to neither: `WantedRange` where the total would leave the
    /// range of an `i32`, then `MandatoryRange` where the enqueued work would leave 0 to 65,535.
    pub fn add(&mut self, workers: i32, mandatory: i32) -> Result<(), Fault>
        ensures ok { OnOk result (added_claim self.old workers mandatory ≡ Ok self.new) }
        ensures fault { IfErr result (λ fault. added_claim self.old workers mandatory ≡ Err fault) }
        ensures unchanged { OnErr result (self.new ≡ self.old) }
    {
        let Some(wanted) = self.wanted.checked_add(workers) else {
            return Err(Fault::WantedRange);
        };
        let count = i64::from(self.mandatory) + i64::from(mandatory);
        if count < 0 {
            return Err(Fault::MandatoryRange);
        }
        if count > i64::from(MOST_MANDATORY) {
            return Err(Fault::MandatoryRange);
        }
        self.wanted = wanted;
        self.mandatory = count as u32;
        Ok(())
    }

    /// Gives the arena other slots and leaves its totals. The refusals are those of `new`.
    pub fn resize(&mut self, slots: u32, reserved: u32) -> Result<(), Fault>
        ensures ok { OnOk result (resized_claim self.old slots reserved ≡ Ok self.new) }
        ensures fault { IfErr result (λ fault. resized_claim self.old slots reserved ≡ Err fault) }
        ensures unchanged { OnErr result (self.new ≡ self.old) }
    {
        check_slots(slots, reserved)?;
        self.slots = slots;
        self.reserved = reserved;
        Ok(())
    }
}

/// Whether an arena can have these slots.
fn check_slots(slots: u32, reserved: u32) -> Result<(), Fault>
    ensures in_range { OnOk result ((1 ≤ slots) × (slots ≤ 65535) × (reserved ≤ slots)) }
    ensures ok { OnOk result ((c : Claim) → sized slots reserved c ≡ Ok c) }
    ensures fault { IfErr result (λ fault. (c : Claim) → sized slots reserved c ≡ Err fault) }
{
    if slots == 0 || slots > MOST_SLOTS {
        return Err(Fault::BadSlots);
    }
    if reserved > slots {
        return Err(Fault::BadReserve);
    }
    Ok(())
}
