//! One limit, and the least of several.
ghost use Rattle.std.specs.Prelude.{◌≡◌, Some, not, ◌==◌};
ghost use Rattle.std.specs.List.{filter, list_any};
ghost use Rattle.market_types.specs.State.{Control};
ghost use Rattle.control_set.specs.Controls.{least_of, least_with};

use market_types::ControlId;
use std::marker::Model;

/// A limit on parallelism that lives.
#[derive(Clone, Copy, Debug, PartialEq, Eq)]
pub struct LivingControl {
    pub id: ControlId,
    pub value: u32,
}

impl Model for LivingControl {
    ghost use Rattle.market_types.specs.State.{Control};

    ghost Value = { Control };

    ghost view = { λ c. record { number = c.id; value = c.value } };

    ghost inverse = { λ c. record { id = c.number; value = c.value } };
}

/// The lesser of a value and the least so far.
pub fn least_with(least: Option<u32>, value: u32) -> u32
    ensures { Some result ≡ least_with least value }
{
    match least {
        None => value,
        Some(other) => other.min(value),
    }
}

/// The least value, where some control lives.
pub fn least_of(controls: &[LivingControl]) -> Option<u32>
    ensures { result ≡ least_of controls.now }
{
    let mut least = None;
    for control in controls {
        least = Some(least_with(least, control.value));
    }
    least
}

/// A control of this number is among them.
pub fn is_among(controls: &[LivingControl], id: ControlId) -> bool
    ensures { result ≡ list_any (λ (d : Control). d.number == id) controls.now }
{
    controls.iter().any(|control| control.id == id)
}

/// Takes the control of this number out.
pub fn take_out(controls: &mut Vec<LivingControl>, id: ControlId)
    ensures { controls.new.items ≡ filter (λ (d : Control). not (d.number == id)) controls.old.items }
{
    controls.retain(|control| control.id != id);
}
