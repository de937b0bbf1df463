//! What a chronicle is opened with.
ghost use Rattle.std.specs.Prelude.{◌≡◌, false, Ok, Err, IfOk, IfErr};
ghost use Rattle.market_types.specs.Opening.{opened_with, opening_with};
ghost use Rattle.edit_history.specs.Chronicled.{begun, opened_by};
ghost use Rattle.edit_history.specs.Faults.{bad_places, first_fault};

use crate::keeping::Keeping;
use market_types::{OpenFault, Opening};

/// The most places that a history can have, so the most entries of it that are kept.
pub const MOST_PLACES: u32 = 1_048_576;

/// What a chronicle is opened with.
#[derive(Clone, Copy, Debug, PartialEq, Eq)]
pub struct Terms {
    /// What its market is opened with.
    pub opening: Opening,
    /// How many places its history has, 1 to 1,048,576.
    pub places: u32,
    /// Which entries are to be kept.
    pub keeping: Keeping,
}

impl Terms {
    /// Whether a chronicle can be opened on these terms; else the first fault of `BadBase`, `BadHard`, `BadSeats`, `BadPlaces` and
    /// `BadLevels`.
    pub fn check(self) -> Result<(), OpenFault>
        ensures opened { IfOk result (λ _. opened_by self ≡ Ok (begun self)) }
        ensures market { IfOk result (λ _. opened_with self.opening ≡ Ok (opening_with self.opening)) }
        ensures places { IfOk result (λ _. bad_places self.places ≡ false) }
        ensures fault { IfErr result (λ fault. opened_by self ≡ Err fault) }
    {
        if let Err(fault) = self.opening.check() {
            return Err(first_fault(fault, self.places));
        }
        if are_bad(self.places) {
            return Err(OpenFault::BadPlaces);
        }
        Ok(())
    }
}

/// Whether no history can have so many places.
fn are_bad(places: u32) -> bool
    ensures { result ≡ bad_places places }
{
    places == 0 || places > MOST_PLACES
}

/// The first fault of a chronicle's numbers, where this one is its market's: bad places come before bad levels.
fn first_fault(fault: OpenFault, places: u32) -> OpenFault
    ensures { result ≡ first_fault fault (bad_places places) }
{
    match fault {
        OpenFault::BadBase | OpenFault::BadHard | OpenFault::BadSeats => fault,
        _ if are_bad(places) => OpenFault::BadPlaces,
        _ => fault,
    }
}
