//! What the header of a journal tells.
ghost use Rattle.std.specs.Prelude.{◌≡◌, ◌≤◌, ◌^◌};
ghost use Rattle.journal_replay.specs.Journal.{fits_second, header_for};
ghost use Rattle.journal_replay.specs.Verdicts.{is_full, longest_journal};

use edit_history::MOST_PLACES;
use line_engine::LONGEST_INPUT;
use market_core::Market;
use market_types::{LastNumber, Opening};

/// The most entries of a journal that is limited.
const MOST_ENTRIES: u64 = MOST_PLACES as u64;

/// The most bytes of a journal that is endless.
const MOST_COUNTED: u64 = 9_223_372_036_854_775_808;

/// How many entries a journal may have.
#[derive(Clone, Copy, Debug, PartialEq, Eq)]
pub enum Extent {
    /// At most 1,048,576.
    Limited,
    /// Any number.
    Endless,
}

impl Extent {
    /// Whether no entry may follow so many.
    pub(crate) fn is_full(self, entries: u64) -> bool
        ensures { result ≡ is_full self entries }
    {
        match self {
            Extent::Limited => entries >= MOST_ENTRIES,
            Extent::Endless => false,
        }
    }

    /// The most bytes of a journal.
    pub(crate) fn most_bytes(self) -> u64
        ensures exact { result ≡ longest_journal self }
        ensures countable { result ≤ 2 ^ 63 }
    {
        match self {
            Extent::Limited => LONGEST_INPUT,
            Extent::Endless => MOST_COUNTED,
        }
    }
}

/// What the header of a journal tells.
#[derive(Clone, Copy, Debug, PartialEq, Eq)]
pub struct Header {
    /// What the market is opened with.
    pub opening: Opening,
    /// How many entries the journal may have.
    pub extent: Extent,
}

impl Header {
    /// The header of a journal of so many entries, of this market.
    pub fn of(market: &Market, extent: Extent) -> Self
        ensures { result ≡ header_for extent market.now }
    {
        Header {
            opening: market.opening(),
            extent,
        }
    }

    /// Whether version 2 tells all of it. That has no key for the last number, and a limit of entries.
    pub(crate) fn fits_second(&self) -> bool
        ensures { result ≡ fits_second self.now }
    {
        match self.extent {
            Extent::Limited => self.opening.last.get() == LastNumber::USUAL.get(),
            Extent::Endless => false,
        }
    }
}
