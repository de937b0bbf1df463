//! An arena as the store holds it.
ghost use Rattle.std.specs.Prelude.{◌≡◌, ◌≤◌};
ghost use Rattle.arena_store.specs.Arenas.{level_row};

use arena_record::ArenaRecord;
use market_types::{ArenaId, Level, Row};
use std::marker::Model;

/// An arena: its number, the stamp of its last Open or Priority, its level, and its claim.
#[derive(Clone, Copy, Debug)]
pub struct StoredArena {
    arena: ArenaId,
    stamp: u32,
    level: Level,
    claim: ArenaRecord,
}

impl Model for StoredArena {
    ghost use Rattle.market_types.specs.State.{Arena};

    ghost Value = { Arena };

    ghost view = { λ s. record { number = s.arena; stamp = s.stamp; level = s.level; claim = s.claim } };

    ghost inverse = { λ a. record { arena = a.number; stamp = a.stamp; level = a.level; claim = a.claim } };
}

impl StoredArena {
    /// The arena of this number and stamp, at this level, with this claim.
    pub fn new(arena: ArenaId, stamp: u32, level: Level, claim: ArenaRecord) -> Self
        ensures { result ≡ record { number = arena; stamp = stamp; level = level; claim = claim } }
    {
        StoredArena {
            arena,
            stamp,
            level,
            claim,
        }
    }

    /// Its number.
    pub fn arena(self) -> ArenaId
        ensures { result ≡ self.number }
    {
        self.arena
    }

    /// The stamp of its last Open or Priority: a greater one is newer.
    pub fn stamp(self) -> u32
        ensures { result ≡ self.stamp }
    {
        self.stamp
    }

    /// Its level.
    pub fn level(self) -> Level
        ensures { result ≡ self.level }
    {
        self.level
    }

    /// What it may use and has asked for.
    pub fn claim(self) -> ArenaRecord
        ensures { result ≡ self.claim }
    {
        self.claim
    }

    /// The arena with another claim.
    pub(crate) fn with_claim(self, claim: ArenaRecord) -> StoredArena
        ensures { result ≡ record self { claim = claim } }
    {
        StoredArena { claim, ..self }
    }

    /// The arena at this level, with a new stamp.
    pub(crate) fn promoted(self, stamp: u32, level: Level) -> StoredArena
        ensures { result ≡ record self { stamp = stamp; level = level } }
    {
        StoredArena {
            stamp,
            level,
            ..self
        }
    }

    /// What the list of its level keeps of it.
    pub(crate) fn row(self) -> Row
        ensures exact { result ≡ level_row self }
        ensures small { result.request ≤ 65535 }
    {
        Row {
            stamp: self.stamp,
            arena: self.arena,
            request: self.claim.request(),
            mandated: self.claim.mandated(),
        }
    }
}
