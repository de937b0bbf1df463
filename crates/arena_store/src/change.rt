//! What a command makes of an arena's claim.
ghost use Rattle.std.specs.Prelude.{◌≡◌};
ghost use Rattle.arena_store.specs.Changed.{changed};

use arena_record::ArenaRecord;
use market_types::Fault;

/// What an arena asks for, or the slots that it has, become something else.
#[derive(Clone, Copy, Debug)]
pub enum Change {
    /// So much is added to the workers that it wants, and to its enqueued work.
    Add(i32, i32),
    /// It has so many slots, and so many of them are reserved.
    Resize(u32, u32),
}

impl Change {
    /// The claim that is made of this one, or the refusal.
    pub(crate) fn made_to(self, claim: ArenaRecord) -> Result<ArenaRecord, Fault>
        ensures { result ≡ changed self claim }
    {
        let mut claim = claim;
        match self {
            Change::Add(workers, mandatory) => claim.add(workers, mandatory)?,
            Change::Resize(slots, reserved) => claim.resize(slots, reserved)?,
        }
        Ok(claim)
    }
}
