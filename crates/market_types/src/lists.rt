//! Which arenas have workers too many or too few.
ghost use Rattle.std.specs.Prelude.{◌≡◌, ◌+◌, ◌++◌, [], ◌∷◌, length, IfOk, OnOk, OnErr};
ghost use Rattle.market_types.specs.declared.lists.Correction.TheVariants.{Recall, Hire};
ghost use Rattle.market_types.specs.Corrections.{counts_to};

use crate::number::ArenaId;
use std::alloc::{AllocError, Global};
use std::marker::Model;

/// What brings an arena's workers to as many as it is allotted.
#[derive(Clone, Copy, Debug, PartialEq, Eq)]
pub enum Correction {
    /// Some are too many.
    Recall,
    /// Some are too few.
    Hire,
}

/// An arena that has not as many workers as it is allotted.
#[derive(Clone, Copy, Debug, PartialEq, Eq)]
pub struct Imbalance {
    pub arena: ArenaId,
    pub correction: Correction,
    /// How many workers it has too many or too few.
    pub count: u32,
}

/// The arenas with recall counts above 0 and those with hire counts above 0, each with its count, in the order in which
/// arenas are served. An arena has one count or none, so all stand in one vector; contracts see it as a list of each kind.
#[derive(Debug, Drop)]
pub struct Lists {
    pub arenas: Vec<Imbalance>,
}

impl Model for Lists {
    ghost use Rattle.market_types.specs.declared.lists.Correction.TheVariants.{Recall, Hire};
    ghost use Rattle.market_types.specs.Corrections.{counts_to};
    ghost use Rattle.market_types.specs.Counts.{Counts};

    ghost Value = { Counts };

    ghost view = { λ l. record { recalls = counts_to Recall l.arenas.items; hires = counts_to Hire l.arenas.items } };
}

impl Lists {
    /// How many arenas are listed.
    #[tactic(auto, using(crate::proofs::Corrections::both_kinds))]
    pub fn len(&self) -> usize
        ensures exact { result ≡ length self.now.recalls + length self.now.hires }
    {
        self.arenas.len()
    }

    /// Puts an arena at the end of the list that it belongs to. Out of memory is the `Err`, and leaves the lists as they were.
    #[tactic(auto, using(crate::proofs::Corrections::counts_append))]
    pub fn push(&mut self, arena: Imbalance) -> Result<(), AllocError>
        ensures recalls { OnOk result (self.new.recalls ≡ self.old.recalls ++ counts_to Recall (arena ∷ [])) }
        ensures hires { OnOk result (self.new.hires ≡ self.old.hires ++ counts_to Hire (arena ∷ [])) }
        ensures unchanged { OnErr result (self.new ≡ self.old) }
    {
        self.arenas.push(arena)?;
        Ok(())
    }

    /// The same lists, in memory of their own. Out of memory is the `Err`.
    pub fn copied(&self, alloc: Global) -> Result<Lists, AllocError>
        ensures exact { IfOk result (λ lists. lists ≡ self.now) }
    {
        Ok(Lists {
            arenas: self.arenas.to_vec(alloc)?,
        })
    }
}
