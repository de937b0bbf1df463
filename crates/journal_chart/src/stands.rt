//! Where an arena stands, in one word: the number of its level, or 0 where it does not live. So a row is asked once whether it is one of a level, and
//! not whether it is one of any first.
ghost use Rattle.std.specs.Prelude.{◌≡◌, None};
ghost use Rattle.market_types.specs.Allotment.{is_just};
ghost use Rattle.journal_chart.specs.Unkept.{IsAtLevel};

use market_types::Level;
use std::marker::Model;

/// The level at which an arena stands, if it lives: contracts see it as such an option.
#[derive(Clone, Copy)]
pub(crate) struct Standing {
    number: u32,
}

impl Model for Standing {
    ghost use Rattle.std.specs.Prelude.{Option, ℕ, ◌≤◌};
    ghost use Rattle.journal_chart.specs.Words.{level_word, of_level_word, level-word-back};

    ghost Value = { Option ℕ };

    ghost view = { λ s. of_level_word s.number };

    ghost invariant = { λ s. s.number ≤ 8 };

    ghost inverse = { λ stands. record { number = level_word stands } };

    ghost inverse_ok = { λ s h. λ i. record { number = level-word-back s.number i } };
}

impl Standing {
    /// At this level, or nowhere.
    #[inline(always)]
    pub(crate) fn of(stands: Option<Level>) -> Standing
        ensures { result ≡ stands }
    {
        match stands {
            Some(level) => Standing {
                number: level.get(),
            },
            None => Standing { number: 0 },
        }
    }

    /// The level, if the arena lives.
    #[inline(always)]
    pub(crate) fn level(self) -> Option<Level>
        ensures { result ≡ self }
    {
        Level::new(self.number)
    }

    /// At this level.
    #[inline(always)]
    pub(crate) fn is_at(self, level: Level) -> bool
        ensures exact { result ≡ is_just level self }
        ensures somewhere { IsAtLevel self }
    {
        self.number == level.get()
    }
}
