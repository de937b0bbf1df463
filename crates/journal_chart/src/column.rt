//! A column of a line: the least and the most of its numbers, where it has any.
//!
//! Most of what a chart does is to put a number more into a column, and to make two columns one. So a column is two words without a tag: the least
//! of its numbers, and how many numbers lie above the most. None is the greatest word twice, and so no number and all numbers above it:
//!
//! ```text
//!   numbers          least        above
//!   none             4294967295   4294967295
//!   7                7            4294967288
//!   7, 3 and 5       3            4294967288
//! ```
//!
//! A number more, or another column, is then the lesser of both words, with no branch that asks whether there are numbers yet; two columns say
//! the same where their words are the same; and two columns take two more by one minimum of four words (`joined_pairs`).
ghost use Rattle.std.specs.Prelude.{◌≡◌, None, Some, is_some, true};
ghost use Rattle.journal_chart.specs.Columns.{alone, joined};
ghost use Rattle.journal_chart.specs.Picture.{same_span};

use crate::halving::Joins;
use crate::span::Span;
use std::marker::Model;
use std::simd::prelude::*;

/// The least and the most of some numbers, if there are any: contracts see it as a span, or none.
#[derive(Clone, Copy)]
pub struct Column {
    least: u32,
    above: u32,
}

impl Model for Column {
    ghost use Rattle.std.specs.Prelude.{Option};
    ghost use Rattle.journal_chart.specs.declared.span.Span.{Span};
    ghost use Rattle.journal_chart.specs.Words.{HasNumbers, above_word, least_word, of_words, words-back};

    ghost Value = { Option Span };

    ghost view = { λ c. of_words c.least c.above };

    ghost invariant = { λ c. HasNumbers c.least c.above };

    ghost inverse = { λ s. record { least = least_word s; above = above_word s } };

    ghost inverse_ok = { λ c h. λ i. record { least = (words-back c.least c.above h).0 i; above = (words-back c.least c.above h).1 i } };
}

impl Column {
    /// No numbers.
    pub(crate) fn none() -> Column
        ensures { result ≡ None }
    {
        Column {
            least: u32::MAX,
            above: u32::MAX,
        }
    }

    /// A number alone.
    #[inline]
    pub(crate) fn of(number: u32) -> Column
        ensures { result ≡ alone (Some number) }
    {
        Column {
            least: number,
            above: u32::MAX - number,
        }
    }

    /// The least and the most, if there are numbers.
    #[inline]
    pub fn span(self) -> Option<Span>
        ensures { result ≡ self }
    {
        let most = u32::MAX - self.above;
        if self.least <= most {
            Some(Span {
                least: self.least,
                most,
            })
        } else {
            None
        }
    }

    /// There are numbers.
    #[inline]
    pub(crate) fn has_numbers(self) -> bool
        ensures { result ≡ is_some self }
    {
        self.least <= u32::MAX - self.above
    }

    /// The least and the most of its numbers.
    // For who asked whether there are any: an option would be made anew, number by number.
    #[inline]
    pub(crate) fn numbers(self) -> Span
        requires { is_some self ≡ true }
        ensures { Some result ≡ self }
    {
        Span {
            least: self.least,
            most: u32::MAX - self.above,
        }
    }

    /// The numbers of both.
    #[inline]
    pub(crate) fn joined(self, other: Column) -> Column
        ensures { result ≡ joined self other }
    {
        Column {
            least: self.least.min(other.least),
            above: self.above.min(other.above),
        }
    }

    /// Both say the same.
    #[inline]
    pub(crate) fn is_same(self, other: Column) -> bool
        ensures { result ≡ same_span self other }
    {
        self.least == other.least && self.above == other.above
    }

    /// These and a number more.
    #[inline]
    pub(crate) fn with(self, number: u32) -> Column
        ensures { result ≡ joined self (alone (Some number)) }
    {
        self.joined(Column::of(number))
    }
}

impl Joins for Column {
    ghost use Rattle.std.specs.Prelude.{None};
    ghost use Rattle.journal_chart.specs.Columns.{joined};

    ghost nothing = { None };

    ghost both = { joined };

    #[inline(always)]
    fn nothing() -> Column {
        Column::none()
    }

    #[inline(always)]
    fn both(self, other: Column) -> Column {
        self.joined(other)
    }
}

/// The numbers of both firsts, and of both seconds, by one vector of four words.
#[inline(always)]
pub(crate) fn joined_pairs(ours: (Column, Column), others: (Column, Column)) -> (Column, Column)
    ensures first { result.0 ≡ joined ours.0 others.0 }
    ensures second { result.1 ≡ joined ours.1 others.1 }
{
    let words = u32x4::from_array([ours.0.least, ours.0.above, ours.1.least, ours.1.above]);
    let more = u32x4::from_array([
        others.0.least,
        others.0.above,
        others.1.least,
        others.1.above,
    ]);
    let [first_least, first_above, second_least, second_above] = words.simd_min(more).to_array();
    let first = Column {
        least: first_least,
        above: first_above,
    };
    let second = Column {
        least: second_least,
        above: second_above,
    };
    (first, second)
}
