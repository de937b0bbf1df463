//! Which allotments add nothing to a column.
ghost use Rattle.std.specs.Prelude.{◌≡◌, ◌*◌, ◌<◌, ◌≤◌};
ghost use Rattle.journal_chart.specs.Covering.{covered, covered_by, covers, exactly};

use crate::column::Column;
use crate::span::Span;

/// The allotments from one on that lie below another.
#[derive(Clone, Copy)]
pub(crate) struct Covered {
    pub(crate) from: u32,
    pub(crate) below: u32,
}

impl Covered {
    /// Those that add nothing to a column, nor their recalls nor their hires, where so many workers are active.
    #[inline(always)]
    pub(crate) fn of(allot: Column, recall: Column, hire: Column, active: u32) -> Covered
        ensures { result ≡ covered allot recall hire active }
    {
        if allot.has_numbers() && recall.has_numbers() && hire.has_numbers() {
            return Covered::by(allot.numbers(), recall.numbers(), hire.numbers(), active);
        }
        Covered { from: 0, below: 0 }
    }

    /// Those that these spans have.
    fn by(allot: Span, recall: Span, hire: Span, active: u32) -> Covered
        ensures { result ≡ covered_by allot recall hire active }
    {
        let active = u64::from(active);
        let unrecalled = active.saturating_sub(u64::from(recall.most));
        let hired = if hire.least == 0 {
            0
        } else {
            active + u64::from(hire.least)
        };
        let recalled = if recall.least == 0 {
            u64::from(allot.most) + 1
        } else {
            (active + 1).saturating_sub(u64::from(recall.least))
        };
        let from = u64::from(allot.least).max(unrecalled.max(hired));
        let below = (u64::from(allot.most) + 1).min(
            (active + u64::from(hire.most) + 1).min(recalled),
        );
        if from > u64::from(u32::MAX) || below > u64::from(u32::MAX) {
            return Covered { from: 0, below: 0 };
        }
        Covered {
            from: from as u32,
            below: below as u32,
        }
    }

    /// All are among these that an arena may be allotted which asks for so many workers of a level that is given so many of what it asks
    /// for.
    #[inline]
    pub(crate) fn covers(self, request: u32, given: u64, asked: u64) -> bool
        requires some { given ≤ 1024 * 65535 }
        requires small { asked ≤ 1024 * 65535 }
        ensures { result ≡ covers self request given asked }
    {
        // A level that asks for nobody has arenas that ask for nobody.
        if asked == 0 {
            return self.from == 0 && self.below > 0;
        }
        self.covers_some(request, given, asked)
    }

    /// The same where the level asks for some worker.
    #[inline]
    pub(crate) fn covers_some(self, request: u32, given: u64, asked: u64) -> bool
        requires some { given ≤ 1024 * 65535 }
        requires small { asked ≤ 1024 * 65535 }
        requires any { 0 < asked }
        ensures { result ≡ covers self request given asked }
    {
        let product = u64::from(request) * given;
        u64::from(self.from) * asked <= product && product + asked <= u64::from(self.below) * asked
    }
}

/// How many workers an arena is allotted which asks for so many of a level that is given so many of what it asks for, where this tells it.
pub(crate) fn exactly(request: u32, given: u64, asked: u64) -> Option<u32>
    requires some { given ≤ 1024 * 65535 }
    requires within { given ≤ asked }
    ensures { result ≡ exactly request given asked }
{
    if request == 0 || given == 0 {
        return Some(0);
    }
    if given == asked {
        return Some(request);
    }
    // The arena alone asks at its level.
    if u64::from(request) == asked {
        return Some(given as u32);
    }
    None
}
