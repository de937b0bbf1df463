//! What tells that a moment adds nothing to the row of an arena that it is not about: that its level is kept, that its column has all that it may be
//! allotted, or all that it may be wherever it stands; or else what it is allotted.
ghost use Rattle.std.specs.Prelude.{◌≡◌, ◌<◌, true};
ghost use Rattle.journal_chart.specs.Steps.{has_few, has_share, is_covered, is_covered_at, is_divided, is_idle, is_spared, stands_kept};

use crate::covered::Covered;
use crate::row::Known;
use crate::shares::Shares;
use market_types::Level;

/// What levels are given tells what the arenas of this one are allotted: some worker may be active, as whoever calls may know (`DIVIDED`).
#[inline]
pub(crate) fn is_divided<const DIVIDED: bool>(now: &Shares, level: Level) -> bool
    requires { DIVIDED ≡ true → 0 < now.now.limit }
    ensures { result ≡ is_divided now.now level }
{
    // That there are 8 levels at most is what this call promises.
    let _ = level.index();
    DIVIDED || now.limit() > 0
}

/// Nothing is added to the column of an arena of which this is known, if it is allotted so many workers.
#[inline]
pub(crate) fn has_share(known: &Known, share: u32) -> bool
    ensures { result ≡ has_share known.now share }
{
    known.covered.from <= share && share < known.covered.below
}

/// No worker may be active, not even one for enqueued work.
#[inline]
pub(crate) fn is_idle(now: &Shares) -> bool
    ensures { result ≡ is_idle now.now }
{
    now.effective() == 0
}

/// A column has all that an arena may be allotted of which this is covered, where the limit is 0.
#[inline]
pub(crate) fn has_few(now: &Shares, covered: Covered) -> bool
    ensures { result ≡ has_few now.now covered }
{
    now.limit() == 0 && covered.from == 0 && now.effective() < covered.below
}

/// A column has all that an arena of a level may be allotted, of which this is known.
#[inline(always)]
pub(crate) fn is_covered<const DIVIDED: bool>(now: &Shares, known: &Known, level: Level) -> bool
    requires { DIVIDED ≡ true → 0 < now.now.limit }
    ensures { result ≡ is_covered now.now known.now level }
{
    if !is_divided::<DIVIDED>(now, level) {
        return has_few(now, known.covered);
    }
    known
        .covered
        .covers(known.request, now.given(level), now.asked(level))
}

/// The same of the level at which the arena stands, if it lives.
#[inline(always)]
pub(crate) fn is_covered_at<const DIVIDED: bool>(
    now: &Shares,
    known: &Known,
    stands: Option<Level>,
) -> bool
    requires { DIVIDED ≡ true → 0 < now.now.limit }
    ensures { result ≡ is_covered_at now.now known.now stands }
{
    match stands {
        Some(level) => is_covered::<DIVIDED>(now, known, level),
        None => false,
    }
}

/// A column has all that an arena of a level may be allotted, of which this is known, wherever in the level it may stand.
#[inline(always)]
pub(crate) fn is_spared<const DIVIDED: bool>(now: &Shares, known: &Known, level: Level) -> bool
    requires { DIVIDED ≡ true → 0 < now.now.limit }
    ensures { result ≡ is_spared now.now known.now level }
{
    let (given, asked) = (now.given(level), now.asked(level));
    is_divided::<DIVIDED>(now, level) && (asked > 0 && known.spot.holds(now.drift(), given, asked))
}

/// An arena that stands at such a level, or at none, is allotted what it was.
#[inline]
pub(crate) fn stands_kept(kept: &[bool; 8], stands: Option<Level>) -> bool
    ensures { result ≡ stands_kept kept.now stands }
{
    match stands {
        Some(level) => kept[level.index()],
        None => true,
    }
}
