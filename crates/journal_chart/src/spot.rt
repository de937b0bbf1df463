//! The place at which an arena stands in its level, as far as it is known between two moments at which the market is asked of it.
//!
//! An arena of a level that is given fewer workers than it asks for is allotted what lies between two quotients: of what is asked for before it, and of
//! that with its own request. So long as both stay among the same whole numbers, so does its allotment:
//!
//! ```text
//!   workers given    0          1          2          3          4
//!   to those before  |----------|----------|----------|----------|---     asked for, by the level's arenas in order
//!                                  <- === ->  one of many arenas: no worker, wherever it stands within its reach
//! ```
//!
//! What is asked for before an arena, and from it on, changes by no more than what its level asks for does, unless arenas change their order: so once the
//! market has told its place, two sums tell whether it has gone out of its reach, of what the level asks for and of how far the levels have drifted. Of a
//! thousand arenas that share a few workers the market is asked about one in three of those that may be allotted another number.
ghost use Rattle.std.specs.Prelude.{◌≡◌, ℕ, ◌+◌, ◌*◌, ◌/◌, ◌^◌, ◌<◌, ◌≤◌};
ghost use Rattle.journal_chart.specs.Spots.{holds, is_told, no_spot, reach_of, spot_by, spot_told, spot_within};

use crate::covered::Covered;

/// How far an arena is from being allotted what its column lacks, at a moment at which the market told its place.
#[derive(Clone, Copy)]
pub(crate) struct Spot {
    /// What its level was given: the market has to be asked again where that changes.
    pub(crate) given: u64,
    /// What its level asked for: 0 where no place is known.
    pub(crate) asked: u32,
    /// How far the levels had drifted, and twice the arena's reach.
    pub(crate) until: u32,
}

impl Spot {
    /// No place is known.
    pub(crate) fn none() -> Spot
        ensures { result ≡ no_spot }
    {
        Spot {
            given: 0,
            asked: 0,
            until: 0,
        }
    }

    /// The spot of an arena with such a reach.
    #[inline(always)]
    fn within(reach: u64, given: u64, asked: u64, drift: u32) -> Spot
        requires near { reach ≤ 1024 * 65535 }
        requires small { asked ≤ 1024 * 65535 }
        requires drift { drift < 2 ^ 30 }
        ensures { result ≡ spot_within reach given asked drift }
    {
        Spot {
            given,
            asked: asked as u32,
            until: (u64::from(drift) + 2 * reach) as u32,
        }
    }

    /// The spot of an arena of which this is covered, that asks for so many workers, before which so much is asked for, where its level is given so
    /// many of what it asks for, and the levels have drifted so far.
    #[inline(always)]
    fn of(covered: Covered, request: u32, before: u32, given: u64, asked: u64, drift: u32) -> Spot
        requires small { asked ≤ 1024 * 65535 }
        requires within { given ≤ asked }
        ensures { result ≡ spot_by covered request before given asked drift }
    {
        if given == 0 {
            return Spot::none();
        }
        let workers = workers_before(before, given, asked);
        if is_told(covered, request, before, given, asked, workers) && drift < 1 << 30 {
            let reach = reach_of(covered, request, before, given, asked, workers);
            return Spot::within(reach, given, asked, drift);
        }
        Spot::none()
    }

    /// The same where its place may be of use.
    #[inline(always)]
    pub(crate) fn told(
        before: Option<u32>,
        covered: Covered,
        request: u32,
        given: u64,
        asked: u64,
        drift: u32,
    ) -> Spot
        requires small { asked ≤ 1024 * 65535 }
        requires within { given ≤ asked }
        ensures { result ≡ spot_told before covered request given asked drift }
    {
        match before {
            Some(before) => Spot::of(covered, request, before, given, asked, drift),
            None => Spot::none(),
        }
    }

    /// What the arena is allotted is covered, if its level is given so many of what it asks for, and the levels have drifted so far.
    #[inline(always)]
    pub(crate) fn holds(self, drift: u32, given: u64, asked: u64) -> bool
        requires small { asked ≤ 1024 * 65535 }
        ensures { result ≡ holds self drift given asked }
    {
        let (so_far, until) = (u64::from(drift), u64::from(self.until));
        let was = u64::from(self.asked);
        self.given == given
            && (drift < u32::MAX
                && (so_far + asked <= until + was && so_far + was <= until + asked))
    }
}

/// How many workers the arenas are given before which so much is asked for.
#[inline(always)]
fn workers_before(before: u32, given: u64, asked: u64) -> u64
    requires any { 0 < asked }
    requires small { asked ≤ 1024 * 65535 }
    requires within { given ≤ asked }
    ensures exact { result ≡ before * given / asked }
    ensures few { result < 2 ^ 32 }
{
    u64::from(before) * given / asked
}

/// What an arena is allotted is covered, if those before it are given so many workers; and its level is given as many as that takes.
#[inline(always)]
fn is_told(
    covered: Covered,
    request: u32,
    before: u32,
    given: u64,
    asked: u64,
    workers: u64,
) -> bool
    requires small { asked ≤ 1024 * 65535 }
    requires within { given ≤ asked }
    requires workers { workers < 2 ^ 32 }
    ensures { result ≡ is_told covered request before given asked workers }
{
    let end = (u64::from(before) + u64::from(request)) * given;
    let last = workers + u64::from(covered.below);
    last <= given && ((workers + u64::from(covered.from)) * asked <= end && end < last * asked)
}

/// By how much what is asked for before the arena, and from it on, may become another number, with what it is allotted covered all the same.
#[inline(always)]
fn reach_of(
    covered: Covered,
    request: u32,
    before: u32,
    given: u64,
    asked: u64,
    workers: u64,
) -> u64
    requires some { 0 < given }
    requires small { asked ≤ 1024 * 65535 }
    requires within { given ≤ asked }
    requires workers { workers < 2 ^ 32 }
    requires from { (workers + covered.from) * asked ≤ (before + request) * given }
    requires below { (before + request) * given < (workers + covered.below) * asked }
    ensures exact { result ≡ reach_of covered request before given asked workers }
    ensures few { result ≤ 1024 * 65535 }
{
    let end = (u64::from(before) + u64::from(request)) * given;
    let start = u64::from(before) * given % asked;
    let over = end - (workers + u64::from(covered.from)) * asked;
    let under = (workers + u64::from(covered.below)) * asked - 1 - end;
    start.min(asked - 1 - start).min(over.min(under)) / given
}
