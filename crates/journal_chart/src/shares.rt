//! What the levels of a market are given of what they ask for.
ghost use Rattle.std.specs.Prelude.{◌≡◌, ℕ, ◌+◌, ◌-◌, ◌*◌, ◌^◌, ◌≤◌, min, true, ◌==◌, ◌&&◌, ◌||◌, nat_lt, slice_index};
ghost use Rattle.market_types.specs.Step.{limits_of};
ghost use Rattle.journal_chart.specs.Unkept.{AreUnkept};
ghost use Rattle.journal_chart.specs.Shares.{apart, no_shares, shared_of};
ghost use Rattle.journal_chart.specs.Steps.{after_seat, is_joined, is_same_part, keeps_order, kept_levels, reordered, shared_after};

use crate::entry::keeps_order;
use crate::unkept::Unkept;
use market_core::Market;
use market_types::{Cmd, Level, LimitView};
use std::marker::Model;

/// What each level of a market is given of what it asks for, how many workers may be active, and how many seats are placed: contracts
/// see it as `Shared`.
#[derive(Drop)]
pub(crate) struct Shares {
    limit: u32,
    effective: u32,
    placed: u32,
    /// Levels above so many are given nothing, and ask for nothing.
    levels: usize,
    given: [u64; 8],
    asked: [u64; 8],
    /// How far what they ask for has drifted since the column began, 2^32 - 1 where that is more than can be counted.
    drift: u32,
}

impl Model for Shares {
    ghost use Rattle.journal_chart.specs.Shares.{AreFew, AreNoneAbove, Shared};

    ghost Value = { Shared };

    ghost view = { λ s. record { limit = s.limit; effective = s.effective; placed = s.placed; given = s.given; asked = s.asked; drift = s.drift } };

    ghost invariant = { λ s. AreFew s.given s.asked × AreNoneAbove s.levels s.given s.asked };
}

/// Before a command and after it no worker may be active, not even one for enqueued work.
#[inline(always)]
fn both_idle(was: u32, now: u32) -> bool
    ensures { result ≡ ((was == 0) && (now == 0)) }
{
    was == 0 && now == 0
}

/// Before a command and after it some worker may be active, and the arenas stand in the order in which they stood.
#[inline(always)]
fn both_divided(cmd: &Cmd, was: u32, now: u32) -> bool
    ensures { result ≡ (keeps_order cmd.now && (nat_lt 0 was && nat_lt 0 now)) }
{
    keeps_order(cmd) && (was > 0 && now > 0)
}

/// A level shares out what it is given as it did: it is given what it was of what it asked for, or nothing each time, or each time all. And how much what
/// it asks for has moved.
// Both at once, since most levels ask for what they did: then one test tells both.
#[inline(always)]
fn change_of(was_given: u64, given: u64, was_asked: u64, asked: u64) -> (bool, u64)
    ensures same { result.0 ≡ is_same_part was_given given was_asked asked }
    ensures moved { result.1 ≡ was_asked - asked + (asked - was_asked) }
{
    if was_given == given && was_asked == asked {
        return (true, 0);
    }
    let moved = was_asked.abs_diff(asked);
    if given == asked && was_given == was_asked {
        return (true, moved);
    }
    (given == 0 && was_given == 0, moved)
}

/// A level's arenas are allotted what they were, but for the one that a command is about.
#[inline(always)]
fn is_kept(idle: bool, divided: bool, same: bool) -> bool
    ensures { result ≡ (idle || (divided && same)) }
{
    idle || (divided && same)
}

/// How much what the levels ask for differs.
#[inline(always)]
fn apart(asked: &[u64; 8], other: &[u64; 8]) -> u64
    requires asked { (place : ℕ) → slice_index asked.now place ≤ 1024 * 65535 }
    requires other { (place : ℕ) → slice_index other.now place ≤ 1024 * 65535 }
    ensures exact { result ≡ apart 8 asked.now other.now }
    ensures few { result ≤ 8 * (1024 * 65535) }
{
    let mut apart = 0;
    for place in 0..8 {
        apart += asked[place].abs_diff(other[place]);
    }
    apart
}

/// What a command adds to the drift that may change the order of arenas, where their levels asked for this.
// Apart, since few commands do.
#[cold]
#[inline(never)]
fn turned(cmd: &Cmd, was: &[u64; 8]) -> u64
    requires was { (place : ℕ) → slice_index was.now place ≤ 1024 * 65535 }
    ensures exact { result ≡ reordered cmd.now was.now }
    ensures few { result ≤ 16 * (1024 * 65535) }
{
    if keeps_order(cmd) {
        return 0;
    }
    2 * apart(&[0; 8], was)
}

/// The same of any command, where `both_divided` has told of some that they change no order.
#[inline(always)]
fn reordered(divided: bool, cmd: &Cmd, was: &[u64; 8]) -> u64
    requires divided { divided ≡ true → keeps_order cmd.now ≡ true }
    requires was { (place : ℕ) → slice_index was.now place ≤ 1024 * 65535 }
    ensures exact { result ≡ reordered cmd.now was.now }
    ensures few { result ≤ 16 * (1024 * 65535) }
{
    if divided {
        return 0;
    }
    turned(cmd, was)
}

/// How far the levels have drifted, once what they ask for has moved by so much, and the order of arenas by this.
#[inline(always)]
fn drifted(drift: u32, moved: u64, reordered: u64) -> u32
    requires moved { moved ≤ 8 * (1024 * 65535) }
    requires reordered { reordered ≤ 16 * (1024 * 65535) }
    ensures { result ≡ min (drift + (moved + reordered)) (2 ^ 32 - 1) }
{
    (u64::from(drift) + (moved + reordered)).min(u64::from(u32::MAX)) as u32
}

impl Shares {
    /// Those of no market.
    pub(crate) fn none() -> Shares
        ensures { result ≡ no_shares }
    {
        Shares {
            limit: 0,
            effective: 0,
            placed: 0,
            levels: 0,
            given: [0; 8],
            asked: [0; 8],
            drift: 0,
        }
    }

    /// Those of a market with these limits, after a command, in place of those before it; and which levels' arenas are allotted what they were, and
    /// whether those of one level alone may not be.
    // In place: to make them anew and put them where those before were takes three copies, of words that were just written apart. And always in
    // its callers, so that what it tells stays in registers.
    #[inline(always)]
    pub(crate) fn renew(
        &mut self,
        market: &Market,
        limits: &LimitView,
        cmd: &Cmd,
    ) -> ([bool; 8], Unkept)
        requires { limits.now ≡ limits_of market.now }
        ensures shares { self.new ≡ shared_after cmd.now self.old market.now }
        ensures kept { result.0 ≡ kept_levels cmd.now self.old (shared_of market.now) market.now.levels }
        ensures unkept { AreUnkept result.0 result.1 }
    {
        let levels = market.levels() as usize;
        let idle = both_idle(self.effective, limits.effective);
        let divided = both_divided(cmd, self.limit, limits.limit);
        let mut kept = [true; 8];
        let (mut count, mut last) = (0, 0);
        let mut left = u64::from(limits.effective);
        let reordered = reordered(divided, cmd, &self.asked);
        let drift = self.drift;
        let mut moved = 0;
        // No level above those of the market, whose number most often is small, takes any time.
        for place in 0..levels {
            let demand = market.demand(Level::from_index(place));
            let share = demand.min(left);
            left -= share;
            let (same, by) = change_of(self.given[place], share, self.asked[place], demand);
            moved += by;
            self.given[place] = share;
            self.asked[place] = demand;
            if is_kept(idle, divided, same) {
                continue;
            }
            kept[place] = false;
            count += 1;
            last = place;
        }
        for place in levels..self.levels {
            self.given[place] = 0;
            self.asked[place] = 0;
        }
        self.drift = drifted(drift, moved, reordered);
        self.limit = limits.limit;
        self.effective = limits.effective;
        self.placed = market.placed();
        self.levels = levels;
        (kept, Unkept::of(count, last))
    }

    /// Nothing has drifted, as far as anybody has to know.
    #[inline(always)]
    pub(crate) fn rest(&mut self)
        ensures { self.new ≡ record self.old { drift = 0 } }
    {
        self.drift = 0;
    }

    /// How far what the levels ask for has drifted.
    #[inline]
    pub(crate) fn drift(&self) -> u32
        ensures { result ≡ self.now.drift }
    {
        self.drift
    }

    /// Those after a command of a seat, and whether one more seat is placed than before.
    #[inline]
    pub(crate) fn seat(&mut self, market: &Market) -> bool
        ensures shares { self.new ≡ after_seat market.now self.old }
        ensures more { result ≡ is_joined self.old (after_seat market.now self.old) }
    {
        let before = self.placed;
        self.placed = market.placed();
        u64::from(self.placed) == u64::from(before) + 1
    }

    /// How many workers may be active.
    #[inline]
    pub(crate) fn limit(&self) -> u32
        ensures { result ≡ self.now.limit }
    {
        self.limit
    }

    /// How many workers may be active, one for enqueued work included.
    #[inline]
    pub(crate) fn effective(&self) -> u32
        ensures { result ≡ self.now.effective }
    {
        self.effective
    }

    /// What a level is given.
    #[inline]
    pub(crate) fn given(&self, level: Level) -> u64
        ensures exact { result ≡ slice_index self.now.given (level - 1) }
        ensures few { result ≤ 1024 * 65535 }
        ensures within { result ≤ slice_index self.now.asked (level - 1) }
    {
        self.given[level.index()]
    }

    /// What a level asks for.
    #[inline]
    pub(crate) fn asked(&self, level: Level) -> u64
        ensures exact { result ≡ slice_index self.now.asked (level - 1) }
        ensures few { result ≤ 1024 * 65535 }
    {
        self.asked[level.index()]
    }
}
