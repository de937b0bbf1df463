//! A chart of a history, one moment after another.
ghost use Rattle.std.specs.Prelude.{◌≡◌, ◌+◌, ◌*◌, ◌/◌, ◌<◌, ◌^◌, ℕ, nat_le, if◌then◌else◌, List, [], ◌∷◌, ◌++◌, IfOk, length, true};
ghost use Rattle.market_types.specs.State.{State};
ghost use Rattle.market_types.specs.Step.{step};
ghost use Rattle.journal_chart.specs.Columns.{width_of};
ghost use Rattle.journal_chart.specs.Numbers.{chart_of};
ghost use Rattle.journal_chart.specs.Numbering.{AreNumbered};
ghost use Rattle.journal_chart.specs.Shares.{shared_of};
ghost use Rattle.journal_chart.specs.Steps.{begun_chart, first_chart, goes_on, halved_lines, is_still, near_chart, next_chart, now_shared, passed_chart, taken_chart};

use crate::lines::Lines;
use crate::notes::Notes;
use crate::row::Known;
use crate::shares::Shares;
use crate::width::Width;
use market_core::Market;
use market_types::{ArenaId, Cmd, Reply};
use std::alloc::{AllocError, Global};
use std::marker::Model;

/// The lines of some arenas over the moments of a history, in at most so many columns: contracts see it as `Charted`. A column holds as
/// many moments as the others, a power of 2, and keeps the least and the most of each number.
#[derive(Drop)]
pub struct Chart {
    columns: u32,
    moments: u64,
    /// How many moments a column holds.
    width: Width,
    lines: Lines,
}

impl Model for Chart {
    ghost use Rattle.std.specs.Prelude.{◌≡◌, ◌<◌};
    ghost use Rattle.journal_chart.specs.Columns.{width_of};
    ghost use Rattle.journal_chart.specs.Numbers.{Charted};

    ghost Value = { Charted };

    ghost view = { λ c. record { most = c.columns; moments = c.moments; lines = c.lines } };

    ghost invariant = { λ c. (0 < c.columns) × (c.width ≡ width_of c.columns c.moments) };
}

impl Chart {
    /// The chart of these arenas, in at most so many columns, before the first moment of a market without arenas. It takes all the
    /// memory that it will ever need: 8 bytes for each column of each of six lines an arena.
    pub fn new(alloc: Global, columns: u32, arenas: &[ArenaId]) -> Result<Chart, AllocError>
        requires some { 0 < columns }
        ensures opened { (s : State) → s.arenas ≡ [] → IfOk result (λ chart. chart ≡ chart_of columns arenas.now [] s) }
    {
        Ok(Chart {
            columns,
            moments: 0,
            width: Width::one(),
            lines: Lines::new(alloc, columns as usize, arenas)?,
        })
    }

    /// How many moments were taken.
    pub fn moments(&self) -> u64
        ensures { result ≡ self.now.moments }
    {
        self.moments
    }

    /// At most how many columns there are.
    pub fn columns(&self) -> u32
        ensures { result ≡ self.now.most }
    {
        self.columns
    }

    /// How many moments a column holds.
    pub fn width(&self) -> u64
        ensures exact { result ≡ width_of self.now.most self.now.moments }
        ensures some { 0 < result }
    {
        self.width.number()
    }

    /// All lines.
    pub fn lines(&self) -> &Lines
        ensures { result.now ≡ self.now.lines }
    {
        &self.lines
    }

    /// Takes the moment after an entry: the market as it is after it, its command and its reply. It takes no memory, and
    /// 9,223,372,036,854,775,807 moments can be taken.
    pub fn take(&mut self, market: &Market, cmd: &Cmd, reply: &Reply)
        requires few { self.old.moments + 1 < 2 ^ 63 }
        ensures exact { (arenas : List ℕ) (moments : List State) (s : State) (seat : ℕ) → step s seat cmd.now ≡ (reply.now, market.now)
            → self.old ≡ chart_of self.old.most arenas moments s
            → self.new ≡ chart_of self.old.most arenas (moments ++ market.now ∷ []) market.now }
        ensures step { self.new ≡ taken_chart market.now cmd.now reply.now self.old }
    {
        make_room(&mut self.lines, self.columns, self.moments, &mut self.width);
        let place = self.width.place_of(self.moments) as usize;
        self.lines.take(place, market, cmd, reply);
        self.moments += 1;
    }

    /// The column of the next moment, if no other begins with it.
    fn place(&self) -> u64
        ensures { result ≡ self.now.moments / width_of self.now.most self.now.moments }
    {
        self.width.place_of(self.moments)
    }

    /// The next moment goes into the column of the last, which is at this place.
    fn goes_on(&self, place: u64) -> bool
        requires few { self.now.moments < 2 ^ 63 }
        requires place { place ≡ self.now.moments / width_of self.now.most self.now.moments }
        ensures { result ≡ goes_on self.now }
    {
        self.width.moments_before(place) < self.moments
    }

    /// Takes the first moment, as `take` does, what is then known of the arenas, and what the levels are given.
    // Apart, as `near` is, since each entry would else make room for all that is needed here.
    #[inline(never)]
    fn look(
        &mut self,
        known: &mut [Known],
        shares: &mut Shares,
        market: &Market,
        cmd: &Cmd,
        reply: &Reply,
    )
        requires few { self.old.moments + 1 < 2 ^ 63 }
        requires each { length known.old ≡ length self.old.lines.rows }
        ensures chart { self.new ≡ taken_chart market.now cmd.now reply.now self.old }
        ensures known { known.new ≡ (first_chart market.now cmd.now reply.now self.old).known }
        ensures shares { shares.new ≡ shared_of market.now }
    {
        make_room(&mut self.lines, self.columns, self.moments, &mut self.width);
        let place = self.width.place_of(self.moments) as usize;
        self.lines.look(known, shares, place, market, cmd, reply);
        self.moments += 1;
    }

    /// Takes the first moment of a column, where the moment before was taken, and this was then known of the arenas: what is then known of them,
    /// and what the levels are given.
    #[inline(never)]
    fn begin(
        &mut self,
        known: &mut [Known],
        shares: &mut Shares,
        market: &Market,
        cmd: &Cmd,
        reply: &Reply,
    )
        requires few { self.old.moments + 1 < 2 ^ 63 }
        requires each { length known.old ≡ length self.old.lines.rows }
        ensures chart { self.new ≡ (begun_chart market.now cmd.now reply.now (record { chart = self.old; known = known.old; shares = shares.old })).chart }
        ensures known { known.new ≡ (begun_chart market.now cmd.now reply.now (record { chart = self.old; known = known.old; shares = shares.old })).known }
        ensures shares { shares.new ≡ shared_of market.now }
    {
        make_room(&mut self.lines, self.columns, self.moments, &mut self.width);
        let place = self.width.place_of(self.moments) as usize;
        self.lines.begin(known, shares, place, market, cmd, reply);
        self.moments += 1;
    }

    /// Takes the moment after an entry into the column of the last moment, which is at this place and was taken before, and what is then kept
    /// of the market.
    #[inline(never)]
    fn near(&mut self, notes: &mut Notes, place: u64, market: &Market, cmd: &Cmd, reply: &Reply)
        requires few { self.old.moments + 1 < 2 ^ 63 }
        requires place { place ≡ self.old.moments / width_of self.old.most self.old.moments }
        requires on { goes_on self.old ≡ true }
        requires each { length notes.old.known.items ≡ length self.old.lines.rows }
        requires numbered { AreNumbered notes.old.first self.old.lines.rows }
        ensures chart { self.new ≡ (near_chart market.now cmd.now reply.now (record { chart = self.old; known = notes.old.known.items; shares = notes.old.shares })).chart }
        ensures known { notes.new.known.items ≡ (near_chart market.now cmd.now reply.now (record { chart = self.old; known = notes.old.known.items; shares = notes.old.shares })).known }
        ensures shares { notes.new.shares ≡ now_shared cmd.now market.now notes.old.shares }
        ensures first { notes.new.first ≡ notes.old.first }
        ensures each { length notes.new.known.items ≡ length notes.old.known.items }
    {
        let first = notes.first;
        let known = notes.known.as_mut_slice();
        let place = place as usize;
        self.lines
            .near(known, &mut notes.shares, first, place, market, cmd, reply);
        self.moments += 1;
    }

    /// Takes the moment after an entry, as `take` does, where the moment before was taken last, if any was, and this was then kept of the
    /// market, and what is kept then. Only what may have changed is looked at: the arena that the entry is about, and those whose allotment is
    /// not told; in the same column nothing where the market is as it was, and else none of which it is known that it adds nothing.
    #[inline]
    pub(crate) fn take_next(&mut self, notes: &mut Notes, market: &Market, cmd: &Cmd, reply: &Reply)
        requires few { self.old.moments + 1 < 2 ^ 63 }
        requires each { length notes.old.known.items ≡ length self.old.lines.rows }
        requires numbered { AreNumbered notes.old.first self.old.lines.rows }
        ensures chart { self.new ≡ (next_chart market.now cmd.now reply.now (record { chart = self.old; known = notes.old.known.items; shares = notes.old.shares })).chart }
        ensures known { notes.new.known.items ≡ (next_chart market.now cmd.now reply.now (record { chart = self.old; known = notes.old.known.items; shares = notes.old.shares })).known }
        ensures shares { notes.new.shares ≡ (next_chart market.now cmd.now reply.now (record { chart = self.old; known = notes.old.known.items; shares = notes.old.shares })).shares }
        ensures first { notes.new.first ≡ notes.old.first }
        ensures each { length notes.new.known.items ≡ length notes.old.known.items }
    {
        // Once, for both that ask for it.
        let place = self.place();
        if !self.goes_on(place) {
            let known = notes.known.as_mut_slice();
            if self.moments == 0 {
                self.look(known, &mut notes.shares, market, cmd, reply);
            } else {
                self.begin(known, &mut notes.shares, market, cmd, reply);
            }
            return;
        }
        if is_still(reply) {
            self.moments += 1;
            return;
        }
        self.near(notes, place, market, cmd, reply);
    }

    /// Lets the moment after an entry pass that is not drawn, by its command and its reply. It takes no memory.
    pub fn pass(&mut self, cmd: &Cmd, reply: &Reply)
        ensures exact { (arenas : List ℕ) (moments : List State) (s t : State) (seat : ℕ) → step s seat cmd.now ≡ (reply.now, t)
            → self.old ≡ chart_of self.old.most arenas moments s → self.new ≡ chart_of self.old.most arenas moments t }
        ensures step { self.new ≡ passed_chart cmd.now reply.now self.old }
    {
        self.lines.pass(cmd, reply);
    }
}

/// The market is as it was before an entry with this reply.
#[inline]
fn is_still(reply: &Reply) -> bool
    ensures { result ≡ is_still reply.now }
{
    matches!(
        reply,
        Reply::Idle
            | Reply::Stays(_)
            | Reply::Shown(_)
            | Reply::Listed(_)
            | Reply::Limits(_)
            | Reply::Refused(_)
    )
}

/// Makes room for a moment more, where so many were taken: where all columns are full, each two become one, which holds twice as many.
fn make_room(lines: &mut Lines, columns: u32, moments: u64, width: &mut Width)
    requires some { 0 < columns }
    requires few { moments < 2 ^ 63 }
    ensures width { width.new ≡ (if nat_le (columns * width.old) moments then width.old + width.old else width.old) }
    ensures lines { lines.new ≡ (if nat_le (columns * width.old) moments then halved_lines lines.old else lines.old) }
{
    if width.place_of(moments) < u64::from(columns) {
        return;
    }
    lines.halve();
    width.double();
}
