//! All lines of a chart.
ghost use Rattle.std.specs.Prelude.{◌≡◌, IfOk, length, map};
ghost use Rattle.market_types.specs.State.{State};
ghost use Rattle.market_types.specs.Step.{limits_of};
ghost use Rattle.journal_chart.specs.Numbering.{AreNumbered};
ghost use Rattle.journal_chart.specs.Shares.{shared_of};
ghost use Rattle.journal_chart.specs.Steps.{after_seat, arena_lines, begun_lines, each_row, empty_lines, empty_row, first_rows, changed, halved_lines, known_rows, limited_lines, near_lines, near_rows, now_shared, passed_lines, seat_rows, shared_after, subject, taken_lines};

use crate::entry::{moves_seat, subject};
use crate::line::Line;
use crate::nearby::{first_rows, look_rows, near_rows, seat_rows};
use crate::resting::Resting;
use crate::row::{Known, Row, halve_rows, pass_rows, take_rows};
use crate::shares::Shares;
use market_core::Market;
use market_types::{ArenaId, Cmd, LimitView, Reply};
use std::alloc::{AllocError, Global};
use std::marker::Model;

/// The lines of the whole market, and a row for each arena that is drawn.
#[derive(Drop)]
pub struct Lines {
    limit: Line,
    effective: Line,
    rows: Vec<Row>,
    /// Those at the end whose arenas do not live, as far as it was seen.
    resting: Resting,
}

impl Model for Lines {
    ghost use Rattle.std.specs.Prelude.{◌≤◌, length};
    ghost use Rattle.journal_chart.specs.Numbers.{Drawn};
    ghost use Rattle.journal_chart.specs.Resting.{AreResting};

    ghost Value = { Drawn };

    ghost view = { λ l. record { limit = l.limit; effective = l.effective; rows = l.rows.items } };

    ghost invariant = { λ l. AreResting l.resting l.rows.items × (l.resting.before ≤ length l.rows.items) };
}

impl Lines {
    /// The lines of these arenas before all moments.
    pub(crate) fn new(
        alloc: Global,
        columns: usize,
        arenas: &[ArenaId],
    ) -> Result<Lines, AllocError>
        ensures { IfOk result (λ lines. lines ≡ empty_lines columns arenas.now) }
    {
        Ok(Lines {
            limit: Line::new(alloc, columns)?,
            effective: Line::new(alloc, columns)?,
            rows: new_rows(alloc, columns, arenas)?,
            resting: Resting::none(arenas.len()),
        })
    }

    /// How many workers could be active.
    pub fn limit(&self) -> &Line
        ensures { result.now ≡ self.now.limit }
    {
        &self.limit
    }

    /// How many workers could be active, one for enqueued work included.
    pub fn effective(&self) -> &Line
        ensures { result.now ≡ self.now.effective }
    {
        &self.effective
    }

    /// A row for each arena, in the order in which they were named.
    pub fn rows(&self) -> &[Row]
        ensures { result.now ≡ self.now.rows }
    {
        &self.rows
    }

    /// Makes each two columns one.
    pub(crate) fn halve(&mut self)
        ensures { self.new ≡ halved_lines self.old }
    {
        self.limit.halve();
        self.effective.halve();
        halve_rows(&mut self.rows);
        self.resting = Resting::none(self.rows.len());
    }

    /// Puts the limits into the column at a place.
    fn add_limits(&mut self, place: usize, limits: &LimitView)
        ensures { (s : State) → limits.now ≡ limits_of s → self.new ≡ limited_lines place s self.old }
    {
        self.limit.add(place, limits.limit);
        self.effective.add(place, limits.effective);
    }

    /// Puts the limits into the column at a place which has the moment before, where they are not what they were then.
    fn add_changed(&mut self, place: usize, was: &Shares, now: &LimitView)
        ensures { self.new ≡ record self.old { limit = changed place was.now.limit now.now.limit self.old.limit; effective = changed place was.now.effective now.now.effective self.old.effective } }
    {
        if was.limit() != now.limit {
            self.limit.add(place, now.limit);
        }
        if was.effective() != now.effective {
            self.effective.add(place, now.effective);
        }
    }

    /// Takes the moment after a command and its reply into the column at a place.
    pub(crate) fn take(&mut self, place: usize, market: &Market, cmd: &Cmd, reply: &Reply)
        ensures { self.new ≡ taken_lines place market.now cmd.now reply.now self.old }
    {
        self.add_limits(place, &market.limits());
        take_rows(&mut self.rows, place, market, cmd, reply);
        self.resting = Resting::none(self.rows.len());
    }

    /// Takes the moment, as `take` does, what is then known of the arenas, and what the levels are given.
    pub(crate) fn look(
        &mut self,
        known: &mut [Known],
        shares: &mut Shares,
        place: usize,
        market: &Market,
        cmd: &Cmd,
        reply: &Reply,
    )
        requires each { length known.old ≡ length self.old.rows }
        ensures lines { self.new ≡ taken_lines place market.now cmd.now reply.now self.old }
        ensures known { known.new ≡ known_rows place market.now cmd.now reply.now self.old.rows }
        ensures shares { shares.new ≡ shared_of market.now }
    {
        let limits = market.limits();
        self.add_limits(place, &limits);
        shares.renew(market, &limits, cmd);
        shares.rest();
        look_rows(&mut self.rows, known, place, market, cmd, reply);
        self.resting = Resting::of(&self.rows);
    }

    /// Takes the first moment of a column, as `take` does, where the moment before was taken, and this was then known of the arenas: what is
    /// then known of them, and what the levels are given.
    pub(crate) fn begin(
        &mut self,
        known: &mut [Known],
        shares: &mut Shares,
        place: usize,
        market: &Market,
        cmd: &Cmd,
        reply: &Reply,
    )
        requires each { length known.old ≡ length self.old.rows }
        ensures lines { self.new ≡ begun_lines place market.now cmd.now reply.now known.old self.old }
        ensures known { known.new ≡ (first_rows place market.now cmd.now reply.now self.old.rows known.old).1 }
        ensures shares { shares.new ≡ shared_of market.now }
    {
        let limits = market.limits();
        self.add_limits(place, &limits);
        shares.renew(market, &limits, cmd);
        shares.rest();
        let about = subject(cmd, reply);
        let count = self.resting.awake(&self.rows, &about);
        first_rows(
            &mut self.rows,
            known,
            count,
            place,
            market,
            cmd,
            reply,
            shares,
            &about,
        );
        self.resting = Resting::of(&self.rows);
    }

    /// Takes the moment after one that was taken into the same column, what is then known of the arenas, and what the levels are given. The
    /// arenas of the rows are numbered one after another from `first` on, if there is such a number.
    pub(crate) fn near(
        &mut self,
        known: &mut [Known],
        shares: &mut Shares,
        first: Option<u32>,
        place: usize,
        market: &Market,
        cmd: &Cmd,
        reply: &Reply,
    )
        requires each { length known.old ≡ length self.old.rows }
        requires numbered { AreNumbered first self.old.rows }
        ensures lines { self.new ≡ near_lines place market.now cmd.now reply.now shares.old known.old self.old }
        ensures known { known.new ≡ (near_rows place market.now cmd.now reply.now shares.old self.old.rows known.old).1 }
        ensures shares { shares.new ≡ now_shared cmd.now market.now shares.old }
    {
        let about = subject(cmd, reply);
        if moves_seat(cmd) {
            self.near_seat(known, shares, first, place, market, cmd, reply, &about);
        } else {
            self.near_arena(known, shares, first, place, market, cmd, reply, &about);
        }
    }

    /// The same after a command of a seat.
    #[inline(always)]
    fn near_seat(
        &mut self,
        known: &mut [Known],
        shares: &mut Shares,
        first: Option<u32>,
        place: usize,
        market: &Market,
        cmd: &Cmd,
        reply: &Reply,
        about: &Option<ArenaId>,
    )
        requires each { length known.old ≡ length self.old.rows }
        requires numbered { AreNumbered first self.old.rows }
        requires about { about.now ≡ subject cmd.now reply.now }
        ensures lines { self.new ≡ record self.old { rows = (seat_rows place market.now cmd.now reply.now shares.old self.old.rows known.old).0 } }
        ensures known { known.new ≡ (seat_rows place market.now cmd.now reply.now shares.old self.old.rows known.old).1 }
        ensures shares { shares.new ≡ after_seat market.now shares.old }
    {
        let count = self.resting.awake(&self.rows, about);
        seat_rows(
            &mut self.rows,
            known,
            shares,
            count,
            first,
            place,
            market,
            cmd,
            reply,
            about,
        );
        self.resting = self.resting.renewed(count, &self.rows);
    }

    /// The same after another command.
    #[inline(always)]
    fn near_arena(
        &mut self,
        known: &mut [Known],
        shares: &mut Shares,
        first: Option<u32>,
        place: usize,
        market: &Market,
        cmd: &Cmd,
        reply: &Reply,
        about: &Option<ArenaId>,
    )
        requires each { length known.old ≡ length self.old.rows }
        requires numbered { AreNumbered first self.old.rows }
        requires about { about.now ≡ subject cmd.now reply.now }
        ensures lines { self.new ≡ arena_lines place market.now cmd.now reply.now shares.old known.old self.old }
        ensures known { known.new ≡ (each_row place market.now cmd.now reply.now shares.old self.old.rows known.old).1 }
        ensures shares { shares.new ≡ shared_after cmd.now shares.old market.now }
    {
        let limits = market.limits();
        self.add_changed(place, shares, &limits);
        let count = self.resting.awake(&self.rows, about);
        near_rows(
            &mut self.rows,
            known,
            shares,
            count,
            first,
            place,
            market,
            &limits,
            cmd,
            reply,
            about,
        );
        self.resting = self.resting.renewed(count, &self.rows);
    }

    /// Lets the moment after a command and its reply pass.
    pub(crate) fn pass(&mut self, cmd: &Cmd, reply: &Reply)
        ensures { self.new ≡ passed_lines cmd.now reply.now self.old }
    {
        pass_rows(&mut self.rows, cmd, reply);
        self.resting = Resting::none(self.rows.len());
    }
}

/// A row for each arena before all moments.
fn new_rows(alloc: Global, columns: usize, arenas: &[ArenaId]) -> Result<Vec<Row>, AllocError>
    ensures { IfOk result (λ rows. rows.items ≡ map (empty_row columns) arenas.now) }
{
    let mut rows = Vec::with_capacity(alloc, arenas.len())?;
    for arena in arenas {
        rows.push(Row::new(alloc, columns, *arena)?)?;
    }
    Ok(rows)
}
