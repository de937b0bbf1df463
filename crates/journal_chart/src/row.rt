//! The lines of an arena.
ghost use Rattle.std.specs.Prelude.{◌≡◌, IfOk, Some, map};
ghost use Rattle.market_types.specs.Allotment.{is_just};
ghost use Rattle.journal_chart.specs.Unkept.{IsAtLevel};
ghost use Rattle.journal_chart.specs.Covering.{covered};
ghost use Rattle.journal_chart.specs.Spots.{no_spot};
ghost use Rattle.journal_chart.specs.Lines.{added};
ghost use Rattle.journal_chart.specs.Cells.{actives_of, allots_of, hires_of, levels_of, recalls_of, requests_of};
ghost use Rattle.journal_chart.specs.Steps.{empty_row, halved_row, known_in, needing_row, nothing_known, passed_row, seen_row, shared_row, standing_row, stands_after, taken_row, viewed_row};

use crate::cell::{Cell, cell_at, put_cell};
use crate::covered::Covered;
use crate::halving::halve;
use crate::spot::Spot;
use crate::stands::Standing;
use market_core::Market;
use market_types::{ArenaId, ArenaView, Cmd, Level, Reply};
use std::alloc::{AllocError, Global};
use std::marker::Model;

/// What is known of an arena between two moments at which it is looked at.
#[derive(Clone, Copy)]
pub(crate) struct Known {
    /// How many workers it asks for.
    pub(crate) request: u32,
    /// How many seats are placed at it.
    pub(crate) active: u32,
    /// The allotments that add nothing to its column.
    pub(crate) covered: Covered,
    /// Where it stands in its level.
    pub(crate) spot: Spot,
}

impl Known {
    /// Nothing is known yet.
    pub(crate) fn nothing() -> Known
        ensures { result ≡ nothing_known }
    {
        Known {
            request: 0,
            active: 0,
            covered: Covered { from: 0, below: 0 },
            spot: Spot::none(),
        }
    }
}

/// What is known of an arena that asks for so many workers and has so many, where this is its cell of the last moment's column.
#[inline(always)]
fn known_by(cell: Cell, request: u32, active: u32) -> Known
    ensures request { result.request ≡ request }
    ensures active { result.active ≡ active }
    ensures covered { result.covered ≡ covered cell.allot cell.recall cell.hire active }
    ensures spot { result.spot ≡ no_spot }
{
    Known {
        request,
        active,
        covered: Covered::of(cell.allot, cell.recall, cell.hire, active),
        spot: Spot::none(),
    }
}

/// What an arena was in the course of a history: contracts see its lines, each of which has a number wherever the arena lived.
#[derive(Drop)]
pub struct Row {
    arena: ArenaId,
    /// The level at which it stands, if it lives.
    stands: Standing,
    /// What it has in each column.
    cells: Vec<Cell>,
}

impl Model for Row {
    ghost use Rattle.journal_chart.specs.Cells.{row_of_cells};
    ghost use Rattle.journal_chart.specs.Rows.{Row};

    ghost Value = { Row };

    ghost view = { λ r. row_of_cells r.arena r.stands r.cells.items };
}

impl Row {
    /// The row of an arena before all moments.
    pub(crate) fn new(alloc: Global, columns: usize, arena: ArenaId) -> Result<Row, AllocError>
        ensures { IfOk result (λ row. row ≡ empty_row columns arena) }
    {
        Ok(Row {
            arena,
            stands: Standing::of(None),
            cells: vec![in alloc; Cell::none(); columns]?,
        })
    }

    /// The arena.
    #[inline(always)]
    pub fn arena(&self) -> ArenaId
        ensures { result ≡ self.now.arena }
    {
        self.arena
    }

    /// The level at which it stands, if it lives.
    #[inline(always)]
    pub fn stands(&self) -> Option<Level>
        ensures { result ≡ self.now.stands }
    {
        self.stands.level()
    }

    /// It stands at this level.
    #[inline(always)]
    pub(crate) fn is_at(&self, level: Level) -> bool
        ensures exact { result ≡ is_just level self.now.stands }
        ensures somewhere { IsAtLevel self.now.stands }
    {
        self.stands.is_at(level)
    }

    /// What it has in each column, in order.
    pub fn cells(&self) -> &[Cell]
        ensures level { levels_of result.now ≡ self.now.level }
        ensures request { requests_of result.now ≡ self.now.request }
        ensures allot { allots_of result.now ≡ self.now.allot }
        ensures active { actives_of result.now ≡ self.now.active }
        ensures recall { recalls_of result.now ≡ self.now.recall }
        ensures hire { hires_of result.now ≡ self.now.hire }
    {
        &self.cells
    }

    /// Makes each two columns one.
    pub(crate) fn halve(&mut self)
        ensures { self.new ≡ halved_row self.old }
    {
        halve(&mut self.cells);
    }

    /// Takes the moment after a command and its reply into the column at a place.
    pub(crate) fn take(&mut self, place: usize, market: &Market, cmd: &Cmd, reply: &Reply)
        ensures { self.new ≡ taken_row place market.now cmd.now reply.now self.old }
    {
        self.stands = Standing::of(stands_after(self.arena, self.stands(), cmd, reply));
        self.add_level(place);
        self.add_view(place, &market.view(self.arena));
    }

    /// Takes the moment, as `take` does: what is then known of the arena.
    pub(crate) fn look(&mut self, place: usize, market: &Market, cmd: &Cmd, reply: &Reply) -> Known
        ensures { (self.new, result) ≡ seen_row place market.now cmd.now reply.now self.old }
    {
        self.stands = Standing::of(stands_after(self.arena, self.stands(), cmd, reply));
        self.add_level(place);
        let view = market.view(self.arena);
        self.add_view(place, &view);
        match view {
            Some(view) => self.known(place, view.request, view.active),
            None => Known::nothing(),
        }
    }

    /// What is known of the arena, if it asks for so many workers and has so many, and the column at a place is that of the last moment.
    #[inline(always)]
    pub(crate) fn known(&self, place: usize, request: u32, active: u32) -> Known
        ensures { result ≡ known_in place request active self.now }
    {
        known_by(cell_at(&self.cells, place), request, active)
    }

    /// Puts into the column at a place what the arena asks for and has, and what it is allotted: what is then known of it.
    // Always in its callers, which do little else: to save and to restore registers would be an eighth of it.
    #[inline(always)]
    pub(crate) fn tell(&mut self, place: usize, known: &Known, allot: u32) -> Known
        ensures row { self.new ≡ shared_row place known.now allot self.old }
        ensures known { result ≡ known_in place known.now.request known.now.active (shared_row place known.now allot self.old) }
    {
        let (request, active) = (known.request, known.active);
        let recall = active.saturating_sub(allot);
        let hire = allot.saturating_sub(active);
        let cell = cell_at(&self.cells, place).told(
            self.stands,
            request,
            allot,
            active,
            recall,
            hire,
        );
        let cell = put_cell(&mut self.cells, place, cell);
        known_by(cell, request, active)
    }

    /// Puts into the column of the last moment, at which this was known of the arena, what it asks for and has now, where that changed.
    #[inline(always)]
    pub(crate) fn add_needs(&mut self, place: usize, was: &Known, known: &Known)
        ensures { self.new ≡ needing_row place was.now known.now self.old }
    {
        if was.request != known.request {
            self.add_request(place, known.request);
        }
        if was.active != known.active {
            self.add_active(place, known.active);
        }
    }

    /// Puts what the arena asks for into the column at a place.
    #[inline(always)]
    fn add_request(&mut self, place: usize, request: u32)
        ensures { self.new ≡ record self.old { request = added place (Some request) self.old.request } }
    {
        let cell = cell_at(&self.cells, place).with_request(request);
        put_cell(&mut self.cells, place, cell);
    }

    /// Puts what it has into the column at a place.
    #[inline(always)]
    fn add_active(&mut self, place: usize, active: u32)
        ensures { self.new ≡ record self.old { active = added place (Some active) self.old.active } }
    {
        let cell = cell_at(&self.cells, place).with_active(active);
        put_cell(&mut self.cells, place, cell);
    }

    /// Lets the moment after a command and its reply pass: nothing is drawn, but where the arena stands is known after it.
    pub(crate) fn pass(&mut self, cmd: &Cmd, reply: &Reply)
        ensures { self.new ≡ passed_row cmd.now reply.now self.old }
    {
        self.stands = Standing::of(stands_after(self.arena, self.stands(), cmd, reply));
    }

    /// Puts the level at which the arena stands into the column at a place.
    fn add_level(&mut self, place: usize)
        ensures { self.new ≡ standing_row place self.old }
    {
        let cell = cell_at(&self.cells, place).with_level(self.stands);
        put_cell(&mut self.cells, place, cell);
    }

    /// Puts what is seen of the arena into the column at a place.
    fn add_view(&mut self, place: usize, view: &Option<ArenaView>)
        ensures { self.new ≡ viewed_row place view.now self.old }
    {
        let Some(view) = view else {
            return;
        };
        let cell = cell_at(&self.cells, place).with_numbers(
            view.request,
            view.allot,
            view.active,
            view.recall,
            view.hire,
        );
        put_cell(&mut self.cells, place, cell);
    }
}

/// Where an arena stands after a command and its reply, by where it stood before.
fn stands_after(arena: ArenaId, stands: Option<Level>, cmd: &Cmd, reply: &Reply) -> Option<Level>
    ensures { result ≡ stands_after arena stands cmd.now reply.now }
{
    match cmd {
        Cmd::Open(_, _, level) => match reply {
            Reply::Opened(opened) if *opened == arena => Some(*level),
            _ => stands,
        },
        Cmd::Close(closed) => match reply {
            Reply::Closed if *closed == arena => None,
            _ => stands,
        },
        Cmd::Priority(moved, level) => match reply {
            Reply::Moved if *moved == arena => Some(*level),
            _ => stands,
        },
        _ => stands,
    }
}

/// Makes each two columns of all rows one.
pub(crate) fn halve_rows(rows: &mut [Row])
    ensures { rows.new ≡ map halved_row rows.old }
{
    for index in 0..rows.len() {
        rows[index].halve();
    }
}

/// Takes the moment after a command and its reply into the column of all rows at a place.
pub(crate) fn take_rows(rows: &mut [Row], place: usize, market: &Market, cmd: &Cmd, reply: &Reply)
    ensures { rows.new ≡ map (taken_row place market.now cmd.now reply.now) rows.old }
{
    for index in 0..rows.len() {
        rows[index].take(place, market, cmd, reply);
    }
}

/// Lets the moment after a command and its reply pass in all rows.
pub(crate) fn pass_rows(rows: &mut [Row], cmd: &Cmd, reply: &Reply)
    ensures { rows.new ≡ map (passed_row cmd.now reply.now) rows.old }
{
    for index in 0..rows.len() {
        rows[index].pass(cmd, reply);
    }
}
