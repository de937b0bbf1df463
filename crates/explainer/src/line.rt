//! The lines of an explanation, each with its LF.
ghost use Rattle.std.specs.Prelude.{◌≡◌, ◌++◌, OnOk, codes};
ghost use Rattle.market_texts.specs.Texts.{yes_no};
ghost use Rattle.explainer.specs.Columns.{arena_line, level_line, market_line, seats_columns, share_columns};

use crate::column::{push_left, push_number, push_number_or_dash, push_part, push_text};
use market_texts::{level_text, push_reply};
use market_types::{ArenaView, Level, LimitView, Reply};
use std::alloc::AllocError;

/// What an explanation says of a level.
#[derive(Clone, Copy)]
pub(crate) struct LevelView {
    pub(crate) level: Level,
    /// What its arenas ask for.
    pub(crate) demand: u64,
    /// How many workers its arenas are allotted.
    pub(crate) assigned: u64,
    /// How many workers it leaves to the levels after it.
    pub(crate) left: u64,
}

/// How an arena comes by its workers.
#[derive(Clone, Copy)]
pub(crate) struct CarryStep {
    /// What the arenas before it leave it.
    pub(crate) carry: u64,
    /// Its request times what its level is assigned, and the carry: it is allotted the quotient of this by what its level
    /// asks for.
    pub(crate) product: u64,
    /// The remainder, which it leaves to the next.
    pub(crate) rest: u64,
}

/// Writes the first line: the limits, what all arenas ask for, and how many workers may be allotted.
pub(crate) fn push_market_line(
    out: &mut Vec<u8>,
    limits: LimitView,
    demand: u64,
    workers: u64,
) -> Result<(), AllocError>
    ensures { OnOk result (out.new.items ≡ out.old.items ++ (market_line limits demand workers ++ codes "\n")) }
{
    push_reply(out, &Reply::Limits(limits))?;
    push_part(out, " demand ", demand)?;
    push_part(out, " workers ", workers)?;
    push_text(out, "\n")
}

/// Writes the line of a level, in a market of so many.
pub(crate) fn push_level_line(
    out: &mut Vec<u8>,
    levels: u32,
    view: LevelView,
) -> Result<(), AllocError>
    ensures { OnOk result (out.new.items ≡ out.old.items ++ (level_line levels view ++ codes "\n")) }
{
    push_left(out, "level ", 6, level_text(view.level, levels))?;
    push_number(out, " demand ", 8, view.demand)?;
    push_number(out, " assigned ", 5, view.assigned)?;
    push_number(out, " left ", 5, view.left)?;
    push_text(out, "\n")
}

/// Writes the line of an arena, by what is seen of it and by its step, if it has one.
pub(crate) fn push_arena_line(
    out: &mut Vec<u8>,
    view: &ArenaView,
    step: Option<CarryStep>,
) -> Result<(), AllocError>
    ensures { OnOk result (out.new.items ≡ out.old.items ++ (arena_line view.now step ++ codes "\n")) }
{
    push_share(out, view, step)?;
    push_seats(out, view)?;
    push_text(out, "\n")
}

/// The part of an arena's line that tells how it comes by its workers.
fn push_share(
    out: &mut Vec<u8>,
    view: &ArenaView,
    step: Option<CarryStep>,
) -> Result<(), AllocError>
    ensures { OnOk result (out.new.items ≡ out.old.items ++ share_columns view.now step) }
{
    push_number(out, "arena ", 7, u64::from(view.arena.get()))?;
    push_number(out, " request ", 5, u64::from(view.request))?;
    push_number_or_dash(out, " carry ", 8, step.map(|step| step.carry))?;
    push_number_or_dash(out, " product ", 10, step.map(|step| step.product))?;
    push_number(out, " allot ", 5, u64::from(view.allot))?;
    push_number_or_dash(out, " rest ", 8, step.map(|step| step.rest))
}

/// The part of an arena's line that tells whether it is top priority, and counts seats.
fn push_seats(out: &mut Vec<u8>, view: &ArenaView) -> Result<(), AllocError>
    ensures { OnOk result (out.new.items ≡ out.old.items ++ seats_columns view.now) }
{
    push_left(out, " top ", 3, yes_no(view.top))?;
    push_number(out, " active ", 5, u64::from(view.active))?;
    push_number(out, " recall ", 5, u64::from(view.recall))?;
    push_number(out, " hire ", 5, u64::from(view.hire))
}

fn yes_no(answer: bool) -> &'static str
    ensures { result.now ≡ yes_no answer }
{
    if answer { "yes" } else { "no" }
}
