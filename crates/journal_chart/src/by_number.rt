//! The rows of a chart whose arenas are numbered one after another, at a moment that goes into the column of the last: the row of the arena that an
//! entry is about is found by its number, so that no other asks whether it is that one, and none is looked at where no level's arenas are allotted
//! anything else.
ghost use Rattle.std.specs.Prelude.{◌≡◌, ◌-◌, ◌*◌, ◌<◌, ◌≤◌, Bool, List, Some, if◌then◌else◌, drop, false, length, slice_index, unwrap_or};
ghost use Rattle.market_types.specs.Allotment.{allotment_of, assigned, at_level, demand, is_just, limit_of};
ghost use Rattle.market_types.specs.declared.command.Cmd.{Cmd};
ghost use Rattle.market_types.specs.declared.reply.Reply.{Reply};
ghost use Rattle.journal_chart.specs.Unkept.{AreAtLevels, AreUnkept, IsAlone, IsAtLevel};
ghost use Rattle.journal_chart.specs.declared.unkept.Unkept.{Unkept};
ghost use Rattle.journal_chart.specs.Numbering.{AreNumbered};
ghost use Rattle.journal_chart.specs.Resting.{AreLeft};
ghost use Rattle.journal_chart.specs.Shares.{shared_at};
ghost use Rattle.journal_chart.specs.Covering.{exactly};
ghost use Rattle.journal_chart.specs.Spots.{no_spot, place_told, spot_told};
ghost use Rattle.market_core.specs.Ahead.{asked_ahead};
ghost use Rattle.journal_chart.specs.Steps.{closed_row, near_row, own_row, pairwise, respotted, retold, seat_row, spotted, subject};

use crate::nearby::{own_row, portion_of_level, retold, seat_row, settle_share};
use crate::numbering::place_of;
use crate::row::{Known, Row};
use crate::shares::Shares;
use crate::spot::Spot;
use market_core::Market;
use market_types::{ArenaId, Cmd, Level, Reply};

/// Takes the moment after an entry, which is about another arena, into the column of the last moment, of an arena of a level that is given this of
/// what it asks for. A row whose column has what the arena is allotted is left as it is.
// By what the level is given, so that the market need not reckon that anew for each arena that it is asked about.
#[inline(never)]
fn settle_given(
    row: &mut Row,
    known: &mut Known,
    place: usize,
    market: &Market,
    level: Level,
    given: u64,
    asked: u64,
    drift: u32,
)
    requires some { 0 < limit_of market.now }
    requires any { 0 < asked }
    requires within { given ≤ asked }
    requires small { asked ≤ 1024 * 65535 }
    requires given { level ≤ market.now.levels → given ≡ assigned market.now level }
    requires asked { level ≤ market.now.levels → asked ≡ demand market.now level }
    ensures { (cmd : Cmd) (reply : Reply) → (row.new, known.new) ≡ respotted (λ c. spot_told (place_told (exactly known.old.request given asked) (asked_ahead row.old.arena (at_level level market.now.arenas)) given asked) c known.old.request given asked drift) (closed_row place market.now cmd reply known.old row.old row.old (Some (unwrap_or (exactly known.old.request given asked) (allotment_of market.now row.old.arena)))) }
{
    let request = known.request;
    let (share, before) = portion_of_level(market, row.arena(), request, level, given, asked);
    settle_share(row, known, place, share);
    known.spot = Spot::told(before, known.covered, request, given, asked, drift);
}

/// Takes the moment after an entry into the column of the last moment, of the row of another arena than the one that the entry is about, and what is
/// then known of its arena, where this level alone is not kept, some worker may be active, and this is what the level is given of what it asks
/// for. A row to which the moment adds nothing is left as it is.
#[inline(always)]
fn level_row(
    row: &mut Row,
    known: &mut Known,
    place: usize,
    market: &Market,
    now: &Shares,
    level: Level,
    given: u64,
    asked: u64,
    drift: u32,
)
    requires found { 0 < now.now.limit }
    requires shares { now.now ≡ shared_at market.now now.now.drift }
    requires some { 0 < asked }
    requires given { given ≡ slice_index now.now.given (level - 1) }
    requires asked { asked ≡ slice_index now.now.asked (level - 1) }
    requires drift { drift ≡ now.now.drift }
    requires within { given ≤ asked }
    requires small { asked ≤ 1024 * 65535 }
    ensures { (cmd : Cmd) (reply : Reply) (kept : List Bool) → IsAlone kept level → is_just row.old.arena (subject cmd reply) ≡ false → (row.new, known.new) ≡ near_row place market.now cmd reply now.now kept row.old known.old }
{
    if !row.is_at(level) {
        return;
    }
    if known.covered.covers_some(known.request, given, asked) {
        return;
    }
    if known.spot.holds(drift, given, asked) {
        return;
    }
    settle_given(row, known, place, market, level, given, asked, drift);
}

/// Takes the moment after an entry that is about this arena into the column of its row, and what is then known of it, where some worker may be
/// active.
#[inline(always)]
fn retold_row(
    row: &mut Row,
    known: &mut Known,
    place: usize,
    market: &Market,
    cmd: &Cmd,
    reply: &Reply,
    now: &Shares,
)
    requires found { 0 < now.now.limit }
    requires shares { now.now ≡ shared_at market.now now.now.drift }
    ensures { (row.new, known.new) ≡ spotted no_spot (own_row place market.now cmd.now reply.now now.now known.old row.old (retold cmd.now reply.now known.old)) }
{
    let told = retold(cmd, reply, known);
    own_row::<true>(row, known, place, market, &mut None, cmd, reply, now, told);
    known.spot = Spot::none();
}

/// Takes the moment after an entry about this arena into the columns of all rows, and what is then known of their arenas, where some worker may
/// be active, and this level alone, which asks for some worker, is not kept. No row asks whether the entry is about its arena, nor what its level
/// is given. The rows behind the first `count` are left as they are.
#[inline(always)]
pub(crate) fn rows_numbered(
    rows: &mut [Row],
    known: &mut [Known],
    count: usize,
    first: u32,
    place: usize,
    market: &Market,
    cmd: &Cmd,
    reply: &Reply,
    now: &Shares,
    about: ArenaId,
    kept: &[bool; 8],
    level: Level,
)
    requires found { 0 < now.now.limit }
    requires shares { now.now ≡ shared_at market.now now.now.drift }
    requires each { length known.old ≡ length rows.old }
    requires about { Some about ≡ subject cmd.now reply.now }
    requires within { count ≤ length rows.old }
    requires left { AreLeft count (subject cmd.now reply.now) rows.old }
    requires numbered { AreNumbered (Some first) rows.old }
    requires alone { IsAlone kept.now level }
    requires some { 0 < slice_index now.now.asked (level - 1) }
    ensures rows { rows.new ≡ (pairwise (near_row place market.now cmd.now reply.now now.now kept.now) rows.old known.old).0 }
    ensures known { known.new ≡ (pairwise (near_row place market.now cmd.now reply.now now.now kept.now) rows.old known.old).1 }
    ensures rest { drop count rows.new ≡ drop count rows.old }
{
    let given = now.given(level);
    let asked = now.asked(level);
    let drift = now.drift();
    let own = place_of(first, count, about);
    for index in 0..own {
        let row = &mut rows[index];
        let known = &mut known[index];
        level_row(row, known, place, market, now, level, given, asked, drift);
    }
    if own == count {
        return;
    }
    retold_row(
        &mut rows[own],
        &mut known[own],
        place,
        market,
        cmd,
        reply,
        now,
    );
    for index in own + 1..count {
        let row = &mut rows[index];
        let known = &mut known[index];
        level_row(row, known, place, market, now, level, given, asked, drift);
    }
}

/// An arena stands at one of eight levels, or nowhere. This does nothing: what it ensures holds wherever it is called.
#[inline(always)]
fn is_at_level(stands: Option<Level>)
    ensures { IsAtLevel stands }
{
    if let Some(level) = stands {
        // That there are 8 levels at most is what this call promises.
        let _ = level.index();
    }
}

/// So do the arenas of all rows. This does nothing, too.
// Nothing is left of the loop once it is compiled.
#[inline(always)]
fn are_at_levels(rows: &[Row])
    ensures { AreAtLevels rows.now }
{
    for index in 0..rows.len() {
        is_at_level(rows[index].stands());
    }
}

/// Takes the moment after an entry about this arena into the column of its row, and what is then known of it, where some worker may be active, and
/// all levels are kept. The other rows are left as they are, and none of them is looked at.
#[inline(always)]
pub(crate) fn own_row_numbered(
    rows: &mut [Row],
    known: &mut [Known],
    count: usize,
    first: u32,
    place: usize,
    market: &Market,
    cmd: &Cmd,
    reply: &Reply,
    now: &Shares,
    about: ArenaId,
    kept: &[bool; 8],
)
    requires found { 0 < now.now.limit }
    requires shares { now.now ≡ shared_at market.now now.now.drift }
    requires each { length known.old ≡ length rows.old }
    requires about { Some about ≡ subject cmd.now reply.now }
    requires within { count ≤ length rows.old }
    requires left { AreLeft count (subject cmd.now reply.now) rows.old }
    requires numbered { AreNumbered (Some first) rows.old }
    requires kept { AreUnkept kept.now Unkept.Nowhere }
    ensures rows { rows.new ≡ (pairwise (near_row place market.now cmd.now reply.now now.now kept.now) rows.old known.old).0 }
    ensures known { known.new ≡ (pairwise (near_row place market.now cmd.now reply.now now.now kept.now) rows.old known.old).1 }
    ensures rest { drop count rows.new ≡ drop count rows.old }
{
    are_at_levels(rows);
    let own = place_of(first, count, about);
    if own == count {
        return;
    }
    retold_row(
        &mut rows[own],
        &mut known[own],
        place,
        market,
        cmd,
        reply,
        now,
    );
}

/// Takes the moment into the column of the row of the arena that the entry is about, and what is then known of it, where one more seat is
/// placed than before, or not. The others are left as they are.
pub(crate) fn seat_row_numbered(
    rows: &mut [Row],
    known: &mut [Known],
    count: usize,
    first: u32,
    place: usize,
    market: &Market,
    cmd: &Cmd,
    reply: &Reply,
    more: bool,
    now: &Shares,
    moved: ArenaId,
)
    requires each { length known.old ≡ length rows.old }
    requires moved { Some moved ≡ subject cmd.now reply.now }
    requires within { count ≤ length rows.old }
    requires left { AreLeft count (subject cmd.now reply.now) rows.old }
    requires numbered { AreNumbered (Some first) rows.old }
    ensures rows { rows.new ≡ (pairwise (seat_row place market.now cmd.now reply.now more now.now) rows.old known.old).0 }
    ensures known { known.new ≡ (pairwise (seat_row place market.now cmd.now reply.now more now.now) rows.old known.old).1 }
    ensures rest { drop count rows.new ≡ drop count rows.old }
{
    let own = place_of(first, count, moved);
    if own == count {
        return;
    }
    seat_row(
        &mut rows[own],
        &mut known[own],
        place,
        market,
        cmd,
        reply,
        more,
        now,
        &Some(moved),
    );
}
