//! The rows of a chart at a moment that goes into the column of the last, and at one that begins a column after another.
ghost use Rattle.std.specs.Prelude.{◌≡◌, ℕ, ◌*◌, ◌<◌, ◌≤◌, false, true, IfSome, Some, drop, if◌then◌else◌, length, map, option_map, unwrap_or};
ghost use Rattle.market_types.specs.Allotment.{allotment_of, assigned, at_level, demand, is_just, limit_of};
ghost use Rattle.market_types.specs.State.{State};
ghost use Rattle.market_types.specs.declared.command.Cmd.{Cmd};
ghost use Rattle.market_types.specs.declared.reply.Reply.{Reply};
ghost use Rattle.market_types.specs.Step.{limits_of};
ghost use Rattle.market_core.specs.Divided.{IsDivisionOf};
ghost use Rattle.journal_chart.specs.Unkept.{AreUnkept};
ghost use Rattle.journal_chart.specs.Numbering.{AreNumbered};
ghost use Rattle.journal_chart.specs.Resting.{AreLeft};
ghost use Rattle.market_core.specs.Ahead.{asked_ahead};
ghost use Rattle.journal_chart.specs.Covering.{exactly};
ghost use Rattle.journal_chart.specs.Shares.{shared_at, shared_of};
ghost use Rattle.journal_chart.specs.Spots.{place_told};
ghost use Rattle.journal_chart.specs.Steps.{after_seat, closed_row, each_row, first_row, first_rows, is_spared, kept_levels, known_rows, near_row, needing_row, own_row, pairwise, place_of, requested, respotted, retold, seat_row, seat_rows, seated, settled_row, share_of, shared_after, spot_of, spotted, subject, taken_row};

use crate::by_number::{own_row_numbered, rows_numbered, seat_row_numbered};
use crate::covered::exactly;
use crate::passing::{
    has_share, is_covered, is_covered_at, is_divided, is_idle, is_spared, stands_kept,
};
use crate::row::{Known, Row};
use crate::shares::Shares;
use crate::spot::Spot;
use crate::unkept::Unkept;
use market_core::{Division, Market};
use market_types::{ArenaId, Cmd, Level, LimitView, Reply};

/// The option is this arena.
fn is_just(arena: ArenaId, option: &Option<ArenaId>) -> bool
    ensures { result ≡ is_just arena option.now }
{
    match option {
        Some(other) => *other == arena,
        None => false,
    }
}

/// What the market allots an arena where no worker may be active, since each division then looks for the arena whose enqueued work is served. The
/// workers are divided once for all that are asked about at a moment.
fn allotted(market: &Market, division: &mut Option<Division>, arena: ArenaId) -> u32
    requires { IfSome division.old (IsDivisionOf market.now) }
    ensures exact { result ≡ allotment_of market.now arena }
    ensures divided { IfSome division.new (IsDivisionOf market.now) }
{
    match division {
        Some(division) => market.allotment_by(arena, division),
        None => {
            let divided = market.division();
            let share = market.allotment_by(arena, &divided);
            *division = Some(divided);
            share
        }
    }
}

/// What an arena of a level is allotted, of which this is known, where it is told by what the level is given, or by that none is given any.
#[inline]
fn told_share<const DIVIDED: bool>(now: &Shares, known: &Known, level: Level) -> Option<u32>
    requires { DIVIDED ≡ true → 0 < now.now.limit }
    ensures { (s : State) (arena : ℕ) → unwrap_or result (allotment_of s arena) ≡ share_of s now.now known.now arena level }
{
    if is_divided::<DIVIDED>(now, level) {
        return exactly(known.request, now.given(level), now.asked(level));
    }
    if is_idle(now) { Some(0) } else { None }
}

/// What an arena of a level is allotted, of which this is known. The market is asked where it is told neither by what the level is given, nor
/// by that none is given any: of the arena alone where some worker may be active, since most often one is asked about at a moment. Where whoever
/// calls knows that what the levels are given is what this market gives them (`DIVIDED`), it need not reckon that anew.
fn share_of<const DIVIDED: bool>(
    market: &Market,
    division: &mut Option<Division>,
    now: &Shares,
    known: &Known,
    arena: ArenaId,
    level: Level,
) -> u32
    requires found { DIVIDED ≡ true → 0 < now.now.limit }
    requires shares { DIVIDED ≡ true → now.now ≡ shared_at market.now now.now.drift }
    requires divided { IfSome division.old (IsDivisionOf market.now) }
    ensures exact { result ≡ share_of market.now now.now known.now arena level }
    ensures divided { IfSome division.new (IsDivisionOf market.now) }
{
    match told_share::<DIVIDED>(now, known, level) {
        Some(share) => share,
        None if DIVIDED => market.allotment_at(arena, level, now.given(level), now.asked(level)),
        None if now.limit() > 0 => market.allotment(arena),
        None => allotted(market, division, arena),
    }
}

/// The same where what the levels are given is what this market gives them, whether any worker may be active or not.
fn share_among(
    market: &Market,
    division: &mut Option<Division>,
    now: &Shares,
    known: &Known,
    arena: ArenaId,
    level: Level,
) -> u32
    requires shares { now.now ≡ shared_of market.now }
    requires divided { IfSome division.old (IsDivisionOf market.now) }
    ensures exact { result ≡ share_of market.now now.now known.now arena level }
    ensures divided { IfSome division.new (IsDivisionOf market.now) }
{
    match told_share::<false>(now, known, level) {
        Some(share) => share,
        None if now.limit() > 0 => market.allotment_at(
            arena,
            level,
            now.given(level),
            now.asked(level),
        ),
        None => allotted(market, division, arena),
    }
}

/// Takes the moment after a command and its reply, which are about another arena, into the column of a row at a place, where this is known of its
/// arena, and what is then known. A row whose arena stands nowhere is left as it is.
#[inline(always)]
fn settle(
    row: &mut Row,
    known: &mut Known,
    place: usize,
    market: &Market,
    division: &mut Option<Division>,
    now: &Shares,
)
    requires shares { now.now ≡ shared_of market.now }
    requires divided { IfSome division.old (IsDivisionOf market.now) }
    ensures exact { (cmd : Cmd) (reply : Reply) → (row.new, known.new) ≡ settled_row place market.now cmd reply now.now known.old row.old }
    ensures divided { IfSome division.new (IsDivisionOf market.now) }
{
    if let Some(level) = row.stands() {
        let share = share_among(market, division, now, known, row.arena(), level);
        *known = row.tell(place, known, share);
    }
}

/// What an arena of a level is allotted that asks for so many workers, where the level is given so many of what it asks for; and what is asked for
/// before it, if the market has to be asked, and that may be of use: where the level asks for 64 times as many as it is given, and more.
// In another level a few entries take an arena out of its reach, so that its spot would not be worth what it takes.
#[inline(always)]
pub(crate) fn portion_of_level(
    market: &Market,
    arena: ArenaId,
    request: u32,
    level: Level,
    given: u64,
    asked: u64,
) -> (u32, Option<u32>)
    requires some { 0 < limit_of market.now }
    requires within { given ≤ asked }
    requires small { asked ≤ 1024 * 65535 }
    requires given { level ≤ market.now.levels → given ≡ assigned market.now level }
    requires asked { level ≤ market.now.levels → asked ≡ demand market.now level }
    ensures share { result.0 ≡ unwrap_or (exactly request given asked) (allotment_of market.now arena) }
    ensures before { result.1 ≡ place_told (exactly request given asked) (asked_ahead arena (at_level level market.now.arenas)) given asked }
{
    if let Some(share) = exactly(request, given, asked) {
        return (share, None);
    }
    if 64 * given <= asked {
        let portion = market.portion_at(arena, level, given, asked);
        return (portion.workers, Some(portion.before));
    }
    (market.allotment_at(arena, level, given, asked), None)
}

/// The same of an arena of a level, of which this is known.
fn portion_of<const DIVIDED: bool>(
    market: &Market,
    division: &mut Option<Division>,
    now: &Shares,
    known: &Known,
    arena: ArenaId,
    level: Level,
) -> (u32, Option<u32>)
    requires found { DIVIDED ≡ true → 0 < now.now.limit }
    requires shares { now.now ≡ shared_at market.now now.now.drift }
    requires divided { IfSome division.old (IsDivisionOf market.now) }
    ensures share { result.0 ≡ share_of market.now now.now known.now arena level }
    ensures before { result.1 ≡ place_of market.now now.now known.now arena level }
    ensures divided { IfSome division.new (IsDivisionOf market.now) }
{
    if !is_divided::<DIVIDED>(now, level) {
        let share = if is_idle(now) {
            0
        } else {
            allotted(market, division, arena)
        };
        return (share, None);
    }
    portion_of_level(
        market,
        arena,
        known.request,
        level,
        now.given(level),
        now.asked(level),
    )
}

/// Takes the moment into the column of the last moment, of an arena of which this is known, and that is allotted so many workers, and what is then known
/// of it. A row whose column has that is left as it is.
#[inline(always)]
pub(crate) fn settle_share(row: &mut Row, known: &mut Known, place: usize, share: u32)
    ensures { (s : State) (cmd : Cmd) (reply : Reply) → (row.new, known.new) ≡ closed_row place s cmd reply known.old row.old row.old (Some share) }
{
    if !has_share(known, share) {
        *known = row.tell(place, known, share);
    }
}

/// Takes the moment after an entry into the column of the last moment, of an arena of a level that it is not about, and what is then known of it. A row
/// whose column has what the arena is allotted, or all that it may be wherever it stands, is left as it is.
#[inline(never)]
fn settle_other<const DIVIDED: bool>(
    row: &mut Row,
    known: &mut Known,
    place: usize,
    market: &Market,
    division: &mut Option<Division>,
    now: &Shares,
    level: Level,
)
    requires found { DIVIDED ≡ true → 0 < now.now.limit }
    requires shares { now.now ≡ shared_at market.now now.now.drift }
    requires divided { IfSome division.old (IsDivisionOf market.now) }
    ensures exact { (cmd : Cmd) (reply : Reply) → (row.new, known.new) ≡ (if is_spared now.now known.old level then (row.old, known.old) else respotted (spot_of market.now now.now known.old row.old.arena (Some level)) (closed_row place market.now cmd reply known.old row.old row.old (Some (share_of market.now now.now known.old row.old.arena level)))) }
    ensures divided { IfSome division.new (IsDivisionOf market.now) }
{
    if is_spared::<DIVIDED>(now, known, level) {
        return;
    }
    let request = known.request;
    let (share, before) = portion_of::<DIVIDED>(market, division, now, known, row.arena(), level);
    settle_share(row, known, place, share);
    known.spot = Spot::told(
        before,
        known.covered,
        request,
        now.given(level),
        now.asked(level),
        now.drift(),
    );
}

/// The same of the arena that the entry is about, of which this was known before it: what it asks for and has is put into the column, where that
/// changed.
#[inline(never)]
fn settle_own<const DIVIDED: bool>(
    row: &mut Row,
    was: &Known,
    known: &mut Known,
    place: usize,
    market: &Market,
    division: &mut Option<Division>,
    cmd: &Cmd,
    reply: &Reply,
    now: &Shares,
)
    requires found { DIVIDED ≡ true → 0 < now.now.limit }
    requires shares { DIVIDED ≡ true → now.now ≡ shared_at market.now now.now.drift }
    requires divided { IfSome division.old (IsDivisionOf market.now) }
    ensures exact { (row.new, known.new) ≡ closed_row place market.now cmd.now reply.now known.old row.old (needing_row place was.now known.old row.old) (option_map (share_of market.now now.now known.old row.old.arena) row.old.stands) }
    ensures divided { IfSome division.new (IsDivisionOf market.now) }
{
    match row.stands() {
        Some(level) => {
            let share = share_of::<DIVIDED>(market, division, now, known, row.arena(), level);
            if has_share(known, share) {
                row.add_needs(place, was, known);
            } else {
                *known = row.tell(place, known, share);
            }
        }
        None => *known = row.look(place, market, cmd, reply),
    }
}

/// What is known of an arena after an entry that says what it asks for.
fn requested(reply: &Reply, known: &Known) -> Option<Known>
    ensures { result ≡ requested reply.now known.now }
{
    match reply {
        Reply::Requested(request) | Reply::Resized(request) => Some(Known {
            request: *request,
            active: known.active,
            covered: known.covered,
            spot: Spot::none(),
        }),
        _ => None,
    }
}

/// What is known of an arena after an entry that is about it, where the reply tells that.
pub(crate) fn retold(cmd: &Cmd, reply: &Reply, known: &Known) -> Option<Known>
    ensures { result ≡ retold cmd.now reply.now known.now }
{
    match cmd {
        Cmd::Resize(_, _, _) | Cmd::Request(_, _, _) => requested(reply, known),
        _ => None,
    }
}

/// The same after a command of a seat. A Placed tells it where one more seat is placed than before.
#[inline(always)]
fn seated(place: usize, more: bool, reply: &Reply, known: &Known, row: &Row) -> Option<Known>
    ensures { result ≡ seated place more reply.now known.now row.now }
{
    match reply {
        Reply::Placed(_) => {
            if !more || known.active >= 64 {
                return None;
            }
            Some(row.known(place, known.request, known.active + 1))
        }
        Reply::Recalled(_) | Reply::Left(_) => Some(row.known(
            place,
            known.request,
            known.active.saturating_sub(1),
        )),
        _ => None,
    }
}

/// Takes the moment after an entry into the column of the row of the arena that it is about, which has the moment before, where this is
/// told of it, and what is then known of the arena: what was known of it before is at hand.
#[inline(always)]
pub(crate) fn own_row<const DIVIDED: bool>(
    row: &mut Row,
    known: &mut Known,
    place: usize,
    market: &Market,
    division: &mut Option<Division>,
    cmd: &Cmd,
    reply: &Reply,
    now: &Shares,
    told: Option<Known>,
)
    requires found { DIVIDED ≡ true → 0 < now.now.limit }
    requires shares { DIVIDED ≡ true → now.now ≡ shared_at market.now now.now.drift }
    requires divided { IfSome division.old (IsDivisionOf market.now) }
    ensures exact { (row.new, known.new) ≡ own_row place market.now cmd.now reply.now now.now known.old row.old told }
    ensures divided { IfSome division.new (IsDivisionOf market.now) }
{
    let Some(told) = told else {
        *known = row.look(place, market, cmd, reply);
        return;
    };
    let was = *known;
    *known = told;
    // By the copy, of which it is plain that what was not told did not change.
    if is_covered_at::<DIVIDED>(now, &told, row.stands()) {
        row.add_needs(place, &was, &told);
        return;
    }
    settle_own::<DIVIDED>(row, &was, known, place, market, division, cmd, reply, now);
}

/// The same of another arena than the one that the entry is about. A row to which the moment adds nothing is left as it is.
#[inline(always)]
fn other_row<const DIVIDED: bool>(
    row: &mut Row,
    known: &mut Known,
    place: usize,
    market: &Market,
    division: &mut Option<Division>,
    now: &Shares,
    kept: &[bool; 8],
)
    requires found { DIVIDED ≡ true → 0 < now.now.limit }
    requires shares { now.now ≡ shared_at market.now now.now.drift }
    requires divided { IfSome division.old (IsDivisionOf market.now) }
    ensures exact { (cmd : Cmd) (reply : Reply) → is_just row.old.arena (subject cmd reply) ≡ false → (row.new, known.new) ≡ near_row place market.now cmd reply now.now kept.now row.old known.old }
    ensures divided { IfSome division.new (IsDivisionOf market.now) }
{
    if stands_kept(kept, row.stands()) {
        return;
    }
    // Else it stands at a level.
    let Some(level) = row.stands() else {
        return;
    };
    if !is_covered::<DIVIDED>(now, known, level) {
        settle_other::<DIVIDED>(row, known, place, market, division, now, level);
    }
}

/// Takes the moment after a command and its reply, which are about one arena, into the column of a row at a place, which has the moment
/// before, and what is then known of its arena. A row to which the moment adds nothing is left as it is.
// Always in its caller: a call for each row would have more words to hand over than most rows take.
#[inline(always)]
fn near_row<const DIVIDED: bool>(
    row: &mut Row,
    known: &mut Known,
    place: usize,
    market: &Market,
    division: &mut Option<Division>,
    cmd: &Cmd,
    reply: &Reply,
    now: &Shares,
    about: &Option<ArenaId>,
    kept: &[bool; 8],
)
    requires found { DIVIDED ≡ true → 0 < now.now.limit }
    requires shares { now.now ≡ shared_at market.now now.now.drift }
    requires divided { IfSome division.old (IsDivisionOf market.now) }
    requires about { about.now ≡ subject cmd.now reply.now }
    ensures exact { (row.new, known.new) ≡ near_row place market.now cmd.now reply.now now.now kept.now row.old known.old }
    ensures divided { IfSome division.new (IsDivisionOf market.now) }
{
    if is_just(row.arena(), about) {
        let told = retold(cmd, reply, known);
        own_row::<DIVIDED>(row, known, place, market, division, cmd, reply, now, told);
        known.spot = Spot::none();
        return;
    }
    other_row::<DIVIDED>(row, known, place, market, division, now, kept);
}

/// Takes the moment into the columns of all rows, and what is then known of their arenas, where the entry is about this arena, the levels
/// are given this now, and the arenas of these are allotted what they were. The rows behind the first `count` are left as they are.
#[inline(always)]
fn rows_about<const DIVIDED: bool>(
    rows: &mut [Row],
    known: &mut [Known],
    count: usize,
    place: usize,
    market: &Market,
    cmd: &Cmd,
    reply: &Reply,
    now: &Shares,
    about: &Option<ArenaId>,
    kept: &[bool; 8],
)
    requires found { DIVIDED ≡ true → 0 < now.now.limit }
    requires shares { now.now ≡ shared_at market.now now.now.drift }
    requires each { length known.old ≡ length rows.old }
    requires about { about.now ≡ subject cmd.now reply.now }
    requires within { count ≤ length rows.old }
    requires left { AreLeft count (subject cmd.now reply.now) rows.old }
    ensures rows { rows.new ≡ (pairwise (near_row place market.now cmd.now reply.now now.now kept.now) rows.old known.old).0 }
    ensures known { known.new ≡ (pairwise (near_row place market.now cmd.now reply.now now.now kept.now) rows.old known.old).1 }
    ensures rest { drop count rows.new ≡ drop count rows.old }
{
    let mut division = None;
    for index in 0..count {
        near_row::<DIVIDED>(
            &mut rows[index],
            &mut known[index],
            place,
            market,
            &mut division,
            cmd,
            reply,
            now,
            about,
            kept,
        );
    }
}

/// The same of whatever the entry is about.
// By cases, so that no row has to ask whether the entry is about any arena, nor whether any worker may be active.
#[inline(always)]
fn rows_of_any_level(
    rows: &mut [Row],
    known: &mut [Known],
    count: usize,
    place: usize,
    market: &Market,
    cmd: &Cmd,
    reply: &Reply,
    now: &Shares,
    about: &Option<ArenaId>,
    kept: &[bool; 8],
)
    requires each { length known.old ≡ length rows.old }
    requires about { about.now ≡ subject cmd.now reply.now }
    requires within { count ≤ length rows.old }
    requires left { AreLeft count (subject cmd.now reply.now) rows.old }
    requires shares { now.now ≡ shared_at market.now now.now.drift }
    ensures rows { rows.new ≡ (pairwise (near_row place market.now cmd.now reply.now now.now kept.now) rows.old known.old).0 }
    ensures known { known.new ≡ (pairwise (near_row place market.now cmd.now reply.now now.now kept.now) rows.old known.old).1 }
    ensures rest { drop count rows.new ≡ drop count rows.old }
{
    match about {
        Some(arena) if now.limit() > 0 => rows_about::<true>(
            rows,
            known,
            count,
            place,
            market,
            cmd,
            reply,
            now,
            &Some(*arena),
            kept,
        ),
        _ => rows_about::<false>(
            rows, known, count, place, market, cmd, reply, now, about, kept,
        ),
    }
}

/// The same of whatever levels are kept: where all are, or all but one, the row of an arena is found by its number, if that is to be had.
// By what is not kept before all else, since the last step has just told it.
fn each_row(
    rows: &mut [Row],
    known: &mut [Known],
    count: usize,
    first: Option<u32>,
    place: usize,
    market: &Market,
    cmd: &Cmd,
    reply: &Reply,
    now: &Shares,
    about: &Option<ArenaId>,
    kept: &[bool; 8],
    unkept: Unkept,
)
    requires each { length known.old ≡ length rows.old }
    requires about { about.now ≡ subject cmd.now reply.now }
    requires within { count ≤ length rows.old }
    requires left { AreLeft count (subject cmd.now reply.now) rows.old }
    requires numbered { AreNumbered first rows.old }
    requires unkept { AreUnkept kept.now unkept }
    requires shares { now.now ≡ shared_at market.now now.now.drift }
    ensures rows { rows.new ≡ (pairwise (near_row place market.now cmd.now reply.now now.now kept.now) rows.old known.old).0 }
    ensures known { known.new ≡ (pairwise (near_row place market.now cmd.now reply.now now.now kept.now) rows.old known.old).1 }
    ensures rest { drop count rows.new ≡ drop count rows.old }
{
    match unkept {
        Unkept::Nowhere => {
            if let (Some(first), Some(arena)) = (first, about) {
                if now.limit() > 0 {
                    return own_row_numbered(
                        rows, known, count, first, place, market, cmd, reply, now, *arena, kept,
                    );
                }
            }
        }
        Unkept::At(level) => {
            if let (Some(first), Some(arena)) = (first, about) {
                if now.limit() > 0 && now.asked(level) > 0 {
                    return rows_numbered(
                        rows, known, count, first, place, market, cmd, reply, now, *arena, kept,
                        level,
                    );
                }
            }
        }
        Unkept::Anywhere => {}
    }
    rows_of_any_level(
        rows, known, count, place, market, cmd, reply, now, about, kept,
    );
}

/// Takes the moment after a command and its reply, which are about one arena, into the column of all rows at a place, which has the moment
/// before, what is then known of their arenas, and what the levels are given. The rows behind the first `count` are left as they are. The arenas
/// of all rows are numbered one after another from `first` on, if there is such a number.
pub(crate) fn near_rows(
    rows: &mut [Row],
    known: &mut [Known],
    shares: &mut Shares,
    count: usize,
    first: Option<u32>,
    place: usize,
    market: &Market,
    limits: &LimitView,
    cmd: &Cmd,
    reply: &Reply,
    about: &Option<ArenaId>,
)
    requires each { length known.old ≡ length rows.old }
    requires numbered { AreNumbered first rows.old }
    requires limits { limits.now ≡ limits_of market.now }
    requires about { about.now ≡ subject cmd.now reply.now }
    requires within { count ≤ length rows.old }
    requires left { AreLeft count (subject cmd.now reply.now) rows.old }
    ensures rows { rows.new ≡ (each_row place market.now cmd.now reply.now shares.old rows.old known.old).0 }
    ensures known { known.new ≡ (each_row place market.now cmd.now reply.now shares.old rows.old known.old).1 }
    ensures shares { shares.new ≡ shared_after cmd.now shares.old market.now }
    ensures rest { drop count rows.new ≡ drop count rows.old }
{
    let (kept, unkept) = shares.renew(market, limits, cmd);
    each_row(
        rows, known, count, first, place, market, cmd, reply, shares, about, &kept, unkept,
    );
}

/// Takes the moment after a command of a seat and its reply, which are about one arena, into the column of a row at a place, which has the
/// moment before, and what is then known of its arena. The row of another arena is left as it is.
// Always in its callers, as the row of an arena that an entry is about is, whether it is found by its number or looked for.
#[inline(always)]
pub(crate) fn seat_row(
    row: &mut Row,
    known: &mut Known,
    place: usize,
    market: &Market,
    cmd: &Cmd,
    reply: &Reply,
    more: bool,
    now: &Shares,
    moved: &Option<ArenaId>,
)
    requires moved { moved.now ≡ subject cmd.now reply.now }
    ensures { (row.new, known.new) ≡ seat_row place market.now cmd.now reply.now more now.now row.old known.old }
{
    if is_just(row.arena(), moved) {
        let told = seated(place, more, reply, known, row);
        own_row::<false>(row, known, place, market, &mut None, cmd, reply, now, told);
        known.spot = Spot::none();
    }
}

/// Takes the moment into the columns of all rows, and what is then known of their arenas, where one more seat is placed than before, or
/// not. The rows behind the first `count` are left as they are.
fn each_seat_row(
    rows: &mut [Row],
    known: &mut [Known],
    count: usize,
    place: usize,
    market: &Market,
    cmd: &Cmd,
    reply: &Reply,
    more: bool,
    now: &Shares,
    moved: &Option<ArenaId>,
)
    requires each { length known.old ≡ length rows.old }
    requires moved { moved.now ≡ subject cmd.now reply.now }
    requires within { count ≤ length rows.old }
    requires left { AreLeft count (subject cmd.now reply.now) rows.old }
    ensures rows { rows.new ≡ (pairwise (seat_row place market.now cmd.now reply.now more now.now) rows.old known.old).0 }
    ensures known { known.new ≡ (pairwise (seat_row place market.now cmd.now reply.now more now.now) rows.old known.old).1 }
    ensures rest { drop count rows.new ≡ drop count rows.old }
{
    for index in 0..count {
        seat_row(
            &mut rows[index],
            &mut known[index],
            place,
            market,
            cmd,
            reply,
            more,
            now,
            moved,
        );
    }
}

/// Takes the moment after a command of a seat and its reply, which are about one arena, into the column of all rows at a place, which has the
/// moment before, what is then known of their arenas, and how many seats are placed. The rows behind the first `count` are left as they are. The
/// arenas of all rows are numbered one after another from `first` on, if there is such a number.
pub(crate) fn seat_rows(
    rows: &mut [Row],
    known: &mut [Known],
    shares: &mut Shares,
    count: usize,
    first: Option<u32>,
    place: usize,
    market: &Market,
    cmd: &Cmd,
    reply: &Reply,
    moved: &Option<ArenaId>,
)
    requires each { length known.old ≡ length rows.old }
    requires moved { moved.now ≡ subject cmd.now reply.now }
    requires within { count ≤ length rows.old }
    requires left { AreLeft count (subject cmd.now reply.now) rows.old }
    requires numbered { AreNumbered first rows.old }
    ensures rows { rows.new ≡ (seat_rows place market.now cmd.now reply.now shares.old rows.old known.old).0 }
    ensures known { known.new ≡ (seat_rows place market.now cmd.now reply.now shares.old rows.old known.old).1 }
    ensures shares { shares.new ≡ after_seat market.now shares.old }
    ensures rest { drop count rows.new ≡ drop count rows.old }
{
    let more = shares.seat(market);
    match (first, moved) {
        (Some(first), Some(arena)) => seat_row_numbered(
            rows, known, count, first, place, market, cmd, reply, more, shares, *arena,
        ),
        _ => each_seat_row(
            rows, known, count, place, market, cmd, reply, more, shares, moved,
        ),
    }
}

/// Takes the first moment of a column into a row, where this is known of its arena at the moment before, and what is then known. The market
/// is asked of the arena that the entry is about, and of another only for what is not told.
#[inline]
fn first_row(
    row: &mut Row,
    known: &mut Known,
    place: usize,
    market: &Market,
    division: &mut Option<Division>,
    cmd: &Cmd,
    reply: &Reply,
    now: &Shares,
    own: &Option<ArenaId>,
)
    requires shares { now.now ≡ shared_of market.now }
    requires divided { IfSome division.old (IsDivisionOf market.now) }
    requires own { own.now ≡ subject cmd.now reply.now }
    ensures exact { (row.new, known.new) ≡ first_row place market.now cmd.now reply.now now.now row.old known.old }
    ensures divided { IfSome division.new (IsDivisionOf market.now) }
{
    if is_just(row.arena(), own) {
        *known = row.look(place, market, cmd, reply);
        return;
    }
    settle(row, known, place, market, division, now);
}

/// Takes the first moment of a column into all rows, where this is known of their arenas at the moment before, and what is then known. The rows behind
/// the first `count` are left as they are.
pub(crate) fn first_rows(
    rows: &mut [Row],
    known: &mut [Known],
    count: usize,
    place: usize,
    market: &Market,
    cmd: &Cmd,
    reply: &Reply,
    now: &Shares,
    own: &Option<ArenaId>,
)
    requires each { length known.old ≡ length rows.old }
    requires shares { now.now ≡ shared_of market.now }
    requires own { own.now ≡ subject cmd.now reply.now }
    requires within { count ≤ length rows.old }
    requires left { AreLeft count (subject cmd.now reply.now) rows.old }
    ensures rows { rows.new ≡ (first_rows place market.now cmd.now reply.now rows.old known.old).0 }
    ensures known { known.new ≡ (first_rows place market.now cmd.now reply.now rows.old known.old).1 }
{
    let mut division = None;
    for index in 0..count {
        first_row(
            &mut rows[index],
            &mut known[index],
            place,
            market,
            &mut division,
            cmd,
            reply,
            now,
            own,
        );
    }
}

/// Takes the first moment of all into all rows, and what is then known of their arenas.
pub(crate) fn look_rows(
    rows: &mut [Row],
    known: &mut [Known],
    place: usize,
    market: &Market,
    cmd: &Cmd,
    reply: &Reply,
)
    requires each { length known.old ≡ length rows.old }
    ensures rows { rows.new ≡ map (taken_row place market.now cmd.now reply.now) rows.old }
    ensures known { known.new ≡ known_rows place market.now cmd.now reply.now rows.old }
{
    for index in 0..rows.len() {
        known[index] = rows[index].look(place, market, cmd, reply);
    }
}
