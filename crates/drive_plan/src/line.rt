//! The lines of a plan, read.
ghost use Rattle.std.specs.Prelude.{◌≡◌, ◌≢◌, ◌≤◌, ◌++◌, ℕ, List, Some, false, IfNone, IfSome, codes, option_map};
ghost use Rattle.std.specs.List.{slice_split};
ghost use Rattle.market_texts.specs.Fields.{fields_left};
ghost use Rattle.market_texts.specs.Reading.{is_space};
ghost use Rattle.drive_plan.specs.Format.{is_passed_over};
ghost use Rattle.drive_plan.specs.Plans.{FitsJob, FitsLine};
ghost use Rattle.drive_plan.specs.Reading.{alone, arena_line, arena_wanted, control_line, job_line, level_in, line_of, market_line, number_in};
ghost use Rattle.drive_plan.specs.Tasks.{task_left};

use crate::plan::PlannedArena;
use market_texts::{cut_field, read_level, read_number, read_number_to};
use market_types::{ArenaId, Level};
use plan_jobs::{PlannedJob, Task};

/// The most of a number of workers: a hard limit, slots, and what an arena asks for.
const MOST_WORKERS: u32 = 65_535;

/// The greatest argument of a sum.
const MOST_ADDED: u32 = 1_000_000;

/// What a line of a plan says.
#[derive(Clone, Copy)]
pub(crate) enum PlanLine {
    /// The market: base, hard limit, levels.
    Market(u32, u32, u32),
    /// The next arena.
    Arena(PlannedArena),
    /// A control of this value.
    Control(u32),
    /// The next job.
    Job(PlannedJob),
}

/// A number from `least` to `most`.
fn read_in(field: &[u8], least: u32, most: u32) -> Option<u32>
    ensures exact { result ≡ number_in least most field.now }
    ensures range { IfSome result (λ n. (least ≤ n) × (n ≤ most)) }
{
    let number = read_number(field)?;
    if number < least || number > most {
        return None;
    }
    Some(number)
}

/// A level of a market that has so many.
fn read_level_in(field: &[u8], levels: u32) -> Option<Level>
    ensures exact { result ≡ level_in levels field.now }
    ensures range { IfSome result (λ level. level ≤ levels) }
{
    let level = read_level(field, levels)?;
    if level.get() > levels {
        return None;
    }
    Some(level)
}

/// The line, where no field follows.
fn alone(line: PlanLine, more: Option<&[u8]>) -> Option<PlanLine>
    ensures exact { result ≡ alone line (fields_left more.entry) }
    ensures fits { (levels arenas : ℕ) → FitsLine levels arenas line → IfSome result (FitsLine levels arenas) }
{
    match more {
        None => Some(line),
        Some(_) => None,
    }
}

fn read_market(more: Option<&[u8]>) -> Option<PlanLine>
    ensures exact { result ≡ market_line (fields_left more.entry) }
    ensures fits { (levels arenas : ℕ) → IfSome result (FitsLine levels arenas) }
{
    let (field, more) = cut_field(more?);
    let base = read_in(field, 1, 65_536)?;
    let (field, more) = cut_field(more?);
    let hard = read_in(field, 1, MOST_WORKERS)?;
    let Some(more) = more else {
        return Some(PlanLine::Market(base, hard, 3));
    };
    let (field, more) = cut_field(more);
    let levels = read_in(field, 1, 8)?;
    alone(PlanLine::Market(base, hard, levels), more)
}

/// What an arena asks for, after its slots and its level.
fn read_demand(more: Option<&[u8]>, slots: u32, reserved: u32, level: Level) -> Option<PlanLine>
    ensures exact { result ≡ arena_wanted slots reserved level (fields_left more.entry) }
    ensures fits { (levels arenas : ℕ) → 1 ≤ slots → slots ≤ 65535 → reserved ≤ slots → level ≤ levels → IfSome result (FitsLine levels arenas) }
{
    let (field, more) = cut_field(more?);
    let wanted = read_in(field, 0, MOST_WORKERS)?;
    let (field, more) = cut_field(more?);
    let mandatory = read_in(field, 0, MOST_WORKERS)?;
    let arena = PlannedArena {
        slots,
        reserved,
        level,
        wanted,
        mandatory,
    };
    alone(PlanLine::Arena(arena), more)
}

fn read_arena(more: Option<&[u8]>, levels: u32) -> Option<PlanLine>
    ensures exact { result ≡ arena_line levels (fields_left more.entry) }
    ensures fits { (arenas : ℕ) → IfSome result (FitsLine levels arenas) }
{
    let (field, more) = cut_field(more?);
    let slots = read_in(field, 1, MOST_WORKERS)?;
    let (field, more) = cut_field(more?);
    let reserved = read_in(field, 0, slots)?;
    let (field, more) = cut_field(more?);
    let level = read_level_in(field, levels)?;
    read_demand(more, slots, reserved, level)
}

fn read_control(more: Option<&[u8]>) -> Option<PlanLine>
    ensures exact { result ≡ control_line (fields_left more.entry) }
    ensures fits { (levels arenas : ℕ) → IfSome result (FitsLine levels arenas) }
{
    let (field, more) = cut_field(more?);
    let value = read_in(field, 1, 65_536)?;
    alone(PlanLine::Control(value), more)
}

/// What follows `job` and a space.
fn after_job(text: &[u8]) -> Option<&[u8]>
    ensures { IfSome result (λ rest. text.now ≡ codes "job " ++ rest.now) }
{
    match text {
        [b'j', b'o', b'b', b' ', rest @ ..] => Some(rest),
        _ => None,
    }
}

/// What follows `sum` and a space.
fn after_sum(text: &[u8]) -> Option<&[u8]>
    ensures none { IfNone result ((rest : List ℕ) → text.now ≢ codes "sum " ++ rest) }
    ensures some { IfSome result (λ rest. text.now ≡ codes "sum " ++ rest.now) }
{
    match text {
        [b's', b'u', b'm', b' ', rest @ ..] => Some(rest),
        _ => None,
    }
}

/// What follows `digits` and a space.
fn after_digits(text: &[u8]) -> Option<&[u8]>
    ensures none { IfNone result ((rest : List ℕ) → text.now ≢ codes "digits " ++ rest) }
    ensures some { IfSome result (λ rest. text.now ≡ codes "digits " ++ rest.now) }
{
    match text {
        [b'd', b'i', b'g', b'i', b't', b's', b' ', rest @ ..] => Some(rest),
        _ => None,
    }
}

/// The task that a job's line ends with. Its argument is all that is left: a space in it is no digit.
fn read_task(text: &[u8]) -> Option<Task>
    ensures { result ≡ task_left (slice_split is_space text.now) }
{
    if let Some(argument) = after_sum(text) {
        return Some(Task::Sum(read_in(argument, 0, MOST_ADDED)?));
    }
    let argument = after_digits(text)?;
    Some(Task::Digits(read_number_to(argument, u64::MAX)?))
}

/// The job of a line, after its word.
fn read_job(text: &[u8], arenas: u32) -> Option<PlannedJob>
    ensures exact { option_map PlanLine.Job result ≡ job_line arenas (slice_split is_space text.now) }
    ensures fits { IfSome result (FitsJob arenas) }
{
    let (field, more) = cut_field(text);
    let arena = ArenaId::new(read_in(field, 1, arenas)?);
    let task = read_task(more?)?;
    Some(PlannedJob { arena, task })
}

/// The job that a line says, after so many arenas. None of every other line. Nearly all lines are jobs: here their word needs no
/// search for its end, and what else a line may say needs no room.
#[tactic(auto, unfolding(crate::specs::Reading::line_of))]
pub(crate) fn read_job_line(line: &[u8], arenas: u32) -> Option<PlannedJob>
    ensures exact { (levels : ℕ) → IfSome result (λ job. line_of levels arenas line.now ≡ Some (PlanLine.Job job)) }
    ensures fits { IfSome result (FitsJob arenas) }
    ensures read { IfSome result (λ _. is_passed_over line.now ≡ false) }
{
    read_job(after_job(line)?, arenas)
}

/// What a line says of a market of so many levels, after so many arenas.
#[tactic(auto, unfolding(crate::specs::Reading::line_of))]
pub(crate) fn read_plan_line(line: &[u8], levels: u32, arenas: u32) -> Option<PlanLine>
    ensures exact { result ≡ line_of levels arenas line.now }
    ensures fits { IfSome result (FitsLine levels arenas) }
{
    let (word, more) = cut_field(line);
    if word == b"market".as_slice() {
        return read_market(more);
    }
    if word == b"arena".as_slice() {
        return read_arena(more, levels);
    }
    if word == b"control".as_slice() {
        return read_control(more);
    }
    if word == b"job".as_slice() {
        return Some(PlanLine::Job(read_job(more?, arenas)?));
    }
    None
}
