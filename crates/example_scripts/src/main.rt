//! Works the scripts, the journals and the plans of the folder `data`, and tells of each whether what is written of it is what
//! stands beside it.
#![tactic(auto)]

ghost use Rattle.std.specs.Prelude.{◌<◌, ◌≤◌};

use anyhow::Result;
use byte_devices::{TestSink, TestSource};
use market_prog::{
    explain_script, run_drive, run_journal, run_replay, run_script, status_of_drive,
    status_of_replay,
};
use market_types::Opening;
use market_words::{ScriptTask, USUAL_MARKET};
use std::alloc::Global;
use std::fs;
use std::sync::Wait;
use std::thread::Threads;

/// Room for what is written of any of the files.
const MOST_WRITTEN: usize = 65_536;

/// A script in `NAME.txt`. The market has the usual hard limit and number of seats.
#[derive(Clone, Copy)]
struct Example {
    base: u32,
    levels: u32,
    /// How many of the script's lines are unread.
    unread: u64,
}

impl Example {
    /// The script of this name.
    fn named(name: &str) -> Self {
        let usual = Example {
            base: 8,
            levels: 3,
            unread: 0,
        };
        match name {
            "a_high_arena_takes_a_worker" => Example { base: 3, ..usual },
            "five_levels" => Example {
                base: 4,
                levels: 5,
                unread: 2,
            },
            "unread_lines" => Example { unread: 2, ..usual },
            _ => usual,
        }
    }
}

/// The scripts whose replies stand beside them, in `NAME.out`.
const ANSWERED: [&str; 22] = [
    "nothing_to_do",
    "nobody_asks",
    "one_arena",
    "one_arena_shown",
    "three_arenas_share_seven",
    "three_levels_in_order",
    "a_control_leaves_five",
    "the_least_control_counts",
    "too_many_controls",
    "enqueued_work_at_limit_0",
    "enqueued_work_of_a_low_arena",
    "a_reserved_slot_serves_enqueued_work",
    "totals_are_not_forgotten",
    "joins_and_a_recall",
    "left_then_closed",
    "moved_within_its_level",
    "numbers_out_of_range",
    "moved_down_and_closed",
    "resized_with_a_placed_seat",
    "a_high_arena_takes_a_worker",
    "five_levels",
    "unread_lines",
];

/// The scripts whose journals stand beside them, in `NAME.journal`.
const RECORDED: [&str; 4] = [
    "one_arena_shown",
    "joins_and_a_recall",
    "resized_with_a_placed_seat",
    "five_levels",
];

/// The scripts whose explanations stand beside them, in `NAME.explained`.
const EXPLAINED: [&str; 4] = [
    "nothing_to_do",
    "a_control_leaves_five",
    "enqueued_work_of_a_low_arena",
    "resized_with_a_placed_seat",
];

/// The journals that are legal. The verdict of each stands beside it, in `NAME.verdict`.
const LEGAL: [&str; 8] = [
    "one_arena_shown",
    "joins_and_a_recall",
    "resized_with_a_placed_seat",
    "five_levels",
    "version_1",
    "version_3",
    "a_short_command",
    "a_header_alone",
];

/// The journals that are not legal.
const FAULTY: [&str; 11] = [
    "a_reply_is_changed",
    "an_unknown_command",
    "a_seat_too_many",
    "an_empty_line",
    "version_3_without_its_keys",
    "a_line_is_missing",
    "levels_in_version_1",
    "no_levels_in_version_2",
    "cut_in_a_line",
    "a_header_without_its_end",
    "no_line",
];

/// The plans of which all jobs are done. What is written of each stands beside it, in `NAME.outcome`.
const FINISHED: [&str; 3] = ["three_jobs", "no_job", "enqueued_jobs_alone"];

/// The plans that are refused.
const REFUSED: [&str; 3] = ["no_text", "a_job_of_no_arena", "only_reserved_slots"];

/// Tells whether a file holds what was written, and the work ended as it should.
fn compare(rt: &HostRuntime, file: &str, written: &[u8], ended_well: bool) -> Result<()> {
    let wanted = fs::read(rt, file)?;
    let verdict = if ended_well && written == wanted.as_slice() {
        "as written"
    } else {
        "otherwise"
    };
    println!(rt; "{file}: {verdict}")?;
    Ok(())
}

/// Works the script, and tells whether what is written of it is as it should be.
fn try_script(rt: &HostRuntime, task: ScriptTask, name: &str) -> Result<()> {
    let Example {
        base,
        levels,
        unread,
    } = Example::named(name);
    let options = Opening {
        base,
        levels,
        ..USUAL_MARKET
    };
    let alloc = rt.alloc();
    let script = fs::read(rt, format!(in alloc; "{name}.txt")?)?;
    let source = &mut TestSource::new(&script);
    let sink = &mut TestSink::new(Vec::with_capacity(alloc, MOST_WRITTEN)?);
    let (outcome, ending) = match task {
        ScriptTask::Answer => (run_script(alloc, options, source, sink), "out"),
        ScriptTask::Journal => (run_journal(alloc, options, source, sink), "journal"),
        ScriptTask::Explain => (explain_script(alloc, options, source, sink), "explained"),
    };
    let file = format!(in alloc; "{name}.{ending}")?;
    compare(rt, &file, sink.taken(), outcome == Ok(unread))
}

/// Replays the journal `NAME.journal`, and tells whether its verdict and its exit status are as they should be.
fn try_journal(rt: &HostRuntime, name: &str, status: u8) -> Result<()> {
    let alloc = rt.alloc();
    let journal = fs::read(rt, format!(in alloc; "{name}.journal")?)?;
    let mut source = TestSource::new(&journal);
    let mut sink = TestSink::new(Vec::with_capacity(alloc, MOST_WRITTEN)?);
    let outcome = run_replay(alloc, &mut source, &mut sink);
    let file = format!(in alloc; "{name}.verdict")?;
    compare(
        rt,
        &file,
        sink.taken(),
        status_of_replay(&outcome) == status,
    )
}

/// What a file of cases is for.
#[derive(Clone, Copy)]
enum Kind {
    /// Scripts to a usual market, with their replies.
    Scripts,
    /// The same, with their journals.
    Records,
    /// The same, with their explanations.
    Explanations,
    /// Journals, with their verdicts.
    Journals,
    /// Plans, with their outcomes.
    Plans,
}

/// Puts one line more behind the text.
fn push_line(text: &mut Vec<u8>, line: &str) -> Result<()> {
    text.extend_from_slice(line.as_bytes())?;
    text.push(b'\n')?;
    Ok(())
}

/// Whether this is written of the text.
fn is_written_of<T: Threads + Wait + Sync>(
    threads: &T,
    alloc: Global,
    kind: Kind,
    text: &[u8],
    wanted: &[u8],
) -> Result<bool> {
    let usual = USUAL_MARKET;
    let source = &mut TestSource::new(text);
    let sink = &mut TestSink::new(Vec::with_capacity(alloc, MOST_WRITTEN)?);
    match kind {
        Kind::Scripts => drop(run_script(alloc, usual, source, sink)),
        Kind::Records => drop(run_journal(alloc, usual, source, sink)),
        Kind::Explanations => drop(explain_script(alloc, usual, source, sink)),
        Kind::Journals => drop(run_replay(alloc, source, sink)),
        Kind::Plans => drop(run_drive(threads, alloc, 2, source, sink)),
    }
    Ok(sink.taken() == wanted)
}

/// Works the texts of a file, each of which has behind it what has to be written of it: a last line that begins with `= `, and
/// those before it with `| `. A line that begins with `# ` says what the next texts are for. Tells of how many it is written, and
/// at which lines stand those of others.
fn try_cases<T: Threads + Wait + Sync>(
    rt: &HostRuntime,
    threads: &T,
    kind: Kind,
    file: &str,
) -> Result<()> {
    let alloc = rt.alloc();
    let cases = fs::read_to_string(rt, file)?;
    let mut text = Vec::new(alloc);
    let mut wanted = Vec::new(alloc);
    let mut count = 0_u64;
    for (index, line) in cases.split('\n').enumerate() {
        if let Some(before) = line.strip_prefix("| ") {
            push_line(&mut wanted, before)?;
        } else if let Some(last) = line.strip_prefix("= ") {
            push_line(&mut wanted, last)?;
            if is_written_of(threads, alloc, kind, &text, &wanted)? {
                count = count.saturating_add(1);
            } else {
                println!(rt; "{file}, line {}: otherwise", index.saturating_add(1))?;
            }
            text.clear();
            wanted.clear();
        } else if !line.starts_with("# ") {
            push_line(&mut text, line)?;
        }
    }
    println!(rt; "{file}: {count} as written")?;
    Ok(())
}

/// Drives the plan `NAME.plan` with so many workers, in threads of the handle, and tells whether what is written and the exit
/// status are as they should be.
fn try_plan<T: Threads + Wait + Sync>(
    rt: &HostRuntime,
    threads: &T,
    workers: usize,
    name: &str,
    status: u8,
) -> Result<()>
    requires { (0 < workers) × (workers ≤ 16) }
{
    let alloc = rt.alloc();
    let plan = fs::read(rt, format!(in alloc; "{name}.plan")?)?;
    let mut source = TestSource::new(&plan);
    let mut sink = TestSink::new(Vec::with_capacity(alloc, MOST_WRITTEN)?);
    let outcome = run_drive(threads, alloc, workers, &mut source, &mut sink);
    let file = format!(in alloc; "{name}.outcome")?;
    compare(rt, &file, sink.taken(), status_of_drive(&outcome) == status)
}

/// Works the scripts, one after the other.
fn try_scripts(rt: &HostRuntime, task: ScriptTask, names: &[&str]) -> Result<()> {
    for name in names {
        try_script(rt, task, name)?;
    }
    Ok(())
}

/// Replays the journals, one after the other.
fn try_journals(rt: &HostRuntime, names: &[&str], status: u8) -> Result<()> {
    for name in names {
        try_journal(rt, name, status)?;
    }
    Ok(())
}

/// Drives all plans with so many workers, one after the other.
fn try_plans<T: Threads + Wait + Sync>(rt: &HostRuntime, threads: &T, workers: usize) -> Result<()>
    requires { (0 < workers) × (workers ≤ 16) }
{
    println!(rt; "workers: {workers}")?;
    for name in FINISHED {
        try_plan(rt, threads, workers, name, 0)?;
    }
    for name in REFUSED {
        try_plan(rt, threads, workers, name, 1)?;
    }
    Ok(())
}

fn main(rt: HostRuntime) -> Result<()> {
    try_scripts(&rt, ScriptTask::Answer, &ANSWERED)?;
    try_scripts(&rt, ScriptTask::Journal, &RECORDED)?;
    try_scripts(&rt, ScriptTask::Explain, &EXPLAINED)?;
    try_journals(&rt, &LEGAL, 0)?;
    try_journals(&rt, &FAULTY, 1)?;
    try_cases(&rt, &rt, Kind::Scripts, "scripts.cases")?;
    try_cases(&rt, &rt, Kind::Records, "records.cases")?;
    try_cases(&rt, &rt, Kind::Explanations, "explanations.cases")?;
    try_cases(&rt, &rt, Kind::Journals, "journals.cases")?;
    try_cases(&rt, &rt, Kind::Plans, "plans.cases")?;
    for workers in [1, 2, 16] {
        try_plans(&rt, &rt, workers)?;
    }
    Ok(())
}
