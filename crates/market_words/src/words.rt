//! The words of the command line.
ghost use Rattle.std.specs.Prelude.{◌≡◌, ◌≤◌, ◌<◌, IfOk, codes, false, length, map};
ghost use Rattle.clap.specs.Words.{App, FailsBy, all_of, app_of, fault_of, found_of, new_app, rows_of, rule_of, with_rule, with_subcommand};
ghost use Rattle.market_words.specs.Words.{AreArenasOf, AreSpelled, Chooses, IsChoiceOf, IsDrawingOf, IsDriveOf, IsNumberOf, IsMarketOf, IsReplayOf, IsScriptOf, Spells, AreFirstArenas, arena_rule, asks, chart_app, drive_app, explain_app, flag_rule, market_app, number_rule, replay_app, run_app, script_app, with_choice_asked};
ghost use Rattle.market_words.specs.Command.{IsCommandOf};
ghost use Rattle.market_words.specs.Passed.{HasChartNumbers, HasNumber, HasMarketNumbers, NamesSubcommand};

use crate::help;
use clap::{Arg, ArgAction, ArgMatches, Command, Error};
use market_types::{ArenaId, LastNumber, Opening};
use std::alloc::{AllocError, Global};

/// What `market --version` tells.
const VERSION: &str = "0.1.0";

/// How many arenas are drawn at most.
const MOST_ARENAS: usize = 16;

/// A subcommand with its options.
#[derive(Debug, PartialEq, Eq, Drop)]
pub enum Choice {
    /// `market run` and `market explain`: a script speaks to this market.
    Script(ScriptTask, ScriptOptions),
    /// `market replay`: replays a journal.
    Replay(ReplayOptions),
    /// `market drive`: drives a plan.
    Drive(DriveOptions),
    /// `market chart`: draws a journal.
    Chart(ChartOptions),
}

/// What is written of a script.
#[derive(Clone, Copy, Debug, PartialEq, Eq)]
pub enum ScriptTask {
    /// `market run`: a reply to each of its lines.
    Answer,
    /// `market run --journal`: its journal.
    Journal,
    /// `market explain`: the explanation of the market that it leads to.
    Explain,
}

/// How a script is read.
#[derive(Clone, Copy, Debug, PartialEq, Eq)]
pub struct ScriptOptions {
    /// The market that it speaks to.
    pub market: Opening,
    /// `--progress`: how much is read is reported meanwhile, also where standard error is no terminal.
    pub progress: bool,
}

/// How a journal is replayed.
#[derive(Clone, Copy, Debug, PartialEq, Eq)]
pub struct ReplayOptions {
    /// `--progress`: how much is read is reported meanwhile, also where standard error is no terminal.
    pub progress: bool,
}

/// How a plan is driven.
#[derive(Clone, Copy, Debug, PartialEq, Eq)]
pub struct DriveOptions {
    /// How many workers run its jobs, 1 to 16.
    pub workers: u32,
    /// `--progress`: how many jobs are done is reported while they run, also where standard error is no terminal.
    pub progress: bool,
}

/// What is drawn of a journal.
#[derive(Debug, PartialEq, Eq, Drop)]
pub struct ChartOptions {
    /// How many columns there are at most, from 1 on. All arenas together never have more than 1,792.
    pub width: u32,
    /// The first entry that is drawn, from 1 on.
    pub from: u32,
    /// The last entry that is drawn.
    pub to: u32,
    /// The arenas that are drawn, at most 16.
    pub arenas: Vec<ArenaId>,
    /// `--progress`: how much is read is reported meanwhile, also where standard error is no terminal.
    pub progress: bool,
}

/// An option with a number from 1 to `high`.
#[derive(Clone, Copy)]
struct NumberOption {
    name: &'static str,
    default: &'static str,
    high: u32,
    help: &'static str,
}

const BASE: NumberOption = NumberOption {
    name: "base",
    default: "8",
    high: 65_536,
    help: "Fewer than N workers are active while no control lives, 1 to 65536",
};

const HARD: NumberOption = NumberOption {
    name: "hard",
    default: "64",
    high: 65_535,
    help: "At most N workers are active, 1 to 65535",
};

const SEATS: NumberOption = NumberOption {
    name: "seats",
    default: "4",
    high: 64,
    help: "N seats give commands, numbered from 0, 1 to 64",
};

const LEVELS: NumberOption = NumberOption {
    name: "levels",
    default: "3",
    high: 8,
    help: "There are N priority levels, 1 to 8",
};

const LAST: NumberOption = NumberOption {
    name: "last",
    default: "1048576",
    high: 4_294_967_294,
    help: "Arenas, stamps and controls go up to N, 1 to 4294967294",
};

const WORKERS: NumberOption = NumberOption {
    name: "workers",
    default: "4",
    high: 16,
    help: "N workers run the jobs, 1 to 16",
};

const WIDTH: NumberOption = NumberOption {
    name: "width",
    default: "112",
    high: 1_792,
    help: "Draws at most N columns, 1 to 1792, and 1792 of all arenas",
};

const FROM: NumberOption = NumberOption {
    name: "from",
    default: "1",
    high: 4_294_967_295,
    help: "Draws no entry before entry N, 1 to 4294967295",
};

const TO: NumberOption = NumberOption {
    name: "to",
    default: "4294967295",
    high: 4_294_967_295,
    help: "Draws no entry after entry N, 1 to 4294967295",
};

impl NumberOption {
    /// The option as clap's.
    fn arg<'a>(self, alloc: Global) -> Arg<'a>
        requires { 1 ≤ self.high }
        ensures rule { rule_of result ≡ number_rule self.name.now self.default.now self.high }
        ensures global { result.global ≡ false }
    {
        Arg::new(alloc, self.name)
            .long(self.name)
            .value_name("N")
            .action(ArgAction::Set)
            .default_value(self.default)
            .value_parser(clap::value_parser!(u32).range(1..=i64::from(self.high)))
            .help(self.help)
    }

    /// The option's number in matches that clap has passed.
    fn number(self, matches: &ArgMatches<'_>) -> u32
        requires { HasNumber self.name.now self.high (rows_of (found_of matches.now)) }
        ensures { IsNumberOf self.name.now self.high (rows_of (found_of matches.now)) result }
    {
        let Some(word) = matches.get_str(self.name) else {
            unreachable!()
        };
        let Ok(number) = word.parse::<u32>() else {
            unreachable!()
        };
        number
    }
}

/// A command with one more option with a number, where there was memory to make the command.
fn with_number<'a>(
    command: Result<Command<'a>, AllocError>,
    alloc: Global,
    option: NumberOption,
) -> Result<Command<'a>, AllocError>
    requires { 1 ≤ option.high }
    ensures { (app : App) → IfOk command.entry (λ c. IsCommandOf c app) → IfOk result (λ c.
        IsCommandOf c (with_rule app (number_rule option.name.now option.default.now option.high))) }
{
    command?.arg(option.arg(alloc))
}

/// A subcommand that reads a script.
fn script_command<'a>(
    alloc: Global,
    name: &'static str,
    about: &'static str,
    help: &'static str,
) -> Result<Command<'a>, AllocError>
    ensures { IfOk result (λ c. IsCommandOf c (script_app name.now)) }
{
    let command = Ok(Command::new(alloc, name).about(about).after_help(help));
    let command = with_number(command, alloc, BASE);
    let command = with_number(command, alloc, HARD);
    let command = with_number(command, alloc, SEATS);
    let command = with_number(command, alloc, LEVELS);
    with_number(command, alloc, LAST)
}

/// An option without a value as clap's.
fn flag_arg<'a>(alloc: Global, name: &'static str, help: &'static str) -> Arg<'a>
    ensures rule { rule_of result ≡ flag_rule name.now }
    ensures global { result.global ≡ false }
{
    Arg::new(alloc, name)
        .long(name)
        .action(ArgAction::SetTrue)
        .help(help)
}

/// A command with one more option without a value, where there was memory to make the command.
fn with_flag<'a>(
    command: Result<Command<'a>, AllocError>,
    alloc: Global,
    name: &'static str,
    help: &'static str,
) -> Result<Command<'a>, AllocError>
    ensures { (app : App) → IfOk command.entry (λ c. IsCommandOf c app) → IfOk result (λ c.
        IsCommandOf c (with_rule app (flag_rule name.now))) }
{
    command?.arg(flag_arg(alloc, name, help))
}

/// A command that also takes `--progress`, where there was memory to make the command. `told` is what that tells.
fn with_progress<'a>(
    command: Result<Command<'a>, AllocError>,
    alloc: Global,
    told: &'static str,
) -> Result<Command<'a>, AllocError>
    ensures { (app : App) → IfOk command.entry (λ c. IsCommandOf c app) → IfOk result (λ c.
        IsCommandOf c (with_rule app (flag_rule (codes "progress")))) }
{
    with_flag(command, alloc, "progress", told)
}

/// The subcommand `run`.
fn run_command<'a>(alloc: Global) -> Result<Command<'a>, AllocError>
    ensures { IfOk result (λ c. IsCommandOf c run_app) }
{
    let command = script_command(
        alloc,
        "run",
        "Answers a script of commands, line by line",
        help::OF_RUN,
    );
    let command = with_flag(
        command,
        alloc,
        "journal",
        "Writes the journal of the script's commands in place of the replies",
    );
    with_progress(command, alloc, help::PROGRESS_OF_LINES)
}

/// The subcommand `explain`.
fn explain_command<'a>(alloc: Global) -> Result<Command<'a>, AllocError>
    ensures { IfOk result (λ c. IsCommandOf c explain_app) }
{
    let command = script_command(
        alloc,
        "explain",
        "Explains how workers are divided after a script of commands",
        help::OF_EXPLAIN,
    );
    with_progress(command, alloc, help::PROGRESS_OF_LINES)
}

/// The subcommand `replay`.
fn replay_command<'a>(alloc: Global) -> Result<Command<'a>, AllocError>
    ensures { IfOk result (λ c. IsCommandOf c replay_app) }
{
    let command = Command::new(alloc, "replay")
        .about("Replays a journal, and tells whether it is legal")
        .after_help(help::OF_REPLAY);
    with_progress(Ok(command), alloc, help::PROGRESS_OF_LINES)
}

/// The subcommand `drive`.
fn drive_command<'a>(alloc: Global) -> Result<Command<'a>, AllocError>
    ensures { IfOk result (λ c. IsCommandOf c drive_app) }
{
    let command = Command::new(alloc, "drive")
        .about("Runs a plan of jobs by workers that the market moves, and writes their values")
        .after_help(help::OF_DRIVE);
    let command = with_number(Ok(command), alloc, WORKERS);
    with_progress(command, alloc, help::PROGRESS_OF_JOBS)
}

/// The option that names an arena, as clap's. It may come again.
fn arena_arg<'a>(alloc: Global) -> Arg<'a>
    ensures rule { rule_of result ≡ arena_rule }
    ensures global { result.global ≡ false }
{
    Arg::new(alloc, "arena")
        .long("arena")
        .value_name("N")
        .action(ArgAction::Append)
        .value_parser(clap::value_parser!(u32).range(1..=4_294_967_294))
        .help(help::ARENA)
}

/// A command that also takes arenas, where there was memory to make the command.
fn with_arenas<'a>(
    command: Result<Command<'a>, AllocError>,
    alloc: Global,
) -> Result<Command<'a>, AllocError>
    ensures { (app : App) → IfOk command.entry (λ c. IsCommandOf c app) → IfOk result (λ c. IsCommandOf c (with_rule app arena_rule)) }
{
    command?.arg(arena_arg(alloc))
}

/// The subcommand `chart`.
fn chart_command<'a>(alloc: Global) -> Result<Command<'a>, AllocError>
    ensures { IfOk result (λ c. IsCommandOf c chart_app) }
{
    let command = Command::new(alloc, "chart")
        .about("Draws what a journal's arenas asked for, were allotted and had, as an SVG")
        .after_help(help::OF_CHART);
    let command = with_number(Ok(command), alloc, WIDTH);
    let command = with_number(command, alloc, FROM);
    let command = with_number(command, alloc, TO);
    let command = with_arenas(command, alloc);
    with_progress(command, alloc, help::PROGRESS_OF_LINES)
}

/// A command with one more subcommand, where there was memory to make it.
fn with_made<'a>(
    command: Command<'a>,
    subcommand: Result<Command<'a>, AllocError>,
) -> Result<Command<'a>, AllocError>
    ensures { (app below : App) → IsCommandOf command.entry app → IfOk subcommand.entry (λ c. IsCommandOf c below)
        → IfOk result (λ c. IsCommandOf c (with_subcommand app below.top)) }
{
    command.subcommand(subcommand?)
}

/// The program's command without its subcommands.
fn bare_command<'a>(alloc: Global) -> Command<'a>
    ensures { IsCommandOf result (with_choice_asked (new_app (codes "market"))) }
{
    Command::new(alloc, "market")
        .about(
            "The worker market of a task runtime: who gets how many workers, by priority and demand",
        )
        .version(VERSION)
        .after_help(help::OF_MARKET)
        .arg_required_else_help(true)
        .subcommand_required(true)
}

/// The program's command.
fn market_command<'a>(alloc: Global) -> Result<Command<'a>, AllocError>
    ensures { IfOk result (λ c. app_of c ≡ market_app) }
{
    let command = with_made(bare_command(alloc), run_command(alloc))?;
    let command = with_made(command, explain_command(alloc))?;
    let command = with_made(command, replay_command(alloc))?;
    let command = with_made(command, drive_command(alloc))?;
    with_made(command, chart_command(alloc))
}

/// The market's options in matches that clap has passed.
fn market_options(matches: &ArgMatches<'_>) -> Opening
    requires { HasMarketNumbers (rows_of (found_of matches.now)) }
    ensures { IsMarketOf (rows_of (found_of matches.now)) result }
{
    let Some(last) = LastNumber::new(LAST.number(matches)) else {
        unreachable!()
    };
    Opening {
        base: BASE.number(matches),
        hard: HARD.number(matches),
        seats: SEATS.number(matches) as u8,
        levels: LEVELS.number(matches),
        last,
    }
}

/// The option without a value is among matches that clap has passed.
fn asks(matches: &ArgMatches<'_>, name: &str) -> bool
    ensures { result ≡ asks name.now (rows_of (found_of matches.now)) }
{
    let Some(word) = matches.get_str(name) else {
        return false;
    };
    word == "true"
}

/// `--progress` is among matches that clap has passed.
fn asks_progress(matches: &ArgMatches<'_>) -> bool
    ensures { result ≡ asks (codes "progress") (rows_of (found_of matches.now)) }
{
    asks(matches, "progress")
}

/// The options of a script in matches that clap has passed.
fn script_options(matches: &ArgMatches<'_>) -> ScriptOptions
    requires { HasMarketNumbers (rows_of (found_of matches.now)) }
    ensures { IsScriptOf (rows_of (found_of matches.now)) result }
{
    ScriptOptions {
        market: market_options(matches),
        progress: asks_progress(matches),
    }
}

/// The options of `replay` in matches that clap has passed.
fn replay_options(matches: &ArgMatches<'_>) -> ReplayOptions
    ensures { IsReplayOf (rows_of (found_of matches.now)) result }
{
    ReplayOptions {
        progress: asks_progress(matches),
    }
}

/// The options of `drive` in matches that clap has passed.
fn drive_options(matches: &ArgMatches<'_>) -> DriveOptions
    requires { HasNumber (codes "workers") 16 (rows_of (found_of matches.now)) }
    ensures { IsDriveOf (rows_of (found_of matches.now)) result }
{
    DriveOptions {
        workers: WORKERS.number(matches),
        progress: asks_progress(matches),
    }
}

/// The arena that a word names.
fn read_arena(word: &str) -> Option<ArenaId>
    ensures { Spells word.now result }
{
    let Ok(number) = word.parse::<u32>() else {
        return None;
    };
    Some(ArenaId::new(number))
}

/// The arenas that words name, in order.
fn read_arenas(alloc: Global, words: &[&str]) -> Result<Vec<ArenaId>, AllocError>
    ensures { IfOk result (λ arenas. AreSpelled (map (λ s. s.now) words.now) arenas.items) }
{
    let mut arenas = Vec::new(alloc);
    for word in words {
        if let Some(arena) = read_arena(word) {
            arenas.push(arena)?;
        }
    }
    Ok(arenas)
}

/// The arenas that are opened first.
fn first_arenas(alloc: Global) -> Result<Vec<ArenaId>, AllocError>
    ensures { IfOk result (λ arenas. AreFirstArenas arenas.items) }
{
    let mut arenas = Vec::new(alloc);
    for index in 0..MOST_ARENAS {
        arenas.push(ArenaId::new(index as u32 + 1))?;
    }
    Ok(arenas)
}

/// The arenas that matches name which clap has passed, the first 16 of them; where they name none, the 16 that are opened first.
fn arenas_in(alloc: Global, matches: &ArgMatches<'_>) -> Result<Vec<ArenaId>, AllocError>
    ensures exact { IfOk result (λ arenas. AreArenasOf (all_of (codes "arena") (rows_of (found_of matches.now))) arenas.items) }
    ensures few { IfOk result (λ arenas. length arenas.items ≤ 16) }
{
    match matches.get_strs("arena") {
        Some(words) => read_arenas(alloc, &words[..words.len().min(MOST_ARENAS)]),
        None => first_arenas(alloc),
    }
}

/// The options of `chart` in matches that clap has passed.
fn chart_options(alloc: Global, matches: &ArgMatches<'_>) -> Result<ChartOptions, AllocError>
    requires { HasChartNumbers (rows_of (found_of matches.now)) }
    ensures { IfOk result (λ options. IsDrawingOf (rows_of (found_of matches.now)) options) }
{
    let arenas = arenas_in(alloc, matches)?;
    Ok(ChartOptions {
        width: WIDTH.number(matches),
        from: FROM.number(matches),
        to: TO.number(matches),
        arenas,
        progress: asks_progress(matches),
    })
}

/// The choice of a subcommand that clap has passed.
fn choice_of(alloc: Global, name: &str, matches: &ArgMatches<'_>) -> Result<Choice, AllocError>
    requires { NamesSubcommand (name.now, rows_of (found_of matches.now)) }
    ensures { IfOk result (λ choice. IsChoiceOf (name.now, rows_of (found_of matches.now)) choice) }
{
    if name == "replay" {
        return Ok(Choice::Replay(replay_options(matches)));
    }
    if name == "drive" {
        return Ok(Choice::Drive(drive_options(matches)));
    }
    if name == "chart" {
        return Ok(Choice::Chart(chart_options(alloc, matches)?));
    }
    let options = script_options(matches);
    let task = match name {
        "run" if asks(matches, "journal") => ScriptTask::Journal,
        "run" => ScriptTask::Answer,
        "explain" => ScriptTask::Explain,
        _ => unreachable!(),
    };
    Ok(Choice::Script(task, options))
}

/// What the words of a command line choose. The first word is the program's name.
///
/// An error is clap's: help that was asked for, the first mistake in the words, or running out of memory. Its `print` writes
/// the text, and its `exit_code` is 0 for help and else 2.
pub fn read_words<'a>(alloc: Global, words: &'a [&'a str]) -> Result<Choice, Error>
    ensures choice { IfOk result (Chooses (map (λ s. s.now) words.entry.now)) }
    ensures fault { FailsBy (fault_of market_app (map (λ s. s.now) words.entry.now)) result }
{
    let matches = market_command(alloc)?.try_get_matches_from(words)?;
    let Some((name, found)) = matches.subcommand() else {
        unreachable!()
    };
    let choice = choice_of(alloc, name, found)?;
    Ok(choice)
}
