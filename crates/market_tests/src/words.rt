//! Command lines, and what is said of them.
use crate::asserts::same;
use market_types::{ArenaId, LastNumber, Opening};
use market_words::{
    ChartOptions, Choice, DriveOptions, ReplayOptions, ScriptOptions, ScriptTask, USUAL_MARKET,
    read_words,
};
use std::alloc::Global;
use std::process::Abort;
use std::rt::HostRuntime;

/// The words are read as that choice.
fn choose(rt: &impl Abort, alloc: Global, words: &[&str], due: Choice) {
    let Ok(choice) = read_words(alloc, words) else {
        panic!(rt; "refused");
    };
    same(rt, choice, due);
}

/// That task, of a script that speaks to this market.
fn script(task: ScriptTask, market: Opening) -> Choice {
    let progress = false;
    Choice::Script(task, ScriptOptions { market, progress })
}

#[test]
fn options_are_read_or_default(rt: HostRuntime) {
    let due = script(ScriptTask::Answer, USUAL_MARKET);
    choose(&rt, rt.alloc(), &["market", "run"], due);
    let due = script(ScriptTask::Journal, USUAL_MARKET);
    choose(&rt, rt.alloc(), &["market", "run", "--journal"], due);
    let due = script(ScriptTask::Explain, USUAL_MARKET);
    choose(&rt, rt.alloc(), &["market", "explain"], due);
    let due = Choice::Replay(ReplayOptions { progress: false });
    choose(&rt, rt.alloc(), &["market", "replay"], due);
}

/// That task, of a script that speaks to the usual market and of which progress is reported.
fn told(task: ScriptTask) -> Choice {
    let market = USUAL_MARKET;
    let progress = true;
    Choice::Script(task, ScriptOptions { market, progress })
}

#[test]
fn progress_is_asked_for(rt: HostRuntime) {
    for (words, task) in [
        (
            ["market", "run", "--progress"].as_slice(),
            ScriptTask::Answer,
        ),
        (
            ["market", "run", "--progress", "--journal"].as_slice(),
            ScriptTask::Journal,
        ),
        (
            ["market", "explain", "--progress"].as_slice(),
            ScriptTask::Explain,
        ),
    ] {
        choose(&rt, rt.alloc(), words, told(task));
    }
    let due = Choice::Replay(ReplayOptions { progress: true });
    choose(&rt, rt.alloc(), &["market", "replay", "--progress"], due);
}

#[test]
fn an_option_is_read_beside_the_usual_ones(rt: HostRuntime) {
    let words = ["market", "explain", "--base", "3"];
    let three = Opening {
        base: 3,
        ..USUAL_MARKET
    };
    choose(&rt, rt.alloc(), &words, script(ScriptTask::Explain, three));
}

/// A market whose arenas are numbered to there.
fn with_last(rt: &impl Abort, last: u32) -> Opening {
    let Some(last) = LastNumber::new(last) else {
        panic!(rt; "no last number");
    };
    Opening {
        last,
        ..USUAL_MARKET
    }
}

#[test]
fn the_greatest_numbers_are_read(rt: HostRuntime) {
    let words = [
        "market",
        "run",
        "--base",
        "65536",
        "--hard=65535",
        "--seats",
        "64",
        "--levels=8",
        "--last=4294967294",
    ];
    let most = Opening {
        base: 65_536,
        hard: 65_535,
        seats: 64,
        levels: 8,
        ..with_last(&rt, 4_294_967_294)
    };
    let due = script(ScriptTask::Answer, most);
    choose(&rt, rt.alloc(), &words, due);
    let words = ["market", "explain", "--last", "3"];
    let due = script(ScriptTask::Explain, with_last(&rt, 3));
    choose(&rt, rt.alloc(), &words, due);
}

#[test]
fn options_of_drive_are_read_or_default(rt: HostRuntime) {
    for (words, workers, progress) in [
        (["market", "drive"].as_slice(), 4, false),
        (["market", "drive", "--workers=1"].as_slice(), 1, false),
        (["market", "drive", "--progress"].as_slice(), 4, true),
        (
            ["market", "drive", "--progress", "--workers", "16"].as_slice(),
            16,
            true,
        ),
    ] {
        let due = Choice::Drive(DriveOptions { workers, progress });
        choose(&rt, rt.alloc(), words, due);
    }
}

/// A chart of these arenas.
fn chart(rt: &impl Abort, alloc: Global, width: u32, from: u32, arenas: &[ArenaId]) -> Choice {
    let Ok(arenas) = Vec::from_slice(alloc, arenas) else {
        panic!(rt; "no memory");
    };
    Choice::Chart(ChartOptions {
        width,
        from,
        to: 4_294_967_295,
        arenas,
        progress: false,
    })
}

#[test]
fn options_of_chart_are_read_or_default(rt: HostRuntime) {
    let mut first = [ArenaId::new(1); 16];
    for index in 0..16 {
        first[index] = ArenaId::new(index as u32 + 1);
    }
    let due = chart(&rt, rt.alloc(), 112, 1, &first);
    choose(&rt, rt.alloc(), &["market", "chart"], due);
    let words = [
        "market",
        "chart",
        "--arena",
        "7",
        "--width=3",
        "--arena=4294967294",
        "--from",
        "2",
    ];
    let named = [ArenaId::new(7), ArenaId::new(4_294_967_294)];
    let due = chart(&rt, rt.alloc(), 3, 2, &named);
    choose(&rt, rt.alloc(), &words, due);
}

/// The words end the program with that status, and this is said of them.
fn end(rt: &impl Abort, alloc: Global, words: &[&str], status: i32, text: &str) {
    let Err(error) = read_words(alloc, words) else {
        panic!(rt; "taken");
    };
    same(rt, error.exit_code(), status);
    let Ok(said) = format!(in alloc; "{error}") else {
        panic!(rt; "no memory");
    };
    assert!(rt; said.as_str().contains(text), "{said}");
}

#[test]
fn help_is_no_mistake(rt: HostRuntime) {
    let of_run = "the next line is waited for";
    let of_explain = "standard output gets the explanation of the market";
    let of_replay = "that it is legal, or its first fault";
    let of_drive = "the same for\nevery number of workers";
    for (words, text) in [
        (["market", "--help"].as_slice(), "Exit status:"),
        (["market", "--version"].as_slice(), "market 0.1.0"),
        (["market", "run", "--help"].as_slice(), of_run),
        (["market", "explain", "--help"].as_slice(), of_explain),
        (["market", "replay", "--help"].as_slice(), of_replay),
        (["market", "drive", "--help"].as_slice(), of_drive),
    ] {
        end(&rt, rt.alloc(), words, 0, text);
    }
}

#[test]
fn mistakes_are_told(rt: HostRuntime) {
    for (words, text) in [
        (["market"].as_slice(), "Usage: market <COMMAND>"),
        (
            ["market", "fly"].as_slice(),
            "error: unrecognized subcommand 'fly'",
        ),
        (
            ["market", "replay", "--base=8"].as_slice(),
            "error: unexpected argument '--base' found",
        ),
    ] {
        end(&rt, rt.alloc(), words, 2, text);
    }
}

#[test]
fn numbers_out_of_range_are_told(rt: HostRuntime) {
    for (subcommand, option, text) in [
        ("run", "--seats=65", "65 is not in 1..=64"),
        ("run", "--last=0", "0 is not in 1..=4294967294"),
        (
            "explain",
            "--last=4294967295",
            "4294967295 is not in 1..=4294967294",
        ),
        ("explain", "--hard=0", "0 is not in 1..=65535"),
        ("drive", "--workers=0", "0 is not in 1..=16"),
        ("drive", "--workers=17", "17 is not in 1..=16"),
    ] {
        end(&rt, rt.alloc(), &["market", subcommand, option], 2, text);
    }
}
