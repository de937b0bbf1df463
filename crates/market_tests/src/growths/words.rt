//! The words of a command line.
use crate::asserts::{holds, same};
use clap::error::ErrorKind;
use market_types::Opening;
use market_words::{Choice, ScriptOptions, ScriptTask, USUAL_MARKET, read_words};
use std::rt::HostRuntime;

#[test]
fn a_refused_growth_leaves_words_to_be_read(rt: HostRuntime) {
    let words = ["market", "run", "--seats", "9"];
    let choice = match read_words(rt.alloc(), &words) {
        Ok(choice) => choice,
        Err(error) => {
            same(&rt, error.kind(), ErrorKind::OutOfMemory);
            let Ok(choice) = read_words(rt.alloc(), &words) else {
                panic!(&rt; "no memory");
            };
            choice
        }
    };
    let nine_seats = ScriptOptions {
        market: Opening {
            seats: 9,
            ..USUAL_MARKET
        },
        progress: false,
    };
    same(&rt, choice, Choice::Script(ScriptTask::Answer, nine_seats));
}

#[test]
fn a_refused_growth_is_told_and_no_mistake(rt: HostRuntime) {
    let words = ["market", "fly"];
    let Err(error) = read_words(rt.alloc(), &words) else {
        panic!(&rt; "taken");
    };
    if error.kind() == ErrorKind::OutOfMemory {
        let Err(error) = read_words(rt.alloc(), &words) else {
            panic!(&rt; "taken");
        };
        same(&rt, error.kind(), ErrorKind::InvalidSubcommand);
        return;
    }
    same(&rt, error.kind(), ErrorKind::InvalidSubcommand);
}

/// As long as this fails, a growth was refused.
#[test]
fn what_words_ask_for_is_granted(rt: HostRuntime) {
    holds(
        &rt,
        read_words(rt.alloc(), &["market", "run", "--seats", "9"]).is_ok(),
    );
    let Err(error) = read_words(rt.alloc(), &["market", "fly"]) else {
        panic!(&rt; "taken");
    };
    same(&rt, error.kind(), ErrorKind::InvalidSubcommand);
}
