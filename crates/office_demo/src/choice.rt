//! The words of the command line.
ghost use Rattle.std.specs.Prelude.{◌≡◌, IfOk, map};
ghost use Rattle.office_demo.specs.Choices.{IsPossible, choice_of, choice_of_callers, choice_of_seconds, choice_of_time, choice_of_work, forever_of, work_of};

use demo_callers::{DemoFault, Record};
use std::rt::Env;
use std::{env, io};

/// What `--help` prints.
pub const USAGE: &str = "\
Usage: office_demo [CALLERS [CALLS]]
       office_demo --forever SECONDS [CALLERS] [--journal]

Lets CALLERS threads, 1 to 64, share one market through an office, each of which calls at random
CALLS times, and writes the journal of what happened to standard output and how much it was to
standard error. Without words it is 4 callers and 250 calls each. One caller does the same each time.

With --forever they call for SECONDS seconds, and standard error says how many calls that were, and
how much memory the process had at a quarter of the time and at its end. Without CALLERS it is 4. The
office keeps no journal. With --journal one caller more, of at most 64 with it, writes it to standard
output, part by part, while the others call.

Examples:
  $ office_demo 4 1000 | market replay
  $ office_demo --forever 3600
  $ office_demo --forever 60 4 --journal | market replay

Exit status:
  0  done, or help was asked for
  1  a caller did not find its own calls in the journal, in its order
  2  a bad command line
  3  a memory or write fault";

/// How many callers and calls, where nothing is said.
const USUAL: Choice = Choice::Work {
    callers: 4,
    calls: 250,
};

/// What the words choose.
#[derive(Clone, Copy)]
pub enum Choice {
    /// So many callers call so many times each.
    Work {
        callers: u8,
        calls: u32,
    },
    /// So many callers call for so many seconds.
    Forever {
        callers: u8,
        seconds: u32,
        recorded: Record,
    },
    /// The help.
    Help,
    /// The words are none that the program knows.
    Unknown,
}

impl Choice {
    /// Reads the words of the command line. Words that are not UTF-8 are none that the program knows.
    pub fn read<R: Env + AllocGlobal>(rt: &R) -> Result<Choice, DemoFault>
        ensures possible { IfOk result IsPossible }
    {
        let words = match env::args(rt) {
            Ok(args) => args.skip(1).collect::<Vec<String>>(rt.alloc())?,
            Err(error) if error.kind() == io::ErrorKind::InvalidData => return Ok(Choice::Unknown),
            Err(error) => return Err(DemoFault::from(error)),
        };
        let words: Vec<&str> = words.iter().map(String::as_str).collect(rt.alloc())?;
        Ok(Choice::of_words(&words))
    }

    /// What the words behind the program's name choose.
    fn of_words(words: &[&str]) -> Choice
        ensures choice { result ≡ choice_of (map (λ s. s.now) words.entry.now) }
        ensures possible { IsPossible result }
    {
        match words.split_first() {
            None => USUAL,
            Some((word, words)) if *word == "--forever" => Choice::of_time(words),
            Some((word, words)) => Choice::of_work(word, words),
        }
    }

    /// What a first word that is not `--forever` chooses, with the words behind it.
    fn of_work(word: &str, words: &[&str]) -> Choice
        ensures choice { result ≡ choice_of_work word.now (map (λ s. s.now) words.entry.now) }
        ensures possible { IsPossible result }
    {
        match words.split_first() {
            None if word == "--help" || word == "-h" => Choice::Help,
            None => Choice::of_numbers(word, "250"),
            Some((calls, words)) if words.is_empty() => Choice::of_numbers(word, calls),
            Some(_) => Choice::Unknown,
        }
    }

    /// What the words behind `--forever` choose.
    fn of_time(words: &[&str]) -> Choice
        ensures choice { result ≡ choice_of_time (map (λ s. s.now) words.entry.now) }
        ensures possible { IsPossible result }
    {
        match words.split_first() {
            None => Choice::Unknown,
            Some((seconds, words)) => Choice::of_seconds(seconds, words),
        }
    }

    /// What a time chooses, with the words behind it.
    fn of_seconds(seconds: &str, words: &[&str]) -> Choice
        ensures choice { result ≡ choice_of_seconds seconds.now (map (λ s. s.now) words.entry.now) }
        ensures possible { IsPossible result }
    {
        match words.split_first() {
            None => Choice::of_forever(seconds, "4", Record::Nothing),
            Some((word, words)) if *word == "--journal" && words.is_empty() => {
                Choice::of_forever(seconds, "4", Record::Journal)
            }
            Some((callers, words)) => Choice::of_callers(seconds, callers, words),
        }
    }

    /// What a time and a number of callers choose, with the words behind them.
    fn of_callers(seconds: &str, callers: &str, words: &[&str]) -> Choice
        ensures choice { result ≡ choice_of_callers seconds.now callers.now (map (λ s. s.now) words.entry.now) }
        ensures possible { IsPossible result }
    {
        match words.split_first() {
            None => Choice::of_forever(seconds, callers, Record::Nothing),
            Some((word, words)) if *word == "--journal" && words.is_empty() => {
                Choice::of_forever(seconds, callers, Record::Journal)
            }
            Some(_) => Choice::Unknown,
        }
    }

    /// What the numbers of callers and of calls choose.
    fn of_numbers(callers: &str, calls: &str) -> Choice
        ensures choice { result ≡ work_of callers.now calls.now }
        ensures possible { IsPossible result }
    {
        let (Ok(callers), Ok(calls)) = (callers.parse::<u8>(), calls.parse::<u32>()) else {
            return Choice::Unknown;
        };
        if callers == 0 || callers > 64 {
            return Choice::Unknown;
        }
        Choice::Work { callers, calls }
    }

    /// What a time, a number of callers and a record choose.
    fn of_forever(seconds: &str, callers: &str, recorded: Record) -> Choice
        ensures choice { result ≡ forever_of seconds.now callers.now recorded }
        ensures possible { IsPossible result }
    {
        let (Ok(callers), Ok(seconds)) = (callers.parse::<u8>(), seconds.parse::<u32>()) else {
            return Choice::Unknown;
        };
        if callers == 0 || callers > recorded.most_callers() {
            return Choice::Unknown;
        }
        Choice::Forever {
            callers,
            seconds,
            recorded,
        }
    }
}
