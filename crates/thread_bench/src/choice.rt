//! The words of the command line.
use crate::fault::BenchFault;
use crate::table::Content;
use std::rt::Env;
use std::{env, io};

/// What `--help` prints.
pub const USAGE: &str = "\
Usage: thread_bench [--dry]

Prints how many nanoseconds calls through an office take, by the number of threads that call and by the
number of living arenas; then a push and a pop of a queue of jobs, and the jobs of a plan, by the number of
threads. What is opened before and closed after counts in, and so does the history that an office keeps.

  --dry   print how many calls were answered and how many jobs were done in place of times: the same in
          every run

Exit status:
  0  done, or help was asked for
  2  a bad command line
  3  no memory, a call or a job that was not done, or a fault of the clock, the command line or standard output";

/// What the words choose.
#[derive(Clone, Copy)]
pub enum Choice {
    /// The table, with this in its cells.
    Table(Content),
    Help,
    /// The words are none that the program knows.
    Unknown,
}

impl Choice {
    /// Reads the words of the command line. Words that are not UTF-8 are none that the program knows.
    pub fn read<R: Env + Alloc>(rt: &R) -> Result<Choice, BenchFault> {
        match Choice::of_words(rt) {
            Ok(choice) => Ok(choice),
            Err(error) if error.kind() == io::ErrorKind::InvalidData => Ok(Choice::Unknown),
            Err(error) => Err(BenchFault::from(error)),
        }
    }

    /// What the words choose. An error is that of reading them.
    fn of_words<R: Env + Alloc>(rt: &R) -> io::Result<Choice> {
        let mut words = env::args(rt)?;
        let _program = words.next();
        let first = words.next();
        if words.next().is_some() {
            return Ok(Choice::Unknown);
        }
        Ok(match &first {
            Some(word) => Choice::of_word(word.as_str()),
            None => Choice::Table(Content::Times),
        })
    }

    /// What one word chooses.
    fn of_word(word: &str) -> Choice {
        match word {
            "--dry" => Choice::Table(Content::Counts),
            "--help" | "-h" => Choice::Help,
            _ => Choice::Unknown,
        }
    }
}
