//! The words of the command line.
use crate::loads::{Load, Size};
use anyhow::Result;
use std::env;
use std::rt::Env;

/// What a bad command line is answered.
pub const USAGE: &str = "\
Usage: load_bench LOAD SEED COUNT ROUNDS

Works a load, which is replay, foreign, journal, run, embed, drive, churn or all of them, and prints a
digest of what came out: the same for the same words.

  SEED    a number of 32 bits: each gives other inputs of the same kinds and sizes
  COUNT   how many calls, entries or jobs each input has
  ROUNDS  how many inputs there are of each kind

Exit status:
  0  done
  2  a bad command line
  3  no memory, or a fault of standard output";

/// What the words choose.
#[derive(Clone, Copy)]
pub enum Choice {
    /// One load.
    One(Load, Size),
    /// Each load.
    All(Size),
    /// The words are none that the program knows.
    Unknown,
}

/// The words behind the program's name.
fn words_of<R: Env + AllocGlobal>(rt: &R) -> Result<Vec<String>> {
    let words = env::args(rt)?.skip(1).collect(rt.alloc())?;
    Ok(words)
}

impl Choice {
    /// Reads the words of the command line.
    pub fn read<R: Env + AllocGlobal>(rt: &R) -> Result<Choice> {
        let words = words_of(rt)?;
        let words: Vec<&str> = words.iter().map(String::as_str).collect(rt.alloc())?;
        Ok(Choice::of_words(&words))
    }

    /// What the words behind the program's name choose.
    fn of_words(words: &[&str]) -> Choice {
        let [load, seed, count, rounds] = words else {
            return Choice::Unknown;
        };
        let (Ok(seed), Ok(count), Ok(rounds)) = (
            seed.parse::<u32>(),
            count.parse::<u32>(),
            rounds.parse::<u32>(),
        ) else {
            return Choice::Unknown;
        };
        Choice::of_load(
            load,
            Size {
                seed,
                count,
                rounds,
            },
        )
    }

    /// What the word of a load chooses.
    fn of_load(word: &str, size: Size) -> Choice {
        if word == "all" {
            return Choice::All(size);
        }
        for load in Load::ALL {
            if word == load.name() {
                return Choice::One(load, size);
            }
        }
        Choice::Unknown
    }
}
