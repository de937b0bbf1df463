//! The words of the command line of the program `market`: its subcommands and their options, as clap reads them, and what they choose. It
//! stands apart from what the program then does (`market_prog`), so that it is proved beside the market.
#![tactic(auto)]

mod help;
mod options;
mod words;

pub use options::USUAL_MARKET;
pub use words::{
    ChartOptions, Choice, DriveOptions, ReplayOptions, ScriptOptions, ScriptTask, read_words,
};
