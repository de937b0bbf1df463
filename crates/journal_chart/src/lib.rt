//! The numbers of a chart of a market's history: for each arena what it asked for, was allotted and had, and for the market its
//! limits, over the moments after each entry, in columns that keep the least and the most.
//!
//! [`Chart`] takes one moment after another, in memory that does not grow with them. What it keeps is `specs/Numbers`, said over the
//! market's states alone, and over a history of calls.
#![tactic(auto)]

mod by_number;
mod cell;
mod chart;
mod column;
mod covered;
mod entry;
mod figure;
mod halving;
mod journal;
mod law;
mod line;
mod lines;
mod nearby;
mod notes;
mod numbering;
mod page;
mod passing;
mod picture;
mod resting;
mod row;
mod shares;
mod sheet;
mod span;
mod spot;
mod stands;
mod unkept;
mod width;

pub use cell::Cell;
pub use chart::Chart;
pub use column::Column;
pub use journal::chart_source;
pub use law::a_call_is_a_moment;
pub use line::Line;
pub use lines::Lines;
pub use picture::write_picture;
pub use row::Row;
pub use span::Span;
