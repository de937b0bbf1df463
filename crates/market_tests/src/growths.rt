//! Growths of memory that are refused: a call's own fault, everything as before, and what was due when it is asked for
//! again. The script `check/growths` refuses each growth of these tests in turn, until a run meets none.
mod chronicles;
mod engines;
mod granted;
mod markets;
mod offices;
mod plans;
mod rows;
mod texts;
mod words;
