//! Tests that cross crates: whole scripts answered by the engine over devices in memory, with values worked out by hand
//! from the market's rules, and the market's own calls at their limits; of plans that are driven, and of growths of memory that
//! are refused.
#![tactic(auto)]

#[cfg(test)]
mod asserts;
#[cfg(test)]
mod charts;
#[cfg(test)]
mod columns;
#[cfg(test)]
mod devices;
#[cfg(test)]
mod drives;
#[cfg(test)]
mod endless;
#[cfg(test)]
mod growths;
#[cfg(test)]
mod journals;
#[cfg(test)]
mod limits;
#[cfg(test)]
mod longest;
#[cfg(test)]
mod plans;
#[cfg(test)]
mod replays;
#[cfg(test)]
mod scripts;
#[cfg(test)]
mod seats;
#[cfg(test)]
mod texts;
#[cfg(test)]
mod uneven;
#[cfg(test)]
mod words;
#[cfg(test)]
mod work;
