//! How much memory the process has.
use std::fs;
use std::rt::Files;

/// Where the system tells of the process.
const STATUS: &str = "/proc/self/status";

/// What stands before the kilobytes of memory that the process has at the time.
const NAME: &str = "VmRSS:";

/// The kilobytes of memory that the process has, where the system tells them.
pub(crate) fn resident<H: Files + AllocGlobal>(system: &H) -> Option<u64> {
    let status = fs::read_to_string(system, STATUS).ok()?;
    kilobytes(status.as_str())
}

/// The kilobytes that a status tells.
fn kilobytes(status: &str) -> Option<u64> {
    let line = status.lines().find(|line| line.starts_with(NAME))?;
    let number = line.split_whitespace().nth(1)?;
    number.parse().ok()
}
