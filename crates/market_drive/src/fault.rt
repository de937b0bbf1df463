//! Why a plan has no outcome.
use market_types::ArenaId;

/// Why a plan has no outcome.
#[derive(Clone, Copy, Debug, PartialEq, Eq)]
pub enum DriveFault {
    /// G01: the text is no plan, as of this line.
    BadPlan(u64),
    /// G02: the least arena that has jobs, and would be allotted no worker if it alone asked for some.
    Unservable(ArenaId),
    /// G03: a worker ended on a gate that stayed shut, in an arena without a station, or where the history was full.
    Unfinished,
    /// G04: the least number that more than one answer has, or one that is not that of a job of the plan. It comes of
    /// `gather_done` alone: no drive answers a job twice.
    Doubled(u32),
    /// G05: the least number of a job that no answer has.
    Missing(u32),
    /// G06: there was no memory.
    Memory,
}
