//! Why a call is not answered.
use thiserror::Error;

/// Why a call is not answered: it is then no entry, and nothing is changed.
#[derive(Clone, Copy, Debug, Error, PartialEq, Eq)]
pub enum CallFault {
    /// C1: out of memory, for the command or for its entry.
    #[error("C1 memory")]
    Memory,
    /// C2: the history has too few free places.
    #[error("C2 history full")]
    HistoryFull,
}
