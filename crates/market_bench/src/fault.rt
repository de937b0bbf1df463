//! Why a measurement stops.
use std::alloc::AllocError;
use std::io;
use thiserror::Error;

/// Why there is no table, or no more of it. Its text is what the program tells on standard error.
#[derive(Debug, Drop, Error)]
pub enum BenchFault {
    /// There was no memory.
    #[error("memory")]
    Memory,
    /// The market refused a command, so its time would say nothing.
    #[error("a command was refused")]
    Refused,
    /// The clock, standard output or the command line failed.
    #[error("{0}")]
    System(io::Error),
}

/// Why a turn of commands stops. It is small, so that a turn costs what its commands cost.
#[derive(Clone, Copy)]
pub enum TurnFault {
    /// There was no memory.
    Memory,
    /// The market refused a command.
    Refused,
}

impl From<AllocError> for TurnFault {
    ghost use Rattle.std.specs.Prelude.{◌≡◌};
    ghost use Rattle.market_bench.specs.declared.fault.TurnFault.TheVariants.{Memory};

    ghost from_gives = { λ _ fault. fault ≡ Memory };

    fn from(_error: AllocError) -> TurnFault {
        TurnFault::Memory
    }
}

impl From<TurnFault> for BenchFault {
    ghost use Rattle.std.specs.Prelude.{◌≡◌};
    ghost use Rattle.market_bench.specs.Faults.{told_as};

    ghost from_gives = { λ turn fault. fault ≡ told_as turn };

    fn from(turn: TurnFault) -> BenchFault {
        match turn {
            TurnFault::Memory => BenchFault::Memory,
            TurnFault::Refused => BenchFault::Refused,
        }
    }
}

impl From<io::Error> for BenchFault {
    ghost use Rattle.std.specs.Prelude.{◌≢◌};
    ghost use Rattle.market_bench.specs.declared.fault.BenchFault.TheVariants.{Refused};

    ghost from_gives = { λ _ fault. fault ≢ Refused };

    fn from(error: io::Error) -> BenchFault {
        match error.kind() {
            io::ErrorKind::OutOfMemory => BenchFault::Memory,
            _ => BenchFault::System(error),
        }
    }
}
