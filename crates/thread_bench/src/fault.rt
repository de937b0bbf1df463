//! Why a measurement stops.
use market_drive::DriveFault;
use market_types::OpenFault;
use std::alloc::AllocError;
use std::io;
use thiserror::Error;

/// Why there is no table, or no more of it. Its text is what the program tells on standard error.
#[derive(Debug, Drop, Error)]
pub enum BenchFault {
    /// There was no memory.
    #[error("memory")]
    Memory,
    /// A call was not answered or a job not done, so its time would say nothing.
    #[error("a call was not answered, or a job not done")]
    Undone,
    /// The clock, standard output or the command line failed.
    #[error("{0}")]
    System(io::Error),
}

impl From<AllocError> for BenchFault {
    fn from(_error: AllocError) -> BenchFault {
        BenchFault::Memory
    }
}

impl From<OpenFault> for BenchFault {
    fn from(_fault: OpenFault) -> BenchFault {
        BenchFault::Memory
    }
}

impl From<DriveFault> for BenchFault {
    fn from(fault: DriveFault) -> BenchFault {
        match fault {
            DriveFault::Memory => BenchFault::Memory,
            _ => BenchFault::Undone,
        }
    }
}

impl From<io::Error> for BenchFault {
    fn from(error: io::Error) -> BenchFault {
        if error.kind() == io::ErrorKind::OutOfMemory {
            BenchFault::Memory
        } else {
            BenchFault::System(error)
        }
    }
}
