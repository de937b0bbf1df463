//! Why the demo stops.
ghost use Rattle.std.specs.Prelude.{◌≡◌};

use byte_devices::OutFault;
use market_types::OpenFault;
use std::alloc::AllocError;
use std::io;
use thiserror::Error;

/// Why there is no journal, or no more of it. Its text is what the program tells on standard error.
#[derive(Debug, Drop, Error)]
pub enum DemoFault {
    /// There was no memory.
    #[error("memory")]
    Memory,
    /// What the journal is written to took no more.
    #[error("write fault")]
    Write,
    /// The office was not opened.
    #[error("no office")]
    Closed,
    /// The office gave no part of its history, or one that does not go on where the last one ended.
    #[error("a part is missing")]
    Missed,
    /// The command line or standard error failed.
    #[error("{0}")]
    System(io::Error),
}

impl From<AllocError> for DemoFault {
    fn from(_error: AllocError) -> DemoFault
        ensures { result ≡ DemoFault.Memory }
    {
        DemoFault::Memory
    }
}

impl From<OpenFault> for DemoFault {
    fn from(fault: OpenFault) -> DemoFault
        ensures memory { fault ≡ OpenFault.Memory → result ≡ DemoFault.Memory }
        ensures closed { (fault ≡ OpenFault.Memory → ⊥) → result ≡ DemoFault.Closed }
    {
        match fault {
            OpenFault::Memory => DemoFault::Memory,
            _ => DemoFault::Closed,
        }
    }
}

impl From<OutFault> for DemoFault {
    fn from(fault: OutFault) -> DemoFault
        ensures memory { fault ≡ OutFault.Memory → result ≡ DemoFault.Memory }
        ensures write { fault ≡ OutFault.Write → result ≡ DemoFault.Write }
    {
        match fault {
            OutFault::Memory => DemoFault::Memory,
            OutFault::Write => DemoFault::Write,
        }
    }
}

impl From<io::Error> for DemoFault {
    fn from(error: io::Error) -> DemoFault {
        if error.kind() == io::ErrorKind::OutOfMemory {
            DemoFault::Memory
        } else {
            DemoFault::System(error)
        }
    }
}
