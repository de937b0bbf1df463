//! Why a text is not written whole.

use crate::device::WriteFault;
use std::alloc::AllocError;
use thiserror::Error;

/// Why a text was not written whole. What was written is then a prefix of it.
#[derive(Clone, Copy, Debug, Error, PartialEq, Eq)]
pub enum OutFault {
    /// A write failed, or took 0 of some bytes.
    #[error("write fault")]
    Write,
    /// Out of memory.
    #[error("memory")]
    Memory,
}

impl From<AllocError> for OutFault {
    ghost use Rattle.std.specs.Prelude.{◌≡◌};
    ghost use Rattle.byte_devices.specs.declared.out_fault.OutFault.TheVariants.{Memory};

    ghost from_gives = { λ _ fault. fault ≡ Memory };

    fn from(_error: AllocError) -> OutFault {
        OutFault::Memory
    }
}

impl From<WriteFault> for OutFault {
    ghost use Rattle.std.specs.Prelude.{◌≡◌};
    ghost use Rattle.byte_devices.specs.declared.out_fault.OutFault.TheVariants.{Write};

    ghost from_gives = { λ _ fault. fault ≡ Write };

    fn from(_fault: WriteFault) -> OutFault {
        OutFault::Write
    }
}
