//! Why an input was not taken to its end.

use byte_devices::WriteFault;
use std::alloc::AllocError;

/// Why an input was not taken to its end.
#[derive(Clone, Copy, Debug, PartialEq, Eq, Drop)]
pub enum InputFault<F> {
    /// A read failed.
    Read,
    /// The input has more bytes than its taker lets it have: 268,435,456 where it names no other limit.
    TooLong,
    /// A write failed, or took 0 of some bytes.
    Write,
    /// There was no memory for a piece of the input, or for an unfinished line.
    Memory,
    /// The taker of the lines stopped.
    Taker(F),
}

impl<F> From<AllocError> for InputFault<F> {
    ghost use Rattle.std.specs.Prelude.{◌≡◌};
    ghost use Rattle.line_engine.specs.declared.fault.InputFault.TheVariants.{Memory};

    ghost from_gives = { λ _ fault. fault ≡ Memory };

    fn from(_error: AllocError) -> InputFault<F> {
        InputFault::Memory
    }
}

impl<F> From<WriteFault> for InputFault<F> {
    ghost use Rattle.std.specs.Prelude.{◌≡◌};
    ghost use Rattle.line_engine.specs.declared.fault.InputFault.TheVariants.{Write};

    ghost from_gives = { λ _ fault. fault ≡ Write };

    fn from(_fault: WriteFault) -> InputFault<F> {
        InputFault::Write
    }
}
