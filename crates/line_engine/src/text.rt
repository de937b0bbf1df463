//! Taking a text that lies in memory.
ghost use Rattle.std.specs.Prelude.{◌≡◌, ◌<◌, ◌^◌, IfOk, IfErr};
ghost use Rattle.line_engine.specs.Lines.{lines_of};
ghost use Rattle.line_engine.specs.Rule.{after};
ghost use Rattle.line_engine.specs.Input.{IsLineFault, StopsAt};

use crate::fault::InputFault;
use crate::lines::Lines;
use crate::taker::LineTaker;
use byte_devices::{DeviceFault, Sink};
use std::alloc::Global;

/// A sink that takes all bytes, keeps none, and never fails.
#[derive(Drop)]
pub struct Nowhere;

impl Sink for Nowhere {
    ghost use Rattle.std.specs.Prelude.{None, false};

    ghost taken = { λ _. None };

    ghost failed = { λ _. false };

    fn write(&mut self, bytes: &[u8]) -> Result<usize, DeviceFault> {
        Ok(bytes.len())
    }

    fn failed(&self) -> bool {
        false
    }
}

/// Hands the lines of a text to the taker, one after the other, and lets their replies go. The result is the taker, which
/// has then taken all lines. The text may have any length. The memory is that of the taker, of an unfinished line, and of
/// the replies to 65,536 bytes.
///
/// Whichever fault comes first stops it: running out of memory is `Memory`, and a fault of the taker `Taker`.
pub fn take_text<A: LineTaker>(
    alloc: Global,
    taker: A,
    text: &[u8],
) -> Result<A, InputFault<A::Fault>>
    requires few { A.count taker < 2 ^ 32 }
    ensures all { IfOk result (λ last. A.state last ≡ after A.rule (A.state taker) (lines_of A.LONGEST text.now)) }
    ensures stops { IfErr result (IsLineFault (StopsAt A.rule A.stops (A.state taker) (lines_of A.LONGEST text.now))) }
{
    let mut lines = Lines::new(alloc, taker);
    let mut sink = Nowhere;
    lines.feed(&mut sink, text)?;
    lines.finish(&mut sink)?;
    Ok(lines.into_taker())
}
