//! Why a run stops, and with which exit status.
ghost use Rattle.std.specs.Prelude.{◌≡◌};
ghost use Rattle.market_texts.specs.Texts.{open_fault_text};
ghost use Rattle.market_prog.specs.Status.{status_of};

use byte_devices::OutFault;
use edit_history::CallFault;
use line_engine::InputFault;
use market_texts::open_fault_text;
use market_types::OpenFault;
use std::alloc::AllocError;
use thiserror::Error;

/// Why a run stopped. Its text is what the program tells on standard error.
#[derive(Clone, Copy, Debug, PartialEq, Eq, Error)]
pub enum RunFault {
    /// The market was not opened: one of its numbers is out of range. Running out of memory is `Memory`.
    #[error("{}", text_of(.0))]
    Open(OpenFault),
    /// A read failed.
    #[error("read fault")]
    Read,
    /// The input has more than 268,435,456 bytes.
    #[error("input too long")]
    TooLong,
    /// A write failed, or took 0 of some bytes.
    #[error("write fault")]
    Write,
    /// There was no memory.
    #[error("memory")]
    Memory,
    /// The history had no place left.
    #[error("history full")]
    HistoryFull,
}

/// The text of an opening's fault.
fn text_of(fault: &OpenFault) -> &'static str
    ensures { result.now ≡ open_fault_text fault.now }
{
    open_fault_text(*fault)
}

impl From<InputFault<AllocError>> for RunFault {
    ghost use Rattle.std.specs.Prelude.{◌≡◌};
    ghost use Rattle.market_prog.specs.Faults.{run_fault_of_input};

    ghost from_gives = { λ fault stop. stop ≡ run_fault_of_input fault };

    fn from(fault: InputFault<AllocError>) -> RunFault {
        match fault {
            InputFault::Read => RunFault::Read,
            InputFault::TooLong => RunFault::TooLong,
            InputFault::Write => RunFault::Write,
            InputFault::Memory | InputFault::Taker(_) => RunFault::Memory,
        }
    }
}

impl From<InputFault<CallFault>> for RunFault {
    ghost use Rattle.std.specs.Prelude.{◌≡◌};
    ghost use Rattle.market_prog.specs.Faults.{run_fault_of_recording};

    ghost from_gives = { λ fault stop. stop ≡ run_fault_of_recording fault };

    fn from(fault: InputFault<CallFault>) -> RunFault {
        match fault {
            InputFault::Read => RunFault::Read,
            InputFault::TooLong => RunFault::TooLong,
            InputFault::Write => RunFault::Write,
            InputFault::Memory | InputFault::Taker(CallFault::Memory) => RunFault::Memory,
            InputFault::Taker(CallFault::HistoryFull) => RunFault::HistoryFull,
        }
    }
}

impl From<OutFault> for RunFault {
    ghost use Rattle.std.specs.Prelude.{◌≡◌};
    ghost use Rattle.market_prog.specs.Faults.{run_fault_of_output};

    ghost from_gives = { λ fault stop. stop ≡ run_fault_of_output fault };

    fn from(fault: OutFault) -> RunFault {
        match fault {
            OutFault::Write => RunFault::Write,
            OutFault::Memory => RunFault::Memory,
        }
    }
}

impl From<OpenFault> for RunFault {
    ghost use Rattle.market_prog.specs.Faults.{IsRunFaultOf};

    ghost from_gives = { IsRunFaultOf };

    fn from(fault: OpenFault) -> RunFault {
        match fault {
            OpenFault::Memory => RunFault::Memory,
            _ => RunFault::Open(fault),
        }
    }
}

/// The exit status of `market run` and of `market explain`: 0 where all was done, 1 where a line was unread, 2 where the
/// market was not opened, and 3 after any other fault. It takes no memory.
pub fn status_of_run(run: &Result<u64, RunFault>) -> u8
    ensures exact { result ≡ status_of run.now }
{
    match run {
        Ok(0) => 0,
        Ok(_) => 1,
        Err(RunFault::Open(_)) => 2,
        Err(_) => 3,
    }
}
