//! Who opens a plan's market.
ghost use Rattle.std.specs.Prelude.{◌≡◌, None, is_none, IfNone, IfSome};
ghost use Rattle.market_lock.specs.Seen.{IsSamePass};
ghost use Rattle.office_crew.specs.Callers.{who_is};
ghost use Rattle.market_drive.specs.Opening.{HasGiven, fault_in};
ghost use Rattle.market_drive.specs.Causes.{HasEndedSo};
ghost use Rattle.worker_main.specs.declared.report.Ended.TheVariants.{Call};

use edit_history::CallFault;
use market_lock::{Office, Pass, Placed};
use market_types::{Cmd, Reply};
use office_crew::{Asked, Caller, Task, ask};
use std::alloc::Global;
use std::sync::Wait;

/// Why a command was not answered, if it was asked and was not.
fn fault_in(answer: &Option<Result<Reply, CallFault>>) -> Option<CallFault>
    ensures { result ≡ fault_in answer.now }
{
    match answer {
        Some(Err(fault)) => Some(*fault),
        _ => None,
    }
}

/// Gives the commands that make a plan's market, and stops at the first that is not answered.
#[derive(Drop)]
pub(crate) struct Opener<'a> {
    cmds: &'a [Cmd],
    /// Why a command was not answered.
    pub(crate) fault: Option<CallFault>,
}

impl<'a> Opener<'a> {
    /// With these commands.
    pub(crate) fn new(cmds: &'a [Cmd]) -> Self
        ensures { (result.cmds.now ≡ cmds.now) × (result.fault ≡ None) }
    {
        Opener { cmds, fault: None }
    }
}

impl Task for Opener<'_> {
    ghost use Rattle.std.specs.Prelude.{◌≡◌, None, is_none, IfNone, IfSome};
    ghost use Rattle.market_drive.specs.Opening.{HasGiven};
    ghost use Rattle.market_drive.specs.Causes.{HasEndedSo};
    ghost use Rattle.worker_main.specs.declared.report.Ended.TheVariants.{Call};

    ghost worked = { λ before p after q. IfNone after.fault (HasGiven before.cmds.now p q) × (before.fault ≡ None → IfSome after.fault (λ fault. HasEndedSo p q (Call fault))) };

    ghost lets = { λ opener lets. lets ≡ is_none opener.fault };

    /// Where it tells no fault, each of its commands was answered, but for those that would move its seat, and where none would, nothing
    /// else was called; where it tells a full history, places were lacking.
    fn work<R: Wait>(
        &mut self,
        rt: &R,
        alloc: Global,
        office: &Office,
        caller: Caller<Pass, Placed>,
    ) -> Caller<Pass, Placed>
        requires office { (who_is caller).table ≡ office.now.table }
        ensures same { IsSamePass (who_is caller) (who_is result) }
        ensures worked { IfNone self.new.fault (HasGiven self.old.cmds.now (who_is caller) (who_is result)) × (self.old.fault ≡ None → IfSome self.new.fault (λ fault. HasEndedSo (who_is caller) (who_is result) (Call fault))) }
    {
        let mut caller = caller;
        for cmd in self.cmds {
            let Asked {
                caller: next,
                answer,
            } = ask(rt, alloc, office, caller, *cmd);
            caller = next;
            if let Some(fault) = fault_in(&answer) {
                self.fault = Some(fault);
                return caller;
            }
        }
        caller
    }

    /// Only where each command was answered.
    fn lets_others_work(&self) -> bool
        ensures { result ≡ is_none self.now.fault }
    {
        self.fault.is_none()
    }
}
