//! Any command by any caller.
ghost use Rattle.std.specs.Prelude.{◌≡◌, None, Some, Ok, Err, is_some, true};
ghost use Rattle.market_lock.specs.Moves.{Called, Fails};
ghost use Rattle.market_lock.specs.Seen.{IsSamePass};
ghost use Rattle.office_crew.specs.Callers.{who_is, may_ask};
ghost use Rattle.office_crew.specs.declared.caller.Caller.TheVariants.{Free, Working};

use crate::caller::Caller;
use edit_history::CallFault;
use market_lock::{Joined, Office, Pass, Placed, Stayed};
use market_types::{Cmd, Reply};
use std::alloc::Global;
use std::sync::Wait;

/// A caller after a command: `P` is a pass, `Q` a placed worker.
pub struct Asked<P, Q> {
    /// The same caller; a Join, a Stay or a Leave may have made the one kind of the other.
    pub caller: Caller<P, Q>,
    /// What it was answered. `None` where nothing was asked.
    pub answer: Option<Result<Reply, CallFault>>,
}

/// Makes a caller give a command. A placed worker asks for no arena, and who is not placed neither stays nor leaves: that is
/// not asked, and nothing changes.
pub fn ask<R: Wait>(
    rt: &R,
    alloc: Global,
    office: &Office,
    caller: Caller<Pass, Placed>,
    cmd: Cmd,
) -> Asked<Pass, Placed>
    requires office { (who_is caller).table ≡ office.now.table }
    ensures same { IsSamePass (who_is caller) (who_is result.caller) }
    ensures answered { (reply : Reply) → result.answer ≡ Some (Ok reply) → Called (who_is caller) cmd reply (who_is result.caller) }
    ensures failed { (fault : CallFault) → result.answer ≡ Some (Err fault) → Fails (who_is caller) cmd fault (who_is result.caller) }
    ensures asked { is_some result.answer ≡ may_ask caller cmd }
    ensures unasked { result.answer ≡ None → who_is result.caller ≡ who_is caller }
{
    match caller {
        Caller::Free(pass) => ask_free(rt, alloc, office, pass, cmd),
        Caller::Working(worker) => ask_working(rt, alloc, office, worker, cmd),
    }
}

/// The same of a pass.
fn ask_free<R: Wait>(
    rt: &R,
    alloc: Global,
    office: &Office,
    pass: Pass,
    cmd: Cmd,
) -> Asked<Pass, Placed>
    requires office { pass.table ≡ office.now.table }
    ensures same { IsSamePass pass (who_is result.caller) }
    ensures answered { (reply : Reply) → result.answer ≡ Some (Ok reply) → Called pass cmd reply (who_is result.caller) }
    ensures failed { (fault : CallFault) → result.answer ≡ Some (Err fault) → Fails pass cmd fault (who_is result.caller) }
    ensures asked { is_some result.answer ≡ may_ask (Free pass) cmd }
    ensures unasked { result.answer ≡ None → who_is result.caller ≡ pass }
{
    if cmd == Cmd::Join {
        return ask_join(rt, alloc, office, pass);
    }
    let mut pass = pass;
    if cmd.moves_seat() {
        return Asked {
            caller: Caller::Free(pass),
            answer: None,
        };
    }
    let answer = office.call(rt, alloc, &mut pass, cmd);
    Asked {
        caller: Caller::Free(pass),
        answer: Some(answer),
    }
}

/// A pass asks for an arena.
fn ask_join<R: Wait>(rt: &R, alloc: Global, office: &Office, pass: Pass) -> Asked<Pass, Placed>
    requires office { pass.table ≡ office.now.table }
    ensures same { IsSamePass pass (who_is result.caller) }
    ensures answered { (reply : Reply) → result.answer ≡ Some (Ok reply) → Called pass Cmd.Join reply (who_is result.caller) }
    ensures failed { (fault : CallFault) → result.answer ≡ Some (Err fault) → Fails pass Cmd.Join fault (who_is result.caller) }
    ensures asked { is_some result.answer ≡ true }
{
    match office.join(rt, alloc, pass) {
        Joined::Placed(worker) => Asked {
            answer: Some(Ok(Reply::Placed(worker.arena()))),
            caller: Caller::Working(worker),
        },
        Joined::Idle(pass) => Asked {
            caller: Caller::Free(pass),
            answer: Some(Ok(Reply::Idle)),
        },
        Joined::Failed(pass, fault) => Asked {
            caller: Caller::Free(pass),
            answer: Some(Err(fault)),
        },
    }
}

/// The same of a placed worker.
fn ask_working<R: Wait>(
    rt: &R,
    alloc: Global,
    office: &Office,
    worker: Placed,
    cmd: Cmd,
) -> Asked<Pass, Placed>
    requires office { worker.who.table ≡ office.now.table }
    ensures same { IsSamePass worker.who (who_is result.caller) }
    ensures answered { (reply : Reply) → result.answer ≡ Some (Ok reply) → Called worker.who cmd reply (who_is result.caller) }
    ensures failed { (fault : CallFault) → result.answer ≡ Some (Err fault) → Fails worker.who cmd fault (who_is result.caller) }
    ensures asked { is_some result.answer ≡ may_ask (Working worker) cmd }
    ensures unasked { result.answer ≡ None → who_is result.caller ≡ worker.who }
{
    let mut worker = worker;
    match cmd {
        Cmd::Stay => return ask_stay(rt, alloc, office, worker),
        Cmd::Leave => return ask_leave(rt, office, worker),
        Cmd::Join => {
            return Asked {
                caller: Caller::Working(worker),
                answer: None,
            };
        }
        _ => {}
    }
    let answer = office.call_placed(rt, alloc, &mut worker, cmd);
    Asked {
        caller: Caller::Working(worker),
        answer: Some(answer),
    }
}

/// A placed worker asks whether its arena still wants it.
fn ask_stay<R: Wait>(rt: &R, alloc: Global, office: &Office, worker: Placed) -> Asked<Pass, Placed>
    requires office { worker.who.table ≡ office.now.table }
    ensures same { IsSamePass worker.who (who_is result.caller) }
    ensures answered { (reply : Reply) → result.answer ≡ Some (Ok reply) → Called worker.who Cmd.Stay reply (who_is result.caller) }
    ensures failed { (fault : CallFault) → result.answer ≡ Some (Err fault) → Fails worker.who Cmd.Stay fault (who_is result.caller) }
    ensures asked { is_some result.answer ≡ true }
{
    let arena = worker.arena();
    match office.stay(rt, alloc, worker) {
        Stayed::Stays(worker) => Asked {
            caller: Caller::Working(worker),
            answer: Some(Ok(Reply::Stays(arena))),
        },
        Stayed::Recalled(pass) => Asked {
            caller: Caller::Free(pass),
            answer: Some(Ok(Reply::Recalled(arena))),
        },
        Stayed::Failed(worker, fault) => Asked {
            caller: Caller::Working(worker),
            answer: Some(Err(fault)),
        },
    }
}

/// A placed worker leaves.
fn ask_leave<R: Wait>(rt: &R, office: &Office, worker: Placed) -> Asked<Pass, Placed>
    requires office { worker.who.table ≡ office.now.table }
    ensures same { IsSamePass worker.who (who_is result.caller) }
    ensures answered { (reply : Reply) → result.answer ≡ Some (Ok reply) → Called worker.who Cmd.Leave reply (who_is result.caller) }
    ensures answers { (fault : CallFault) → result.answer ≡ Some (Err fault) → ⊥ }
    ensures asked { is_some result.answer ≡ true }
{
    let arena = worker.arena();
    Asked {
        caller: Caller::Free(office.leave(rt, worker)),
        answer: Some(Ok(Reply::Left(arena))),
    }
}
