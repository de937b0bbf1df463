//! A task that gives chosen commands.
ghost use Rattle.std.specs.Prelude.{◌≡◌, ◌++◌, [], IfOk, OnOk, OnErr};
ghost use Rattle.market_types.specs.History.{place_in};
ghost use Rattle.market_lock.specs.Seen.{IsSamePass};
ghost use Rattle.office_crew.specs.Callers.{arena_of, who_is};
ghost use Rattle.office_crew.specs.Scripts.{Answer, HasGiven, HasTried, IsToldOf, answer_text, lacked_memory};

use crate::asking::{Asked, ask};
use crate::caller::{Caller, Task};
use edit_history::CallFault;
use market_lock::{Office, Pass, Placed};
use market_texts::push_reply;
use market_types::{ArenaId, Cmd, Reply};
use std::alloc::{AllocError, Global};
use std::marker::Model;
use std::sync::Wait;

/// Room for the answers of some dozen commands.
const USUAL_LENGTH: usize = 1_024;

/// Gives its commands in turn, and writes down what it is answered, a line each. Where memory runs out it says so in a line, and
/// gives the command once more. Contracts see it as its commands and what it wrote down.
#[derive(Debug, Drop)]
pub struct Script<'a> {
    cmds: &'a [Cmd],
    told: Vec<u8>,
}

impl<'a> Model for Script<'a> {
    ghost use Rattle.office_crew.specs.Scripts.{OfScript};

    ghost Value = { OfScript };

    ghost view = { λ s. record { cmds = s.cmds.now; told = s.told.items } };
}

/// Writes what an answer says.
fn push_text(
    told: &mut Vec<u8>,
    answer: &Option<Result<Reply, CallFault>>,
) -> Result<(), AllocError>
    ensures ok { OnOk result (told.new.items ≡ told.old.items ++ answer_text answer.now) }
    ensures err { OnErr result (told.new.items ≡ told.old.items) }
{
    match answer {
        Some(Ok(reply)) => push_reply(told, reply),
        Some(Err(CallFault::Memory)) => told.extend_from_slice(b"C1 memory"),
        Some(Err(CallFault::HistoryFull)) => told.extend_from_slice(b"C2 history full"),
        None => told.extend_from_slice(b"not asked"),
    }
}

/// Writes the line of an answer. Where memory runs out it is torn.
fn push_answer(told: &mut Vec<u8>, answer: &Option<Result<Reply, CallFault>>)
    ensures { IsToldOf told.old.items answer.now told.new.items }
{
    if push_text(told, answer).is_ok() {
        let _ = told.push(b'\n');
    }
}

/// Where a caller is placed: there its own entries place it.
fn arena_of(caller: &Caller<Pass, Placed>) -> Option<ArenaId>
    ensures exact { result ≡ arena_of caller.now }
    ensures own { place_in (who_is caller.now).seat (who_is caller.now).seen ≡ arena_of caller.now }
{
    match caller {
        Caller::Free(pass) => {
            let _ = pass.seat();
            None
        }
        Caller::Working(worker) => Some(worker.arena()),
    }
}

/// Whether memory ran out.
fn lacked_memory(answer: &Option<Result<Reply, CallFault>>) -> bool
    ensures { result ≡ lacked_memory answer.now }
{
    matches!(answer, Some(Err(CallFault::Memory)))
}

impl<'a> Script<'a> {
    /// Of these commands, with room for its answers.
    pub fn new(alloc: Global, cmds: &'a [Cmd]) -> Result<Self, AllocError>
        ensures commands { IfOk result (λ script. script.cmds ≡ cmds.now) }
        ensures untold { IfOk result (λ script. script.told ≡ []) }
    {
        Ok(Script {
            cmds,
            told: Vec::with_capacity(alloc, USUAL_LENGTH)?,
        })
    }

    /// The answers up to now: replies as texts, and `C1 memory`, `C2 history full` and `not asked`. A line for which there was no
    /// memory is torn.
    pub fn told(&self) -> &[u8]
        ensures exact { result.now ≡ self.now.told }
    {
        &self.told
    }

    /// Gives a command, writes down what it is answered, and says whether memory ran out.
    fn give<R: Wait>(
        &mut self,
        rt: &R,
        alloc: Global,
        office: &Office,
        caller: Caller<Pass, Placed>,
        cmd: Cmd,
    ) -> (Caller<Pass, Placed>, bool)
        requires office { (who_is caller).table ≡ office.now.table }
        ensures same { IsSamePass (who_is caller) (who_is result.0) }
        ensures commands { self.new.cmds ≡ self.old.cmds }
        ensures given { (answer : Answer) × HasGiven cmd (who_is caller) self.old.told answer (who_is result.0) self.new.told × (result.1 ≡ lacked_memory answer) }
    {
        // Where it is placed tells whether it is asked.
        let _ = arena_of(&caller);
        let Asked { caller, answer } = ask(rt, alloc, office, caller, cmd);
        push_answer(&mut self.told, &answer);
        (caller, lacked_memory(&answer))
    }

    /// Gives a command, and once more where memory runs out.
    fn try_twice<R: Wait>(
        &mut self,
        rt: &R,
        alloc: Global,
        office: &Office,
        caller: Caller<Pass, Placed>,
        cmd: &Cmd,
    ) -> Caller<Pass, Placed>
        requires office { (who_is caller).table ≡ office.now.table }
        ensures same { IsSamePass (who_is caller) (who_is result) }
        ensures commands { self.new.cmds ≡ self.old.cmds }
        ensures tried { HasTried cmd.now (who_is caller) self.old.told (who_is result) self.new.told }
    {
        let (caller, is_missed) = self.give(rt, alloc, office, caller, *cmd);
        if is_missed {
            return self.give(rt, alloc, office, caller, *cmd).0;
        }
        caller
    }
}

impl Task for Script<'_> {
    ghost use Rattle.std.specs.Prelude.{◌≡◌, true};
    ghost use Rattle.office_crew.specs.Scripts.{HasGivenEach};

    ghost worked = { λ before p after q. (after.cmds ≡ before.cmds) × HasGivenEach before.cmds p before.told q after.told };

    ghost lets = { λ script lets. lets ≡ true };

    /// Gives each of its commands, and makes no other call.
    fn work<R: Wait>(
        &mut self,
        rt: &R,
        alloc: Global,
        office: &Office,
        caller: Caller<Pass, Placed>,
    ) -> Caller<Pass, Placed> {
        let mut caller = caller;
        for cmd in self.cmds {
            caller = self.try_twice(rt, alloc, office, caller, cmd);
        }
        caller
    }

    fn lets_others_work(&self) -> bool {
        true
    }
}
