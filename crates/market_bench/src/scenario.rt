//! What is measured.
ghost use Rattle.std.specs.Prelude.{◌≡◌, ◌≤◌, [], ◌∷◌, Some, None, OnErr, IfOk, IfErr};
ghost use Rattle.market_types.specs.declared.command.Cmd.TheVariants.{Join};
ghost use Rattle.market_bench.specs.declared.fault.BenchFault.TheVariants as bench;
ghost use Rattle.market_bench.specs.declared.fault.TurnFault.TheVariants.{Refused};
ghost use Rattle.market_bench.specs.Faults.{StopsTurns};
ghost use Rattle.market_bench.specs.Stages.{stage_of};
ghost use Rattle.market_bench.specs.Table.{heading_of};
ghost use Rattle.market_bench.specs.Turns.{request_in, round_of, sum_after, turn_of, turns_of};

use crate::fault::{BenchFault, TurnFault};
use crate::stage::Stage;
use market_types::Cmd;
use std::alloc::Global;

/// The seat that gives the commands.
const CALLER: u8 = 0;

/// A turn of commands, and the market in which it is taken again and again.
#[derive(Clone, Copy)]
pub enum Scenario {
    /// A request, by one worker more and then by one less.
    Request,
    /// The same, and a look at an arena that is chosen apart from it.
    RequestShow,
    /// A worker that joins, stays and leaves.
    JoinStayLeave,
    /// A worker that joins where no arena needs one, as the same worker's last Join found.
    JoinInVain,
    /// The same after a request, of no more workers: each arena that is allotted workers is looked at in vain.
    RequestJoin,
    /// The arenas with workers too many or too few.
    Lists,
}

impl Scenario {
    /// Every scenario, as the table has them.
    pub const ALL: [Scenario; 6] = [
        Scenario::Request,
        Scenario::RequestShow,
        Scenario::JoinStayLeave,
        Scenario::JoinInVain,
        Scenario::RequestJoin,
        Scenario::Lists,
    ];

    /// What the table calls it.
    pub fn name(self) -> &'static str
        ensures exact { result.now ≡ heading_of self }
    {
        match self {
            Scenario::Request => "request",
            Scenario::RequestShow => "request, show",
            Scenario::JoinStayLeave => "join, stay, leave",
            Scenario::JoinInVain => "join in vain",
            Scenario::RequestJoin => "request, join",
            Scenario::Lists => "lists",
        }
    }

    /// How many turns a round has.
    pub fn turns(self) -> u32
        ensures exact { result ≡ turns_of self }
    {
        match self {
            Scenario::Request | Scenario::RequestShow => 50_000,
            Scenario::JoinStayLeave => 20_000,
            Scenario::JoinInVain | Scenario::RequestJoin => 2_000,
            Scenario::Lists => 1_000,
        }
    }

    /// The market that it is measured in, with 1 to 8 levels and 1 to 1,024 arenas. 64 workers may be active; where one is
    /// to join in vain, 63, and every seat but the caller's has joined.
    pub fn stage(self, alloc: Global, levels: u32, arenas: u32) -> Result<Stage, BenchFault>
        requires levels { (1 ≤ levels) × (levels ≤ 8) }
        requires arenas { (1 ≤ arenas) × (arenas ≤ 1024) }
        ensures ready { IfOk result (λ stage. stage_of self levels arenas ≡ Some stage.market) }
        ensures refused { IfErr result (λ fault. fault ≡ bench.Refused → stage_of self levels arenas ≡ None) }
        ensures arenas { IfOk result (λ stage. stage.arenas ≡ arenas) }
    {
        match self {
            Scenario::JoinInVain | Scenario::RequestJoin => {
                let mut stage = Stage::new(alloc, 64, levels, arenas)?;
                stage.place_others()?;
                Ok(stage)
            }
            _ => Stage::new(alloc, 65, levels, arenas),
        }
    }

    /// One turn. The result is the sum of the numbers in its replies, modulo 2^64.
    #[inline(always)]
    fn turn(self, stage: &mut Stage, turn: u64) -> Result<u64, TurnFault>
        ensures sum { IfOk result (λ sum. turn_of self stage.old.arenas turn stage.old.market ≡ Some (sum, stage.new.market)) }
        ensures fault { IfErr result (λ fault. StopsTurns fault self (turn_of self stage.old.arenas turn stage.old.market)) }
        ensures arenas { stage.new.arenas ≡ stage.old.arenas }
    {
        match self {
            Scenario::Request => request(stage, turn),
            Scenario::RequestShow => {
                let request = request(stage, turn)?;
                let show = stage.ask(CALLER, Cmd::Show(stage.some_arena(turn)))?;
                Ok(request.wrapping_add(show))
            }
            Scenario::JoinStayLeave => {
                let placed = stage.ask(CALLER, Cmd::Join)?;
                let stays = stage.ask(CALLER, Cmd::Stay)?;
                let left = stage.ask(CALLER, Cmd::Leave)?;
                Ok(placed.wrapping_add(stays).wrapping_add(left))
            }
            Scenario::JoinInVain => join(stage),
            Scenario::RequestJoin => {
                let request = stage.ask(CALLER, Cmd::Request(stage.some_arena(turn), 0, 0))?;
                let idle = stage.ask(CALLER, Cmd::Join)?;
                Ok(request.wrapping_add(idle))
            }
            Scenario::Lists => stage.ask(CALLER, Cmd::Lists),
        }
    }

    /// All turns of a round. The result is the sum of theirs, modulo 2^64.
    #[inline(never)]
    pub fn round(self, stage: &mut Stage) -> Result<u64, TurnFault>
        ensures sum { IfOk result (λ sum. round_of self stage.old.arenas stage.old.market ≡ Some (sum, stage.new.market)) }
        ensures fault { IfErr result (λ fault. StopsTurns fault self (round_of self stage.old.arenas stage.old.market)) }
        ensures arenas { stage.new.arenas ≡ stage.old.arenas }
    {
        let mut sum = 0u64;
        for turn in 0..self.turns() {
            sum = sum.wrapping_add(self.turn(stage, u64::from(turn))?);
        }
        Ok(sum)
    }
}

/// A Join of its own for each turn: where the compiler saw that nothing changes, it would give one for all.
#[inline(never)]
fn join(stage: &mut Stage) -> Result<u64, TurnFault>
    ensures refused { IfErr result (λ fault. fault ≡ Refused) }
    ensures no_number { OnErr result (sum_after 0 stage.old.market (Join ∷ []) ≡ None) }
    ensures number { IfOk result (λ n. sum_after 0 stage.old.market (Join ∷ []) ≡ Some (n, stage.new.market)) }
    ensures arenas { stage.new.arenas ≡ stage.old.arenas }
{
    stage.ask(CALLER, Cmd::Join)
}

/// An arena asks for one worker more in an even turn, and for one less in the odd turn after it.
#[inline(always)]
fn request(stage: &mut Stage, turn: u64) -> Result<u64, TurnFault>
    ensures refused { IfErr result (λ fault. fault ≡ Refused) }
    ensures no_number { OnErr result (sum_after 0 stage.old.market (request_in stage.old.arenas turn ∷ []) ≡ None) }
    ensures number { IfOk result (λ n. sum_after 0 stage.old.market (request_in stage.old.arenas turn ∷ []) ≡ Some (n, stage.new.market)) }
    ensures arenas { stage.new.arenas ≡ stage.old.arenas }
{
    let arena = stage.some_arena(turn / 2);
    let workers = if turn % 2 == 0 { 1 } else { -1 };
    stage.ask(CALLER, Cmd::Request(arena, workers, 0))
}
