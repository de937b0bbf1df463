//! Lists of commands.
ghost use Rattle.std.specs.Prelude.{◌≡◌, ◌<◌, length, take, IfOk, OnOk, OnErr};
ghost use Rattle.std.specs.List.{All, SomeIndex};
ghost use Rattle.market_types.specs.declared.command.Call.{Call};
ghost use Rattle.market_types.specs.History.{replies_to, state_after};

use crate::market::Market;
use market_types::{Call, Reply};
use std::alloc::{AllocError, Global};

/// Applies calls in order, and gathers the replies: after any list of commands by any number of seats each reply is what
/// the market gives as it then stands. The replies' places are reserved first. After an `Err` the calls before one of
/// them are applied, and no other is.
pub fn apply_all(
    alloc: Global,
    market: &mut Market,
    calls: &[Call],
) -> Result<Vec<Reply>, AllocError>
    requires seats { All (λ (call : Call). call.seat < length market.old.seats) calls.now }
    ensures replies { IfOk result (λ replies. replies.items ≡ replies_to market.old calls.now) }
    ensures market { OnOk result (market.new ≡ state_after market.old calls.now) }
    ensures part { OnErr result (SomeIndex calls.now (λ n. market.new ≡ state_after market.old (take n calls.now))) }
{
    let mut replies = Vec::with_capacity(alloc, calls.len())?;
    for call in calls {
        replies.push_reserved(market.apply(alloc, call.seat, call.cmd)?);
    }
    Ok(replies)
}
