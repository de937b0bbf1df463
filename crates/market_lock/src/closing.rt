//! Passes and placed workers are taken back, one by one.
ghost use Rattle.std.specs.Prelude.{◌≡◌, ◌++◌, [], ◌∷◌, All, None, Some};
ghost use Rattle.market_lock.specs.Workers.{own_place};
ghost use Rattle.market_lock.specs.Seen.{OfPass, OfPlaced};
ghost use Rattle.market_lock.specs.Held.{IsClosing, kept_of, known_for, taken_in, whos};

use crate::pass::{Pass, Placed};
use crate::rule::{Gather, Place, Shelf};
use crate::ticket::Ticket;

/// Takes a ticket back: the table's seat keeps what it knew.
fn take_back(table: &Shelf, seat: &mut Place, ticket: Ticket)
    requires table { (seat.old.table_id ≡ table.now.shared.table_id) × (table.now.shared.table_id.words ≡ 1) × (ticket.table ≡ table.now.shared.table_id) }
    requires seat { IsClosing table.now.shared.key seat.old.me (kept_of seat.old.me.0) }
    ensures table { seat.new.table_id ≡ seat.old.table_id }
    ensures seat { IsClosing table.now.shared.key seat.new.me (kept_of seat.old.me.0 ++ known_for ticket ∷ []) }
{
    let Ticket {
        seat: theirs,
        number: _,
        calls: _,
    } = ticket;
    table.shared.join_seat::<Gather>(seat, theirs);
}

/// Takes passes back, none of which is placed.
pub(crate) fn take_back_passes(table: &Shelf, seat: &mut Place, passes: Vec<Pass>)
    requires table { (seat.old.table_id ≡ table.now.shared.table_id) × (table.now.shared.table_id.words ≡ 1) }
    requires seat { IsClosing table.now.shared.key seat.old.me (kept_of seat.old.me.0) }
    requires passes { All (λ (p : OfPass). p.table ≡ table.now.shared.table_id) passes.items }
    ensures table { seat.new.table_id ≡ seat.old.table_id }
    ensures seat { IsClosing table.now.shared.key seat.new.me (kept_of seat.old.me.0 ++ taken_in passes.items) }
    ensures unplaced { All (λ (p : OfPass). own_place p.mine ≡ None) passes.items }
{
    let mut left = passes;
    while let Some(pass) = left.pop() {
        let Pass { ticket } = pass;
        take_back(table, seat, ticket);
    }
    left.destroy_empty();
}

/// Takes placed workers back.
pub(crate) fn take_back_placed(table: &Shelf, seat: &mut Place, placed: Vec<Placed>)
    requires table { (seat.old.table_id ≡ table.now.shared.table_id) × (table.now.shared.table_id.words ≡ 1) }
    requires seat { IsClosing table.now.shared.key seat.old.me (kept_of seat.old.me.0) }
    requires placed { All (λ (p : OfPlaced). p.who.table ≡ table.now.shared.table_id) placed.items }
    ensures table { seat.new.table_id ≡ seat.old.table_id }
    ensures seat { IsClosing table.now.shared.key seat.new.me (kept_of seat.old.me.0 ++ taken_in (whos placed.items)) }
    ensures placed { All (λ (p : OfPlaced). own_place p.who.mine ≡ Some p.arena) placed.items }
{
    let mut left = placed;
    while let Some(worker) = left.pop() {
        let Placed { ticket, arena: _ } = worker;
        take_back(table, seat, ticket);
    }
    left.destroy_empty();
}
