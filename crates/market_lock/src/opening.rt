//! An office's table is made, and its passes are dealt.
ghost use Rattle.std.specs.Prelude.{◌≡◌, ◌+◌, ◌<◌, [], IfOk};
ghost use Rattle.market_lock.specs.declared.view.View.TheVariants.{Opener};
ghost use Rattle.market_lock.specs.Views.{chronicle_of};
ghost use Rattle.market_lock.specs.Seen.{fresh, office_of};

use crate::desk::Desk;
use crate::pass::Pass;
use crate::rule::{Deal, Place, Shelf};
use crate::ticket::Ticket;
use atomic_table::Table;
use edit_history::{Chronicle, Terms};
use market_types::SeatNo;
use std::alloc::{AllocError, Global};

/// A table with the desk at home, and its first seat.
pub(crate) struct Furnished {
    pub table: Shelf,
    pub seat: Place,
}

/// Makes the table. Out of memory is the `Err`.
pub(crate) fn furnish(
    alloc: Global,
    terms: &Terms,
    chronicle: Chronicle,
) -> Result<Furnished, AllocError>
    requires chronicle { chronicle ≡ chronicle_of terms.now [] }
    ensures table { IfOk result (λ f. (f.table.shared.table_id.words ≡ 1) × (f.table.shared.table_id.slots ≡ 1) × (f.table.shared.key ≡ terms.now)) }
    ensures seat { IfOk result (λ f. (f.seat.table_id ≡ f.table.shared.table_id) × (f.seat.me ≡ (Opener terms.now 0, []))) }
{
    let mut slots = Vec::with_capacity(alloc, 1)?;
    slots.push_reserved(Desk::new(chronicle));
    match Table::new(alloc, &[0], slots, terms) {
        Ok((table, seat)) => Ok(Furnished { table, seat }),
        Err(_) => Err(AllocError),
    }
}

/// Deals the next pass.
pub(crate) fn deal(table: &Shelf, seat: &mut Place, number: SeatNo) -> Pass
    requires table { (seat.old.table_id ≡ table.now.shared.table_id) × (table.now.shared.table_id.words ≡ 1) }
    requires seat { seat.old.me ≡ (Opener table.now.shared.key number, []) }
    requires number { number < table.now.shared.key.opening.seats }
    ensures table { seat.new.table_id ≡ seat.old.table_id }
    ensures seat { seat.new.me ≡ (Opener table.now.shared.key (number + 1), []) }
    ensures pass { result ≡ fresh (office_of table.now.shared.table_id table.now.shared.key) number }
{
    let own = table.shared.split_seat::<Deal>(seat);
    Pass {
        ticket: Ticket {
            seat: own,
            number,
            calls: 0,
        },
    }
}
