//! The rule of the lock, and its steps: each says what it tells the seat that takes it.
use crate::desk::Desk;
use crate::view::View;
use atomic_table::{Join, Play, Seat, Split, Table, TableRule};
use edit_history::Terms;
use std::alloc::Global;

/// The desk is at home, or one seat has it; what each seat knows is true of its history.
pub(crate) struct Lock;

impl TableRule<Desk, View, Terms> for Lock {
    ghost use Rattle.market_lock.specs.declared.view.View.TheVariants.{Opener};
    ghost use Rattle.market_lock.specs.Rule.{Kept};

    ghost holds = { Kept };

    ghost first = { λ terms. Opener terms 0 };
}

/// A seat takes the desk, where it is at home.
pub(crate) struct Take;

impl Play<Desk, View> for Take {
    ghost use Rattle.market_lock.specs.Rule.{Takes};

    ghost then = { Takes };
}

/// The seat that has the desk gives it back.
pub(crate) struct Give;

impl Play<Desk, View> for Give {
    ghost use Rattle.market_lock.specs.Rule.{Gives};

    ghost then = { Gives };
}

/// The seat that has the desk gives it back, once it has cut out what was kept.
pub(crate) struct GiveCut;

impl Play<Desk, View> for GiveCut {
    ghost use Rattle.market_lock.specs.Rule.{GivesCut};

    ghost then = { GivesCut };
}

/// A seat comes that takes the others back.
pub(crate) struct Enter;

impl Play<Desk, View> for Enter {
    ghost use Rattle.market_lock.specs.Rule.{Enters};

    ghost then = { Enters };
}

/// A seat is dealt to a pass.
pub(crate) struct Deal;

impl Split<View> for Deal {
    ghost use Rattle.market_lock.specs.Views.{one_more, next_pass};

    ghost left = { one_more };

    ghost right = { next_pass };
}

/// A pass's seat is taken back, and what it knew is kept.
pub(crate) struct Gather;

impl Join<View> for Gather {
    ghost use Rattle.market_lock.specs.declared.view.View.TheVariants.{Spent};
    ghost use Rattle.market_lock.specs.Views.{joined};

    ghost both = { joined };

    ghost spent = { Spent };
}

/// The table: one word, which tells whether the desk is at home, and one slot, in which it then lies.
pub(crate) type Shelf = Table<Desk, View, Terms, Lock, Global>;

/// A seat of the table. It takes no bytes.
pub(crate) type Place = Seat<Desk, View>;
