//! What is true of all histories. These functions do nothing: what they ensure holds wherever they are called.
ghost use Rattle.std.specs.Prelude.{◌≡◌, ℕ, ◌+◌, ◌<◌, ◌≤◌, List, length};
ghost use Rattle.market_types.specs.declared.command.Cmd.{Cmd};
ghost use Rattle.market_types.specs.State.{opening_to};
ghost use Rattle.market_types.specs.Step.{place_of};
ghost use Rattle.market_types.specs.History.{IsLegal, calls_of, state_after, place_in};
ghost use Rattle.market_types.specs.declared.reply.Entry.{Entry};
ghost use Rattle.edit_history.specs.Chronicled.{Chronicled};
ghost use Rattle.edit_history.specs.Places.{LacksPlaces};
ghost use Rattle.edit_history.specs.declared.part.Part.{Part};
ghost use Rattle.edit_history.specs.Parts.{AreInARow, joined};

/// In a legal history a seat is placed where its own entries say, whatever other seats do between.
pub fn own_entries_place_a_seat()
    ensures { (base hard seats levels last seat : ℕ) (history : List Entry)
        → IsLegal (opening_to base hard seats levels last) history → seat < seats
        → place_of (state_after (opening_to base hard seats levels last) (calls_of history)) seat ≡ place_in seat history }
{}

/// A chronicle that has forgotten all its entries, and has two places more than it has seats, has places for every call. It can
/// forget the first 18,446,744,073,708,503,039 entries of a history, and no later one.
pub fn a_forgetful_chronicle_is_never_full()
    ensures { (c : Chronicled) (seat : ℕ) (cmd : Cmd)
        → c.from ≡ length c.log → length c.start.seats + 2 ≤ c.places → LacksPlaces c seat cmd → ⊥ }
{}

/// Parts that stand in a history, each where the one before it ends, from its first entry to its last, are the history.
pub fn parts_in_a_row_are_the_history()
    ensures { (history : List Entry) (parts : List Part) → AreInARow 0 parts history → joined parts ≡ history }
{}
