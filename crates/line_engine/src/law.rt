//! What follows for every taker from its rule alone. These functions do nothing: what they ensure holds wherever they are
//! called.
ghost use Rattle.std.specs.Prelude.{◌≡◌, List, []};
ghost use Rattle.line_engine.specs.Lines.{Line};
ghost use Rattle.line_engine.specs.Rule.{replies_to};

use crate::taker::LineTaker;

/// A taker that answers each line by nothing answers any number of lines by nothing.
pub fn silence<A: LineTaker>()
    ensures { ((now : A.State) (line : Line) → A.rule.reply now line ≡ []) → (now : A.State) (lines : List Line) → replies_to A.rule now lines ≡ [] }
{}
