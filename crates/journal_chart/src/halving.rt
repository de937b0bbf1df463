//! A full chart is halved: each two columns become one, of a line as of a row.
ghost use Rattle.std.specs.Prelude.{◌≡◌};
ghost use Rattle.journal_chart.specs.Lines.{halved_with};

/// What stands in a place of a line, or of a row, and two of which can be made one.
pub(crate) trait Joins: Copy {
    // What says nothing, and what two say.
    ghost nothing: { Self };

    ghost both: { Self → Self → Self };

    /// What says nothing.
    fn nothing() -> Self
        ensures { result ≡ nothing };

    /// What both say.
    fn both(self, other: Self) -> Self
        ensures { result ≡ both self other };
}

/// Makes each two one, and puts as many that say nothing behind them: each is read once, and written at most once.
pub(crate) fn halve<C: Joins>(things: &mut [C])
    ensures { things.new ≡ halved_with C.both C.nothing things.old }
{
    let pairs = things.len() / 2;
    for place in 0..pairs {
        things[place] = things[2 * place].both(things[2 * place + 1]);
    }
    // Where their number is odd, the last has none beside it.
    let mut halves = pairs;
    if 2 * pairs < things.len() {
        things[pairs] = things[2 * pairs].both(C::nothing());
        halves = pairs + 1;
    }
    for place in halves..things.len() {
        // As of any two beyond the last: what two say that say nothing need not be known here.
        things[place] = C::nothing().both(C::nothing());
    }
}
