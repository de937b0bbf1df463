//! Which levels' arenas are allotted what they were before an entry. Where those of one level alone are not, what it is given of what it asks for
//! is read once for all rows, in place of once a row.
ghost use Rattle.std.specs.Prelude.{◌≡◌, ◌<◌};
ghost use Rattle.journal_chart.specs.Unkept.{unkept_of};

use market_types::Level;

/// Of which levels the arenas may be allotted something else.
#[derive(Clone, Copy)]
pub(crate) enum Unkept {
    /// Of none.
    Nowhere,
    /// Of this alone.
    At(Level),
    /// Of whichever.
    Anywhere,
}

impl Unkept {
    /// Of none, of the one with this index, or of whichever, where so many are not kept, of which that is the last.
    #[inline(always)]
    pub(crate) fn of(count: usize, last: usize) -> Unkept
        requires { last < 8 }
        ensures { result ≡ unkept_of count last }
    {
        match count {
            0 => Unkept::Nowhere,
            1 => Unkept::At(Level::from_index(last)),
            _ => Unkept::Anywhere,
        }
    }
}
