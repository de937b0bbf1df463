//! How many threads there are.
ghost use Rattle.std.specs.Prelude.{◌<◌, ◌≤◌};

/// How many threads take part.
#[derive(Clone, Copy, PartialEq, Eq)]
pub enum Crowd {
    One,
    Two,
    Four,
}

impl Crowd {
    /// Each, as the table has them.
    pub const ALL: [Crowd; 3] = [Crowd::One, Crowd::Two, Crowd::Four];

    /// Their number.
    pub fn count(self) -> u8
        ensures { (0 < result) × (result ≤ 4) }
    {
        match self {
            Crowd::One => 1,
            Crowd::Two => 2,
            Crowd::Four => 4,
        }
    }
}
