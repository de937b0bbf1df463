//! One value for each level.
ghost use Rattle.std.specs.Prelude.{◌≡◌, ◌-◌, Some, slice_get};

use market_types::Level;

/// One value for each level that any market can have.
#[derive(Clone, Copy)]
pub struct ByLevel<T> {
    /// Level 1 first.
    pub values: [T; 8],
}

impl<T: Copy> ByLevel<T> {
    /// The value of a level.
    pub fn at(&self, level: Level) -> T
        ensures exact { slice_get self.now.values (level - 1) ≡ Some result }
    {
        self.values[level.index()]
    }
}
