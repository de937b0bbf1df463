//! Reading a side: one way down from its topmost node.
ghost use Rattle.std.specs.Prelude.{◌≡◌, ◌<◌, ◌≤◌, length, slice_get};
ghost use Rattle.market_types.specs.Rows.{requests_above, first_mandated};
ghost use Rattle.prefix_tree.specs.Nodes.{IsSmall};

use crate::side::Side;
use market_types::Row;

impl Side {
    /// The sum of the requests of the rows that are newer than `stamp`.
    pub(crate) fn sum_before(&self, stamp: u32) -> (u64, u32)
        requires { IsSmall self.now }
        ensures sum { result.0 ≡ requests_above stamp self.now.0 }
        ensures entered { 0 < length self.now.0 → 1 ≤ result.1 }
        ensures visits { result.1 ≤ self.now.1 }
    {
        let mut before = 0u64;
        let mut visits = 0;
        let mut side = self;
        while let Some(node) = side.enter(&mut visits) {
            let newer = u64::from(node.newer);
            if stamp == node.row.stamp {
                return (before + newer, visits);
            }
            let passed = newer + u64::from(node.row.request);
            let (next, more) = if stamp < node.row.stamp {
                (&node.right, passed)
            } else {
                (&node.left, 0)
            };
            side = next;
            before += more;
        }
        (before, visits)
    }

    /// The row at an index of the list.
    pub(crate) fn walk(&self, index: usize) -> (Option<Row>, u32)
        requires { IsSmall self.now }
        ensures row { result.0 ≡ slice_get self.now.0 index }
        ensures entered { 0 < length self.now.0 → 1 ≤ result.1 }
        ensures visits { result.1 ≤ self.now.1 }
    {
        let mut rest = index;
        let mut visits = 0;
        let mut side = self;
        while let Some(node) = side.enter(&mut visits) {
            let before = node.left.count() as usize;
            if rest < before {
                side = &node.left;
            } else if before < rest {
                rest -= before + 1;
                side = &node.right;
            } else {
                return (Some(node.row), visits);
            }
        }
        (None, visits)
    }

    /// The first mandated row.
    pub(crate) fn first_mandated(&self) -> (Option<Row>, u32)
        requires { IsSmall self.now }
        ensures row { result.0 ≡ first_mandated self.now.0 }
        ensures entered { 0 < length self.now.0 → 1 ≤ result.1 }
        ensures visits { result.1 ≤ self.now.1 }
    {
        let mut visits = 0;
        let mut side = self;
        while let Some(node) = side.enter(&mut visits) {
            if node.left.mandates() > 0 {
                side = &node.left;
            } else if node.row.mandated {
                return (Some(node.row), visits);
            } else {
                side = &node.right;
            }
        }
        (None, visits)
    }
}
