//! Rows that stand together in a tree, for a walk in order that may pass over some.
ghost use Rattle.std.specs.Prelude.{◌≡◌, ◌+◌, ◌^◌, ◌<◌, [], ◌∷◌, ◌++◌, IfNone, IfSome};
ghost use Rattle.market_types.specs.Rows.{requests};

use crate::side::Side;
use market_types::Row;
use std::marker::Model;

/// Some rows of a tree that stand together in its list: those at and below a node. Contracts see a stretch as these rows,
/// newest first, and its height, the most nodes on a way down from it.
///
/// What its rows ask for together is known without entering a node, so that a walk can pass over all of them at once.
#[derive(Drop)]
pub struct Stretch<'a> {
    pub(crate) side: &'a Side,
    pub(crate) requests: u32,
}

/// A stretch that was entered.
#[derive(Drop)]
pub struct Parts<'a> {
    /// The rows before the topmost node's.
    pub newer: Stretch<'a>,
    /// The topmost node's row.
    pub row: &'a Row,
    /// The rows after it.
    pub older: Stretch<'a>,
}

impl<'a> Model for Stretch<'a> {
    ghost use Rattle.std.specs.Prelude.{ℕ, List};
    ghost use Rattle.market_types.specs.declared.row.Row.{Row};

    ghost Value = { List Row × ℕ };

    ghost use Rattle.prefix_tree.specs.Nodes.{IsStretch};

    ghost view = { λ a. a.side.now };

    ghost invariant = { λ a. IsStretch a.side.now a.requests };
}

impl<'a> Stretch<'a> {
    /// The sum of the requests of its rows.
    pub fn requests(&self) -> u64
        ensures exact { result ≡ requests self.now.0 }
    {
        u64::from(self.requests)
    }

    /// The same rows, for a walk that takes its stretches by value. Enters no node.
    pub fn again(&self) -> Stretch<'a>
        ensures same { result ≡ self.now }
    {
        Stretch {
            side: self.side,
            requests: self.requests,
        }
    }

    /// Enters its topmost node, and counts it: the rows before that node's, its row, and the rows after it. None where
    /// there are no rows.
    pub fn enter(&self, visits: &mut u32) -> Option<Parts<'a>>
        requires few { visits.old < 2 ^ 31 }
        ensures none { IfNone result (self.now ≡ ([], 0)) }
        ensures rows { IfSome result (λ parts. self.now.0 ≡ parts.newer.0 ++ parts.row.now ∷ parts.older.0) }
        ensures lower { IfSome result (λ parts. (parts.newer.1 < self.now.1) × (parts.older.1 < self.now.1)) }
        ensures counted { IfSome result (λ _. visits.new ≡ visits.old + 1) }
        ensures uncounted { IfNone result (visits.new ≡ visits.old) }
    {
        let node = self.side.enter(visits)?;
        let newer = Stretch {
            side: &node.left,
            requests: node.newer,
        };
        let older = Stretch {
            side: &node.right,
            requests: self.requests - node.newer - node.row.request,
        };
        Some(Parts {
            newer,
            row: &node.row,
            older,
        })
    }
}
