//! A side of a node: a smaller tree, or nothing.
ghost use Rattle.std.specs.Prelude.{◌≡◌, ◌+◌, ◌^◌, ◌<◌, [], length, IfNone, IfSome};
ghost use Rattle.std.specs.Bool.{OnTrue, OnFalse};
ghost use Rattle.market_types.specs.Rows.{requests};
ghost use Rattle.prefix_tree.specs.Nodes.{mandates, IsTopOf, OpensTo};

use crate::node::{Node, visit};
use std::marker::Model;
use std::mem;

/// A smaller tree or nothing, seen as its rows, newest first, and its height.
#[cycle(side)]
#[derive(Drop)]
pub(crate) struct Side {
    pub(crate) root: Option<Box<Node>>,
}

impl Model for Side {
    ghost use Rattle.std.specs.Prelude.{ℕ, List, length};
    ghost use Rattle.market_types.specs.declared.row.Row.{Row};

    ghost Value = { List Row × ℕ };

    ghost use Rattle.prefix_tree.specs.Nodes.{rows_of, height_of, IsSound};

    ghost view = { λ a. (rows_of a.root, height_of a.root) };

    ghost invariant = { λ a. IsSound a.root };

    ghost size = { λ side. length side.0 };

    ghost use Rattle.std.proofs.Common.{arith, length-append};

    ghost size_decreases = { λ a h. Prim.grind (arith, length-append) };
}

impl Side {
    /// No rows.
    pub(crate) fn new() -> Side
        ensures { result ≡ ([], 0) }
    {
        Side { root: None }
    }

    /// Enters the topmost node, where there is one, and counts it. Each search path goes from a side to its node by this call
    /// alone, and where it changes the side by `take_apart`, `set` or `update`.
    #[inline(always)]
    pub(crate) fn enter(&self, visits: &mut u32) -> Option<&Node>
        requires few { visits.old < 2 ^ 31 }
        ensures none { IfNone result (self.now ≡ ([], 0)) }
        ensures top { IfSome result (λ node. IsTopOf node.now self.now) }
        ensures counted { IfSome result (λ _. visits.new ≡ visits.old + 1) }
        ensures uncounted { IfNone result (visits.new ≡ visits.old) }
    {
        let node = self.root.as_ref()?;
        *visits = visit(*visits);
        Some(node)
    }

    // The next four read what the topmost node says of its rows, and enter it no further: no visit is counted.

    /// How many nodes the longest path down has.
    pub(crate) fn height(&self) -> u32
        ensures { result ≡ self.now.1 }
    {
        match &self.root {
            None => 0,
            Some(node) => node.height,
        }
    }

    /// How many rows.
    pub(crate) fn count(&self) -> u32
        ensures { result ≡ length self.now.0 }
    {
        match &self.root {
            None => 0,
            Some(node) => node.count,
        }
    }

    /// The sum of their requests.
    pub(crate) fn sum(&self) -> u32
        ensures { result ≡ requests self.now.0 }
    {
        match &self.root {
            None => 0,
            Some(node) => node.sum,
        }
    }

    /// How many of them are mandated.
    pub(crate) fn mandates(&self) -> u32
        ensures { result ≡ mandates self.now.0 }
    {
        match &self.root {
            None => 0,
            Some(node) => node.mandates,
        }
    }

    /// Whether there are no rows. It reads no node.
    pub(crate) fn is_empty(&self) -> bool
        ensures none { OnTrue result (length self.now.0 ≡ 0) }
        ensures some { OnFalse result (0 < length self.now.0) }
    {
        self.root.is_none()
    }

    /// The topmost node by itself, and its two sides. It counts nothing: a rotation calls it, or `take_apart`.
    pub(crate) fn open(self) -> (Box<Node>, Side, Side)
        requires { 0 < length self.0 }
        ensures { OpensTo self result.0.value.row result.1 result.2 }
    {
        let Some(mut node) = self.root else {
            unreachable!()
        };
        let left = mem::replace(&mut node.left, Side::new());
        let right = mem::replace(&mut node.right, Side::new());
        (node, left, right)
    }

    /// Enters the topmost node of a search path that changes the side, and counts it: `open` for such a path.
    pub(crate) fn take_apart(self, visits: &mut u32) -> (Box<Node>, Side, Side)
        requires some { 0 < length self.0 }
        requires few { visits.old < 2 ^ 31 }
        ensures opens { OpensTo self result.0.value.row result.1 result.2 }
        ensures counted { visits.new ≡ visits.old + 1 }
    {
        *visits = visit(*visits);
        self.open()
    }
}
