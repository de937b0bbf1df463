//! Making one side of a node and two sides, and the rotations that keep its two sides of nearly one height.
ghost use Rattle.std.specs.Prelude.{◌≡◌, ◌+◌, ◌∷◌, ◌++◌, max};
ghost use Rattle.prefix_tree.specs.Nodes.{AreNear, CanJoin, Balances, IsFilled};

use crate::node::{Node, one_if};
use crate::side::Side;

/// The node over two sides whose heights differ by one at most.
pub(crate) fn fork(mut node: Box<Node>, left: Side, right: Side) -> Side
    requires near { AreNear 1 left.1 right.1 }
    requires joins { CanJoin left node.value.row right }
    ensures rows { result.0 ≡ left.0 ++ node.value.row ∷ right.0 }
    ensures height { result.1 ≡ max left.1 right.1 + 1 }
    ensures filled { IsFilled result }
{
    let inner: &mut Node = &mut node;
    inner.height = left.height().max(right.height()) + 1;
    inner.count = left.count() + right.count() + 1;
    inner.newer = left.sum();
    inner.sum = inner.newer + right.sum() + inner.row.request;
    inner.mandates = left.mandates() + right.mandates() + one_if(inner.row.mandated);
    inner.left = left;
    inner.right = right;
    Side { root: Some(node) }
}

/// The node over two sides whose heights differ by two at most, rotated where they differ by two.
pub(crate) fn balance(node: Box<Node>, left: Side, right: Side) -> Side
    requires near { AreNear 2 left.1 right.1 }
    requires joins { CanJoin left node.value.row right }
    ensures balances { Balances left node.value.row right result }
{
    let (left_height, right_height) = (left.height(), right.height());
    if left_height > right_height + 1 {
        lean_left(node, left, right)
    } else if right_height > left_height + 1 {
        lean_right(node, left, right)
    } else {
        fork(node, left, right)
    }
}

/// The node over a left side that is two levels higher: its own topmost node, or the middle one, comes up.
fn lean_left(node: Box<Node>, left: Side, right: Side) -> Side
    requires higher { left.1 ≡ right.1 + 2 }
    requires joins { CanJoin left node.value.row right }
    ensures balances { Balances left node.value.row right result }
{
    let (top, outer, inner) = left.open();
    if outer.height() >= inner.height() {
        let low = fork(node, inner, right);
        fork(top, outer, low)
    } else {
        let (middle, near, far) = inner.open();
        let low = fork(node, far, right);
        fork(middle, fork(top, outer, near), low)
    }
}

/// The node over a right side that is two levels higher, the mirror of `lean_left`.
fn lean_right(node: Box<Node>, left: Side, right: Side) -> Side
    requires higher { right.1 ≡ left.1 + 2 }
    requires joins { CanJoin left node.value.row right }
    ensures balances { Balances left node.value.row right result }
{
    let (top, inner, outer) = right.open();
    if outer.height() >= inner.height() {
        let low = fork(node, left, inner);
        fork(top, low, outer)
    } else {
        let (middle, far, near) = inner.open();
        let low = fork(node, left, far);
        fork(middle, low, fork(top, near, outer))
    }
}
