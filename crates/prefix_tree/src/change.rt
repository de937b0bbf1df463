//! Changing a side: setting a row in place, putting a node in, taking one out.
ghost use Rattle.std.specs.Prelude.{◌≡◌, ◌+◌, ◌^◌, ◌<◌, ◌≤◌, ◌∷◌, length, Some};
ghost use Rattle.market_types.specs.Rows.{IsAbsent, insert_row, without, set_row, row_at};
ghost use Rattle.prefix_tree.specs.Nodes.{IsSmall, IsFilled, IsBetween, row_of};

use crate::balance::{balance, fork};
use crate::node::{Node, one_if, visit};
use crate::side::Side;
use market_types::Row;

impl Side {
    /// Sets the request and the mandate of the row with that stamp. Opens its node itself, and counts it: the node is lent
    /// for the change.
    pub(crate) fn set(&mut self, stamp: u32, request: u32, mandated: bool) -> u32
        requires small { IsSmall self.old }
        requires request { request < 2 ^ 31 }
        ensures rows { self.new.0 ≡ set_row stamp request mandated self.old.0 }
        ensures height { self.new.1 ≡ self.old.1 }
        ensures entered { 0 < length self.old.0 → 1 ≤ result }
        ensures visits { result ≤ self.old.1 }
    {
        let Some(node) = &mut self.root else { return 0 };
        if stamp < node.row.stamp {
            let (sum, mandates) = (node.right.sum(), node.right.mandates());
            let visits = node.right.set(stamp, request, mandated);
            node.sum = node.sum - sum + node.right.sum();
            node.mandates = node.mandates - mandates + node.right.mandates();
            return visit(visits);
        }
        if node.row.stamp < stamp {
            let (sum, mandates) = (node.left.sum(), node.left.mandates());
            let visits = node.left.set(stamp, request, mandated);
            node.newer = node.left.sum();
            node.sum = node.sum - sum + node.newer;
            node.mandates = node.mandates - mandates + node.left.mandates();
            return visit(visits);
        }
        node.sum = node.sum - node.row.request + request;
        node.mandates = node.mandates - one_if(node.row.mandated) + one_if(mandated);
        node.row.request = request;
        node.row.mandated = mandated;
        visit(0)
    }

    /// Sets the request and the mandate of a row that the side has, as it stands there, on one way down: nothing is left
    /// to do on the way back. Opens its node itself, and gives `visits` and one more for each.
    pub(crate) fn update(&mut self, row: &Row, request: u32, mandated: bool, visits: u32) -> u32
        requires small { IsSmall self.old }
        requires request { request < 2 ^ 31 }
        requires there { row_at row.now.stamp self.old.0 ≡ Some row.now }
        requires few { visits + self.old.1 < 2 ^ 31 }
        ensures rows { self.new.0 ≡ set_row row.now.stamp request mandated self.old.0 }
        ensures height { self.new.1 ≡ self.old.1 }
        ensures entered { visits + 1 ≤ result }
        ensures visits { result ≤ visits + self.old.1 }
    {
        let Some(node) = &mut self.root else {
            unreachable!()
        };
        let node: &mut Node = node;
        let visits = visit(visits);
        node.sum = node.sum - row.request + request;
        node.mandates = node.mandates - one_if(row.mandated) + one_if(mandated);
        if row.stamp < node.row.stamp {
            let visits = node.right.update(row, request, mandated, visits);
            // Shows the proof that the node is lent no longer.
            let _ = &node;
            return visits;
        }
        if node.row.stamp < row.stamp {
            node.newer = node.newer - row.request + request;
            let visits = node.left.update(row, request, mandated, visits);
            let _ = &node;
            return visits;
        }
        node.row.request = request;
        node.row.mandated = mandated;
        visits
    }

    /// Puts a node in its place. The new node is counted too.
    pub(crate) fn put(self, node: Box<Node>, visits: &mut u32) -> Side
        requires small { IsSmall self }
        requires request { node.value.row.request < 2 ^ 31 }
        requires absent { IsAbsent node.value.row.stamp self.0 }
        requires filled { IsFilled self }
        requires few { visits.old + self.1 < 2 ^ 31 }
        ensures rows { result.0 ≡ insert_row node.value.row self.0 }
        ensures height { IsBetween self.1 (self.1 + 1) result.1 }
        ensures filled { IsFilled result }
        ensures visits { IsBetween (visits.old + 1) (visits.old + self.1 + 1) visits.new }
    {
        if self.is_empty() {
            *visits = visit(*visits);
            return fork(node, Side::new(), Side::new());
        }
        let (here, left, right) = self.take_apart(visits);
        if node.row.stamp < here.row.stamp {
            let right = right.put(node, visits);
            balance(here, left, right)
        } else {
            let left = left.put(node, visits);
            balance(here, left, right)
        }
    }

    /// Takes the node with that stamp out.
    pub(crate) fn take(self, stamp: u32, visits: &mut u32) -> (Side, Option<Box<Node>>)
        requires small { IsSmall self }
        requires filled { IsFilled self }
        requires few { visits.old + self.1 < 2 ^ 31 }
        ensures rows { result.0.0 ≡ without stamp self.0 }
        ensures taken { row_of result.1 ≡ row_at stamp self.0 }
        ensures height { IsBetween result.0.1 (result.0.1 + 1) self.1 }
        ensures filled { IsFilled result.0 }
        ensures entered { 0 < length self.0 → visits.old + 1 ≤ visits.new }
        ensures visits { IsBetween visits.old (visits.old + self.1) visits.new }
    {
        if self.is_empty() {
            return (self, None);
        }
        let (here, left, right) = self.take_apart(visits);
        if stamp < here.row.stamp {
            let (right, taken) = right.take(stamp, visits);
            (balance(here, left, right), taken)
        } else if here.row.stamp < stamp {
            let (left, taken) = left.take(stamp, visits);
            (balance(here, left, right), taken)
        } else if right.is_empty() {
            (left, Some(here))
        } else {
            let (first, right) = right.take_first(visits);
            (balance(first, left, right), Some(here))
        }
    }

    /// Takes the node of the newest row out.
    fn take_first(self, visits: &mut u32) -> (Box<Node>, Side)
        requires small { IsSmall self }
        requires some { 0 < length self.0 }
        requires filled { IsFilled self }
        requires few { visits.old + self.1 < 2 ^ 31 }
        ensures rows { self.0 ≡ result.0.value.row ∷ result.1.0 }
        ensures height { IsBetween result.1.1 (result.1.1 + 1) self.1 }
        ensures filled { IsFilled result.1 }
        ensures visits { IsBetween (visits.old + 1) (visits.old + self.1) visits.new }
    {
        let (here, left, right) = self.take_apart(visits);
        if left.is_empty() {
            return (here, right);
        }
        let (first, left) = left.take_first(visits);
        (first, balance(here, left, right))
    }
}
