//! The tree, and its calls.
ghost use Rattle.std.specs.Prelude.{◌≡◌, ◌+◌, ◌*◌, ◌<◌, ◌≤◌, [], length, slice_get, is_ok, if◌then◌else◌, Some, IfSome, IfOk, OnOk};
ghost use Rattle.market_types.specs.Rows.{IsNewestFirst, IsAbsent, requests, requests_above, first_mandated, row_at, insert_row, without, set_row};
ghost use Rattle.prefix_tree.specs.Nodes.{row_of};
ghost use Rattle.market_types.specs.Bits.{bits};

use crate::node::Node;
use crate::side::Side;
use crate::stretch::Stretch;
use crate::taken::Taken;
use market_types::Row;
use std::alloc::{AllocError, Global};
use std::marker::Model;
use std::mem;

/// Rows by descending stamp, at most [`Tree::MOST_ROWS`] of them, each with a request of at most 65,535. Contracts see it
/// as the list of its rows, newest first.
///
/// A call on `n` rows enters at most twice as many nodes as `n` has binary digits, and one more where it puts a row
/// in. The last part of its answer is their number. Only `insert` takes memory. A walk in order through all rows goes by
/// [`Tree::whole`].
#[derive(Drop)]
pub struct Tree {
    root: Side,
}

impl Model for Tree {
    ghost use Rattle.std.specs.Prelude.{List};
    ghost use Rattle.market_types.specs.declared.row.Row.{Row};

    ghost Value = { List Row };

    ghost use Rattle.prefix_tree.specs.Nodes.{IsTree};

    ghost view = { λ a. a.root.0 };

    ghost invariant = { λ a. IsTree a.root };
}

const _: () = prove!(Tree::MOST_ROWS == 1024);

impl Tree {
    /// The most rows that a tree holds.
    pub const MOST_ROWS: usize = 1024;

    /// A tree with no rows, which takes no memory.
    pub fn new() -> Tree
        ensures exact { result ≡ [] }
    {
        Tree { root: Side::new() }
    }

    /// How many rows.
    pub fn len(&self) -> usize
        ensures exact { result ≡ length self.now }
        ensures most { length self.now ≤ 1024 }
        ensures newest_first { IsNewestFirst self.now }
    {
        self.root.count() as usize
    }

    /// The sum of all requests, in workers.
    pub fn total(&self) -> u64
        ensures exact { result ≡ requests self.now }
        ensures most { result ≤ 1024 * 65535 }
    {
        u64::from(self.root.sum())
    }

    /// The sum of the requests of the rows whose stamp is above `stamp`, which need not be that of a row.
    pub fn sum_before(&self, stamp: u32) -> (u64, u32)
        ensures exact { result.0 ≡ requests_above stamp self.now }
        ensures entered { 0 < length self.now → 1 ≤ result.1 }
        ensures visits { result.1 ≤ 2 * bits (length self.now) }
    {
        self.root.sum_before(stamp)
    }

    /// The row at an index of the list, from 0 on, None beyond its end.
    pub fn walk(&self, index: usize) -> (Option<Row>, u32)
        ensures exact { result.0 ≡ slice_get self.now index }
        ensures entered { 0 < length self.now → 1 ≤ result.1 }
        ensures visits { result.1 ≤ 2 * bits (length self.now) }
    {
        self.root.walk(index)
    }

    /// The first mandated row of the list.
    pub fn first_mandated(&self) -> (Option<Row>, u32)
        ensures exact { result.0 ≡ first_mandated self.now }
        ensures entered { 0 < length self.now → 1 ≤ result.1 }
        ensures visits { result.1 ≤ 2 * bits (length self.now) }
    {
        self.root.first_mandated()
    }

    /// All rows, for a walk in order that may pass over some: see [`Stretch`].
    pub fn whole(&self) -> Stretch<'_>
        ensures rows { result.0 ≡ self.now }
        ensures height { result.1 ≤ 2 * bits (length self.now) }
        ensures few { length self.now ≤ 1024 }
        ensures newest_first { IsNewestFirst self.now }
    {
        Stretch {
            side: &self.root,
            requests: self.root.sum(),
        }
    }

    /// Sets the request and the mandate of the row with that stamp, and leaves all others; nothing where no row has it. The
    /// market calls `update`; this is for a caller that knows the stamp alone.
    pub fn set(&mut self, stamp: u32, request: u32, mandated: bool) -> u32
        requires request { request ≤ 65535 }
        ensures rows { self.new ≡ set_row stamp request mandated self.old }
        ensures newest_first { IsNewestFirst self.new }
        ensures entered { 0 < length self.old → 1 ≤ result }
        ensures visits { result ≤ 2 * bits (length self.old) }
    {
        self.root.set(stamp, request, mandated)
    }

    /// Sets the request and the mandate of a row that the list has, as it stands there, and leaves all others. It is faster
    /// than `set`: what the row asked for is known on the way down.
    pub fn update(&mut self, row: Row, request: u32, mandated: bool) -> u32
        requires request { request ≤ 65535 }
        requires there { row_at row.stamp self.old ≡ Some row }
        ensures rows { self.new ≡ set_row row.stamp request mandated self.old }
        ensures newest_first { IsNewestFirst self.new }
        ensures entered { 1 ≤ result }
        ensures visits { result ≤ 2 * bits (length self.old) }
    {
        self.root.update(&row, request, mandated, 0)
    }

    /// Adds a row. An error says that memory ran out, and leaves the rows as they were.
    pub fn insert(&mut self, alloc: Global, row: Row) -> Result<u32, AllocError>
        requires room { length self.old < 1024 }
        requires request { row.request ≤ 65535 }
        requires absent { IsAbsent row.stamp self.old }
        ensures rows { self.new ≡ (if is_ok result then insert_row row self.old else self.old) }
        ensures newest_first { OnOk result (IsNewestFirst self.new) }
        ensures visits { IfOk result (λ visits. (1 ≤ visits) × (visits ≤ 2 * bits (length self.old) + 1)) }
    {
        let node = Box::new(alloc, Node::new(row))?;
        Ok(self.put(node))
    }

    /// Adds a row that was taken out of a tree, this one or another, under a stamp that may be new.
    pub fn put_node(&mut self, taken: Taken, stamp: u32) -> u32
        requires room { length self.old < 1024 }
        requires absent { IsAbsent stamp self.old }
        ensures rows { self.new ≡ insert_row (record taken { stamp = stamp }) self.old }
        ensures newest_first { IsNewestFirst self.new }
        ensures low { 1 ≤ result }
        ensures visits { result ≤ 2 * bits (length self.old) + 1 }
    {
        let mut node = taken.node;
        restamp(&mut node, stamp);
        self.put(node)
    }

    /// Takes the row with that stamp out, None where no row has it.
    pub fn take_node(&mut self, stamp: u32) -> (Option<Taken>, u32)
        ensures taken { result.0 ≡ row_at stamp self.old }
        ensures rows { self.new ≡ without stamp self.old }
        ensures newest_first { IsNewestFirst self.new }
        ensures absent { IsAbsent stamp self.new }
        ensures room { IfSome result.0 (λ _. length self.new < 1024) }
        ensures entered { 0 < length self.old → 1 ≤ result.1 }
        ensures visits { result.1 ≤ 2 * bits (length self.old) }
    {
        let (node, visits) = self.take(stamp);
        match node {
            None => (None, visits),
            Some(node) => (Some(Taken { node }), visits),
        }
    }

    /// Takes the node with that stamp out.
    fn take(&mut self, stamp: u32) -> (Option<Box<Node>>, u32)
        ensures taken { row_of result.0 ≡ row_at stamp self.old }
        ensures rows { self.new ≡ without stamp self.old }
        ensures newest_first { IsNewestFirst self.new }
        ensures absent { IsAbsent stamp self.new }
        ensures room { IfSome (row_of result.0) (λ _. length self.new < 1024) }
        ensures low { IfSome (row_of result.0) (λ row. row.request ≤ 65535) }
        ensures entered { 0 < length self.old → 1 ≤ result.1 }
        ensures visits { result.1 ≤ 2 * bits (length self.old) }
    {
        let root = mem::replace(&mut self.root, Side::new());
        let mut visits = 0;
        let (root, node) = root.take(stamp, &mut visits);
        self.root = root;
        (node, visits)
    }

    /// Puts a node in its place.
    fn put(&mut self, node: Box<Node>) -> u32
        requires room { length self.old < 1024 }
        requires request { node.value.row.request ≤ 65535 }
        requires absent { IsAbsent node.value.row.stamp self.old }
        ensures rows { self.new ≡ insert_row node.value.row self.old }
        ensures newest_first { IsNewestFirst self.new }
        ensures low { 1 ≤ result }
        ensures visits { result ≤ 2 * bits (length self.old) + 1 }
    {
        let root = mem::replace(&mut self.root, Side::new());
        let mut visits = 0;
        self.root = root.put(node, &mut visits);
        visits
    }
}

/// Gives a node's row another stamp.
fn restamp(node: &mut Node, stamp: u32)
    ensures { node.new.row ≡ record node.old.row { stamp = stamp } }
{
    node.row.stamp = stamp;
}
