//! Boxes for the nodes that rows may come to need.
//!
//! ```text
//!   leaves    [    ] [    ] [    ]      with no rows       room in the vector for all leaves that were made
//!   shelves   ( ) ( )                   with no leaves     room for all shelves
//!   made      how many there are of each, those that levels use included
//! ```
//!
//! A box comes out of a vector and goes back into one that has room for it, so neither takes memory: only `reserve` does.
//! Why enough were made stands in the head of `levels`.
ghost use Rattle.std.specs.Prelude.{◌≡◌, ◌+◌, ◌-◌, ◌*◌, ◌^◌, ◌<◌, ◌≤◌, [], OnOk, OnErr};
ghost use Rattle.wide_rows.specs.Leveled.{leaves_for, shelves_for};

use crate::leaf::Leaf;
use crate::shelf::Shelf;
use std::alloc::{AllocError, Global};
use std::marker::Model;

/// Boxes that no level uses. There are enough of them that a row which is moved finds what it needs.
#[derive(Drop)]
pub(crate) struct Spare {
    pub(crate) leaves: Vec<Box<Leaf>>,
    pub(crate) shelves: Vec<Box<Shelf>>,
    /// How many leaves there are, used and spare.
    made_leaves: usize,
    /// How many shelves there are.
    made_shelves: usize,
}

impl Model for Spare {
    ghost use Rattle.std.specs.Prelude.{length};
    ghost use Rattle.wide_rows.specs.Leveled.{Boxes};
    ghost use Rattle.wide_rows.specs.Spares.{AreSpare};

    ghost Value = { Boxes };

    ghost view = { λ s. record { leaves = length s.leaves.items; shelves = length s.shelves.items; made_leaves = s.made_leaves; made_shelves = s.made_shelves } };

    ghost invariant = { λ s. AreSpare s.leaves s.shelves s.made_leaves s.made_shelves };
}

/// The most leaves that so many rows use at eight levels: two neighbours have 13 rows or more together, and each level may have
/// one that stands alone.
fn leaves_for(rows: usize) -> usize
    requires few { rows ≤ 1024 }
    ensures { result ≡ leaves_for rows }
{
    rows / 13 * 2 + rows.min(8)
}

/// The most shelves that so many rows use at eight levels: one for each level with two leaves, which has 13 rows or more.
fn shelves_for(rows: usize) -> usize
    ensures { result ≡ shelves_for rows }
{
    (rows / 13).min(8)
}

impl Spare {
    /// None are made, and no memory is taken.
    pub(crate) fn new(alloc: Global) -> Spare
        ensures { result ≡ record { leaves = 0; shelves = 0; made_leaves = 0; made_shelves = 0 } }
    {
        Spare {
            leaves: Vec::new(alloc),
            shelves: Vec::new(alloc),
            made_leaves: 0,
            made_shelves: 0,
        }
    }

    /// Makes what so many rows may need, and one leaf more. What it makes before memory runs out stays.
    #[inline]
    pub(crate) fn reserve(&mut self, alloc: Global, rows: usize) -> Result<(), AllocError>
        requires few { rows ≤ 1024 }
        ensures leaves { self.new.leaves + self.old.made_leaves ≡ self.old.leaves + self.new.made_leaves }
        ensures shelves { self.new.shelves + self.old.made_shelves ≡ self.old.shelves + self.new.made_shelves }
        ensures more_leaves { self.old.made_leaves ≤ self.new.made_leaves }
        ensures more_shelves { self.old.made_shelves ≤ self.new.made_shelves }
        ensures enough_leaves { OnOk result (leaves_for rows + 1 ≤ self.new.made_leaves) }
        ensures enough_shelves { OnOk result (shelves_for rows ≤ self.new.made_shelves) }
    {
        while self.made_leaves <= leaves_for(rows) {
            self.make_leaf(alloc)?;
        }
        while self.made_shelves < shelves_for(rows) {
            self.make_shelf(alloc)?;
        }
        Ok(())
    }

    /// One leaf more, which is spare.
    #[cold]
    #[inline(never)]
    fn make_leaf(&mut self, alloc: Global) -> Result<(), AllocError>
        requires few { self.old.made_leaves < 2 ^ 32 }
        ensures made { OnOk result (self.new ≡ record self.old { leaves = self.old.leaves + 1; made_leaves = self.old.made_leaves + 1 }) }
        ensures unchanged { OnErr result (self.new ≡ self.old) }
    {
        let room = self.made_leaves + 1 - self.leaves.len();
        self.leaves.reserve(room)?;
        let made = Box::new(alloc, Leaf::new())?;
        self.leaves.push_reserved(made);
        self.made_leaves += 1;
        Ok(())
    }

    /// One shelf more, which is spare.
    #[cold]
    #[inline(never)]
    fn make_shelf(&mut self, alloc: Global) -> Result<(), AllocError>
        requires few { self.old.made_shelves < 2 ^ 32 }
        ensures made { OnOk result (self.new ≡ record self.old { shelves = self.old.shelves + 1; made_shelves = self.old.made_shelves + 1 }) }
        ensures unchanged { OnErr result (self.new ≡ self.old) }
    {
        let room = self.made_shelves + 1 - self.shelves.len();
        self.shelves.reserve(room)?;
        let made = Box::new(alloc, Shelf::new(alloc)?)?;
        self.shelves.push_reserved(made);
        self.made_shelves += 1;
        Ok(())
    }

    /// A leaf with no rows.
    #[inline]
    pub(crate) fn take_leaf(&mut self) -> Box<Leaf>
        requires some { 0 < self.old.leaves }
        ensures blank { result.value ≡ [] }
        ensures less { self.new ≡ record self.old { leaves = self.old.leaves - 1 } }
    {
        let Some(leaf) = self.leaves.pop() else {
            unreachable!()
        };
        leaf
    }

    /// A leaf with no rows comes back.
    #[inline]
    pub(crate) fn give_leaf(&mut self, leaf: Box<Leaf>)
        requires blank { leaf.value ≡ [] }
        requires room { self.old.leaves < self.old.made_leaves }
        ensures more { self.new ≡ record self.old { leaves = self.old.leaves + 1 } }
    {
        self.leaves.push_reserved(leaf);
    }

    /// A shelf with no leaves.
    pub(crate) fn take_shelf(&mut self) -> Box<Shelf>
        requires some { 0 < self.old.shelves }
        ensures empty { result.value ≡ record { rows = []; leaves = 0 } }
        ensures less { self.new ≡ record self.old { shelves = self.old.shelves - 1 } }
    {
        let Some(shelf) = self.shelves.pop() else {
            unreachable!()
        };
        shelf
    }

    /// A shelf with no leaves comes back.
    pub(crate) fn give_shelf(&mut self, shelf: Box<Shelf>)
        requires empty { shelf.value ≡ record { rows = []; leaves = 0 } }
        requires room { self.old.shelves < self.old.made_shelves }
        ensures more { self.new ≡ record self.old { shelves = self.old.shelves + 1 } }
    {
        self.shelves.push_reserved(shelf);
    }
}
