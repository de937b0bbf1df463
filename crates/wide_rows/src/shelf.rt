//! A level with more than one leaf.
//!
//! ```text
//!   storeys    top: an entry a block; blocks: an entry a leaf      sums, counts and mandates of what is below
//!   leaves     [ 4 7 8 .. ] [ 30 31 .. ] .. [ 90 92 ]              16 rows or fewer each, the oldest leaf first
//! ```
//!
//! No leaf is empty, and two neighbours that have at most 12 rows together become one: so n rows stand in at most
//! `2 * (n / 13) + 1` leaves, and 1,024 in at most 157. A new row goes into the last leaf, or into a spare one behind it where that
//! is full; a row that goes leaves a gap in its own leaf alone. So a call touches one leaf, one block and the top.
//!
//! A visit is one binary digit of the number of keys of a node that is entered: a way down enters the top, a block and a leaf,
//! which is at least 4 visits, and at most twice the binary digits of the number of rows.
ghost use Rattle.std.specs.Prelude.{◌≡◌, ◌≢◌, ℕ, ◌+◌, ◌*◌, ◌/◌, ◌^◌, ◌<◌, ◌≤◌, List, [], ◌∷◌, ◌++◌, length, slice_get, Some, All, IfOk, IfSome, MatchOption, Box, true, false};
ghost use Rattle.market_types.specs.declared.row.Row.{Row};
ghost use Rattle.std.specs.Vec.{vec_capacity};
ghost use Rattle.std.specs.declared.alloc.Global.{Global};
ghost use Rattle.market_types.specs.Rows.{IsNewestFirst, HasLowRequests, requests_above, first_mandated, row_at, without, set_row};
ghost use Rattle.market_types.specs.Bits.{bits};
ghost use Rattle.wide_rows.specs.Shelves.{leaf_at, StandsAlone, FitTogether};

use crate::index::Change;
use crate::leaf::Leaf;
use crate::spans::{Leaves, Walk};
use crate::storeys::Storeys;
use crate::visits::enter;
use market_types::Row;
use std::alloc::{AllocError, Global};
use std::marker::Model;

/// The most leaves of a level.
pub(crate) const MOST_LEAVES: usize = 160;

/// Two neighbours that have no more rows together become one leaf.
pub(crate) const MERGED: usize = 12;

/// Leaves, the oldest first, under blocks of 16 and one more storey.
#[derive(Drop)]
pub(crate) struct Shelf {
    leaves: Vec<Box<Leaf>>,
    storeys: Storeys,
}

impl Model for Shelf {
    ghost use Rattle.wide_rows.specs.Shelves.{Shelved, shelved};
    ghost use Rattle.wide_rows.specs.Kept.{IsShelf};

    ghost Value = { Shelved };

    ghost view = { λ s. shelved s.leaves.items };

    ghost invariant = { IsShelf };
}

/// Whether a leaf and the next newer one are to become one: they have at most 12 rows together, or one has none.
#[inline]
fn are_few(leaves: &Vec<Box<Leaf>>, first: usize) -> bool
    requires there { first + 1 < length leaves.now.items }
    ensures together { result ≡ true → length (leaf_at leaves.now.items first) + length (leaf_at leaves.now.items (first + 1)) ≤ 16 }
    ensures apart { result ≡ false → 12 < length (leaf_at leaves.now.items first) + length (leaf_at leaves.now.items (first + 1)) }
    ensures some { result ≡ false → 0 < length (leaf_at leaves.now.items first) }
    ensures some_next { result ≡ false → 0 < length (leaf_at leaves.now.items (first + 1)) }
{
    let older = leaves[first].len();
    let newer = leaves[first + 1].len();
    if older == 0 {
        return true;
    }
    if newer == 0 {
        return true;
    }
    if older + newer <= MERGED {
        return true;
    }
    false
}

/// With which leaf one that has lost a row is to become one: the older of the two. None where it stays as it is.
#[inline]
fn partner(leaves: &Vec<Box<Leaf>>, place: usize) -> Option<usize>
    requires several { 1 < length leaves.now.items }
    requires there { place < length leaves.now.items }
    ensures { MatchOption result (StandsAlone leaves.now.items place) (FitTogether leaves.now.items place) }
{
    let count = leaves[place].len();
    if count > MERGED {
        return None;
    }
    if place + 1 < leaves.len() {
        if are_few(leaves, place) {
            return Some(place);
        }
        if place == 0 {
            return None;
        }
        if are_few(leaves, place - 1) {
            return Some(place - 1);
        }
        return None;
    }
    if are_few(leaves, place - 1) {
        return Some(place - 1);
    }
    None
}

/// A leaf takes over the rows of the next newer one, which comes back with none.
#[cold]
#[inline(never)]
fn merge(leaves: &mut Vec<Box<Leaf>>, place: usize) -> Box<Leaf>
    requires there { place + 1 < length leaves.old.items }
    requires room { length (leaf_at leaves.old.items (place + 1)) + length (leaf_at leaves.old.items place) ≤ 16 }
    requires newest { IsNewestFirst (leaf_at leaves.old.items (place + 1) ++ leaf_at leaves.old.items place) }
    ensures blank { result.value ≡ [] }
    ensures len { length leaves.new.items + 1 ≡ length leaves.old.items }
    ensures before { (other : ℕ) → other < place → leaf_at leaves.new.items other ≡ leaf_at leaves.old.items other }
    ensures here { leaf_at leaves.new.items place ≡ leaf_at leaves.old.items (place + 1) ++ leaf_at leaves.old.items place }
    ensures behind { (other : ℕ) → place < other → leaf_at leaves.new.items other ≡ leaf_at leaves.old.items (other + 1) }
    ensures capacity { vec_capacity leaves.new ≡ vec_capacity leaves.old }
{
    let mut gone = leaves.remove(place + 1);
    leaves[place].absorb(&gone);
    gone.clear();
    gone
}

impl Shelf {
    /// No leaves, and room for as many as a level can have.
    pub(crate) fn new(alloc: Global) -> Result<Shelf, AllocError>
        ensures { IfOk result (λ s. s ≡ record { rows = []; leaves = 0 }) }
    {
        Ok(Shelf {
            leaves: Vec::with_capacity(alloc, MOST_LEAVES)?,
            storeys: Storeys::new(),
        })
    }

    /// The sum of the requests of the rows whose stamp is above `stamp`.
    pub(crate) fn sum_above(&self, stamp: u32, visits: &mut u32) -> u32
        requires some { 1 < self.now.leaves }
        requires few { visits.old < 2 ^ 31 }
        ensures exact { result ≡ requests_above stamp self.now.rows }
        ensures least { visits.old + 4 ≤ visits.new }
        ensures visits { visits.new ≤ visits.old + 2 * bits (length self.now.rows) }
    {
        let top = &self.storeys.top;
        enter(top.len(), visits);
        let at = top.place(stamp);
        let block = &self.storeys.blocks[at];
        enter(block.len(), visits);
        let leaf = &self.leaves[at * 16 + block.place(stamp)];
        enter(leaf.len(), visits);
        top.sum_above(stamp) + block.sum_above(stamp) + leaf.sum_above(stamp)
    }

    /// The row at an index, the newest first.
    pub(crate) fn row(&self, index: usize, visits: &mut u32) -> Option<Row>
        requires some { 1 < self.now.leaves }
        requires few { visits.old < 2 ^ 31 }
        ensures exact { result ≡ slice_get self.now.rows index }
        ensures entered { visits.old + 1 ≤ visits.new }
        ensures least { IfSome result (λ _. visits.old + 4 ≤ visits.new) }
        ensures visits { visits.new ≤ visits.old + 2 * bits (length self.now.rows) }
    {
        enter(self.storeys.top.len(), visits);
        let (at, rest) = self.storeys.top.row_at(index)?;
        let block = &self.storeys.blocks[at];
        enter(block.len(), visits);
        let (place, rest) = block.row_at(rest)?;
        let leaf = &self.leaves[at * 16 + place];
        enter(leaf.len(), visits);
        leaf.row(rest)
    }

    /// The first mandated row.
    pub(crate) fn first_mandated(&self, visits: &mut u32) -> Option<Row>
        requires some { 1 < self.now.leaves }
        requires few { visits.old < 2 ^ 31 }
        ensures exact { result ≡ first_mandated self.now.rows }
        ensures entered { visits.old + 1 ≤ visits.new }
        ensures least { IfSome result (λ _. visits.old + 4 ≤ visits.new) }
        ensures visits { visits.new ≤ visits.old + 2 * bits (length self.now.rows) }
    {
        enter(self.storeys.top.len(), visits);
        let at = self.storeys.top.mandated()?;
        let block = &self.storeys.blocks[at];
        enter(block.len(), visits);
        let place = block.mandated()?;
        let leaf = &self.leaves[at * 16 + place];
        enter(leaf.len(), visits);
        leaf.first_mandated()
    }

    /// Sets the request and the mandate of the row with that stamp, which is looked for in the leaf at `near` first; `near` says
    /// then where it is.
    pub(crate) fn update(
        &mut self,
        row: &Row,
        request: u32,
        mandated: bool,
        near: &mut u8,
        visits: &mut u32,
    )
        requires some { 1 < self.old.leaves }
        requires request { request ≤ 65535 }
        requires there { row_at row.now.stamp self.old.rows ≡ Some row.now }
        requires few { visits.old < 2 ^ 31 }
        ensures changed { self.new ≡ record self.old { rows = set_row row.now.stamp request mandated self.old.rows } }
        ensures entered { visits.old + 1 ≤ visits.new }
        ensures far { near.new ≢ near.old → visits.old + 4 ≤ visits.new }
        ensures visits { visits.new ≤ visits.old + 2 * bits (length self.old.rows) }
    {
        let place = self
            .storeys
            .find_near(&self.leaves, row.stamp, usize::from(*near), visits);
        *near = place as u8;
        self.leaves[place].set(row.stamp, request, mandated);
        let change = Change {
            less: row.request,
            more: request,
            gone: 0,
            come: 0,
        };
        self.storeys.note(&self.leaves, place, change);
    }

    /// Adds a row that is newer than all others.
    pub(crate) fn push_newest(&mut self, row: &Row, spare: &mut Vec<Box<Leaf>>, visits: &mut u32)
        requires some { 1 < self.old.leaves }
        requires room { length self.old.rows < 1024 }
        requires request { row.now.request ≤ 65535 }
        requires newest { All (λ other. other.stamp < row.now.stamp) self.old.rows }
        requires spare { 0 < length spare.old.items }
        requires blank { All (λ (leaf : Box (List Row) Global). leaf.value ≡ []) spare.old.items }
        requires few { visits.old < 2 ^ 31 }
        ensures rows { self.new.rows ≡ row.now ∷ self.old.rows }
        ensures boxes { length spare.new.items + self.new.leaves ≡ length spare.old.items + self.old.leaves }
        ensures at_most_one { self.new.leaves ≤ self.old.leaves + 1 }
        ensures none_less { self.old.leaves ≤ self.new.leaves }
        ensures blank { All (λ (leaf : Box (List Row) Global). leaf.value ≡ []) spare.new.items }
        ensures capacity { vec_capacity spare.new ≡ vec_capacity spare.old }
        ensures entered { visits.old + 1 ≤ visits.new }
        ensures visits { visits.new ≤ visits.old + 2 * bits (length self.old.rows) + 1 }
    {
        let last = self.leaves.len() - 1;
        let count = self.leaves[last].len();
        if count < Leaf::MOST_ROWS {
            self.leaves[last].push_newest(row);
            enter(count + 1, visits);
            let change = Change {
                less: 0,
                more: row.request,
                gone: 0,
                come: 1,
            };
            self.storeys.note(&self.leaves, last, change);
        } else if let Some(mut leaf) = spare.pop() {
            leaf.push_newest(row);
            enter(1, visits);
            self.leaves.push_reserved(leaf);
            self.storeys.rebuild(&self.leaves, (last + 1) / 16);
        }
    }

    /// Takes the row with that stamp out.
    pub(crate) fn take(
        &mut self,
        stamp: u32,
        spare: &mut Vec<Box<Leaf>>,
        visits: &mut u32,
    ) -> Option<Row>
        requires some { 1 < self.old.leaves }
        requires room { length spare.old.items + self.old.leaves ≤ vec_capacity spare.old }
        requires blank { All (λ (leaf : Box (List Row) Global). leaf.value ≡ []) spare.old.items }
        requires few { visits.old < 2 ^ 31 }
        ensures taken { result ≡ row_at stamp self.old.rows }
        ensures rows { self.new.rows ≡ without stamp self.old.rows }
        ensures boxes { length spare.new.items + self.new.leaves ≡ length spare.old.items + self.old.leaves }
        ensures some { 0 < self.new.leaves }
        ensures blank { All (λ (leaf : Box (List Row) Global). leaf.value ≡ []) spare.new.items }
        ensures capacity { vec_capacity spare.new ≡ vec_capacity spare.old }
        ensures least { visits.old + 4 ≤ visits.new }
        ensures visits { visits.new ≤ visits.old + 2 * bits (length self.old.rows) }
    {
        let place = self.storeys.find(&self.leaves, stamp, visits);
        let row = self.leaves[place].take(stamp)?;
        let change = Change {
            less: row.request,
            more: 0,
            gone: 1,
            come: 0,
        };
        match partner(&self.leaves, place) {
            Some(first) => {
                let gone = merge(&mut self.leaves, first);
                self.storeys.rebuild(&self.leaves, first / 16);
                spare.push_reserved(gone);
                Some(row)
            }
            None => {
                self.storeys.note(&self.leaves, place, change);
                Some(row)
            }
        }
    }

    /// A walk through its rows.
    pub(crate) fn walk(&self) -> Walk<'_>
        requires some { 1 < self.now.leaves }
        ensures { result ≡ self.now.rows }
    {
        Walk::of_leaves(
            self.leaves[0].no_quads(),
            Leaves::new(&self.leaves, &self.storeys, self.leaves.len()),
        )
    }

    /// How many leaves.
    pub(crate) fn len(&self) -> usize
        ensures exact { result ≡ self.now.leaves }
        ensures few { self.now.leaves ≤ 2 * (length self.now.rows / 13) + 1 }
        ensures newest_first { IsNewestFirst self.now.rows }
        ensures low { HasLowRequests self.now.rows }
        ensures room { length self.now.rows ≤ 1024 }
    {
        self.leaves.len()
    }

    /// The first two leaves, of an empty shelf.
    pub(crate) fn begin(&mut self, older: Box<Leaf>, newer: Box<Leaf>)
        requires empty { self.old ≡ record { rows = []; leaves = 0 } }
        requires some { 0 < length older.value }
        requires some_newer { 0 < length newer.value }
        requires apart { 12 < length older.value + length newer.value }
        requires newest { IsNewestFirst (newer.value ++ older.value) }
        ensures { self.new ≡ record { rows = newer.value ++ older.value; leaves = 2 } }
    {
        // What holds of the rows of each leaf.
        let _older = older.len();
        let _newer = newer.len();
        self.leaves.push_reserved(older);
        self.leaves.push_reserved(newer);
        self.storeys.rebuild(&self.leaves, 0);
    }

    /// The only leaf that is left.
    pub(crate) fn only_leaf(&mut self) -> Box<Leaf>
        requires { self.old.leaves ≡ 1 }
        ensures rows { result.value ≡ self.old.rows }
        ensures empty { self.new ≡ record { rows = []; leaves = 0 } }
    {
        let Some(leaf) = self.leaves.pop() else {
            unreachable!()
        };
        leaf
    }
}
