//! One level's rows: none, a leaf, or a shelf of leaves.
//!
//! ```text
//!   Empty      no rows                       no box
//!   Leaf       1 to 16 rows                  [ 7 9 12 .. ]
//!   Shelf      13 rows or more               ( [ 1 4 .. ] [ 30 31 .. ] .. [ 88 90 ] )    two leaves or more, the oldest first
//!   total      what all its rows ask for, so that a level's demand is one read
//! ```
//!
//! A row that finds the one leaf full opens a second beside it, and both stand on a shelf. A row that goes from the last but one
//! leaf gives the shelf up again, and the last row of a leaf its leaf. Boxes come from the spare ones and go back to them, so
//! nothing here takes memory.
ghost use Rattle.std.specs.Prelude.{◌≡◌, ◌≢◌, ℕ, ◌+◌, ◌*◌, ◌^◌, ◌<◌, ◌≤◌, ◌==◌, [], ◌∷◌, length, slice_get, Some, All, IfNone, IfSome};
ghost use Rattle.market_types.specs.declared.row.Row.{Row};
ghost use Rattle.market_types.specs.Rows.{requests, requests_above, first_mandated, row_at, without, set_row};
ghost use Rattle.market_types.specs.Bits.{bits};
ghost use Rattle.wide_rows.specs.Leveled.{IsLevel, HasFewBoxes};
ghost use Rattle.wide_rows.specs.Forms.{leveled, IsFullLeaf, IsIdle};
ghost use Rattle.wide_rows.specs.Ways.{least_way, least_node, least_put};

use crate::leaf::Leaf;
use crate::shelf::Shelf;
use crate::spans::Walk;
use crate::spare::Spare;
use crate::visits::enter;
use market_types::Row;
use std::marker::Model;
use std::mem;

/// Where the rows stand.
#[derive(Drop)]
pub(crate) enum Form {
    Empty,
    Leaf(Box<Leaf>),
    Shelf(Box<Shelf>),
}

/// One level's rows.
#[derive(Drop)]
pub(crate) struct Level {
    form: Form,
    /// What they ask for.
    total: u32,
}

impl Model for Level {
    ghost use Rattle.wide_rows.specs.Leveled.{Leveled};

    ghost Value = { Leveled };

    ghost use Rattle.wide_rows.specs.Forms.{leveled, IsForm};

    ghost view = { λ level. leveled level.form };

    ghost invariant = { λ level. IsForm level.form level.total };
}

impl Level {
    /// No rows, which take no box.
    pub(crate) fn new() -> Level
        ensures { result ≡ record { rows = []; leaves = 0; shelves = 0 } }
    {
        Level {
            form: Form::Empty,
            total: 0,
        }
    }

    /// The sum of all requests.
    #[inline(always)]
    pub(crate) fn total(&self) -> u32
        ensures exact { result ≡ requests self.now.rows }
        ensures most { result ≤ 1024 * 65535 }
    {
        self.total
    }

    /// The sum of the requests of the rows whose stamp is above `stamp`.
    #[inline(always)]
    pub(crate) fn sum_above(&self, stamp: u32, visits: &mut u32) -> u32
        requires few { visits.old < 2 ^ 31 }
        ensures exact { result ≡ requests_above stamp self.now.rows }
        ensures least { visits.old + least_way (length self.now.rows) ≤ visits.new }
        ensures alone { length self.now.rows ≤ 12 → visits.new ≡ visits.old + bits (length self.now.rows) }
        ensures visits { visits.new ≤ visits.old + 2 * bits (length self.now.rows) }
    {
        match &self.form {
            Form::Empty => 0,
            Form::Leaf(leaf) => {
                enter(leaf.len(), visits);
                leaf.sum_above(stamp)
            }
            Form::Shelf(shelf) => shelf.sum_above(stamp, visits),
        }
    }

    /// The row at an index, the newest first.
    pub(crate) fn row(&self, index: usize, visits: &mut u32) -> Option<Row>
        requires few { visits.old < 2 ^ 31 }
        ensures exact { result ≡ slice_get self.now.rows index }
        ensures entered { visits.old + least_node (length self.now.rows) ≤ visits.new }
        ensures least { IfSome result (λ _. visits.old + least_way (length self.now.rows) ≤ visits.new) }
        ensures alone { length self.now.rows ≤ 12 → visits.new ≡ visits.old + bits (length self.now.rows) }
        ensures visits { visits.new ≤ visits.old + 2 * bits (length self.now.rows) }
    {
        match &self.form {
            Form::Empty => None,
            Form::Leaf(leaf) => {
                enter(leaf.len(), visits);
                leaf.row(index)
            }
            Form::Shelf(shelf) => shelf.row(index, visits),
        }
    }

    /// The first mandated row.
    pub(crate) fn first_mandated(&self, visits: &mut u32) -> Option<Row>
        requires few { visits.old < 2 ^ 31 }
        ensures exact { result ≡ first_mandated self.now.rows }
        ensures entered { visits.old + least_node (length self.now.rows) ≤ visits.new }
        ensures least { IfSome result (λ _. visits.old + least_way (length self.now.rows) ≤ visits.new) }
        ensures alone { length self.now.rows ≤ 12 → visits.new ≡ visits.old + bits (length self.now.rows) }
        ensures visits { visits.new ≤ visits.old + 2 * bits (length self.now.rows) }
    {
        match &self.form {
            Form::Empty => None,
            Form::Leaf(leaf) => {
                enter(leaf.len(), visits);
                leaf.first_mandated()
            }
            Form::Shelf(shelf) => shelf.first_mandated(visits),
        }
    }

    /// The row of a level that has one. None where it has none, or several.
    #[inline(always)]
    pub(crate) fn only(&self) -> Option<Row>
        ensures some { IfSome result (λ row. self.now.rows ≡ row ∷ []) }
        ensures none { IfNone result (length self.now.rows ≢ 1) }
    {
        match &self.form {
            Form::Leaf(leaf) => leaf.only(),
            Form::Empty | Form::Shelf(_) => None,
        }
    }

    /// Whether it has one row alone.
    #[inline(always)]
    pub(crate) fn has_one(&self) -> bool
        ensures { result ≡ (length self.now.rows == 1) }
    {
        self.only().is_some()
    }

    /// Whether it has no rows.
    #[inline(always)]
    pub(crate) fn is_empty(&self) -> bool
        ensures { result ≡ (length self.now.rows == 0) }
    {
        matches!(&self.form, Form::Empty)
    }

    /// Its only row gets this stamp, as if it were taken out and put in again.
    #[inline(always)]
    pub(crate) fn restamp(&mut self, stamp: u32, visits: &mut u32)
        requires one { length self.old.rows ≡ 1 }
        requires few { visits.old < 2 ^ 31 }
        ensures rows { (row : Row) → self.old.rows ≡ row ∷ [] → self.new ≡ record self.old { rows = record row { stamp = stamp } ∷ [] } }
        ensures visits { visits.new ≡ visits.old + 2 }
    {
        if let Form::Leaf(leaf) = &mut self.form {
            enter(leaf.len(), visits);
            leaf.restamp(stamp);
            enter(leaf.len(), visits);
        }
    }

    /// A walk through its rows. None where there are none.
    #[inline(always)]
    pub(crate) fn walk(&self) -> Option<Walk<'_>>
        ensures none { IfNone result (self.now.rows ≡ []) }
        ensures all { IfSome result (λ rows. rows ≡ self.now.rows) }
    {
        match &self.form {
            Form::Empty => None,
            Form::Leaf(leaf) => Some(Walk::of_leaf(leaf.quads())),
            Form::Shelf(shelf) => Some(shelf.walk()),
        }
    }

    /// Sets the request and the mandate of the row with that stamp. `near` says in which leaf it was seen last, and saves time
    /// where it is still there.
    #[inline(always)]
    pub(crate) fn update(
        &mut self,
        row: &Row,
        request: u32,
        mandated: bool,
        near: &mut u8,
        visits: &mut u32,
    )
        requires request { request ≤ 65535 }
        requires there { row_at row.now.stamp self.old.rows ≡ Some row.now }
        requires few { visits.old < 2 ^ 31 }
        ensures changed { self.new ≡ record self.old { rows = set_row row.now.stamp request mandated self.old.rows } }
        ensures sound { IsLevel self.new }
        ensures least { visits.old + least_node (length self.old.rows) ≤ visits.new }
        ensures far { near.new ≢ near.old → visits.old + least_way (length self.old.rows) ≤ visits.new }
        ensures alone { length self.old.rows ≤ 12 → visits.new ≡ visits.old + bits (length self.old.rows) }
        ensures visits { visits.new ≤ visits.old + 2 * bits (length self.old.rows) }
    {
        self.total = self.total - row.request + request;
        match &mut self.form {
            Form::Empty => {}
            Form::Leaf(leaf) => {
                enter(leaf.len(), visits);
                leaf.set(row.stamp, request, mandated);
            }
            Form::Shelf(shelf) => shelf.update(row, request, mandated, near, visits),
        }
    }

    /// Adds a row that is newer than all others.
    // In its callers, as `take` is: each spares a Priority among other rows some 30 instructions.
    #[inline(always)]
    pub(crate) fn push(&mut self, row: &Row, spare: &mut Spare, visits: &mut u32)
        requires room { length self.old.rows < 1024 }
        requires request { row.now.request ≤ 65535 }
        requires newest { All (λ other. other.stamp < row.now.stamp) self.old.rows }
        requires leaf { 0 < spare.old.leaves }
        requires shelf { 13 ≤ length self.old.rows → self.old.shelves ≡ 0 → 0 < spare.old.shelves }
        requires made { spare.old.leaves + self.old.leaves ≤ spare.old.made_leaves }
        requires few { visits.old < 2 ^ 31 }
        ensures rows { self.new.rows ≡ row.now ∷ self.old.rows }
        ensures leaves { spare.new.leaves + self.new.leaves ≡ spare.old.leaves + self.old.leaves }
        ensures shelves { spare.new.shelves + self.new.shelves ≡ spare.old.shelves + self.old.shelves }
        ensures made_leaves { spare.new.made_leaves ≡ spare.old.made_leaves }
        ensures made_shelves { spare.new.made_shelves ≡ spare.old.made_shelves }
        ensures sound { IsLevel self.new }
        ensures least { visits.old + least_put (length self.old.rows) ≤ visits.new }
        ensures alone { length self.old.rows ≤ 12 → visits.new ≡ visits.old + bits (length self.old.rows + 1) }
        ensures visits { visits.new ≤ visits.old + 2 * bits (length self.old.rows) + 1 }
    {
        self.total += row.request;
        match &mut self.form {
            Form::Empty => {
                let mut leaf = spare.take_leaf();
                leaf.push_newest(row);
                enter(1, visits);
                self.form = Form::Leaf(leaf);
            }
            Form::Leaf(leaf) => {
                if leaf.len() < Leaf::MOST_ROWS {
                    leaf.push_newest(row);
                    enter(leaf.len(), visits);
                } else {
                    open_shelf(&mut self.form, row, spare, visits);
                }
            }
            Form::Shelf(shelf) => {
                shelf.push_newest(row, &mut spare.leaves, visits);
                // That its leaves stay few is a fact of every shelf.
                let _leaves = shelf.len();
            }
        }
    }

    /// Takes the row with that stamp out, None where no row has it.
    #[inline(always)]
    pub(crate) fn take(&mut self, stamp: u32, spare: &mut Spare, visits: &mut u32) -> Option<Row>
        requires leaves { spare.old.leaves + self.old.leaves ≤ spare.old.made_leaves }
        requires shelves { spare.old.shelves + self.old.shelves ≤ spare.old.made_shelves }
        requires few { visits.old < 2 ^ 31 }
        ensures taken { result ≡ row_at stamp self.old.rows }
        ensures rows { self.new.rows ≡ without stamp self.old.rows }
        ensures leaves { spare.new.leaves + self.new.leaves ≡ spare.old.leaves + self.old.leaves }
        ensures shelves { spare.new.shelves + self.new.shelves ≡ spare.old.shelves + self.old.shelves }
        ensures made_leaves { spare.new.made_leaves ≡ spare.old.made_leaves }
        ensures made_shelves { spare.new.made_shelves ≡ spare.old.made_shelves }
        ensures sound { IsLevel self.new }
        ensures least { visits.old + least_way (length self.old.rows) ≤ visits.new }
        ensures alone { length self.old.rows ≤ 12 → visits.new ≡ visits.old + bits (length self.old.rows) }
        ensures visits { visits.new ≤ visits.old + 2 * bits (length self.old.rows) }
    {
        let row = take_from(&mut self.form, stamp, spare, visits)?;
        self.total -= row.request;
        Some(row)
    }
}

/// A second leaf is opened beside the first, which is full, and both stand on a shelf.
#[cold]
#[inline(never)]
fn open_shelf(form: &mut Form, row: &Row, spare: &mut Spare, visits: &mut u32)
    requires full { IsFullLeaf form.old }
    requires request { row.now.request ≤ 65535 }
    requires newest { All (λ other. other.stamp < row.now.stamp) (leveled form.old).rows }
    requires leaf { 0 < spare.old.leaves }
    requires shelf { 0 < spare.old.shelves }
    requires made { spare.old.leaves + 1 ≤ spare.old.made_leaves }
    requires few { visits.old < 2 ^ 31 }
    ensures boxes { HasFewBoxes (leveled form.new) }
    ensures rows { (leveled form.new).rows ≡ row.now ∷ (leveled form.old).rows }
    ensures leaves { spare.new.leaves + (leveled form.new).leaves ≡ spare.old.leaves + (leveled form.old).leaves }
    ensures shelves { spare.new.shelves + (leveled form.new).shelves ≡ spare.old.shelves + (leveled form.old).shelves }
    ensures made_leaves { spare.new.made_leaves ≡ spare.old.made_leaves }
    ensures made_shelves { spare.new.made_shelves ≡ spare.old.made_shelves }
    ensures entered { visits.old + 1 ≤ visits.new }
    ensures visits { visits.new ≤ visits.old + 2 * bits (length (leveled form.old).rows) + 1 }
{
    let Form::Leaf(leaf) = mem::replace(form, Form::Empty) else {
        unreachable!()
    };
    // That the rows of a leaf stand in order is a fact of every leaf.
    let _rows = leaf.len();
    let mut newer = spare.take_leaf();
    newer.push_newest(row);
    enter(newer.len(), visits);
    let mut shelf = spare.take_shelf();
    shelf.begin(leaf, newer);
    *form = Form::Shelf(shelf);
}

/// Takes the row with that stamp out. An empty leaf, and a shelf of one leaf, are given up.
#[inline(always)]
fn take_from(form: &mut Form, stamp: u32, spare: &mut Spare, visits: &mut u32) -> Option<Row>
    requires sound { IsLevel (leveled form.old) }
    requires leaves { spare.old.leaves + (leveled form.old).leaves ≤ spare.old.made_leaves }
    requires shelves { spare.old.shelves + (leveled form.old).shelves ≤ spare.old.made_shelves }
    requires few { visits.old < 2 ^ 31 }
    ensures taken { result ≡ row_at stamp (leveled form.old).rows }
    ensures rows { (leveled form.new).rows ≡ without stamp (leveled form.old).rows }
    ensures boxes { HasFewBoxes (leveled form.new) }
    ensures leaves { spare.new.leaves + (leveled form.new).leaves ≡ spare.old.leaves + (leveled form.old).leaves }
    ensures shelves { spare.new.shelves + (leveled form.new).shelves ≡ spare.old.shelves + (leveled form.old).shelves }
    ensures made_leaves { spare.new.made_leaves ≡ spare.old.made_leaves }
    ensures made_shelves { spare.new.made_shelves ≡ spare.old.made_shelves }
    ensures least { visits.old + least_way (length (leveled form.old).rows) ≤ visits.new }
    ensures alone { length (leveled form.old).rows ≤ 12 → visits.new ≡ visits.old + bits (length (leveled form.old).rows) }
    ensures visits { visits.new ≤ visits.old + 2 * bits (length (leveled form.old).rows) }
{
    match form {
        Form::Empty => None,
        Form::Leaf(leaf) => {
            enter(leaf.len(), visits);
            let row = leaf.take(stamp);
            if leaf.len() == 0 {
                give_up(form, spare);
            }
            row
        }
        Form::Shelf(shelf) => {
            let row = shelf.take(stamp, &mut spare.leaves, visits);
            if shelf.len() == 1 {
                give_up(form, spare);
            }
            row
        }
    }
}

/// An empty leaf goes, or a shelf gives its only leaf.
#[cold]
#[inline(never)]
fn give_up(form: &mut Form, spare: &mut Spare)
    requires idle { IsIdle form.old }
    requires leaves { spare.old.leaves + (leveled form.old).leaves ≤ spare.old.made_leaves }
    requires shelves { spare.old.shelves + (leveled form.old).shelves ≤ spare.old.made_shelves }
    ensures boxes { HasFewBoxes (leveled form.new) }
    ensures rows { (leveled form.new).rows ≡ (leveled form.old).rows }
    ensures leaves { spare.new.leaves + (leveled form.new).leaves ≡ spare.old.leaves + (leveled form.old).leaves }
    ensures shelves { spare.new.shelves + (leveled form.new).shelves ≡ spare.old.shelves + (leveled form.old).shelves }
    ensures made_leaves { spare.new.made_leaves ≡ spare.old.made_leaves }
    ensures made_shelves { spare.new.made_shelves ≡ spare.old.made_shelves }
{
    match mem::replace(form, Form::Empty) {
        Form::Empty => {}
        Form::Leaf(leaf) => spare.give_leaf(leaf),
        Form::Shelf(mut shelf) => {
            *form = Form::Leaf(shelf.only_leaf());
            spare.give_shelf(shelf);
        }
    }
}
