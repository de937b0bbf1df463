//! What a shelf knows of its leaves: ten blocks of up to 16 leaves each, and one storey over the blocks.
//!
//! ```text
//!   top          entry 0         entry 1        ..      an entry for each block in use
//!   blocks       block 0         block 1        ..      an entry for each leaf of it
//!   leaves     0 1 2 .. 15     16 17 .. 31      ..      the oldest first
//! ```
//!
//! A search goes down the top, one block and one leaf, each without a branch that is guessed. The `oldest` of the very first
//! leaf counts as 0, and that of a block is its first leaf's, so there is always a lane to go down.
ghost use Rattle.std.specs.Prelude.{◌≡◌, ◌≢◌, ℕ, ◌+◌, ◌/◌, ◌^◌, ◌<◌, ◌≤◌, List, [], length, min, All};
ghost use Rattle.market_types.specs.declared.row.Row.{Row};
ghost use Rattle.market_types.specs.Bits.{bits};
ghost use Rattle.market_types.specs.Rows.{requests};
ghost use Rattle.wide_rows.specs.Joined.{IsAt};
ghost use Rattle.wide_rows.specs.Shelves.{leaf_at, AreLeaves};
ghost use Rattle.wide_rows.specs.Storeys.{IsBlock, IsIndexed, IsKnown, WasIndexed, block_at, blocks_for, has_mandated, lanes};

use crate::index::{Change, Entry, Index};
use crate::leaf::Leaf;
use crate::visits::enter;

/// What is known of up to 160 leaves.
#[derive(Drop)]
pub(crate) struct Storeys {
    pub(crate) blocks: [Index; 10],
    pub(crate) top: Index,
}

/// At most the stamps of the rows of the leaf at a place, and above all older ones: the oldest of them, and 0 for the first leaf.
fn oldest_of(leaves: &Vec<Box<Leaf>>, place: usize) -> u32
    requires leaves { AreLeaves leaves.now.items }
    requires there { place < length leaves.now.items }
    ensures first { place ≡ 0 → result ≡ 0 }
    ensures least { All (λ row. result ≤ row.stamp) (leaf_at leaves.now.items place) }
    ensures older { (older : ℕ) → older < place → All (λ row. row.stamp < result) (leaf_at leaves.now.items older) }
{
    if place == 0 {
        return 0;
    }
    let leaf = &leaves[place];
    match leaf.row(leaf.len() - 1) {
        Some(row) => row.stamp,
        None => 0,
    }
}

/// What is known of the leaf at a place.
fn entry_of(leaves: &Vec<Box<Leaf>>, place: usize) -> Entry
    requires leaves { AreLeaves leaves.now.items }
    requires there { place < length leaves.now.items }
    ensures sum { result.sum ≡ requests (leaf_at leaves.now.items place) }
    ensures count_is { result.count ≡ length (leaf_at leaves.now.items place) }
    ensures mandated { result.mandated ≡ has_mandated (leaf_at leaves.now.items place) }
    ensures first { place ≡ 0 → result.oldest ≡ 0 }
    ensures least { All (λ row. result.oldest ≤ row.stamp) (leaf_at leaves.now.items place) }
    ensures older { (older : ℕ) → older < place → All (λ row. row.stamp < result.oldest) (leaf_at leaves.now.items older) }
{
    let leaf = &leaves[place];
    Entry {
        oldest: oldest_of(leaves, place),
        sum: leaf.total(),
        count: leaf.len() as u32,
        mandated: leaf.has_mandated(),
    }
}

/// What is known of the leaves of a block.
fn block_of(leaves: &Vec<Box<Leaf>>, block: usize) -> Index
    requires leaves { AreLeaves leaves.now.items }
    requires block { block < 10 }
    ensures { IsBlock result (leaf_at leaves.now.items) (length leaves.now.items) block }
{
    let mut index = Index::new();
    let mut place = 16 * block;
    while place < leaves.len() && place < 16 * block + 16 {
        let entry = entry_of(leaves, place);
        index.push(entry);
        place += 1;
    }
    index
}

impl Storeys {
    /// No leaves.
    pub(crate) fn new() -> Storeys
        ensures { (rows : ℕ → List Row) → ((place : ℕ) → rows place ≡ []) → IsIndexed result rows 0 }
    {
        Storeys {
            blocks: [
                Index::new(),
                Index::new(),
                Index::new(),
                Index::new(),
                Index::new(),
                Index::new(),
                Index::new(),
                Index::new(),
                Index::new(),
                Index::new(),
            ],
            top: Index::new(),
        }
    }

    /// The leaf where a stamp stands.
    #[inline(always)]
    pub(crate) fn find(&self, leaves: &Vec<Box<Leaf>>, stamp: u32, visits: &mut u32) -> usize
        requires indexed { IsIndexed self.now (leaf_at leaves.now.items) (length leaves.now.items) }
        requires some { 0 < length leaves.now.items }
        requires few { visits.old < 2 ^ 31 }
        ensures at { IsAt stamp (leaf_at leaves.now.items) (length leaves.now.items) result }
        ensures counted { visits.new ≡ visits.old + bits (blocks_for (length leaves.now.items)) + bits (lanes (length leaves.now.items) (result / 16)) + bits (length (leaf_at leaves.now.items result)) }
        ensures visits { visits.new ≤ visits.old + bits (blocks_for (length leaves.now.items)) + bits (min 16 (length leaves.now.items)) + 5 }
    {
        enter(self.top.len(), visits);
        let at = self.top.place(stamp);
        let block = &self.blocks[at];
        enter(block.len(), visits);
        let place = at * 16 + block.place(stamp);
        enter(leaves[place].len(), visits);
        place
    }

    /// The same, where the leaf at a place is looked at first: a stamp between its oldest and its newest stands in no other, which
    /// saves the searches in the top and in a block. What place that is decides nothing but how long it takes.
    #[inline(always)]
    pub(crate) fn find_near(
        &self,
        leaves: &Vec<Box<Leaf>>,
        stamp: u32,
        near: usize,
        visits: &mut u32,
    ) -> usize
        requires leaves { AreLeaves leaves.now.items }
        requires indexed { IsIndexed self.now (leaf_at leaves.now.items) (length leaves.now.items) }
        requires some { 0 < length leaves.now.items }
        requires few { visits.old < 2 ^ 31 }
        ensures at { IsAt stamp (leaf_at leaves.now.items) (length leaves.now.items) result }
        ensures entered { visits.old + bits (length (leaf_at leaves.now.items result)) ≤ visits.new }
        ensures far { result ≢ near → visits.new ≡ visits.old + bits (blocks_for (length leaves.now.items)) + bits (lanes (length leaves.now.items) (result / 16)) + bits (length (leaf_at leaves.now.items result)) }
        ensures visits { visits.new ≤ visits.old + bits (blocks_for (length leaves.now.items)) + bits (min 16 (length leaves.now.items)) + 5 }
    {
        if near < leaves.len() {
            let leaf = &leaves[near];
            if leaf.spans(stamp) {
                enter(leaf.len(), visits);
                return near;
            }
        }
        self.find(leaves, stamp, visits)
    }

    /// What has changed in one leaf changes in its block, and in the top.
    #[inline(always)]
    pub(crate) fn note(&mut self, leaves: &Vec<Box<Leaf>>, place: usize, change: Change)
        requires was { WasIndexed self.old (leaf_at leaves.now.items) (length leaves.now.items) place change }
        ensures { IsIndexed self.new (leaf_at leaves.now.items) (length leaves.now.items) }
    {
        let at = place / 16;
        let block = &mut self.blocks[at];
        block.change(place % 16, change, leaves[place].has_mandated());
        let mandated = block.has_mandated();
        self.top.change(at, change, mandated);
    }

    /// The blocks from one on, as far as there are leaves, and the top are written anew. A leaf that is left alone needs none of
    /// them, since it is given up with its shelf.
    #[cold]
    #[inline(never)]
    pub(crate) fn rebuild(&mut self, leaves: &Vec<Box<Leaf>>, from: usize)
        requires leaves { AreLeaves leaves.now.items }
        requires from { from ≤ length leaves.now.items / 16 }
        requires wide { length self.old.blocks ≡ 10 }
        requires kept { (block : ℕ) → block < from → IsBlock (block_at self.old.blocks block) (leaf_at leaves.now.items) (length leaves.now.items) block }
        requires beyond { (block : ℕ) → length leaves.now.items / 16 < block → block < 10 → IsBlock (block_at self.old.blocks block) (leaf_at leaves.now.items) (length leaves.now.items) block }
        ensures { IsKnown self.new (leaf_at leaves.now.items) (length leaves.now.items) }
    {
        let count = leaves.len();
        if count < 2 {
            return;
        }
        for block in from..count / 16 + 1 {
            self.blocks[block] = block_of(leaves, block);
        }
        self.top = Index::new();
        let used = (count + 15) / 16;
        for at in 0..used {
            let entry = self.blocks[at].whole();
            self.top.push(entry);
        }
    }
}
