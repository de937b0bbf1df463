//! The list, and its calls.
ghost use Rattle.std.specs.Prelude.{◌≡◌, ◌+◌, ◌*◌, ◌<◌, ◌≤◌, [], ◌∷◌, length, slice_get, is_ok, if◌then◌else◌, Some, All, IfSome, IfOk, OnOk};
ghost use Rattle.market_types.specs.Rows.{IsNewestFirst, requests, requests_above, first_mandated, row_at, without, set_row};
ghost use Rattle.market_types.specs.Bits.{bits};

use market_types::Row;
use prefix_tree::{Stretch, Taken, Tree};
use std::alloc::{AllocError, Global};
use std::marker::Model;

/// The rows of one level's arenas, at most 1,024 of them, each with a request of at most 65,535. Contracts
/// see it as the list of its rows, newest first.
///
/// A call on `n` rows enters at most twice as many nodes as `n` has binary digits, and one more where it puts a row
/// in. The last part of its answer is their number. Only `push` takes memory. A walk in order through all rows goes by
/// [`LevelList::whole`].
#[derive(Drop)]
pub struct LevelList {
    rows: Tree,
}

impl Model for LevelList {
    ghost use Rattle.std.specs.Prelude.{List};
    ghost use Rattle.market_types.specs.declared.row.Row.{Row};

    ghost Value = { List Row };

    ghost view = { λ a. a.rows };
}

impl LevelList {
    /// A list with no rows, which takes no memory.
    pub fn new() -> LevelList
        ensures exact { result ≡ [] }
    {
        LevelList { rows: Tree::new() }
    }

    /// How many rows.
    pub fn len(&self) -> usize
        ensures exact { result ≡ length self.now }
        ensures most { length self.now ≤ 1024 }
        ensures newest_first { IsNewestFirst self.now }
    {
        self.rows.len()
    }

    /// What the level asks for: the sum of all requests.
    pub fn demand(&self) -> u64
        ensures exact { result ≡ requests self.now }
        ensures most { result ≤ 1024 * 65535 }
    {
        self.rows.total()
    }

    /// The sum of the requests of the rows whose stamp is above `stamp`, which need not be that of a row.
    pub fn before(&self, stamp: u32) -> (u64, u32)
        ensures exact { result.0 ≡ requests_above stamp self.now }
        ensures entered { 0 < length self.now → 1 ≤ result.1 }
        ensures visits { result.1 ≤ 2 * bits (length self.now) }
    {
        self.rows.sum_before(stamp)
    }

    /// The row at an index of the list, from 0 on, None beyond its end.
    pub fn walk(&self, index: usize) -> (Option<Row>, u32)
        ensures exact { result.0 ≡ slice_get self.now index }
        ensures entered { 0 < length self.now → 1 ≤ result.1 }
        ensures visits { result.1 ≤ 2 * bits (length self.now) }
    {
        self.rows.walk(index)
    }

    /// The first mandated row of the list.
    pub fn first_mandated(&self) -> (Option<Row>, u32)
        ensures exact { result.0 ≡ first_mandated self.now }
        ensures entered { 0 < length self.now → 1 ≤ result.1 }
        ensures visits { result.1 ≤ 2 * bits (length self.now) }
    {
        self.rows.first_mandated()
    }

    /// All rows, for a walk in order that may pass over some: see [`Stretch`].
    pub fn whole(&self) -> Stretch<'_>
        ensures rows { result.0 ≡ self.now }
        ensures height { result.1 ≤ 2 * bits (length self.now) }
        ensures few { length self.now ≤ 1024 }
        ensures newest_first { IsNewestFirst self.now }
    {
        self.rows.whole()
    }

    /// Sets the request and the mandate of the row with that stamp, and leaves all others; nothing where no row has it. The
    /// market calls `update`; this is for a caller that knows the stamp alone.
    pub fn set(&mut self, stamp: u32, request: u32, mandated: bool) -> u32
        requires request { request ≤ 65535 }
        ensures rows { self.new ≡ set_row stamp request mandated self.old }
        ensures newest_first { IsNewestFirst self.new }
        ensures entered { 0 < length self.old → 1 ≤ result }
        ensures visits { result ≤ 2 * bits (length self.old) }
    {
        self.rows.set(stamp, request, mandated)
    }

    /// Sets the request and the mandate of a row that the list has, as it stands there, and leaves all others. It is faster
    /// than `set`: what the row asked for is known on the way down.
    pub fn update(&mut self, row: Row, request: u32, mandated: bool) -> u32
        requires request { request ≤ 65535 }
        requires there { row_at row.stamp self.old ≡ Some row }
        ensures rows { self.new ≡ set_row row.stamp request mandated self.old }
        ensures newest_first { IsNewestFirst self.new }
        ensures entered { 1 ≤ result }
        ensures visits { result ≤ 2 * bits (length self.old) }
    {
        self.rows.update(row, request, mandated)
    }

    /// Adds a row that is newer than all others at the front. An error says that memory ran out, and leaves the rows as they
    /// were.
    pub fn push(&mut self, alloc: Global, row: Row) -> Result<u32, AllocError>
        requires room { length self.old < 1024 }
        requires request { row.request ≤ 65535 }
        requires newest { All (λ older. older.stamp < row.stamp) self.old }
        ensures rows { self.new ≡ (if is_ok result then row ∷ self.old else self.old) }
        ensures newest_first { OnOk result (IsNewestFirst self.new) }
        ensures visits { IfOk result (λ visits. (1 ≤ visits) × (visits ≤ 2 * bits (length self.old) + 1)) }
    {
        self.rows.insert(alloc, row)
    }

    /// Adds a row that was taken out of a list, this one or another, at the front, under a stamp that is newer than all
    /// others.
    pub fn put(&mut self, taken: Taken, stamp: u32) -> u32
        requires room { length self.old < 1024 }
        requires newest { All (λ older. older.stamp < stamp) self.old }
        ensures rows { self.new ≡ record taken { stamp = stamp } ∷ self.old }
        ensures newest_first { IsNewestFirst self.new }
        ensures low { 1 ≤ result }
        ensures visits { result ≤ 2 * bits (length self.old) + 1 }
    {
        self.rows.put_node(taken, stamp)
    }

    /// Takes the row with that stamp out, None where no row has it.
    pub fn take(&mut self, stamp: u32) -> (Option<Taken>, u32)
        ensures taken { result.0 ≡ row_at stamp self.old }
        ensures rows { self.new ≡ without stamp self.old }
        ensures newest_first { IsNewestFirst self.new }
        ensures room { IfSome result.0 (λ _. length self.new < 1024) }
        ensures entered { 0 < length self.old → 1 ≤ result.1 }
        ensures visits { result.1 ≤ 2 * bits (length self.old) }
    {
        self.rows.take_node(stamp)
    }
}
