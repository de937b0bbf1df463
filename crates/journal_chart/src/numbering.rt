//! Rows whose arenas are numbered one after another, as those of a chart are that is not told which to draw: the row of an arena is found by its
//! number, where it would else be looked for at each row of each moment.
ghost use Rattle.std.specs.Prelude.{◌≡◌, ℕ, ◌+◌, ◌<◌, ◌≤◌, IfSome, length};
ghost use Rattle.std.specs.List.{range_with_len};

use market_types::ArenaId;

/// From which number on arenas are numbered one after another, if they are.
pub(crate) fn numbering(arenas: &[ArenaId]) -> Option<u32>
    ensures { IfSome result (λ first. arenas.now ≡ range_with_len first (length arenas.now)) }
{
    let first = arenas.first()?.get();
    for index in 0..arenas.len() {
        if u64::from(arenas[index].get()) != u64::from(first) + index as u64 {
            return None;
        }
    }
    Some(first)
}

/// The place of an arena among so many that are numbered from one on, or how many they are where it is none of them.
#[inline]
pub(crate) fn place_of(first: u32, count: usize, arena: ArenaId) -> usize
    ensures within { result ≤ count }
    ensures there { result < count → first + result ≡ arena }
    ensures alone { (index : ℕ) → index < count → first + index ≡ arena → index ≡ result }
{
    let number = arena.get();
    if number < first {
        return count;
    }
    ((number - first) as usize).min(count)
}
