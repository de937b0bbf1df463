//! Where a number stands among rising numbers.
ghost use Rattle.std.specs.Prelude.{◌≢◌, ◌≡◌, ℕ, ◌<◌, ◌≤◌, length, slice_index_or, IfNone, IfSome};
ghost use Rattle.std.specs.List.{All};
ghost use Rattle.arena_store.specs.Held.{IsRising};

/// The index of this number.
pub fn index_of(keys: &[u32], number: u32) -> Option<usize>
    requires { IsRising keys.now }
    ensures missing { IfNone result (All (λ (key : ℕ). key ≢ number) keys.now) }
    ensures there { IfSome result (λ index. index < length keys.now) }
    ensures found { IfSome result (λ index. (d : ℕ) → slice_index_or keys.now index d ≡ number) }
{
    let (low, high) = bounds_of(keys, number);
    let near = keys[low..high].binary_search(&number);
    Some(low + near.ok()?)
}

/// The indices from which and before which the number stands, if anywhere: there are no more of them between two than
/// numbers between those. Where few numbers are missing, the two are close.
fn bounds_of(keys: &[u32], number: u32) -> (usize, usize)
    requires { IsRising keys.now }
    ensures order { result.0 ≤ result.1 }
    ensures within { result.1 ≤ length keys.now }
    ensures before { (index d : ℕ) → index < result.0 → slice_index_or keys.now index d < number }
    ensures behind { (index d : ℕ) → result.1 ≤ index → index < length keys.now
        → number < slice_index_or keys.now index d }
{
    if keys.is_empty() {
        return (0, 0);
    }
    let end = keys.len() - 1;
    let first = keys[0];
    let last = keys[end];
    if number < first {
        return (0, 0);
    }
    if last < number {
        return (keys.len(), keys.len());
    }
    let low = end.saturating_sub((last - number) as usize);
    let high = end.min((number - first) as usize);
    (low, high + 1)
}
