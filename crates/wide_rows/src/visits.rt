//! How much work a search is.
ghost use Rattle.std.specs.Prelude.{◌≡◌, ◌+◌, ◌^◌, ◌<◌, ◌≤◌};
ghost use Rattle.market_types.specs.Bits.{bits};

/// Enters a node of so many keys, and counts it: a visit for each binary digit of that number, as many as a search by halves takes.
#[inline(always)]
pub(crate) fn enter(keys: usize, visits: &mut u32)
    requires room { visits.old + 64 < 2 ^ 32 }
    ensures counted { visits.new ≡ visits.old + bits keys }
    ensures most { visits.new ≤ visits.old + 64 }
{
    *visits += usize::BITS - keys.leading_zeros();
}

/// How many binary digits the numbers up to 16 have.
const DIGITS: [u32; 17] = [0, 1, 2, 2, 3, 3, 3, 3, 4, 4, 4, 4, 4, 4, 4, 4, 5];

/// Passes over so many sums of a node, at most 16, and counts them as a node of so many keys. A walk does so at each turn: a look
/// into a table takes less than to count digits.
#[inline(always)]
pub(crate) fn pass_over(sums: usize, visits: &mut u32)
    requires few { sums ≤ 16 }
    requires room { visits.old + 64 < 2 ^ 32 }
    ensures counted { visits.new ≡ visits.old + bits sums }
    ensures most { visits.new ≤ visits.old + 5 }
{
    *visits += DIGITS[sums];
}
