//! The fields of a text, and what each reads as.
ghost use Rattle.std.specs.Prelude.{◌≡◌, ◌≢◌, ◌+◌, ◌*◌, ◌<◌, ◌≤◌, ◌∷◌, ◌++◌, IfNone, IfSome, None, Some, SomeIff, false, length, option_and_then, option_map, slice_index};
ghost use Rattle.std.specs.List.{list_any, slice_split};
ghost use Rattle.std.specs.Str.{bytes_eq};
ghost use Rattle.std.specs.Str.Parse.{digits_value_after};
ghost use Rattle.market_texts.specs.Fields.{behind_digits, fields_left, front_digits};
ghost use Rattle.market_texts.specs.Cuts.{IsCut, first_field, follows};
ghost use Rattle.market_texts.specs.Reading.{in_levels, in_seats, is_space, level, middle_level, negative, number, number_below, positive, signed};

use market_types::Level;

/// The greatest number of 32 bits.
const MOST_NUMBER: u64 = 4_294_967_295;

/// The first field of a text, which one space ends, and what follows that space; where no space ends it, the whole text is
/// the field and nothing follows. Takes no memory.
pub fn cut_field(text: &[u8]) -> (&[u8], Option<&[u8]>)
    ensures { slice_split is_space text.now ≡ result.0.now ∷ fields_left result.1 }
{
    // Fields are short: a search by vectors is slower.
    for (at, byte) in text.iter().enumerate() {
        if *byte == b' ' {
            return (&text[..at], Some(&text[at + 1..]));
        }
    }
    (text, None)
}

/// The number whose digits are those of `number` and then this one, where it is at most `most`.
#[inline(always)]
fn with_digit(number: u64, digit: u64, most: u64) -> Option<u64>
    ensures { SomeIff result (number * 10 + digit ≤ most) (number * 10 + digit) }
{
    let longer = number.checked_mul(10)?.checked_add(digit)?;
    if longer > most {
        return None;
    }
    Some(longer)
}

/// The number of at most `most` whose digits are those of `first` and then those with which a text begins, and how many these are.
#[inline(always)]
fn read_digits(first: u64, text: &[u8], most: u64) -> Option<(u64, usize)>
    requires { first ≤ most }
    ensures number { SomeIff (option_map (λ read. read.0) result) (digits_value_after 10 first (front_digits text.now) ≤ most) (digits_value_after 10 first (front_digits text.now)) }
    ensures count { IfSome result (λ read. read.1 ≡ length (front_digits text.now)) }
{
    let mut number = first;
    for (at, byte) in text.iter().enumerate() {
        if !byte.is_ascii_digit() {
            return Some((number, at));
        }
        number = with_digit(number, u64::from(*byte - b'0'), most)?;
    }
    Some((number, text.len()))
}

/// The number of at most `most` that the digits write with which a text begins, and what follows them. None where it begins
/// with no digit, or with a needless 0. One pass over the digits cuts and reads them. Takes no memory.
#[inline(always)]
pub fn cut_digits(text: &[u8], most: u64) -> Option<(u64, &[u8])>
    ensures number { option_map (λ cut. cut.0) result ≡ number_below (most + 1) (front_digits text.now) }
    ensures rest { IfSome result (λ cut. cut.1.now ≡ behind_digits text.now) }
    ensures within { IfSome result (λ cut. cut.0 ≤ most) }
{
    let (byte, more) = text.split_first()?;
    if !byte.is_ascii_digit() {
        return None;
    }
    // The first digit is read apart, since most numbers have one alone.
    let first = with_digit(0, u64::from(*byte - b'0'), most)?;
    let (number, count) = read_digits(first, more, most)?;
    if first == 0 && count > 0 {
        return None;
    }
    let (_, rest) = more.split_at(count);
    Some((number, rest))
}

/// A number of at most `most` in decimal digits, with no needless 0 before them. None for every other field. Takes no memory.
#[inline(always)]
pub fn read_number_to(field: &[u8], most: u64) -> Option<u64>
    ensures exact { result ≡ number_below (most + 1) field.now }
    ensures within { IfSome result (λ n. n ≤ most) }
{
    let (number, rest) = cut_digits(field, most)?;
    if !rest.is_empty() {
        return None;
    }
    Some(number)
}

/// A number of 32 bits in decimal digits, with no needless 0 before them. None for every other field. Takes no memory.
#[tactic(auto, unfolding(crate::specs::Reading::number))]
pub fn read_number(field: &[u8]) -> Option<u32>
    ensures { result ≡ number field.now }
{
    let number = read_number_to(field, MOST_NUMBER)?;
    Some(number as u32)
}

/// What follows the space that the text begins with, or nothing where the text is empty. None where it goes on in other ways.
#[inline]
fn follows(text: &[u8]) -> Option<Option<&[u8]>>
    ensures { option_map (λ more. fields_left more) result ≡ follows text.now }
{
    let Some((first, more)) = text.split_first() else {
        return Some(None);
    };
    if *first == b' ' {
        Some(Some(more))
    } else {
        None
    }
}

/// What follows the first field's space, where that field is this word. Words are short and known where this is inlined: it
/// compares with no call and no loop.
#[inline(always)]
pub(crate) fn after_word<'a>(text: &'a [u8], word: &[u8]) -> Option<Option<&'a [u8]>>
    requires { list_any is_space word.now ≡ false }
    ensures none { IfNone result (bytes_eq (first_field text.now) word.now ≡ false) }
    ensures some { IfSome result (λ more. slice_split is_space text.now ≡ word.now ∷ fields_left more) }
{
    follows(text.strip_prefix(word)?)
}

/// The number that the first field of a text is, and what follows the space that ends that field.
pub(crate) fn cut_number(text: &[u8]) -> Option<(u32, Option<&[u8]>)>
    ensures { IsCut number text.now result }
{
    let (number, rest) = cut_digits(text, MOST_NUMBER)?;
    let more = follows(rest)?;
    Some((number as u32, more))
}

/// A number without a sign as a signed one.
fn positive(number: u32) -> Option<i32>
    ensures { result ≡ positive number }
{
    i32::try_from(number).ok()
}

/// The number below 0 by so much.
fn negative(number: u32) -> Option<i32>
    ensures { result ≡ negative number }
{
    if number == 0 {
        return None;
    }
    i32::try_from(-i64::from(number)).ok()
}

/// The signed number that the first field of a text is, and what follows the space that ends that field.
pub(crate) fn cut_signed(text: &[u8]) -> Option<(i32, Option<&[u8]>)>
    ensures { IsCut signed text.now result }
{
    if let Some(digits) = text.strip_prefix(b"-") {
        let (number, more) = cut_number(digits)?;
        Some((negative(number)?, more))
    } else {
        let (number, more) = cut_number(text)?;
        Some((positive(number)?, more))
    }
}

/// The level of an arena whose line names none.
pub(crate) fn middle_level(levels: u32) -> Option<Level>
    ensures { result ≡ in_levels (middle_level levels) }
{
    Level::new(levels.div_ceil(2))
}

/// A level of a market of so many levels, 1 to 8, by its number, or one of three by its name. A level above those that the
/// market has is read too. None for every other field. Takes no memory.
#[tactic(auto, unfolding(crate::specs::Reading::level))]
pub fn read_level(field: &[u8], levels: u32) -> Option<Level>
    ensures { result ≡ level levels field.now }
{
    if levels == 3 && field == b"high".as_slice() {
        return Level::new(1);
    }
    if levels == 3 && field == b"normal".as_slice() {
        return Level::new(2);
    }
    if levels == 3 && field == b"low".as_slice() {
        return Level::new(3);
    }
    Level::new(read_number(field)?)
}

/// The seat below the number of seats that the first field of a text is, and what follows the space that ends that field.
pub(crate) fn cut_seat(text: &[u8], seats: u8) -> Option<(u8, Option<&[u8]>)>
    ensures cut { IsCut (λ field. option_and_then (in_seats seats) (number field)) text.now result }
    ensures seated { IfSome result (λ p. p.0 < seats) }
{
    let (number, more) = cut_number(text)?;
    if number >= u32::from(seats) {
        return None;
    }
    Some((number as u8, more))
}
