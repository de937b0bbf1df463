//! Labels with texts in columns.
ghost use Rattle.std.specs.Prelude.{◌≡◌, ◌++◌, OnOk, decimal};
ghost use Rattle.explainer.specs.Columns.{left_in, number_text, right_in, spaces};

use itoa::Buffer;
use std::alloc::AllocError;

/// Puts so many spaces behind what stands in `out`.
fn push_spaces(out: &mut Vec<u8>, count: usize) -> Result<(), AllocError>
    ensures { OnOk result (out.new.items ≡ out.old.items ++ spaces count) }
{
    for _ in 0..count {
        out.push(b' ')?;
    }
    Ok(())
}

/// Puts a text behind what stands in `out`.
pub(crate) fn push_text(out: &mut Vec<u8>, text: &str) -> Result<(), AllocError>
    ensures { OnOk result (out.new.items ≡ out.old.items ++ text.now) }
{
    out.extend_from_slice(text.as_bytes())
}

/// A label, and a number.
pub(crate) fn push_part(out: &mut Vec<u8>, label: &str, number: u64) -> Result<(), AllocError>
    ensures { OnOk result (out.new.items ≡ out.old.items ++ (label.now ++ decimal number)) }
{
    push_text(out, label)?;
    push_text(out, Buffer::new().format(number))
}

/// A label, and a text at the right end of so many places.
fn push_right(out: &mut Vec<u8>, label: &str, places: usize, text: &str) -> Result<(), AllocError>
    ensures { OnOk result (out.new.items ≡ out.old.items ++ (label.now ++ right_in places text.now)) }
{
    push_text(out, label)?;
    push_spaces(out, places.saturating_sub(text.len()))?;
    push_text(out, text)
}

/// A label, and a text at the left end of so many places.
pub(crate) fn push_left(
    out: &mut Vec<u8>,
    label: &str,
    places: usize,
    text: &str,
) -> Result<(), AllocError>
    ensures { OnOk result (out.new.items ≡ out.old.items ++ (label.now ++ left_in places text.now)) }
{
    push_text(out, label)?;
    push_text(out, text)?;
    push_spaces(out, places.saturating_sub(text.len()))
}

/// A label, and a number at the right end of so many places.
pub(crate) fn push_number(
    out: &mut Vec<u8>,
    label: &str,
    places: usize,
    number: u64,
) -> Result<(), AllocError>
    ensures { OnOk result (out.new.items ≡ out.old.items ++ (label.now ++ right_in places (decimal number))) }
{
    push_right(out, label, places, Buffer::new().format(number))
}

/// A label, and a number or a dash for none, at the right end of so many places.
pub(crate) fn push_number_or_dash(
    out: &mut Vec<u8>,
    label: &str,
    places: usize,
    number: Option<u64>,
) -> Result<(), AllocError>
    ensures { OnOk result (out.new.items ≡ out.old.items ++ (label.now ++ right_in places (number_text number))) }
{
    match number {
        Some(number) => push_number(out, label, places, number),
        None => push_right(out, label, places, "-"),
    }
}
