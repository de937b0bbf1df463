//! How a line came out of its input.

/// How a line came out of its input.
#[derive(Clone, Copy, Debug, PartialEq, Eq)]
pub enum LineForm {
    /// It is given with all its bytes, and an LF ended it.
    Whole,
    /// It is given with all its bytes, and the input ended it: the last line has no LF.
    WithoutLf,
    /// It has more bytes than its taker needs, and only the first of them are given.
    TooLong,
}
