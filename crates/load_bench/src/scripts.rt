//! Scripts.
use crate::author::Author;
use itoa::Buffer;
use market_texts::push_cmd;
use market_types::{Call, Cmd};
use std::alloc::{AllocError, Global};

/// About as many bytes as a line has.
const USUAL_LINE: usize = 20;

/// One line in so many is preceded by one that is no call.
const LINES_A_REMARK: u32 = 64;

/// Puts a seat's number behind the text.
pub fn push_seat(text: &mut Vec<u8>, call: &Call) -> Result<(), AllocError> {
    let mut digits = Buffer::new();
    text.extend_from_slice(digits.format(call.seat.get()).as_bytes())
}

/// Puts a line behind the script that is no call: a remark, an empty line, or one that nobody can read.
fn push_remark(script: &mut Vec<u8>, author: &mut Author) -> Result<(), AllocError> {
    match author.choose(3) {
        0 => script.extend_from_slice(b"# a new turn\n"),
        1 => script.extend_from_slice(b"\n"),
        _ => script.extend_from_slice(b"0 requests 1 2\n"),
    }
}

/// Takes a mandatory part of 0 away again, now and then, with which the command ends.
#[inline(always)]
fn cut_zero(script: &mut Vec<u8>, author: &mut Author, cmd: &Cmd) {
    if let Cmd::Request(_, _, 0) = *cmd
        && author.choose(2) == 0
    {
        script.truncate(script.len().saturating_sub(2));
    }
}

/// Puts a call's line behind the script. A mandatory part of 0 is left out now and then.
fn push_call(
    script: &mut Vec<u8>,
    author: &mut Author,
    call: &Call,
    levels: u32,
) -> Result<(), AllocError> {
    push_seat(script, call)?;
    script.push(b' ')?;
    push_cmd(script, &call.cmd, levels)?;
    cut_zero(script, author, &call.cmd);
    script.push(b'\n')?;
    Ok(())
}

/// A script of so many calls in a market of so many levels.
pub fn script(
    alloc: Global,
    author: &mut Author,
    levels: u32,
    calls: u32,
) -> Result<Vec<u8>, AllocError> {
    let mut script = Vec::with_capacity(alloc, (calls as usize).saturating_mul(USUAL_LINE))?;
    for _ in 0..calls {
        if author.choose(LINES_A_REMARK) == 0 {
            push_remark(&mut script, author)?;
        }
        let call = author.next_call();
        push_call(&mut script, author, &call, levels)?;
    }
    Ok(script)
}
