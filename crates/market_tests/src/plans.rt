//! How many lines a plan may have, and how long they may be, beside the plans of `example_scripts`.

use crate::drives::{PLAN, is_driven, is_refused};
use market_drive::DriveFault;
use std::alloc::{AllocError, Global};
use std::process::Abort;
use std::rt::HostRuntime;
use std::sync::Wait;
use std::thread::Threads;

/// The market, and an arena.
const BEGUN: [&str; 2] = ["market 8 64", "arena 8 1 normal 2 0"];

/// Puts the line with its LF behind the text, so many times.
fn push_lines(text: &mut Vec<u8>, line: &str, times: u32) -> Result<(), AllocError> {
    for _ in 0..times {
        text.extend_from_slice(line.as_bytes())?;
        text.push(b'\n')?;
    }
    Ok(())
}

/// These lines, then another so many times, then a last one; each with its LF.
fn text_of(
    alloc: Global,
    begin: &[&str],
    line: &str,
    times: u32,
    last: &str,
) -> Result<Vec<u8>, AllocError> {
    let mut text = Vec::new(alloc);
    for first in begin {
        push_lines(&mut text, first, 1)?;
    }
    push_lines(&mut text, line, times)?;
    push_lines(&mut text, last, 1)?;
    Ok(text)
}

/// The first line of the text that does not fit is this one.
fn is_bad<R: Threads + Wait + Sync + Abort>(rt: &R, alloc: Global, text: &[u8], line: u64) {
    let Ok(told) = format!(in alloc; "G01 bad plan line {line}\n") else {
        panic!(rt; "no memory");
    };
    is_refused(rt, alloc, text, DriveFault::BadPlan(line), told.as_bytes());
}

/// Behind the first lines the other may stand so many times, and one more is the first that does not fit.
fn is_bad_after<R: Threads + Wait + Sync + Abort>(
    rt: &R,
    alloc: Global,
    begin: &[&str],
    line: &str,
    times: u32,
) {
    let Ok(text) = text_of(alloc, begin, line, times, line) else {
        panic!(rt; "no memory");
    };
    is_bad(rt, alloc, &text, begin.len() as u64 + u64::from(times) + 1);
    let Ok(text) = text_of(alloc, begin, line, times, "") else {
        panic!(rt; "no memory");
    };
    is_driven(rt, alloc, &text, b"");
}

#[test]
fn there_are_64_arenas_and_256_controls_at_most(rt: HostRuntime) {
    is_bad_after(&rt, rt.alloc(), &BEGUN[..1], BEGUN[1], 64);
    is_bad_after(&rt, rt.alloc(), &BEGUN, "control 9", 256);
}

#[test]
fn there_are_65_536_jobs_at_most(rt: HostRuntime) {
    let Ok(text) = text_of(rt.alloc(), &BEGUN, "job 1 sum 0", 65_536, "job 1 sum 0") else {
        panic!(&rt; "no memory");
    };
    is_bad(&rt, rt.alloc(), &text, 65_539);
}

#[test]
fn a_last_line_without_its_end_is_a_line(rt: HostRuntime) {
    is_bad(&rt, rt.alloc(), b"", 1);
    is_bad(&rt, rt.alloc(), b"# a comment", 1);
    is_bad(&rt, rt.alloc(), b"market 8 64", 1);
    is_bad(&rt, rt.alloc(), b"market 8 64\n\n# a comment", 3);
    is_bad(&rt, rt.alloc(), b"market 8 64\n\xff\n", 2);
    let plan = b"market 8 64\narena 2 1 high 1 0\njob 1 sum 3";
    is_driven(&rt, rt.alloc(), plan, b"job 1 6\n");
}

/// A comment, or another line, of so many bytes, with its LF, before the plan.
fn with_a_long_line(alloc: Global, first: u8, bytes: u32) -> Result<Vec<u8>, AllocError> {
    let mut text = Vec::new(alloc);
    for _ in 0..bytes {
        text.push(first)?;
    }
    text.push(b'\n')?;
    text.extend_from_slice(PLAN)?;
    Ok(text)
}

#[test]
fn a_long_line_is_bad_unless_it_is_a_comment(rt: HostRuntime) {
    for bytes in [256, 257, 65_537] {
        for first in [b'm', b'\xff'] {
            let Ok(text) = with_a_long_line(rt.alloc(), first, bytes) else {
                panic!(&rt; "no memory");
            };
            is_bad(&rt, rt.alloc(), &text, 1);
        }
        let Ok(text) = with_a_long_line(rt.alloc(), b'#', bytes) else {
            panic!(&rt; "no memory");
        };
        let outcome = b"job 1 55\njob 2 18\njob 3 5050\n";
        is_driven(&rt, rt.alloc(), &text, outcome);
    }
}
