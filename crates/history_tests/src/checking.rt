//! Journals that are checked: cut off, and with long lines. Others stand in the data of `example_scripts`.
use crate::asserts::{holds, same};
use crate::journals::finds;
use std::alloc::Global;
use std::process::Abort;
use std::rt::HostRuntime;

const HEADER: &str = "{\"base\":8,\"hard\":64,\"journal\":1,\"seats\":4}";

const OPEN: &str = "{\"cmd\":\"open 8 1 normal\",\"reply\":\"arena 1\",\"seat\":0}";

const REQUEST: &str = "{\"cmd\":\"request 1 3 0\",\"reply\":\"request 3\",\"seat\":0}";

const SHOW: &str =
    "{\"cmd\":\"show 1\",\"reply\":\"arena 1 request 3 allot 3 top yes active 0 recall 0 hire 3\",\"seat\":0}";

/// The lines, each with an LF.
fn text_of(rt: &impl Abort, alloc: Global, lines: &[&str]) -> Vec<u8> {
    let mut text = Vec::new(alloc);
    for line in lines {
        push(rt, &mut text, line.as_bytes());
        push(rt, &mut text, b"\n");
    }
    text
}

/// Puts more bytes behind the text.
fn push(rt: &impl Abort, text: &mut Vec<u8>, more: &[u8]) {
    holds(rt, text.extend_from_slice(more).is_ok());
}

/// Puts so many spaces behind the text.
fn push_spaces(rt: &impl Abort, text: &mut Vec<u8>, spaces: usize) {
    for _ in 0..spaces {
        push(rt, text, b" ");
    }
}

/// What is found of the first bytes of the journal.
fn found_of_front(bytes: usize) -> &'static str {
    match bytes {
        0..=42 => "J1 bad header",
        43 => "legal 0",
        44..=95 => "J2 bad json line 2",
        96 => "legal 1",
        97..=148 => "J2 bad json line 3",
        149 => "legal 2",
        150..=243 => "J2 bad json line 4",
        _ => "legal 3",
    }
}

#[test]
fn a_front_of_a_journal_is_legal_where_a_line_ends(rt: HostRuntime) {
    let text = text_of(&rt, rt.alloc(), &[HEADER, OPEN, REQUEST, SHOW]);
    same(&rt, text.len(), 244);
    for bytes in 0..=text.len() {
        finds(&rt, rt.alloc(), &text[..bytes], found_of_front(bytes));
    }
}

/// The header, and a line of so many bytes: an entry before spaces.
fn with_spaces(rt: &impl Abort, alloc: Global, bytes: usize) -> Vec<u8> {
    let mut text = text_of(rt, alloc, &[HEADER, OPEN]);
    let _ = text.pop();
    for _ in OPEN.len()..bytes {
        push(rt, &mut text, b" ");
    }
    push(rt, &mut text, b"\n");
    text
}

/// An entry, cut where spaces may stand.
const PARTS: [&str; 14] = [
    "{",
    "\"cmd\"",
    ":",
    "\"open 8 1 normal\"",
    ",",
    "\"reply\"",
    ":",
    "\"arena 1\"",
    ",",
    "\"seat\"",
    ":",
    "0",
    "}",
    "",
];

/// The header, and an entry with so many spaces before one of its parts.
fn with_spaces_before(rt: &impl Abort, alloc: Global, place: usize, spaces: usize) -> Vec<u8> {
    let mut text = text_of(rt, alloc, &[HEADER]);
    for (at, part) in PARTS.iter().enumerate() {
        if at == place {
            push_spaces(rt, &mut text, spaces);
        }
        push(rt, &mut text, part.as_bytes());
    }
    push(rt, &mut text, b"\n");
    text
}

/// Few spaces and many are passed over in ways of their own.
#[test]
fn an_entry_has_any_number_of_spaces_in_each_place(rt: HostRuntime) {
    for place in 0..PARTS.len() {
        for spaces in [1, 63, 64, 65, 66, 1_000] {
            let text = with_spaces_before(&rt, rt.alloc(), place, spaces);
            finds(&rt, rt.alloc(), &text, "legal 1");
        }
    }
}

#[test]
fn a_line_has_65_536_bytes_at_most(rt: HostRuntime) {
    let text = with_spaces(&rt, rt.alloc(), 65_536);
    finds(&rt, rt.alloc(), &text, "legal 1");
    let text = with_spaces(&rt, rt.alloc(), 65_537);
    finds(&rt, rt.alloc(), &text, "J2 bad json line 2");
}

/// The header, and a line of so many arrays, one in the other.
fn with_arrays(rt: &impl Abort, alloc: Global, depth: usize) -> Vec<u8> {
    let mut text = text_of(rt, alloc, &[HEADER]);
    for _ in 0..depth {
        push(rt, &mut text, b"[");
    }
    for _ in 0..depth {
        push(rt, &mut text, b"]");
    }
    push(rt, &mut text, b"\n");
    text
}

/// A text is UTF-8, and an array does not end with its line.
fn is_no_json(rt: &impl Abort, alloc: Global) {
    let mut text = text_of(rt, alloc, &[HEADER]);
    let line = b"{\"cmd\":\"\xff\",\"reply\":\"ok\",\"seat\":0}\n";
    push(rt, &mut text, line);
    finds(rt, alloc, &text, "J2 bad json line 2");
    let mut text = text_of(rt, alloc, &[HEADER, OPEN]);
    for _ in 0..200 {
        push(rt, &mut text, b"[");
    }
    push(rt, &mut text, b"\n");
    finds(rt, alloc, &text, "J2 bad json line 3");
}

#[test]
fn a_line_is_utf8_and_nests_little(rt: HostRuntime) {
    is_no_json(&rt, rt.alloc());
    let text = with_arrays(&rt, rt.alloc(), 127);
    finds(&rt, rt.alloc(), &text, "J3 bad record line 2");
    let text = with_arrays(&rt, rt.alloc(), 128);
    finds(&rt, rt.alloc(), &text, "J2 bad json line 2");
}

/// Puts the same bytes behind the text so many times.
fn push_often(rt: &impl Abort, text: &mut Vec<u8>, more: &[u8], times: u32) {
    for _ in 0..times {
        push(rt, text, more);
    }
}

/// A line of 65,536 bytes: it begins and ends so, and has the same bytes so many times between.
struct LongLine {
    begin: &'static [u8],
    again: &'static [u8],
    times: u32,
    end: &'static [u8],
}

impl LongLine {
    /// The line, with an LF.
    fn text(&self, rt: &impl Abort, alloc: Global) -> Vec<u8> {
        let mut text = Vec::new(alloc);
        push(rt, &mut text, self.begin);
        push_often(rt, &mut text, self.again, self.times);
        push(rt, &mut text, self.end);
        same(rt, text.len(), 65_536);
        push(rt, &mut text, b"\n");
        text
    }
}

/// A text without its end, and one that is not UTF-8.
const NO_JSON: [LongLine; 2] = [
    LongLine {
        begin: b"\"",
        again: b"a",
        times: 65_535,
        end: b"",
    },
    LongLine {
        begin: b"\"",
        again: b"\xff",
        times: 65_534,
        end: b"\"",
    },
];

/// An array, an object of other keys, and a command of escapes that spells none.
const NO_ENTRY: [LongLine; 3] = [
    LongLine {
        begin: b"[",
        again: b"0,",
        times: 32_766,
        end: b"0 ]",
    },
    LongLine {
        begin: b"{\"a\":0",
        again: b",\"a\":0",
        times: 10_921,
        end: b"   }",
    },
    LongLine {
        begin: b"{\"cmd\":\"",
        again: b"\\u0061",
        times: 10_917,
        end: b"\",\"reply\":\"ok\",\"seat\":0  }",
    },
];

/// A reply of escapes.
const WRONG: LongLine = LongLine {
    begin: b"{\"cmd\":\"limit\",\"reply\":\"",
    again: b"\\u0061",
    times: 10_916,
    end: b"\",\"seat\":0     }",
};

/// What is found of the line behind a header.
fn finds_behind(rt: &impl Abort, alloc: Global, line: &LongLine, found: &str) {
    let mut text = text_of(rt, alloc, &[HEADER]);
    push(rt, &mut text, &line.text(rt, alloc));
    finds(rt, alloc, &text, found);
}

#[test]
fn a_bad_line_has_65_536_bytes_too(rt: HostRuntime) {
    for line in &NO_JSON {
        finds_behind(&rt, rt.alloc(), line, "J2 bad json line 2");
        finds(
            &rt,
            rt.alloc(),
            &line.text(&rt, rt.alloc()),
            "J1 bad header",
        );
    }
    for line in &NO_ENTRY {
        finds_behind(&rt, rt.alloc(), line, "J3 bad record line 2");
        finds(
            &rt,
            rt.alloc(),
            &line.text(&rt, rt.alloc()),
            "J1 bad header",
        );
    }
    let found = "J4 wrong reply line 2 due value 8 limit 7 effective 7";
    finds_behind(&rt, rt.alloc(), &WRONG, found);
}

const LONG_HEADER: LongLine = LongLine {
    begin: b"{\"base\":8,\"hard\":64,\"journal\":1,\"seats\":4",
    again: b" ",
    times: 65_494,
    end: b"}",
};

const LONG_ENTRY: LongLine = LongLine {
    begin: b"{\"cmd\":\"limit\",\"reply\":\"value 8 limit 7 effective 7\",\"seat\":0",
    again: b" ",
    times: 65_474,
    end: b"}",
};

/// A text in memory may be longer than an input: it takes 270 MB, and less than a second.
#[test]
fn a_journal_of_more_than_268_435_456_bytes_is_checked(rt: HostRuntime) {
    let mut text = LONG_HEADER.text(&rt, rt.alloc());
    let entry = LONG_ENTRY.text(&rt, rt.alloc());
    holds(&rt, text.reserve(4_096 * 65_537).is_ok());
    push_often(&rt, &mut text, &entry, 4_096);
    holds(&rt, text.len() > 268_435_456);
    finds(&rt, rt.alloc(), &text, "legal 4096");
}
