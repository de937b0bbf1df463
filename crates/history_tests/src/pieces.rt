//! Tests that a journal is handed out by pieces of any size, each byte once and in order, with ample memory.

use crate::asserts::holds;
use edit_history::Part;
use journal_replay::{Extent, Header};
use journal_text::Unread;
use market_types::{ArenaId, Call, Cmd, Entry, Level, Opening, Reply, SeatNo};
use std::alloc::Global;
use std::process::Abort;
use std::rt::HostRuntime;

/// Base 8, hard limit 64, two seats, three levels.
fn header() -> Header {
    Header {
        opening: Opening::new(8, 64, 2, 3),
        extent: Extent::Endless,
    }
}

/// The journal of an Open by one seat, and of a Join by another.
const TEXT: &[u8] =
    b"{\"base\":8,\"hard\":64,\"journal\":3,\"last\":1048576,\"levels\":3,\"seats\":2}\n{\"cmd\":\"open 8 1 normal\",\"reply\":\"arena 1\",\"seat\":0}\n{\"cmd\":\"join\",\"reply\":\"idle\",\"seat\":1}\n";

/// A part of one entry, behind so many others.
fn part_of(
    rt: &impl Abort,
    alloc: Global,
    from: u64,
    seat: SeatNo,
    cmd: Cmd,
    reply: Reply,
) -> Part {
    let call = Call { seat, cmd };
    let Ok(entries) = vec![in alloc; Entry { call, reply }] else {
        panic!(rt; "no memory");
    };
    Part { from, entries }
}

/// Reads more often than there are bytes, into this buffer, and puts what it is given behind the text.
fn read_on(
    rt: &impl Abort,
    alloc: Global,
    unread: &mut Unread,
    buffer: &mut [u8],
    text: &mut Vec<u8>,
) {
    for _ in 0..TEXT.len() {
        let Ok(count) = unread.read(alloc, buffer) else {
            panic!(rt; "no memory");
        };
        holds(rt, count <= buffer.len());
        for byte in buffer.iter().take(count) {
            holds(rt, text.push(*byte).is_ok());
        }
    }
}

/// The part is put behind what was read, waits, and is read to its end.
fn put_and_read(
    rt: &impl Abort,
    alloc: Global,
    unread: &mut Unread,
    part: Part,
    buffer: &mut [u8],
    text: &mut Vec<u8>,
) {
    if unread.waits() {
        panic!(rt; "a part waits before it is put");
    }
    unread.put(3, part);
    holds(rt, unread.waits());
    holds(rt, !unread.is_empty());
    read_on(rt, alloc, unread, buffer, text);
    holds(rt, unread.is_empty());
}

/// A journal with two parts is read by pieces as large as this buffer.
fn read_by(rt: &impl Abort, alloc: Global, buffer: &mut [u8]) {
    let Ok(unread) = Unread::new(alloc, header()) else {
        panic!(rt; "no memory");
    };
    let mut unread = unread;
    holds(rt, !unread.is_empty());
    let mut text = Vec::new(alloc);
    let open = Cmd::Open(8, 1, Level::from_index(1));
    let opened = Reply::Opened(ArenaId::new(1));
    let first = part_of(rt, alloc, 0, SeatNo::new(0), open, opened);
    put_and_read(rt, alloc, &mut unread, first, buffer, &mut text);
    let second = part_of(rt, alloc, 1, SeatNo::new(1), Cmd::Join, Reply::Idle);
    put_and_read(rt, alloc, &mut unread, second, buffer, &mut text);
    holds(rt, text.as_slice() == TEXT);
}

#[test]
fn each_byte_is_handed_out_once(rt: HostRuntime) {
    read_by(&rt, rt.alloc(), &mut [0; 1]);
    read_by(&rt, rt.alloc(), &mut [0; 7]);
    read_by(&rt, rt.alloc(), &mut [0; 64]);
    read_by(&rt, rt.alloc(), &mut [0; 256]);
}

#[test]
fn a_buffer_without_room_is_given_nothing(rt: HostRuntime) {
    let Ok(unread) = Unread::new(rt.alloc(), header()) else {
        panic!(&rt; "no memory");
    };
    let mut unread = unread;
    holds(&rt, matches!(unread.read(rt.alloc(), &mut []), Ok(0)));
    holds(&rt, !unread.is_empty());
}
