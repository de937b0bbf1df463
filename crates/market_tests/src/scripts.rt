//! Scripts and their replies, beside those of `example_scripts`.
use crate::asserts::{holds, same};
use crate::work::new_sink;
use byte_devices::TestSource;
use market_prog::run_script;
use market_types::{LastNumber, Opening};
use market_words::USUAL_MARKET;
use std::alloc::Global;
use std::process::Abort;
use std::rt::HostRuntime;

/// The script to a market of these options is answered by these replies, with so many of its lines unread.
fn answers_of(
    rt: &impl Abort,
    alloc: Global,
    options: Opening,
    script: &[u8],
    replies: &[u8],
    unread: u64,
) {
    let mut source = TestSource::new(script);
    let mut sink = new_sink(rt, alloc);
    let told = run_script(alloc, options, &mut source, &mut sink);
    same(rt, sink.taken(), replies);
    same(rt, told, Ok(unread));
    drop(sink);
}

/// The same of a usual market.
fn answers(rt: &impl Abort, alloc: Global, script: &[u8], replies: &[u8], unread: u64) {
    answers_of(rt, alloc, USUAL_MARKET, script, replies, unread);
}

/// The same of a market whose arenas, stamps and controls are numbered to 3.
fn answers_to_three(rt: &impl Abort, alloc: Global, script: &[u8], replies: &[u8]) {
    let Some(last) = LastNumber::new(3) else {
        panic!(rt; "no last number");
    };
    let options = Opening {
        last,
        ..USUAL_MARKET
    };
    answers_of(rt, alloc, options, script, replies, 0);
}

#[test]
fn the_fourth_of_each_kind_has_no_number(rt: HostRuntime) {
    answers_to_three(
        &rt,
        rt.alloc(),
        b"0 open 8\n0 close 1\n0 open 8\n0 open 8\n0 open 8\n0 control 4\n",
        b"arena 1\nok\narena 2\narena 3\nF04 out of numbers\ncontrol 1\n",
    );
    answers_to_three(
        &rt,
        rt.alloc(),
        b"0 open 8\n0 priority 1 low\n0 priority 1 high\n0 priority 1 low\n0 open 8\n0 limit\n",
        b"arena 1\nok\nok\nF04 out of numbers\nF04 out of numbers\nvalue 8 limit 7 effective 7\n",
    );
    answers_to_three(
        &rt,
        rt.alloc(),
        b"0 control 4\n0 uncontrol 1\n0 control 5\n0 control 6\n0 control 6\n0 open 8\n",
        b"control 1\nok\ncontrol 2\ncontrol 3\nF04 out of numbers\narena 1\n",
    );
}

#[test]
fn a_last_line_without_its_end_is_answered(rt: HostRuntime) {
    answers(&rt, rt.alloc(), b"", b"", 0);
    let limit = b"value 8 limit 7 effective 7\n";
    answers(&rt, rt.alloc(), b"0 limit", limit, 0);
}

#[test]
fn a_line_of_more_than_256_bytes_is_unread(rt: HostRuntime) {
    let mut long = [b'0'; 257];
    answers(&rt, rt.alloc(), &long, b"unread\n", 1);
    for size in [1, 100, 256] {
        let mut source = TestSource::new(&long).in_pieces_of(size);
        let mut sink = new_sink(&rt, rt.alloc());
        let told = run_script(rt.alloc(), USUAL_MARKET, &mut source, &mut sink);
        holds(&rt, told == Ok(1) && sink.taken() == b"unread\n".as_slice());
        drop(sink);
    }
    long[0] = b'#';
    answers(&rt, rt.alloc(), &long, b"", 0);
}
