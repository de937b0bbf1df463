//! Texts of commands and replies.
use crate::asserts::{holds, same};
use market_texts::{cmd_text, push_reply, reply_text};
use market_types::{ArenaId, Cmd, Correction, Imbalance, Lists, Reply};
use std::alloc::{AllocError, Global};
use std::rt::HostRuntime;

/// The longest text of a request's three numbers.
const ASKED: &str = "request 1048576 -2147483648 -2147483648";

fn asked() -> Cmd {
    Cmd::Request(ArenaId::new(1_048_576), i32::MIN, i32::MIN)
}

#[test]
fn a_refused_growth_leaves_a_command_to_be_written(rt: HostRuntime) -> Result<(), AllocError> {
    let text = match cmd_text(rt.alloc(), &asked(), 3) {
        Ok(text) => text,
        Err(_) => cmd_text(rt.alloc(), &asked(), 3)?,
    };
    same(&rt, text.as_str(), ASKED);
    Ok(())
}

/// An item with six digits and the colon, again and again.
fn long_lists(alloc: Global, items: usize) -> Result<Lists, AllocError> {
    let item = Imbalance {
        arena: ArenaId::new(104_857),
        correction: Correction::Hire,
        count: 65_535,
    };
    Ok(Lists {
        arenas: vec![in alloc; item; items]?,
    })
}

fn lists_again(alloc: Global, items: usize) -> Result<Reply, AllocError> {
    let lists = match long_lists(alloc, items) {
        Ok(lists) => lists,
        Err(_) => long_lists(alloc, items)?,
    };
    Ok(Reply::Listed(lists))
}

#[test]
fn a_refused_growth_leaves_a_reply_to_be_written(rt: HostRuntime) -> Result<(), AllocError> {
    let reply = lists_again(rt.alloc(), 40)?;
    let text = match reply_text(rt.alloc(), &reply) {
        Ok(text) => text,
        Err(_) => reply_text(rt.alloc(), &reply)?,
    };
    holds(
        &rt,
        text.as_str()
            .starts_with("recall - hire 104857:65535,104857:65535,"),
    );
    same(&rt, text.len(), 14 + 40 * 12 + 39);
    Ok(())
}

#[test]
fn a_refused_growth_leaves_what_was_written(rt: HostRuntime) -> Result<(), AllocError> {
    let reply = lists_again(rt.alloc(), 40)?;
    let mut out = Vec::new(rt.alloc());
    if push_reply(&mut out, &Reply::Idle).is_err() {
        holds(&rt, out.is_empty());
        push_reply(&mut out, &Reply::Idle)?;
    }
    if push_reply(&mut out, &reply).is_err() {
        same(&rt, out.as_slice(), b"idle".as_slice());
        push_reply(&mut out, &reply)?;
    }
    same(&rt, out.len(), 4 + 14 + 40 * 12 + 39);
    Ok(())
}
