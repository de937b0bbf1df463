//! As long as one of these fails, a growth of the other tests was refused: whatever such a test asks for is asked for here too,
//! and never again.
ghost use Rattle.std.specs.Prelude.{◌≡◌};

use super::chronicles::FOREIGN;
use super::engines::{Engine, JOURNAL, replay};
use crate::asserts::{holds, same};
use byte_devices::TestSink;
use edit_history::Chronicle;
use journal_replay::{check, write_journal};
use level_list::LevelList;
use market_texts::{cmd_text, reply_text};
use market_types::{ArenaId, Cmd, Level, Reply, Row, SeatNo};
use recall_hire::Roster;
use std::alloc::Global;
use std::process::Abort;
use std::rt::HostRuntime;
use wide_rows::Levels;

/// The row of arena 1, which asks for 5 workers.
fn row() -> Row
    ensures { result.request ≡ 5 }
{
    Row {
        stamp: 1,
        arena: ArenaId::new(1),
        request: 5,
        mandated: false,
    }
}

/// Rows, seats and texts.
#[test]
fn what_is_written_is_granted(rt: HostRuntime) {
    let alloc = rt.alloc();
    let mut rows = LevelList::new();
    holds(&rt, rows.push(alloc, row()).is_ok());
    let mut levels = Levels::new(alloc);
    holds(&rt, levels.push(alloc, 0, row(), &mut 0).is_ok());
    holds(&rt, Roster::new(alloc, 64).is_ok());
    let request = Cmd::Request(ArenaId::new(1_048_576), -1, -1);
    for _ in 0..9 {
        holds(&rt, cmd_text(alloc, &request, 3).is_ok());
        holds(&rt, reply_text(alloc, &Reply::Requested(65_535)).is_ok());
    }
    drop(levels);
    drop(rows);
}

/// A call of seat 0 is answered.
fn call(rt: &impl Abort, alloc: Global, chronicle: &mut Chronicle, cmd: &Cmd)
    ensures { chronicle.new.from ≡ chronicle.old.from }
{
    chronicle.market().has_a_seat();
    let told = chronicle.call(alloc, SeatNo::new(0), *cmd);
    holds(rt, told.is_ok());
    drop(told);
}

fn recorded(rt: &impl Abort, alloc: Global) -> Chronicle
    ensures { result.from ≡ 0 }
{
    let Ok(mut chronicle) = Chronicle::new(alloc, 8, 64, 4, 100, 3) else {
        panic!(rt; "no chronicle");
    };
    let open = Cmd::Open(8, 1, Level::from_index(1));
    call(rt, alloc, &mut chronicle, &open);
    let request = Cmd::Request(ArenaId::new(1), 3, 0);
    call(rt, alloc, &mut chronicle, &request);
    call(rt, alloc, &mut chronicle, &Cmd::Lists);
    call(rt, alloc, &mut chronicle, &Cmd::Join);
    call(rt, alloc, &mut chronicle, &Cmd::Leave);
    chronicle
}

#[test]
fn what_is_recorded_is_granted(rt: HostRuntime) {
    let chronicle = recorded(&rt, rt.alloc());
    let Ok(memory) = Vec::with_capacity(rt.alloc(), 4096) else {
        panic!(&rt; "no memory");
    };
    let mut sink = TestSink::new(memory);
    same(
        &rt,
        write_journal(rt.alloc(), &chronicle, &mut sink),
        Ok(()),
    );
    drop(sink);
    drop(chronicle);
}

#[test]
fn what_is_checked_is_granted(rt: HostRuntime) {
    holds(&rt, check(rt.alloc(), JOURNAL).is_ok());
    holds(&rt, check(rt.alloc(), FOREIGN).is_ok());
}

fn is_granted(rt: &impl Abort, alloc: Global, engine: Engine) {
    let (told, _sink) = engine.run(rt, alloc);
    same(rt, told, Ok(0));
}

#[test]
fn what_is_run_is_granted(rt: HostRuntime) {
    is_granted(&rt, rt.alloc(), Engine::Run);
}

#[test]
fn what_is_run_for_its_journal_is_granted(rt: HostRuntime) {
    is_granted(&rt, rt.alloc(), Engine::Journal);
}

#[test]
fn what_is_explained_is_granted(rt: HostRuntime) {
    is_granted(&rt, rt.alloc(), Engine::Explain);
}

#[test]
fn what_is_replayed_is_granted(rt: HostRuntime) {
    let (told, _sink) = replay(&rt, rt.alloc(), JOURNAL);
    holds(&rt, told.is_ok());
}
