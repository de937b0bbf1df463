//! Histories that fill up, and what a chronicle answers at its bounds.
use crate::asserts::{holds, same};
use edit_history::{CallFault, Chronicle, Keeping, MOST_FORGOTTEN, Terms};
use market_texts::reply_text;
use market_types::{ArenaId, Cmd, Entry, Level, OpenFault, Opening, Reply, SeatNo};
use std::alloc::Global;
use std::process::Abort;
use std::rt::HostRuntime;

/// What a caller is told where places are lacking.
const FULL: &str = "C2 history full";

/// A chronicle with a base of 8, a hard limit of 64, four seats, three levels, and so many places.
fn opened(rt: &impl Abort, alloc: Global, places: u32) -> Chronicle {
    let Ok(chronicle) = Chronicle::new(alloc, 8, 64, 4, places, 3) else {
        panic!(rt; "no chronicle");
    };
    chronicle
}

/// These numbers, with the usual last number.
fn terms(base: u32, hard: u32, seats: u8, places: u32, levels: u32, keeping: Keeping) -> Terms {
    Terms {
        opening: Opening::new(base, hard, seats, levels),
        places,
        keeping,
    }
}

/// What a call's caller is told: the text of its reply, or why there is none.
fn text_of(rt: &impl Abort, alloc: Global, answer: &Result<Reply, CallFault>) -> String {
    let text = match answer {
        Ok(reply) => reply_text(alloc, reply),
        Err(fault) => format!(in alloc; "{fault}"),
    };
    let Ok(text) = text else {
        panic!(rt; "no memory");
    };
    text
}

/// Seat 0 gives these commands, and is told this of each.
fn answers(rt: &impl Abort, alloc: Global, chronicle: &mut Chronicle, commands: &[(Cmd, &str)]) {
    for (cmd, due) in commands {
        chronicle.market().has_a_seat();
        let answer = chronicle.call(alloc, SeatNo::new(0), *cmd);
        same(rt, text_of(rt, alloc, &answer).as_str(), *due);
        drop(answer);
    }
}

/// Opens an arena that asks for one worker.
fn open_arena(rt: &impl Abort, alloc: Global, chronicle: &mut Chronicle) {
    let commands = [
        (Cmd::Open(8, 1, Level::from_index(1)), "arena 1"),
        (Cmd::Request(ArenaId::new(1), 1, 0), "request 1"),
    ];
    answers(rt, alloc, chronicle, &commands);
}

/// A chronicle of four places, which an arena's opening, its request and seat 0's join have taken.
fn joined(rt: &impl Abort, alloc: Global) -> Chronicle {
    let mut chronicle = opened(rt, alloc, 4);
    open_arena(rt, alloc, &mut chronicle);
    answers(rt, alloc, &mut chronicle, &[(Cmd::Join, "placed 1")]);
    holds(rt, chronicle.free() == 0 && chronicle.len() == 3);
    chronicle
}

#[test]
fn a_placed_seat_keeps_a_place_for_its_leave(rt: HostRuntime) {
    let mut chronicle = joined(&rt, rt.alloc());
    let commands = [
        (Cmd::Show(ArenaId::new(1)), FULL),
        (Cmd::Stay, FULL),
        (Cmd::Leave, "left 1"),
        (Cmd::Limit, FULL),
    ];
    answers(&rt, rt.alloc(), &mut chronicle, &commands);
    same(&rt, chronicle.len(), 4);
    drop(chronicle);
}

#[test]
fn a_join_needs_two_places(rt: HostRuntime) {
    let mut chronicle = opened(&rt, rt.alloc(), 3);
    open_arena(&rt, rt.alloc(), &mut chronicle);
    let commands = [
        (Cmd::Join, FULL),
        (
            Cmd::Show(ArenaId::new(1)),
            "arena 1 request 1 allot 1 top yes active 0 recall 0 hire 1",
        ),
    ];
    answers(&rt, rt.alloc(), &mut chronicle, &commands);
    same(&rt, chronicle.len(), 3);
    drop(chronicle);
}

/// Why no chronicle was opened.
fn refusal(opening: Result<Chronicle, OpenFault>) -> Option<OpenFault> {
    match opening {
        Ok(_) => None,
        Err(fault) => Some(fault),
    }
}

/// Whether these numbers are refused so, however the chronicle is opened.
fn is_refused(alloc: Global, terms: &Terms, due: OpenFault) -> bool {
    let usual = Chronicle::new(
        alloc,
        terms.opening.base,
        terms.opening.hard,
        terms.opening.seats,
        terms.places,
        terms.opening.levels,
    );
    refusal(usual) == Some(due) && refusal(Chronicle::on_terms(alloc, *terms)) == Some(due)
}

#[test]
fn an_opening_is_refused_by_the_first_number_out_of_range(rt: HostRuntime) {
    let parts = Keeping::InParts;
    let bad = [
        (terms(0, 0, 0, 0, 0, parts), OpenFault::BadBase),
        (terms(8, 0, 0, 0, 0, parts), OpenFault::BadHard),
        (terms(8, 64, 65, 0, 0, parts), OpenFault::BadSeats),
        (terms(8, 64, 4, 0, 0, parts), OpenFault::BadPlaces),
        (terms(8, 64, 4, 1_048_577, 9, parts), OpenFault::BadPlaces),
        (terms(8, 64, 4, 1_048_576, 9, parts), OpenFault::BadLevels),
    ];
    for (terms, due) in &bad {
        holds(&rt, is_refused(rt.alloc(), terms, *due));
    }
    let most = terms(8, 64, 4, 1_048_576, 3, parts);
    holds(
        &rt,
        refusal(Chronicle::on_terms(rt.alloc(), most)).is_none(),
    );
}

#[test]
fn what_is_forgotten_takes_no_place(rt: HostRuntime) {
    let mut chronicle = joined(&rt, rt.alloc());
    same(&rt, chronicle.keeping(), Keeping::Everything);
    chronicle.forget();
    // The seat that is placed has its place for a Leave still.
    holds(&rt, chronicle.free() == 3 && chronicle.len() == 3);
    answers(&rt, rt.alloc(), &mut chronicle, &[(Cmd::Leave, "left 1")]);
    holds(&rt, chronicle.free() == 3 && chronicle.len() == 4);
    drop(chronicle);
}

/// An empty vector with room for so many entries.
fn empty(rt: &impl Abort, alloc: Global, room: usize) -> Vec<Entry> {
    let Ok(spare) = Vec::with_capacity(alloc, room) else {
        panic!(rt; "no memory");
    };
    spare
}

/// The last of these entries is one of this command.
fn end_with(entries: &[Entry], cmd: &Cmd) -> bool {
    match entries.last() {
        Some(entry) => entry.call.cmd == *cmd,
        None => false,
    }
}

/// The entries that are kept are cut out, so many others before them.
fn cut(rt: &impl Abort, chronicle: &mut Chronicle, spare: Vec<Entry>, before: u64) -> Vec<Entry> {
    let Some(part) = chronicle.cut(spare) else {
        panic!(rt; "no part");
    };
    same(rt, part.from, before);
    part.entries
}

/// Of three calls all are cut out, and the seat that they placed can leave.
fn first_is_cut(rt: &impl Abort, alloc: Global, chronicle: &mut Chronicle) -> Vec<Entry> {
    // The seat that is placed has to keep its memory for a Leave.
    holds(rt, chronicle.cut(Vec::new(alloc)).is_none());
    let first = cut(rt, chronicle, empty(rt, alloc, 1), 0);
    holds(rt, first.len() == 3 && end_with(&first, &Cmd::Join));
    same(rt, chronicle.free(), 3);
    answers(rt, alloc, chronicle, &[(Cmd::Leave, "left 1")]);
    holds(rt, end_with(chronicle.kept(), &Cmd::Leave));
    first
}

/// Then the Leave is cut out, and at last nothing.
fn rest_is_cut(rt: &impl Abort, alloc: Global, chronicle: &mut Chronicle, spare: Vec<Entry>) {
    let second = cut(rt, chronicle, spare, 3);
    holds(rt, second.len() == 1 && end_with(&second, &Cmd::Leave));
    // Nobody is placed any more, and nothing was kept: the next part is empty.
    holds(rt, cut(rt, chronicle, Vec::new(alloc), 4).is_empty());
    same(rt, chronicle.len(), 4);
}

#[test]
fn what_is_cut_out_takes_no_place(rt: HostRuntime) {
    let mut chronicle = joined(&rt, rt.alloc());
    let first = first_is_cut(&rt, rt.alloc(), &mut chronicle);
    rest_is_cut(&rt, rt.alloc(), &mut chronicle, first);
    drop(chronicle);
}

/// Seat 0 gives these commands: whether there was memory for all of them.
fn are_answered(alloc: Global, chronicle: &mut Chronicle, commands: &[Cmd]) -> bool {
    for cmd in commands {
        chronicle.market().has_a_seat();
        if chronicle.call(alloc, SeatNo::new(0), *cmd).is_err() {
            return false;
        }
    }
    true
}

/// The entries of a chronicle with one placed seat are cut out, unless there is no memory.
fn is_cut(rt: &impl Abort, alloc: Global, chronicle: &mut Chronicle) -> bool {
    let Ok(spare) = Vec::with_capacity(alloc, 1) else {
        return false;
    };
    holds(rt, chronicle.cut(spare).is_some());
    true
}

#[test]
fn a_refused_growth_spares_the_leave_after_a_cut(rt: HostRuntime) {
    let alloc = rt.alloc();
    let Ok(mut chronicle) = Chronicle::on_terms(alloc, terms(8, 64, 4, 4, 3, Keeping::InParts))
    else {
        return;
    };
    let open = Cmd::Open(8, 1, Level::from_index(1));
    let commands = [open, Cmd::Request(ArenaId::new(1), 1, 0), Cmd::Join];
    if are_answered(alloc, &mut chronicle, &commands) && is_cut(&rt, alloc, &mut chronicle) {
        holds(&rt, are_answered(alloc, &mut chronicle, &[Cmd::Leave]));
        same(&rt, chronicle.market().placed(), 0);
    }
    drop(chronicle);
}

/// Seat 0 gives these commands, is told this of each, and none of them is kept.
fn answers_unkept(
    rt: &impl Abort,
    alloc: Global,
    chronicle: &mut Chronicle,
    commands: &[(Cmd, &str)],
) {
    for (cmd, due) in commands {
        chronicle.market().has_a_seat();
        holds(rt, chronicle.len() < MOST_FORGOTTEN);
        chronicle.forget();
        let answer = chronicle.answer(alloc, SeatNo::new(0), *cmd, false);
        same(rt, text_of(rt, alloc, &answer).as_str(), *due);
        holds(rt, chronicle.kept().is_empty());
        drop(answer);
    }
}

#[test]
fn an_answer_that_is_not_kept_takes_no_place(rt: HostRuntime) {
    let alloc = rt.alloc();
    let mut chronicle = opened(&rt, alloc, 2);
    let none = [
        (Cmd::Open(8, 1, Level::from_index(1)), "arena 1"),
        (Cmd::Request(ArenaId::new(1), 1, 0), "request 1"),
        (Cmd::Close(ArenaId::new(2)), "F05 no arena"),
        (Cmd::Join, "placed 1"),
        (Cmd::Leave, "left 1"),
    ];
    answers_unkept(&rt, alloc, &mut chronicle, &none);
    holds(&rt, chronicle.len() == 5 && chronicle.free() == 2);
    let limit = [
        (Cmd::Limit, "value 8 limit 7 effective 7"),
        (Cmd::Join, FULL),
    ];
    answers(&rt, alloc, &mut chronicle, &limit);
    holds(&rt, end_with(chronicle.kept(), &Cmd::Limit));
    holds(&rt, chronicle.len() == 6 && chronicle.free() == 1);
    drop(chronicle);
}

/// The fault has that text.
fn is_told(rt: &impl Abort, alloc: Global, fault: CallFault, text: &str) {
    let Ok(told) = format!(in alloc; "{fault}") else {
        panic!(rt; "no memory");
    };
    same(rt, told.as_str(), text);
}

#[test]
fn a_fault_has_its_text(rt: HostRuntime) {
    is_told(&rt, rt.alloc(), CallFault::Memory, "C1 memory");
    is_told(&rt, rt.alloc(), CallFault::HistoryFull, "C2 history full");
}
