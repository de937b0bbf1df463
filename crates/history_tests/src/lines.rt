//! A taker that keeps a log of how its lines came, and says nothing of them.
ghost use Rattle.std.specs.Prelude.{◌<◌};

use crate::asserts::{holds, same};
use byte_devices::{TestSink, TestSource};
use line_engine::{InputFault, LONGEST_INPUT, LineForm, LineTaker, take_lines, take_text};
use std::alloc::{AllocError, Global};
use std::process::Abort;
use std::rt::HostRuntime;

/// Why the log ends early.
#[derive(Clone, Copy, Debug, PartialEq, Eq)]
enum LogFault {
    Memory,
    /// The line began with `!`.
    Asked,
}

/// Each line behind a letter for its form, and before a space.
#[derive(Drop)]
struct Log {
    text: Vec<u8>,
}

impl Log {
    fn add(&mut self, letter: u8, line: &[u8]) -> Result<(), AllocError> {
        self.text.push(letter)?;
        self.text.extend_from_slice(line)?;
        self.text.push(b' ')?;
        Ok(())
    }
}

impl LineTaker for Log {
    ghost use Rattle.std.specs.Prelude.{⊤, []};
    ghost use Rattle.std.proofs.Common.{le_refl};
    ghost use Rattle.line_engine.specs.Input.{longest_input};

    type Fault = LogFault;

    const LONGEST: u32 = 4;

    ghost LONGEST = { 4 };

    ghost State = { Unit {0} };

    ghost state = { λ _. tt };

    ghost rule = { record { reply = λ _ _. []; next = λ _ _. tt } };

    ghost stops = { λ _ _ _. ⊤ };

    ghost count = { λ _. 0 };

    ghost most_bytes = { λ _. longest_input };

    ghost grows = { λ _ _. le_refl longest_input };

    fn most_bytes(&self) -> u64 {
        LONGEST_INPUT
    }

    fn take_line(
        &mut self,
        line: &[u8],
        form: LineForm,
        _replies: &mut Vec<u8>,
    ) -> Result<(), LogFault> {
        if line.first() == Some(&b'!') {
            return Err(LogFault::Asked);
        }
        let letter = match form {
            LineForm::Whole => b'w',
            LineForm::WithoutLf => b'n',
            LineForm::TooLong => b'l',
        };
        self.add(letter, line).map_err(|_| LogFault::Memory)
    }
}

/// An empty log.
fn new_log(alloc: Global) -> Log {
    Log {
        text: Vec::new(alloc),
    }
}

/// The input's lines, given in pieces of that size, are logged so; nothing is written.
fn logs_pieces(rt: &impl Abort, alloc: Global, input: &[u8], size: usize, log: &[u8])
    requires { 0 < size }
{
    let mut source = TestSource::new(input).in_pieces_of(size);
    let mut sink = TestSink::new(Vec::new(alloc));
    let Ok(last) = take_lines(alloc, new_log(alloc), &mut source, &mut sink) else {
        panic!(rt; "the lines were not taken");
    };
    same(rt, last.text.as_slice(), log);
    holds(rt, sink.taken().is_empty());
    drop(sink);
}

/// The lines of the whole input are logged so.
fn logs_text(rt: &impl Abort, alloc: Global, input: &[u8], log: &[u8]) {
    let Ok(last) = take_text(alloc, new_log(alloc), input) else {
        panic!(rt; "the text was not taken");
    };
    same(rt, last.text.as_slice(), log);
}

/// The input's lines are logged so, in pieces of that size and at once.
fn logs(rt: &impl Abort, alloc: Global, input: &[u8], size: usize, log: &[u8])
    requires { 0 < size }
{
    logs_pieces(rt, alloc, input, size, log);
    logs_text(rt, alloc, input, log);
}

#[test]
fn lines_come_in_their_forms(rt: HostRuntime) {
    for size in 1..20 {
        logs(&rt, rt.alloc(), b"", size, b"");
        logs(&rt, rt.alloc(), b"a", size, b"na ");
        logs(&rt, rt.alloc(), b"\n", size, b"w ");
        logs(
            &rt,
            rt.alloc(),
            b"ab\n\nabcd\nabcde\nabcdef\nx",
            size,
            b"wab w wabcd labcd labcd nx ",
        );
        logs(&rt, rt.alloc(), b"x\nabcd", size, b"wx nabcd ");
        logs(&rt, rt.alloc(), b"x\nabcde", size, b"wx labcd ");
    }
}

/// The taker stops at a line of the input.
fn stops_in_lines(rt: &impl Abort, alloc: Global, input: &[u8]) {
    let mut source = TestSource::new(input);
    let mut sink = TestSink::new(Vec::new(alloc));
    let stopped = take_lines(alloc, new_log(alloc), &mut source, &mut sink);
    holds(
        rt,
        matches!(&stopped, Err(InputFault::Taker(LogFault::Asked))),
    );
    drop(sink);
}

/// It stops at a line of the text.
fn stops_in_text(rt: &impl Abort, alloc: Global, input: &[u8]) {
    let stopped = take_text(alloc, new_log(alloc), input);
    holds(
        rt,
        matches!(&stopped, Err(InputFault::Taker(LogFault::Asked))),
    );
}

#[test]
fn a_taker_stops(rt: HostRuntime) {
    for input in [b"a\n!\nb\n".as_slice(), b"a\n!".as_slice()] {
        stops_in_lines(&rt, rt.alloc(), input);
        stops_in_text(&rt, rt.alloc(), input);
    }
}

/// Counts its lines. An input may have 8 bytes, and 64 once its first line was taken.
#[derive(Drop)]
struct Growing {
    lines: u64,
}

impl LineTaker for Growing {
    ghost use Rattle.std.specs.Prelude.{ℕ, ◌+◌, ◌==◌, if◌then◌else◌, ⊤, []};
    ghost use Rattle.std.proofs.Common.{arith};
    ghost use Rattle.std.proofs.lemmas.Bool.Decides.{nat_tests};

    type Fault = LogFault;

    const LONGEST: u32 = 64;

    ghost LONGEST = { 64 };

    ghost State = { ℕ };

    ghost state = { λ t. t.lines };

    ghost rule = { record { reply = λ _ _. []; next = λ lines _. lines + 1 } };

    ghost stops = { λ _ _ _. ⊤ };

    ghost count = { λ t. t.lines };

    ghost most_bytes = { λ lines. if lines == 0 then 8 else 64 };

    ghost grows = { λ lines _. Prim.grind (arith, nat_tests) };

    fn most_bytes(&self) -> u64 {
        if self.lines == 0 { 8 } else { 64 }
    }

    fn take_line(
        &mut self,
        _line: &[u8],
        _form: LineForm,
        _replies: &mut Vec<u8>,
    ) -> Result<(), LogFault> {
        self.lines += 1;
        Ok(())
    }
}

/// The input, given in pieces of that size, is taken as so many lines, or is too long.
fn lengthens(rt: &impl Abort, alloc: Global, input: &[u8], size: usize, lines: Option<u64>)
    requires { 0 < size }
{
    let mut source = TestSource::new(input).in_pieces_of(size);
    let mut sink = TestSink::new(Vec::new(alloc));
    let taken = take_lines(alloc, Growing { lines: 0 }, &mut source, &mut sink);
    let told = match &taken {
        Ok(last) => Some(last.lines),
        Err(fault) => {
            same(rt, *fault, InputFault::TooLong);
            None
        }
    };
    same(rt, told, lines);
    drop(sink);
}

#[test]
fn lines_lengthen_an_input(rt: HostRuntime) {
    let dots = [b'.'; 65];
    let mut cut = [b'.'; 65];
    cut[4] = b'\n';
    for size in 1..20 {
        lengthens(&rt, rt.alloc(), &dots[..8], size, Some(1));
        lengthens(&rt, rt.alloc(), &dots[..9], size, None);
        lengthens(&rt, rt.alloc(), &cut[..8], size, Some(2));
        // The piece that ends the first line must itself be within 8 bytes.
        let told = if size <= 8 { Some(2) } else { None };
        lengthens(&rt, rt.alloc(), &cut[..64], size, told);
        lengthens(&rt, rt.alloc(), &cut, size, None);
    }
}
