//! Tests that a device asks its reader or writer once for each call and hands on what it is told. No clause can say so: the contracts
//! of std's `Read` and `Write` speak of bytes, and not of how often either was asked.
ghost use Rattle.std.specs.Prelude.{◌≤◌, IfOk};

use crate::{DeviceFault, ReadSource, Sink, Source, WriteSink};
use std::io::{self, ErrorKind, Read, Write};
use std::rt::HostRuntime;

/// What a reader or a writer answers to one call.
#[derive(Clone, Copy, Debug)]
enum Answer {
    /// It gives or takes so many bytes, where there is room for them.
    Count(usize),
    /// The call is interrupted.
    Interrupted,
    /// The call fails.
    Broken,
}

/// Two faults with a good answer after each, an end that isn't one, and answers that leave room in the buffer.
const ANSWERS: [Answer; 8] = [
    Answer::Count(2),
    Answer::Interrupted,
    Answer::Count(3),
    Answer::Broken,
    Answer::Count(1),
    Answer::Count(0),
    Answer::Count(8),
    Answer::Broken,
];

impl Answer {
    /// What the device has to hand on.
    fn due(self) -> Result<usize, DeviceFault> {
        match self {
            Answer::Count(count) => Ok(count),
            Answer::Interrupted | Answer::Broken => Err(DeviceFault),
        }
    }
}

/// Answers as it is told, once for each call, and then as at an end.
#[derive(Drop)]
struct Scripted<'a> {
    answers: &'a [Answer],
}

impl Scripted<'_> {
    fn next(&mut self, room: usize) -> io::Result<usize>
        ensures { IfOk result (λ count. count ≤ room) }
    {
        let Some((first, rest)) = self.answers.split_first() else {
            return Ok(0);
        };
        self.answers = rest;
        match *first {
            Answer::Count(count) => Ok(count.min(room)),
            Answer::Interrupted => Err(io::Error::from(ErrorKind::Interrupted)),
            Answer::Broken => Err(io::Error::from(ErrorKind::BrokenPipe)),
        }
    }
}

impl Read for Scripted<'_> {
    fn read(&mut self, buffer: &mut [u8]) -> io::Result<usize> {
        self.next(buffer.len())
    }
}

impl Write for Scripted<'_> {
    fn write(&mut self, bytes: &[u8]) -> io::Result<usize> {
        self.next(bytes.len())
    }

    fn flush(&mut self) -> io::Result<()> {
        Ok(())
    }
}

#[test]
fn a_read_asks_the_reader_once(rt: HostRuntime) {
    let mut source = ReadSource::new(Scripted { answers: &ANSWERS });
    for (at, answer) in ANSWERS.iter().enumerate() {
        let told = source.read(&mut [0; 8]);
        assert_eq!(rt; told, answer.due(), "answer {at}");
    }
}

#[test]
fn a_write_asks_the_writer_once(rt: HostRuntime) {
    let mut sink = WriteSink::new(Scripted { answers: &ANSWERS });
    for (at, answer) in ANSWERS.iter().enumerate() {
        let told = sink.write(&[0; 8]);
        assert_eq!(rt; told, answer.due(), "answer {at}");
    }
}
