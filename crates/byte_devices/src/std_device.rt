//! Devices over std's readers and writers.
ghost use Rattle.std.specs.Prelude.{◌≡◌, false};

use crate::device::{DeviceFault, Sink, Source};
use std::io::{Read, Write};

/// A reader of std as a source. A read asks the reader once and hands on its answer. Any error, an interruption too, is a failure,
/// and isn't tried again.
#[derive(Drop)]
pub struct ReadSource<R> {
    reader: R,
    failed: bool,
    ended: bool,
}

impl<R: Read> ReadSource<R> {
    /// The source of what the reader has left.
    pub fn new(reader: R) -> Self
        ensures left { ⟦<ReadSource<R> as Source>⟧.left result ≡ R.remaining reader }
        ensures working { ⟦<ReadSource<R> as Source>⟧.failed result ≡ false }
        ensures begins { ⟦<ReadSource<R> as Source>⟧.ended result ≡ false }
    {
        ReadSource {
            reader,
            failed: false,
            ended: false,
        }
    }
}

impl<R: Read> Source for ReadSource<R> {
    ghost left = { λ s. R.remaining s.reader };

    ghost failed = { λ s. s.failed };

    ghost ended = { λ s. s.ended };

    fn read(&mut self, buffer: &mut [u8]) -> Result<usize, DeviceFault> {
        let Ok(count) = self.reader.read(buffer) else {
            self.failed = true;
            return Err(DeviceFault);
        };
        if count == 0 && !buffer.is_empty() {
            self.ended = true;
        }
        Ok(count)
    }

    fn failed(&self) -> bool {
        self.failed
    }

    fn ended(&self) -> bool {
        self.ended
    }
}

/// A writer of std as a sink. A write asks the writer once and hands on its answer. Any error, an interruption too, is a failure,
/// and isn't tried again.
#[derive(Drop)]
pub struct WriteSink<W> {
    writer: W,
    failed: bool,
}

impl<W: Write> WriteSink<W> {
    /// The sink that adds to what the writer has.
    pub fn new(writer: W) -> Self
        ensures taken { ⟦<WriteSink<W> as Sink>⟧.taken result ≡ W.contents writer }
        ensures working { ⟦<WriteSink<W> as Sink>⟧.failed result ≡ false }
    {
        WriteSink {
            writer,
            failed: false,
        }
    }
}

impl<W: Write> Sink for WriteSink<W> {
    ghost taken = { λ s. W.contents s.writer };

    ghost failed = { λ s. s.failed };

    fn write(&mut self, bytes: &[u8]) -> Result<usize, DeviceFault> {
        let Ok(count) = self.writer.write(bytes) else {
            self.failed = true;
            return Err(DeviceFault);
        };
        if count == 0 && !bytes.is_empty() {
            self.failed = true;
        }
        Ok(count)
    }

    fn failed(&self) -> bool {
        self.failed
    }
}
