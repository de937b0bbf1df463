//! Devices for more bytes than memory should hold.
ghost use Rattle.std.specs.Prelude.{◌≡◌, false};

use byte_devices::{DeviceFault, Sink, Source};

/// A source of `#` without end.
#[derive(Drop)]
pub(crate) struct Hashes;

impl Source for Hashes {
    ghost use Rattle.std.specs.Prelude.{None, false};

    ghost left = { λ _. None };

    ghost failed = { λ _. false };

    ghost ended = { λ _. false };

    fn read(&mut self, buffer: &mut [u8]) -> Result<usize, DeviceFault> {
        buffer.fill(b'#');
        Ok(buffer.len())
    }

    fn failed(&self) -> bool {
        false
    }

    fn ended(&self) -> bool {
        false
    }
}

/// A source of a first line, and then of another so many times.
#[derive(Drop)]
pub(crate) struct Repeated {
    /// What is left of the line that is being given.
    rest: &'static [u8],
    line: &'static [u8],
    lines: u32,
    ended: bool,
}

impl Repeated {
    /// The first line, and then the other so many times; each has its line end.
    pub fn new(first: &'static [u8], line: &'static [u8], lines: u32) -> Self
        ensures { result.ended ≡ false }
    {
        Repeated {
            rest: first,
            line,
            lines,
            ended: false,
        }
    }
}

impl Source for Repeated {
    ghost use Rattle.std.specs.Prelude.{None, false};

    ghost left = { λ _. None };

    ghost failed = { λ _. false };

    ghost ended = { λ s. s.ended };

    fn read(&mut self, buffer: &mut [u8]) -> Result<usize, DeviceFault> {
        if self.rest.is_empty() && self.lines > 0 {
            self.lines -= 1;
            self.rest = self.line;
        }
        let count = self.rest.len().min(buffer.len());
        let (given, rest) = self.rest.split_at(count);
        buffer[..count].copy_from_slice(given);
        self.rest = rest;
        if count == 0 && !buffer.is_empty() {
            self.ended = true;
        }
        Ok(count)
    }

    fn failed(&self) -> bool {
        false
    }

    fn ended(&self) -> bool {
        self.ended
    }
}

/// A sink that counts the lines that it takes.
#[derive(Drop)]
pub(crate) struct LineCount {
    lines: usize,
}

impl LineCount {
    /// Before the first line.
    pub fn new() -> Self {
        LineCount { lines: 0 }
    }

    /// How many lines were ended.
    pub fn lines(&self) -> usize {
        self.lines
    }
}

impl Sink for LineCount {
    ghost use Rattle.std.specs.Prelude.{None, false};

    ghost taken = { λ _. None };

    ghost failed = { λ _. false };

    fn write(&mut self, bytes: &[u8]) -> Result<usize, DeviceFault> {
        let ended = bytes.iter().filter(|byte| **byte == b'\n').count();
        self.lines = self.lines.saturating_add(ended);
        Ok(bytes.len())
    }

    fn failed(&self) -> bool {
        false
    }
}
