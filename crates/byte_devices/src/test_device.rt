//! Devices over memory, for tests: they give and take bytes in pieces, and fail where the test says.
ghost use Rattle.std.specs.Prelude.{◌≡◌, ◌-◌, ◌<◌, ◌≤◌, ◌&&◌, ◌||◌, ◌==◌, nat_lt, min, ◌++◌, [], length, take, true, vec_len, vec_capacity, IfOk, OnOk, OnErr, is_err};
ghost use Rattle.std.specs.Io.KnownBytes.{Consumes, Appends, IsAtEnd};
ghost use Rattle.byte_devices.specs.TestDevices.{whole_input, is_spent, given_into, after_read, whole_output, taken_of, is_refused, is_fault, after_write};

use crate::device::{DeviceFault, Sink, Source};
use std::marker::Model;

/// The bytes of a slice as a source.
#[derive(Drop)]
pub struct TestSource<'a> {
    bytes: &'a [u8],
    piece: usize,
    good_reads: Option<u64>,
    failed: bool,
    ended: bool,
}

impl<'a> Model for TestSource<'a> {
    ghost use Rattle.std.specs.Prelude.{◌<◌};
    ghost use Rattle.byte_devices.specs.TestDevices.{TestInput};

    ghost Value = { TestInput };

    ghost view = { λ s. record { left = s.bytes.now; piece = s.piece; good_reads = s.good_reads; failed = s.failed; ended = s.ended } };

    ghost invariant = { λ s. 0 < s.piece };
}

impl<'a> TestSource<'a> {
    /// The source of all of the bytes: a read gives as many as the buffer has room for, and none fails.
    pub fn new(bytes: &'a [u8]) -> Self
        ensures { result ≡ whole_input bytes.now }
    {
        TestSource {
            bytes,
            piece: usize::MAX,
            good_reads: None,
            failed: false,
            ended: false,
        }
    }

    /// The same source, of which a read gives at most `piece` bytes.
    pub fn in_pieces_of(self, piece: usize) -> Self
        requires { 0 < piece }
        ensures { result ≡ record self.entry { piece = piece } }
    {
        TestSource { piece, ..self }
    }

    /// The same source, of which that many reads are good and all later ones fail.
    pub fn failing_after(self, reads: u64) -> Self
        ensures { result ≡ record self.entry { good_reads = Some reads } }
    {
        TestSource {
            good_reads: Some(reads),
            ..self
        }
    }

    /// How many bytes a read gives into a buffer with that room.
    fn given_into(&self, room: usize) -> usize
        ensures exact { result ≡ given_into self.now room }
        ensures within { result ≤ room }
        ensures some { result ≤ length self.now.left }
    {
        self.bytes.len().min(room).min(self.piece)
    }
}

impl<'a> Source for TestSource<'a> {
    ghost use Rattle.std.specs.Prelude.{Some};

    ghost left = { λ s. Some s.left };

    ghost failed = { λ s. s.failed };

    ghost ended = { λ s. s.ended };

    fn read(&mut self, buffer: &mut [u8]) -> Result<usize, DeviceFault>
        ensures within { IfOk result (λ n. n ≤ length buffer.new) }
        ensures given { IfOk result (λ n. Consumes (Some self.old.left) (Some self.new.left) (take n buffer.new)) }
        ensures none_given { OnErr result (Consumes (Some self.old.left) (Some self.new.left) []) }
        ensures failed { self.new.failed ≡ (self.old.failed || is_err result) }
        ensures ended { IfOk result (λ n. self.new.ended ≡ (self.old.ended || (n == 0 && nat_lt 0 (length buffer.old)))) }
        ensures not_ended { OnErr result (self.new.ended ≡ self.old.ended) }
        ensures at_end { IfOk result (λ n. n ≡ 0 → 0 < length buffer.old → IsAtEnd (Some self.new.left)) }

        ensures spent { is_err result ≡ is_spent self.old.good_reads }
        ensures count { IfOk result (λ n. n ≡ given_into self.old (length buffer.old)) }
        ensures after { OnOk result (self.new ≡ after_read self.old (length buffer.old)) }
        ensures after_fault { OnErr result (self.new ≡ record self.old { failed = true }) }
    {
        if let Some(reads) = self.good_reads {
            if reads == 0 {
                self.failed = true;
                return Err(DeviceFault);
            }
            self.good_reads = Some(reads - 1);
        }
        let count = self.given_into(buffer.len());
        let (given, rest) = self.bytes.split_at(count);
        buffer[..count].copy_from_slice(given);
        self.bytes = rest;
        if count == 0 && !buffer.is_empty() {
            self.ended = true;
        }
        Ok(count)
    }

    fn failed(&self) -> bool
        ensures { result ≡ self.now.failed }
    {
        self.failed
    }

    fn ended(&self) -> bool
        ensures { result ≡ self.now.ended }
    {
        self.ended
    }
}

/// What a sink over memory does with bytes for which it has no room.
#[derive(Clone, Copy, Debug, PartialEq, Eq)]
pub enum Refusal {
    /// The write fails.
    Fault,
    /// The write takes none of the bytes.
    NoneTaken,
}

/// A vector as a sink, which takes no more than the vector has room for.
#[derive(Drop)]
pub struct TestSink {
    memory: Vec<u8>,
    piece: usize,
    room: usize,
    refusal: Refusal,
    failed: bool,
}

impl Model for TestSink {
    ghost use Rattle.std.specs.Prelude.{◌+◌, ◌<◌, ◌≤◌, vec_len, vec_capacity};
    ghost use Rattle.byte_devices.specs.TestDevices.{TestOutput};

    ghost Value = { TestOutput };

    ghost view = { λ s. record { taken = s.memory.items; piece = s.piece; room = s.room; refusal = s.refusal; failed = s.failed } };

    ghost invariant = { λ s. (0 < s.piece) × (vec_len s.memory + s.room ≤ vec_capacity s.memory) };
}

impl TestSink {
    /// The sink that adds to the memory as many bytes as there is capacity left, and then fails.
    pub fn new(memory: Vec<u8>) -> Self
        ensures { result ≡ whole_output memory.items (vec_capacity memory - vec_len memory) }
    {
        let room = memory.capacity() - memory.len();
        TestSink {
            memory,
            piece: usize::MAX,
            room,
            refusal: Refusal::Fault,
            failed: false,
        }
    }

    /// The same sink, of which a write takes at most `piece` bytes.
    pub fn in_pieces_of(self, piece: usize) -> Self
        requires { 0 < piece }
        ensures { result ≡ record self { piece = piece } }
    {
        TestSink { piece, ..self }
    }

    /// The same sink, which takes at most that many bytes more, and then does as `refusal` says.
    pub fn refusing_after(self, bytes: usize, refusal: Refusal) -> Self
        ensures { result ≡ record self { room = min self.room bytes; refusal = refusal } }
    {
        TestSink {
            room: self.room.min(bytes),
            refusal,
            ..self
        }
    }

    /// What the memory held, and all that was written after it.
    pub fn taken(&self) -> &[u8]
        ensures { result.now ≡ self.now.taken }
    {
        &self.memory
    }

    /// Adds bytes for which there is room.
    fn add(&mut self, bytes: &[u8])
        requires { length bytes.now ≤ self.old.room }
        ensures { self.new ≡ record self.old { taken = self.old.taken ++ bytes.now; room = self.old.room - length bytes.now } }
    {
        let Ok(()) = self.memory.extend_from_slice(bytes) else {
            unreachable!();
        };
        self.room -= bytes.len();
    }
}

impl Sink for TestSink {
    ghost use Rattle.std.specs.Prelude.{Some};

    ghost taken = { λ s. Some s.taken };

    ghost failed = { λ s. s.failed };

    fn write(&mut self, bytes: &[u8]) -> Result<usize, DeviceFault>
        ensures within { IfOk result (λ n. n ≤ length bytes.now) }
        ensures taken { IfOk result (λ n. Appends (Some self.old.taken) (Some self.new.taken) (take n bytes.now)) }
        ensures none_taken { OnErr result (Appends (Some self.old.taken) (Some self.new.taken) []) }
        ensures failed { IfOk result (λ n. self.new.failed ≡ (self.old.failed || (n == 0 && nat_lt 0 (length bytes.now)))) }
        ensures failed_at_err { OnErr result (self.new.failed ≡ true) }

        ensures fault { is_err result ≡ (is_refused self.old (length bytes.now) && is_fault self.old.refusal) }
        ensures count { IfOk result (λ n. n ≡ taken_of self.old (length bytes.now)) }
        ensures after { self.new ≡ after_write self.old bytes.now }
    {
        if self.room == 0 && !bytes.is_empty() {
            self.failed = true;
            return match self.refusal {
                Refusal::Fault => Err(DeviceFault),
                Refusal::NoneTaken => Ok(0),
            };
        }
        let count = bytes.len().min(self.room).min(self.piece);
        self.add(&bytes[..count]);
        Ok(count)
    }

    fn failed(&self) -> bool
        ensures { result ≡ self.now.failed }
    {
        self.failed
    }
}
