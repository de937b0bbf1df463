//! Where bytes come from and where they go.
ghost use Rattle.std.specs.Prelude.{◌≡◌, ℕ, ◌<◌, ◌≤◌, ◌&&◌, ◌||◌, ◌==◌, nat_lt, List, [], length, take, Bool, true, Option, IfOk, OnOk, OnErr, is_err};
ghost use Rattle.std.specs.Io.KnownBytes.{Consumes, Appends, IsAtEnd};
ghost use Rattle.byte_devices.specs.Devices.{WritesFront};

/// A read or a write that failed.
#[derive(Clone, Copy, Debug, PartialEq, Eq)]
pub struct DeviceFault;

/// What gives bytes, in pieces.
pub trait Source {
    // The bytes that reads will give, where they are known.
    ghost left: { Self → Option (List ℕ) };

    ghost failed: { Self → Bool };

    ghost ended: { Self → Bool };

    /// Reads some of the bytes that are left into the front of the buffer, and says how many. It takes no memory. A
    /// read of 0 bytes into a buffer with room means that no byte is left. A read that fails gives none.
    fn read(&mut self, buffer: &mut [u8]) -> Result<usize, DeviceFault>
        ensures within { IfOk result (λ n. n ≤ length buffer.new) }
        ensures given { IfOk result (λ n. Consumes (left self.old) (left self.new) (take n buffer.new)) }
        ensures none_given { OnErr result (Consumes (left self.old) (left self.new) []) }

        ensures failed { failed self.new ≡ (failed self.old || is_err result) }

        // A read of 0 bytes into a buffer with room ends the source, and nothing else does.
        ensures ended { IfOk result (λ n. ended self.new ≡ (ended self.old || (n == 0 && nat_lt 0 (length buffer.old)))) }
        ensures not_ended { OnErr result (ended self.new ≡ ended self.old) }
        ensures at_end { IfOk result (λ n. n ≡ 0 → 0 < length buffer.old → IsAtEnd (left self.new)) };

    /// A read has failed.
    fn failed(&self) -> bool
        ensures { result ≡ failed self.now };

    /// A read has come to the end.
    fn ended(&self) -> bool
        ensures { result ≡ ended self.now };
}

/// What takes bytes, in pieces.
pub trait Sink {
    // The bytes that it has taken, where they are known.
    ghost taken: { Self → Option (List ℕ) };

    ghost failed: { Self → Bool };

    /// Takes some of the bytes, from the first on, and says how many. It takes no memory. A write that fails takes
    /// none. Taking 0 of some bytes is a failure of the sink too.
    fn write(&mut self, bytes: &[u8]) -> Result<usize, DeviceFault>
        ensures within { IfOk result (λ n. n ≤ length bytes.now) }
        ensures taken { IfOk result (λ n. Appends (taken self.old) (taken self.new) (take n bytes.now)) }
        ensures none_taken { OnErr result (Appends (taken self.old) (taken self.new) []) }

        // An error fails the sink, and so does taking 0 of some bytes; nothing else does.
        ensures failed { IfOk result (λ n. failed self.new ≡ (failed self.old || (n == 0 && nat_lt 0 (length bytes.now)))) }
        ensures failed_at_err { OnErr result (failed self.new ≡ true) };

    /// A write has failed, or has taken 0 of some bytes.
    fn failed(&self) -> bool
        ensures { result ≡ failed self.now };
}

/// A text of which not all could be written.
#[derive(Clone, Copy, Debug, PartialEq, Eq)]
pub struct WriteFault;

/// Writes the whole text, in as many writes as the sink needs. It stops at the first write that fails or takes 0
/// bytes: what went out is then a prefix of the text. It takes no memory.
pub fn put_all<W: Sink>(sink: &mut W, text: &[u8]) -> Result<(), WriteFault>
    ensures all { OnOk result (Appends (W.taken sink.old) (W.taken sink.new) text.now) }
    ensures working { OnOk result (W.failed sink.new ≡ W.failed sink.old) }
    ensures prefix { OnErr result (WritesFront (W.taken sink.old) (W.taken sink.new) text.now) }
    ensures cause { OnErr result (W.failed sink.new ≡ true) }
{
    let mut at = 0;
    while at < text.len() {
        let Ok(count) = sink.write(&text[at..]) else {
            return Err(WriteFault);
        };
        if count == 0 {
            return Err(WriteFault);
        }
        at += count;
    }
    Ok(())
}
