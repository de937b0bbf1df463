//! What takes the lines of an input.
ghost use Rattle.std.specs.Prelude.{◌≡◌, ℕ, ◌+◌, ◌<◌, ◌≤◌, ◌^◌, ◌++◌, length, OnOk, IfErr};
ghost use Rattle.line_engine.specs.Lines.{Line, NoLf};
ghost use Rattle.line_engine.specs.Rule.{LineRule};

use crate::form::LineForm;

/// The most bytes of an input where its taker names no other limit.
pub const LONGEST_INPUT: u64 = 268_435_456;

/// The most bytes of a line of commands: of a script, and of a plan.
pub const LONGEST_LINE: u32 = 256;

/// What takes the lines of an input one after the other, and answers each by a text, which may be empty.
pub trait LineTaker: Drop {
    /// Why it takes no more lines.
    type Fault;

    /// The most bytes of a line that it needs.
    const LONGEST: u32;

    ghost LONGEST: { ℕ };

    // What it has made of the lines so far.
    ghost State: { Type 0 };

    ghost state: { Self → Self.State };

    // How a line is answered, and what it makes of the state.
    ghost rule: { LineRule Self.State };

    // The faults with which it may stop at a line.
    ghost stops: { Self.State → Line → Self.Fault → Type 0 };

    // The greatest of its counters of lines.
    ghost count: { Self → ℕ };

    // The most bytes that an input may have, by what its lines so far made of the state.
    ghost most_bytes: { Self.State → ℕ };

    /// The most bytes that the input may have, by its lines so far. A taker that names no limit of its own answers
    /// [`LONGEST_INPUT`].
    fn most_bytes(&self) -> u64
        ensures exact { result ≡ most_bytes (state self.now) }
        ensures countable { result ≤ 2 ^ 63 };

    /// Takes the next line, without its LF, and adds the text that answers it to the replies that wait to be handed over.
    /// These are fewer than 65,536 bytes, so that the memory for them has a bound. After a fault it takes no more lines,
    /// and the replies that wait are let go.
    fn take_line(
        &mut self,
        line: &[u8],
        form: LineForm,
        replies: &mut Vec<u8>,
    ) -> Result<(), Self::Fault>
        requires no_lf { NoLf line.now }
        requires within { length line.now ≤ LONGEST }
        requires few { count self.old + 1 < 2 ^ 64 }
        requires room { length replies.old.items < 65536 }
        ensures state { OnOk result (state self.new ≡ rule.next (state self.old) (record { bytes = line.now; form = form })) }
        ensures told { OnOk result (replies.new.items ≡ replies.old.items ++ rule.reply (state self.old) (record { bytes = line.now; form = form })) }
        ensures few { OnOk result (count self.new ≤ count self.old + 1) }
        ensures stops { IfErr result (λ fault. stops (state self.old) (record { bytes = line.now; form = form }) fault) };

    // No line makes the limit smaller.
    ghost grows: { (now : Self.State) (line : Line) → most_bytes now ≤ most_bytes (rule.next now line) };
}
