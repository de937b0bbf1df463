//! The engine that takes an input, piece by piece.
ghost use Rattle.std.specs.Prelude.{◌≡◌, ◌<◌, ◌^◌, [], length, true, false, Err, OnOk, IfOk, IfErr};
ghost use Rattle.std.specs.Io.KnownBytes.{IsAtEnd};
ghost use Rattle.line_engine.specs.Input.{TakesAll, Stops, HandsOver};

use crate::fault::InputFault;
use crate::input::{PIECE, new_buffer, read_piece};
use crate::lines::Lines;
use crate::taker::LineTaker;
use byte_devices::{Sink, Source};
use std::alloc::Global;

/// Hands the input's lines on, piece by piece.
fn take_pieces<A: LineTaker, R: Source, W: Sink>(
    lines: &mut Lines<A>,
    buffer: &mut [u8],
    source: &mut R,
    sink: &mut W,
) -> Result<(), InputFault<A::Fault>>
    requires fresh { (lines.old.unfinished.items ≡ []) × (lines.old.answering.replies.items ≡ []) }
    requires few { A.count lines.old.answering.taker < 2 ^ 32 }
    requires room { 0 < length buffer.old }
    requires source_working { R.failed source.old ≡ false }
    requires source_begins { R.ended source.old ≡ false }
    requires sink_working { W.failed sink.old ≡ false }
    ensures all { OnOk result (TakesAll A.rule A.LONGEST A.most_bytes (A.state lines.old.answering.taker) (A.state lines.new.answering.taker) (R.left source.old) (R.left source.new) (W.taken sink.old) (W.taken sink.new)) }
    ensures end { OnOk result (R.ended source.new ≡ true) }
    ensures whole { OnOk result (IsAtEnd (R.left source.new)) }
    ensures working { OnOk result ((R.failed source.new ≡ false) × (W.failed sink.new ≡ false)) }
    ensures stops { IfErr result (λ fault. Stops A.rule A.LONGEST A.most_bytes A.stops (A.state lines.old.answering.taker) (R.left source.old) (R.left source.new) (W.taken sink.old) (W.taken sink.new) (R.failed source.new) (W.failed sink.new) fault) }
    ensures prompt { result ≡ Err InputFault.Read → HandsOver A.rule A.LONGEST (A.state lines.old.answering.taker) (R.left source.old) (R.left source.new) (W.taken sink.old) (W.taken sink.new) }
{
    let mut total = 0;
    loop {
        let room = lines.answering.taker.most_bytes() - total;
        let count = read_piece(source, buffer, room)?;
        if count == 0 {
            return lines.finish(sink);
        }
        lines.feed(sink, &buffer[..count])?;
        total += count as u64;
    }
}

/// Hands the lines of what the source has left to the taker, one after the other, and their replies to the sink as it
/// goes. The result is the taker, which has then taken all lines.
///
/// Before each read, all replies to the lines that have ended are handed over, so that a caller can write a line and wait
/// for its reply. They are handed over once a piece, and in the middle of a piece where they are much. The memory is that
/// of the taker, of one piece of 65,536 bytes, of an unfinished line, of which one byte more is kept than the taker
/// needs, and of the replies not yet handed over: at most 65,536 bytes and one reply.
///
/// Whichever fault comes first stops it: a read that fails is `Read`, a write that fails or takes none `Write`, a piece
/// with which the input has more bytes than its taker lets it have, by the lines that had ended before that piece,
/// `TooLong`, running out of memory `Memory`, and a fault of the taker `Taker`.
pub fn take_lines<A: LineTaker, R: Source, W: Sink>(
    alloc: Global,
    taker: A,
    source: &mut R,
    sink: &mut W,
) -> Result<A, InputFault<A::Fault>>
    requires few { A.count taker < 2 ^ 32 }
    requires source_working { R.failed source.old ≡ false }
    requires source_begins { R.ended source.old ≡ false }
    requires sink_working { W.failed sink.old ≡ false }

    // The whole input is read, and its lines are taken and answered.
    ensures all { IfOk result (λ last. TakesAll A.rule A.LONGEST A.most_bytes (A.state taker) (A.state last) (R.left source.old) (R.left source.new) (W.taken sink.old) (W.taken sink.new)) }
    ensures end { OnOk result (R.ended source.new ≡ true) }
    ensures whole { OnOk result (IsAtEnd (R.left source.new)) }
    ensures working { OnOk result ((R.failed source.new ≡ false) × (W.failed sink.new ≡ false)) }

    // After a fault a prefix of the replies is written; before a read that fails, all replies to ended lines are.
    ensures stops { IfErr result (λ fault. Stops A.rule A.LONGEST A.most_bytes A.stops (A.state taker) (R.left source.old) (R.left source.new) (W.taken sink.old) (W.taken sink.new) (R.failed source.new) (W.failed sink.new) fault) }
    ensures prompt { result ≡ Err InputFault.Read → HandsOver A.rule A.LONGEST (A.state taker) (R.left source.old) (R.left source.new) (W.taken sink.old) (W.taken sink.new) }
{
    let mut buffer = new_buffer(alloc, PIECE)?;
    let mut lines = Lines::new(alloc, taker);
    take_pieces(&mut lines, &mut buffer, source, sink)?;
    Ok(lines.into_taker())
}
