//! An input, read piece by piece, and a whole one in memory.
ghost use Rattle.std.specs.Prelude.{◌≡◌, ◌<◌, ◌≤◌, [], length, vec_len, take, true, false, Err, OnOk, IfOk, IfErr};
ghost use Rattle.std.specs.Io.KnownBytes.{Consumes, IsAtEnd};
ghost use Rattle.line_engine.specs.Input.{longest_input};
ghost use Rattle.line_engine.specs.Pieces.{BreaksOff};
ghost use Rattle.line_engine.specs.Reading.{StopsReading};

use crate::fault::InputFault;
use crate::taker::LONGEST_INPUT;
use byte_devices::Source;
use std::alloc::{AllocError, Global};

/// The most bytes that one read gives.
pub(crate) const PIECE: usize = 65_536;

/// Room for one piece.
pub(crate) fn new_buffer(alloc: Global, size: usize) -> Result<Vec<u8>, AllocError>
    ensures { IfOk result (λ buffer. vec_len buffer ≡ size) }
{
    vec![in alloc; 0u8; size]
}

/// Reads the next piece of an input that may have `room` more bytes. It has no byte only where the source has ended.
pub(crate) fn read_piece<R: Source, F>(
    source: &mut R,
    buffer: &mut [u8],
    room: u64,
) -> Result<usize, InputFault<F>>
    requires some { 0 < length buffer.old }
    requires working { R.failed source.old ≡ false }
    requires begins { R.ended source.old ≡ false }
    ensures bound { IfOk result (λ n. n ≤ length buffer.new) }
    ensures within { IfOk result (λ n. n ≤ room) }
    ensures read { IfOk result (λ n. Consumes (R.left source.old) (R.left source.new) (take n buffer.new)) }
    ensures working { OnOk result (R.failed source.new ≡ false) }
    ensures more { IfOk result (λ n. 0 < n → R.ended source.new ≡ false) }
    ensures end { IfOk result (λ n. n ≡ 0 → R.ended source.new ≡ true) }
    ensures all { IfOk result (λ n. n ≡ 0 → IsAtEnd (R.left source.new)) }
    ensures breaks_off { IfErr result (λ fault. BreaksOff (R.left source.old) (R.left source.new) room (R.failed source.new) fault) }
    ensures none_given { result ≡ Err InputFault.Read → Consumes (R.left source.old) (R.left source.new) [] }
{
    let Ok(count) = source.read(buffer) else {
        return Err(InputFault::Read);
    };
    if count as u64 > room {
        return Err(InputFault::TooLong);
    }
    Ok(count)
}

/// All that a source has left, at most 268,435,456 bytes, for whoever needs a whole input before its first line. The memory is
/// that of the input, and of one piece of 65,536 bytes.
///
/// Whichever fault comes first stops it: a read that fails is `Read`, a piece with which the input is too long `TooLong`, running
/// out of memory `Memory`; it answers no other, so that `F` may be any taker's fault.
pub fn read_input<R: Source, F>(alloc: Global, source: &mut R) -> Result<Vec<u8>, InputFault<F>>
    requires working { R.failed source.old ≡ false }
    requires begins { R.ended source.old ≡ false }

    // The whole input is read, and is the result.
    ensures read { IfOk result (λ input. Consumes (R.left source.old) (R.left source.new) input.items) }
    ensures within { IfOk result (λ input. length input.items ≤ longest_input) }
    ensures end { OnOk result (R.ended source.new ≡ true) }
    ensures whole { OnOk result (IsAtEnd (R.left source.new)) }
    ensures working { OnOk result (R.failed source.new ≡ false) }

    // After a fault it is read up to some byte.
    ensures stops { IfErr result (λ fault. StopsReading (R.left source.old) (R.left source.new) (R.failed source.new) fault) }
{
    let mut buffer = new_buffer(alloc, PIECE)?;
    let mut input = Vec::new(alloc);
    loop {
        let room = LONGEST_INPUT - input.len() as u64;
        let count = read_piece(source, &mut buffer, room)?;
        if count == 0 {
            return Ok(input);
        }
        input.extend_from_slice(&buffer[..count])?;
    }
}
