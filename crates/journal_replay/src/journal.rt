//! Writing a journal.
ghost use Rattle.std.specs.Prelude.{◌≡◌, ◌≤◌, ◌<◌, ◌++◌, Some, codes, length, slice_get, false, OnOk, OnErr, IfErr};
ghost use Rattle.std.specs.Io.KnownBytes.{Appends};
ghost use Rattle.byte_devices.specs.Devices.{WritesFront};
ghost use Rattle.byte_devices.specs.Output.{Fronts, IsOutFault};
ghost use Rattle.journal_replay.specs.Journal.{entry_lines, header_line, journal_text};
ghost use Rattle.journal_replay.specs.Verdicts.{most_entries, verdict};

use crate::header::{Extent, Header};
use crate::law::journals_of_legal_histories_are_legal;
use crate::line::{header_line, push_entry};
use crate::verdict::Verdict;
use byte_devices::{OutFault, Sink, put_all};
use edit_history::{Chronicle, Part};
use market_types::Entry;
use std::alloc::{AllocError, Global};

/// So many bytes that wait are handed over.
const PIECE: usize = 65_536;

/// Puts a line and its LF at the end of what waits.
fn push_line(waiting: &mut Vec<u8>, line: &[u8]) -> Result<(), AllocError>
    ensures { OnOk result (waiting.new.items ≡ waiting.old.items ++ (line.now ++ codes "\n")) }
{
    waiting.extend_from_slice(line)?;
    waiting.push(b'\n')?;
    Ok(())
}

/// The entry at a place.
fn entry_at(entries: &[Entry], index: usize) -> &Entry
    requires there { index < length entries.now }
    ensures exact { slice_get entries.now index ≡ Some result.now }
{
    &entries[index]
}

/// Writes the lines of entries behind what waits, piece by piece, in a market of so many levels. What waits at the end is not
/// written yet.
fn write_lines<W: Sink>(
    levels: u32,
    entries: &[Entry],
    waiting: &mut Vec<u8>,
    sink: &mut W,
) -> Result<(), OutFault>
    requires working { W.failed sink.old ≡ false }
    ensures all { OnOk result (Fronts (W.taken sink.old) (W.taken sink.new) waiting.new.items (waiting.old.items ++ entry_lines levels entries.now)) }
    ensures working { OnOk result (W.failed sink.new ≡ false) }
    ensures prefix { OnErr result (WritesFront (W.taken sink.old) (W.taken sink.new) (waiting.old.items ++ entry_lines levels entries.now)) }
    ensures cause { IfErr result (λ fault. IsOutFault fault (W.failed sink.new)) }
{
    for index in 0..entries.len() {
        push_entry(waiting, levels, entry_at(entries, index))?;
        if waiting.len() >= PIECE {
            put_all(sink, waiting)?;
            waiting.clear();
        }
    }
    Ok(())
}

/// Writes the lines of all entries of a chronicle behind what waits. What waits at the end is not written yet.
fn write_entries<W: Sink>(
    chronicle: &Chronicle,
    waiting: &mut Vec<u8>,
    sink: &mut W,
) -> Result<(), OutFault>
    requires whole { chronicle.now.from ≡ 0 }
    requires working { W.failed sink.old ≡ false }
    ensures all { OnOk result (Fronts (W.taken sink.old) (W.taken sink.new) waiting.new.items (waiting.old.items ++ entry_lines chronicle.now.start.levels chronicle.now.log)) }
    ensures few { OnOk result (length chronicle.now.log ≤ most_entries) }
    ensures working { OnOk result (W.failed sink.new ≡ false) }
    ensures prefix { OnErr result (WritesFront (W.taken sink.old) (W.taken sink.new) (waiting.old.items ++ entry_lines chronicle.now.start.levels chronicle.now.log)) }
    ensures cause { IfErr result (λ fault. IsOutFault fault (W.failed sink.new)) }
{
    let levels = chronicle.market().levels();
    write_lines(levels, chronicle.kept(), waiting, sink)
}

/// Writes the header of a journal. It is of version 2 where that tells all of it, else of version 3: where the last number is
/// not the usual one, or the journal may have any number of entries. Behind it come the parts of the history, by `write_part`.
/// At the first write that fails it is `Write`, and out of memory is `Memory`; what was written is then a prefix of the header.
pub fn write_header<W: Sink>(alloc: Global, header: Header, sink: &mut W) -> Result<(), OutFault>
    requires working { W.failed sink.old ≡ false }
    ensures all { OnOk result (Appends (W.taken sink.old) (W.taken sink.new) (header_line header ++ codes "\n")) }
    ensures working { OnOk result (W.failed sink.new ≡ false) }
    ensures prefix { OnErr result (WritesFront (W.taken sink.old) (W.taken sink.new) (header_line header ++ codes "\n")) }
    ensures cause { IfErr result (λ fault. IsOutFault fault (W.failed sink.new)) }
{
    let mut waiting = Vec::new(alloc);
    let line = header_line(alloc, &header)?;
    push_line(&mut waiting, &line)?;
    put_all(sink, &waiting)?;
    Ok(())
}

/// Writes the lines of a part of a history, in a market of so many levels: what a journal has of them behind its header and the
/// parts before. At the first write that fails it is `Write`, and out of memory is `Memory`; what was written is then a prefix of
/// the lines. It is written in pieces of some 65,536 bytes, and takes the memory of one piece.
pub fn write_part<W: Sink>(
    alloc: Global,
    levels: u32,
    part: &Part,
    sink: &mut W,
) -> Result<(), OutFault>
    requires working { W.failed sink.old ≡ false }
    ensures all { OnOk result (Appends (W.taken sink.old) (W.taken sink.new) (entry_lines levels part.now.entries.items)) }
    ensures working { OnOk result (W.failed sink.new ≡ false) }
    ensures prefix { OnErr result (WritesFront (W.taken sink.old) (W.taken sink.new) (entry_lines levels part.now.entries.items)) }
    ensures cause { IfErr result (λ fault. IsOutFault fault (W.failed sink.new)) }
{
    let mut waiting = Vec::new(alloc);
    write_lines(levels, &part.entries, &mut waiting, sink)?;
    put_all(sink, &waiting)?;
    Ok(())
}

/// Writes the journal of a chronicle: a line for its opening, and one for each call with its reply. At the first write that
/// fails it is `Write`, and out of memory is `Memory`; what was written is then a prefix of the journal. It is written in
/// pieces of some 65,536 bytes, and takes the memory of one piece. The journal is found legal, with as many entries as the
/// chronicle has. It is of version 2 where the market's last number is the usual one, else of version 3.
pub fn write_journal<W: Sink>(
    alloc: Global,
    chronicle: &Chronicle,
    sink: &mut W,
) -> Result<(), OutFault>
    requires whole { chronicle.now.from ≡ 0 }
    requires working { W.failed sink.old ≡ false }
    ensures all { OnOk result (Appends (W.taken sink.old) (W.taken sink.new) (journal_text chronicle.now.start chronicle.now.log)) }
    ensures legal { OnOk result (verdict (journal_text chronicle.now.start chronicle.now.log) ≡ Verdict.Legal (length chronicle.now.log)) }
    ensures working { OnOk result (W.failed sink.new ≡ false) }
    ensures prefix { OnErr result (WritesFront (W.taken sink.old) (W.taken sink.new) (journal_text chronicle.now.start chronicle.now.log)) }
    ensures cause { IfErr result (λ fault. IsOutFault fault (W.failed sink.new)) }
{
    journals_of_legal_histories_are_legal();
    let mut waiting = Vec::new(alloc);
    let header = Header::of(chronicle.market(), Extent::Limited);
    let line = header_line(alloc, &header)?;
    push_line(&mut waiting, &line)?;
    write_entries(chronicle, &mut waiting, sink)?;
    put_all(sink, &waiting)?;
    Ok(())
}
