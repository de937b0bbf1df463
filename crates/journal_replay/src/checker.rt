//! A journal, checked line by line.
ghost use Rattle.std.specs.Prelude.{◌≡◌, ◌+◌, ◌<◌, ◌≤◌, ◌^◌, true, false, length, IfOk, IfErr, IsUtf8, OnOk, option_and_then, option_map};
ghost use Rattle.std.specs.Io.KnownBytes.{IsAtEnd};
ghost use Rattle.std.specs.Str.{bytes_eq};
ghost use Rattle.serde_json.specs.View.{view};
ghost use Rattle.market_types.specs.Step.{step};
ghost use Rattle.market_texts.specs.Texts.{reply_text};
ghost use Rattle.journal_replay.specs.EntryLines.{IsSeated, reading_of};
ghost use Rattle.journal_replay.specs.Verdicts.{Finds, StopsReading, after_header, after_line, json_by, lines_taken, most_bytes, verdict, verdict_of};
ghost use Rattle.journal_replay.specs.Watched.{Watches, seen_by_line};
ghost use Rattle.journal_replay.specs.Reading.{entry_in, header_of};

use crate::entry::{Reading, Room, read};
use crate::header::Extent;
use crate::reading::{Opened, Recorded, open_market, read_json};
use crate::verdict::{DueReply, Verdict};
use crate::watcher::{Unwatched, Watcher};
use byte_devices::Source;
use line_engine::{InputFault, LONGEST_INPUT, LineForm, LineTaker, Nowhere, take_lines, take_text};
use market_core::Market;
use market_texts::push_reply;
use serde_json::Value;
use std::alloc::{AllocError, Global};

/// How far a journal is found legal.
#[derive(Drop)]
pub(crate) enum Progress {
    /// No line was taken.
    Unopened,
    /// The market after so many entries, of so many that the journal may have.
    Replaying(Market, u64, Extent),
    /// What was found at the first faulty line, and how many entries the journal may have.
    Faulty(Verdict, Extent),
}

/// What a line is as JSON, if it is any and is whole.
fn read_line(alloc: Global, line: &[u8], form: LineForm) -> Result<Option<Value>, AllocError>
    ensures { IfOk result (λ value. option_map view value ≡ json_by form line.now) }
{
    match form {
        LineForm::Whole => read_json(alloc, line),
        LineForm::WithoutLf | LineForm::TooLong => Ok(None),
    }
}

/// What a line is in a market of so many seats and levels, if it is whole.
#[inline(always)]
fn read_whole<'a>(
    alloc: Global,
    line: &'a [u8],
    form: LineForm,
    room: &'a mut Room,
    seats: u8,
    levels: u32,
) -> Result<Reading<'a>, AllocError>
    ensures exact { IfOk result (λ reading. reading_of reading ≡ option_map (entry_in seats levels) (json_by form line.entry.now)) }
    ensures seat { IfOk result (λ reading. IsSeated seats reading) }
{
    match form {
        LineForm::Whole => read(alloc, line, room, seats, levels),
        LineForm::WithoutLf | LineForm::TooLong => Ok(Reading::NotJson),
    }
}

/// Gives an entry's call to the market, shows it to the watcher, and writes the text of the due reply in the room of another: whether
/// it is the entry's.
fn replay<W: Watcher>(
    alloc: Global,
    market: &mut Market,
    due: &mut Vec<u8>,
    watcher: &mut W,
    entry: &Recorded<'_>,
) -> Result<bool, AllocError>
    requires seat { entry.now.seat < length market.old.seats }
    ensures market { OnOk result (market.new ≡ (step market.old entry.now.seat entry.now.cmd).1) }
    ensures due { OnOk result (due.new.items ≡ reply_text (step market.old entry.now.seat entry.now.cmd).0) }
    ensures utf8 { OnOk result (IsUtf8 due.new.items) }
    ensures same { IfOk result (λ same. same ≡ bytes_eq (reply_text (step market.old entry.now.seat entry.now.cmd).0) entry.now.reply.now) }
    ensures seen { OnOk result (W.made watcher.new ≡ W.seen (W.made watcher.old) (step market.old entry.now.seat entry.now.cmd).1 entry.now.cmd (step market.old entry.now.seat entry.now.cmd).0) }
{
    // A copy, so that nothing but the command has to stand in memory for the watcher.
    let cmd = entry.cmd;
    let Ok(reply) = market.apply(alloc, entry.seat, cmd) else {
        return Err(AllocError);
    };
    due.clear();
    let pushed = push_reply(due, &reply);
    watcher.see(market, &cmd, &reply);
    drop(reply);
    pushed?;
    Ok(due.as_slice() == entry.reply)
}

/// The reply of this text, which has room of its own and none to spare.
fn due_reply(alloc: Global, due: &[u8]) -> Result<DueReply, AllocError>
    requires { IsUtf8 due.now }
    ensures { IfOk result (λ reply. reply ≡ due.now) }
{
    let text = Vec::from_slice(alloc, due)?;
    let Ok(text) = String::from_utf8(text) else {
        unreachable!()
    };
    Ok(DueReply::new(text))
}

impl Progress {
    /// What a header opens, by what the line is as JSON.
    fn opened(alloc: Global, value: Option<Value>) -> Result<Progress, AllocError>
        ensures { IfOk result (λ progress. progress ≡ after_header (option_and_then header_of (option_map view value))) }
    {
        if let Some(value) = value {
            if let Some(Opened { market, extent }) = open_market(alloc, &value)? {
                return Ok(Progress::Replaying(market, 0, extent));
            }
        }
        Ok(Progress::Faulty(Verdict::BadHeader, Extent::Limited))
    }

    /// Takes the header.
    // Apart, since each line would else make room for all that is needed here.
    #[cold]
    #[inline(never)]
    fn open(&mut self, alloc: Global, line: &[u8], form: LineForm) -> Result<(), AllocError>
        ensures { OnOk result (self.new ≡ after_header (option_and_then header_of (json_by form line.now))) }
    {
        let value = read_line(alloc, line, form)?;
        *self = Progress::opened(alloc, value)?;
        Ok(())
    }

    /// Ends the journal with this line, which is no entry of it.
    // Apart, as the others that end it are, and each makes its verdict by itself: each line would else make room for all of them.
    #[cold]
    #[inline(never)]
    fn end_bad_record(&mut self, line: u64, extent: Extent)
        ensures { self.new ≡ Progress.Faulty (Verdict.BadRecord line) extent }
    {
        *self = Progress::Faulty(Verdict::BadRecord(line), extent);
    }

    /// Ends the journal with this line, which is no JSON.
    #[cold]
    #[inline(never)]
    fn end_bad_json(&mut self, line: u64, extent: Extent)
        ensures { self.new ≡ Progress.Faulty (Verdict.BadJson line) extent }
    {
        *self = Progress::Faulty(Verdict::BadJson(line), extent);
    }

    /// Ends the journal with this line, whose reply is not the one of this text, which is due.
    #[cold]
    #[inline(never)]
    fn end_wrong(
        &mut self,
        alloc: Global,
        line: u64,
        due: &[u8],
        extent: Extent,
    ) -> Result<(), AllocError>
        requires { IsUtf8 due.now }
        ensures { OnOk result (self.new ≡ Progress.Faulty (Verdict.WrongReply line due.now) extent) }
    {
        let due = due_reply(alloc, due)?;
        *self = Progress::Faulty(Verdict::WrongReply(line, due), extent);
        Ok(())
    }

    /// Takes one line more: the header, or an entry, which is replayed and counted, or what ends the journal. The market stays where it
    /// is, and memory that is kept serves for each line, for what it is read as and for the text of the reply that is due.
    #[inline(always)]
    fn take_line<'a, W: Watcher>(
        &mut self,
        alloc: Global,
        line: &'a [u8],
        form: LineForm,
        room: &'a mut Room,
        due: &mut Vec<u8>,
        watcher: &mut W,
    ) -> Result<(), AllocError>
        requires few { lines_taken self.old + 1 < 2 ^ 64 }
        ensures progress { OnOk result (self.new ≡ after_line self.old (record { bytes = line.entry.now; form = form })) }
        ensures seen { OnOk result (W.made watcher.new ≡ seen_by_line W.seen self.old (record { bytes = line.entry.now; form = form }) (W.made watcher.old)) }
    {
        match self {
            Progress::Unopened => self.open(alloc, line, form),
            Progress::Faulty(_, _) => Ok(()),
            Progress::Replaying(market, entries, extent) => {
                let (number, extent) = (*entries + 2, *extent);
                match read_whole(alloc, line, form, room, market.seats(), market.levels()) {
                    Ok(Reading::Entry(entry)) => {
                        if extent.is_full(*entries) {
                            self.end_bad_record(number, extent);
                            return Ok(());
                        }
                        if replay(alloc, market, due, watcher, &entry)? {
                            *entries += 1;
                            return Ok(());
                        }
                        self.end_wrong(alloc, number, due, extent)
                    }
                    Ok(Reading::NotEntry) => {
                        self.end_bad_record(number, extent);
                        Ok(())
                    }
                    Ok(Reading::NotJson) => {
                        self.end_bad_json(number, extent);
                        Ok(())
                    }
                    Err(_) => Err(AllocError),
                }
            }
        }
    }

    /// The most bytes that the journal may have.
    fn most_bytes(&self) -> u64
        ensures exact { result ≡ most_bytes self.now }
        ensures countable { result ≤ 2 ^ 63 }
    {
        match self {
            Progress::Unopened => LONGEST_INPUT,
            Progress::Replaying(_, _, extent) | Progress::Faulty(_, extent) => extent.most_bytes(),
        }
    }

    /// What is found, if no line follows.
    fn into_verdict(self) -> Verdict
        ensures { result ≡ verdict_of self }
    {
        match self {
            Progress::Unopened => Verdict::BadHeader,
            Progress::Replaying(_market, entries, _extent) => Verdict::Legal(entries),
            Progress::Faulty(verdict, _extent) => verdict,
        }
    }
}

/// Takes the lines of a journal, and answers none of them. A watcher looks on.
#[derive(Drop)]
pub(crate) struct Checker<W: Watcher> {
    alloc: Global,
    progress: Progress,
    room: Room,
    /// The text of the reply that was due last.
    due: Vec<u8>,
    watcher: W,
}

impl<W: Watcher> Checker<W> {
    /// Before the first line.
    fn new(alloc: Global, watcher: W) -> Self
        ensures progress { result.progress ≡ Progress.Unopened }
        ensures watcher { result.watcher ≡ watcher }
    {
        Checker {
            alloc,
            progress: Progress::Unopened,
            room: Room::new(alloc),
            due: Vec::new(alloc),
            watcher,
        }
    }

    /// What is found, if no line follows, and the watcher.
    fn end(self) -> (Verdict, W)
        ensures { result ≡ (verdict_of self.progress, self.watcher) }
    {
        let Checker {
            alloc: _,
            progress,
            room: _,
            due: _,
            watcher,
        } = self;
        (progress.into_verdict(), watcher)
    }
}

impl<W: Watcher> LineTaker for Checker<W> {
    ghost use Rattle.std.specs.Prelude.{⊤};
    ghost use Rattle.journal_replay.specs.Growth.{limit-grows};
    ghost use Rattle.journal_replay.specs.declared.checker.Progress.{Progress};
    ghost use Rattle.journal_replay.specs.Verdicts.{lines_taken, longest_line, most_bytes};
    ghost use Rattle.journal_replay.specs.Watched.{watched_rule};

    type Fault = AllocError;

    const LONGEST: u32 = 65_536;

    ghost LONGEST = { longest_line };

    ghost State = { Progress × W.Made };

    ghost state = { λ c. (c.progress, W.made c.watcher) };

    ghost rule = { watched_rule W.seen };

    ghost stops = { λ _ _ _. ⊤ };

    ghost count = { λ c. lines_taken c.progress };

    ghost most_bytes = { λ now. most_bytes now.0 };

    ghost grows = { λ now line. limit-grows now.0 line };

    fn most_bytes(&self) -> u64 {
        self.progress.most_bytes()
    }

    fn take_line(
        &mut self,
        line: &[u8],
        form: LineForm,
        _replies: &mut Vec<u8>,
    ) -> Result<(), AllocError> {
        let Checker {
            alloc,
            progress,
            room,
            due,
            watcher,
        } = self;
        progress.take_line(*alloc, line, form, room, due, watcher)?;
        room.let_go();
        Ok(())
    }
}

/// What is found of a journal's text, of whatever length: whether its calls, replayed on a new market, get the replies that it tells, as
/// `Legal` with the number of entries, or the first line at which they don't. Journals of versions 1, 2 and 3 are read; those of version 3
/// alone may have more than 1,048,576 entries. What a line is as JSON is serde_json's reading of it, so that other spacing and another
/// order of keys are accepted. It asks for no free places. It takes the memory of the market, and room that is kept from line to line: for
/// each of a line's first three texts whose escapes are undone, and for the due reply, up to twice the longest that it held. Out of memory
/// is the `Err`.
pub fn check(alloc: Global, text: &[u8]) -> Result<Verdict, AllocError>
    ensures verdict { IfOk result (λ found. found ≡ verdict text.now) }
{
    let Ok(checker) = take_text(alloc, Checker::new(alloc, Unwatched), text) else {
        return Err(AllocError);
    };
    Ok(checker.progress.into_verdict())
}

/// What is found of the journal that a source has left, as `check` finds it. It takes the memory of `check` and a piece of 65,536 bytes.
/// Whichever fault comes first stops it: a read that fails is `Read`, a journal of more than 268,435,456 bytes `TooLong`, where
/// no header of version 3 begins it, and running out of memory `Memory`, or `Taker` where a line was replayed.
pub fn check_source<R: Source>(
    alloc: Global,
    source: &mut R,
) -> Result<Verdict, InputFault<AllocError>>
    requires source_working { R.failed source.old ≡ false }
    requires source_begins { R.ended source.old ≡ false }
    ensures verdict { IfOk result (λ found. Finds (R.left source.old) (R.left source.new) found) }
    ensures end { OnOk result (R.ended source.new ≡ true) }
    ensures whole { OnOk result (IsAtEnd (R.left source.new)) }
    ensures working { OnOk result (R.failed source.new ≡ false) }
    ensures stops { IfErr result (λ fault. StopsReading (R.left source.old) (R.left source.new) (R.failed source.new) fault) }
{
    let (found, _watcher) = watch_source(alloc, Unwatched, source)?;
    Ok(found)
}

/// What is found of the journal that a source has left, as `check_source` finds it, and a watcher that has seen its entries, in order: all
/// of them where the journal is legal.
pub fn watch_source<W: Watcher, R: Source>(
    alloc: Global,
    watcher: W,
    source: &mut R,
) -> Result<(Verdict, W), InputFault<AllocError>>
    requires source_working { R.failed source.old ≡ false }
    requires source_begins { R.ended source.old ≡ false }
    ensures watches { IfOk result (λ end. Watches W.seen (W.made watcher) (W.made end.1) (R.left source.old) (R.left source.new) end.0) }
    ensures end { OnOk result (R.ended source.new ≡ true) }
    ensures whole { OnOk result (IsAtEnd (R.left source.new)) }
    ensures working { OnOk result (R.failed source.new ≡ false) }
    ensures stops { IfErr result (λ fault. StopsReading (R.left source.old) (R.left source.new) (R.failed source.new) fault) }
{
    let mut nowhere = Nowhere;
    let checker = take_lines(alloc, Checker::new(alloc, watcher), source, &mut nowhere)?;
    Ok(checker.end())
}
