//! An input's lines, out of its pieces.
ghost use Rattle.std.specs.Prelude.{◌≡◌, ◌+◌, ◌<◌, ◌≤◌, ◌^◌, [], ◌∷◌, ◌++◌, length, take, vec_len, OnOk, OnErr, IfErr, IfSome, IfNone, true, false};
ghost use Rattle.std.specs.Io.KnownBytes.{Appends};
ghost use Rattle.byte_devices.specs.Devices.{WritesFront};
ghost use Rattle.line_engine.specs.Lines.{NoLf, handed, whole_lines, last_line};
ghost use Rattle.line_engine.specs.Rule.{after, replies_to};
ghost use Rattle.line_engine.specs.Input.{StopsAt, IsLineFault};
ghost use Rattle.line_engine.specs.Pieces.{Takes, IsPieceFault};
ghost use Rattle.line_engine.specs.declared.form.LineForm.TheVariants.{Whole};

use crate::fault::InputFault;
use crate::form::LineForm;
use crate::taker::LineTaker;
use byte_devices::{Sink, WriteFault, put_all};
use memchr::memchr;
use std::alloc::{AllocError, Global};

/// Replies of so many bytes are handed over in the middle of a piece.
const MOST_WAITING: usize = 65_536;

/// The first line of a text, without its LF, and what follows it.
fn cut_line(text: &[u8]) -> Option<(&[u8], &[u8])>
    ensures some { IfSome result (λ cut. (text.now ≡ cut.0.now ++ 10 ∷ cut.1.now) × NoLf cut.0.now) }
    ensures none { IfNone result (NoLf text.now) }
{
    let at = memchr(b'\n', text)?;
    Some((&text[..at], &text[at + 1..]))
}

/// A taker, and its replies that are not handed over yet.
#[derive(Drop)]
pub struct Answering<A: LineTaker> {
    pub taker: A,
    pub replies: Vec<u8>,
}

impl<A: LineTaker> Answering<A> {
    /// Hands a line on to the taker: all of it, or its first bytes where it is too long.
    fn hand_on(&mut self, line: &[u8], form: LineForm) -> Result<(), A::Fault>
        requires no_lf { NoLf line.now }
        requires few { A.count self.old.taker + 1 < 2 ^ 64 }
        requires room { length self.old.replies.items < 65536 }
        ensures state { OnOk result (A.state self.new.taker ≡ A.rule.next (A.state self.old.taker) (handed A.LONGEST form line.now)) }
        ensures told { OnOk result (self.new.replies.items ≡ self.old.replies.items ++ A.rule.reply (A.state self.old.taker) (handed A.LONGEST form line.now)) }
        ensures few { OnOk result (A.count self.new.taker ≤ A.count self.old.taker + 1) }
        ensures stops { IfErr result (λ fault. A.stops (A.state self.old.taker) (handed A.LONGEST form line.now) fault) }
    {
        let longest = A::LONGEST as usize;
        if longest < line.len() {
            return self
                .taker
                .take_line(&line[..longest], LineForm::TooLong, &mut self.replies);
        }
        self.taker.take_line(line, form, &mut self.replies)
    }

    /// Hands the replies over to the sink.
    fn hand_over<W: Sink>(&mut self, sink: &mut W) -> Result<(), WriteFault>
        ensures all { OnOk result (Appends (W.taken sink.old) (W.taken sink.new) self.old.replies.items) }
        ensures working { OnOk result (W.failed sink.new ≡ W.failed sink.old) }
        ensures handed { OnOk result (self.new.replies.items ≡ []) }
        ensures prefix { OnErr result (WritesFront (W.taken sink.old) (W.taken sink.new) self.old.replies.items) }
        ensures cause { OnErr result (W.failed sink.new ≡ true) }
        ensures taker { self.new.taker ≡ self.old.taker }
    {
        put_all(sink, &self.replies)?;
        self.replies.clear();
        Ok(())
    }
}

/// A taker with its replies, and the first bytes of a line that no LF has ended yet: as many as its taker needs, and one
/// more where it is too long.
#[derive(Drop)]
pub struct Lines<A: LineTaker> {
    pub answering: Answering<A>,
    pub unfinished: Vec<u8>,
    ghost no_lf: { NoLf unfinished.items },
    ghost short: { vec_len unfinished ≤ A.LONGEST + 1 },
}

impl<A: LineTaker> Lines<A> {
    /// The lines of an input from its start on.
    pub fn new(alloc: Global, taker: A) -> Self
        ensures unfinished { result.unfinished.items ≡ [] }
        ensures replies { result.answering.replies.items ≡ [] }
        ensures taker { result.answering.taker ≡ taker }
    {
        Lines {
            answering: Answering {
                taker,
                replies: Vec::new(alloc),
            },
            unfinished: Vec::new(alloc),
        }
    }

    /// Keeps what is needed of an unfinished line's next part.
    fn keep(&mut self, part: &[u8]) -> Result<(), AllocError>
        requires { NoLf part.now }
        ensures kept { OnOk result (self.new.unfinished.items ≡ take (A.LONGEST + 1) (self.old.unfinished.items ++ part.now)) }
        ensures answering { self.new.answering ≡ self.old.answering }
    {
        let room = A::LONGEST as usize + 1 - self.unfinished.len();
        let count = part.len().min(room);
        self.unfinished.extend_from_slice(&part[..count])
    }

    /// Hands on the line that ends with this part.
    fn end_line(&mut self, part: &[u8]) -> Result<(), InputFault<A::Fault>>
        requires no_lf { NoLf part.now }
        requires few { A.count self.old.answering.taker + 1 < 2 ^ 64 }
        requires room { length self.old.answering.replies.items < 65536 }
        ensures state { OnOk result (A.state self.new.answering.taker ≡ A.rule.next (A.state self.old.answering.taker) (handed A.LONGEST Whole (self.old.unfinished.items ++ part.now))) }
        ensures told { OnOk result (self.new.answering.replies.items ≡ self.old.answering.replies.items ++ A.rule.reply (A.state self.old.answering.taker) (handed A.LONGEST Whole (self.old.unfinished.items ++ part.now))) }
        ensures unfinished { OnOk result (self.new.unfinished.items ≡ []) }
        ensures few { OnOk result (A.count self.new.answering.taker ≤ A.count self.old.answering.taker + 1) }
        ensures cause { IfErr result (IsLineFault (A.stops (A.state self.old.answering.taker) (handed A.LONGEST Whole (self.old.unfinished.items ++ part.now)))) }
    {
        if self.unfinished.is_empty() {
            return self
                .answering
                .hand_on(part, LineForm::Whole)
                .map_err(InputFault::Taker);
        }
        self.keep(part)?;
        self.answering
            .hand_on(&self.unfinished, LineForm::Whole)
            .map_err(InputFault::Taker)?;
        self.unfinished.clear();
        Ok(())
    }

    /// Hands on the lines that end in the piece, and hands over all replies. What the piece leaves unfinished is kept.
    pub fn feed<W: Sink>(&mut self, sink: &mut W, piece: &[u8]) -> Result<(), InputFault<A::Fault>>
        requires few { A.count self.old.answering.taker + length piece.now < 2 ^ 64 }
        requires handed { self.old.answering.replies.items ≡ [] }
        requires working { W.failed sink.old ≡ false }
        ensures takes { OnOk result (Takes A.rule A.LONGEST (A.state self.old.answering.taker) (A.state self.new.answering.taker) (W.taken sink.old) (W.taken sink.new) (self.old.unfinished.items ++ piece.now) [] self.new.unfinished.items) }
        ensures handed { OnOk result (self.new.answering.replies.items ≡ []) }
        ensures few { OnOk result (A.count self.new.answering.taker ≤ A.count self.old.answering.taker + length piece.now) }
        ensures working { OnOk result (W.failed sink.new ≡ false) }
        ensures prefix { OnErr result (WritesFront (W.taken sink.old) (W.taken sink.new) (replies_to A.rule (A.state self.old.answering.taker) (whole_lines A.LONGEST (self.old.unfinished.items ++ piece.now)))) }
        ensures cause { IfErr result (λ fault. IsPieceFault (StopsAt A.rule A.stops (A.state self.old.answering.taker) (whole_lines A.LONGEST (self.old.unfinished.items ++ piece.now))) fault (W.failed sink.new)) }
    {
        let mut rest = piece;
        while let Some((line, more)) = cut_line(rest) {
            self.end_line(line)?;
            if self.answering.replies.len() >= MOST_WAITING {
                self.answering.hand_over(sink)?;
            }
            rest = more;
        }
        self.answering.hand_over(sink)?;
        self.keep(rest)?;
        Ok(())
    }

    /// Hands on what the input's end leaves unfinished.
    fn take_last(&mut self) -> Result<(), InputFault<A::Fault>>
        requires few { A.count self.old.answering.taker + 1 < 2 ^ 64 }
        requires room { length self.old.answering.replies.items < 65536 }
        ensures state { OnOk result (A.state self.new.answering.taker ≡ after A.rule (A.state self.old.answering.taker) (last_line A.LONGEST self.old.unfinished.items)) }
        ensures told { OnOk result (self.new.answering.replies.items ≡ self.old.answering.replies.items ++ replies_to A.rule (A.state self.old.answering.taker) (last_line A.LONGEST self.old.unfinished.items)) }
        ensures cause { IfErr result (IsLineFault (StopsAt A.rule A.stops (A.state self.old.answering.taker) (last_line A.LONGEST self.old.unfinished.items))) }
    {
        if self.unfinished.is_empty() {
            return Ok(());
        }
        self.answering
            .hand_on(&self.unfinished, LineForm::WithoutLf)
            .map_err(InputFault::Taker)
    }

    /// Hands on what the input's end leaves unfinished, and hands over all replies.
    pub fn finish<W: Sink>(&mut self, sink: &mut W) -> Result<(), InputFault<A::Fault>>
        requires few { A.count self.old.answering.taker + 1 < 2 ^ 64 }
        requires handed { self.old.answering.replies.items ≡ [] }
        requires working { W.failed sink.old ≡ false }
        ensures state { OnOk result (A.state self.new.answering.taker ≡ after A.rule (A.state self.old.answering.taker) (last_line A.LONGEST self.old.unfinished.items)) }
        ensures wrote { OnOk result (Appends (W.taken sink.old) (W.taken sink.new) (replies_to A.rule (A.state self.old.answering.taker) (last_line A.LONGEST self.old.unfinished.items))) }
        ensures working { OnOk result (W.failed sink.new ≡ false) }
        ensures prefix { OnErr result (WritesFront (W.taken sink.old) (W.taken sink.new) (replies_to A.rule (A.state self.old.answering.taker) (last_line A.LONGEST self.old.unfinished.items))) }
        ensures cause { IfErr result (λ fault. IsPieceFault (StopsAt A.rule A.stops (A.state self.old.answering.taker) (last_line A.LONGEST self.old.unfinished.items)) fault (W.failed sink.new)) }
    {
        self.take_last()?;
        self.answering.hand_over(sink)?;
        Ok(())
    }

    /// The taker, with the lines that it has taken.
    pub fn into_taker(self) -> A
        ensures { result ≡ self.answering.taker }
    {
        let Lines {
            answering: Answering { taker, replies: _ },
            unfinished: _,
        } = self;
        taker
    }
}
