//! A market that a script speaks to.
ghost use Rattle.std.specs.Prelude.{◌≡◌, ℕ, ◌+◌, ◌<◌, ◌^◌, [], ◌++◌, length, None, if◌then◌else◌, IfOk, IfSome, OnOk};
ghost use Rattle.market_texts.specs.Reading.{line_reading};
ghost use Rattle.market_texts.specs.Script.{answer_to, is_silent};
ghost use Rattle.market_prog.specs.Sessions.{is_too_long};

use line_engine::{LONGEST_INPUT, LONGEST_LINE, LineForm, LineTaker};
use market_core::Market;
use market_texts::{push_reply, read_line};
use market_types::{Cmd, SeatNo};
use std::alloc::{AllocError, Global};

/// A market, and the number of unread lines. Where it doesn't answer its lines it only changes its market.
#[derive(Drop)]
pub struct Session<const ANSWERS: bool> {
    alloc: Global,
    market: Market,
    unread: u64,
}

/// The line is empty or begins with `#`.
pub(crate) fn is_silent(line: &[u8]) -> bool
    ensures { result ≡ is_silent line.now }
{
    line.is_empty() || line[0] == b'#'
}

/// The seat and the command that a line spells in this market. One that is too long spells none.
// In its callers: what it answers is more than registers hold, so that a call would put it into memory.
#[inline(always)]
pub(crate) fn call_in(market: &Market, line: &[u8], form: LineForm) -> Option<(SeatNo, Cmd)>
    ensures exact { result ≡ (if is_too_long form then None else line_reading (length market.now.seats) market.now.levels line.now) }
    ensures seat { IfSome result (λ call. call.0 < length market.now.seats) }
{
    if form == LineForm::TooLong {
        return None;
    }
    read_line(line, market.seats(), market.levels())
}

impl<const ANSWERS: bool> Session<ANSWERS> {
    /// The session of a market, before the first line.
    pub fn new(alloc: Global, market: Market) -> Self
        ensures market { result.market ≡ market }
        ensures unread { result.unread ≡ 0 }
    {
        Session {
            alloc,
            market,
            unread: 0,
        }
    }

    /// The market as the lines so far have made it.
    pub fn market(&self) -> &Market
        ensures { result.now ≡ self.now.market }
    {
        &self.market
    }

    /// How many lines were unread.
    pub fn unread(&self) -> u64
        ensures { result ≡ self.now.unread }
    {
        self.unread
    }

    /// Gives the call of a line that is not silent to the market, and answers it where lines are answered.
    fn reply_to(
        &mut self,
        call: Option<(SeatNo, Cmd)>,
        replies: &mut Vec<u8>,
    ) -> Result<(), AllocError>
        requires few { self.old.unread + 1 < 2 ^ 64 }
        requires seat { IfSome call (λ c. c.0 < length self.old.market.seats) }
        ensures told { OnOk result (replies.new.items ≡ replies.old.items ++ (if ANSWERS then (answer_to self.old.market call).text else [])) }
        ensures market { OnOk result (self.new.market ≡ (answer_to self.old.market call).last) }
        ensures unread { OnOk result (self.new.unread ≡ self.old.unread + (answer_to self.old.market call).unread) }
    {
        let Some((seat, cmd)) = call else {
            self.unread += 1;
            if ANSWERS {
                replies.extend_from_slice(b"unread\n")?;
            }
            return Ok(());
        };
        let reply = self.market.apply(self.alloc, seat, cmd)?;
        if ANSWERS {
            push_reply(replies, &reply)?;
            replies.push(b'\n')?;
        }
        Ok(())
    }
}

impl<const ANSWERS: bool> LineTaker for Session<ANSWERS> {
    ghost use Rattle.std.specs.Prelude.{ℕ, ⊤};
    ghost use Rattle.std.proofs.Common.{le_refl};
    ghost use Rattle.line_engine.specs.Input.{longest_input};
    ghost use Rattle.market_types.specs.State.{State};
    ghost use Rattle.market_prog.specs.Sessions.{script_rule, longest_line};

    type Fault = AllocError;

    const LONGEST: u32 = LONGEST_LINE;

    ghost LONGEST = { longest_line };

    ghost State = { State × ℕ };

    ghost state = { λ s. (s.market, s.unread) };

    ghost rule = { script_rule ANSWERS };

    ghost stops = { λ _ _ _. ⊤ };

    ghost count = { λ s. s.unread };

    ghost most_bytes = { λ _. longest_input };

    ghost grows = { λ _ _. le_refl longest_input };

    fn most_bytes(&self) -> u64 {
        LONGEST_INPUT
    }

    fn take_line(
        &mut self,
        line: &[u8],
        form: LineForm,
        replies: &mut Vec<u8>,
    ) -> Result<(), AllocError> {
        if is_silent(line) {
            return Ok(());
        }
        let call = call_in(&self.market, line, form);
        self.reply_to(call, replies)
    }
}
