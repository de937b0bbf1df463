//! A market whose script is recorded.
ghost use Rattle.std.specs.Prelude.{◌≡◌, ◌+◌, ◌<◌, ◌^◌, length, IfErr, IfSome, OnOk};
ghost use Rattle.market_texts.specs.Script.{answer_to};
ghost use Rattle.edit_history.specs.Chronicled.{market_of};
ghost use Rattle.market_prog.specs.Recorded.{entries_to};
ghost use Rattle.market_prog.specs.Recording.{IsUnrecorded, lengthened};

use crate::session::{call_in, is_silent};
use edit_history::{CallFault, Chronicle};
use line_engine::{LONGEST_INPUT, LONGEST_LINE, LineForm, LineTaker};
use market_types::{Cmd, SeatNo};
use std::alloc::Global;

/// A market with its history, which grows by each call of the lines, and the number of unread lines. It answers no line.
#[derive(Drop)]
pub struct RecordingSession {
    alloc: Global,
    chronicle: Chronicle,
    unread: u64,
}

impl RecordingSession {
    /// The session of a market with its history, before the first line.
    pub fn new(alloc: Global, chronicle: Chronicle) -> Self
        ensures chronicle { result.chronicle ≡ chronicle }
        ensures unread { result.unread ≡ 0 }
    {
        RecordingSession {
            alloc,
            chronicle,
            unread: 0,
        }
    }

    /// The market with its history, as the lines so far have made it.
    pub fn chronicle(&self) -> &Chronicle
        ensures { result.now ≡ self.now.chronicle }
    {
        &self.chronicle
    }

    /// How many lines were unread.
    pub fn unread(&self) -> u64
        ensures { result ≡ self.now.unread }
    {
        self.unread
    }

    /// Records the call of a line that is not silent; `None` is a line that was not read.
    fn record(&mut self, call: Option<(SeatNo, Cmd)>) -> Result<(), CallFault>
        requires few { self.old.unread + 1 < 2 ^ 64 }
        requires seat { IfSome call (λ c. c.0 < length self.old.chronicle.start.seats) }
        ensures recorded { OnOk result (self.new.chronicle ≡ lengthened self.old.chronicle (entries_to (market_of self.old.chronicle) call)) }
        ensures unread { OnOk result (self.new.unread ≡ self.old.unread + (answer_to (market_of self.old.chronicle) call).unread) }
        ensures stops { IfErr result (IsUnrecorded self.old.chronicle call) }
    {
        let Some((seat, cmd)) = call else {
            self.unread += 1;
            return Ok(());
        };
        self.chronicle.call(self.alloc, seat, cmd)?;
        Ok(())
    }
}

impl LineTaker for RecordingSession {
    ghost use Rattle.std.specs.Prelude.{ℕ};
    ghost use Rattle.std.proofs.Common.{le_refl};
    ghost use Rattle.line_engine.specs.Input.{longest_input};
    ghost use Rattle.edit_history.specs.Chronicled.{Chronicled};
    ghost use Rattle.market_prog.specs.Sessions.{longest_line};
    ghost use Rattle.market_prog.specs.Recording.{recording_rule, StopsRecording};

    type Fault = CallFault;

    const LONGEST: u32 = LONGEST_LINE;

    ghost LONGEST = { longest_line };

    ghost State = { Chronicled × ℕ };

    ghost state = { λ s. (s.chronicle, s.unread) };

    ghost rule = { recording_rule };

    ghost stops = { StopsRecording };

    ghost count = { λ s. s.unread };

    ghost most_bytes = { λ _. longest_input };

    ghost grows = { λ _ _. le_refl longest_input };

    fn most_bytes(&self) -> u64 {
        LONGEST_INPUT
    }

    fn take_line(
        &mut self,
        line: &[u8],
        form: LineForm,
        _replies: &mut Vec<u8>,
    ) -> Result<(), CallFault> {
        if is_silent(line) {
            return Ok(());
        }
        let call = call_in(self.chronicle.market(), line, form);
        self.record(call)
    }
}
