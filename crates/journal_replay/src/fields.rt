//! The fields of an entry, in whichever way its members are found.
ghost use Rattle.std.specs.Prelude.{◌≡◌, ◌<◌, IfSome, option_map};
ghost use Rattle.serde_json.specs.Data.{no_members, object};
ghost use Rattle.journal_replay.specs.Members.{members_of, with_member};
ghost use Rattle.journal_replay.specs.Reading.{entry_in};

use crate::reading::Recorded;
use market_texts::read_cmd;
use market_types::SeatNo;

/// A member of an entry.
#[derive(Clone, Copy)]
pub(crate) enum Member<'a> {
    Cmd(&'a [u8]),
    Reply(&'a [u8]),
    Seat(u32),
}

/// The fields that the members of an object tell so far: the texts of a command and of its reply, and the number of a seat. The
/// last member of a key counts, as in JSON.
#[derive(Clone, Copy)]
pub(crate) struct Fields<'a> {
    pub(crate) cmd: Option<&'a [u8]>,
    pub(crate) reply: Option<&'a [u8]>,
    pub(crate) seat: Option<u32>,
}

impl<'a> Fields<'a> {
    /// Before the first member.
    #[inline(always)]
    pub(crate) fn none() -> Self
        ensures { members_of result ≡ no_members }
    {
        Fields {
            cmd: None,
            reply: None,
            seat: None,
        }
    }

    /// Takes one member more.
    #[inline(always)]
    pub(crate) fn put(&mut self, member: Member<'a>)
        ensures { members_of self.new ≡ with_member member.entry (members_of self.old) }
    {
        match member {
            Member::Cmd(text) => self.cmd = Some(text),
            Member::Reply(text) => self.reply = Some(text),
            Member::Seat(number) => self.seat = Some(number),
        }
    }

    /// The entry that has exactly these fields, in a market of so many seats and levels. None where one is missing, where the
    /// command does not read, or where the market has no such seat.
    #[tactic(auto, unfolding(crate::specs::Reading::entry_in))]
    #[inline(always)]
    pub(crate) fn entry(self, seats: u8, levels: u32) -> Option<Recorded<'a>>
        ensures exact { option_map (λ e. record { seat = e.seat; cmd = e.cmd; reply = e.reply.now }) result ≡ entry_in seats levels (object (members_of self.entry)) }
        ensures seat { IfSome result (λ e. e.seat < seats) }
    {
        let (text, reply, seat) = (self.cmd?, self.reply?, self.seat?);
        let cmd = read_cmd(text, levels)?;
        if seat >= u32::from(seats) {
            return None;
        }
        let seat = SeatNo::new(seat as u8);
        Some(Recorded { seat, cmd, reply })
    }
}
