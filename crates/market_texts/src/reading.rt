//! Commands read from their texts.
ghost use Rattle.std.specs.Prelude.{◌≡◌, ◌<◌, IfSome, ℕ, slice_index};
ghost use Rattle.std.specs.List.{slice_split};
ghost use Rattle.market_texts.specs.Fields.{fields_left};
ghost use Rattle.market_texts.specs.Reading.{alone, command_of, is_space, line_reading, of_number, open_reading, priority_reading, reading, request_reading, resize_reading};

use crate::field::{
    after_word, cut_field, cut_number, cut_seat, cut_signed, middle_level, read_level,
};
use market_types::{ArenaId, Cmd, ControlId, SeatNo};

/// The seat and the command that a line of a script spells, as `0 open 8 1 normal`: a seat below the number of seats,
/// one space, and a command as `read_cmd` reads it. None for every other line. Takes no memory.
#[tactic(auto, unfolding(crate::specs::Reading::line_reading, crate::specs::Reading::reading, crate::specs::Reading::command_of))]
pub fn read_line(line: &[u8], seats: u8, levels: u32) -> Option<(SeatNo, Cmd)>
    ensures exact { result ≡ line_reading seats levels line.now }
    ensures seated { IfSome result (λ call. call.0 < seats) }
{
    let (seat, more) = cut_seat(line, seats)?;
    let cmd = read_cmd(more?, levels)?;
    Some((SeatNo::new(seat), cmd))
}

/// The command that a text spells in a market of so many levels, as `open 8 1 normal`. None for every other text.
/// Takes no memory.
#[tactic(auto, unfolding(crate::specs::Reading::reading, crate::specs::Reading::command_of))]
pub fn read_cmd(text: &[u8], levels: u32) -> Option<Cmd>
    ensures exact { result ≡ reading levels text.now }
{
    if text.is_empty() {
        return None;
    }
    // The first letter leaves one word, or two or three, to compare.
    match text[0] {
        b'o' => read_open(after_word(text, b"open")??, levels),
        b'p' => read_priority(after_word(text, b"priority")??, levels),
        b'u' => read_uncontrol(after_word(text, b"uncontrol")??),
        b'j' => alone(Cmd::Join, after_word(text, b"join")?),
        b'c' => read_close_or_control(text),
        b'r' => read_request_or_resize(text),
        b's' => read_stay_or_show(text),
        b'l' => read_leave_lists_or_limit(text),
        _ => None,
    }
}

/// The command that a text spells whose first letter is c.
#[tactic(auto, unfolding(crate::specs::Reading::command_of))]
fn read_close_or_control(text: &[u8]) -> Option<Cmd>
    requires { slice_index text.now 0 ≡ 99 }
    ensures { (levels : ℕ) → result ≡ command_of levels (slice_split is_space text.now) }
{
    if let Some(more) = after_word(text, b"close") {
        return read_close(more?);
    }
    read_control(after_word(text, b"control")??)
}

/// The command that a text spells whose first letter is r.
#[tactic(auto, unfolding(crate::specs::Reading::command_of))]
fn read_request_or_resize(text: &[u8]) -> Option<Cmd>
    requires { slice_index text.now 0 ≡ 114 }
    ensures { (levels : ℕ) → result ≡ command_of levels (slice_split is_space text.now) }
{
    if let Some(more) = after_word(text, b"request") {
        return read_request(more?);
    }
    read_resize(after_word(text, b"resize")??)
}

/// The command that a text spells whose first letter is s.
#[tactic(auto, unfolding(crate::specs::Reading::command_of))]
fn read_stay_or_show(text: &[u8]) -> Option<Cmd>
    requires { slice_index text.now 0 ≡ 115 }
    ensures { (levels : ℕ) → result ≡ command_of levels (slice_split is_space text.now) }
{
    if let Some(more) = after_word(text, b"stay") {
        return alone(Cmd::Stay, more);
    }
    read_show(after_word(text, b"show")??)
}

/// The command that a text spells whose first letter is l.
#[tactic(auto, unfolding(crate::specs::Reading::command_of))]
fn read_leave_lists_or_limit(text: &[u8]) -> Option<Cmd>
    requires { slice_index text.now 0 ≡ 108 }
    ensures { (levels : ℕ) → result ≡ command_of levels (slice_split is_space text.now) }
{
    if let Some(more) = after_word(text, b"leave") {
        return alone(Cmd::Leave, more);
    }
    if let Some(more) = after_word(text, b"lists") {
        return alone(Cmd::Lists, more);
    }
    alone(Cmd::Limit, after_word(text, b"limit")?)
}

/// The command, where no field follows.
fn alone(cmd: Cmd, more: Option<&[u8]>) -> Option<Cmd>
    ensures { result ≡ alone cmd (fields_left more.entry) }
{
    match more {
        None => Some(cmd),
        Some(_) => None,
    }
}

fn read_open(more: &[u8], levels: u32) -> Option<Cmd>
    ensures { result ≡ open_reading levels (slice_split is_space more.now) }
{
    let (slots, more) = cut_number(more)?;
    let Some(more) = more else {
        return Some(Cmd::Open(slots, 1, middle_level(levels)?));
    };
    let (reserved, more) = cut_number(more)?;
    let Some(more) = more else {
        return Some(Cmd::Open(slots, reserved, middle_level(levels)?));
    };
    let (field, more) = cut_field(more);
    let level = read_level(field, levels)?;
    alone(Cmd::Open(slots, reserved, level), more)
}

fn read_close(more: &[u8]) -> Option<Cmd>
    ensures { result ≡ of_number Cmd.Close (slice_split is_space more.now) }
{
    let (arena, more) = cut_number(more)?;
    alone(Cmd::Close(ArenaId::new(arena)), more)
}

fn read_priority(more: &[u8], levels: u32) -> Option<Cmd>
    ensures { result ≡ priority_reading levels (slice_split is_space more.now) }
{
    let (arena, more) = cut_number(more)?;
    let arena = ArenaId::new(arena);
    let (field, more) = cut_field(more?);
    let level = read_level(field, levels)?;
    alone(Cmd::Priority(arena, level), more)
}

fn read_resize(more: &[u8]) -> Option<Cmd>
    ensures { result ≡ resize_reading (slice_split is_space more.now) }
{
    let (arena, more) = cut_number(more)?;
    let arena = ArenaId::new(arena);
    let (slots, more) = cut_number(more?)?;
    let (reserved, more) = cut_number(more?)?;
    alone(Cmd::Resize(arena, slots, reserved), more)
}

fn read_request(more: &[u8]) -> Option<Cmd>
    ensures { result ≡ request_reading (slice_split is_space more.now) }
{
    let (arena, more) = cut_number(more)?;
    let arena = ArenaId::new(arena);
    let (workers, more) = cut_signed(more?)?;
    let Some(more) = more else {
        return Some(Cmd::Request(arena, workers, 0));
    };
    let (mandatory, more) = cut_signed(more)?;
    alone(Cmd::Request(arena, workers, mandatory), more)
}

fn read_control(more: &[u8]) -> Option<Cmd>
    ensures { result ≡ of_number Cmd.Control (slice_split is_space more.now) }
{
    let (value, more) = cut_number(more)?;
    alone(Cmd::Control(value), more)
}

fn read_uncontrol(more: &[u8]) -> Option<Cmd>
    ensures { result ≡ of_number Cmd.Uncontrol (slice_split is_space more.now) }
{
    let (control, more) = cut_number(more)?;
    alone(Cmd::Uncontrol(ControlId::new(control)), more)
}

fn read_show(more: &[u8]) -> Option<Cmd>
    ensures { result ≡ of_number Cmd.Show (slice_split is_space more.now) }
{
    let (arena, more) = cut_number(more)?;
    alone(Cmd::Show(ArenaId::new(arena)), more)
}
