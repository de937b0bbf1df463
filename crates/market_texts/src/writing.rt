//! Commands and replies written as texts.
#![tactic(auto, using(crate::proofs::Written::extends_trans))]

ghost use Rattle.std.specs.Prelude.{◌≡◌, ◌+◌, ◌<◌, ◌≤◌, ◌++◌, IfOk, IsUtf8, OnErr, OnOk, codes, decimal, string_bytes};
ghost use Rattle.std.specs.Fmt.{signed_decimal};
ghost use Rattle.market_types.specs.Corrections.{counts_to};
ghost use Rattle.market_texts.specs.Texts.{cmd_text, count_text, counts_text, fault_text, level_text, limit_text, open_fault_text, reply_text, view_text, yes_no};
ghost use Rattle.market_texts.specs.Written.{Extends, comma_if, seats_text};

use itoa::Buffer;
use market_types::{
    ArenaView, Cmd, Correction, Fault, Imbalance, Level, LimitView, Lists, OpenFault, Reply,
};
use std::alloc::{AllocError, Global};

/// Most texts are no longer than this.
const USUAL_LENGTH: usize = 24;

/// The canonical text of a command in a market of so many levels, as `open 8 1 normal`: every field is written, and a
/// level by its name where it has one. `Err` says that memory ran out.
pub fn cmd_text(alloc: Global, cmd: &Cmd, levels: u32) -> Result<String, AllocError>
    ensures exact { IfOk result (λ text. string_bytes text ≡ cmd_text levels cmd.now) }
{
    let mut text = Vec::with_capacity(alloc, USUAL_LENGTH)?;
    push_cmd(&mut text, cmd, levels)?;
    Ok(as_string(text))
}

/// The string of these bytes, which takes their memory.
fn as_string(bytes: Vec<u8>) -> String
    requires { IsUtf8 bytes.items }
    ensures { string_bytes result ≡ bytes.items }
{
    let Ok(text) = String::from_utf8(bytes) else {
        unreachable!()
    };
    text
}

/// Writes a command's canonical text, in a market of so many levels, behind what `out` holds. `Err` says that memory ran out,
/// and leaves `out` as it was.
pub fn push_cmd(out: &mut Vec<u8>, cmd: &Cmd, levels: u32) -> Result<(), AllocError>
    ensures ok { OnOk result (out.new.items ≡ out.old.items ++ cmd_text levels cmd.now) }
    ensures err { OnErr result (out.new.items ≡ out.old.items) }
    ensures utf8 { IsUtf8 out.old.items → IsUtf8 out.new.items }
{
    let before = out.len();
    let pushed = push_cmd_text(out, cmd, levels);
    if pushed.is_err() {
        out.truncate(before);
    }
    pushed
}

fn push_cmd_text(out: &mut Vec<u8>, cmd: &Cmd, levels: u32) -> Result<(), AllocError>
    ensures ok { OnOk result (out.new.items ≡ out.old.items ++ cmd_text levels cmd.now) }
    ensures grows { Extends out.old.items out.new.items }
{
    match cmd {
        Cmd::Open(slots, reserved, level) => {
            push_open(out, *slots, *reserved, level_text(*level, levels))
        }
        Cmd::Close(arena) => push_part(out, "close ", arena.get()),
        Cmd::Priority(arena, level) => push_priority(out, arena.get(), level_text(*level, levels)),
        Cmd::Resize(arena, slots, reserved) => push_resize(out, arena.get(), *slots, *reserved),
        Cmd::Request(arena, workers, mandatory) => {
            push_request(out, arena.get(), *workers, *mandatory)
        }
        Cmd::Control(value) => push_part(out, "control ", *value),
        Cmd::Uncontrol(control) => push_part(out, "uncontrol ", control.get()),
        Cmd::Join => push_text(out, "join"),
        Cmd::Stay => push_text(out, "stay"),
        Cmd::Leave => push_text(out, "leave"),
        Cmd::Show(arena) => push_part(out, "show ", arena.get()),
        Cmd::Lists => push_text(out, "lists"),
        Cmd::Limit => push_text(out, "limit"),
    }
}

fn push_open(out: &mut Vec<u8>, slots: u32, reserved: u32, level: &str) -> Result<(), AllocError>
    ensures ok { OnOk result (out.new.items ≡ out.old.items ++ (codes "open " ++ (decimal slots ++ (codes " " ++ (decimal reserved ++ (codes " " ++ level.now)))))) }
    ensures grows { Extends out.old.items out.new.items }
{
    push_part(out, "open ", slots)?;
    push_part(out, " ", reserved)?;
    push_word(out, level)
}

fn push_priority(out: &mut Vec<u8>, arena: u32, level: &str) -> Result<(), AllocError>
    ensures ok { OnOk result (out.new.items ≡ out.old.items ++ (codes "priority " ++ (decimal arena ++ (codes " " ++ level.now)))) }
    ensures grows { Extends out.old.items out.new.items }
{
    push_part(out, "priority ", arena)?;
    push_word(out, level)
}

fn push_resize(out: &mut Vec<u8>, arena: u32, slots: u32, reserved: u32) -> Result<(), AllocError>
    ensures ok { OnOk result (out.new.items ≡ out.old.items ++ (codes "resize " ++ (decimal arena ++ (codes " " ++ (decimal slots ++ (codes " " ++ decimal reserved)))))) }
    ensures grows { Extends out.old.items out.new.items }
{
    push_part(out, "resize ", arena)?;
    push_part(out, " ", slots)?;
    push_part(out, " ", reserved)
}

fn push_request(
    out: &mut Vec<u8>,
    arena: u32,
    workers: i32,
    mandatory: i32,
) -> Result<(), AllocError>
    ensures ok { OnOk result (out.new.items ≡ out.old.items ++ (codes "request " ++ (decimal arena ++ (codes " " ++ (signed_decimal workers ++ (codes " " ++ signed_decimal mandatory)))))) }
    ensures grows { Extends out.old.items out.new.items }
{
    push_part(out, "request ", arena)?;
    push_signed(out, workers)?;
    push_signed(out, mandatory)
}

/// A level's name in a market of so many levels, as `high`, where it has one; else its number.
pub fn level_text(level: Level, levels: u32) -> &'static str
    ensures exact { result.now ≡ level_text levels level }
{
    match level.get() {
        1 if levels == 3 => "high",
        2 if levels == 3 => "normal",
        3 if levels == 3 => "low",
        _ => numbered_level(level),
    }
}

#[tactic(auto, using(std::proofs::lemmas::Fmt::decimal_digit))]
fn numbered_level(level: Level) -> &'static str
    ensures { result.now ≡ decimal level }
{
    match level.get() {
        1 => "1",
        2 => "2",
        3 => "3",
        4 => "4",
        5 => "5",
        6 => "6",
        7 => "7",
        _ => "8",
    }
}

/// Why a market is not opened, as `O1 bad base`.
pub fn open_fault_text(fault: OpenFault) -> &'static str
    ensures exact { result.now ≡ open_fault_text fault }
{
    match fault {
        OpenFault::BadBase => "O1 bad base",
        OpenFault::BadHard => "O2 bad hard",
        OpenFault::BadSeats => "O3 bad seats",
        OpenFault::BadPlaces => "O4 bad places",
        OpenFault::BadLevels => "O5 bad levels",
        OpenFault::Memory => "memory",
    }
}

/// A reply's text, as `arena 1`. `Err` says that memory ran out.
pub fn reply_text(alloc: Global, reply: &Reply) -> Result<String, AllocError>
    ensures exact { IfOk result (λ text. string_bytes text ≡ reply_text reply.now) }
{
    let mut text = Vec::with_capacity(alloc, USUAL_LENGTH)?;
    push_reply(&mut text, reply)?;
    Ok(as_string(text))
}

/// Writes a reply's text, without an end of line, behind what `out` holds. `Err` says that memory ran out, and leaves `out` as
/// it was.
pub fn push_reply(out: &mut Vec<u8>, reply: &Reply) -> Result<(), AllocError>
    ensures ok { OnOk result (out.new.items ≡ out.old.items ++ reply_text reply.now) }
    ensures err { OnErr result (out.new.items ≡ out.old.items) }
    ensures utf8 { IsUtf8 out.old.items → IsUtf8 out.new.items }
{
    let before = out.len();
    let pushed = push_reply_text(out, reply);
    if pushed.is_err() {
        out.truncate(before);
    }
    pushed
}

fn push_reply_text(out: &mut Vec<u8>, reply: &Reply) -> Result<(), AllocError>
    ensures ok { OnOk result (out.new.items ≡ out.old.items ++ reply_text reply.now) }
    ensures grows { Extends out.old.items out.new.items }
{
    match reply {
        Reply::Opened(arena) => push_part(out, "arena ", arena.get()),
        Reply::Closed | Reply::Moved | Reply::Uncontrolled => push_text(out, "ok"),
        Reply::Resized(request) => push_part(out, "resized ", *request),
        Reply::Requested(request) => push_part(out, "request ", *request),
        Reply::Controlled(control) => push_part(out, "control ", control.get()),
        Reply::Placed(arena) => push_part(out, "placed ", arena.get()),
        Reply::Idle => push_text(out, "idle"),
        Reply::Stays(arena) => push_part(out, "stays ", arena.get()),
        Reply::Recalled(arena) => push_part(out, "recalled ", arena.get()),
        Reply::Left(arena) => push_part(out, "left ", arena.get()),
        Reply::Shown(view) => push_view(out, view),
        Reply::Listed(lists) => push_lists(out, lists),
        Reply::Limits(view) => push_limits(out, view),
        Reply::Refused(fault) => push_fault(out, *fault),
    }
}

fn push_view(out: &mut Vec<u8>, view: &ArenaView) -> Result<(), AllocError>
    ensures ok { OnOk result (out.new.items ≡ out.old.items ++ view_text view.now) }
    ensures grows { Extends out.old.items out.new.items }
{
    push_part(out, "arena ", view.arena.get())?;
    push_part(out, " request ", view.request)?;
    push_part(out, " allot ", view.allot)?;
    push_text(out, " top ")?;
    push_answer(out, view.top)?;
    push_seats(out, view)
}

/// The part of an arena's view that counts seats.
fn push_seats(out: &mut Vec<u8>, view: &ArenaView) -> Result<(), AllocError>
    ensures ok { OnOk result (out.new.items ≡ out.old.items ++ seats_text view.now) }
    ensures grows { Extends out.old.items out.new.items }
{
    push_part(out, " active ", view.active)?;
    push_part(out, " recall ", view.recall)?;
    push_part(out, " hire ", view.hire)
}

/// Yes or no.
// By a few bytes: a text that is either of two is copied by a call.
#[inline(always)]
fn push_answer(out: &mut Vec<u8>, answer: bool) -> Result<(), AllocError>
    ensures ok { OnOk result (out.new.items ≡ out.old.items ++ yes_no answer) }
    ensures grows { Extends out.old.items out.new.items }
{
    if answer {
        push_few(out, b"yes")
    } else {
        push_few(out, b"no")
    }
}

fn push_limits(out: &mut Vec<u8>, view: &LimitView) -> Result<(), AllocError>
    ensures ok { OnOk result (out.new.items ≡ out.old.items ++ limit_text view.now) }
    ensures grows { Extends out.old.items out.new.items }
{
    push_part(out, "value ", view.value)?;
    push_part(out, " limit ", view.limit)?;
    push_part(out, " effective ", view.effective)
}

fn push_lists(out: &mut Vec<u8>, lists: &Lists) -> Result<(), AllocError>
    ensures ok { OnOk result (out.new.items ≡ out.old.items ++ reply_text (Reply.Listed lists.now)) }
    ensures grows { Extends out.old.items out.new.items }
{
    push_text(out, "recall ")?;
    push_counts(out, &lists.arenas, Correction::Recall)?;
    push_text(out, " hire ")?;
    push_counts(out, &lists.arenas, Correction::Hire)
}

/// The arenas that need this correction with their counts, joined by commas; of none a dash.
fn push_counts(
    out: &mut Vec<u8>,
    arenas: &[Imbalance],
    correction: Correction,
) -> Result<(), AllocError>
    ensures ok { OnOk result (out.new.items ≡ out.old.items ++ counts_text (counts_to correction arenas.now)) }
    ensures grows { Extends out.old.items out.new.items }
{
    let mut begun = false;
    for arena in arenas {
        if arena.correction == correction {
            push_comma(out, begun)?;
            push_count(out, *arena)?;
            begun = true;
        }
    }
    if begun { Ok(()) } else { push_text(out, "-") }
}

/// A comma where something stands before it.
// By a text that is known, so that no call copies it.
#[inline(always)]
fn push_comma(out: &mut Vec<u8>, begun: bool) -> Result<(), AllocError>
    ensures ok { OnOk result (out.new.items ≡ out.old.items ++ comma_if begun) }
    ensures grows { Extends out.old.items out.new.items }
{
    if begun { push_text(out, ",") } else { Ok(()) }
}

fn push_count(out: &mut Vec<u8>, arena: Imbalance) -> Result<(), AllocError>
    ensures ok { OnOk result (out.new.items ≡ out.old.items ++ count_text (arena.arena, arena.count)) }
    ensures grows { Extends out.old.items out.new.items }
{
    push_decimal(out, arena.arena.get())?;
    push_part(out, ":", arena.count)
}

fn push_fault(out: &mut Vec<u8>, fault: Fault) -> Result<(), AllocError>
    ensures ok { OnOk result (out.new.items ≡ out.old.items ++ fault_text fault) }
    ensures grows { Extends out.old.items out.new.items }
{
    match fault {
        Fault::BadSlots => push_text(out, "F01 bad slots"),
        Fault::BadReserve => push_text(out, "F02 bad reserve"),
        Fault::TooManyArenas => push_text(out, "F03 too many arenas"),
        Fault::OutOfNumbers => push_text(out, "F04 out of numbers"),
        Fault::NoArena => push_text(out, "F05 no arena"),
        Fault::Busy(seats) => push_part(out, "F06 busy ", seats),
        Fault::WantedRange => push_text(out, "F07 wanted range"),
        Fault::MandatoryRange => push_text(out, "F08 mandatory range"),
        Fault::BadValue => push_text(out, "F09 bad value"),
        Fault::TooManyControls => push_text(out, "F10 too many controls"),
        Fault::NoControl => push_text(out, "F11 no control"),
        Fault::AlreadyPlaced(arena) => push_part(out, "F12 already placed ", arena.get()),
        Fault::NotPlaced => push_text(out, "F13 not placed"),
        Fault::BadLevel => push_text(out, "F14 bad level"),
    }
}

/// A label, and a number in decimal.
#[inline(always)]
fn push_part(out: &mut Vec<u8>, label: &str, number: u32) -> Result<(), AllocError>
    ensures ok { OnOk result (out.new.items ≡ out.old.items ++ (label.now ++ decimal number)) }
    ensures grows { Extends out.old.items out.new.items }
{
    push_text(out, label)?;
    push_decimal(out, number)
}

/// A space and a word.
#[inline(always)]
fn push_word(out: &mut Vec<u8>, word: &str) -> Result<(), AllocError>
    ensures ok { OnOk result (out.new.items ≡ out.old.items ++ (codes " " ++ word.now)) }
    ensures grows { Extends out.old.items out.new.items }
{
    push_text(out, " ")?;
    push_text(out, word)
}

/// A space, and a number in decimal with its sign.
fn push_signed(out: &mut Vec<u8>, number: i32) -> Result<(), AllocError>
    ensures ok { OnOk result (out.new.items ≡ out.old.items ++ (codes " " ++ signed_decimal number)) }
    ensures grows { Extends out.old.items out.new.items }
{
    if number < 0 {
        push_part(out, " -", number.unsigned_abs())
    } else {
        push_part(out, " ", number.unsigned_abs())
    }
}

/// Writes a number in decimal behind what `out` holds. `Err` says that memory ran out, and leaves `out` as it was.
#[inline(always)]
pub fn push_number(out: &mut Vec<u8>, number: u32) -> Result<(), AllocError>
    ensures ok { OnOk result (out.new.items ≡ out.old.items ++ decimal number) }
    ensures err { OnErr result (out.new.items ≡ out.old.items) }
    ensures utf8 { IsUtf8 out.old.items → IsUtf8 out.new.items }
{
    push_decimal(out, number)
}

/// A number in decimal. Nearly all numbers are short, and these need no buffer and no call.
#[inline(always)]
fn push_decimal(out: &mut Vec<u8>, number: u32) -> Result<(), AllocError>
    ensures ok { OnOk result (out.new.items ≡ out.old.items ++ decimal number) }
    ensures err { OnErr result (out.new.items ≡ out.old.items) }
    ensures grows { Extends out.old.items out.new.items }
{
    if number < 10 {
        return push_few(out, &[digit(number)]);
    }
    if number < 100 {
        return push_few(out, &[digit(number / 10), digit(number % 10)]);
    }
    push_long(out, number)
}

/// A number of more than two digits in decimal. Three are written as they stand too.
#[inline(never)]
fn push_long(out: &mut Vec<u8>, number: u32) -> Result<(), AllocError>
    requires { 100 ≤ number }
    ensures ok { OnOk result (out.new.items ≡ out.old.items ++ decimal number) }
    ensures err { OnErr result (out.new.items ≡ out.old.items) }
    ensures grows { Extends out.old.items out.new.items }
{
    if number < 1000 {
        let tens = number / 10;
        return push_few(
            out,
            &[digit(tens / 10), digit(tens % 10), digit(number % 10)],
        );
    }
    push_buffered(out, number)
}

/// A number of any length in decimal.
#[inline(never)]
fn push_buffered(out: &mut Vec<u8>, number: u32) -> Result<(), AllocError>
    ensures ok { OnOk result (out.new.items ≡ out.old.items ++ decimal number) }
    ensures err { OnErr result (out.new.items ≡ out.old.items) }
    ensures grows { Extends out.old.items out.new.items }
{
    let mut digits = Buffer::new();
    push_text(out, digits.format(number))
}

/// The digit of a number below 10.
fn digit(number: u32) -> u8
    requires { number < 10 }
    ensures { result ≡ 48 + number }
{
    b'0' + number as u8
}

/// A few bytes, as they stand.
// One by one into room for all: a call that copies so few takes 50 instructions, and most replies have one such number.
#[inline(always)]
fn push_few(out: &mut Vec<u8>, bytes: &[u8]) -> Result<(), AllocError>
    requires { IsUtf8 bytes.now }
    ensures ok { OnOk result (out.new.items ≡ out.old.items ++ bytes.now) }
    ensures err { OnErr result (out.new.items ≡ out.old.items) }
    ensures grows { Extends out.old.items out.new.items }
{
    out.reserve(bytes.len())?;
    for byte in bytes {
        out.push_reserved(*byte);
    }
    Ok(())
}

/// A text, as it stands. Where it is inlined its length is known, and it is copied with no call.
#[inline(always)]
fn push_text(out: &mut Vec<u8>, text: &str) -> Result<(), AllocError>
    ensures ok { OnOk result (out.new.items ≡ out.old.items ++ text.now) }
    ensures err { OnErr result (out.new.items ≡ out.old.items) }
    ensures grows { Extends out.old.items out.new.items }
{
    out.extend_from_slice(text.as_bytes())
}
