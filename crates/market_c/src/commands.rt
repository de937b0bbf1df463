//! The commands that move no seat.
ghost use Rattle.std.specs.Prelude.{◌≡◌, ◌≢◌, pos, negsuc, IfOk, IfErr};
ghost use Rattle.market_types.specs.declared.command.Cmd.TheVariants.{Open, Close, Priority, Resize, Request, Control, Uncontrol};
ghost use Rattle.market_types.specs.declared.reply.Fault.{Fault};
ghost use Rattle.market_types.specs.declared.reply.Reply.TheVariants.{Opened, Closed, Moved, Resized, Requested, Controlled, Uncontrolled, Refused};
ghost use Rattle.market_lock.specs.Moves.{Called};
ghost use Rattle.market_c.specs.Codes.{code_of, IsRefused, IsUndone};
ghost use Rattle.market_c.specs.Asked.{Goes, Tells};

use crate::code::{BAD_NUMBER, BAD_SEAT, BUSY, HISTORY_FULL, NO_MEMORY, OK, UNFIT, of_refusal};
use crate::place::Place;
use edit_history::CallFault;
use market_seat::Answer;
use market_types::{ArenaId, Cmd, ControlId, Level, Reply};
use std::alloc::Global;

/// An attempt at a call by the seat of this place. The `Err` is the number of why it was not answered.
#[inline(always)]
pub(crate) fn ask(alloc: Global, place: &mut Place, cmd: Cmd) -> Result<Reply, i32>
    ensures answered { IfOk result (λ reply. Goes place.old.held.seat place.new.held.seat (λ p q. Called p cmd reply q)) }
    ensures told { IfErr result (λ code. Tells code cmd place.old.held.seat place.new.held.seat) }
    ensures undone { IfErr result (λ code. IsUndone code) }
{
    let Some((seat, room)) = place.take(alloc) else {
        return Err(BAD_SEAT);
    };
    let mut seat = seat;
    let answer = seat.try_call(alloc, cmd);
    place.put(room, seat);
    match answer {
        Answer::Made(reply) => Ok(reply),
        Answer::Failed(CallFault::HistoryFull) => Err(HISTORY_FULL),
        Answer::Failed(CallFault::Memory) => Err(NO_MEMORY),
        Answer::Busy => Err(BUSY),
        Answer::Unfit => Err(UNFIT),
    }
}

/// A new arena with so many slots, so many of them reserved, in this level. Its number is written. A level that is not 1 to 8 is
/// `BAD_NUMBER`, and nothing was asked.
#[unsafe(no_mangle)]
pub extern "C" fn market_raw_arena_open(
    alloc: Global,
    place: &mut Place,
    slots: u32,
    reserved: u32,
    level: u32,
    arena: &mut u32,
) -> i32
    ensures done { result ≡ pos 0 → Goes place.old.held.seat place.new.held.seat (λ p q. Called p (Open slots reserved level) (Opened arena.new) q) }
    ensures refused { IsRefused result → Goes place.old.held.seat place.new.held.seat (λ p q. (fault : Fault) × (result ≡ code_of fault) × Called p (Open slots reserved level) (Refused fault) q) }
    ensures told { Tells result (Open slots reserved level) place.old.held.seat place.new.held.seat }
    ensures unwritten { result ≢ pos 0 → arena.new ≡ arena.old }
{
    let Some(level) = Level::new(level) else {
        return BAD_NUMBER;
    };
    let answer = ask(alloc, place, Cmd::Open(slots, reserved, level));
    match &answer {
        Ok(Reply::Opened(opened)) => {
            *arena = opened.get();
            OK
        }
        Ok(reply) => of_refusal(reply),
        Err(code) => *code,
    }
}

/// The arena goes, where no seat is placed at it.
#[unsafe(no_mangle)]
pub extern "C" fn market_raw_arena_close(alloc: Global, place: &mut Place, arena: u32) -> i32
    ensures done { result ≡ pos 0 → Goes place.old.held.seat place.new.held.seat (λ p q. Called p (Close arena) Closed q) }
    ensures refused { IsRefused result → Goes place.old.held.seat place.new.held.seat (λ p q. (fault : Fault) × (result ≡ code_of fault) × Called p (Close arena) (Refused fault) q) }
    ensures told { Tells result (Close arena) place.old.held.seat place.new.held.seat }
{
    let answer = ask(alloc, place, Cmd::Close(ArenaId::new(arena)));
    match &answer {
        Ok(Reply::Closed) => OK,
        Ok(reply) => of_refusal(reply),
        Err(code) => *code,
    }
}

/// The arena goes first in this level, also where that is its own. A level that is not 1 to 8 is `BAD_NUMBER`, and nothing was asked.
#[unsafe(no_mangle)]
pub extern "C" fn market_raw_priority(
    alloc: Global,
    place: &mut Place,
    arena: u32,
    level: u32,
) -> i32
    ensures done { result ≡ pos 0 → Goes place.old.held.seat place.new.held.seat (λ p q. Called p (Priority arena level) Moved q) }
    ensures refused { IsRefused result → Goes place.old.held.seat place.new.held.seat (λ p q. (fault : Fault) × (result ≡ code_of fault) × Called p (Priority arena level) (Refused fault) q) }
    ensures told { Tells result (Priority arena level) place.old.held.seat place.new.held.seat }
{
    let Some(level) = Level::new(level) else {
        return BAD_NUMBER;
    };
    let answer = ask(alloc, place, Cmd::Priority(ArenaId::new(arena), level));
    match &answer {
        Ok(Reply::Moved) => OK,
        Ok(reply) => of_refusal(reply),
        Err(code) => *code,
    }
}

/// The arena gets other slots and reserved slots, at its place. What it then asks for is written.
#[unsafe(no_mangle)]
pub extern "C" fn market_raw_resize(
    alloc: Global,
    place: &mut Place,
    arena: u32,
    slots: u32,
    reserved: u32,
    request: &mut u32,
) -> i32
    ensures done { result ≡ pos 0 → Goes place.old.held.seat place.new.held.seat (λ p q. Called p (Resize arena slots reserved) (Resized request.new) q) }
    ensures refused { IsRefused result → Goes place.old.held.seat place.new.held.seat (λ p q. (fault : Fault) × (result ≡ code_of fault) × Called p (Resize arena slots reserved) (Refused fault) q) }
    ensures told { Tells result (Resize arena slots reserved) place.old.held.seat place.new.held.seat }
    ensures unwritten { result ≢ pos 0 → request.new ≡ request.old }
{
    let answer = ask(
        alloc,
        place,
        Cmd::Resize(ArenaId::new(arena), slots, reserved),
    );
    match &answer {
        Ok(Reply::Resized(now)) => {
            *request = *now;
            OK
        }
        Ok(reply) => of_refusal(reply),
        Err(code) => *code,
    }
}

/// The arena asks for so many workers more, and has so much enqueued work more; either may be below 0. What it then asks for is
/// written.
#[unsafe(no_mangle)]
pub extern "C" fn market_raw_request(
    alloc: Global,
    place: &mut Place,
    arena: u32,
    wanted: i32,
    mandatory: i32,
    request: &mut u32,
) -> i32
    ensures done { result ≡ pos 0 → Goes place.old.held.seat place.new.held.seat (λ p q. Called p (Request arena wanted mandatory) (Requested request.new) q) }
    ensures refused { IsRefused result → Goes place.old.held.seat place.new.held.seat (λ p q. (fault : Fault) × (result ≡ code_of fault) × Called p (Request arena wanted mandatory) (Refused fault) q) }
    ensures told { Tells result (Request arena wanted mandatory) place.old.held.seat place.new.held.seat }
    ensures unwritten { result ≢ pos 0 → request.new ≡ request.old }
{
    let answer = ask(
        alloc,
        place,
        Cmd::Request(ArenaId::new(arena), wanted, mandatory),
    );
    match &answer {
        Ok(Reply::Requested(now)) => {
            *request = *now;
            OK
        }
        Ok(reply) => of_refusal(reply),
        Err(code) => *code,
    }
}

/// A new limit on parallelism, of this value. The number of the control is written.
#[unsafe(no_mangle)]
pub extern "C" fn market_raw_control(
    alloc: Global,
    place: &mut Place,
    value: u32,
    control: &mut u32,
) -> i32
    ensures done { result ≡ pos 0 → Goes place.old.held.seat place.new.held.seat (λ p q. Called p (Control value) (Controlled control.new) q) }
    ensures refused { IsRefused result → Goes place.old.held.seat place.new.held.seat (λ p q. (fault : Fault) × (result ≡ code_of fault) × Called p (Control value) (Refused fault) q) }
    ensures told { Tells result (Control value) place.old.held.seat place.new.held.seat }
    ensures unwritten { result ≢ pos 0 → control.new ≡ control.old }
{
    let answer = ask(alloc, place, Cmd::Control(value));
    match &answer {
        Ok(Reply::Controlled(number)) => {
            *control = number.get();
            OK
        }
        Ok(reply) => of_refusal(reply),
        Err(code) => *code,
    }
}

/// The control goes.
#[unsafe(no_mangle)]
pub extern "C" fn market_raw_uncontrol(alloc: Global, place: &mut Place, control: u32) -> i32
    ensures done { result ≡ pos 0 → Goes place.old.held.seat place.new.held.seat (λ p q. Called p (Uncontrol control) Uncontrolled q) }
    ensures refused { IsRefused result → Goes place.old.held.seat place.new.held.seat (λ p q. (fault : Fault) × (result ≡ code_of fault) × Called p (Uncontrol control) (Refused fault) q) }
    ensures told { Tells result (Uncontrol control) place.old.held.seat place.new.held.seat }
{
    let answer = ask(alloc, place, Cmd::Uncontrol(ControlId::new(control)));
    match &answer {
        Ok(Reply::Uncontrolled) => OK,
        Ok(reply) => of_refusal(reply),
        Err(code) => *code,
    }
}
