//! What is written of a plan that was driven.
ghost use Rattle.std.specs.Prelude.{◌≡◌, ◌++◌, IfOk, OnOk, decimal};
ghost use Rattle.market_prog.specs.DriveTexts.{answer_lines, fault_line, job_line, numbered_line};

use itoa::Buffer;
use market_drive::DriveFault;
use plan_jobs::Done;
use std::alloc::{AllocError, Global};

/// Puts a text and a number behind what stands in `out`.
// Always in its callers, where the text's length is known, so that no call copies it.
#[inline(always)]
fn push_part(out: &mut Vec<u8>, text: &[u8], number: u64) -> Result<(), AllocError>
    ensures { OnOk result (out.new.items ≡ out.old.items ++ (text.now ++ decimal number)) }
{
    out.extend_from_slice(text)?;
    out.extend_from_slice(Buffer::new().format(number).as_bytes())
}

/// The line of a job and its value.
fn push_job_line(out: &mut Vec<u8>, done: &Done) -> Result<(), AllocError>
    ensures { OnOk result (out.new.items ≡ out.old.items ++ job_line done.now.number done.now.value) }
{
    push_part(out, b"job ", u64::from(done.number))?;
    push_part(out, b" ", done.value)?;
    out.push(b'\n')?;
    Ok(())
}

/// A line for each of the answers.
pub(crate) fn answer_text(alloc: Global, answers: &[Done]) -> Result<Vec<u8>, AllocError>
    ensures { IfOk result (λ text. text.items ≡ answer_lines answers.now) }
{
    let mut text = Vec::new(alloc);
    for done in answers {
        push_job_line(&mut text, done)?;
    }
    Ok(text)
}

/// A line of a text and a number.
fn numbered_line(alloc: Global, text: &[u8], number: u64) -> Result<Vec<u8>, AllocError>
    ensures { IfOk result (λ line. line.items ≡ numbered_line text.now number) }
{
    let mut line = Vec::new(alloc);
    push_part(&mut line, text, number)?;
    line.push(b'\n')?;
    Ok(line)
}

/// The line of a fault. Where memory ran out it is empty.
pub(crate) fn fault_text(alloc: Global, fault: DriveFault) -> Result<Vec<u8>, AllocError>
    ensures { IfOk result (λ text. text.items ≡ fault_line fault) }
{
    match fault {
        DriveFault::BadPlan(line) => numbered_line(alloc, b"G01 bad plan line ", line),
        DriveFault::Unservable(arena) => {
            numbered_line(alloc, b"G02 unservable arena ", u64::from(arena.get()))
        }
        DriveFault::Unfinished => Vec::from_slice(alloc, b"G03 unfinished\n"),
        DriveFault::Doubled(job) => numbered_line(alloc, b"G04 doubled job ", u64::from(job)),
        DriveFault::Missing(job) => numbered_line(alloc, b"G05 missing job ", u64::from(job)),
        DriveFault::Memory => Ok(Vec::new(alloc)),
    }
}
