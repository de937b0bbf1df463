//! A plan, read line by line.
ghost use Rattle.std.specs.Prelude.{◌≡◌, ◌+◌, ◌<◌, ℕ, true, false, IfOk, OnOk, OnErr};
ghost use Rattle.std.specs.List.{count_by};
ghost use Rattle.line_engine.specs.Lines.{is_lf};
ghost use Rattle.drive_plan.specs.Format.{MemoryAside, after_line, after_text, begun, gone_on, is_passed_over, plan_of, stopped, told};

use crate::line::{PlanLine, read_job_line, read_plan_line};
use crate::plan::Plan;
use line_engine::{LONGEST_INPUT, LONGEST_LINE, LineForm, LineTaker, take_text};
use std::alloc::{AllocError, Global};
use std::mem;

/// Why a text is no plan.
#[derive(Clone, Copy, Debug, PartialEq, Eq)]
pub enum PlanFault {
    /// G01: this line is the first that doesn't fit, or where the text ends too early the line after the last that an LF
    /// ends. The first line is line 1.
    BadPlan(u64),
    /// There was no memory for the plan.
    Memory,
}

/// How far a plan is read.
#[derive(Drop)]
pub(crate) enum Progress {
    /// No `market` line was read.
    Unopened,
    /// The plan of the lines read.
    Planned(Plan),
    /// The number of the first line that does not fit.
    Bad(u64),
}

/// The line is empty, or begins with `#`.
fn is_passed_over(line: &[u8]) -> bool
    ensures { result ≡ is_passed_over line.now }
{
    line.is_empty() || line[0] == b'#'
}

/// What the first line that is not passed over begins.
fn begin(alloc: Global, line: &[u8], number: u64) -> Progress
    ensures { result ≡ begun line.now number }
{
    match read_plan_line(line, 3, 0) {
        Some(PlanLine::Market(base, hard, levels)) => {
            Progress::Planned(Plan::new(alloc, base, hard, levels))
        }
        _ => Progress::Bad(number),
    }
}

/// The plan with one line more.
fn go_on(plan: Plan, line: &[u8], number: u64) -> Result<Progress, AllocError>
    ensures { IfOk result (λ progress. progress ≡ gone_on plan line.now number) }
{
    let arenas = plan.arenas().len() as u32;
    let Some(line) = read_plan_line(line, plan.levels(), arenas) else {
        return Ok(Progress::Bad(number));
    };
    match plan.with_line(line)? {
        Some(plan) => Ok(Progress::Planned(plan)),
        None => Ok(Progress::Bad(number)),
    }
}

/// How many lines an LF ends.
fn ended_lines(text: &[u8]) -> usize
    ensures { result ≡ count_by is_lf text.now }
{
    text.iter().filter(|byte| **byte == b'\n').count()
}

/// The text ends too early: told is the line after the last that an LF ends. Only such a text is passed over for it once more.
fn too_early(text: &[u8]) -> PlanFault
    ensures { result ≡ PlanFault.BadPlan (count_by is_lf text.now + 1) }
{
    PlanFault::BadPlan(ended_lines(text) as u64 + 1)
}

impl Progress {
    /// After one line more that is not passed over, which has this number.
    fn after_text(self, alloc: Global, line: &[u8], number: u64) -> Result<Progress, AllocError>
        ensures { IfOk result (λ progress. progress ≡ after_text self line.now number) }
    {
        match self {
            Progress::Unopened => Ok(begin(alloc, line, number)),
            Progress::Planned(plan) => go_on(plan, line, number),
            Progress::Bad(first) => Ok(Progress::Bad(first)),
        }
    }

    /// After one line more that is not too long, which has this number.
    fn after_line(self, alloc: Global, line: &[u8], number: u64) -> Result<Progress, AllocError>
        ensures { IfOk result (λ progress. progress ≡ after_line self (record { bytes = line.now; form = LineForm.Whole }) number) }
    {
        if is_passed_over(line) {
            return Ok(self);
        }
        self.after_text(alloc, line, number)
    }

    /// After one line more that is not too long, where it is a job that the plan of the lines before may have: whether it is. The
    /// plan stays where it is. Else nothing is changed.
    fn take_job(&mut self, line: &[u8]) -> Result<bool, AllocError>
        ensures taken { IfOk result (λ taken. taken ≡ true → (number : ℕ) → self.new ≡ after_line self.old (record { bytes = line.now; form = LineForm.Whole }) number) }
        ensures left { IfOk result (λ taken. taken ≡ false → self.new ≡ self.old) }
        ensures unchanged { OnErr result (self.new ≡ self.old) }
    {
        let Progress::Planned(plan) = self else {
            return Ok(false);
        };
        let arenas = plan.arenas().len() as u32;
        let Some(job) = read_job_line(line, arenas) else {
            return Ok(false);
        };
        plan.push_job(job)
    }

    /// Takes a line that is too long, which has this number: it fits only where it is passed over.
    fn take_long(&mut self, line: &[u8], number: u64)
        ensures { self.new ≡ after_line self.old (record { bytes = line.now; form = LineForm.TooLong }) number }
    {
        if !is_passed_over(line) {
            self.stop(number);
        }
    }

    /// Takes a line that does not fit, which has this number.
    fn stop(&mut self, number: u64)
        ensures { self.new ≡ stopped self.old number }
    {
        if !matches!(self, Progress::Bad(_)) {
            *self = Progress::Bad(number);
        }
    }

    /// The plan of this text, if no line follows.
    fn into_plan(self, text: &[u8]) -> Result<Plan, PlanFault>
        ensures { result ≡ told self (count_by is_lf text.now + 1) }
    {
        match self {
            Progress::Unopened => Err(too_early(text)),
            Progress::Planned(plan) => {
                if plan.arenas().is_empty() {
                    return Err(too_early(text));
                }
                Ok(plan)
            }
            Progress::Bad(line) => Err(PlanFault::BadPlan(line)),
        }
    }
}

/// Takes the lines of a plan, and answers none of them.
#[derive(Drop)]
struct Reader {
    alloc: Global,
    lines: u64,
    progress: Progress,
}

impl Reader {
    /// Before the first line.
    fn new(alloc: Global) -> Self
        ensures lines { result.lines ≡ 0 }
        ensures progress { result.progress ≡ Progress.Unopened }
    {
        Reader {
            alloc,
            lines: 0,
            progress: Progress::Unopened,
        }
    }

    /// Takes a line that `take_job` leaves, as the market's or an arena's. It has the number of the lines so far.
    // Apart, since each line would else make room for all that is needed here.
    #[cold]
    #[inline(never)]
    fn take_other(&mut self, line: &[u8]) -> Result<(), AllocError>
        ensures progress { OnOk result (self.new.progress ≡ after_line self.old.progress (record { bytes = line.now; form = LineForm.Whole }) self.old.lines) }
        ensures lines { OnOk result (self.new.lines ≡ self.old.lines) }
    {
        let progress = mem::replace(&mut self.progress, Progress::Unopened);
        self.progress = progress.after_line(self.alloc, line, self.lines)?;
        Ok(())
    }
}

impl LineTaker for Reader {
    ghost use Rattle.std.specs.Prelude.{⊤};
    ghost use Rattle.std.proofs.Common.{le_refl};
    ghost use Rattle.line_engine.specs.Input.{longest_input};
    ghost use Rattle.drive_plan.specs.Format.{Reached, longest_line, plan_rule};

    type Fault = AllocError;

    const LONGEST: u32 = LONGEST_LINE;

    ghost LONGEST = { longest_line };

    ghost State = { Reached };

    ghost state = { λ r. record { lines = r.lines; progress = r.progress } };

    ghost rule = { plan_rule };

    ghost stops = { λ _ _ _. ⊤ };

    ghost count = { λ r. r.lines };

    ghost most_bytes = { λ _. longest_input };

    ghost grows = { λ _ _. le_refl longest_input };

    fn most_bytes(&self) -> u64 {
        LONGEST_INPUT
    }

    fn take_line(
        &mut self,
        line: &[u8],
        form: LineForm,
        _replies: &mut Vec<u8>,
    ) -> Result<(), AllocError> {
        self.lines += 1;
        if form == LineForm::TooLong {
            self.progress.take_long(line, self.lines);
            return Ok(());
        }
        if self.progress.take_job(line)? {
            return Ok(());
        }
        self.take_other(line)
    }
}

/// The plan that a text is, or the number of its first line that doesn't fit; where the text ends too early, without its
/// `market` line or an arena, that of the line after its last LF. It takes the memory of the plan and of an unfinished
/// line; out of memory is `Memory`. The text may have any length.
///
/// Empty lines and lines that begin with `#` are passed over, and counted. The others are in this order: one line
/// `market BASE HARD` or `market BASE HARD LEVELS`; 1 to 64 lines `arena SLOTS RESERVED LEVEL WANTED MANDATORY`; at most
/// 256 lines `control VALUE`; at most 65,536 lines `job ARENA sum N` or `job ARENA digits N`. Other lines have at most 256
/// bytes. The last line needs no LF.
pub fn read_plan(alloc: Global, text: &[u8]) -> Result<Plan, PlanFault>
    ensures exact { MemoryAside (plan_of text.now) result }
{
    let Ok(reader) = take_text(alloc, Reader::new(alloc), text) else {
        return Err(PlanFault::Memory);
    };
    reader.progress.into_plan(text)
}
