//! Tasks, and their answers.
ghost use Rattle.std.specs.Prelude.{◌≡◌, ◌<◌, ◌+◌, ◌^◌};
ghost use Rattle.plan_jobs.specs.Values.{digits_sum, sum_to, value_of};

use market_types::ArenaId;

/// What a job has to find out.
#[derive(Clone, Copy, Debug, PartialEq, Eq)]
pub enum Task {
    /// The sum of the numbers from 1 to this one.
    Sum(u32),
    /// The sum of this number's decimal digits.
    Digits(u64),
}

/// A sum with one number more. It stays a call: the compiler would make a formula of all of them, and a job of a plan is to be the
/// work that its line says.
#[inline(never)]
fn add(sum: u64, number: u64) -> u64
    requires fits { sum + number < 2 ^ 64 }
    ensures { result ≡ sum + number }
{
    sum + number
}

/// The sum of the numbers from 1 to `last`.
fn sum_to(last: u32) -> u64
    ensures { result ≡ sum_to last }
{
    let mut sum = 0;
    for number in 0..last {
        sum = add(sum, u64::from(number) + 1);
    }
    sum
}

/// The sum of a number's decimal digits.
fn digits_sum(number: u64) -> u64
    ensures { result ≡ digits_sum number }
{
    let mut rest = number;
    let mut sum = 0;
    while rest >= 10 {
        sum += rest % 10;
        rest /= 10;
    }
    sum + rest
}

impl Task {
    /// The task's value. It takes a step for each number that is added up, or for each digit.
    pub fn run(self) -> u64
        ensures { result ≡ value_of self }
    {
        match self {
            Task::Sum(last) => sum_to(last),
            Task::Digits(number) => digits_sum(number),
        }
    }
}

/// A job of a plan, which workers of its arena may run. Its number is its place in the plan, from 1.
#[derive(Clone, Copy, Debug, PartialEq, Eq)]
pub struct PlannedJob {
    /// The arena whose workers run it.
    pub arena: ArenaId,
    /// What it has to find out.
    pub task: Task,
}

/// A job as a worker takes it: its number in the plan, from 1, and what it has to find out.
#[derive(Clone, Copy, Debug, PartialEq, Eq)]
pub struct Job {
    /// Its number in the plan, from 1.
    pub number: u32,
    /// What it has to find out.
    pub task: Task,
}

impl Job {
    /// Runs the job. The cost is that of its task's `run`.
    pub fn run(self) -> Done
        ensures number { result.number ≡ self.number }
        ensures task { result.task ≡ self.task }
    {
        Done {
            number: self.number,
            task: self.task,
            value: self.task.run(),
        }
    }
}

/// The answer to a job. Its value is its task's: no other can be made.
#[derive(Drop)]
pub struct Done {
    /// The job's number in the plan, from 1.
    pub number: u32,
    /// What was to be found out.
    pub task: Task,
    /// What was found out.
    pub value: u64,
    ghost kept: { value ≡ value_of task },
}
