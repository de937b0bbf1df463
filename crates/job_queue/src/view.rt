//! What the passes of a queue know. Of these types only a job on its way is ever made.
ghost use Rattle.std.specs.Prelude.{◌≡◌};

use std::collections::LinkedList;

/// A job on its way: the number of the feeder that stored it, and its place, from 0 on, among the jobs which that feeder stored.
#[derive(Drop)]
pub struct Fed<J> {
    pub feeder: u64,
    pub place: u64,
    pub job: J,
}

impl<J> Fed<J> {
    pub(crate) fn into_job(self) -> J
        ensures { result ≡ self.job }
    {
        let Fed {
            feeder: _,
            place: _,
            job,
        } = self;
        job
    }
}

/// What one pass did: the jobs that it stored, those that it took, and how often it found none. Each pass knows how many feeders
/// and takers the queue has.
pub struct Known<J> {
    pub feeders: u64,
    pub takers: u64,
    pub number: u64,
    pub stored: LinkedList<J>,
    pub taken: LinkedList<Fed<J>>,
    pub empties: u64,
}

/// What a pass of the kit's queue knows.
pub enum View<J> {
    /// It makes the passes of so many feeders and so many takers, and has made so many of them.
    Opener(u64, u64, u64),
    /// It stands for these passes.
    Records(LinkedList<Known<J>>),
}
