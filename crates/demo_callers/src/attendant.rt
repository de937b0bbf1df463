//! Who is at an office that lasts.
use crate::guest::Guest;
use crate::writer::Writer;
use byte_devices::Sink;
use market_lock::{Office, Pass, Placed};
use office_crew::{Caller, Task};
use std::alloc::Global;
use std::sync::Wait;

/// A caller of an office that lasts.
#[derive(Drop)]
pub(crate) enum Attendant<'a, O> {
    /// It calls as it likes.
    Guest(Guest<'a>),
    /// It writes down what the guests do.
    Writer(Writer<'a, O>),
}

impl<O> Attendant<'_, O> {
    /// The kilobytes that it saw at a quarter of the time.
    pub(crate) fn quarter(&self) -> Option<u64> {
        match self {
            Attendant::Guest(guest) => guest.quarter,
            Attendant::Writer(_) => None,
        }
    }

    /// And at its end.
    pub(crate) fn end(&self) -> Option<u64> {
        match self {
            Attendant::Guest(guest) => guest.end,
            Attendant::Writer(_) => None,
        }
    }
}

impl<O: Sink> Task for Attendant<'_, O> {
    fn work<R: Wait>(
        &mut self,
        rt: &R,
        alloc: Global,
        office: &Office,
        caller: Caller<Pass, Placed>,
    ) -> Caller<Pass, Placed> {
        match self {
            Attendant::Guest(guest) => guest.work(rt, alloc, office, caller),
            Attendant::Writer(writer) => writer.work(rt, alloc, office, caller),
        }
    }

    fn lets_others_work(&self) -> bool {
        true
    }
}
