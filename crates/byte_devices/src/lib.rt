//! Where bytes come from and where they go: a [`Source`] is read in pieces, a [`Sink`] is written in pieces, and each
//! says by its contract what it gave or took, also after a fault. [`put_all`] writes a whole text; a call that makes a text
//! and writes it fails with an [`OutFault`].
//!
//! [`ReadSource`] and [`WriteSink`] stand over std's readers and writers, [`TestSource`] and [`TestSink`] over memory:
//! these cut what they give and take into pieces of a chosen size, and fail where a test says.
#![tactic(auto)]

mod device;
mod out_fault;
mod std_device;
mod test_device;

pub use device::{DeviceFault, Sink, Source, WriteFault, put_all};
pub use out_fault::OutFault;
pub use std_device::{ReadSource, WriteSink};
pub use test_device::{Refusal, TestSink, TestSource};

#[cfg(test)]
mod asked_once;
