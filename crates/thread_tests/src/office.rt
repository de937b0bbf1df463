//! Tests of the office and of the queue that threads share, with one caller after the other and on real threads: what no clause says,
//! with values worked out by hand.
mod attempts;
mod crews;
mod demos;
mod endless;
mod exchanges;
mod offices;
mod queues;
mod scribes;
