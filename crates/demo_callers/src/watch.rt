//! How long it takes.
use std::io;
use std::rt::Clock;
use std::sync::atomic::{AtomicBool, Ordering};
use std::time::{Duration, Instant};

/// A clock that runs for so long, or until somebody stops it. Where it cannot be read, all of its time has gone by.
#[derive(Drop)]
pub(crate) struct Watch<'a, H> {
    clock: &'a H,
    start: Instant,
    length: Duration,
    stopped: AtomicBool,
}

impl<'a, H: Clock> Watch<'a, H> {
    /// From now on.
    pub(crate) fn new(clock: &'a H, length: Duration) -> io::Result<Self> {
        Ok(Watch {
            clock,
            start: Instant::now(clock)?,
            length,
            stopped: AtomicBool::new(false),
        })
    }

    /// How much of the time has gone by, and more where nobody looked in time.
    pub(crate) fn elapsed(&self) -> Duration {
        self.start.elapsed(self.clock).unwrap_or(Duration::MAX)
    }

    /// Whether a quarter of the time has gone by.
    pub(crate) fn is_past_quarter(&self) -> bool {
        self.elapsed() >= self.length / 4
    }

    /// Whether all of the time has gone by, or somebody has stopped the clock.
    pub(crate) fn is_over(&self) -> bool {
        self.stopped.load(Ordering::SeqCst) || self.elapsed() >= self.length
    }

    /// Nobody who looks goes on.
    pub(crate) fn stop(&self) {
        self.stopped.store(true, Ordering::SeqCst);
    }
}
