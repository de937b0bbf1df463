//! How far the work is, reported on standard error while it goes on.
ghost use Rattle.std.specs.Prelude.{◌≡◌, ◌+◌, ◌-◌, ◌^◌, min, length};
ghost use Rattle.memchr.specs.Find.{is_byte, places};

use byte_devices::{DeviceFault, Source};
use memchr::memchr_iter;
use std::io;
use std::rt::Clock;
use std::sync::atomic::{AtomicU64, Ordering};
use std::time::Instant;
use worker_main::Gate;

/// How long a span is, in milliseconds.
const SPAN: u128 = 250;

/// The last span in which nothing is reported: none is within a second.
const QUIET: u64 = 3;

/// When something is reported: from a second after the start on, once a span at most.
#[derive(Drop)]
struct Pace<'a, R> {
    rt: &'a R,
    start: Instant,
    /// The last span that was reported, or had nothing to report.
    told: AtomicU64,
}

impl<'a, R: Clock> Pace<'a, R> {
    fn new(rt: &'a R) -> io::Result<Self> {
        Ok(Pace {
            rt,
            start: Instant::now(rt)?,
            told: AtomicU64::new(QUIET),
        })
    }

    /// How many milliseconds have gone by, where this span is the caller's to report, and is reported now.
    fn turn(&self) -> Option<u128> {
        let gone = self.start.elapsed(self.rt).ok()?.as_millis();
        let span = u64::try_from(gone / SPAN).ok()?;
        let told = self.told.load(Ordering::SeqCst);
        let taken = span > told
            && self
                .told
                .compare_exchange(told, span, Ordering::SeqCst, Ordering::SeqCst)
                .is_ok();
        if taken { Some(gone) } else { None }
    }
}

/// A gate through which each job goes at once, and that tells how many are done, when one is.
#[derive(Drop)]
pub struct ProgressGate<'a, R> {
    pace: Pace<'a, R>,
    done: AtomicU64,
}

impl<'a, R: Clock + Eprint> ProgressGate<'a, R> {
    /// Before the first job.
    pub fn new(rt: &'a R) -> io::Result<Self> {
        Ok(ProgressGate {
            pace: Pace::new(rt)?,
            done: AtomicU64::new(0),
        })
    }
}

impl<'a, R: Clock + Eprint> Gate for ProgressGate<'a, R> {
    fn before(&self, number: u32, earlier: u64) -> bool {
        let _ = earlier;
        let _ = number;
        true
    }

    fn after(&self, number: u32) {
        let _ = number;
        let done = self.done.fetch_add(1, Ordering::SeqCst).saturating_add(1);
        if self.pace.turn().is_some() {
            // Where standard error takes nothing, the jobs go on.
            let _ = eprintln!(self.pace.rt; "drive: {done} jobs done");
        }
    }
}

/// How many line ends there are. It goes from one to the next: in a journal that takes an eighth of the time of a look at each byte.
fn line_ends(piece: &[u8]) -> usize
    ensures { result ≡ length (places (is_byte 10) piece.now) }
{
    let mut ends = 0;
    for _ in memchr_iter(b'\n', piece) {
        ends += 1;
    }
    ends
}

/// Counts what a command has read, and tells it.
#[derive(Drop)]
pub struct Meter<'a, R> {
    pace: Pace<'a, R>,
    command: &'static str,
    lines: u64,
    bytes: u64,
}

impl<'a, R: Clock + Eprint> Meter<'a, R> {
    /// Before the first byte. Without a clock there is none.
    pub fn new(rt: &'a R, command: &'static str) -> Option<Self> {
        let pace = Pace::new(rt).ok()?;
        Some(Meter {
            pace,
            command,
            lines: 0,
            bytes: 0,
        })
    }

    /// Counts a piece that was read.
    fn count(&mut self, piece: &[u8])
        ensures bytes { self.new.bytes ≡ min (self.old.bytes + length piece.now) (2 ^ 64 - 1) }
        ensures lines { self.new.lines ≡ min (self.old.lines + length (places (is_byte 10) piece.now)) (2 ^ 64 - 1) }
    {
        self.bytes = self.bytes.saturating_add(piece.len() as u64);
        self.lines = self.lines.saturating_add(line_ends(piece) as u64);
    }

    /// Tells what was read so far, where it is time to.
    fn tell(&self) {
        let Some(gone) = self.pace.turn() else {
            return;
        };
        let command = self.command;
        let lines = self.lines;
        let bytes = self.bytes;
        let rate = u128::from(lines) * 1000 / gone.max(1);
        // Where standard error takes nothing, the reading goes on.
        let _ = eprintln!(self.pace.rt;
            "{command}: {lines} lines, {bytes} bytes, {rate} lines a second"
        );
    }
}

/// A source of which a meter, where there is one, tells how much was read.
#[derive(Drop)]
pub struct MeteredSource<'a, S, R> {
    source: S,
    meter: Option<Meter<'a, R>>,
}

impl<'a, S: Source, R: Clock + Eprint> MeteredSource<'a, S, R> {
    /// The same source, with this meter.
    pub fn new(source: S, meter: Option<Meter<'a, R>>) -> Self
        ensures left { ⟦<MeteredSource<'a, S, R> as Source>⟧.left result ≡ S.left source }
        ensures failed { ⟦<MeteredSource<'a, S, R> as Source>⟧.failed result ≡ S.failed source }
        ensures ended { ⟦<MeteredSource<'a, S, R> as Source>⟧.ended result ≡ S.ended source }
    {
        MeteredSource { source, meter }
    }
}

impl<'a, S: Source, R: Clock + Eprint> Source for MeteredSource<'a, S, R> {
    ghost left = { λ s. S.left s.source };

    ghost failed = { λ s. S.failed s.source };

    ghost ended = { λ s. S.ended s.source };

    fn read(&mut self, buffer: &mut [u8]) -> Result<usize, DeviceFault> {
        let count = self.source.read(buffer)?;
        if let Some(meter) = &mut self.meter {
            meter.count(&buffer[..count]);
            meter.tell();
        }
        Ok(count)
    }

    fn failed(&self) -> bool {
        self.source.failed()
    }

    fn ended(&self) -> bool {
        self.source.ended()
    }
}
