//! Calls through an office.
ghost use Rattle.std.specs.Prelude.{◌≡◌, ◌<◌, vec_len, IfOk};

use crate::crowd::Crowd;
use crate::fault::BenchFault;
use crate::repeater::{Repeater, Turn};
use edit_history::Keeping;
use market_types::LastNumber;
use office_crew::{MeetingTerms, meet};
use std::alloc::{AllocError, Global};
use std::rt::Clock;
use std::sync::Wait;
use std::thread::Threads;

/// 64 workers may be active.
const TERMS: MeetingTerms = MeetingTerms {
    base: 65,
    hard: 65_535,
    places: 1_048_576,
    levels: 3,
    last: LastNumber::USUAL,
    keeping: Keeping::Everything,
};

/// Entries that are to be cut out are, each time that all threads together have called some so often.
const CALLS_A_CUT: u32 = 100_000;

/// What turn is taken again and again, by how many threads, and with how many arenas.
#[derive(Clone, Copy)]
pub struct Scene {
    pub turn: Turn,
    pub crowd: Crowd,
    pub arenas: u32,
}

/// A repeater for each thread.
fn repeaters(alloc: Global, scene: Scene, threads: u8) -> Result<Vec<Repeater>, AllocError>
    requires threads { 0 < threads }
    ensures each { IfOk result (λ repeaters. vec_len repeaters ≡ threads) }
{
    let mut repeaters = Vec::with_capacity(alloc, usize::from(threads))?;
    for seat in 0..threads {
        repeaters.push_reserved(Repeater {
            turn: scene.turn,
            times: scene.turn.times() / u32::from(threads),
            opens: seat == 0,
            arenas: scene.arenas,
            cuts: match (scene.turn, seat) {
                (Turn::RequestInParts, 0) => CALLS_A_CUT.checked_div(u32::from(threads)),
                _ => None,
            },
        });
    }
    Ok(repeaters)
}

impl Scene {
    /// From the opening of the office to its close; the calls that it answered.
    pub fn round<R: Clock + Threads + Wait + Sync>(
        self,
        rt: &R,
        alloc: Global,
    ) -> Result<u64, BenchFault> {
        let repeaters = repeaters(alloc, self, self.crowd.count())?;
        let nobody = Vec::<Repeater>::new(alloc);
        let terms = MeetingTerms {
            keeping: self.turn.keeping(),
            ..TERMS
        };
        let meeting = meet(rt, alloc, terms, nobody, repeaters).map_err(|unmet| unmet.fault)?;
        Ok(meeting.closed.calls)
    }

    /// How many turns a round has.
    pub fn turns(self) -> u64 {
        u64::from(self.turn.times())
    }
}
