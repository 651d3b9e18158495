//! How long something takes.

use anyhow::Result;
use std::rt::{Clock, CpuClock};
use std::time::{Duration, Instant};

/// What was found, and how long it took at best.
#[derive(Clone, Copy)]
pub(crate) struct Tally {
    /// A number of what was found, the same by whatever number of pieces it is done.
    pub(crate) found: u32,
    /// The least time from its beginning to its end, in microseconds.
    pub(crate) wall: u64,
    /// The least processor time of all threads together, in microseconds.
    pub(crate) processor: u64,
}

/// When something began.
#[derive(Drop)]
pub(crate) struct Beginning {
    used: Duration,
    start: Instant,
}

/// Microseconds.
fn micros(taken: Duration) -> u64 {
    taken
        .as_secs()
        .saturating_mul(1_000_000)
        .saturating_add(u64::from(taken.subsec_micros()))
}

impl Beginning {
    /// Now.
    pub(crate) fn now<R: Clock + CpuClock>(rt: &R) -> Result<Beginning> {
        Ok(Beginning {
            used: rt.process_cpu_time()?,
            start: Instant::now(rt)?,
        })
    }
}

impl Tally {
    /// Nothing was timed yet.
    pub(crate) fn new() -> Tally {
        Tally {
            found: 0,
            wall: u64::MAX,
            processor: u64::MAX,
        }
    }

    /// What began then found this, and ends now.
    pub(crate) fn add<R: Clock + CpuClock>(
        &mut self,
        rt: &R,
        beginning: Beginning,
        found: u32,
    ) -> Result<()> {
        let wall = micros(beginning.start.elapsed(rt)?);
        let processor = micros(rt.process_cpu_time()?.saturating_sub(beginning.used));
        self.found = found;
        self.wall = self.wall.min(wall);
        self.processor = self.processor.min(processor);
        Ok(())
    }
}
