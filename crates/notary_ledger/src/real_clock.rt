//! The system's clock, by which a kept notary tells the time.

ghost use Rattle.std.specs.Prelude.{false};

use crate::Clock;
use std::rt::Clock as SystemClock;
use std::time::{SystemTime, UNIX_EPOCH};

/// The clock of the system. It answers 0 where the system doesn't tell the time, and where that lies before 1970.
/// It tells nothing of its moments before it is asked.
#[derive(Drop)]
pub struct RealClock<R: SystemClock + Drop> {
    system: R,
}

impl<R: SystemClock + Drop> RealClock<R> {
    /// The clock of this system.
    pub fn new(system: R) -> RealClock<R> {
        RealClock { system }
    }
}

impl<R: SystemClock + Drop> Clock for RealClock<R> {
    ghost tells = { false };

    ghost moment = { λ _ _. 0 };

    ghost moments = { λ _ _. 0 };

    fn now_ms(&mut self) -> u64 {
        milliseconds(&self.system).unwrap_or(0)
    }
}

// The milliseconds since the beginning of 1970, where the system tells them.
fn milliseconds<R: SystemClock>(system: &R) -> Option<u64> {
    let now = SystemTime::now(system).ok()?;
    let passed = now.duration_since(UNIX_EPOCH).ok()?;
    u64::try_from(passed.as_millis()).ok()
}
