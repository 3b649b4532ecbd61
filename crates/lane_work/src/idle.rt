//! How the taker waits while no item is there.

use std::sync::Wait;
use std::thread::{self, Parker};
use std::time::Duration;

// How often the taker lets others go first before it sleeps. Items of short lines come within that time.
const TURNS: u32 = 32;

// How many microseconds it sleeps then: shorter than a signature by chains takes to be judged, and long beside what waking costs.
const SLEEP_MICROS: u64 = 50;

/// The taker's waits since it got an item. A taker that only let others go first would take its share of the processors
/// from the workers.
#[derive(Drop)]
pub(crate) struct Idle {
    parker: Parker,
    turns: u32,
}

impl Idle {
    pub(crate) fn new() -> Self {
        Idle {
            parker: Parker::new(),
            turns: 0,
        }
    }

    /// Waits a little longer for an item.
    pub(crate) fn wait<R: Wait>(&mut self, rt: &R) {
        if self.turns < TURNS {
            self.turns += 1;
            thread::yield_now();
        } else {
            self.parker
                .park_timeout(rt, Duration::from_micros(SLEEP_MICROS));
        }
    }

    /// An item came.
    pub(crate) fn end(&mut self) {
        self.turns = 0;
    }
}
