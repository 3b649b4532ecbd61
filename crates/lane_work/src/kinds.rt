//! What goes to the workers and comes back: a line with its lane, and what was made of it.

ghost use Rattle.script_lines.specs.Grammar.{spoken_line};
ghost use Rattle.std.specs.Prelude.{◌≡◌, ◌≤◌};

use intake_queue::Piece;
use ledger_book::Prepared;
use ledger_bytes::{Bytes, NoMemory};
use script_lines::lane_of_line;
use std::snapshot::Snapshot;

/// A line with the lane that it belongs to.
#[derive(Drop)]
pub struct LaneLine {
    pub lane: u8,
    pub line: Bytes,
    ghost low: { lane ≤ 7 },
    ghost is_lane: { lane ≡ (spoken_line line).0 },
}

impl LaneLine {
    pub fn of(line: Bytes) -> Self
        ensures { result.line ≡ line }
    {
        let lane = lane_of_line(line.as_slice());
        LaneLine { lane, line }
    }
}

/// What a worker made of a line: its item, or want of memory in its place.
#[derive(Drop)]
pub struct Made {
    pub lane: u8,
    pub index: u64,
    /// The line itself, for the proofs alone.
    pub line: Snapshot<Bytes>,
    pub item: Result<Prepared, NoMemory>,
}

impl Piece for Made {
    ghost lane_of = { λ m. m.lane };

    ghost index_of = { λ m. m.index };

    fn lane(&self) -> u8 {
        self.lane
    }

    fn index(&self) -> u64 {
        self.index
    }
}
