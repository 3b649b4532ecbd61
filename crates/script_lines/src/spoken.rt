//! A line of a script once it was read: its lane, and what it asks for or why it is refused.

ghost use Rattle.std.specs.Prelude.{◌≡◌, ◌≤◌, true};
ghost use Rattle.script_lines.specs.Limits.{fits_what};

use crate::line::Line;
use ledger_bytes::Refusal;

/// A line as it was read.
#[derive(Debug, Drop)]
pub struct Spoken {
    /// The lane that the line belongs to, 0 to 7.
    pub lane: u8,
    /// What it asks for, or why it is refused: `BadVerb`, `BadField` or `BadLane`.
    pub what: Result<Line, Refusal>,
    ghost in_range: { lane ≤ 7 },
    ghost fits: { fits_what what ≡ true },
}
