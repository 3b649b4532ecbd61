//! The lines that were read and not yet taken, with the numbers that they have in their lanes.

ghost use Rattle.std.specs.Prelude.{◌≡◌, ◌<◌, ◌+◌, ◌^◌, ◌==◌, ◌++◌, ◌∷◌, [], ℕ, length, IsTrue, IfSome, IfNone, OnOk, OnSome, if◌then◌else◌, slice_index};
ghost use Rattle.script_lines.specs.Grammar.{spoken_line};
ghost use Rattle.lane_work.specs.declared.kinds.LaneLine.{LaneLine};

use lane_work::LaneLine;
use ledger_bytes::{Bytes, NoMemory};
use std::alloc::Global;
use std::mem;

/// The lines of a piece, which weren't taken so far, and the numbers of the lanes' lines.
#[derive(Drop)]
pub(crate) struct Piece {
    alloc: Global,
    lines: Vec<LaneLine>,
    // Whether these lines are of several lanes.
    mixed: bool,
    // The lane of all lines of the piece before, where they were of one.
    before: Option<u8>,
    // Each lane's number of its first line in the piece, and of its next line.
    first: [u64; 8],
    next: [u64; 8],
}

impl Piece {
    pub(crate) fn new(alloc: Global) -> Self
        ensures lines { result.lines.items ≡ [] }
        ensures first { (k : ℕ) → k < 8 → slice_index result.first k ≡ 1 }
        ensures next { (k : ℕ) → k < 8 → slice_index result.next k ≡ 1 }
    {
        Piece {
            alloc,
            lines: Vec::new(alloc),
            mixed: false,
            before: None,
            first: [1; 8],
            next: [1; 8],
        }
    }

    pub(crate) fn add(&mut self, line: Bytes) -> Result<(), NoMemory>
        requires { (k : ℕ) → k < 8 → slice_index self.old.next k + 1 < 2 ^ 64 }
        ensures lines { OnOk result ((l : LaneLine) × (l.line ≡ line)
            × (self.new.lines.items ≡ self.old.lines.items ++ l ∷ [])) }
        ensures first { self.new.first ≡ self.old.first }
        ensures next { OnOk result ((k : ℕ) → k < 8 → slice_index self.new.next k
            ≡ (if (spoken_line line).0 == k then slice_index self.old.next k + 1
            else slice_index self.old.next k)) }
    {
        let said = LaneLine::of(line);
        let lane = usize::from(said.lane);
        let mixed = self.is_mixed_with(said.lane);
        let Ok(()) = self.lines.push(said) else {
            return Err(NoMemory);
        };
        self.mixed = mixed;
        self.next[lane] += 1;
        Ok(())
    }

    // Whether the lines and one of this lane are of several lanes.
    fn is_mixed_with(&self, lane: u8) -> bool {
        match self.lines.last() {
            Some(last) => self.mixed || last.lane != lane,
            None => false,
        }
    }

    /// Whether the lines are of several lanes.
    pub(crate) fn is_mixed(&self) -> bool {
        self.mixed
    }

    // Whether this is one line, of the lane that alone brought lines before: there is no other to be prepared beside.
    fn is_alone(&self) -> bool
        ensures one { IsTrue result → length self.now.lines.items ≡ 1 }
    {
        match (self.before, self.lines.as_slice()) {
            (Some(lane), [line]) => line.lane == lane,
            _ => false,
        }
    }

    // The lane of all lines, where they are of one.
    fn only_lane(&self) -> Option<u8> {
        if self.mixed {
            return None;
        }
        self.lines.last().map(|last| last.lane)
    }

    /// The line with its number, where it is alone. The next piece then begins; it keeps the room for a line.
    pub(crate) fn take_alone(&mut self) -> Option<(LaneLine, u64)>
        ensures line { IfSome result (λ taken. self.old.lines.items ≡ taken.0 ∷ []) }
        ensures number { IfSome result (λ taken. slice_index self.old.first taken.0.lane ≡ taken.1) }
        ensures none { OnSome result (self.new.lines.items ≡ []) }
        ensures first_now { OnSome result (self.new.first ≡ self.old.next) }
        ensures next { OnSome result (self.new.next ≡ self.old.next) }
        ensures waits { IfNone result (self.new ≡ self.old) }
    {
        if !self.is_alone() {
            return None;
        }
        // One line is there, or it wouldn't be alone.
        let Some(said) = self.lines.pop() else {
            unreachable!()
        };
        let index = self.first[usize::from(said.lane)];
        self.first = self.next;
        Some((said, index))
    }

    /// The lines with their lanes' first numbers. The next piece then begins.
    pub(crate) fn take(&mut self) -> (Vec<LaneLine>, [u64; 8])
        ensures lines { result.0.items ≡ self.old.lines.items }
        ensures first { result.1 ≡ self.old.first }
        ensures none { self.new.lines.items ≡ [] }
        ensures first_now { self.new.first ≡ self.old.next }
        ensures next { self.new.next ≡ self.old.next }
    {
        self.before = self.only_lane();
        self.mixed = false;
        let lines = mem::replace(&mut self.lines, Vec::new(self.alloc));
        let first = mem::replace(&mut self.first, self.next);
        (lines, first)
    }
}
