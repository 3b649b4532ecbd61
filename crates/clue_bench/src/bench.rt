//! The work on an index of clues that is timed: journals are added, and clues are asked for.

ghost use Rattle.std.specs.Prelude.{◌<◌};

use clue_index::ClueIndex;
use ledger_bytes::{Digest, NoMemory};
use std::alloc::Global;

/// How much is done.
#[derive(Drop)]
pub(crate) struct Plan {
    /// How many journals are added.
    pub journals: u64,
    /// How often each journal's clue is asked what is next.
    pub nexts: u64,
    /// How often each clue is asked for its journals.
    pub lists: u64,
}

/// What was answered.
#[derive(Drop)]
pub(crate) struct Seen {
    /// How many different clues there are.
    pub clues: u64,
    /// The sum of the next ordinals.
    pub ordinals: u64,
    /// How many journals were listed.
    pub kept: u64,
}

/// Does what is planned with an index of its own.
pub(crate) fn run(alloc: Global, plan: &Plan) -> Result<Seen, NoMemory> {
    let clues = (plan.journals / 10).max(1);
    let index = fill_index(alloc, plan.journals, clues)?;
    let mut seen = Seen {
        clues: index.clues(),
        ordinals: 0,
        kept: 0,
    };
    for _ in 0..plan.nexts {
        for journal in 0..plan.journals {
            let (ordinal, _) = index.next_of(&clue_of(journal % clues));
            seen.ordinals = seen.ordinals.wrapping_add(u64::from(ordinal));
        }
    }
    for _ in 0..plan.lists {
        for clue in 0..clues {
            let (_, kept) = index.of(&clue_of(clue))?;
            seen.kept = seen.kept.wrapping_add(kept.len() as u64);
        }
    }
    Ok(seen)
}

/// An index to which journals were added, the clues in turn.
fn fill_index(alloc: Global, journals: u64, clues: u64) -> Result<ClueIndex, NoMemory>
    requires { 0 < clues }
{
    let mut index = ClueIndex::new(alloc);
    for journal in 0..journals {
        index.add(&clue_of(journal % clues), journal + 1)?;
    }
    Ok(index)
}

/// A clue for each number, spread over all as digests are.
fn clue_of(number: u64) -> Digest {
    let mut bytes = [1; 32];
    let spread = number.wrapping_mul(0x9e37_79b9_7f4a_7c15);
    bytes[..8].copy_from_slice(&spread.to_be_bytes());
    Digest(bytes)
}
