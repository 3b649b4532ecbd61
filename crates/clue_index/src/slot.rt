//! What the index keeps of one clue: how many journals it had at first, and the numbers of those since.

ghost use Rattle.std.specs.Prelude.{◌≡◌, [], ◌-◌, ◌^◌, ◌<◌, min, IfOk, OnOk, OnErr};
ghost use Rattle.clue_index.specs.Trail.{no_trail, count_of, last_of, last_from, kept_from, below, grown_trail, Ascends};

use crate::ClueState;
use ledger_bytes::{Digest, NoMemory};
use std::alloc::Global;
use std::marker::Model;

/// The journals of one clue. A contract sees the record of their numbers.
#[derive(Debug, Drop)]
pub(crate) struct Slot {
    /// How many journals the clue had before the first in `jsns`.
    count: u32,
    /// The number of the last of those, or 0.
    last: u64,
    /// The numbers of the journals since, ascending. Those below the index's floor stay in it.
    jsns: Vec<u64>,
}

impl Model for Slot {
    ghost use Rattle.clue_index.specs.Trail.{Trail};

    ghost Value = { Trail };

    ghost view = { λ s. record { count = s.count; last = s.last; jsns = s.jsns.items } };
}

impl Slot {
    /// A clue that begins with this state.
    pub(crate) fn of_state(alloc: Global, state: &ClueState) -> Self
        ensures { result ≡ record { count = state.now.count; last = state.now.last; jsns = [] } }
    {
        Slot {
            count: state.count,
            last: state.last,
            jsns: Vec::new(alloc),
        }
    }

    /// A clue whose first journal has this number.
    pub(crate) fn first(alloc: Global, jsn: u64) -> Result<Self, NoMemory>
        ensures { IfOk result (λ slot. slot ≡ grown_trail jsn no_trail) }
    {
        Ok(Slot {
            count: 0,
            last: 0,
            jsns: vec![in alloc; jsn]?,
        })
    }

    /// Adds a journal. After an `Err` the slot is as before.
    pub(crate) fn grow(&mut self, jsn: u64) -> Result<(), NoMemory>
        ensures ok { OnOk result (self.new ≡ grown_trail jsn self.old) }
        ensures err { OnErr result (self.new ≡ self.old) }
    {
        self.jsns.push(jsn)?;
        Ok(())
    }

    /// How many journals the clue has, where that is a `u32`.
    pub(crate) fn count(&self) -> u32
        ensures { count_of self.now < 2 ^ 32 → result ≡ count_of self.now }
    {
        self.count.saturating_add(to_count(self.jsns.len()))
    }

    /// The number of the clue's last journal, or 0.
    pub(crate) fn last(&self) -> u64
        ensures { result ≡ last_of self.now }
    {
        last_in(self.last, self.jsns.as_slice())
    }

    /// The numbers of the journals from `floor` on.
    pub(crate) fn kept_jsns(&self, alloc: Global, floor: u64) -> Result<Vec<u64>, NoMemory>
        ensures { IfOk result (λ kept. Ascends self.now.jsns
            → kept.items ≡ kept_from floor self.now) }
    {
        let first = self.jsns.partition_point(|jsn| *jsn < floor);
        Ok(Vec::from_slice(alloc, &self.jsns.as_slice()[first..])?)
    }

    /// The clue's state when the journals below `p` had been placed.
    pub(crate) fn state_below(&self, clue: &Digest, p: u64) -> ClueState
        ensures clue { result.clue ≡ clue.now }
        ensures count { Ascends self.now.jsns → count_of (below p self.now) < 2 ^ 32
            → result.count ≡ count_of (below p self.now) }
        ensures last { Ascends self.now.jsns → result.last ≡ last_of (below p self.now) }
    {
        let early = self.early(p);
        ClueState {
            clue: *clue,
            count: self.count.saturating_add(to_count(early.len())),
            last: last_in(self.last, early),
        }
    }

    /// The numbers of the journals below `p` that are in the slot.
    fn early(&self, p: u64) -> &[u64]
        ensures { Ascends self.now.jsns → result.now ≡ (below p self.now).jsns }
    {
        let end = self.jsns.partition_point(|jsn| *jsn < p);
        &self.jsns.as_slice()[..end]
    }
}

/// The last of some numbers, or else the one before them.
fn last_in(before: u64, jsns: &[u64]) -> u64
    ensures { result ≡ last_from before jsns.now }
{
    match jsns.last() {
        Some(jsn) => *jsn,
        None => before,
    }
}

/// A number as a `u32`, or the greatest `u32` where it is greater.
fn to_count(number: usize) -> u32
    ensures { result ≡ min number (2 ^ 32 - 1) }
{
    u32::try_from(number).unwrap_or(u32::MAX)
}
