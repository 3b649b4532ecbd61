//! The index of a ledger's clues: the journals of each, and the ordinal of its next one.

ghost use Rattle.std.specs.Prelude.{◌≡◌, ◌≢◌, [], ◌+◌, ◌-◌, ◌^◌, ◌<◌, ◌≤◌, ℕ, List, length, max, All, IfOk, OnOk, OnErr};
ghost use Rattle.clue_index.specs.Added.{Added, added_at_first, with_mark, with_floor, no_clue, trail_of, different_clues, states_at};
ghost use Rattle.clue_index.specs.Index.{StandsForTrails};
ghost use Rattle.clue_index.specs.Trail.{count_of, last_of, kept_from, Ascends};
ghost use Rattle.clue_index.specs.declared.index.TheConstants.{CLUE_ROOM};

use crate::ClueState;
use crate::slot::Slot;
use ledger_bytes::{Digest, NoMemory};
use std::alloc::Global;
use std::collections::BTreeMap;
use std::marker::Model;

/// How many different clues an index has room for: as many as a ledger may have.
pub const CLUE_ROOM: usize = 1_048_576;

/// The journals of each clue. A contract sees the record of what is kept; `Stands` says what was added for it to keep
/// that.
#[derive(Drop)]
pub struct ClueIndex {
    alloc: Global,
    slots: BTreeMap<[u8; 32], Slot>,
    /// The first journal that is kept. The numbers of those below stay in the slots, and are passed over.
    floor: u64,
}

impl Model for ClueIndex {
    ghost use Rattle.std.specs.Prelude.{◌≤◌};
    ghost use Rattle.std.specs.BTreeMap.{btree_map_len};
    ghost use Rattle.clue_index.specs.Index.{KeptTrails};
    ghost use Rattle.clue_index.specs.declared.index.TheConstants.{CLUE_ROOM};

    ghost Value = { KeptTrails };

    ghost view = { λ x. record { trails = x.slots.entries; floor = x.floor } };

    ghost invariant = { λ x. btree_map_len x.slots ≤ CLUE_ROOM };
}

impl ClueIndex {
    /// The index of a ledger without a clue.
    pub fn new(alloc: Global) -> Self
        ensures { StandsForTrails result (added_at_first []) }
    {
        ClueIndex {
            alloc,
            slots: BTreeMap::new(alloc),
            floor: 0,
        }
    }

    /// The index of a ledger that begins with these states, of clues that aren't zero. No journal is kept.
    pub fn from_states(alloc: Global, states: &[ClueState]) -> Result<Self, NoMemory>
        requires { length states.now ≤ CLUE_ROOM }
        ensures { IfOk result (λ index. All (λ s. s.clue.0 ≢ no_clue) states.now
            → StandsForTrails index (added_at_first states.now)) }
    {
        let mut slots = BTreeMap::new(alloc);
        for state in states {
            slots.insert(state.clue.0, Slot::of_state(alloc, state))?;
        }
        Ok(ClueIndex {
            alloc,
            slots,
            floor: 0,
        })
    }

    /// The ordinal of the clue's next journal, and the number of the one before it or 0. The next ordinal is a `u32`.
    pub fn next_of(&self, clue: &Digest) -> (u32, u64)
        ensures ordinal { (a : Added) → StandsForTrails self.now a
            → count_of (trail_of a clue.now.0) < 2 ^ 32 - 1
            → result.0 ≡ count_of (trail_of a clue.now.0) + 1 }
        ensures previous { (a : Added) → StandsForTrails self.now a
            → result.1 ≡ last_of (trail_of a clue.now.0) }
    {
        match self.slots.get(&clue.0) {
            Some(slot) => (slot.count().saturating_add(1), slot.last()),
            None => (1, 0),
        }
    }

    /// How many different clues there were over the whole history.
    pub fn clues(&self) -> u64
        ensures { (a : Added) → StandsForTrails self.now a → result ≡ length (different_clues a) }
    {
        self.slots.len() as u64
    }

    /// Adds the next journal of a clue. The clue isn't zero, and the number is above those of all journals that were
    /// added, and not below the first journal that is kept. After an `Err` the index is as before.
    pub fn add(&mut self, clue: &Digest, jsn: u64) -> Result<(), NoMemory>
        ensures ok { OnOk result ((a : Added) → StandsForTrails self.old a → clue.now.0 ≢ no_clue
            → a.floor ≤ jsn
            → All (λ m. m.jsn < jsn) a.marks
            → StandsForTrails self.new (with_mark clue.now.0 jsn a)) }
        ensures err { OnErr result (self.new ≡ self.old) }
    {
        let room = self.slots.len() < CLUE_ROOM;
        match self.slots.get_mut(&clue.0) {
            Some(slot) => slot.grow(jsn),
            None => {
                // Never met by a ledger, whose limits are no greater.
                if !room {
                    return Err(NoMemory);
                }
                let slot = Slot::first(self.alloc, jsn)?;
                self.slots.insert(clue.0, slot)?;
                Ok(())
            }
        }
    }

    /// How many journals the clue has over the whole history, where that is a `u32`, and the numbers of those that are
    /// kept, ascending.
    pub fn of(&self, clue: &Digest) -> Result<(u32, Vec<u64>), NoMemory>
        ensures count { IfOk result (λ r. (a : Added) → StandsForTrails self.now a
            → count_of (trail_of a clue.now.0) < 2 ^ 32
            → r.0 ≡ count_of (trail_of a clue.now.0)) }
        ensures kept { IfOk result (λ r. (a : Added) → StandsForTrails self.now a
            → r.1.items ≡ kept_from a.floor (trail_of a clue.now.0)) }
        ensures ascending { IfOk result (λ r. (a : Added) → StandsForTrails self.now a → Ascends r.1.items) }
        // Zeros are no clue, and have no journal.
        ensures none { clue.now.0 ≡ no_clue
            → IfOk result (λ r. (a : Added) → StandsForTrails self.now a → (r.0 ≡ 0) × (r.1.items ≡ [])) }
    {
        match self.slots.get(&clue.0) {
            Some(slot) => Ok((slot.count(), slot.kept_jsns(self.alloc, self.floor)?)),
            None => Ok((0, Vec::new(self.alloc))),
        }
    }

    /// The states of all clues when the journals below `p` had been placed, ascending by clue; a clue without a journal
    /// by then isn't among them. `p` isn't below the first journal that is kept, and each count is a `u32`.
    pub fn state_at(&self, p: u64) -> Result<Vec<ClueState>, NoMemory>
        ensures states { IfOk result (λ states. (a : Added) → StandsForTrails self.now a → a.floor ≤ p
            → ((clue : List ℕ) → count_of (trail_of a clue) < 2 ^ 32)
            → states.items ≡ states_at p a) }
        ensures few { IfOk result (λ states. length states.items ≤ CLUE_ROOM) }
    {
        let mut states = Vec::new(self.alloc);
        for (clue, slot) in self.slots.iter() {
            let state = slot.state_below(&Digest(*clue), p);
            if state.count > 0 {
                states.push(state)?;
            }
        }
        Ok(states)
    }

    /// Keeps the numbers of journals from `p` on alone. A lower `p` than before changes nothing.
    pub fn drop_below(&mut self, p: u64)
        ensures { (a : Added) → StandsForTrails self.old a → StandsForTrails self.new (with_floor (max a.floor p) a) }
    {
        self.floor = self.floor.max(p);
    }
}
