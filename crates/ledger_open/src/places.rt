//! The list of places at which the journals of the open file stand.

ghost use Rattle.std.specs.Prelude.{◌≡◌, ◌≤◌, ◌<◌, ◌-◌, ◌+◌, ◌++◌, [], ◌∷◌, drop, length, map, OnOk, OnErr, vec_len, vec_capacity};
ghost use Rattle.block_file.specs.Places.{moved_place};
ghost use Rattle.block_file.specs.Places.{place_of_record};

use block_file::{PlaceAt, RecordAt};
use ledger_bytes::{NoMemory, keep_from};
use std::alloc::Global;
use std::marker::Model;

/// Where the journals of the open file stand, in their order. Beside the list a contract sees how many more there is
/// room for.
#[derive(Debug, Drop)]
pub struct Places {
    kept: Vec<PlaceAt>,
}

impl Model for Places {
    ghost use Rattle.std.specs.Prelude.{◌-◌, vec_len, vec_capacity};
    ghost use Rattle.ledger_open.specs.Places.{PlaceList};

    ghost Value = { PlaceList };

    ghost view = { λ p. record {
      list = p.kept.items;
      spare = vec_capacity p.kept - vec_len p.kept;
    } };
}

impl Places {
    /// None.
    pub(crate) fn new(alloc: Global) -> Self
        ensures { result.list ≡ [] }
    {
        Places {
            kept: Vec::new(alloc),
        }
    }

    pub fn as_slice(&self) -> &[PlaceAt]
        ensures { result.now ≡ self.now.list }
    {
        self.kept.as_slice()
    }

    /// Makes room for so many more.
    pub fn reserve(&mut self, more: usize) -> Result<(), NoMemory>
        ensures room { OnOk result (more ≤ self.new.spare) }
        ensures list { self.new.list ≡ self.old.list }
    {
        self.kept.reserve(more)?;
        Ok(())
    }

    /// Adds one, for which there is room.
    pub fn push(&mut self, place: PlaceAt)
        requires { 1 ≤ self.old.spare }
        ensures list { self.new.list ≡ self.old.list ++ place ∷ [] }
        ensures room { self.old.spare - 1 ≤ self.new.spare }
    {
        self.kept.push_reserved(place);
    }

    /// Adds those of a block's journals, for which it makes room at once.
    pub(crate) fn add(&mut self, records: &[RecordAt]) -> Result<(), NoMemory>
        ensures ok { OnOk result (self.new.list ≡ self.old.list ++ map place_of_record records.now) }
        ensures err { OnErr result (self.new.list ≡ self.old.list) }
    {
        self.reserve(records.len())?;
        for record in records {
            self.push(PlaceAt::of(record));
        }
        Ok(())
    }

    /// The first ones fall away, and the others move: the gate in front of them stood at one offset, and now stands at
    /// another.
    pub(crate) fn drop_front(&mut self, count: usize, old: u64, new: u64)
        requires { count ≤ length self.old.list }
        ensures { self.new.list ≡ map (moved_place old new) (drop count self.old.list) }
    {
        keep_from(&mut self.kept, count, 0);
        for index in 0..self.kept.len() {
            self.kept[index] = self.kept[index].moved(old, new);
        }
    }
}
