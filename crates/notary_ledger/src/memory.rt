//! A notary in memory, which fails on the stamps that it is told to fail on.

ghost use Rattle.std.specs.Prelude.{◌≡◌, ◌+◌, ◌*◌, ◌-◌, ◌^◌, ◌<◌, ◌≤◌, ◌≢◌, [], Err, Some, length, min, slice_get, IsOk, IfOk};
ghost use Rattle.std.specs.List.{Contains};
ghost use Rattle.journal_record.specs.declared.rules.TheConstants.{NOTARY_LIMIT};
ghost use Rattle.time_peg.specs.Entries.{IsList, CountsFailures, counted};
ghost use Rattle.notary_ledger.specs.Notaries.{memory_origin, memory_seed};
ghost use Rattle.notary_ledger.specs.Answering.{AnswersHead, AnswersPath, AnswersProof, Stamps};

use crate::entry::{new_entry, salt_for};
use crate::list::Entries;
use journal_record::NOTARY_LIMIT;
use ledger_bytes::Digest;
use merkle_tree::Head;
use std::alloc::Global;
use std::marker::Model;
use time_peg::{ENTRY_LEN, Notary, NotaryErr, Stamp};

/// A notary in memory. Entry k has the time 1000 (k + 1), and the salt of k from a seed of 32 zeros. It fails on
/// the stamps that it was told to fail on, and then does nothing else.
#[derive(Drop)]
pub struct MemNotary {
    list: Entries,
    fail_at: Vec<u64>,
    calls: u64,
    faults: u64,
}

impl Model for MemNotary {
    ghost use Rattle.notary_ledger.specs.Notaries.{MemShown, HasTimes};

    ghost Value = { MemShown };

    ghost view = { λ n. record {
      entries = n.list.entries;
      fail_at = n.fail_at.items;
      calls = n.calls;
      faults = n.faults;
    } };

    ghost invariant = { λ n. HasTimes n.list.entries };
}

impl MemNotary {
    /// A notary without entries. `fail_at` has the numbers of the calls of `stamp` that fail. The first call has the
    /// number 0.
    pub fn new(alloc: Global, fail_at: Vec<u64>) -> MemNotary
        ensures { result ≡ record { entries = []; fail_at = fail_at.items; calls = 0; faults = 0 } }
    {
        MemNotary {
            list: Entries::new(alloc),
            fail_at,
            calls: 0,
            faults: 0,
        }
    }
}

impl Notary for MemNotary {
    ghost state = { λ n. record {
      origin = memory_origin;
      entries = n.entries;
      faults = n.faults;
    } };

    fn stamp(&mut self, _alloc: Global, peg: &Digest) -> Result<Stamp, NotaryErr>
        ensures list { Stamps peg.now.0 memory_seed counted self.old.entries self.new.entries result }
        ensures lawful { IsList self.new.entries }
        ensures faults { CountsFailures result self.old.faults self.new.faults }
        ensures time { IfOk result (λ s. s.time ≡ 1000 * (s.index + 1)) }
        // It fails exactly where its number is in `fail_at`, but for a full list.
        ensures told { Contains self.old.fail_at self.old.calls
            → length self.old.entries < NOTARY_LIMIT → result ≡ Err NotaryErr.Failed }
        ensures untold { (Contains self.old.fail_at self.old.calls → ⊥)
            → result ≢ Err NotaryErr.Failed }
        ensures calls { self.new.calls ≡ min (self.old.calls + 1) (2 ^ 64 - 1) }
        ensures plan { self.new.fail_at ≡ self.old.fail_at }
    {
        let number = self.calls;
        self.calls = number.saturating_add(1);
        let index = self.list.len();
        if index >= NOTARY_LIMIT {
            return Err(NotaryErr::Full);
        }
        if self.fail_at.contains(&number) {
            self.faults = self.faults.saturating_add(1);
            return Err(NotaryErr::Failed);
        }
        let Ok(()) = self.list.reserve() else {
            return Err(NotaryErr::NoMemory);
        };
        let time = 1000 * (index + 1);
        let salt = salt_for(&Digest([0; 32]), index);
        let entry = new_entry(time, peg, &salt);
        self.list.push(&entry);
        Ok(Stamp { index, time, salt })
    }

    fn head(&mut self) -> Result<Head, NotaryErr>
        ensures head { AnswersHead self.old.entries result }
        ensures same { self.new ≡ self.old }
        ensures lawful { IsList self.new.entries }
    {
        Ok(self.list.head())
    }

    fn entry(&mut self, k: u64) -> Result<[u8; ENTRY_LEN], NotaryErr>
        requires { k < length self.old.entries }
        ensures entry { IfOk result (λ entry. slice_get self.old.entries k ≡ Some entry) }
        ensures ok { IsOk result }
        ensures same { self.new ≡ self.old }
    {
        Ok(self.list.get(k))
    }

    fn path(&mut self, _alloc: Global, k: u64) -> Result<Vec<Digest>, NotaryErr>
        requires { k < length self.old.entries }
        ensures path { AnswersPath self.old.entries k result }
        ensures same { self.new ≡ self.old }
    {
        self.list.path(k)
    }

    fn proof(&mut self, _alloc: Global, m: u64) -> Result<Vec<Digest>, NotaryErr>
        requires some { 0 < m }
        requires within { m ≤ length self.old.entries }
        ensures proof { AnswersProof self.old.entries m result }
        ensures same { self.new ≡ self.old }
    {
        self.list.proof(m)
    }

    fn faults(&self) -> u64 {
        self.faults
    }
}
