//! A notary in memory that never fails, for commands that keep none in a folder.

ghost use Rattle.std.specs.Prelude.{◌≡◌, ◌+◌, ◌*◌, ◌<◌, ◌≤◌, [], Some, length, slice_get, IsOk, IfOk};
ghost use Rattle.time_peg.specs.Entries.{IsList, CountsFailures, counted};
ghost use Rattle.notary_ledger.specs.Answering.{AnswersHead, AnswersPath, AnswersProof, Stamps};
ghost use Rattle.notary_ledger.specs.Notaries.{memory_origin, memory_seed};

use crate::MemNotary;
use ledger_bytes::Digest;
use merkle_tree::Head;
use std::alloc::Global;
use std::marker::Model;
use time_peg::{ENTRY_LEN, Notary, NotaryErr, Stamp};

/// A notary in memory that never fails: a [`MemNotary`] that is told to fail on no stamp. A contract sees its list.
#[derive(Drop)]
pub struct SureNotary {
    inner: MemNotary,
}

impl Model for SureNotary {
    ghost use Rattle.std.specs.Prelude.{◌≡◌, ℕ, List, []};

    ghost Value = { List (List ℕ) };

    ghost view = { λ n. n.inner.entries };

    ghost invariant = { λ n. n.inner.fail_at ≡ [] };
}

impl SureNotary {
    /// A notary without entries.
    pub fn new(alloc: Global) -> SureNotary
        ensures { result ≡ [] }
    {
        SureNotary {
            inner: MemNotary::new(alloc, Vec::new(alloc)),
        }
    }
}

impl Notary for SureNotary {
    // A failure would be counted, so there is none.
    ghost state = { λ n. record { origin = memory_origin; entries = n; faults = 0 } };

    fn stamp(&mut self, alloc: Global, peg: &Digest) -> Result<Stamp, NotaryErr>
        ensures list { Stamps peg.now.0 memory_seed counted self.old self.new result }
        ensures lawful { IsList self.new }
        ensures faults { CountsFailures result 0 0 }
        ensures time { IfOk result (λ s. s.time ≡ 1000 * (s.index + 1)) }
    {
        self.inner.stamp(alloc, peg)
    }

    fn head(&mut self) -> Result<Head, NotaryErr>
        ensures head { AnswersHead self.old result }
        ensures same { self.new ≡ self.old }
        ensures lawful { IsList self.new }
    {
        self.inner.head()
    }

    fn entry(&mut self, k: u64) -> Result<[u8; ENTRY_LEN], NotaryErr>
        requires { k < length self.old }
        ensures entry { IfOk result (λ entry. slice_get self.old k ≡ Some entry) }
        ensures ok { IsOk result }
        ensures same { self.new ≡ self.old }
    {
        self.inner.entry(k)
    }

    fn path(&mut self, alloc: Global, k: u64) -> Result<Vec<Digest>, NotaryErr>
        requires { k < length self.old }
        ensures path { AnswersPath self.old k result }
        ensures same { self.new ≡ self.old }
    {
        self.inner.path(alloc, k)
    }

    fn proof(&mut self, alloc: Global, m: u64) -> Result<Vec<Digest>, NotaryErr>
        requires some { 0 < m }
        requires within { m ≤ length self.old }
        ensures proof { AnswersProof self.old m result }
        ensures same { self.new ≡ self.old }
    {
        self.inner.proof(alloc, m)
    }

    fn faults(&self) -> u64 {
        0
    }
}
