//! A notary's list as it stands in memory: its entries, its head, its paths and its proofs.

ghost use Rattle.std.specs.Prelude.{◌≡◌, ◌<◌, ◌≤◌, [], ◌∷◌, ◌++◌, Some, Ok, length, slice_get, OnOk};
ghost use Rattle.journal_record.specs.declared.rules.TheConstants.{NOTARY_LIMIT};
ghost use Rattle.time_peg.specs.Entries.{last_time};
ghost use Rattle.notary_ledger.specs.Answering.{AnswersHead, AnswersPath, AnswersProof};

use crate::entry::time_of;
use ledger_bytes::{Digest, NoMemory, Sha};
use merkle_batch::Tree;
use merkle_tree::{Head, leaf_of};
use std::alloc::Global;
use std::marker::Model;
use time_peg::{ENTRY_LEN, NotaryErr};

/// A notary's list in memory, with the tree over its entries. A contract sees the entries, and how many more there
/// is room for.
#[derive(Drop)]
pub(crate) struct Entries {
    entries: Vec<[u8; ENTRY_LEN]>,
    tree: Tree<Sha>,
}

impl Model for Entries {
    ghost use Rattle.std.specs.Prelude.{◌≡◌, ◌-◌, min, length, map, vec_capacity};
    ghost use Rattle.sha2.specs.Sha256.{sha256};
    ghost use Rattle.tree_model.specs.Tree.{leaf};
    ghost use Rattle.merkle_batch.specs.Rows.{StandsFor};
    ghost use Rattle.notary_ledger.specs.Listing.{Listed};

    ghost Value = { Listed };

    ghost view = { λ e. record {
      entries = e.entries.items;
      room = min (vec_capacity e.entries - length e.entries.items) e.tree.spare;
    } };

    ghost invariant = { λ e. StandsFor sha256 e.tree (map (leaf sha256) e.entries.items)
        × (e.tree.floor ≡ 0) };
}

impl Entries {
    /// No entries.
    pub(crate) fn new(alloc: Global) -> Self
        ensures { result.entries ≡ [] }
    {
        Entries {
            entries: Vec::new(alloc),
            tree: Tree::new(alloc),
        }
    }

    /// How many entries there are.
    pub(crate) fn len(&self) -> u64
        ensures { result ≡ length self.now.entries }
    {
        self.entries.len() as u64
    }

    /// Entry `k`.
    pub(crate) fn get(&self, k: u64) -> [u8; ENTRY_LEN]
        requires { k < length self.now.entries }
        ensures { slice_get self.now.entries k ≡ Some result }
    {
        self.entries[k as usize]
    }

    /// The number of entries, and the root over them.
    pub(crate) fn head(&self) -> Head
        ensures { AnswersHead self.now.entries (Ok result) }
    {
        Head {
            size: self.len(),
            root: self.tree.root(),
        }
    }

    /// The path of entry `k` in the tree over all entries. Only memory may be missing.
    pub(crate) fn path(&self, k: u64) -> Result<Vec<Digest>, NotaryErr>
        requires { k < length self.now.entries }
        ensures { AnswersPath self.now.entries k result }
    {
        match self.tree.path(k, self.len()) {
            Ok(digests) => Ok(digests),
            Err(_) => Err(NotaryErr::NoMemory),
        }
    }

    /// The proof that the tree over all entries goes on from the tree over the first `m`. Only memory may be missing.
    pub(crate) fn proof(&self, m: u64) -> Result<Vec<Digest>, NotaryErr>
        requires some { 0 < m }
        requires within { m ≤ length self.now.entries }
        ensures { AnswersProof self.now.entries m result }
    {
        match self.tree.proof(m, self.len()) {
            Ok(digests) => Ok(digests),
            Err(_) => Err(NotaryErr::NoMemory),
        }
    }

    /// The time of the last entry, or 0.
    pub(crate) fn last_time(&self) -> u64
        ensures { result ≡ last_time 0 self.now.entries }
    {
        match self.entries.as_slice().last() {
            Some(entry) => time_of(entry),
            None => 0,
        }
    }

    /// Makes room for one entry more.
    pub(crate) fn reserve(&mut self) -> Result<(), NoMemory>
        ensures entries { self.new.entries ≡ self.old.entries }
        ensures ok { OnOk result (0 < self.new.room) }
    {
        self.entries.reserve(1)?;
        self.tree.reserve(1)
    }

    /// Adds an entry behind the last, in the room that `reserve` has made. It takes no memory.
    pub(crate) fn push(&mut self, entry: &[u8; ENTRY_LEN])
        requires room { 0 < self.old.room }
        requires few { length self.old.entries < NOTARY_LIMIT }
        ensures { self.new.entries ≡ self.old.entries ++ entry.now ∷ [] }
    {
        self.tree.add_leaves(&[leaf_of::<Sha>(entry)]);
        self.entries.push_reserved(*entry);
    }
}
