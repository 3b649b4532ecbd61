//! What a notary is: it stamps what it is asked to, keeps the entry in its list, and shows that it is there.

ghost use Rattle.std.specs.Prelude.{◌≡◌, ◌≢◌, ◌<◌, ◌≤◌, Err, length, map, slice_get, Some, IfOk, IfErr};
ghost use Rattle.sha2.specs.Sha256.{sha256};
ghost use Rattle.tree_model.specs.Tree.{mth, leaf};
ghost use Rattle.tree_model.specs.Path as paths;
ghost use Rattle.tree_model.specs.Extension as extensions;
ghost use Rattle.journal_record.specs.declared.rules.TheConstants.{NOTARY_LIMIT};
ghost use Rattle.time_peg.specs.Entries.{NotaryState, IsList, IsStamped, CountsFailures};

use crate::ENTRY_LEN;
use journal_record::Stamp;
use ledger_bytes::Digest;
use merkle_tree::Head;
use std::alloc::Global;
use thiserror::Error;

/// Why a notary gives no answer.
#[derive(Clone, Copy, Debug, PartialEq, Eq, Error)]
pub enum NotaryErr {
    /// The notary failed. Its count of faults rose by one in that call.
    #[error("the notary failed")]
    Failed,
    /// The list has 16,777,216 entries.
    #[error("the notary's list is full")]
    Full,
    #[error("out of memory")]
    NoMemory,
}

/// A notary keeps a list of at most 16,777,216 entries, whose times never fall. An entry has 72 bytes, which are laid out
/// as [`entry_bytes`](crate::entry_bytes) says. The list has the tree of RFC 6962 over its entries, under SHA-256.
pub trait Notary {
    /// What stays of it, the list, and how many calls failed.
    ghost state: { Self → NotaryState };

    /// Appends an entry with this peg. It takes its memory before it appends anything. After `Failed` the list is as
    /// before, or one such entry longer.
    fn stamp(&mut self, alloc: Global, peg: &Digest) -> Result<Stamp, NotaryErr>
        ensures list { IsStamped (state self.old).origin.making peg.now.0
            (state self.old).entries (state self.new).entries result }
        ensures full { length (state self.old).entries ≡ NOTARY_LIMIT → result ≡ Err NotaryErr.Full }
        ensures lawful { IsList (state self.new).entries }
        ensures origin { (state self.new).origin ≡ (state self.old).origin }
        ensures faults { CountsFailures result (state self.old).faults (state self.new).faults };

    /// The number of entries, and the root over them.
    fn head(&mut self) -> Result<Head, NotaryErr>
        ensures size { IfOk result (λ head. head.size ≡ length (state self.old).entries) }
        ensures root { IfOk result (λ head. head.root.0 ≡ mth sha256 (state self.old).entries) }
        ensures err { IfErr result (λ e. e ≡ NotaryErr.Failed) }
        ensures same { (state self.new).entries ≡ (state self.old).entries }
        ensures lawful { IsList (state self.new).entries }
        ensures origin { (state self.new).origin ≡ (state self.old).origin }
        ensures faults { CountsFailures result (state self.old).faults (state self.new).faults };

    /// The bytes of entry k, which a proof shows of a bound.
    fn entry(&mut self, k: u64) -> Result<[u8; ENTRY_LEN], NotaryErr>
        requires { k < length (state self.old).entries }
        ensures entry { IfOk result (λ entry. slice_get (state self.old).entries k ≡ Some entry) }
        ensures err { IfErr result (λ e. e ≡ NotaryErr.Failed) }
        ensures same { (state self.new).entries ≡ (state self.old).entries }
        ensures origin { (state self.new).origin ≡ (state self.old).origin }
        ensures faults { CountsFailures result (state self.old).faults (state self.new).faults };

    /// The path of entry k in the tree over all entries.
    fn path(&mut self, alloc: Global, k: u64) -> Result<Vec<Digest>, NotaryErr>
        requires { k < length (state self.old).entries }
        ensures path { IfOk result (λ digests. map (λ d. d.0) digests.items
            ≡ paths.path sha256 k (map (leaf sha256) (state self.old).entries)) }
        ensures err { IfErr result (λ e. e ≢ NotaryErr.Full) }
        ensures same { (state self.new).entries ≡ (state self.old).entries }
        ensures origin { (state self.new).origin ≡ (state self.old).origin }
        ensures faults { CountsFailures result (state self.old).faults (state self.new).faults };

    /// The proof that the tree over all entries goes on from the tree over the first m.
    fn proof(&mut self, alloc: Global, m: u64) -> Result<Vec<Digest>, NotaryErr>
        requires some { 0 < m }
        requires within { m ≤ length (state self.old).entries }
        ensures proof { IfOk result (λ digests. map (λ d. d.0) digests.items
            ≡ extensions.proof sha256 m (map (leaf sha256) (state self.old).entries)) }
        ensures err { IfErr result (λ e. e ≢ NotaryErr.Full) }
        ensures same { (state self.new).entries ≡ (state self.old).entries }
        ensures origin { (state self.new).origin ≡ (state self.old).origin }
        ensures faults { CountsFailures result (state self.old).faults (state self.new).faults };

    /// How many calls failed. The count stays at 2^64 - 1 once it is there.
    fn faults(&self) -> u64
        ensures { result ≡ (state self.now).faults };
}
