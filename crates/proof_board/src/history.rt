//! The history of a board: the batches of leaves that were published, in order. It exists in the proofs alone; its length is a word.
ghost use Rattle.std.specs.Prelude.{◌≡◌, ◌+◌, ◌<◌, ◌^◌, ◌++◌, ◌∷◌, [], length, map, All, MatchBool};
ghost use mathlib.Core.List.{IsPrefix};
ghost use Rattle.proof_board.specs.History.{Mark, IsWide, head_of, leaves_of};

use ledger_bytes::{Digest, Sha};
use logbook::{Gain, Offer, Plain, Play, Rule, Seen, Start, Word};
use merkle_batch::Stretch;
use std::collections::LinkedList;
use std::marker::Model;

/// The leaf digests of one publish.
pub type Batch = LinkedList<[u8; 32]>;

/// The rule of a history: its word is its length. No value of this type is made.
pub struct ByLength;

impl Rule<Batch, u64> for ByLength {
    ghost use Rattle.std.specs.Prelude.{[]};
    ghost use base.Fml.{ftrue};
    ghost use Rattle.proof_board.specs.History.{IsKept};

    ghost holds = { λ cells log. IsKept cells log };

    ghost first = { [] };

    ghost hinted = { λ n log. Unit {0} };

    ghost shows = { λ log. [] };

    ghost keeps = { λ names log. ftrue };

    ghost moves = { λ ask before after answer. Unit {0} };
}

/// Callers trade nothing. No value of this type is made.
pub struct NoGain;

impl Gain<Batch, u64> for NoGain {
    ghost use base.Fml.{ftrue};

    ghost after = { λ names about answer. ftrue };
}

/// The step that adds a batch. No value of this type is made.
pub struct AddBatch;

impl Play<Batch, u64> for AddBatch {
    ghost use Rattle.proof_board.specs.History.{Adds};

    ghost then = { Adds };
}

/// What a step asks for: the batch of the leaves of these stretches.
impl Plain<Vec<Stretch<Sha>>, Batch, u64> for AddBatch {
    ghost use Rattle.std.specs.Prelude.{None};
    ghost use Rattle.proof_board.specs.History.{leaves_of};

    ghost ask = { λ stretches. leaves_of stretches.items };

    ghost state = { λ stretches. None };
}

/// The word of a history: its length.
pub type Counter = Word<Batch, u64, ByLength>;

/// A beginning of a history that was seen. Contracts see which history it is, and its batches.
#[derive(Drop)]
pub struct Front {
    count: u64,
    seen: Seen<Batch, u64, ByLength>,
}

impl Model for Front {
    ghost use Rattle.std.specs.Prelude.{◌≡◌, length};
    ghost use Rattle.proof_board.specs.History.{Mark, mark};

    ghost Value = { Mark };

    ghost view = { λ f. mark f.seen.book f.seen.log };

    ghost invariant = { λ f. f.count ≡ length f.seen.log };
}

impl Front {
    /// A history of no batch, and its word.
    pub fn new() -> (Front, Counter)
        ensures empty { result.0.log ≡ [] }
        ensures head { result.1 ≡ head_of result.0.book }
    {
        let (seen, mut first, _second) = Seen::open(Start::alone(), 0, 0);
        let word = Word::tracked(0, &mut first);
        (Front { count: 0, seen }, word)
    }

    /// How many batches it has.
    pub fn count(&self) -> u64
        ensures { result ≡ length self.now.log }
    {
        self.count
    }

    /// A copy.
    pub fn again(&self) -> Front
        ensures { result ≡ self.now }
    {
        Front {
            count: self.count,
            seen: self.seen.again(),
        }
    }

    /// Whether the other has as many batches; then it begins with these.
    pub fn begins(&self, other: &Front) -> bool
        requires same { other.now.book ≡ self.now.book }
        ensures { MatchBool result (IsPrefix self.now.log other.now.log)
            (length other.now.log < length self.now.log) }
    {
        let mut both = self.seen.again();
        both.learn(&other.seen);
        self.count <= other.count
    }

    /// Adds a batch to all that was seen, and says whether it did. It did not where the history is longer.
    pub fn add(&mut self, head: &Counter, batch: &Vec<Stretch<Sha>>) -> bool
        requires head { head.now ≡ head_of self.old.book }
        requires room { length self.old.log < 2 ^ 62 }
        ensures book { self.new.book ≡ self.old.book }
        ensures log { MatchBool result (self.new.log ≡ self.old.log ++ leaves_of batch.now.items ∷ [])
            (IsPrefix self.old.log self.new.log) }
    {
        let mut offer: Offer<Batch, u64, ByLength, NoGain> = self
            .seen
            .plain::<NoGain, Vec<Stretch<Sha>>, AddBatch>(batch);
        let mut pen = self.seen.no_pen();
        let count = self.count;
        let found = head.compare_exchange::<AddBatch, NoGain>(
            count,
            count + 1,
            &mut self.seen,
            &mut offer,
            &mut pen,
        );
        self.count = if found == count { count + 1 } else { found };
        found == count
    }
}

// A digest has 32 bytes.
pub(crate) fn is_wide(digest: &Digest)
    ensures { IsWide digest.now.0 }
{
    let _bytes = digest.0;
}

// So has each of these.
pub(crate) fn are_wide(digests: &[Digest])
    ensures { All IsWide (map (λ d. d.0) digests.now) }
{
    for digest in digests {
        is_wide(digest);
    }
}
