//! The book: what is kept in memory of a ledger's history to judge jobs, to place journals and to end blocks.

ghost use Rattle.std.specs.Prelude.{◌≡◌, ◌+◌, ◌-◌, ◌^◌, ◌≤◌, IfOk, IfNone, IfSome, IsSome, ◌<◌, [], length, nat_le, slice_get, option_copied, List, Option, None, if◌then◌else◌};
ghost use Rattle.std.specs.Option.{option_map};
ghost use Rattle.sha2.specs.Sha256.{sha256};
ghost use Rattle.merkle_batch.specs.Rows.{StandsFor};
ghost use Rattle.proof_codec.specs.Claims.{mark_of};
ghost use Rattle.ledger_model.specs.Anchors.{peg_at};
ghost use Rattle.ledger_model.specs.Bounds.{lower_journal, upper_journal};
ghost use Rattle.ledger_model.specs.Clues.{jsns_with};
ghost use Rattle.ledger_model.specs.Genesis.{new_ledger};
ghost use Rattle.ledger_model.specs.History as model;
ghost use Rattle.ledger_model.specs.History.{History, close};
ghost use Rattle.ledger_model.specs.Judgements.{is_full};
ghost use Rattle.ledger_model.specs.Limits.{AreWithin};
ghost use Rattle.ledger_model.specs.Outcomes as outcomes;
ghost use Rattle.ledger_model.specs.Texts.{kept_with};
ghost use Rattle.journal_record.specs.Entry.{Entry};
ghost use Rattle.pseudo_genesis.specs.declared.base.Base.{Base};
ghost use Rattle.ledger_book.specs.Books.{Stands, Serves, headers, leaf_digests};
ghost use Rattle.ledger_book.specs.Reading.{StandsBehind, root_behind};
ghost use Rattle.ledger_book.specs.Seals.{IsNextSealed, head_of, seal_of};
ghost use Rattle.ledger_book.specs.Steps.{IsSame};

mod applying;
mod asking;
mod basing;
mod blocks;
mod judging;
mod placing;
mod purging;
mod replaying;

use crate::Sealed;
use crate::fronts::FrontTargets;
use crate::headers::first_header;
use crate::numbers::NumberIndex;
use clue_index::ClueIndex;
use journal_record::Header;
use ledger_bytes::{Digest, NoMemory, Sha, TimeMark};
use ledger_model::{Genesis, Limits, View};
use member_book::MemberBook;
use merkle_batch::Tree;
use merkle_tree::Head;
use std::alloc::Global;
use std::marker::Model;
use time_peg::{TimeIndex, peg_of};

/// The state of a ledger's history. A contract sees the record of what is kept; `Stands` says of which histories it
/// keeps that, and each clause speaks of all of these.
#[derive(Drop)]
pub struct Book {
    limits: Limits,
    /// The first journal whose header is kept.
    floor: u64,
    /// Whether the purge to that journal is kept, or the journal is the first of all.
    reached: bool,
    size: u64,
    point: u64,
    /// How many blocks have ended.
    blocks: u64,
    /// The head at the last block's end.
    head: Head,
    /// The sizes above the floor at which blocks ended, with room for one more where a journal waits.
    ends: Vec<u64>,
    id: Digest,
    members: MemberBook,
    clues: ClueIndex,
    /// Of each kept journal the number of the one that hides it, or 0.
    hiders: Vec<u64>,
    /// Which journals in front of the kept ones are named by occults.
    fronts: FrontTargets,
    /// Which of the kept records have which number.
    numbers: NumberIndex,
    /// The time journals from the point on.
    times: TimeIndex,
    headers: Vec<Header>,
    /// The tree over all journals.
    tree: Tree<Sha>,
}

impl Model for Book {
    ghost use Rattle.std.specs.Prelude.{◌≡◌, ◌^◌, ◌+◌, ◌<◌, ◌≤◌, vec_len, vec_capacity};
    ghost use Rattle.std.specs.List.{AllByRecursion};
    ghost use Rattle.ledger_model.specs.Limits.{AreWithin};
    ghost use Rattle.ledger_book.specs.Books.{Kept};
    ghost use Rattle.ledger_book.specs.Numbered.{IndexesNumbers};

    ghost Value = { Kept };

    ghost view = { λ b. record {
      limits = b.limits;
      floor = b.floor;
      reached = b.reached;
      size = b.size;
      point = b.point;
      blocks = b.blocks;
      sealed = b.head.size;
      ends = b.ends.items;
      root = b.head.root;
      id = b.id;
      members = b.members;
      clues = b.clues;
      hiders = b.hiders.items;
      fronts = b.fronts;
      times = b.times;
      headers = b.headers.items;
      tree = b.tree;
    } };

    ghost invariant = { λ b. (1 ≤ b.size) × (b.size < 2 ^ 32) × AreWithin b.limits
        × (b.blocks ≤ b.head.size) × (b.head.size ≤ b.size)
        × (b.head.size < b.size → vec_len b.ends < vec_capacity b.ends) × (b.tree.size ≡ b.size)
        × (b.tree.floor ≡ b.floor) × (b.floor + vec_len b.headers ≡ b.size)
        × AllByRecursion (λ m. m.jsn < b.size) b.times
        × IndexesNumbers b.numbers b.floor b.headers.items
        × (vec_len b.hiders ≡ vec_len b.headers) };
}

impl Book {
    /// The book of a new ledger, which has journal 0 alone, in a block that has ended.
    pub fn new(alloc: Global, genesis: &Genesis, limits: Limits) -> Result<Self, NoMemory>
        requires { AreWithin limits }
        ensures serves { IfOk result (λ book. Serves book (new_ledger genesis.now)) }
        ensures limits { IfOk result (λ book. book.limits ≡ limits) }
        ensures floor { IfOk result (λ book. (book.floor ≡ 0) × (book.point ≡ 0)) }
    {
        let header = first_header(genesis);
        Self::from_first(
            alloc,
            &header,
            &genesis.operator,
            &genesis.regulator,
            limits,
        )
    }

    /// Ends the open block, where a journal waits in it. It takes no memory, since room was made before
    /// each journal was placed.
    pub fn seal(&mut self) -> Option<Sealed>
        ensures stands { (h : History) → Stands self.old h → Stands self.new (close h) }
        ensures behind { (start : Option Base) (journals : List Entry)
            → StandsBehind self.old start journals → StandsBehind self.new start journals }
        ensures sealed { (h : History) → Stands self.old h → result ≡ seal_of h }
        ensures none { IfNone result (self.new ≡ self.old) }
        ensures same { IsSame self.old self.new }
        ensures ended { (self.new.size ≡ self.old.size) × (self.new.sealed ≡ self.old.size) }
        ensures told { IfSome result (λ sealed. IsNextSealed self.old self.new sealed) }
        ensures root { IfSome result (λ sealed. (start : Option Base) (journals : List Entry)
            → StandsBehind self.old start journals
            → sealed.head.root.0 ≡ root_behind start journals) }
    {
        if self.head.size == self.size {
            return None;
        }
        let root = self.tree.root();
        let sealed = Sealed {
            block: self.blocks,
            first: self.head.size,
            head: Head {
                size: self.size,
                root,
            },
        };
        self.blocks += 1;
        self.ends.push_reserved(self.size);
        self.head = sealed.head;
        Some(sealed)
    }

    /// What of journal `n` can be shown. Whether its content is hidden is found by an index.
    pub fn view(&self, n: u64) -> View
        ensures { (h : History) → Serves self.now h → result ≡ outcomes.view h n }
    {
        if n >= self.size {
            View::Absent
        } else if n < self.point {
            View::Purged { point: self.point }
        } else {
            match self.hider(n) {
                Some(_) => View::Occulted,
                None => View::Whole,
            }
        }
    }

    /// The header of journal `n`, where it is kept.
    pub fn header(&self, n: u64) -> Option<&Header>
        ensures some { self.now.floor ≤ n → n < self.now.size → IsSome result }
        ensures kept { self.now.floor ≤ n
            → option_copied result ≡ slice_get self.now.headers (n - self.now.floor) }
        ensures header { (h : History) → Serves self.now h
            → option_copied result
            ≡ (if nat_le self.now.floor n then slice_get (headers h) n else None) }
    {
        let at = n.checked_sub(self.floor)?;
        self.headers.get(at as usize)
    }

    /// The leaf digest of journal 0.
    pub fn id(&self) -> Digest
        ensures { (h : History) → Stands self.now h → result.0 ≡ model.id h }
    {
        self.id
    }

    /// The size and the root at the end of the last block that has ended.
    pub fn head(&self) -> Head
        ensures { (h : History) → Stands self.now h → result ≡ head_of h }
    {
        self.head
    }

    /// What the notary is to stamp for an anchor: the digest of the ledger's id, the size and the root at the end of the
    /// last block that has ended. So it is over all journals only where none waits.
    pub fn peg(&self) -> Digest
        ensures peg { (h : History) → Stands self.now h → h.waiting ≡ []
            → result.0 ≡ peg_at h (model.size h) }
        ensures wide { length result.0 ≡ 32 }
    {
        peg_of::<Sha>(&self.id, self.head.size, &self.head.root)
    }

    /// How many blocks have ended.
    pub fn blocks(&self) -> u64
        ensures { (h : History) → Stands self.now h → result ≡ model.blocks h }
    {
        self.blocks
    }

    /// The first journal that a purge has left, or 0, as far as purges behind the first kept header tell it.
    pub fn point(&self) -> u64
        ensures seen { (h : History) → Stands self.now h
            → result ≡ model.seen_point self.now.floor h }
        ensures point { (h : History) → Serves self.now h → result ≡ model.point h }
        ensures value { result ≡ self.now.point }
    {
        self.point
    }

    /// The first journal whose header is kept.
    pub fn floor(&self) -> u64
        ensures { result ≡ self.now.floor }
    {
        self.floor
    }

    /// Whether the purge to the first kept journal is kept, or that journal is the first of all. Behind a base it isn't, until
    /// that purge was placed again.
    pub fn reached(&self) -> bool
        ensures { result ≡ self.now.reached }
    {
        self.reached
    }

    /// How many journals stand in blocks that have ended.
    pub fn sealed_size(&self) -> u64
        ensures value { result ≡ self.now.sealed }
        ensures most { result ≤ self.now.size }
    {
        self.head.size
    }

    /// How many journals there are, with those that wait.
    pub fn size(&self) -> u64
        ensures size { result ≡ self.now.size }
        ensures some { 1 ≤ result }
        ensures fits { result < 2 ^ 32 }
    {
        self.size
    }

    /// How many journals wait in the open block.
    pub fn unsealed(&self) -> u64
        ensures count { (h : History) → Stands self.now h → result ≡ length h.waiting }
        ensures number { self.now.sealed + result ≡ self.now.size }
    {
        self.size - self.head.size
    }

    /// Whether there is no room for a journal of the operator, so that an anchor is refused.
    pub fn full(&self) -> bool
        ensures { (h : History) → Serves self.now h
            → result ≡ is_full self.now.limits.hard self.now.limits h }
    {
        self.size.saturating_sub(self.point) >= self.limits.hard || self.size >= self.limits.size
    }

    /// How many journals a clue has over the whole history, and the numbers of those from the point on, ascending. No
    /// clue has none.
    pub fn clue(&self, clue: &Digest) -> Result<(u32, Vec<u64>), NoMemory>
        ensures count { IfOk result (λ r. (h : History) → Serves self.now h
            → r.0 ≡ length (jsns_with h clue.now)) }
        ensures kept { IfOk result (λ r. (h : History) → Serves self.now h
            → r.1.items ≡ kept_with h clue.now) }
    {
        let point = self.point;
        let (count, mut kept) = self.clues.of(clue)?;
        kept.retain(|jsn| *jsn >= point);
        Ok((count, kept))
    }

    /// The bounds of journal `n` in time: the last time journal in front of it and the first behind it, among those that are
    /// kept. A time journal is no bound of itself. They are found by a search.
    pub fn bounds_of(&self, n: u64) -> (Option<TimeMark>, Option<TimeMark>)
        ensures lower { (h : History) → Serves self.now h
            → result.0 ≡ option_map (λ e. mark_of e.header) (lower_journal h n) }
        ensures upper { (h : History) → Serves self.now h
            → result.1 ≡ option_map (λ e. mark_of e.header) (upper_journal h n) }
    {
        self.times.bounds_of(n)
    }

    /// The tree over all journals, which keeps their leaves from the first kept header on.
    pub fn tree(&self) -> &Tree<Sha>
        ensures is { result.now ≡ self.now.tree }
        ensures stands { (h : History) → Stands self.now h
            → StandsFor sha256 result.now (leaf_digests h) }
        ensures floor { result.now.floor ≡ self.now.floor }
        ensures fits { result.now.size < 2 ^ 32 }
    {
        &self.tree
    }
}
