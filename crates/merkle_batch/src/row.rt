//! One level of a tree that grows: its kept nodes, and the room for those to come.

ghost use Rattle.std.specs.Prelude.{◌≡◌, ◌+◌, ◌-◌, ◌/◌, ◌%◌, ◌^◌, ◌<◌, ◌≤◌, [], ◌∷◌, ◌++◌, length, map, take, drop, get_or, IfSome, IfNone, IfOk, OnOk};

use ledger_bytes::{Digest, NoMemory, keep_from};
use std::alloc::Global;
use std::marker::Model;

/// The kept nodes of one level.
#[derive(Drop)]
pub(crate) struct Row {
    nodes: Vec<Digest>,
}

impl Model for Row {
    ghost use Rattle.std.specs.Prelude.{map, vec_capacity};
    ghost use Rattle.merkle_batch.specs.Rows.{Row as RowState};

    ghost Value = { RowState };

    ghost view = { λ r. record {
      nodes = map (λ d. d.0) r.nodes.items;
      room = vec_capacity r.nodes;
    } };
}

impl Row {
    pub(crate) fn new(alloc: Global) -> Self
        ensures { result.nodes ≡ [] }
    {
        Row {
            nodes: Vec::new(alloc),
        }
    }

    // The row of these nodes.
    pub(crate) fn of(alloc: Global, digests: &[Digest]) -> Result<Row, NoMemory>
        ensures { IfOk result (λ row. row.nodes ≡ map (λ d. d.0) digests.now) }
    {
        let mut nodes = Vec::new(alloc);
        nodes.extend_from_slice(digests)?;
        Ok(Row { nodes })
    }

    pub(crate) fn len(&self) -> u64
        ensures { result ≡ length self.now.nodes }
    {
        self.nodes.len() as u64
    }

    // The node at a place, counted from the first that is kept.
    pub(crate) fn at(&self, place: u64) -> Digest
        requires { place < length self.now.nodes }
        ensures { result.0 ≡ get_or self.now.nodes place [] }
    {
        self.nodes[place as usize]
    }

    // The nodes that are kept.
    pub(crate) fn nodes(&self) -> &[Digest]
        ensures { map (λ d. d.0) result.now ≡ self.now.nodes }
    {
        self.nodes.as_slice()
    }

    // A row of the nodes from one place on up to another, both counted from the first that is kept.
    pub(crate) fn copy(&self, alloc: Global, from: u64, to: u64) -> Result<Row, NoMemory>
        requires order { from ≤ to }
        requires within { to ≤ length self.now.nodes }
        ensures { IfOk result (λ row. row.nodes ≡ take (to - from) (drop from self.now.nodes)) }
    {
        Row::of(alloc, &self.nodes[from as usize..to as usize])
    }

    // Sets room aside for so many nodes more. The answer is how many nodes above they complete.
    pub(crate) fn reserve(&mut self, more: u64) -> Result<u64, NoMemory>
        requires { more < 2 ^ 63 }
        ensures nodes { self.new.nodes ≡ self.old.nodes }
        ensures grows { self.old.room ≤ self.new.room }
        ensures ok { OnOk result (length self.new.nodes + more ≤ self.new.room) }
        ensures above { IfOk result (λ above. above ≡ (length self.old.nodes % 2 + more) / 2) }
    {
        self.nodes.reserve(more as usize)?;
        Ok(self.above(more))
    }

    // Adds a node. The answer is the other of its pair, where it is the second.
    pub(crate) fn push(&mut self, digest: Digest) -> Option<Digest>
        requires { length self.old.nodes < self.old.room }
        ensures nodes { self.new.nodes ≡ self.old.nodes ++ digest.0 ∷ [] }
        ensures room { self.new.room ≡ self.old.room }
        ensures other { IfSome result (λ left. (length self.new.nodes % 2 ≡ 0)
            × (left.0 ≡ get_or self.new.nodes (length self.new.nodes - 2) [])) }
        ensures alone { IfNone result (length self.new.nodes % 2 ≡ 1) }
    {
        self.nodes.push_reserved(digest);
        if self.nodes.len() % 2 == 0 {
            Some(self.nodes[self.nodes.len() - 2])
        } else {
            None
        }
    }

    // Adds nodes behind those that are there.
    pub(crate) fn push_all(&mut self, nodes: &[Digest])
        requires { length self.old.nodes + length nodes.now ≤ self.old.room }
        ensures nodes { self.new.nodes ≡ self.old.nodes ++ map (λ d. d.0) nodes.now }
        ensures room { self.new.room ≡ self.old.room }
    {
        for node in nodes {
            self.nodes.push_reserved(*node);
        }
    }

    // Keeps the nodes from a place on alone, and room for so many more. The answer is how many nodes above these
    // complete.
    pub(crate) fn forget(&mut self, count: u64, more: u64) -> u64
        requires within { count ≤ length self.old.nodes }
        requires room { length self.old.nodes + more ≤ self.old.room }
        requires small { more < 2 ^ 63 }
        ensures nodes { self.new.nodes ≡ drop count self.old.nodes }
        ensures room { length self.new.nodes + more ≤ self.new.room }
        ensures above { result ≡ (length self.new.nodes % 2 + more) / 2 }
    {
        if count == 0 {
            return self.above(more);
        }
        keep_from(&mut self.nodes, count as usize, more as usize);
        self.above(more)
    }

    // How many nodes above so many nodes more complete.
    fn above(&self, more: u64) -> u64
        requires { more < 2 ^ 63 }
        ensures { result ≡ (length self.now.nodes % 2 + more) / 2 }
    {
        (self.len() % 2 + more) / 2
    }
}
