//! Consecutive leaves with the nodes that depend on them alone.

ghost use Rattle.std.specs.Prelude.{◌≡◌, length, map, IfOk};

use crate::joining::rows_over;
use crate::row::Row;
use ledger_bytes::{Digest, NoMemory, TreeHash};
use std::alloc::Global;
use std::marker::{Model, PhantomData};

/// Consecutive leaves, with the nodes that depend on them alone. A tree that ends where they begin takes them without
/// hashing these nodes again.
#[derive(Drop)]
pub struct Stretch<H: TreeHash> {
    pub(crate) start: u64,
    pub(crate) rows: Vec<Row>,
    pub(crate) hash: PhantomData<H>,
}

impl<H: TreeHash> Model for Stretch<H> {
    ghost use Rattle.merkle_batch.specs.Stretches.{Leaves, HoldsNodes, lowest};

    ghost Value = { Leaves };

    ghost view = { λ s. record {
      start = s.start;
      leaves = lowest s.rows.items;
    } };

    ghost invariant = { λ s. HoldsNodes H.of s.start s.rows.items };
}

impl<H: TreeHash> Stretch<H> {
    /// The stretch of these leaves, of which the first stands at `start`. Each of its nodes is hashed once.
    pub fn of(alloc: Global, start: u64, leaves: &[Digest]) -> Result<Self, NoMemory>
        ensures start { IfOk result (λ s. s.start ≡ start) }
        ensures leaves { IfOk result (λ s. s.leaves ≡ map (λ d. d.0) leaves.now) }
    {
        let lowest = Row::of(alloc, leaves)?;
        let mut rows = Vec::new(alloc);
        rows_over::<H>(alloc, &mut rows, start, lowest)?;
        Ok(Stretch {
            start,
            rows,
            hash: PhantomData,
        })
    }

    /// The place of its first leaf.
    pub fn start(&self) -> u64
        ensures { result ≡ self.now.start }
    {
        self.start
    }

    /// How many leaves it has.
    pub fn len(&self) -> u64
        ensures { result ≡ length self.now.leaves }
    {
        self.leaves().len() as u64
    }

    /// The digests of its leaves.
    pub fn leaves(&self) -> &[Digest]
        ensures { map (λ d. d.0) result.now ≡ self.now.leaves }
    {
        match self.rows.as_slice() {
            [] => &[],
            [row, ..] => row.nodes(),
        }
    }
}
