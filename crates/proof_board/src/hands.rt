//! What a prover is to do in a thread of its own, and what it hands back.

ghost use Rattle.std.specs.Prelude.{IfOk};
ghost use Rattle.proof_board.specs.Hands.{HasProverRoom};

use crate::board::Board;
use crate::pass::ProverPass;
use ledger_bytes::{Digest, NoMemory};
use std::alloc::Global;
use std::snapshot::Snapshot;
use std::thread::{Promise, PromisedHandle};

/// What a prover is to do: `count` proofs of leaves that `seed` determines, each checked under the ledger's `id`.
#[derive(Clone, Copy, Debug, PartialEq, Eq)]
pub struct Task {
    pub id: Digest,
    pub seed: u64,
    pub count: u32,
}

/// What provers side by side are to do: `count` proofs each, checked under the ledger's `id`.
#[derive(Clone, Copy, Debug, PartialEq, Eq)]
pub struct Orders {
    pub id: Digest,
    pub count: u32,
}

/// What a prover did.
#[derive(Clone, Copy, Debug, PartialEq, Eq)]
pub struct Tally {
    /// How many of its proofs were accepted.
    pub accepted: u32,
    /// The size of the tree of its last proof, or where it made none the one that it saw last.
    pub size: u64,
}

/// What comes back from a prover: its pass, and what it did where it didn't lack memory.
#[derive(Drop)]
pub struct Returned {
    pub pass: ProverPass,
    pub tally: Result<Tally, NoMemory>,
}

/// A prover's promise: what it hands back.
#[derive(Drop)]
pub struct Proving {
    pub board: Snapshot<Board>,
    pub pass: Snapshot<ProverPass>,
    pub count: u32,
}

impl Promise<Returned> for Proving {
    ghost use Rattle.proof_board.specs.Returning.{Returns};

    ghost kept_by = { λ p r. Returns p.board.value p.pass.value p.count r };
}

/// What a prover has handed back, or the thread that will.
#[derive(Drop)]
pub enum Hand {
    Here(Returned),
    There(PromisedHandle<Returned, Proving>),
}

/// Room for the hands of provers, and for what they hand back.
#[derive(Drop)]
pub struct Room {
    pub hands: Vec<Hand>,
    pub done: Vec<Returned>,
}

impl Room {
    /// Room for so many provers.
    pub fn new(alloc: Global, provers: usize) -> Result<Room, NoMemory>
        ensures { IfOk result (HasProverRoom provers) }
    {
        Ok(Room {
            hands: Vec::with_capacity(alloc, provers)?,
            done: Vec::with_capacity(alloc, provers)?,
        })
    }
}
