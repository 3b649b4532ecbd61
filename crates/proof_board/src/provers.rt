//! Provers in threads of their own.

ghost use Rattle.std.specs.Prelude.{◌≡◌, ℕ, IsTrue, IfOk, List};
ghost use Rattle.ledger_disk.specs.Generator.{next_draw};
ghost use Rattle.proof_board.specs.History.{Digests, all_leaves};
ghost use Rattle.proof_board.specs.Growing.{IsListOf};
ghost use Rattle.proof_board.specs.Words.{IsPassOf, base_in, seen_by};
ghost use Rattle.proof_board.specs.Returning.{GoesOn, Returns};
ghost use Rattle.proof_board.specs.Hands.{Promised};
ghost use Rattle.proof_board.specs.declared.board.Board.{Board};
ghost use Rattle.proof_board.specs.declared.pass.ProverPass.{ProverPass};

use crate::board::{Board, BoardErr};
use crate::checking::{Trusted, is_accepted};
use crate::draws::Draws;
use crate::hands::{Hand, Proving, Returned, Tally, Task};
use crate::pass::ProverPass;
use ledger_bytes::{Digest, NoMemory};
use std::snapshot::Snapshot;
use std::sync::Wait;
use std::thread::{Scope, Threads};

// Makes a proof of the next leaf that is drawn among those that the pass saw last, and says whether it is accepted.
fn prove_drawn<R: Wait>(
    rt: &R,
    board: &Board,
    pass: &mut ProverPass,
    draws: &mut Draws,
    id: &Digest,
    trusted: &mut Option<Trusted>,
) -> Result<bool, NoMemory>
    requires { IsPassOf board.now pass.old }
    ensures pass { IsPassOf board.now pass.new × GoesOn pass.old pass.new }
    ensures draws { draws.new.state ≡ next_draw draws.old.state }
    ensures yes { IfOk result (λ yes. (ds : Digests)
        → IsListOf (base_in pass.old) (all_leaves (seen_by pass.new).log) ds → IsTrue yes) }
{
    let n = draws.between(pass.floor(), pass.seen());
    let (head, bytes) = match board.prove(rt, pass, n) {
        Ok(made) => made,
        Err(BoardErr::NoMemory) => return Err(NoMemory),
        Err(BoardErr::Below { p: _p }) => unreachable!(),
        Err(BoardErr::Beyond { size: _size }) => unreachable!(),
    };
    let last = trusted.take();
    let known = Trusted::of(board.alloc, id, last, &head)?;
    let yes = is_accepted(bytes.as_slice(), n, &known.heads);
    *trusted = Some(known);
    Ok(yes)
}

// Makes the proofs of a task, one after the other.
fn work<R: Wait>(rt: &R, board: &Board, pass: ProverPass, task: Task) -> Returned
    requires { IsPassOf board.now pass }
    ensures { Returns board.now pass task.count result }
{
    let mut pass = pass;
    let mut draws = Draws { state: task.seed };
    let mut trusted = None;
    let mut accepted = 0;
    for _k in 0..task.count {
        let drawn = prove_drawn(rt, board, &mut pass, &mut draws, &task.id, &mut trusted);
        let Ok(yes) = drawn else {
            return Returned {
                pass,
                tally: Err(NoMemory),
            };
        };
        if yes {
            accepted += 1;
        }
    }
    let size = pass.seen();
    Returned {
        pass,
        tally: Ok(Tally { accepted, size }),
    }
}

/// Starts a prover in a thread of the scope. Where no thread can be made, its proofs are made here, and it has returned.
pub fn start<'s, 'e: 's, R: Threads + Wait + Sync>(
    scope: &'s Scope<'s, &'e ()>,
    rt: &'e R,
    board: &'e Board,
    pass: ProverPass,
    task: Task,
) -> Hand
    requires { IsPassOf board.now pass }
    ensures { Promised board.now pass task.count result }
{
    let promise = Proving {
        board: Snapshot::of(board),
        pass: Snapshot::of(&pass),
        count: task.count,
    };
    let run = move || -> Returned
        requires { IsPassOf board.now pass }
        ensures { Returns board.entry.now pass task.count result }
    { work(rt, board, pass, task) };
    match scope.spawn_with(promise, run) {
        Ok(child) => Hand::There(child),
        Err(refused) => Hand::Here((refused.value)()),
    }
}

impl Hand {
    /// What the prover hands back, once it has ended.
    pub fn finish<R: Threads>(self, rt: &R) -> Returned
        ensures { (b : Board) (p : ProverPass) (count : ℕ) → Promised b p count self
            → Returns b p count result }
    {
        match self {
            Hand::Here(returned) => returned,
            Hand::There(child) => child.join(rt),
        }
    }
}
