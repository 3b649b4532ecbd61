//! Provers in threads, and a session on the calling thread.

ghost use Rattle.std.specs.Prelude.{◌≡◌, ◌≤◌, ℕ, [], All, List, vec_len, vec_capacity};
ghost use Rattle.proof_board.specs.Words.{IsPassOf};
ghost use Rattle.proof_board.specs.Returning.{Returns};
ghost use Rattle.proof_board.specs.Hands.{Promised, EachGives, HasProverRoom};
ghost use Rattle.proof_board.specs.declared.board.Board.{Board};
ghost use Rattle.proof_board.specs.declared.pass.ProverPass.{ProverPass};

use crate::board::Board;
use crate::hands::{Hand, Orders, Returned, Room, Task};
use crate::pass::ProverPass;
use crate::provers::start;
use std::sync::Wait;
use std::thread;
use std::thread::{Scope, Threads};

/// What runs on the calling thread while provers make their proofs. A scope tells nothing of a `&mut` that its closure holds, so a
/// session that changes something through one gives the reference back.
pub trait Session: Sized {
    type Back;

    /// What has to hold before it runs.
    ghost can: { Self → Type 0 };

    /// What holds of what it gives back.
    ghost gives: { Self → Self.Back → Type 0 };

    fn run(self) -> Self::Back
        requires { can self }
        ensures { gives self result };
}

/// Starts a prover with each of the passes in a scope: the first with seed 0, and so on.
pub fn start_all<'s, 'e: 's, R: Threads + Wait + Sync>(
    scope: &'s Scope<'s, &'e ()>,
    rt: &'e R,
    board: &'e Board,
    passes: Vec<ProverPass>,
    orders: Orders,
    mut hands: Vec<Hand>,
) -> Vec<Hand>
    requires board { All (IsPassOf board.now) passes.items }
    requires room { (hands.items ≡ []) × (vec_len passes ≤ vec_capacity hands) }
    ensures len { vec_len result ≡ vec_len passes }
    ensures promised { EachGives (λ p h. Promised board.now p orders.count h) passes.items result.items }
{
    for pass in passes {
        let task = Task {
            id: orders.id,
            seed: hands.len() as u64,
            count: orders.count,
        };
        let hand = start(scope, rt, board, pass, task);
        hands.push_reserved(hand);
    }
    hands
}

/// Waits for provers that were started, and answers what each of them hands back.
pub fn finish_all<R: Threads>(rt: &R, hands: Vec<Hand>, mut done: Vec<Returned>) -> Vec<Returned>
    requires room { (done.items ≡ []) × (vec_len hands ≤ vec_capacity done) }
    ensures len { vec_len result ≡ vec_len hands }
    ensures returned { (b : Board) (count : ℕ) (passes : List ProverPass)
        → EachGives (λ p h. Promised b p count h) passes hands.items
        → EachGives (λ p r. Returns b p count r) passes result.items }
{
    for hand in hands {
        let returned = hand.finish(rt);
        done.push_reserved(returned);
    }
    done
}

/// Starts a prover with each of the passes, the first with seed 0 and so on, runs the session meanwhile, and waits for the
/// provers. A prover whose thread can't be started makes its proofs before the session runs.
pub fn prove_beside<R: Threads + Wait + Sync, S: Session<Back = B> + Drop, B>(
    rt: &R,
    board: &Board,
    passes: Vec<ProverPass>,
    orders: Orders,
    room: Room,
    session: S,
) -> (B, Vec<Returned>)
    requires board { All (IsPassOf board.now) passes.items }
    requires room { HasProverRoom (vec_len passes) room }
    requires can { S.can session }
    ensures gives { S.gives session result.0 }
    ensures len { vec_len result.1 ≡ vec_len passes }
    ensures provers { EachGives (λ p r. Returns board.now p orders.count r) passes.items result.1.items }
{
    let Room { hands, done } = room;
    thread::scope(
        thread::scope_env(),
        rt,
        move |scope| -> (B, Vec<Returned>)
            requires board { All (IsPassOf board.now) passes.items }
            requires room { (hands.items ≡ []) × (vec_len passes ≤ vec_capacity hands) × (done.items
                ≡ []) × (vec_len passes ≤ vec_capacity done) }
            requires can { S.can session }
            ensures gives { S.gives session result.0 }
            ensures len { vec_len result.1 ≡ vec_len passes }
            ensures provers { EachGives (λ p r. Returns board.entry.now p orders.count r) passes.items result.1.items }
        {
            let hands = start_all(scope, rt, board, passes, orders, hands);
            let back = session.run();
            let done = finish_all(rt, hands, done);
            (back, done)
        },
    )
}
