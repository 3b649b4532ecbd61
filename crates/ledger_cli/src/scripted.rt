//! A script's run on the calling thread, with provers in threads beside it.

ghost use Rattle.std.specs.Prelude.{◌≡◌, ◌≤◌, [], All, vec_len, vec_capacity};
ghost use Rattle.proof_board.specs.Hands.{EachGives, HasProverRoom};
ghost use Rattle.proof_board.specs.Returning.{Returns};
ghost use Rattle.proof_board.specs.Words.{IsPassOf};

use batch_committer::Committer;
use proof_board::{Board, Orders, ProverPass, Returned, Room, finish_all, start_all};
use std::sync::Wait;
use std::thread;
use std::thread::Threads;

/// Starts a prover with each of the passes, runs a script meanwhile, and waits for the provers. A prover whose thread can't be
/// started makes its proofs before the script runs. A scope tells nothing of a `&mut` that its closure holds, so what the script's
/// run is lent has a type of its own here, and comes back.
pub(crate) fn side_by_side<R: Threads + Wait + Sync, H: Drop, B, F: FnOnce(H) -> B + Drop>(
    rt: &R,
    board: &Board,
    passes: Vec<ProverPass>,
    orders: Orders,
    room: Room,
    lent: H,
    run: F,
) -> (B, Vec<Returned>)
    requires board { All (IsPassOf board.now) passes.items }
    requires room { HasProverRoom (vec_len passes) room }
    requires may { F.pre run lent }
    ensures did { F.post run lent result.0 }
    ensures len { vec_len result.1 ≡ vec_len passes }
    ensures provers { EachGives (λ p r. Returns board.now p orders.count r) passes.items result.1.items }
{
    let Room { hands, done } = room;
    thread::scope(
        thread::scope_env(),
        rt,
        move |scope| -> (B, Vec<Returned>)
            requires board { All (IsPassOf board.now) passes.items }
            requires room { (hands.items ≡ []) × (vec_len passes ≤ vec_capacity hands) × (done.items
                ≡ []) × (vec_len passes ≤ vec_capacity done) }
            requires may { F.pre run lent }
            ensures did { F.post run lent result.0 }
            ensures len { vec_len result.1 ≡ vec_len passes }
            ensures provers { EachGives (λ p r. Returns board.entry.now p orders.count r) passes.items result.1.items }
        {
            let hands = start_all(scope, rt, board, passes, orders, hands);
            let back = run(lent);
            let done = finish_all(rt, hands, done);
            (back, done)
        },
    )
}

/// What a script is run on. Each reference has a lifetime of its own, since each was handed in by itself.
#[derive(Drop)]
pub(crate) struct Script<'c, 'a, 'b, 'f, 's, 'n, 'w, S, K, D, N, W> {
    pub(crate) committer: &'c mut Committer,
    pub(crate) a: &'a mut D,
    pub(crate) b: &'b mut D,
    pub(crate) source: &'f mut S,
    pub(crate) sink: &'s mut K,
    pub(crate) notary: &'n mut N,
    pub(crate) follower: &'w mut W,
}
