//! A prover and the writer go on by turns, each of which waits for the other: no body that runs both on one thread passes.

ghost use Rattle.std.specs.Prelude.{◌≡◌};
ghost use Rattle.proof_board.specs.Words.{IsPassOf, IsWriterOf};

use crate::trees::{THIRD, digest, open_one, tree_of};
use ledger_bytes::Digest;
use proof_board::{Board, BoardWriter, ProverPass};
use std::sync::Wait;
use std::sync::atomic::{AtomicU64, Ordering};
use std::test::Fail;
use std::thread;
use std::thread::join_mut;

// How many turns one waits for the other.
const MOST_TURNS: u32 = 10_000_000;

// Whether a mark is set within so many turns.
fn comes(mark: &AtomicU64) -> bool {
    for _turn in 0..MOST_TURNS {
        if mark.load(Ordering::SeqCst) != 0 {
            return true;
        }
        thread::yield_now();
    }
    false
}

// What has happened.
#[derive(Drop)]
struct Marks {
    proved: AtomicU64,
    published: AtomicU64,
}

// Proves leaf 1, and again once the writer has published. The sizes of both trees, where the wait was short enough.
fn prove_twice<R: Wait>(
    rt: &R,
    board: &Board,
    pass: &mut ProverPass,
    marks: &Marks,
) -> Option<(u64, u64)>
    requires { IsPassOf board.now pass.old }
    ensures { IsPassOf board.now pass.new }
{
    let first = board.prove(rt, pass, 1);
    marks.proved.store(1, Ordering::SeqCst);
    let came = comes(&marks.published);
    let second = board.prove(rt, pass, 1);
    match (first, second) {
        (Ok((before, _)), Ok((after, _))) if came => Some((before.size, after.size)),
        _ => None,
    }
}

// Publishes a leaf, and again once the prover has its first proof. Whether it did, and the wait was short enough.
fn publish_twice<R: Wait>(
    rt: &R,
    board: &Board,
    writer: &mut BoardWriter,
    leaf: Digest,
    marks: &Marks,
) -> bool
    requires { IsWriterOf board.now writer.old }
    ensures { IsWriterOf board.now writer.new }
{
    let first = writer.add(&[leaf]).is_ok() && writer.publish(rt).is_ok();
    marks.published.store(1, Ordering::SeqCst);
    let came = comes(&marks.proved);
    let second = writer.add(&[leaf]).is_ok() && writer.publish(rt).is_ok();
    first && came && second
}

#[test]
fn a_proof_is_made_between_two_publishes(rt: HostRuntime) -> Result<(), Fail> {
    let alloc = rt.alloc();
    let tree = tree_of(alloc, 2)?;
    let leaf = digest(THIRD)?;
    let marks = Marks {
        proved: AtomicU64::new(0),
        published: AtomicU64::new(0),
    };
    let mut passes = Vec::with_capacity(alloc, 1)?;
    let (board, mut writer, mut pass) = open_one(&rt, alloc, &tree)?;
    let (sizes, published) = join_mut(
        &rt,
        &mut || prove_twice(&rt, &board, &mut pass, &marks),
        &mut || publish_twice(&rt, &board, &mut writer, leaf, &marks),
    );
    passes.push_reserved(pass);
    board.close(&rt, writer, passes);
    assert!(rt; published);
    let Some((before, after)) = sizes else {
        panic!(rt; "the prover waited in vain");
    };
    assert!(rt; before >= 2 && before <= 3 && after >= 3 && after <= 4);
    Ok(())
}
