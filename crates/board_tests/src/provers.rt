//! Provers make their proofs beside a writer that publishes, and each of these proofs is accepted.

ghost use Rattle.std.specs.Prelude.{◌≡◌, IfOk, All, vec_len};
ghost use Rattle.proof_board.specs.Words.{IsPassOf, IsWriterOf, shown_by};

use crate::trees::{THIRD, digest, tree_of};
use ledger_bytes::{Digest, NoMemory};
use proof_board::{BoardWriter, Orders, Parts, Room, Session, Tally, open_board, prove_beside};
use std::sync::Wait;
use std::test::Fail;

// How many proofs each prover makes, and how many leaves the writer publishes meanwhile.
const PROOFS: u32 = 1000;

const LEAVES: u32 = 200;

// Publishes a leaf many times. How often it could.
fn publish_many<R: Wait>(rt: &R, writer: &mut BoardWriter, leaf: Digest) -> u32
    ensures { (shown_by writer.new).at.book ≡ (shown_by writer.old).at.book }
{
    let mut done = 0u32;
    for _leaf in 0..LEAVES {
        if done < LEAVES && writer.add(&[leaf]).is_ok() && writer.publish(rt).is_ok() {
            done += 1;
        }
    }
    done
}

#[derive(Drop)]
struct Publishing<'a, R> {
    rt: &'a R,
    writer: &'a mut BoardWriter,
    leaf: Digest,
}

impl<'a, R: Wait> Session for Publishing<'a, R> {
    ghost use Rattle.std.specs.Prelude.{◌≡◌};
    ghost use Rattle.proof_board.specs.Words.{shown_by};

    type Back = (&'a mut BoardWriter, u32);

    ghost can = { λ s. Unit {0} };

    ghost gives = { λ s b. (b.0.ghost_name ≡ s.writer.ghost_name)
        × ((shown_by b.0.now).at.book ≡ (shown_by s.writer.now).at.book) };

    fn run(self) -> (&'a mut BoardWriter, u32) {
        let Publishing { rt, writer, leaf } = self;
        let done = publish_many(rt, writer, leaf);
        (writer, done)
    }
}

// A use of the reference that came back, which ties it to the one that was lent.
fn take_back<T>(x: &mut T)
    ensures { x.new ≡ x.old }
{}

#[test]
fn provers_run_beside_the_writer(rt: HostRuntime) -> Result<(), Fail> {
    let alloc = rt.alloc();
    let tree = tree_of(alloc, 2)?;
    let leaf = digest(THIRD)?;
    let room = Room::new(alloc, 2)?;
    let parts = Parts::new(alloc, 2)?;
    let orders = Orders {
        id: Digest::ZERO,
        count: PROOFS,
    };
    if tree.floor() >= tree.size() {
        return Err(NoMemory.into());
    }
    let (board, mut writer, passes) = open_board(&rt, alloc, &tree, 4, 2)?;
    let session = Publishing {
        rt: &rt,
        writer: &mut writer,
        leaf,
    };
    let ((back, published), returned) = prove_beside(&rt, &board, passes, orders, room, session);
    take_back(back);
    let Parts { passes, tallies } = parts.of(returned);
    board.close(&rt, writer, passes);
    assert_eq!(rt; published, LEAVES);
    for tally in tallies.iter() {
        let Ok(Tally { accepted, size }) = tally else {
            panic!(rt; "a prover lacked memory");
        };
        assert!(rt; *accepted == PROOFS && *size >= 2 && *size <= 202);
    }
    assert_eq!(rt; tallies.len(), 2);
    Ok(())
}
