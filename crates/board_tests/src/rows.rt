//! Worked answers of a board, whose proofs are spelled out.

use crate::trees::{ROOT_OF_THREE, ROOT_OF_TWO, THIRD, digest, open_one, tree_of};
use ledger_bytes::Bytes;
use merkle_tree::Head;
use proof_board::BoardErr;
use std::alloc::{AllocError, Global};
use std::test::Fail;

// The proof of leaf 1 of two: version, size, number, leaf, path behind its count, and two flags.
const OF_TWO: &str = "01\
    0000000000000002\
    0000000000000001\
    b413f47d13ee2fe6c845b2ee141af81de858df4ec549a58b7970bb96645bc8d2\
    01\
    96a296d224f285c67bee93c30f8a309157f0daa35dc5b87e410b78630a09cfc7\
    0000";

// The proof of leaf 1 of three.
const OF_THREE: &str = "01\
    0000000000000003\
    0000000000000001\
    b413f47d13ee2fe6c845b2ee141af81de858df4ec549a58b7970bb96645bc8d2\
    02\
    96a296d224f285c67bee93c30f8a309157f0daa35dc5b87e410b78630a09cfc7\
    fcf0a6c700dd13e274b6fba8deea8dd9b26e4eedde3495717cac8408c9c5177f\
    0000";

// The proof of leaf 2 of three.
const LAST_OF_THREE: &str = "01\
    0000000000000003\
    0000000000000002\
    fcf0a6c700dd13e274b6fba8deea8dd9b26e4eedde3495717cac8408c9c5177f\
    01\
    a20bf9a7cc2dc8a08f5f415a71b19f6ac427bab54d24eec868b5d3103449953a\
    0000";

// Is this the answer with this head and a proof of these digits?
fn is_answer(
    alloc: Global,
    answer: &Result<(Head, Bytes), BoardErr>,
    head: Head,
    digits: &str,
) -> Result<bool, AllocError> {
    match answer {
        Ok((told, bytes)) => {
            Ok(*told == head && hex::encode(alloc, bytes.as_slice())?.as_str() == digits)
        }
        Err(_) => Ok(false),
    }
}

#[test]
fn a_prover_sees_what_it_was_told_of(rt: HostRuntime) -> Result<(), Fail> {
    let alloc = rt.alloc();
    let tree = tree_of(alloc, 2)?;
    let third = digest(THIRD)?;
    let two = Head {
        size: 2,
        root: digest(ROOT_OF_TWO)?,
    };
    let three = Head {
        size: 3,
        root: digest(ROOT_OF_THREE)?,
    };
    let mut passes = Vec::with_capacity(alloc, 1)?;
    let (board, mut writer, mut pass) = open_one(&rt, alloc, &tree)?;
    let first = board.prove(&rt, &mut pass, 1);
    let seen = pass.seen();
    let added = writer.add(&[third]);
    let published = writer.publish(&rt);
    writer.tell(&mut pass);
    let second = board.prove(&rt, &mut pass, 1);
    let beyond = board.prove(&rt, &mut pass, 3);
    let seen_then = pass.seen();
    passes.push_reserved(pass);
    board.close(&rt, writer, passes);
    assert!(rt; is_answer(alloc, &first, two, OF_TWO)?);
    assert!(rt; added.is_ok() && published == Ok(three));
    assert!(rt; is_answer(alloc, &second, three, OF_THREE)?);
    assert!(rt; matches!(beyond, Err(BoardErr::Beyond { size: 3 })));
    assert_eq!(rt; (seen, seen_then), (2, 3));
    Ok(())
}

#[test]
fn leaves_below_the_floor_are_not_proved(rt: HostRuntime) -> Result<(), Fail> {
    let alloc = rt.alloc();
    let mut tree = tree_of(alloc, 3)?;
    tree.forget_below(2)?;
    let three = Head {
        size: 3,
        root: digest(ROOT_OF_THREE)?,
    };
    let mut passes = Vec::with_capacity(alloc, 1)?;
    let (board, writer, mut pass) = open_one(&rt, alloc, &tree)?;
    let below = board.prove(&rt, &mut pass, 1);
    let last = board.prove(&rt, &mut pass, 2);
    passes.push_reserved(pass);
    board.close(&rt, writer, passes);
    assert!(rt; matches!(below, Err(BoardErr::Below { p: 2 })));
    assert!(rt; is_answer(alloc, &last, three, LAST_OF_THREE)?);
    Ok(())
}
