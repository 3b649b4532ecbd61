//! Journals that are given up.

use crate::books::{
    SALT, apply, demo, digest, is_refused, leaf, place_all, places, replayed_twice,
};
use block_file::Damage;
use ledger_book::{Book, View};
use ledger_bytes::Refusal;
use std::alloc::Global;
use std::process::Abort;
use std::test::Fail;

/// The operator alone wants a purge to the time journal.
const PURGE_OF_ONE: &str =
    "0 purge 3 787ddacff6088f3d7400ab6500682dd4939f72ae8c0d1bb443ea4b9d74eddf09 0:0101010101010101010101010101010101010101010101010101010101010101e343acfd92f3a807ef54ba0d4c1fb5242d6fa5dbe8ce179a2cb16efa6717b6a1";

/// The operator and member 2, whose record goes, want it.
const PURGE: &str =
    "0 purge 3 787ddacff6088f3d7400ab6500682dd4939f72ae8c0d1bb443ea4b9d74eddf09 0:0101010101010101010101010101010101010101010101010101010101010101e343acfd92f3a807ef54ba0d4c1fb5242d6fa5dbe8ce179a2cb16efa6717b6a1,2:030303030303030303030303030303030303030303030303030303030303030300f967e506b4394f8613c4584bad1c0d30eebe48a33ce5b79d7e67af2550ddb6";

/// Nobody wants one to the record behind it.
const PURGE_TO_A_RECORD: &str =
    "0 purge 4 787ddacff6088f3d7400ab6500682dd4939f72ae8c0d1bb443ea4b9d74eddf09 -";

/// The root over the three journals in front of the time journal isn't this one.
const PURGE_OF_ANOTHER_ROOT: &str =
    "0 purge 3 687ddacff6088f3d7400ab6500682dd4939f72ae8c0d1bb443ea4b9d74eddf09 -";

/// The root over these three.
const FRONT: &str = "787ddacff6088f3d7400ab6500682dd4939f72ae8c0d1bb443ea4b9d74eddf09";

/// The leaf digests of the time journal and of the purge.
const TIME_LEAF: &str = "1ceb3d0b84048f750baf678356fb8989ae04df1236712eb09480365eb2b8edcc";

const LEAF: &str = "eeb66dd6d424291c1076bb3a3d772ed0c8f1c298f002660a7b2d9c5b3f29822f";

/// The root over the six journals.
const ROOT: &str = "af7eba02c88f58f4f622d4ff7d85dca0bc0485cd3f1f429831c6e29fd5a2c55e";

/// The ledger `demo` with member 2, its record, a time journal, and one more record.
fn ledger(alloc: Global) -> Result<Book, Fail> {
    let salt = digest(SALT)?;
    let mut book = demo(alloc)?;
    place_all(alloc, &mut book, salt)?;
    Ok(book)
}

#[test]
fn journals_are_given_up_once(rt: HostRuntime) -> Result<(), Fail> {
    let mut book = ledger(rt.alloc())?;
    give_up(&rt, rt.alloc(), &mut book)
}

/// Purges the ledger, where that is approved, and no second time.
fn give_up(rt: &impl Abort, alloc: Global, book: &mut Book) -> Result<(), Fail> {
    let salt = digest(SALT)?;
    let kept = digest(FRONT)?;
    for (line, refusal) in [
        (PURGE_OF_ONE, Refusal::MissingApproval { member: 2 }),
        (PURGE_TO_A_RECORD, Refusal::NotTime { kind: 1 }),
        (PURGE_OF_ANOTHER_ROOT, Refusal::RootDiffers { kept }),
    ] {
        assert!(rt; is_refused(alloc, book, line, salt, refusal)?);
    }
    assert!(rt; book.view(0) == View::Whole);
    assert!(rt; places(alloc, book, PURGE, salt, (5, digest(LEAF)?))?);
    assert!(rt; book.view(2) == View::Purged { point: 3 } && book.view(3) == View::Whole);
    assert!(rt; is_refused(alloc, book, PURGE, salt, Refusal::Purged { point: 3 })?);
    let head = book.head();
    assert!(rt; head.size == 6 && head.root == digest(ROOT)?);
    Ok(())
}

#[test]
fn a_purge_is_replayed_once(rt: HostRuntime) -> Result<(), Fail> {
    let mut book = ledger(rt.alloc())?;
    give_up_and_replay(&rt, rt.alloc(), &mut book)
}

/// Purges the ledger, and replays its headers, the last one twice.
fn give_up_and_replay(rt: &impl Abort, alloc: Global, book: &mut Book) -> Result<(), Fail> {
    apply(alloc, book, PURGE, digest(SALT)?)?;
    let time_leaf = digest(TIME_LEAF)?;
    assert!(rt; leaf(book, 3)? == time_leaf);
    let (view, told) = replayed_twice(alloc, book, 2)?;
    assert!(rt; view == View::Purged { point: 3 } && told == Err(Damage::Entry { jsn: 6 }));
    Ok(())
}
