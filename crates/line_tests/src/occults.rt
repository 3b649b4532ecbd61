//! A content that is hidden, and those of a clue.

use crate::books::{MEMBER, apply, demo, digest, is_refused, places, replayed_twice};
use block_file::Damage;
use ledger_book::{Book, View};
use ledger_bytes::{Digest, NoMemory, Refusal};
use std::alloc::Global;
use std::process::Abort;
use std::test::Fail;

/// Member 2 places a record, which is journal 2.
const RECORD: &str =
    "0 append 2 inv 616263 03030303030303030303030303030303030303030303030303030303030303031c73656160873b10becb5d4a75a046056d790b17f79672513778ab540c22c6df";

/// The operator and the regulator hide its content.
const OCCULT: &str =
    "0 occult 2 d5bafe4ff5eb75d98a360fd0a779d19ac6abbd6e75a890c22a7d59c35f349099 0:0101010101010101010101010101010101010101010101010101010101010101e90cbb0138367a4957a7df2342d6e20b6c004dabd3ce9a7422a38647ebcf69cd,1:020202020202020202020202020202020202020202020202020202020202020221844395d669c0f0d68fc9c363fae3522d0d440e0b8733a86f50666aca19d299";

/// They want to hide that of journal 0.
const OCCULT_OF_THE_FIRST: &str =
    "0 occult 0 d5bafe4ff5eb75d98a360fd0a779d19ac6abbd6e75a890c22a7d59c35f349099 0:0101010101010101010101010101010101010101010101010101010101010101c51b4fdc8e16923d8b5a3318eca91324a5b870adaaac31e7beedeb46c0033b07,1:020202020202020202020202020202020202020202020202020202020202020286c8b50bb59d1bd685f58aa73537120602ae1c0818b56fc1ba7d96fefa9a31c3";

/// Nobody wants to hide that of journal 99.
const OCCULT_OF_NONE: &str =
    "0 occult 99 d5bafe4ff5eb75d98a360fd0a779d19ac6abbd6e75a890c22a7d59c35f349099 -";

/// They hide those of the one record that the clue has.
const CLUE_OCCULT: &str =
    "0 occultclue inv 1 0:0101010101010101010101010101010101010101010101010101010101010101bb37fdc051a8da36d09cff6bf3eb6c9bed1dfda89772146099beb234723904d1,1:0202020202020202020202020202020202020202020202020202020202020202d71f24f748f26996199520fdb464fffabab149619b7d4e2c5908a7b5ba4df7b2";

/// They hide those of the two that it has behind a further one.
const CLUE_OCCULT_OF_TWO: &str =
    "0 occultclue inv 2 0:01010101010101010101010101010101010101010101010101010101010101016d6d7bafe91e9e52db641e374d81494154952edd90429a30e9661581c8baa803,1:020202020202020202020202020202020202020202020202020202020202020218f002a6d2abe83cff8b821c14f26545257c3000bc44db8d9c5465847a1d652f";

/// The leaf digests of these two, and the root over the six journals.
const CLUE_LEAF: &str = "cfe5cbc41749ae8e08cfd084f1f1b390ba10e12b0a7d36e5d0452b472b5b73bb";

const CLUE_LEAF_OF_TWO: &str = "13d39e3514443538cf39a933f3d0a723373209343659fdfba95a46c8c2e7a747";

const ROOT_OF_SIX: &str = "fcb169028679a0d28fefb66de2fe42396334b86cb55b3e2664e9b0df42ee381e";

/// The leaf digest of the occult.
const LEAF: &str = "03f122875163bfe1022f683e397e14fd9fc8c3807b3044f7fbe98955017a046f";

/// The root over the four journals.
const ROOT: &str = "27b8df5a03a5444d8a398fe928edf7bcbc7dcb4c01d473ecf21d55bb59168fad";

/// The ledger `demo` with member 2 and its record.
fn ledger(alloc: Global) -> Result<Book, NoMemory> {
    let mut book = demo(alloc)?;
    apply(alloc, &mut book, MEMBER, Digest::ZERO)?;
    apply(alloc, &mut book, RECORD, Digest::ZERO)?;
    Ok(book)
}

#[test]
fn a_content_is_hidden_once(rt: HostRuntime) -> Result<(), Fail> {
    let mut book = ledger(rt.alloc())?;
    hide(&rt, rt.alloc(), &mut book)
}

/// Hides the content of the record, no second time, and no other.
fn hide(rt: &impl Abort, alloc: Global, book: &mut Book) -> Result<(), Fail> {
    assert!(rt; book.view(2) == View::Whole);
    assert!(rt; places(alloc, book, OCCULT, Digest::ZERO, (3, digest(LEAF)?))?);
    assert!(rt; book.view(2) == View::Occulted && book.view(3) == View::Whole);
    for (line, refusal) in [
        (OCCULT, Refusal::AlreadyOcculted { by: 3 }),
        (OCCULT_OF_THE_FIRST, Refusal::NotData { kind: 0 }),
        (OCCULT_OF_NONE, Refusal::NoJournal { size: 4 }),
    ] {
        assert!(rt; is_refused(alloc, book, line, Digest::ZERO, refusal)?);
    }
    let head = book.head();
    assert!(rt; head.size == 4 && head.root == digest(ROOT)?);
    Ok(())
}

#[test]
fn a_clue_is_hidden_up_to_its_occult(rt: HostRuntime) -> Result<(), Fail> {
    let mut book = ledger(rt.alloc())?;
    hide_clue(&rt, rt.alloc(), &mut book)
}

/// Hides the record of the clue, and then a further one. It is whole until then.
fn hide_clue(rt: &impl Abort, alloc: Global, book: &mut Book) -> Result<(), Fail> {
    assert!(rt;
        places(
            alloc,
            book,
            CLUE_OCCULT,
            Digest::ZERO,
            (3, digest(CLUE_LEAF)?)
        )?
    );
    assert!(rt; book.view(2) == View::Occulted && book.view(3) == View::Whole);
    for (line, refusal) in [
        (CLUE_OCCULT, Refusal::NothingToHide),
        (OCCULT, Refusal::AlreadyOcculted { by: 3 }),
        ("0 occultclue inv 2 -", Refusal::ClueDiffers { count: 1 }),
        ("0 occultclue - 1 -", Refusal::ClueDiffers { count: 0 }),
    ] {
        assert!(rt; is_refused(alloc, book, line, Digest::ZERO, refusal)?);
    }
    apply(alloc, book, RECORD, Digest::ZERO)?;
    assert!(rt; book.view(2) == View::Occulted && book.view(4) == View::Whole);
    let placed = (5, digest(CLUE_LEAF_OF_TWO)?);
    assert!(rt; places(alloc, book, CLUE_OCCULT_OF_TWO, Digest::ZERO, placed)?);
    assert!(rt; book.view(2) == View::Occulted && book.view(4) == View::Occulted);
    let head = book.head();
    assert!(rt; head.size == 6 && head.root == digest(ROOT_OF_SIX)?);
    Ok(())
}

#[test]
fn an_occult_is_replayed_once(rt: HostRuntime) -> Result<(), Fail> {
    let mut book = ledger(rt.alloc())?;
    hide_and_replay(&rt, rt.alloc(), &mut book, OCCULT)
}

#[test]
fn an_occult_by_clue_is_replayed_once(rt: HostRuntime) -> Result<(), Fail> {
    let mut book = ledger(rt.alloc())?;
    hide_and_replay(&rt, rt.alloc(), &mut book, CLUE_OCCULT)
}

/// Hides the content of the record by this line, and replays the ledger's headers, the last one twice.
fn hide_and_replay(
    rt: &impl Abort,
    alloc: Global,
    book: &mut Book,
    line: &str,
) -> Result<(), Fail> {
    apply(alloc, book, line, Digest::ZERO)?;
    let (view, told) = replayed_twice(alloc, book, 2)?;
    assert!(rt; view == View::Occulted && told == Err(Damage::Entry { jsn: 4 }));
    Ok(())
}
