//! A long ledger, and its headers replayed.

ghost use Rattle.std.specs.Prelude.{◌≡◌, true, IfOk};
ghost use Rattle.journal_record.specs.Rules.{IsHeader};
ghost use Rattle.ledger_model.specs.Fitting.{fits_job};
ghost use Rattle.ledger_model.specs.Limits.{AreWithin};

use block_file::Damage;
use hex::FromHex;
use journal_record::{
    Approval, Header, Kind, Stamp, approval_digest, content_digest, request_digest,
};
use ledger_book::{Book, Genesis, Job, Limits, Outcome};
use ledger_bytes::{BLOCK_LIMIT, Bytes, Digest, NoMemory, Refusal, Sha, TimeMark};
use merkle_tree::{Head, leaf_of};
use std::alloc::Global;
use std::process::Abort;
use std::test::Fail;

const OPERATOR: Digest = Digest([1; 32]);

const REGULATOR: Digest = Digest([2; 32]);

/// The root over the first journal and 262,144 records, each with a clue of its own.
const ROOT: &str = "81cd2fa21f33f9b8809f4f15dfaa5d919c13707f1d0a89ffa1632da6db4adeb2";

/// The clue whose bytes are this number.
fn clue_of(number: u64) -> Digest {
    let mut bytes = [0; 32];
    bytes[24..].copy_from_slice(&number.to_be_bytes());
    Digest(bytes)
}

/// The job of an empty record of the operator.
fn record(alloc: Global, id: &Digest, number: u64) -> Result<Job, NoMemory>
    ensures { IfOk result (λ job. fits_job job ≡ true) }
{
    let clue = clue_of(number);
    let content = Bytes::copy_of(alloc, b"")?;
    let digest = content_digest(content.as_slice());
    let request = request_digest(id, 0, &clue, 0, &digest, 0);
    let by = Approval {
        member: 0,
        key: Some(OPERATOR),
        proof: Bytes::copy_of(alloc, b"")?,
    };
    let who = approval_digest(&by);
    Ok(Job::Append {
        member: 0,
        clue,
        content,
        content_digest: digest,
        request,
        by,
        who,
        number: 0,
    })
}

/// Whether a journal was placed.
fn is_placed(outcome: &Outcome) -> bool {
    matches!(outcome, Outcome::Placed(_))
}

/// Ends the open block where it is full.
fn end_full(book: &mut Book) {
    if book.unsealed() >= BLOCK_LIMIT {
        book.seal();
    }
}

/// Places the record with this number.
fn place(rt: &impl Abort, alloc: Global, book: &mut Book, number: u64) -> Result<(), NoMemory> {
    let job = record(alloc, &book.id(), number)?;
    let outcome = book.apply(&job)?;
    assert!(rt; is_placed(&outcome));
    end_full(book);
    Ok(())
}

/// Places an anchor that has the entry with this index, in a block of its own.
fn anchor(rt: &impl Abort, book: &mut Book, index: u8) -> Result<(), NoMemory> {
    let stamp = Stamp {
        index: u64::from(index),
        time: 1_000,
        salt: Digest([3; 32]),
    };
    book.seal();
    let asked = book.apply(&Job::Anchor)?;
    assert!(rt; asked == Outcome::StampWanted);
    if let Outcome::StampWanted = asked {
        book.place_time(&stamp)?;
    }
    book.seal();
    Ok(())
}

/// The first journal of the ledger `demo`.
fn demo(alloc: Global) -> Result<Genesis, NoMemory> {
    Ok(Genesis {
        name: Bytes::copy_of(alloc, b"demo")?,
        operator: OPERATOR,
        regulator: REGULATOR,
    })
}

/// The ledger `demo` with that many records, in blocks of 64.
fn ledger_of(rt: &impl Abort, alloc: Global, records: u64) -> Result<Book, NoMemory> {
    let mut book = Book::new(alloc, &demo(alloc)?, Limits::real())?;
    for number in 1..=records {
        place(rt, alloc, &mut book, number)?;
    }
    Ok(book)
}

/// The header with these bytes.
fn read_again(header: &Header) -> Result<Header, Fail>
    ensures { IfOk result IsHeader }
{
    Ok(Header::decode(&header.encode()).map_err(|_| "not read")?)
}

/// The book of the first header.
fn begun(alloc: Global, header: &Header) -> Result<Book, Fail> {
    let header = read_again(header)?;
    match header.kind {
        Kind::Genesis => Ok(Book::from_first(
            alloc,
            &header,
            &OPERATOR,
            &REGULATOR,
            Limits::real(),
        )?),
        _ => Err("no genesis".into()),
    }
}

/// Replays a header.
fn take(book: &mut Book, header: &Header) -> Result<Result<(), Damage>, Fail> {
    let header = read_again(header)?;
    Ok(book.replay(&header, &leaf_of::<Sha>(&header.encode()))?)
}

/// Looks at the clue of record `number`, and replays its header.
fn replay(
    rt: &impl Abort,
    book: &Book,
    again: &mut Book,
    number: u64,
) -> Result<Result<(), Damage>, Fail> {
    let (count, jsns) = book.clue(&clue_of(number))?;
    assert!(rt; count == 1 && jsns.as_slice() == [number].as_slice());
    let header = book.header(number).ok_or("no header")?;
    let told = take(again, header)?;
    end_full(again);
    Ok(told)
}

/// Replays the headers of a book behind its first.
fn replay_all(rt: &impl Abort, book: &Book, again: &mut Book) -> Result<(), Fail> {
    for number in 1..book.head().size {
        assert!(rt; replay(rt, book, again, number)? == Ok(()));
    }
    Ok(())
}

/// Whether a book has the first journal and 262,144 records.
fn is_long(book: &Book) -> Result<bool, Fail> {
    let head = Head {
        size: 262_145,
        root: Digest(<[u8; 32]>::from_hex(ROOT)?),
    };
    Ok(book.head() == head && book.blocks() == 4_097)
}

#[test]
fn a_long_ledger_is_replayed(rt: HostRuntime) -> Result<(), Fail> {
    let book = ledger_of(&rt, rt.alloc(), 262_144)?;
    is_replayed(&rt, rt.alloc(), &book)
}

/// A book that is made of the headers of a long one is as long.
fn is_replayed(rt: &impl Abort, alloc: Global, book: &Book) -> Result<(), Fail> {
    assert!(rt; is_long(book)?);
    let mut again = begun(alloc, book.header(0).ok_or("no header")?)?;
    is_long_once_replayed(rt, book, &mut again)
}

fn is_long_once_replayed(rt: &impl Abort, book: &Book, again: &mut Book) -> Result<(), Fail> {
    replay_all(rt, book, again)?;
    assert!(rt; is_long(again)? && again.id() == book.id());
    Ok(())
}

/// Replays the header of this journal of `book`.
fn take_of(book: &Book, again: &mut Book, number: u64) -> Result<Result<(), Damage>, Fail> {
    take(again, book.header(number).ok_or("no header")?)
}

/// Replays the header of this journal of `book` as the second of its clue, behind journal 1.
fn take_as_second(book: &Book, again: &mut Book, number: u64) -> Result<Result<(), Damage>, Fail> {
    let second = Header {
        clue_ord: 2,
        clue_prev: 1,
        ..*book.header(number).ok_or("no header")?
    };
    take(again, &second)
}

/// What is answered to the headers of journals that are replayed in this order.
const OUT_OF_ORDER: [(u64, Result<(), Damage>); 5] = [
    (0, Err(Damage::Entry { jsn: 1 })),
    (2, Err(Damage::Entry { jsn: 1 })),
    (1, Ok(())),
    (1, Err(Damage::Entry { jsn: 2 })),
    (2, Ok(())),
];

/// Replays headers out of order.
fn replay_out_of_order(rt: &impl Abort, book: &Book, again: &mut Book) -> Result<(), Fail> {
    for (number, told) in &OUT_OF_ORDER {
        assert!(rt; take_of(book, again, *number)? == *told);
    }
    assert!(rt; take_as_second(book, again, 3)? == Err(Damage::Entry { jsn: 3 }));
    assert!(rt; take_of(book, again, 3)? == Ok(()));
    assert_eq!(rt; again.unsealed(), 3);
    Ok(())
}

/// A new book whose headers are replayed out of order.
fn begin_out_of_order(rt: &impl Abort, alloc: Global, book: &Book) -> Result<(), Fail> {
    let mut again = begun(alloc, book.header(0).ok_or("no header")?)?;
    replay_out_of_order(rt, book, &mut again)
}

#[test]
fn what_is_not_next_is_refused(rt: HostRuntime) -> Result<(), Fail> {
    let book = ledger_of(&rt, rt.alloc(), 3)?;
    begin_out_of_order(&rt, rt.alloc(), &book)
}

#[test]
fn a_journal_lies_between_anchors(rt: HostRuntime) -> Result<(), Fail> {
    let mut book = ledger_of(&rt, rt.alloc(), 3)?;
    anchor_twice(&rt, rt.alloc(), &mut book)
}

/// Places a record between two anchors.
fn anchor_twice(rt: &impl Abort, alloc: Global, book: &mut Book) -> Result<(), Fail> {
    anchor(rt, book, 0)?;
    place(rt, alloc, book, 4)?;
    anchor(rt, book, 1)?;
    let lower = TimeMark {
        jsn: 4,
        index: 0,
        time: 1_000,
    };
    let upper = TimeMark {
        jsn: 6,
        index: 1,
        time: 1_000,
    };
    assert!(rt; book.bounds_of(5) == (Some(lower), Some(upper)));
    Ok(())
}

/// The limits of a ledger that is full for its members once it has two journals.
fn two_journals() -> Limits
    ensures { AreWithin result }
{
    Limits {
        soft: 2,
        ..Limits::real()
    }
}

#[test]
fn a_full_ledger_takes_anchors(rt: HostRuntime) -> Result<(), Fail> {
    let alloc = rt.alloc();
    let mut book = Book::new(alloc, &demo(alloc)?, two_journals())?;
    fill_and_anchor(&rt, alloc, &mut book)
}

/// Places a record, no second one, and an anchor.
fn fill_and_anchor(rt: &impl Abort, alloc: Global, book: &mut Book) -> Result<(), Fail> {
    place(rt, alloc, book, 1)?;
    let full = Refusal::Full { kept: 2, size: 2 };
    assert!(rt; refuses(alloc, book, full)?);
    anchor(rt, book, 0)?;
    assert_eq!(rt; (book.head().size, book.full()), (3, false));
    Ok(())
}

/// Whether a second record is refused, and for this cause.
fn refuses(alloc: Global, book: &mut Book, refusal: Refusal) -> Result<bool, NoMemory> {
    let job = record(alloc, &book.id(), 2)?;
    Ok(book.apply(&job)? == Outcome::Refused(refusal))
}
