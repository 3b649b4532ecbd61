//! Lines of a script prepared and applied to a book, and its headers replayed.

ghost use Rattle.std.specs.Prelude.{◌<◌, IfOk};
ghost use Rattle.journal_record.specs.Rules.{IsHeader};

use block_file::Damage;
use hex::FromHex;
use journal_record::{Header, Kind, Stamp};
use lane_work::prepare;
use ledger_book::{Book, Genesis, Job, Limits, Outcome, View};
use ledger_bytes::{Bytes, Digest, NoMemory, Refusal, Sha};
use member_book::TagScheme;
use merkle_tree::leaf_of;
use std::alloc::Global;
use std::test::Fail;

const OPERATOR: Digest = Digest([1; 32]);

const REGULATOR: Digest = Digest([2; 32]);

/// Member 2 is admitted.
pub(crate) const MEMBER: &str =
    "0 member 2 0303030303030303030303030303030303030303030303030303030303030303 01010101010101010101010101010101010101010101010101010101010101016e2700604cd288e681c238fa71ae802ef173e93907477f0111a56a7be4890e8c";

/// Member 2 places a record without a content.
const RECORD: &str =
    "0 append 2 - - 0303030303030303030303030303030303030303030303030303030303030303f7883fcc812a608a0fc1facb9db3695d6a79994b1d3a982a0680d6a5c87dfef4";

/// The salt of the time journal, which is journal 3.
pub(crate) const SALT: &str = "8b3b30a051bca9ec8bacbfaf3a351389842d99f1769a4959994077e9ec8d8757";

pub(crate) fn digest(text: &str) -> Result<Digest, Fail> {
    Ok(Digest(<[u8; 32]>::from_hex(text)?))
}

/// The book of the new ledger `demo`.
pub(crate) fn demo(alloc: Global) -> Result<Book, NoMemory> {
    let genesis = Genesis {
        name: Bytes::copy_of(alloc, b"demo")?,
        operator: OPERATOR,
        regulator: REGULATOR,
    };
    Book::new(alloc, &genesis, Limits::real())
}

/// Places the time journal of an anchor, with entry 0 and this salt, where the ledger accepts it.
fn anchor(book: &mut Book, salt: Digest) -> Result<Outcome, NoMemory> {
    let stamp = Stamp {
        index: 0,
        time: 1_000,
        salt,
    };
    match book.apply(&Job::Anchor)? {
        Outcome::StampWanted => Ok(Outcome::Placed(book.place_time(&stamp)?)),
        outcome => Ok(outcome),
    }
}

/// Prepares a line and applies it, with the block ends that its job wants and this salt for an anchor.
pub(crate) fn apply(
    alloc: Global,
    book: &mut Book,
    line: &str,
    salt: Digest,
) -> Result<Outcome, NoMemory> {
    let item = prepare(alloc, &TagScheme, &book.id(), 1, line.as_bytes())?;
    if item.job.closes_before() {
        book.seal();
    }
    let outcome = match &item.job {
        Job::Anchor => anchor(book, salt)?,
        job => book.apply(job)?,
    };
    if item.job.closes_after() {
        book.seal();
    }
    Ok(outcome)
}

/// Places member 2, its record, a time journal, and one more record.
pub(crate) fn place_all(alloc: Global, book: &mut Book, salt: Digest) -> Result<(), NoMemory> {
    for line in [MEMBER, RECORD, "0 anchor", RECORD] {
        apply(alloc, book, line, salt)?;
    }
    Ok(())
}

/// Whether a line places a journal that has this number and this leaf digest.
pub(crate) fn places(
    alloc: Global,
    book: &mut Book,
    line: &str,
    salt: Digest,
    (jsn, leaf): (u64, Digest),
) -> Result<bool, NoMemory> {
    match apply(alloc, book, line, salt)? {
        Outcome::Placed(placed) => Ok(placed.jsn == jsn && placed.leaf == leaf),
        _ => Ok(false),
    }
}

/// Whether a line is refused, and for this cause.
pub(crate) fn is_refused(
    alloc: Global,
    book: &mut Book,
    line: &str,
    salt: Digest,
    refusal: Refusal,
) -> Result<bool, NoMemory> {
    Ok(apply(alloc, book, line, salt)? == Outcome::Refused(refusal))
}

/// The header with these bytes.
fn read_again(header: &Header) -> Result<Header, Fail>
    ensures { IfOk result IsHeader }
{
    Ok(Header::decode(&header.encode()).map_err(|_| "not read")?)
}

/// The book of a ledger's first header.
fn begun(alloc: Global, header: &Header) -> Result<Book, Fail> {
    let header = read_again(header)?;
    match header.kind {
        Kind::Genesis => Ok(Book::from_first(
            alloc,
            &header,
            &OPERATOR,
            &REGULATOR,
            Limits::real(),
        )?),
        _ => Err("no genesis".into()),
    }
}

/// The leaf digest of a journal.
pub(crate) fn leaf(book: &Book, number: u64) -> Result<Digest, Fail> {
    let header = book.header(number).ok_or("no header")?;
    Ok(leaf_of::<Sha>(&header.encode()))
}

/// Replays a header.
pub(crate) fn take(book: &mut Book, header: &Header) -> Result<Result<(), Damage>, Fail> {
    let header = read_again(header)?;
    Ok(book.replay(&header, &leaf_of::<Sha>(&header.encode()))?)
}

/// Replays the headers of a book behind its first.
fn take_all(again: &mut Book, book: &Book) -> Result<(), Fail> {
    for number in 1..book.head().size {
        let header = book.header(number).ok_or("no header")?;
        if take(again, header)? != Ok(()) {
            return Err("a header isn't taken".into());
        }
    }
    Ok(())
}

/// The last header, under the number behind it.
fn once_more(book: &Book) -> Result<Header, Fail> {
    let size = book.head().size;
    let header = book.header(size.saturating_sub(1)).ok_or("no header")?;
    Ok(Header {
        jsn: size,
        ..*header
    })
}

/// What a book made of the headers of another shows of a journal, and what it answers to the last header once more.
pub(crate) fn replayed_twice(
    alloc: Global,
    book: &Book,
    number: u64,
) -> Result<(View, Result<(), Damage>), Fail> {
    let mut again = begun(alloc, book.header(0).ok_or("no header")?)?;
    replay_twice(&mut again, book, number)
}

fn replay_twice(
    again: &mut Book,
    book: &Book,
    number: u64,
) -> Result<(View, Result<(), Damage>), Fail> {
    take_all(again, book)?;
    let told = take(again, &once_more(book)?)?;
    Ok((again.view(number), told))
}
