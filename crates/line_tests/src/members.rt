//! Tags are the worked ones, approvals are judged in their order, and a book takes 256 members and no more.

use hex::FromHex;
use ledger_bytes::{Bytes, Digest, NoMemory, Refusal};
use member_book::{AddErr, Approval, MemberBook, TagScheme, Verifier, tag_proof};
use std::alloc::Global;
use std::process::Abort;
use std::test::Fail;

const OPERATOR: Digest = Digest([1; 32]);

const REGULATOR: Digest = Digest([2; 32]);

const MESSAGE: &str = "62c66a7a5dd70c3146618063c344e531e6d4b59e379808443ce962b3abd63c5a";

fn digest(text: &str) -> Result<Digest, hex::FromHexError> {
    Ok(Digest(<[u8; 32]>::from_hex(text)?))
}

/// An approval of this member whose proof shows a key of this byte.
fn approval(alloc: Global, member: u32, byte: u8) -> Result<Approval, Fail> {
    let message = digest(MESSAGE)?;
    let proof = tag_proof(&Digest([byte; 32]), &message);
    Ok(Approval {
        member,
        key: TagScheme.key_of(&message, &proof),
        proof: Bytes::copy_of(alloc, &proof)?,
    })
}

/// Admits a member with this number, where nothing is against it.
fn add(
    book: &mut MemberBook,
    number: u32,
    key: Digest,
    jsn: u64,
) -> Result<Option<Refusal>, NoMemory> {
    match book.add(number, &key, jsn) {
        Ok(()) => Ok(None),
        Err(AddErr::MembersFull) => Ok(Some(Refusal::MembersFull)),
        Err(AddErr::MemberNumber { next }) => Ok(Some(Refusal::MemberNumber { next })),
        Err(AddErr::NoMemory) => Err(NoMemory),
    }
}

/// Operator, regulator, and members 2 and 3, whose keys are bytes 3 and 4.
fn book_of_four(alloc: Global) -> Result<MemberBook, Fail> {
    let mut book = MemberBook::new(alloc, &OPERATOR, &REGULATOR)?;
    add(&mut book, 2, Digest([3; 32]), 5)?;
    add(&mut book, 3, Digest([4; 32]), 9)?;
    Ok(book)
}

const ZEROS: &str = "0000000000000000000000000000000000000000000000000000000000000000";

/// A key's byte, a message, and the tag that the key gives of it.
const TAGS: [(u8, &str, &str); 6] = [
    (
        1,
        ZEROS,
        "3a7ebc4c53c272a4d0f660c4dee58a9dbf989926c3ad6e257533645ddc5d16b1",
    ),
    (
        1,
        MESSAGE,
        "aaa75ef4da672330b66e9401e613ac025eaf32aaf26ad46b4d2bcd297702a7a7",
    ),
    (
        2,
        ZEROS,
        "e24da572e6c4d72ff03be379cc622188ab12ec5188986802d9212bf18ee6e274",
    ),
    (
        2,
        MESSAGE,
        "672bbb166e81679963947ff56842083be0a1a621c5609cfe06093bc260874345",
    ),
    (
        3,
        ZEROS,
        "95cd763a494e5205065a28cb18e34ebbc34500d537dd221f9b90382a7c860918",
    ),
    (
        3,
        MESSAGE,
        "4732a374fb99abd29ca12147577a8062516245c146c1341844644fed7149f875",
    ),
];

#[test]
fn tag_proofs(rt: HostRuntime) -> Result<(), Fail> {
    for (byte, message, tag) in &TAGS {
        let key = Digest([*byte; 32]);
        let message = digest(message)?;
        let tag = digest(tag)?;
        let proof = tag_proof(&key, &message);
        assert!(rt;
            proof[..32] == key.0[..] && proof[32..] == tag.0[..],
            "{tag:?}"
        );
        assert!(rt; TagScheme.key_of(&message, &proof) == Some(key), "{tag:?}");
        assert!(rt; TagScheme.key_of(&key, &proof) == None, "{tag:?}");
    }
    Ok(())
}

/// What the book of four answers to approvals of these members, by keys of these bytes.
fn check(alloc: Global, given: &[(u32, u8)], needed: &[u32]) -> Result<Result<(), Refusal>, Fail> {
    let book = book_of_four(alloc)?;
    let mut approvals = Vec::new(alloc);
    for (member, byte) in given {
        approvals.push(approval(alloc, *member, *byte)?)?;
    }
    if approvals.len() > 256 {
        return Err(Fail::from("too many approvals"));
    }
    Ok(book.check_approvals(&approvals, needed))
}

/// Members with the byte of the key that each approval shows, who is needed, and what is answered.
type Judged = (&'static [(u32, u8)], &'static [u32], Result<(), Refusal>);

// The order comes before members, members before keys, and these before who is missing.
const JUDGED: [Judged; 10] = [
    (&[(0, 1), (1, 2), (2, 3)], &[0, 1], Ok(())),
    (&[], &[], Ok(())),
    (
        &[(1, 2), (0, 1), (9, 9)],
        &[3],
        Err(Refusal::ApprovalOrder { at: 1 }),
    ),
    (
        &[(0, 1), (2, 3), (2, 3)],
        &[3],
        Err(Refusal::ApprovalOrder { at: 2 }),
    ),
    (
        &[(0, 1), (9, 1), (1, 1)],
        &[3],
        Err(Refusal::ApprovalOrder { at: 2 }),
    ),
    (
        &[(0, 9), (4, 5), (5, 6)],
        &[1],
        Err(Refusal::UnknownMember { member: 4 }),
    ),
    (
        &[(0, 1), (2, 4), (3, 3)],
        &[1],
        Err(Refusal::WrongKey { member: 2 }),
    ),
    (&[(0, 1), (2, 3)], &[2, 0], Ok(())),
    (
        &[(0, 1), (2, 3)],
        &[3, 0, 1],
        Err(Refusal::MissingApproval { member: 1 }),
    ),
    (
        &[(0, 1), (2, 3)],
        &[2, 3],
        Err(Refusal::MissingApproval { member: 3 }),
    ),
];

#[test]
fn approvals_are_judged(rt: HostRuntime) -> Result<(), Fail> {
    for (given, needed, wanted) in &JUDGED {
        assert_eq!(rt; check(rt.alloc(), given, needed)?, *wanted, "{given:?}");
    }
    Ok(())
}

#[test]
fn a_full_book(rt: HostRuntime) -> Result<(), Fail> {
    let mut book = MemberBook::new(rt.alloc(), &OPERATOR, &REGULATOR)?;
    fill(&rt, &mut book)?;
    count_all(&rt, &book);
    approve_by_all(&rt, rt.alloc(), &book)
}

/// Admits members until the book is full.
fn fill(rt: &impl Abort, book: &mut MemberBook) -> Result<(), Fail> {
    assert_eq!(rt;
        add(book, 3, OPERATOR, 2)?,
        Some(Refusal::MemberNumber { next: 2 })
    );
    for number in 2..256 {
        let key = Digest([number as u8; 32]);
        assert_eq!(rt; add(book, number, key, u64::from(number))?, None);
    }
    for number in [256, 9] {
        assert_eq!(rt;
            add(book, number, OPERATOR, 256)?,
            Some(Refusal::MembersFull)
        );
    }
    Ok(())
}

/// Counts the members of a full book, and looks up keys.
fn count_all(rt: &impl Abort, book: &MemberBook) {
    assert_eq!(rt; book.count(), 256);
    assert_eq!(rt; book.key(255), Some(Digest([255; 32])));
    assert_eq!(rt; book.key(256), None);
    for (p, count) in [(0, 2), (2, 2), (3, 3), (255, 255), (256, 256)] {
        assert_eq!(rt; book.count_at(p), count, "at {p}");
    }
}

/// An approval of each of 256 members, of which that of the regulator shows a key of this byte.
fn approvals_of_all(alloc: Global, regulator: u8) -> Result<Vec<Approval>, Fail> {
    let mut given = Vec::new(alloc);
    for number in 0..256_u32 {
        let byte = match number {
            0 => 1,
            1 => regulator,
            _ => number as u8,
        };
        given.push(approval(alloc, number, byte)?)?;
    }
    Ok(given)
}

/// The approvals of all members of a full book.
fn approve_by_all(rt: &impl Abort, alloc: Global, book: &MemberBook) -> Result<(), Fail> {
    for (regulator, wanted) in [(1, Err(Refusal::WrongKey { member: 1 })), (2, Ok(()))] {
        let given = approvals_of_all(alloc, regulator)?;
        assert_eq!(rt; given.len(), 256);
        assert_eq!(rt; book.check_approvals(&given, &[255, 0]), wanted);
    }
    Ok(())
}
