//! Lineages under the toy hash, whose digests are 31 zeros and the sum of all bytes: a false one that is accepted shows a clash.

use clue_lineage::{LineageNo, LineageVerdict, judge_lineage};
use journal_record::{Header, Kind};
use ledger_bytes::{Digest, Toy, TreeHash};
use std::alloc::{AllocError, Global};
use std::process::Abort;
use std::test::Fail;

const CLUE: Digest = Digest([7; 32]);

// The header of the only journal of a list, a record of the clue with this link.
fn header(link: u8) -> Header {
    Header {
        version: 1,
        kind: Kind::Content,
        jsn: 1,
        member: 0,
        clue: CLUE,
        clue_ord: 1,
        clue_prev: 0,
        a: 0,
        b: 0,
        link: Digest([link; 32]),
        content_len: 0,
        content_digest: Digest([link.wrapping_neg(); 32]),
        who_digest: Digest([3; 32]),
    }
}

// The header of the journal in front of it.
fn front() -> Header {
    let mut front = header(0);
    front.clue_ord = 9;
    front.clue_prev = 0;
    front
}

// The string that is hashed to a header's leaf digest.
fn leaf_string(alloc: Global, header: &Header) -> Result<Vec<u8>, AllocError> {
    let mut leaf = Vec::from_slice(alloc, &[0])?;
    leaf.extend_from_slice(&header.encode())?;
    Ok(leaf)
}

// The lineage of the second of two journals, told with this header, whose path is the first one's leaf.
fn lineage_of(alloc: Global, told: &Header) -> Result<Vec<u8>, AllocError> {
    let leaf = leaf_string(alloc, &front())?;
    let mut bytes = Vec::from_slice(alloc, &[1, 0, 0, 0, 0, 0, 0, 0, 2])?;
    bytes.extend_from_slice(&CLUE.0)?;
    bytes.extend_from_slice(&[0, 1])?;
    bytes.extend_from_slice(&told.encode())?;
    bytes.push(1)?;
    bytes.extend_from_slice(&Toy::digest(&leaf).0)?;
    Ok(bytes)
}

// The verdict on a lineage by the headers of both journals, of which the second has link 1.
fn judged(rt: &impl Abort, alloc: Global, bytes: &[u8]) -> Result<LineageVerdict, Fail> {
    let mut headers = Vec::from_slice(alloc, &front().encode())?;
    headers.extend_from_slice(&header(1).encode())?;
    assert!(rt; headers.len() % 174 == 0);
    Ok(judge_lineage::<Toy>(&headers, bytes, &CLUE))
}

#[test]
fn lineages_are_judged(rt: HostRuntime) -> Result<(), Fail> {
    let alloc = rt.alloc();
    let right = lineage_of(alloc, &header(1))?;
    assert_eq!(&rt; judged(&rt, alloc, &right)?, LineageVerdict::True);
    // Another header with the same sum.
    let other = lineage_of(alloc, &header(2))?;
    let shown = match judged(&rt, alloc, &other)? {
        LineageVerdict::Clash(clash) => clash,
        _ => return Err("no clash".into()),
    };
    let (told, truth) = (
        leaf_string(alloc, &header(2))?,
        leaf_string(alloc, &header(1))?,
    );
    assert!(&rt; shown.told.as_slice() == told.as_slice());
    assert!(&rt; shown.truth.as_slice() == truth.as_slice());
    let unaccepted = LineageVerdict::Unaccepted(LineageNo::Malformed { at: 1 });
    assert_eq!(&rt; judged(&rt, alloc, &[1])?, unaccepted);
    Ok(())
}
