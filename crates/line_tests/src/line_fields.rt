//! The fields of a line are read by their forms, with up to 256 approvals in one.

use ledger_bytes::{Bytes, Refusal};
use script_lines::{Fields, Stop, Which};
use std::alloc::{AllocError, Global};
use std::process::Abort;
use std::test::Fail;

const LEAF: &str = "e17cd0a38398533f50004ec57f5dd3837680b6b072223c6ffc9e2bfa0d0e723C";

#[test]
fn reads_a_line_of_fields(rt: HostRuntime) -> Result<(), Fail> {
    let mut line = b"trust notary ".to_vec(rt.alloc())?;
    line.extend_from_slice(LEAF.as_bytes())?;
    line.extend_from_slice(b" 0aFF - c- ")?;
    let mut fields = Fields::of(line.as_slice());
    read_words(&rt, &mut fields)?;
    read_bytes(&rt, rt.alloc(), &mut fields);
    read_nothing(&rt, &mut fields);
    assert_eq!(rt; fields.end(), Ok(()));
    Ok(())
}

/// Two words and a digest.
fn read_words(rt: &impl Abort, fields: &mut Fields) -> Result<(), Fail> {
    assert_eq!(rt; fields.text(), Ok(b"trust".as_slice()));
    assert_eq!(rt; fields.which(), Ok(Which::Notary));
    let leaf = fields.digest().ok().ok_or("no digest")?;
    assert_eq!(rt; (leaf.0[0], leaf.0[31]), (0xe1, 0x3c));
    Ok(())
}

/// Bytes, no clue and a clue.
fn read_bytes(rt: &impl Abort, alloc: Global, fields: &mut Fields) {
    assert!(rt; are_bytes(fields.bytes(alloc, 2), &[0x0a, 0xff]));
    assert!(rt; are_bytes(fields.clue(alloc), b""));
    assert!(rt; are_bytes(fields.clue(alloc), b"c-"));
}

/// Whether a field was read as these bytes.
fn are_bytes(read: Result<Bytes, Stop>, wanted: &[u8]) -> bool {
    match read {
        Ok(bytes) => bytes.as_slice() == wanted,
        Err(_) => false,
    }
}

/// An empty field, and no further one.
fn read_nothing(rt: &impl Abort, fields: &mut Fields) {
    assert_eq!(rt; fields.text(), Ok(b"".as_slice()));
    assert_eq!(rt; fields.text(), Err(Refusal::BadField { column: 8 }));
}

/// How many approvals a text gives, and how long their first proof is.
fn given_by(rt: &HostRuntime, text: &[u8]) -> Result<(usize, usize), Stop> {
    let given = Fields::of(text).approvals(rt.alloc())?;
    let given = given.as_slice();
    let first = match given.first() {
        Some(first) => first.proof.as_slice().len(),
        None => 0,
    };
    Ok((given.len(), first))
}

#[test]
fn reads_approvals(rt: HostRuntime) -> Result<(), Fail> {
    let bad = Err(Stop::Refused(Refusal::BadField { column: 1 }));
    for (text, wanted) in [
        ("-", Ok((0, 0))),
        ("0:0101", Ok((1, 2))),
        ("0:aA,4294967295:-", Ok((2, 1))),
        ("4294967296:-", bad),
        ("0:", bad),
        (":00", bad),
        ("0", bad),
        ("0:00:00", bad),
        ("0:00,", bad),
        (",0:00", bad),
        ("-,-", bad),
        ("", bad),
    ] {
        assert_eq!(rt; given_by(&rt, text.as_bytes()), wanted, "at {text}");
    }
    Ok(())
}

/// So many approvals of member 7.
fn approvals(alloc: Global, count: usize) -> Result<Vec<u8>, AllocError> {
    let mut text = b"7:-".to_vec(alloc)?;
    for _ in 1..count {
        text.extend_from_slice(b",7:-")?;
    }
    Ok(text)
}

#[test]
fn reads_256_approvals(rt: HostRuntime) -> Result<(), Fail> {
    let bad = Err(Stop::Refused(Refusal::BadField { column: 1 }));
    for (count, wanted) in [(256, Ok((256, 0))), (257, bad)] {
        let text = approvals(rt.alloc(), count)?;
        assert_eq!(rt; given_by(&rt, text.as_slice()), wanted, "at {count}");
    }
    Ok(())
}
