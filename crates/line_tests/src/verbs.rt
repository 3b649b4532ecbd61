//! What a line says is kept as it was read, and what is longer than it may be is refused.

use ledger_bytes::{Bytes, Digest, NoMemory, Refusal};
use script_lines::{Line, Spoken, read_line};
use std::alloc::Global;
use std::process::Abort;
use std::test::Fail;

/// What a line is.
#[derive(Clone, Copy, Debug, PartialEq, Eq)]
enum Form {
    /// The member, the lengths of clue, content and proof, and the number.
    Append(u32, usize, usize, usize, u64),
    Other,
    No(Refusal),
}

/// A member with the bytes of an append, which are clue, content and proof, and with its number.
fn append_of(line: Line) -> Option<(u32, Bytes, Bytes, Bytes, u64)> {
    match line {
        Line::Append {
            member,
            clue,
            content,
            proof,
            number,
        } => Some((member, clue, content, proof, number)),
        _ => None,
    }
}

fn form_of(rt: &HostRuntime, line: &[u8]) -> Result<Form, NoMemory> {
    let Spoken { lane: _, what } = read_line(rt.alloc(), line)?;
    let form = match what {
        Ok(line) => match append_of(line) {
            Some((member, clue, content, proof, number)) => Form::Append(
                member,
                clue.as_slice().len(),
                content.as_slice().len(),
                proof.as_slice().len(),
                number,
            ),
            None => Form::Other,
        },
        Err(refusal) => Form::No(refusal),
    };
    Ok(form)
}

fn at(column: u32) -> Form {
    Form::No(Refusal::BadField { column })
}

#[test]
fn keeps_to_limits(rt: HostRuntime) -> Result<(), Fail> {
    for (content, proof, wanted) in [
        (1_048_576, 4_096, Form::Append(3, 0, 1_048_576, 4_096, 0)),
        (1_048_577, 4_097, at(5)),
        (1, 4_097, at(6)),
    ] {
        let mut line = b"0 append 3 - ".to_vec(rt.alloc())?;
        for _ in 0..content {
            line.extend_from_slice(b"6f")?;
        }
        line.push(b' ')?;
        for _ in 0..proof {
            line.extend_from_slice(b"A0")?;
        }
        assert_eq!(rt;
            form_of(&rt, line.as_slice())?,
            wanted,
            "at {content} and {proof}"
        );
    }
    // The longest line that a script may have.
    for (line, wanted) in [("0 x", Form::No(Refusal::BadVerb)), ("0 head", at(3))] {
        let mut line = line.as_bytes().to_vec(rt.alloc())?;
        line.resize(4_194_304, b' ')?;
        assert_eq!(rt; form_of(&rt, line.as_slice())?, wanted);
    }
    Ok(())
}

// What stands behind the proof of an append.
#[test]
fn reads_the_number_of_a_request(rt: HostRuntime) -> Result<(), Fail> {
    for (text, wanted) in [
        ("", Form::Append(2, 0, 1, 0, 0)),
        (" 1", Form::Append(2, 0, 1, 0, 1)),
        (" 18446744073709551615", Form::Append(2, 0, 1, 0, u64::MAX)),
        (" 18446744073709551616", at(7)),
        (" 0", at(7)),
        (" 07", at(7)),
        (" -", at(7)),
        (" ", at(7)),
        (" 7 ", at(8)),
    ] {
        let mut line = b"0 append 2 - 61 -".to_vec(rt.alloc())?;
        line.extend_from_slice(text.as_bytes())?;
        assert_eq!(rt; form_of(&rt, line.as_slice())?, wanted, "at{text}");
    }
    Ok(())
}

#[test]
fn keeps_what_a_line_says(rt: HostRuntime) -> Result<(), Fail> {
    let Spoken { lane, what } = read_line(rt.alloc(), b"0 append 2 inv 616263 031C 7")?;
    assert_eq!(rt; lane, 0);
    let Ok(line) = what else {
        return Err("not a line".into());
    };
    let (member, clue, content, proof, number) = append_of(line).ok_or("not an append")?;
    assert_eq!(rt; (member, number), (2, 7));
    assert_eq!(rt; clue.as_slice(), b"inv".as_slice());
    assert_eq!(rt; content.as_slice(), b"abc".as_slice());
    assert_eq!(rt; proof.as_slice(), [0x03, 0x1c].as_slice());
    Ok(())
}

#[test]
fn keeps_who_approves_an_occult(rt: HostRuntime) -> Result<(), Fail> {
    let mut text = b"7 occult 12 ".to_vec(rt.alloc())?;
    text.resize(12 + 64, b'c')?;
    text.extend_from_slice(b" 0:0aFF,1:-")?;
    let Spoken { lane, what } = read_line(rt.alloc(), text.as_slice())?;
    assert_eq!(rt; lane, 7);
    let Ok(
        Line::Occult {
            target,
            leaf,
            given,
        },
    ) = what
    else {
        return Err("not an occult".into());
    };
    assert_eq!(rt; target, 12);
    assert_eq!(rt; leaf, Digest([0xcc; 32]));
    let [operator, regulator] = given.as_slice() else {
        return Err("not two approvals".into());
    };
    assert_eq!(rt; operator.member, 0);
    assert_eq!(rt; operator.proof.as_slice(), [0x0a, 0xff].as_slice());
    assert_eq!(rt; regulator.member, 1);
    assert_eq!(rt; regulator.proof.as_slice(), b"".as_slice());
    Ok(())
}

#[test]
fn keeps_the_clue_of_an_occult(rt: HostRuntime) -> Result<(), Fail> {
    let line = b"3 occultclue inv 4294967295 0:01,1:-";
    occults_a_clue(&rt, rt.alloc(), line, b"inv")?;
    occults_a_clue(&rt, rt.alloc(), b"3 occultclue - 4294967295 0:01,1:-", b"")
}

/// The line occults the greatest count of a clue's records, by the operator and the regulator.
fn occults_a_clue(rt: &impl Abort, alloc: Global, line: &[u8], clue: &[u8]) -> Result<(), Fail> {
    let Spoken { lane, what } = read_line(alloc, line)?;
    assert_eq!(rt; lane, 3);
    let Ok(Line::OccultClue { name, count, given }) = what else {
        return Err("not an occult by clue".into());
    };
    assert_eq!(rt; count, u32::MAX);
    assert_eq!(rt; name.as_slice(), clue);
    let [operator, regulator] = given.as_slice() else {
        return Err("not two approvals".into());
    };
    assert_eq!(rt; operator.member, 0);
    assert_eq!(rt; operator.proof.as_slice(), [0x01].as_slice());
    assert_eq!(rt; regulator.member, 1);
    assert_eq!(rt; regulator.proof.as_slice(), b"".as_slice());
    Ok(())
}

// A clue's count is from 1 to 2^32 - 1.
#[test]
fn reads_the_count_of_a_clue(rt: HostRuntime) -> Result<(), Fail> {
    for (text, wanted) in [
        (" 1 -", Form::Other),
        (" 4294967295 -", Form::Other),
        (" 4294967296 -", at(4)),
        (" 0 -", at(4)),
        (" 07 -", at(4)),
        (" -", at(4)),
        ("", at(4)),
        (" 1", at(5)),
        (" 1 - ", at(6)),
    ] {
        let mut line = b"0 occultclue inv".to_vec(rt.alloc())?;
        line.extend_from_slice(text.as_bytes())?;
        assert_eq!(rt; form_of(&rt, line.as_slice())?, wanted, "at{text}");
    }
    Ok(())
}

#[test]
fn keeps_who_approves_a_purge(rt: HostRuntime) -> Result<(), Fail> {
    let mut text = b"1 purge 3 ".to_vec(rt.alloc())?;
    text.resize(10 + 64, b'7')?;
    text.extend_from_slice(b" 0:01,2:03")?;
    let Spoken { lane, what } = read_line(rt.alloc(), text.as_slice())?;
    assert_eq!(rt; lane, 1);
    let Ok(Line::Purge { point, root, given }) = what else {
        return Err("not a purge".into());
    };
    assert_eq!(rt; point, 3);
    assert_eq!(rt; root, Digest([0x77; 32]));
    let [operator, owner] = given.as_slice() else {
        return Err("not two approvals".into());
    };
    assert_eq!(rt; operator.member, 0);
    assert_eq!(rt; operator.proof.as_slice(), [0x01].as_slice());
    assert_eq!(rt; owner.member, 2);
    assert_eq!(rt; owner.proof.as_slice(), [0x03].as_slice());
    Ok(())
}
