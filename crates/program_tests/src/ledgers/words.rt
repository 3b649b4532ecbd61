//! Words that are too long for a row.

use super::*;

/// The status and the length of the text, for a record whose content has so many bytes, with this clue.
fn sign_record<R: Threads + Wait + Sync>(
    rt: &R,
    alloc: Global,
    clue: &str,
    count: usize,
) -> Result<(u8, usize), NoMemory> {
    let content = "00".repeat(alloc, count)?;
    let words = [
        "sign",
        ID,
        OPERATOR,
        "append",
        "4294967295",
        clue,
        content.as_str(),
    ];
    let (status, written) = run(rt, alloc, &words, b"", NO_FAULTS)?;
    Ok((status, written.len()))
}

// A newline may stand in a clue's name. A content has at most 1,048,576 bytes.
#[test]
fn bounds_words_to_sign(rt: HostRuntime) -> Result<(), Fail> {
    for (clue, count, want) in [
        ("in\nv", 1, (0, 194)),
        ("-", 1_048_576, (0, 194)),
        ("-", 1_048_577, (1, 13)),
    ] {
        let found = sign_record(&rt, rt.alloc(), clue, count)?;
        assert_eq!(rt; found, want, "at {count}");
    }
    Ok(())
}
