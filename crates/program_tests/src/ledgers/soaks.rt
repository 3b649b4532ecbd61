//! A soak whose disks stop.

use super::*;

/// The number behind this word of a line, or 0.
fn number_behind(line: &str, name: &str) -> u64 {
    let mut is_next = false;
    for word in line.split(' ') {
        if is_next {
            return word.parse::<u64>().unwrap_or_default();
        }
        is_next = word == name;
    }
    0
}

// The ledger is opened again after stops, no receipt is lost, and each proof is accepted.
#[test]
fn goes_on_after_stops(rt: HostRuntime) -> Result<(), Fail> {
    let words = ["soak", "1", "2000", "40"];
    let (status, written) = run(&rt, rt.alloc(), &words, b"", NO_FAULTS)?;
    let line = String::from_utf8(written).map_err(|_| "no text")?;
    let line = line.as_str();
    assert_eq!(rt; status, 0);
    assert!(rt; line.starts_with("soak 1 2000 40 sessions "));
    assert!(rt; number_behind(line, "sessions") > 1);
    let proofs = number_behind(line, "proofs");
    assert!(rt; proofs > 0 && number_behind(line, "yes") == proofs);
    assert!(rt; line.contains(" lost 0 "));
    Ok(())
}
