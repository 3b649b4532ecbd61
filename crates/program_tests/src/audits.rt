//! Faults of reading and writing. What a script is answered is shown by worked rows (`worked_rows`).

use audit_cli::audit_top;
use ledger_bytes::{Bytes, NoMemory};
use ledger_io::{MemSink, MemSource};
use member_book::TagScheme;
use std::alloc::Global;
use std::test::Fail;
use std::thread::Threads;

// A head that is trusted, the proof of its one journal, the same cut, and for another claim.
const SCRIPT: &str = "\
    trust ledger 64915354a6547b1f887e596e872fd13b2abdc860729da9fe31180a81726cf4a2 1 \
    64915354a6547b1f887e596e872fd13b2abdc860729da9fe31180a81726cf4a2\n\
    check 0 64915354a6547b1f887e596e872fd13b2abdc860729da9fe31180a81726cf4a2 - - \
    01000000000000000100000000000000006491535\
    4a6547b1f887e596e872fd13b2abdc860729da9fe31180a81726cf4a2000000\n\
    check 0 64915354a6547b1f887e596e872fd13b2abdc860729da9fe31180a81726cf4a2 - - \
    01000000000000000100000000000000006491535\
    4a6547b1f887e596e872fd13b2abdc860729da9fe31180a81726cf4a20000\n\
    check 1 64915354a6547b1f887e596e872fd13b2abdc860729da9fe31180a81726cf4a2 - - \
    01000000000000000100000000000000006491535\
    4a6547b1f887e596e872fd13b2abdc860729da9fe31180a81726cf4a2000000\n";

// More room than the replies take, and a call that no run makes.
const AMPLE: usize = 64;

const NEVER: u64 = u64::MAX;

/// The word, the read and the write that fail and the room of the sink; the status, and what is written.
type Faulty = (&'static str, (u64, u64, usize), u8, &'static str);

// The first read gives all lines, and each reply is one write. A fault at the last line changes no status.
const FAULTY: [Faulty; 8] = [
    (
        "script",
        (NEVER, NEVER, AMPLE),
        0,
        "1 yes\n2 yes\n3 no 41 51\n4 no 40\n",
    ),
    ("script", (0, NEVER, AMPLE), 2, "fail 2 read\n"),
    (
        "script",
        (1, NEVER, AMPLE),
        2,
        "1 yes\n2 yes\n3 no 41 51\n4 no 40\nfail 2 read\n",
    ),
    (
        "script",
        (1, 4, AMPLE),
        2,
        "1 yes\n2 yes\n3 no 41 51\n4 no 40\n",
    ),
    ("script", (NEVER, 1, AMPLE), 3, "1 yes\n"),
    ("script", (NEVER, NEVER, 17), 3, "1 yes\n2 yes\n3 no "),
    ("script", (NEVER, NEVER, 12), 3, "1 yes\n2 yes\n"),
    ("Script", (NEVER, 0, AMPLE), 1, ""),
];

/// Whether a run ends and writes as the row says.
fn ends_so<R: Threads + Sync>(rt: &R, alloc: Global, row: &Faulty) -> Result<bool, NoMemory> {
    let (word, (read, write, room), want_status, want) = *row;
    let words = vec![in alloc; String::from_str(alloc, word)?]?;
    let script = Bytes::copy_of(alloc, SCRIPT.as_bytes())?;
    let mut source = MemSource::new(script, [read].to_vec(alloc)?);
    let mut sink = MemSink::new(alloc, room, [write].to_vec(alloc)?)?;
    let status = audit_top(rt, alloc, &words, &mut source, &mut sink, &TagScheme);
    Ok(status == want_status && sink.written() == want.as_bytes())
}

#[test]
fn tells_faults(rt: HostRuntime) -> Result<(), Fail> {
    for row in &FAULTY {
        let is_so = ends_so(&rt, rt.alloc(), row)?;
        assert!(rt; is_so, "at {row:?}");
    }
    Ok(())
}
