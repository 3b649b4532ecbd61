//! A worked dump is audited, and changed ones are told by the check that fails first.

use crate::dump::{LEN, dump};
use audit_dump::{AuditErr, Check, EarlyCheck, Fault, LateCheck, Report, audit};
use hex::FromHex;
use ledger_bytes::{Bytes, Digest};
use ledger_io::MemSource;
use member_book::TagScheme;
use merkle_tree::Head;
use std::alloc::Global;
use std::test::Fail;
use std::thread::Threads;

const ID: &str = "64915354a6547b1f887e596e872fd13b2abdc860729da9fe31180a81726cf4a2";

const ROOT: &str = "a8c6a1893b82eef0e0c81cbfd7df1db6c7ac83a9d7eb81186bb8a4b7e6e458a0";

const NOTARY_ROOT: &str = "70f8401b84cf76c926c415bdf912718f30518dcb518d3493aad2f17ce92b2cd8";

// What is told of the dump once one of its bytes has this value: its place and value, the number and the place of the fault, how
// many journals were read before it, and how many of those are time journals.
const CHANGED: [(usize, u8, u8, u64, u64, u64); 14] = [
    (0, 0x5c, 1, 0, 0, 0),
    (9, 0x11, 5, 1, 1, 0),
    (52, 0x02, 1, 1228, 5, 1),
    (71, 0x08, 1, 70, 0, 0),
    (136, 0x86, 2, 0, 5, 1),
    (218, 0x46, 4, 0, 0, 0),
    (408, 0x01, 1, 1380, 1, 0),
    (555, 0x10, 3, 2, 2, 0),
    (620, 0x83, 8, 5, 5, 1),
    (733, 0x10, 3, 3, 3, 1),
    (1064, 0x0a, 5, 4, 4, 1),
    (1231, 0x40, 8, 274_877_906_949, 5, 1),
    (1278, 0x08, 9, 2, 5, 1),
    (1348, 0xf0, 10, 1, 5, 1),
];

// The report of bytes against the worked ledger's heads, where these calls of the source fail.
fn told<R: Threads + Sync>(
    rt: &R,
    alloc: Global,
    bytes: &[u8],
    fails: &[u64],
) -> Result<Result<Report, AuditErr>, Fail> {
    let mut fail_at = Vec::new(alloc);
    fail_at.extend_from_slice(fails)?;
    let mut source = MemSource::new(Bytes::copy_of(alloc, bytes)?, fail_at);
    let ledger = Head {
        size: 5,
        root: Digest(<[u8; 32]>::from_hex(ROOT)?),
    };
    let notary = Head {
        size: 1,
        root: Digest(<[u8; 32]>::from_hex(NOTARY_ROOT)?),
    };
    let id = Digest(<[u8; 32]>::from_hex(ID)?);
    Ok(audit(rt, alloc, &mut source, &id, &ledger, &notary, &TagScheme))
}

// The report behind so many journals, of which so many are time journals.
fn report(read: u64, times: u64, fault: Option<Fault>) -> Report {
    Report {
        size: read,
        kept: read,
        point: 0,
        occulted: 0,
        times,
        fault,
    }
}

#[test]
fn a_dump_is_audited(rt: HostRuntime) -> Result<(), Fail> {
    let alloc = rt.alloc();
    let mut bytes = dump(alloc)?;
    assert_eq!(rt;
        told(&rt, alloc, bytes.as_slice(), &[])?,
        Ok(report(5, 1, None))
    );
    let cut = Fault {
        check: Check::Form,
        place: 1379,
    };
    assert_eq!(rt;
        told(&rt, alloc, bytes.get(..LEN - 1).unwrap_or(&[]), &[])?,
        Ok(report(5, 1, Some(cut)))
    );
    bytes.push(0)?;
    let more = Fault {
        check: Check::Form,
        place: 1380,
    };
    assert_eq!(rt;
        told(&rt, alloc, bytes.as_slice(), &[])?,
        Ok(report(5, 1, Some(more)))
    );
    assert_eq!(rt;
        told(&rt, alloc, bytes.as_slice(), &[0])?,
        Err(AuditErr::ReadFault)
    );
    Ok(())
}

#[test]
fn changed_dumps_are_told(rt: HostRuntime) -> Result<(), Fail> {
    let alloc = rt.alloc();
    let checks = [
        Check::Form,
        Check::Late(LateCheck::Id),
        Check::Early(EarlyCheck::Order),
        Check::Early(EarlyCheck::Parts),
        Check::Early(EarlyCheck::Approvals),
        Check::Late(LateCheck::Erasures),
        Check::Late(LateCheck::Purge),
        Check::Late(LateCheck::Ledger),
        Check::Late(LateCheck::Times),
        Check::Late(LateCheck::Notary),
    ];
    for (at, byte, number, place, read, times) in &CHANGED {
        let mut bytes = dump(alloc)?;
        if let Some(changed) = bytes.get_mut(*at) {
            *changed = *byte;
        }
        let check = checks
            .iter()
            .find(|check| check.number() == *number)
            .ok_or("no check")?;
        let fault = Fault {
            check: *check,
            place: *place,
        };
        assert_eq!(rt;
            told(&rt, alloc, bytes.as_slice(), &[])?,
            Ok(report(*read, *times, Some(fault)))
        );
    }
    Ok(())
}
