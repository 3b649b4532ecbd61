//! Sets over the files of a worked ledger: they are kept, judged, carried and revived byte by byte, or refused.

use crate::rows::{
    AT_NINE, AT_TEN, BEHIND_ONE, BEHIND_TWO, JOURNALS, Journal, NOTARY, OF_FIVE, Proofs, UNPURGED,
    bytes_of, carried_set, disk_of, kept_set, proof_of,
};
use crate::sets::SET;
use hex::FromHex;
use journal_record::Body;
use ledger_book::Book;
use ledger_bytes::{Digest, Refusal};
use ledger_disk::MemDisk;
use ledger_model::Limits;
use ledger_open::{Opened, reopen};
use notary_ledger::{ListClock, LocalNotary};
use proof_codec::Claim;
use proof_maker::Made;
use std::alloc::Global;
use std::process::Abort;
use std::test::Fail;
use survivor_set::{Set, SetErr, Survivor, carry, check_set, keep, revive, revive_judged};

fn digest(text: &str) -> Result<Digest, Fail> {
    Ok(Digest(<[u8; 32]>::from_hex(text)?))
}

// A point, a number and why that journal isn't kept there.
const NOT_KEPT: [(u64, u64, SetErr); 3] = [
    (3, 3, SetErr::NotBelow { point: 3 }),
    (99, 2, SetErr::Refused(Refusal::NoJournal { size: 5 })),
    (2, 1, SetErr::Refused(Refusal::NotTime { kind: 1 })),
];

#[test]
fn journals_are_kept(rt: HostRuntime) -> Result<(), Fail> {
    let alloc = rt.alloc();
    let mut a = disk_of(alloc, OF_FIVE)?;
    let mut b = disk_of(alloc, &[])?;
    let opened = reopen(&rt, alloc, &mut a, &mut b, Limits::real())?;
    keep_sets(&rt, alloc, &opened, &mut a, &mut b)?;
    keep_none(&rt, alloc, &opened, &mut a, &mut b)
}

/// One journal is kept, and three.
fn keep_sets(
    rt: &impl Abort,
    alloc: Global,
    opened: &Opened,
    a: &mut MemDisk,
    b: &mut MemDisk,
) -> Result<(), Fail> {
    let one = keep(alloc, opened, a, b, 3, &[2])?;
    assert_eq!(rt; one.as_slice(), bytes_of(alloc, &[SET])?.as_slice());
    let three = keep(alloc, opened, a, b, 3, &[0, 1, 2])?;
    assert_eq!(rt; three.as_slice(), kept_set(alloc)?.as_slice());
    Ok(())
}

/// What can't be kept is refused.
fn keep_none(
    rt: &impl Abort,
    alloc: Global,
    opened: &Opened,
    a: &mut MemDisk,
    b: &mut MemDisk,
) -> Result<(), Fail> {
    for (point, n, why) in NOT_KEPT {
        assert_eq!(rt; keep(alloc, opened, a, b, point, &[n]).err(), Some(why));
    }
    Ok(())
}

#[test]
fn a_set_is_carried(rt: HostRuntime) -> Result<(), Fail> {
    let alloc = rt.alloc();
    let mut a = disk_of(alloc, UNPURGED)?;
    let mut b = disk_of(alloc, &[])?;
    let opened = reopen(&rt, alloc, &mut a, &mut b, Limits::real())?;
    let (kept, carried) = (kept_set(alloc)?, carried_set(alloc)?);
    carry_on(&rt, alloc, &opened.book, &kept, &carried)
}

/// The first set is carried on to journal 6, where it is the second, and this not back to journal 3.
fn carry_on(
    rt: &impl Abort,
    alloc: Global,
    book: &Book,
    kept: &[u8],
    carried: &[u8],
) -> Result<(), Fail> {
    assert_eq!(rt; book.unsealed(), 0);
    let on = carry(alloc, book, &Set::decode(kept)?, 6)?;
    assert_eq!(rt; on.as_slice(), carried);
    let back = carry(alloc, book, &Set::decode(carried)?, 3);
    assert_eq!(rt; back.err(), Some(SetErr::NotBelow { point: 6 }));
    Ok(())
}

/// Why the set of one journal is refused, where the last bit of one of its bytes is changed.
fn refused() -> Result<[(usize, SetErr); 6], Fail> {
    let kept = digest("64915354a6547b1f887e596e872fd13b2abdc860729da9fe31180a81726cf4a2")?;
    let root = digest("787ddacff6088f3d7400ab6500682dd4939f72ae8c0d1bb443ea4b9d74eddf09")?;
    let damage = Refusal::Damaged {
        kept: digest("60f939b6f2e29d94e23a8e69a18def6e706674ee7d8c9ba473b5a026ad370f11")?,
        found: digest("d1c2593ff7bb3740cd44ac4037009afaf24ac1223254411f3027cc8a35d53300")?,
    };
    Ok([
        (14, SetErr::OtherLedger { kept }),
        (42, SetErr::Refused(Refusal::NoJournal { size: 9 })),
        (49, SetErr::Refused(Refusal::RootDiffers { kept: root })),
        (84, SetErr::LeafPath),
        (266, SetErr::Refused(damage)),
        (336, SetErr::LeafPath),
    ])
}

#[test]
fn sets_are_judged_behind_a_purge(rt: HostRuntime) -> Result<(), Fail> {
    let alloc = rt.alloc();
    let mut a = disk_of(alloc, &[])?;
    let mut b = disk_of(alloc, BEHIND_ONE)?;
    let opened = reopen(&rt, alloc, &mut a, &mut b, Limits::real())?;
    judge(&rt, alloc, &opened.book)
}

/// The set of one journal passes, and is refused where it is changed.
fn judge(rt: &impl Abort, alloc: Global, book: &Book) -> Result<(), Fail> {
    let bytes = bytes_of(alloc, &[SET])?;
    assert_eq!(rt; check_set(book, &Set::decode(&bytes)?), Ok(()));
    for (place, why) in refused()? {
        let mut changed = bytes.to_vec(alloc)?;
        if let Some(byte) = changed.get_mut(place) {
            *byte ^= 1;
        }
        assert_eq!(rt; check_set(book, &Set::decode(&changed)?), Err(why));
    }
    Ok(())
}

#[test]
fn survivors_are_revived_behind_a_purge(rt: HostRuntime) -> Result<(), Fail> {
    let alloc = rt.alloc();
    let mut a = disk_of(alloc, &[])?;
    let mut b = disk_of(alloc, BEHIND_ONE)?;
    let opened = reopen(&rt, alloc, &mut a, &mut b, Limits::real())?;
    revive_both(&rt, alloc, &opened.book)
}

/// Both sets give the same proofs, and one with a wrong path none.
fn revive_both(rt: &impl Abort, alloc: Global, book: &Book) -> Result<(), Fail> {
    let mut notary = notary(alloc)?;
    let mut set = kept_set(alloc)?;
    are_revived(rt, alloc, book, &mut notary, &set, &AT_NINE)?;
    are_revived(rt, alloc, book, &mut notary, &carried_set(alloc)?, &AT_NINE)?;
    if let Some(byte) = set.last_mut() {
        *byte ^= 1;
    }
    is_refused(rt, alloc, book, &mut notary, &set, &SetErr::LeafPath)
}

#[test]
fn survivors_are_revived_behind_two_purges(rt: HostRuntime) -> Result<(), Fail> {
    let alloc = rt.alloc();
    let mut a = disk_of(alloc, BEHIND_TWO)?;
    let mut b = disk_of(alloc, &[])?;
    let opened = reopen(&rt, alloc, &mut a, &mut b, Limits::real())?;
    revive_carried(&rt, alloc, &opened.book)
}

/// The set that was carried on gives proofs, and the other none.
fn revive_carried(rt: &impl Abort, alloc: Global, book: &Book) -> Result<(), Fail> {
    let mut notary = notary(alloc)?;
    are_revived(rt, alloc, book, &mut notary, &carried_set(alloc)?, &AT_TEN)?;
    let purged = SetErr::Refused(Refusal::Purged { point: 6 });
    is_refused(rt, alloc, book, &mut notary, &kept_set(alloc)?, &purged)
}

/// The worked ledger's notary.
fn notary(alloc: Global) -> Result<LocalNotary<MemDisk, ListClock>, Fail> {
    let clock = ListClock::new(Vec::new(alloc));
    match LocalNotary::reopen(alloc, disk_of(alloc, &[NOTARY])?, clock, Digest([0; 32])) {
        Ok(notary) => Ok(notary),
        Err((err, _)) => Err(Fail::from(err)),
    }
}

/// A set gives no proof of its first survivor, for this reason.
fn is_refused(
    rt: &impl Abort,
    alloc: Global,
    book: &Book,
    notary: &mut LocalNotary<MemDisk, ListClock>,
    bytes: &[u8],
    why: &SetErr,
) -> Result<(), Fail> {
    assert_eq!(rt; book.unsealed(), 0);
    let set = Set::decode(bytes)?;
    assert_eq!(rt; revive(alloc, book, notary, &set, 0).err(), Some(*why));
    Ok(())
}

/// A set shows three survivors, and gives these proofs of them.
fn are_revived(
    rt: &impl Abort,
    alloc: Global,
    book: &Book,
    notary: &mut LocalNotary<MemDisk, ListClock>,
    bytes: &[u8],
    proofs: &Proofs,
) -> Result<(), Fail> {
    assert_eq!(rt; book.unsealed(), 0);
    let set = Set::decode(bytes)?;
    check_set(book, &set)?;
    assert_eq!(rt; set.count(), 3);
    for (i, journal) in JOURNALS.iter().enumerate() {
        let i = i as u8;
        is_shown(rt, alloc, &set.get(i).ok_or("no survivor")?, journal)?;
        let made = revive(alloc, book, notary, &set, i)?;
        is_made(rt, alloc, &made, proofs, u64::from(i), journal)?;
        let made = revive_judged(alloc, book, notary, &set, i)?;
        is_made(rt, alloc, &made, proofs, u64::from(i), journal)?;
    }
    Ok(())
}

/// A survivor is this journal.
fn is_shown(
    rt: &impl Abort,
    alloc: Global,
    survivor: &Survivor,
    journal: &Journal,
) -> Result<(), Fail> {
    let item = &survivor.item;
    assert_eq!(rt;
        hex::encode(alloc, item.header.encode())?.as_str(),
        journal.header
    );
    let Body::Whole(content) = item.body else {
        return Err("no content".into());
    };
    assert_eq!(rt; hex::encode(alloc, content)?.as_str(), journal.content);
    assert_eq!(rt; hex::encode(alloc, item.who)?.as_str(), journal.who);
    Ok(())
}

/// What was made is the proof of this survivor.
fn is_made(
    rt: &impl Abort,
    alloc: Global,
    made: &Made,
    proofs: &Proofs,
    n: u64,
    journal: &Journal,
) -> Result<(), Fail> {
    let claim = Claim {
        n,
        leaf: digest(journal.leaf)?,
        lo: None,
        hi: Some(proofs.hi),
    };
    assert_eq!(rt; made.claim, claim);
    let proof = proof_of(alloc, proofs, n, journal)?;
    assert_eq!(rt; made.proof.as_slice(), proof.as_slice());
    Ok(())
}
