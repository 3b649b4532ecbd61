//! An occult, one by clue and a purge are accepted with all approvals, and refused where one is missing or a fact differs.

use erase_rules::{
    ClueFacts, OccultFacts, PurgeFacts, judge_clue_occult, judge_occult, judge_purge,
};
use journal_record::Kind;
use ledger_bytes::{Bytes, Digest, NoMemory, Refusal};
use member_book::{Approval, MemberBook};
use std::alloc::Global;
use std::test::Fail;

const OPERATOR: Digest = Digest([1; 32]);

const REGULATOR: Digest = Digest([2; 32]);

const LEAF: Digest = Digest([7; 32]);

const ROOT: Digest = Digest([8; 32]);

/// An approval of this member whose proof shows this key.
fn approval(alloc: Global, member: u32, key: Digest) -> Result<Approval, NoMemory> {
    Ok(Approval {
        member,
        key: Some(key),
        proof: Bytes::copy_of(alloc, &[])?,
    })
}

#[test]
fn an_occult_is_judged(rt: HostRuntime) -> Result<(), Fail> {
    let alloc = rt.alloc();
    let members = MemberBook::new(alloc, &OPERATOR, &REGULATOR)?;
    let operator = approval(alloc, 0, OPERATOR)?;
    let both = [operator, approval(alloc, 1, REGULATOR)?];
    let facts = OccultFacts {
        target: 2,
        size: 5,
        point: 0,
        kind: Kind::Content,
        by: None,
        leaf: LEAF,
    };
    assert_eq!(rt; judge_occult(&facts, &members, &LEAF, &both), Ok(()));
    assert_eq!(rt;
        judge_occult(&facts, &members, &LEAF, &both[..1]),
        Err(Refusal::MissingApproval { member: 1 })
    );
    assert_eq!(rt;
        judge_occult(&facts, &members, &ROOT, &both),
        Err(Refusal::LeafDiffers { kept: LEAF })
    );
    let hidden = OccultFacts {
        by: Some(4),
        ..facts
    };
    assert_eq!(rt;
        judge_occult(&hidden, &members, &LEAF, &both),
        Err(Refusal::AlreadyOcculted { by: 4 })
    );
    Ok(())
}

#[test]
fn an_occult_by_clue_is_judged(rt: HostRuntime) -> Result<(), Fail> {
    let alloc = rt.alloc();
    let members = MemberBook::new(alloc, &OPERATOR, &REGULATOR)?;
    let operator = approval(alloc, 0, OPERATOR)?;
    let both = [operator, approval(alloc, 1, REGULATOR)?];
    let facts = ClueFacts { count: 3, shown: 1 };
    assert_eq!(rt; judge_clue_occult(&facts, &members, 3, &both), Ok(()));
    assert_eq!(rt;
        judge_clue_occult(&facts, &members, 3, &both[..1]),
        Err(Refusal::MissingApproval { member: 1 })
    );
    let hidden = ClueFacts { shown: 0, ..facts };
    assert_eq!(rt;
        judge_clue_occult(&hidden, &members, 3, &[]),
        Err(Refusal::NothingToHide)
    );
    assert_eq!(rt;
        judge_clue_occult(&hidden, &members, 2, &[]),
        Err(Refusal::ClueDiffers { count: 3 })
    );
    Ok(())
}

#[test]
fn a_purge_is_judged(rt: HostRuntime) -> Result<(), Fail> {
    let alloc = rt.alloc();
    let members = MemberBook::new(alloc, &OPERATOR, &REGULATOR)?;
    let given = [approval(alloc, 0, OPERATOR)?];
    let facts = PurgeFacts {
        asked: 3,
        size: 5,
        point: 0,
        kind: Kind::Time,
        root: ROOT,
    };
    assert_eq!(rt; judge_purge(&facts, &members, &ROOT, &[0], &given), Ok(()));
    assert_eq!(rt;
        judge_purge(&facts, &members, &ROOT, &[1, 0], &given),
        Err(Refusal::MissingApproval { member: 1 })
    );
    let again = PurgeFacts { point: 3, ..facts };
    assert_eq!(rt;
        judge_purge(&again, &members, &ROOT, &[0], &given),
        Err(Refusal::Purged { point: 3 })
    );
    Ok(())
}
