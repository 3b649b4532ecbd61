//! Proofs and extensions of small ledgers, byte by byte, and as an auditor accepts them.

ghost use Rattle.std.specs.Prelude.{◌≡◌, ◌≤◌, true, length, IfOk};
ghost use Rattle.ledger_model.specs.Fitting.{fits_job};

use audit_core::{Heads, accept, check_extension};
use hex::FromHex;
use journal_record::{Approval, approval_digest, content_digest, request_digest};
use ledger_book::{Book, Genesis, Job, Limits, Outcome};
use ledger_bytes::{Bytes, Digest, NoMemory, Refusal, Sha};
use merkle_tree::Head;
use notary_ledger::MemNotary;
use proof_maker::{MakeErr, extend, extend_ledger, prove};
use script_lines::Which;
use std::alloc::Global;
use std::process::Abort;
use std::test::Fail;
use time_peg::Notary;

const OPERATOR: Digest = Digest([1; 32]);

/// The operator's proof for the record without clue and content of the ledger `demo`.
const TAG: &str = "\
    0101010101010101010101010101010101010101010101010101010101010101686f1846a77b4b9e4f4927cb822d\
    4b771f3dc804ba2be7655992ebc5e0d31ec7";

/// The proof of the only journal of the ledger `demo` when it's new ..
const ALONE: &str = "\
    010000000000000001000000000000000064915354a6547b1f887e596e872fd13b2abdc860729da9fe31180a8172\
    6cf4a2000000";

/// .. and those of both journals when it has a record.
const FIRST: &str = "\
    010000000000000002000000000000000064915354a6547b1f887e596e872fd13b2abdc860729da9fe31180a8172\
    6cf4a201e17cd0a38398533f50004ec57f5dd3837680b6b072223c6ffc9e2bfa0d0e723c0000";

const SECOND: &str = "\
    0100000000000000020000000000000001e17cd0a38398533f50004ec57f5dd3837680b6b072223c6ffc9e2bfa0d\
    0e723c0164915354a6547b1f887e596e872fd13b2abdc860729da9fe31180a81726cf4a20000";

/// Those of all three when an anchor stands behind them.
const FIRST_BOUNDED: &str = "\
    010000000000000003000000000000000064915354a6547b1f887e596e872fd13b2abdc860729da9fe31180a8172\
    6cf4a202e17cd0a38398533f50004ec57f5dd3837680b6b072223c6ffc9e2bfa0d0e723cc346a4840bce4f8de12d\
    73b3fda6bb93c7f113f7a07ee5b4951f1393dcc51ed500010000000000000002000000000000000000000000000003\
    e88b3b30a051bca9ec8bacbfaf3a351389842d99f1769a4959994077e9ec8d875789713d47487c9be9875bd8f6a471\
    f021f10440bea34709c459dce3a17031395101c346a4840bce4f8de12d73b3fda6bb93c7f113f7a07ee5b4951f1393\
    dcc51ed5000000000000000100";

const SECOND_BOUNDED: &str = "\
    0100000000000000030000000000000001e17cd0a38398533f50004ec57f5dd3837680b6b072223c6ffc9e2bfa0d\
    0e723c0264915354a6547b1f887e596e872fd13b2abdc860729da9fe31180a81726cf4a2c346a4840bce4f8de12d\
    73b3fda6bb93c7f113f7a07ee5b4951f1393dcc51ed500010000000000000002000000000000000000000000000003\
    e88b3b30a051bca9ec8bacbfaf3a351389842d99f1769a4959994077e9ec8d875789713d47487c9be9875bd8f6a471\
    f021f10440bea34709c459dce3a17031395101c346a4840bce4f8de12d73b3fda6bb93c7f113f7a07ee5b4951f1393\
    dcc51ed5000000000000000100";

const ANCHOR: &str = "\
    0100000000000000030000000000000002c346a4840bce4f8de12d73b3fda6bb93c7f113f7a07ee5b4951f1393dc\
    c51ed50189713d47487c9be9875bd8f6a471f021f10440bea34709c459dce3a1703139510000";

/// The ledger `demo` when it's new.
fn demo(alloc: Global) -> Result<Book, NoMemory> {
    let genesis = Genesis {
        name: Bytes::copy_of(alloc, b"demo")?,
        operator: OPERATOR,
        regulator: Digest([2; 32]),
    };
    Book::new(alloc, &genesis, Limits::real())
}

/// The job of the operator's record without clue and content.
fn record(alloc: Global, id: &Digest, proof: &[u8]) -> Result<Job, NoMemory>
    requires { length proof.now ≤ 64 }
    ensures { IfOk result (λ job. fits_job job ≡ true) }
{
    let content = Bytes::copy_of(alloc, b"")?;
    let digest = content_digest(content.as_slice());
    let request = request_digest(id, 0, &Digest::ZERO, 0, &digest, 0);
    let by = Approval {
        member: 0,
        key: Some(OPERATOR),
        proof: Bytes::copy_of(alloc, proof)?,
    };
    let who = approval_digest(&by);
    Ok(Job::Append {
        member: 0,
        clue: Digest::ZERO,
        content,
        content_digest: digest,
        request,
        by,
        who,
        number: 0,
    })
}

/// Whether a journal was placed.
fn is_placed(outcome: &Outcome) -> bool {
    matches!(outcome, Outcome::Placed(_))
}

/// What is made of a journal: the proof's digits, or why there is none.
fn told(
    alloc: Global,
    book: &Book,
    notary: &mut MemNotary,
    n: u64,
) -> Result<Result<String, Refusal>, Fail>
    requires { book.now.sealed ≡ book.now.size }
{
    match prove(alloc, book, notary, n) {
        Ok(made) => Ok(Ok(hex::encode(alloc, made.proof.as_slice())?)),
        Err(MakeErr::Refused(refusal)) => Ok(Err(refusal)),
        Err(MakeErr::NoMemory) => Err("no memory".into()),
    }
}

/// Whether that is so of the first journals, in order.
fn is_told(
    alloc: Global,
    book: &Book,
    notary: &mut MemNotary,
    wanted: &[Result<&str, Refusal>],
) -> Result<bool, Fail>
    requires { book.now.sealed ≡ book.now.size }
{
    for (n, want) in wanted.iter().enumerate() {
        let is_same = match (told(alloc, book, notary, n as u64)?, want) {
            (Ok(proof), Ok(digits)) => proof.as_str() == *digits,
            (Err(refusal), Err(other)) => refusal == *other,
            _ => false,
        };
        if !is_same {
            return Ok(false);
        }
    }
    Ok(true)
}

/// Places the record of the operator without clue and content, in a block of its own.
fn place_record(rt: &impl Abort, alloc: Global, book: &mut Book) -> Result<(), Fail>
    ensures { IfOk result (λ _. book.new.sealed ≡ book.new.size) }
{
    let tag = <[u8; 64]>::from_hex(TAG)?;
    let job = record(alloc, &book.id(), &tag)?;
    let outcome = book.apply(&job)?;
    assert!(rt; is_placed(&outcome));
    book.seal();
    Ok(())
}

/// Places an anchor, which the notary stamps, behind a ledger in which none waits.
fn place_anchor(alloc: Global, book: &mut Book, notary: &mut MemNotary) -> Result<(), Fail>
    ensures { IfOk result (λ _. book.new.sealed ≡ book.new.size) }
{
    let stamp = notary.stamp(alloc, &book.peg())?;
    match book.apply(&Job::Anchor)? {
        Outcome::StampWanted => book.place_time(&stamp)?,
        _ => return Err("an anchor was refused".into()),
    };
    book.seal();
    Ok(())
}

/// Each proof of the ledger is told, when it's new, when it has a record and when an anchor stands behind it.
fn prove_each(
    rt: &impl Abort,
    alloc: Global,
    book: &mut Book,
    notary: &mut MemNotary,
) -> Result<(), Fail> {
    book.seal();
    let alone = [Ok(ALONE), Err(Refusal::NoJournal { size: 1 })];
    assert!(rt; is_told(alloc, book, notary, &alone)?);
    place_record(rt, alloc, book)?;
    let both = [Ok(FIRST), Ok(SECOND), Err(Refusal::NoJournal { size: 2 })];
    assert!(rt; is_told(alloc, book, notary, &both)?);
    place_anchor(alloc, book, notary)?;
    let bounded = [Ok(FIRST_BOUNDED), Ok(SECOND_BOUNDED), Ok(ANCHOR)];
    assert!(rt; is_told(alloc, book, notary, &bounded)?);
    Ok(())
}

#[test]
fn proves_each_journal_of_a_small_ledger(rt: HostRuntime) -> Result<(), Fail> {
    let alloc = rt.alloc();
    let mut book = demo(alloc)?;
    let mut notary = MemNotary::new(alloc, Vec::new(alloc));
    prove_each(&rt, alloc, &mut book, &mut notary)
}

/// The leaf of that record, which is the proof that the ledger with both journals goes on from the first.
const LEAF: &str = "e17cd0a38398533f50004ec57f5dd3837680b6b072223c6ffc9e2bfa0d0e723c";

/// The root over both journals.
const BOTH: &str = "89713d47487c9be9875bd8f6a471f021f10440bea34709c459dce3a170313951";

/// Whether that is made of the first sizes, in order: the digits of the proof to this head, or why there is none.
fn is_extended(
    alloc: Global,
    book: &Book,
    head: &Head,
    wanted: &[Result<&str, Refusal>],
) -> Result<bool, Fail>
    requires { book.now.sealed ≡ book.now.size }
{
    for (m, want) in wanted.iter().enumerate() {
        let is_same = match (extend_ledger(alloc, book, m as u64), want) {
            (Ok(made), Ok(digits)) => {
                made.head == *head && hex::encode(alloc, made.proof.as_slice())?.as_str() == *digits
            }
            (Err(MakeErr::Refused(refusal)), Err(other)) => refusal == *other,
            _ => false,
        };
        if !is_same {
            return Ok(false);
        }
    }
    Ok(true)
}

#[test]
fn extends_each_head_of_a_small_ledger(rt: HostRuntime) -> Result<(), Fail> {
    let mut book = demo(rt.alloc())?;
    extend_each_head(&rt, rt.alloc(), &mut book)
}

/// The ledger with a record goes on from each size up to its own.
fn extend_each_head(rt: &impl Abort, alloc: Global, book: &mut Book) -> Result<(), Fail> {
    place_record(rt, alloc, book)?;
    let head = Head {
        size: 2,
        root: Digest(<[u8; 32]>::from_hex(BOTH)?),
    };
    let none = Err(Refusal::BadSize { size: 2 });
    assert!(rt; is_extended(alloc, book, &head, &[none, Ok(LEAF), Ok(""), none])?);
    Ok(())
}

/// Whether an auditor who trusts these heads accepts the proof of each journal.
fn are_accepted(
    alloc: Global,
    book: &Book,
    notary: &mut MemNotary,
    heads: &Heads,
) -> Result<bool, Fail>
    requires { book.now.sealed ≡ book.now.size }
{
    for n in 0..book.head().size {
        let made = prove(alloc, book, notary, n)?;
        if accept::<Sha>(made.proof.as_slice(), &made.claim, heads).is_err() {
            return Ok(false);
        }
    }
    Ok(true)
}

/// Whether they accept that a tree goes on from its first `m`.
fn goes_on(
    alloc: Global,
    book: &Book,
    notary: &mut MemNotary,
    heads: &Heads,
    which: Which,
    m: u64,
) -> Result<bool, Fail>
    requires { book.now.sealed ≡ book.now.size }
{
    let made = extend(alloc, book, notary, which, m)?;
    Ok(check_extension::<Sha>(which, m, &made.head, made.proof.as_slice(), heads).is_ok())
}

/// Whether the heads behind each of so many anchors are extended, where each stands behind two records.
fn are_extended(
    alloc: Global,
    book: &Book,
    notary: &mut MemNotary,
    heads: &Heads,
    anchors: u8,
) -> Result<bool, Fail>
    requires { book.now.sealed ≡ book.now.size }
{
    for behind in 1..=anchors {
        let m = u64::from(behind);
        if !goes_on(alloc, book, notary, heads, Which::Ledger, 3 * m + 1)?
            || !goes_on(alloc, book, notary, heads, Which::Notary, m)?
        {
            return Ok(false);
        }
    }
    Ok(true)
}

/// Places two records and an anchor, has the auditor trust the heads then, and tells whether all is accepted of the ledger
/// with so many anchors.
fn is_accepted_behind(
    rt: &impl Abort,
    alloc: Global,
    book: &mut Book,
    notary: &mut MemNotary,
    heads: &mut Heads,
    anchors: u8,
) -> Result<bool, Fail> {
    place_record(rt, alloc, book)?;
    place_record(rt, alloc, book)?;
    place_anchor(alloc, book, notary)?;
    heads.trust_ledger(&book.id(), &book.head())?;
    heads.trust_notary(&notary.head()?)?;
    Ok(
        are_accepted(alloc, book, notary, heads)?
            && are_extended(alloc, book, notary, heads, anchors)?,
    )
}

#[test]
fn an_auditor_accepts_what_is_made(rt: HostRuntime) -> Result<(), Fail> {
    let alloc = rt.alloc();
    let mut book = demo(alloc)?;
    let mut notary = MemNotary::new(alloc, Vec::new(alloc));
    let mut heads = Heads::new(alloc);
    accept_as_it_grows(&rt, alloc, &mut book, &mut notary, &mut heads)
}

/// Accepts all of the ledger behind each of five anchors.
fn accept_as_it_grows(
    rt: &impl Abort,
    alloc: Global,
    book: &mut Book,
    notary: &mut MemNotary,
    heads: &mut Heads,
) -> Result<(), Fail> {
    for anchors in 1..=5 {
        assert!(rt; is_accepted_behind(rt, alloc, book, notary, heads, anchors)?);
    }
    Ok(())
}
