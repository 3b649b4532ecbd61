//! Lineages of a small ledger, as an auditor accepts them.

ghost use Rattle.std.specs.Prelude.{◌≡◌, true, IfOk};
ghost use Rattle.ledger_model.specs.Fitting.{fits_job};

use clue_lineage::{LineageErr, Run, accept_lineage, lineage};
use journal_record::{Approval, approval_digest, content_digest};
use ledger_book::{Book, Genesis, Job, Limits, Outcome};
use ledger_bytes::{Bytes, Digest, NoMemory, Sha};
use std::alloc::Global;
use std::process::Abort;
use std::test::Fail;

const OPERATOR: Digest = Digest([1; 32]);

const CLUE: Digest = Digest([7; 32]);

/// A new ledger.
fn demo(alloc: Global) -> Result<Book, NoMemory> {
    let genesis = Genesis {
        name: Bytes::copy_of(alloc, b"demo")?,
        operator: OPERATOR,
        regulator: Digest([2; 32]),
    };
    Book::new(alloc, &genesis, Limits::real())
}

/// The job of a record of the operator without content, by an approval that was looked at before.
fn record(alloc: Global, clue: Digest) -> Result<Job, NoMemory>
    ensures { IfOk result (λ job. fits_job job ≡ true) }
{
    let content = Bytes::copy_of(alloc, b"")?;
    let content_digest = content_digest(content.as_slice());
    let by = Approval {
        member: 0,
        key: Some(OPERATOR),
        proof: Bytes::copy_of(alloc, b"")?,
    };
    let who = approval_digest(&by);
    Ok(Job::Append {
        member: 0,
        clue,
        content,
        content_digest,
        request: Digest([9; 32]),
        by,
        who,
        number: 0,
    })
}

/// Places a record, in a block of its own.
fn place(rt: &impl Abort, alloc: Global, book: &mut Book, clue: Digest) -> Result<(), Fail>
    ensures { IfOk result (λ _. book.new.sealed ≡ book.new.size) }
{
    let job = record(alloc, clue)?;
    let outcome = book.apply(&job)?;
    assert!(rt; matches!(outcome, Outcome::Placed(_)));
    book.seal();
    Ok(())
}

/// What an auditor who trusts the ledger's head answers to the lineage from an ordinal on: the run, or None where there is none.
fn told(alloc: Global, book: &Book, from: u32) -> Result<Option<Run>, Fail>
    requires { book.now.sealed ≡ book.now.size }
{
    match lineage(alloc, book, &CLUE, from) {
        Ok(bytes) => {
            let answer = accept_lineage::<Sha>(bytes.as_slice(), &CLUE, &book.head());
            Ok(answer.ok())
        }
        Err(LineageErr::NoLineage) => Ok(None),
        Err(LineageErr::NoMemory) => Err("no memory".into()),
    }
}

/// Journals 1, 3 and 4 have the clue: they are shown from the first, from the third, and none from the fourth.
#[test]
fn lineages_are_accepted(rt: HostRuntime) -> Result<(), Fail> {
    let alloc = rt.alloc();
    let mut book = demo(alloc)?;
    for clue in [CLUE, Digest([8; 32]), CLUE] {
        place(&rt, alloc, &mut book, clue)?;
    }
    place(&rt, alloc, &mut book, CLUE)?;
    let all = Run {
        first: 1,
        last: 3,
        count: 3,
    };
    let last = Run {
        first: 3,
        last: 3,
        count: 1,
    };
    assert_eq!(&rt; told(alloc, &book, 1)?, Some(all));
    assert_eq!(&rt; told(alloc, &book, 3)?, Some(last));
    assert_eq!(&rt; told(alloc, &book, 4)?, None);
    Ok(())
}
