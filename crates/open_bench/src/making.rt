//! A ledger on two files, made block by block.

ghost use Rattle.std.specs.Prelude.{◌≡◌, true, IfOk, length};
ghost use Rattle.ledger_model.specs.Fitting.{fits_job};

use anyhow::{Context, Result, bail};
use block_file::{BlockFile, BlockWriter, FIRST_GATE};
use journal_record::{
    Approval, approval_digest, clue_digest, content_digest, request_digest, tag_of,
};
use ledger_book::{Book, Job, Outcome, first_header};
use ledger_bytes::{Bytes, Digest, NoMemory};
use ledger_disk::Disk;
use ledger_model::{Genesis, Limits};
use std::alloc::Global;

const OPERATOR: Digest = Digest([1; 32]);

const REGULATOR: Digest = Digest([2; 32]);

/// How much is made.
#[derive(Clone, Copy)]
pub(crate) struct Plan {
    pub(crate) journals: u32,
    /// How many clues the records have in turn; 0 for none.
    pub(crate) clues: u32,
}

/// Makes a ledger of the two disks, whatever they had: the first has its blocks, and the second is empty. Nothing is
/// synced between the blocks, since nobody relies on them before the end.
pub(crate) fn make<D: Disk>(alloc: Global, a: &mut D, b: &mut D, plan: &Plan) -> Result<()> {
    let genesis = Genesis {
        name: Bytes::copy_of(alloc, b"demo")?,
        operator: OPERATOR,
        regulator: REGULATOR,
    };
    let mut book = Book::new(alloc, &genesis, Limits::real())?;
    empty(b)?;
    write(alloc, a, &genesis, &mut book, plan)
}

fn empty<D: Disk>(disk: &mut D) -> Result<()> {
    disk.cut(0)?;
    disk.sync()?;
    Ok(())
}

// Writes the file of a new book, which takes the records.
fn write<D: Disk>(
    alloc: Global,
    disk: &mut D,
    genesis: &Genesis,
    book: &mut Book,
    plan: &Plan,
) -> Result<()> {
    BlockFile::start(disk)?;
    let mut file = BlockFile::create(disk, 1, &[])?;
    let mut block = BlockWriter::new(alloc);
    gather_first(&mut block, genesis, &book.head().root)?;
    file.put_block(disk, block.as_slice())?;
    for _ in 0..plan.journals.saturating_sub(1).div_ceil(64) {
        block.clear();
        gather_block(alloc, book, &mut block, plan)?;
        file.put_block(disk, block.as_slice())?;
    }
    file.unveil(disk)?;
    Ok(())
}

// Gathers the first block, which has journal 0 alone.
fn gather_first(block: &mut BlockWriter, genesis: &Genesis, root: &Digest) -> Result<()> {
    let header = first_header(genesis).encode();
    block.put(FIRST_GATE, &header, &genesis.content(), &[])?;
    block.finish(1, root)?;
    Ok(())
}

// Gathers the next block, which is placed in the book: 64 records, or as many as are left.
fn gather_block(
    alloc: Global,
    book: &mut Book,
    block: &mut BlockWriter,
    plan: &Plan,
) -> Result<()> {
    let first = book.head().size;
    let count = u64::from(plan.journals).saturating_sub(first).min(64) as u32;
    for number in 0..u64::from(count) {
        gather_record(alloc, book, block, first.saturating_add(number), plan.clues)?;
    }
    let sealed = book.seal().context("no record")?;
    block.finish(count, &sealed.head.root)?;
    Ok(())
}

// Places the record with this number, whose content is its number, and gathers it.
fn gather_record(
    alloc: Global,
    book: &mut Book,
    block: &mut BlockWriter,
    number: u64,
    clues: u32,
) -> Result<()> {
    let content = number.to_be_bytes();
    let clue = clue_of(number, clues);
    let request = request_digest(&book.id(), 0, &clue, 8, &content_digest(&content), 0);
    let Outcome::Placed(placed) = book.apply(&job(alloc, &content, clue, request)?)? else {
        bail!("a record was refused");
    };
    let by = approval(alloc, &request)?;
    block.put(FIRST_GATE, &placed.header, &content, &[by])?;
    Ok(())
}

// The clue of a record, where there are so many.
fn clue_of(number: u64, clues: u32) -> Digest {
    match number.checked_rem(u64::from(clues)) {
        Some(turn) => clue_digest(&turn.to_be_bytes()),
        None => Digest::ZERO,
    }
}

// The operator's approval of a request.
fn approval(alloc: Global, request: &Digest) -> Result<Approval, NoMemory>
    ensures { IfOk result (λ by. (by.member ≡ 0) × (length by.proof ≡ 64)) }
{
    let mut proof = [0; 64];
    let (key, tag) = proof.split_at_mut(32);
    key.copy_from_slice(&OPERATOR.0);
    tag.copy_from_slice(&tag_of(&OPERATOR, request).0);
    Ok(Approval {
        member: 0,
        key: Some(OPERATOR),
        proof: Bytes::copy_of(alloc, &proof)?,
    })
}

// The job of a record of the operator.
fn job(alloc: Global, content: &[u8; 8], clue: Digest, request: Digest) -> Result<Job, NoMemory>
    ensures { IfOk result (λ job. fits_job job ≡ true) }
{
    let content = Bytes::copy_of(alloc, content)?;
    let content_digest = content_digest(content.as_slice());
    let by = approval(alloc, &request)?;
    let who = approval_digest(&by);
    Ok(Job::Append {
        member: 0,
        clue,
        content,
        content_digest,
        request,
        by,
        who,
        number: 0,
    })
}
