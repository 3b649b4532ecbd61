//! The end of the open block, before the disk has it.

ghost use Rattle.std.specs.Prelude.{◌≡◌, ◌≤◌, ◌+◌, ◌++◌, length, OnOk};
ghost use Rattle.ledger_bytes.specs.declared.limits.TheConstants.{BLOCK_LIMIT};
ghost use Rattle.journal_record.specs.Blocks.{body_of};
ghost use Rattle.ledger_model.specs.Dues.{due_lines, AllWaiting};
ghost use Rattle.ledger_model.specs.History.{History, close, point};
ghost use Rattle.ledger_book.specs.Books.{Serves};
ghost use Rattle.ledger_book.specs.Steps.{IsSame};
ghost use Rattle.batch_committer.specs.Steps.{last_bytes};
ghost use Rattle.batch_committer.specs.World.{sealed_part};

use crate::dues::spell;
use block_file::BlockWriter;
use ledger_book::Book;
use ledger_bytes::NoMemory;
use ledger_model::Due;
use std::alloc::Global;

/// How many blocks are committed together at most.
pub(crate) const GROUP_BLOCKS: u32 = 64;

/// A group that has as many bytes isn't left to wait for further blocks.
pub(crate) const GROUP_BYTES: usize = 1_048_576;

/// No gate stands behind this offset.
pub(crate) const LAST_GATE: u64 = 1 << 62;

/// Ends the open block in the book, fills in its head, and appends the lines of what waited for its end. No disk is touched.
pub(crate) fn end_open(
    alloc: Global,
    book: &mut Book,
    block: &mut BlockWriter,
    text: &mut Vec<u8>,
    dues: &[Due],
) -> Result<(), NoMemory>
    requires few { book.old.size ≤ book.old.sealed + BLOCK_LIMIT }
    ensures serves { (h : History) → Serves book.old h → Serves book.new (close h) }
    ensures same { IsSame book.old book.new }
    ensures ended { (book.new.size ≡ book.old.size) × (book.new.sealed ≡ book.old.size) }
    ensures bytes { OnOk result ((h : History) → Serves book.old h → block.old.body ≡ body_of h.waiting
        → block.new.head ++ block.new.body ≡ last_bytes h) }
    ensures text { OnOk result ((h : History) → Serves book.old h → book.old.floor ≡ point (sealed_part h)
        → 1 ≤ length h.waiting → AllWaiting h dues.now
        → text.new.items ≡ text.old.items ++ due_lines (close h) dues.now) }
    ensures head { OnOk result (length block.new.head ≡ 44) }
    ensures body { OnOk result (block.new.body ≡ block.old.body) }
    ensures before { OnOk result (block.new.before ≡ block.old.before) }
{
    let first = book.sealed_size();
    let count = book.unsealed() as u32;
    // The block ends in the book before its receipts are spelled, since they tell the root behind it.
    book.seal();
    spell(alloc, text, book, first, dues)?;
    block.finish(count, &book.head().root)?;
    Ok(())
}
