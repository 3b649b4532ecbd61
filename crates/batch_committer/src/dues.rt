//! The text of the replies and receipts that are due when a block has ended.

ghost use Rattle.std.specs.Prelude.{◌≡◌, ◌++◌, ◌<◌, ◌≤◌, None, Some, OnOk};
ghost use Rattle.ledger_model.specs.Dues.{due_line, due_lines, IsWithin};
ghost use Rattle.ledger_model.specs.History.{History};
ghost use Rattle.ledger_book.specs.Books.{Serves};
ghost use Rattle.batch_committer.specs.Steps.{AllKept, AreLastFrom, end_in, last_end};

use ledger_book::Book;
use ledger_bytes::NoMemory;
use ledger_model::{Answer, Due};
use script_lines::{BlockEnd, put_receipt, put_reply};
use std::alloc::Global;

/// Appends the lines that are due, where the last block of the ledger has ended and has the journals from `first` on. A
/// receipt of an earlier journal tells the end of that journal's own block.
pub(crate) fn spell(
    alloc: Global,
    text: &mut Vec<u8>,
    book: &Book,
    first: u64,
    dues: &[Due],
) -> Result<(), NoMemory>
    ensures { OnOk result ((h : History) → Serves book.now h → AreLastFrom first h
        → AllKept book.now dues.now
        → text.new.items ≡ text.old.items ++ due_lines h dues.now) }
{
    let mut last = end_of_last(alloc, book);
    for due in dues {
        put_due(alloc, text, book, first, due, &mut last)?;
    }
    Ok(())
}

// The end of the last block.
fn end_of_last(alloc: Global, book: &Book) -> BlockEnd
    ensures { (h : History) → Serves book.now h → result ≡ last_end h }
{
    let head = book.head();
    BlockEnd::new(alloc, book.blocks().saturating_sub(1), head.size, head.root)
}

// The line that is due, where the last block has the journals from `first` on and this end.
fn put_due(
    alloc: Global,
    text: &mut Vec<u8>,
    book: &Book,
    first: u64,
    due: &Due,
    last: &mut BlockEnd,
) -> Result<(), NoMemory>
    ensures due { OnOk result ((h : History) → Serves book.now h → AreLastFrom first h
        → last.old ≡ last_end h → IsWithin book.now.floor book.now.sealed due.now.answer
        → text.new.items ≡ text.old.items ++ due_line h due.now) }
    ensures same { last.new ≡ last.old }
{
    match &due.answer {
        Answer::Reply(reply) => put_reply(text, due.lane, due.index, reply),
        Answer::Receipt { jsn, leaf, stamp } => {
            let stamp = stamp.map(|stamp| (stamp.index, stamp.time));
            match earlier_end(alloc, book, first, *jsn) {
                Some(mut end) => {
                    put_receipt(text, due.lane, due.index, *jsn, leaf, &mut end, stamp)
                }
                None => put_receipt(text, due.lane, due.index, *jsn, leaf, last, stamp),
            }
        }
    }
}

// The end of the block of a journal in front of `first`.
fn earlier_end(alloc: Global, book: &Book, first: u64, jsn: u64) -> Option<BlockEnd>
    ensures some { (h : History) → Serves book.now h → book.now.floor ≤ jsn
        → jsn < book.now.sealed → jsn < first → result ≡ Some (end_in h jsn) }
    ensures none { first ≤ jsn → result ≡ None }
{
    if jsn >= first {
        return None;
    }
    let (block, head) = book.block_end(jsn)?;
    Some(BlockEnd::new(alloc, block, head.size, head.root))
}
