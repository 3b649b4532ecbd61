//! The command `lineage`: an opened ledger's records of one clue, with what proves them to an auditor.

ghost use Rattle.std.specs.Prelude.{◌≡◌};
ghost use Rattle.batch_committer.specs.World.{pair};
ghost use Rattle.ledger_io.specs.Outside.{SourceState, outside};
ghost use Rattle.time_peg.specs.Entries.{NotaryState};
ghost use Rattle.ledger_cli.specs.Asking.{IsLineageOf, IsUntraced, TellsOne, TracesClue};
ghost use Rattle.ledger_cli.specs.Runs.{handed};

use crate::denial::Denial;
use crate::ending::LedgerEnding;
use crate::top::write_text;
use clue_lineage::{LineageErr, lineage};
use ledger_book::Book;
use ledger_bytes::Digest;
use ledger_disk::Disk;
use ledger_io::{Ending, Sink};
use ledger_model::Limits;
use ledger_open::reopen;
use std::alloc::Global;
use std::thread::Threads;

/// Opens the ledger of two disks, and writes the lineage of a clue's records from an ordinal on.
pub(crate) fn trace<R: Threads, K: Sink, D: Disk>(
    rt: &R,
    alloc: Global,
    clue: &Digest,
    from: u32,
    sink: &mut K,
    a: &mut D,
    b: &mut D,
) -> LedgerEnding
    ensures { (source : SourceState) (notary : NotaryState) → TracesClue from clue.now D.tells result
        (handed source (K.state sink.old) (pair (D.state a.old) (D.state b.old)) notary)
        (handed source (K.state sink.new) (pair (D.state a.new) (D.state b.new)) notary) }
{
    match reopen(rt, alloc, a, b, Limits::real()) {
        Ok(opened) => tell(alloc, &opened.book, clue, from, sink),
        Err(error) => LedgerEnding::from(error),
    }
}

// Writes the lineage of a clue from a book.
fn tell<K: Sink>(alloc: Global, book: &Book, clue: &Digest, from: u32, sink: &mut K) -> LedgerEnding
    requires settled { book.now.sealed ≡ book.now.size }
    ensures { (source : SourceState) → TellsOne book.now (IsLineageOf from clue.now) (IsUntraced from clue.now) result
        (outside source (K.state sink.old)) (outside source (K.state sink.new)) }
{
    match lineage(alloc, book, clue, from) {
        Ok(text) => write_text(text.as_slice(), sink),
        Err(LineageErr::NoLineage) => LedgerEnding::Refused(Denial::NoLineage),
        Err(LineageErr::NoMemory) => LedgerEnding::Run(Ending::NoMemory),
    }
}
