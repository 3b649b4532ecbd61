//! The commands `keep` and `carry`: journals of an opened ledger in a set of survivors, and a set that is carried on.

ghost use Rattle.std.specs.Prelude.{◌≡◌, IfOk, IfErr};
ghost use Rattle.batch_committer.specs.World.{pair};
ghost use Rattle.ledger_book.specs.Books.{Serves};
ghost use Rattle.ledger_io.specs.Outside.{SourceState, outside};
ghost use Rattle.ledger_model.specs.History.{History};
ghost use Rattle.survivor_set.specs.Keeping.{IsDiskless};
ghost use Rattle.time_peg.specs.Entries.{NotaryState};
ghost use Rattle.ledger_cli.specs.Runs.{handed};
ghost use Rattle.ledger_cli.specs.Surviving.{CarriesIn, CarriesSet, HasCarried, IsRead, IsUnread, KeepsJournals};
ghost use Rattle.ledger_cli.specs.Words.{AreKeepable};

use crate::ending::LedgerEnding;
use crate::top::write_text;
use ledger_book::Book;
use ledger_bytes::Bytes;
use ledger_disk::Disk;
use ledger_io::{Ending, Sink, Source, Window};
use ledger_model::Limits;
use ledger_open::reopen;
use std::alloc::Global;
use std::thread::Threads;
use survivor_set::{Set, SetErr, carry, keep};

/// The most bytes that an input with a set may have.
const SET_LIMIT: usize = 268_435_456;

/// Opens the ledger of two disks, and writes the set of these journals in front of a time journal.
pub(crate) fn keep_journals<R: Threads, K: Sink, D: Disk>(
    rt: &R,
    alloc: Global,
    point: u64,
    numbers: &[u64],
    sink: &mut K,
    a: &mut D,
    b: &mut D,
) -> LedgerEnding
    requires { AreKeepable numbers.now }
    ensures { (source : SourceState) (notary : NotaryState) → KeepsJournals point numbers.now D.tells result
        (handed source (K.state sink.old) (pair (D.state a.old) (D.state b.old)) notary)
        (handed source (K.state sink.new) (pair (D.state a.new) (D.state b.new)) notary) }
{
    let opened = match reopen(rt, alloc, a, b, Limits::real()) {
        Ok(opened) => opened,
        Err(error) => return LedgerEnding::from(error),
    };
    match keep(alloc, &opened, a, b, point, numbers) {
        Ok(set) => write_text(set.as_slice(), sink),
        Err(error) => LedgerEnding::from(error),
    }
}

/// Opens the ledger of two disks, and writes the set of the input again, carried on to a later time journal.
pub(crate) fn carry_set<R: Threads, S: Source, K: Sink, D: Disk>(
    rt: &R,
    alloc: Global,
    point: u64,
    source: &mut S,
    sink: &mut K,
    a: &mut D,
    b: &mut D,
) -> LedgerEnding
    ensures { (notary : NotaryState) → CarriesSet point D.tells result
        (handed (S.state source.old) (K.state sink.old) (pair (D.state a.old) (D.state b.old)) notary)
        (handed (S.state source.new) (K.state sink.new) (pair (D.state a.new) (D.state b.new)) notary) }
{
    match reopen(rt, alloc, a, b, Limits::real()) {
        Ok(opened) => carry_in(alloc, &opened.book, point, source, sink),
        Err(error) => LedgerEnding::from(error),
    }
}

// Writes the set of the input again, as a book carries it on.
fn carry_in<S: Source, K: Sink>(
    alloc: Global,
    book: &Book,
    point: u64,
    source: &mut S,
    sink: &mut K,
) -> LedgerEnding
    requires settled { book.now.sealed ≡ book.now.size }
    ensures { CarriesIn book.now point result
        (outside (S.state source.old) (K.state sink.old))
        (outside (S.state source.new) (K.state sink.new)) }
{
    let input = match read_set(alloc, source) {
        Ok(input) => input,
        Err(ending) => return LedgerEnding::Run(ending),
    };
    match carry_bytes(alloc, book, point, input.as_slice()) {
        Ok(text) => write_text(text.as_slice(), sink),
        Err(error) => LedgerEnding::from(error),
    }
}

// The set that is carried on from the one that bytes spell.
fn carry_bytes(alloc: Global, book: &Book, point: u64, bytes: &[u8]) -> Result<Bytes, SetErr>
    requires settled { book.now.sealed ≡ book.now.size }
    ensures carries { (h : History) → Serves book.now h → HasCarried h point bytes.now result }
    ensures own { IfErr result IsDiskless }
{
    let set = Set::decode(bytes)?;
    carry(alloc, book, &set, point)
}

/// Reads the whole input, which is to spell a set. An error is the ending that it brings.
pub(crate) fn read_set<S: Source>(alloc: Global, source: &mut S) -> Result<Window, Ending>
    ensures read { IfOk result (λ window. IsRead (S.state source.old) (S.state source.new) window.held) }
    ensures ended { IfErr result (IsUnread (S.state source.old) (S.state source.new)) }
{
    let mut window = Window::new(alloc);
    window.fill(source, SET_LIMIT + 1)?;
    if window.as_slice().len() > SET_LIMIT {
        return Err(Ending::ScriptTooLong);
    }
    Ok(window)
}
