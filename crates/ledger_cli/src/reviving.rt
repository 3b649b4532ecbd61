//! The command `revive`: the views and the proofs of a set's survivors, from an opened ledger.

ghost use Rattle.std.specs.Prelude.{◌≡◌, ◌≤◌, ◌<◌, ◌++◌, Some, length, drop, slice_get, OnOk, IfErr};
ghost use Rattle.batch_committer.specs.World.{pair};
ghost use Rattle.ledger_book.specs.Books.{Serves};
ghost use Rattle.ledger_io.specs.Outside.{outside};
ghost use Rattle.ledger_model.specs.History.{History};
ghost use Rattle.survivor_set.specs.Carries.{Fits};
ghost use Rattle.survivor_set.specs.Keeping.{IsDiskless};
ghost use Rattle.survivor_set.specs.Sets.{Saved};
ghost use Rattle.ledger_cli.specs.Runs.{handed};
ghost use Rattle.ledger_cli.specs.Surviving as surviving;
ghost use Rattle.ledger_cli.specs.Surviving.{AsksBy, AsksFor, HasRevived, PutsRevived, PutsSurvivor, RevivesIn, RevivesSet};

use crate::ending::{LedgerEnding, put_line};
use crate::surviving::read_set;
use crate::top::write_text;
use journal_record::{Body, Record};
use ledger_book::Book;
use ledger_bytes::{Bytes, NoMemory};
use ledger_disk::Disk;
use ledger_io::{Sink, Source};
use ledger_model::Limits;
use ledger_open::reopen;
use proof_maker::Made;
use script_lines::Word;
use std::alloc::Global;
use std::thread::Threads;
use survivor_set::{Set, SetErr, check_set, revive_judged};
use time_peg::Notary;

/// Opens the ledger of two disks, and writes the view and the proof of each survivor of the input's set. Nothing is written before all
/// are made.
pub(crate) fn revive_set<R: Threads, S: Source, K: Sink, D: Disk, N: Notary>(
    rt: &R,
    alloc: Global,
    source: &mut S,
    sink: &mut K,
    a: &mut D,
    b: &mut D,
    notary: &mut N,
) -> LedgerEnding
    ensures { RevivesSet D.tells result
        (handed (S.state source.old) (K.state sink.old) (pair (D.state a.old) (D.state b.old)) (N.state notary.old))
        (handed (S.state source.new) (K.state sink.new) (pair (D.state a.new) (D.state b.new)) (N.state notary.new)) }
{
    match reopen(rt, alloc, a, b, Limits::real()) {
        Ok(opened) => revive_in(alloc, &opened.book, source, sink, notary),
        Err(error) => LedgerEnding::from(error),
    }
}

// Writes the views and the proofs of the survivors of the input's set, as a book gives them.
fn revive_in<S: Source, K: Sink, N: Notary>(
    alloc: Global,
    book: &Book,
    source: &mut S,
    sink: &mut K,
    notary: &mut N,
) -> LedgerEnding
    requires settled { book.now.sealed ≡ book.now.size }
    ensures revives { RevivesIn book.now (N.state notary.old).entries result
        (outside (S.state source.old) (K.state sink.old))
        (outside (S.state source.new) (K.state sink.new)) }
    ensures asks { AsksBy result (N.state notary.old) (N.state notary.new) }
{
    let input = match read_set(alloc, source) {
        Ok(input) => input,
        Err(ending) => return LedgerEnding::Run(ending),
    };
    match revive_bytes(alloc, book, notary, input.as_slice()) {
        Ok(text) => write_text(text.as_slice(), sink),
        Err(error) => LedgerEnding::from(error),
    }
}

// The lines of the survivors of the set that bytes spell.
fn revive_bytes<N: Notary>(
    alloc: Global,
    book: &Book,
    notary: &mut N,
    bytes: &[u8],
) -> Result<Bytes, SetErr>
    requires settled { book.now.sealed ≡ book.now.size }
    ensures revives { (h : History) → Serves book.now h
        → HasRevived h (N.state notary.old).entries bytes.now result }
    ensures asks { AsksFor result (N.state notary.old) (N.state notary.new) }
    ensures own { IfErr result IsDiskless }
{
    let set = Set::decode(bytes)?;
    check_set(book, &set)?;
    let mut text = Vec::new(alloc);
    put_survivors(alloc, book, notary, &set, 0, &mut text)?;
    Ok(Bytes::of(text))
}

// Appends the lines of the survivors with this place among those of a set, from 0, and behind it.
fn put_survivors<N: Notary>(
    alloc: Global,
    book: &Book,
    notary: &mut N,
    set: &Set,
    first: u8,
    out: &mut Vec<u8>,
) -> Result<(), SetErr>
    requires settled { book.now.sealed ≡ book.now.size }
    requires fits { Fits book.now.tree set.now }
    requires within { first ≤ length set.now.survivors }
    ensures puts { (h : History) → Serves book.now h
        → PutsRevived h (N.state notary.old).entries set.now.point (drop first set.now.survivors)
        result out.old.items out.new.items }
    ensures asks { AsksFor result (N.state notary.old) (N.state notary.new) }
    ensures own { IfErr result IsDiskless }
{
    if first == set.count() {
        return Ok(());
    }
    put_survivor(alloc, book, notary, set, first, out)?;
    put_survivors(alloc, book, notary, set, first + 1, out)
}

// Appends the two lines of the survivor with this place.
fn put_survivor<N: Notary>(
    alloc: Global,
    book: &Book,
    notary: &mut N,
    set: &Set,
    i: u8,
    out: &mut Vec<u8>,
) -> Result<(), SetErr>
    requires settled { book.now.sealed ≡ book.now.size }
    requires fits { Fits book.now.tree set.now }
    requires within { i < length set.now.survivors }
    ensures puts { (h : History) (x : Saved) → Serves book.now h → slice_get set.now.survivors i ≡ Some x
        → PutsSurvivor h (N.state notary.old).entries set.now.point x result out.old.items out.new.items }
    ensures asks { AsksFor result (N.state notary.old) (N.state notary.new) }
    ensures own { IfErr result IsDiskless }
{
    let Some(survivor) = set.get(i) else {
        unreachable!()
    };
    let made = revive_judged(alloc, book, notary, set, i)?;
    put_view(out, &survivor.item)?;
    Ok(put_proof(out, &made)?)
}

// Appends the line of a journal's view.
fn put_view(out: &mut Vec<u8>, item: &Record) -> Result<(), NoMemory>
    ensures { OnOk result (out.new.items ≡ out.old.items ++ surviving.view_line item.now) }
{
    let header = item.header.encode();
    match item.body {
        Body::Whole(content) => put_line(
            out,
            b"whole",
            &[Word::Hex(&header), Word::Hex(content), Word::Hex(item.who)],
        ),
        Body::Erased => put_line(out, b"occulted", &[Word::Hex(&header), Word::Hex(item.who)]),
    }
}

// Appends the line of a proof, with what it claims.
fn put_proof(out: &mut Vec<u8>, made: &Made) -> Result<(), NoMemory>
    ensures { OnOk result (out.new.items
        ≡ out.old.items ++ surviving.proof_line made.now.claim made.now.proof) }
{
    let claim = &made.claim;
    put_line(
        out,
        b"proof",
        &[
            Word::Number(claim.n),
            Word::Hash(claim.leaf),
            Word::Mark(claim.lo),
            Word::Mark(claim.hi),
            Word::Hex(made.proof.as_slice()),
        ],
    )
}
