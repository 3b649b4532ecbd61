//! A set is carried on to a later time journal.

ghost use Rattle.std.specs.Prelude.{◌≡◌, ◌≤◌, ◌<◌, IfErr, OnOk, slice_get};
ghost use Rattle.ledger_book.specs.Books.{Serves};
ghost use Rattle.ledger_model.specs.History.{History, journals};
ghost use Rattle.survivor_set.specs.Carries.{Fits, FitsPath, PutsCarried, PutsAll};
ghost use Rattle.survivor_set.specs.Outcomes as outcome;
ghost use Rattle.survivor_set.specs.Outcomes.{CarriesOn, Tells};
ghost use Rattle.survivor_set.specs.Keeping.{IsDiskless};
ghost use Rattle.survivor_set.specs.Sets.{IsSaved};

use crate::checking::check_set;
use crate::paths::carried_path;
use crate::writing::{put_front, put_survivor};
use crate::{Set, SetErr, Survivor};
use journal_record::Kind;
use ledger_book::Book;
use ledger_bytes::{Bytes, FieldWriter, NoMemory, Refusal, Sha};
use merkle_batch::Tree;
use std::alloc::Global;

/// Carries a set on to a later time journal: the bytes of a set with the same journals as they are, the root over the journals in
/// front of that one, and the paths that lead to it. The set's point may be carried on to itself. The set is judged first, as
/// [`check_set`] does; then the journal: `NoJournal` where it is at least the ledger's size, `NotBelow` with the set's point where
/// it lies below that, and `NotTime` where it tells no time. It costs the judging, and for each survivor two paths and as many
/// hashes as a path has digests.
pub fn carry(alloc: Global, book: &Book, set: &Set, point: u64) -> Result<Bytes, SetErr>
    requires settled { book.now.sealed ≡ book.now.size }
    ensures answer { (h : History) → Serves book.now h → CarriesOn h set.now point result }
    // It asks no disk.
    ensures own { IfErr result IsDiskless }
{
    check_set(book, set)?;
    check_later(book, set, point)?;
    let tree = book.tree();
    let root = tree.root_at(point)?;
    let mut fields = FieldWriter::new(alloc);
    put_front(&mut fields, &set.id(), point, &root, set.count())?;
    put_all(alloc, &mut fields, tree, set, point)?;
    Ok(fields.finish())
}

// A set can be carried on to this journal.
fn check_later(book: &Book, set: &Set, point: u64) -> Result<(), SetErr>
    requires { book.now.tree.floor ≤ set.now.point }
    ensures judged { (h : History) → Serves book.now h → Tells result (outcome.later_refusal h set.now point) }
    ensures from { OnOk result (set.now.point ≤ point) }
    ensures more { OnOk result (point < book.now.tree.size) }
    ensures own { IfErr result IsDiskless }
{
    let size = book.tree().size();
    if point >= size {
        return Err(SetErr::Refused(Refusal::NoJournal { size }));
    }
    if point < set.point() {
        return Err(SetErr::NotBelow { point: set.point() });
    }
    check_time(book, point)
}

// The journal at a point, where there is one, tells a time.
pub(crate) fn check_time(book: &Book, point: u64) -> Result<(), SetErr>
    requires { book.now.floor ≤ point }
    ensures judged { (h : History) → Serves book.now h
        → Tells result (outcome.time_refusal (slice_get (journals h) point)) }
    ensures own { IfErr result IsDiskless }
{
    let Some(header) = book.header(point) else {
        return Ok(());
    };
    check_kind(header.kind)
}

// A journal of this kind tells a time.
fn check_kind(kind: Kind) -> Result<(), SetErr>
    ensures judged { Tells result (outcome.kind_refusal kind) }
    ensures own { IfErr result IsDiskless }
{
    if kind == Kind::Time {
        return Ok(());
    }
    let kind = kind.code();
    Err(SetErr::Refused(Refusal::NotTime { kind }))
}

// Adds all survivors of a set with their paths among the first journals, up to this one.
fn put_all(
    alloc: Global,
    fields: &mut FieldWriter,
    tree: &Tree<Sha>,
    set: &Set,
    point: u64,
) -> Result<(), NoMemory>
    requires fits { Fits tree.now set.now }
    requires from { set.now.point ≤ point }
    requires more { point ≤ tree.now.size }
    ensures { OnOk result (PutsAll tree.now set.now.point point set.now.survivors set.now.survivors
        fields.old fields.new) }
{
    for i in 0..set.count() {
        put_carried(alloc, fields, tree, set.point(), &set.survivor(i), point)?;
    }
    Ok(())
}

// Adds a survivor with its path among the first journals, up to this one.
fn put_carried(
    alloc: Global,
    fields: &mut FieldWriter,
    tree: &Tree<Sha>,
    from: u64,
    survivor: &Survivor,
    point: u64,
) -> Result<(), NoMemory>
    requires fits { FitsPath from survivor.now }
    requires saved { IsSaved survivor.now }
    requires floor { tree.now.floor ≤ from }
    requires from { from ≤ point }
    requires more { point ≤ tree.now.size }
    ensures { OnOk result (PutsCarried tree.now from point survivor.now fields.old fields.new) }
{
    if from == point {
        return put_survivor(alloc, fields, survivor.item(), survivor.path());
    }
    let row = carried_path(alloc, tree, survivor.number(), from, point, survivor.path())?;
    put_survivor(alloc, fields, survivor.item(), row.as_slice())
}
