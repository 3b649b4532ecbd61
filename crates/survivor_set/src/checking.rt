//! A set is judged by a ledger: whether it is this ledger's, and whether its survivors lead to its root.

ghost use Rattle.std.specs.Prelude.{◌≡◌, ◌≤◌, ◌<◌, OnOk, IfErr, option_map};
ghost use Rattle.ledger_book.specs.Books.{Serves};
ghost use Rattle.ledger_model.specs.Getting.{damage};
ghost use Rattle.ledger_model.specs.History.{History};
ghost use Rattle.journal_record.specs.Items.{body_seen};
ghost use Rattle.survivor_set.specs.Outcomes as outcome;
ghost use Rattle.survivor_set.specs.Outcomes.{IsOwn, Tells};
ghost use Rattle.survivor_set.specs.Carries.{Fits};
ghost use Rattle.survivor_set.specs.declared.failure.SetErr.TheVariants.{Refused};

use crate::{Set, SetErr, Survivor};
use journal_record::{Body, Header, content_digest, who_digest};
use ledger_book::Book;
use ledger_bytes::{Digest, Refusal, Sha};
use merkle_tree::{fold_path, leaf_of};

/// Judges a set by the ledger of this book. In this order: `OtherLedger` where the set's id is another; `NoJournal` where its
/// point is at least the ledger's size, `Purged` where it lies below the ledger's point, `RootDiffers` where its root isn't the
/// ledger's there; and then of each survivor `LeafPath` where its path doesn't lead to the set's root, and `Damaged` where a
/// content that is there, or the who, has another digest than its header names. It hashes each content once.
pub fn check_set(book: &Book, set: &Set) -> Result<(), SetErr>
    ensures judged { (h : History) → Serves book.now h → Tells result (outcome.set_refusal h set.now) }
    ensures fits { OnOk result (Fits book.now.tree set.now) }
    // It asks no notary and no disk.
    ensures own { IfErr result IsOwn }
{
    check_front(book, set)?;
    check_survivors(set)
}

// The set's id, point and root are the ledger's.
fn check_front(book: &Book, set: &Set) -> Result<(), SetErr>
    ensures judged { (h : History) → Serves book.now h → Tells result (outcome.front_refusal h set.now) }
    ensures floor { OnOk result (book.now.tree.floor ≤ set.now.point) }
    ensures more { OnOk result (set.now.point < book.now.tree.size) }
    ensures own { IfErr result IsOwn }
{
    let (id, tree, point) = (book.id(), book.tree(), set.point());
    if set.id() != id {
        return Err(SetErr::OtherLedger { kept: id });
    }
    if point >= tree.size() {
        return Err(SetErr::Refused(Refusal::NoJournal { size: tree.size() }));
    }
    if point < book.point() {
        let point = book.point();
        return Err(SetErr::Refused(Refusal::Purged { point }));
    }
    let root = tree.root_at(point)?;
    if set.root() != root {
        return Err(SetErr::Refused(Refusal::RootDiffers { kept: root }));
    }
    Ok(())
}

// Each survivor leads to the set's root, and is whole.
fn check_survivors(set: &Set) -> Result<(), SetErr>
    ensures { Tells result (outcome.survivors_refusal set.now set.now.survivors) }
{
    for i in 0..set.count() {
        check_survivor(set, &set.survivor(i))?;
    }
    Ok(())
}

// A survivor leads to the set's root, and is whole.
fn check_survivor(set: &Set, survivor: &Survivor) -> Result<(), SetErr>
    ensures { Tells result (outcome.survivor_refusal set.now survivor.now) }
{
    let header = survivor.header();
    check_path(set, header, survivor.path())?;
    check_body(header, &survivor.body())?;
    check_part(&header.who_digest, who_digest(survivor.who()))
}

// The path of a journal with this header leads to the set's root.
fn check_path(set: &Set, header: &Header, path: &[u8]) -> Result<(), SetErr>
    ensures { Tells result (outcome.path_refusal set.now header.now path.now) }
{
    let leaf = leaf_of::<Sha>(&header.encode());
    match fold_path::<Sha>(&leaf, header.jsn, set.point(), path) {
        Some(root) if root == set.root() => Ok(()),
        _ => Err(SetErr::LeafPath),
    }
}

// A content that is there has the digest that its header names.
fn check_body(header: &Header, body: &Body) -> Result<(), SetErr>
    ensures { Tells result (option_map Refused (outcome.body_damage header.now (body_seen body.now))) }
{
    match body {
        Body::Whole(content) => check_part(&header.content_digest, content_digest(content)),
        Body::Erased => Ok(()),
    }
}

// A part has the digest that its header names.
fn check_part(kept: &Digest, found: Digest) -> Result<(), SetErr>
    ensures { Tells result (option_map Refused (damage kept.now found.0)) }
{
    if found == *kept {
        return Ok(());
    }
    let kept = *kept;
    Err(SetErr::Refused(Refusal::Damaged { kept, found }))
}
