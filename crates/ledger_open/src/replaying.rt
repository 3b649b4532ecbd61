//! How the blocks of a file are taken into the book when a ledger is opened, and which damage is told.

ghost use Rattle.std.specs.Prelude.{◌≡◌, ◌⊎◌, ◌+◌, ◌^◌, ◌<◌, ◌≤◌, [], ◌∷◌, ℕ, All, List, length, take, IfErr, OnOk, Option, vec_len};
ghost use Rattle.block_file.specs.declared.failure.Damage.{Damage};
ghost use Rattle.block_file.specs.declared.failure.Damage.TheVariants as damages;
ghost use Rattle.journal_record.specs.Entry.{Entry};
ghost use Rattle.journal_record.specs.Rules.{IsHeader};
ghost use Rattle.ledger_model.specs.Behind.{next_number};
ghost use Rattle.ledger_model.specs.History.{journals_of};
ghost use Rattle.ledger_model.specs.Lawful as lawful;
ghost use Rattle.pseudo_genesis.specs.declared.base.Base.{Base};
ghost use Rattle.ledger_open.specs.Ahead.{AreLeaves, HasAhead, IsBadAhead, TakesAll, blocks_in};
ghost use Rattle.ledger_open.specs.Damages.{CanShare};
ghost use Rattle.ledger_open.specs.Replaying.{Headed, Goes, IsOther, TakesAllOf, TakesBlock, IsBadBlock};
ghost use Rattle.ledger_open.specs.declared.failure.OpenErr.TheVariants as errors;

use crate::ahead::{Ahead, Hashed};
use crate::{OpenErr, Places};
use block_file::{BlockAt, Damage, RecordAt};
use journal_record::Kind;
use ledger_book::Book;
use ledger_bytes::Digest;
use std::thread::{Threads, join_mut};

// Whether journals of this kind gather in a block.
fn gathers(kind: Kind) -> bool
    ensures { result ≡ lawful.gathers kind }
{
    match kind {
        Kind::Content | Kind::Member => true,
        Kind::Genesis | Kind::Time | Kind::Occult | Kind::Purge | Kind::ClueOccult => false,
    }
}

// How many of a block's first journals can stand in one block. One alone always can, whatever its kind.
fn share_len(records: &[RecordAt]) -> usize
    requires { 1 ≤ length records.now }
    ensures some { 1 ≤ result }
    ensures most { result ≤ length records.now }
    ensures share { (es : List Entry) → Headed es records.now → CanShare (take result es) }
    ensures apart { result < length records.now → (es : List Entry) → Headed es records.now
        → CanShare (take (result + 1) es) → ⊥ }
{
    for index in 0..records.len() {
        if !gathers(records[index].header.kind) {
            return index.max(1);
        }
    }
    records.len()
}

// Takes journals by their headers and leaf digests.
fn replay_records(book: &mut Book, records: &[RecordAt], leaves: &[Digest]) -> Result<(), OpenErr>
    requires layout { All (λ r. IsHeader r.header) records.now }
    requires leaves { AreLeaves records.now leaves.now }
    ensures ok { OnOk result ((start : Option Base) (blocks : List (List Entry)) (es : List Entry)
        → Headed es records.now → Goes book.old start blocks []
        → TakesAllOf book.new start blocks es) }
    ensures kept { OnOk result ((book.new.limits ≡ book.old.limits)
        × (book.new.floor ≡ book.old.floor) × (book.new.sealed ≡ book.old.sealed)) }
    ensures err { IfErr result (λ e. (e ≡ errors.NoMemory) ⊎ ((jsn : ℕ)
        × (e ≡ errors.Damaged (damages.Entry jsn))
        × ((start : Option Base) (blocks : List (List Entry)) (es : List Entry)
        → Headed es records.now → Goes book.old start blocks []
        → IsOther start (journals_of blocks) es jsn))) }
{
    for index in 0..records.len() {
        match book.replay(&records[index].header, &leaves[index]) {
            Ok(Ok(())) => {}
            Ok(Err(damage)) => return Err(OpenErr::Damaged(damage)),
            Err(_) => return Err(OpenErr::NoMemory),
        }
    }
    Ok(())
}

// Takes a block into the book, which has the journals before this number. Of the damages of its journals and its root
// the first is told.
fn take_block(
    book: &mut Book,
    block: &BlockAt,
    leaves: &[Digest],
    first: u64,
) -> Result<(), OpenErr>
    requires number { first < 2 ^ 32 }
    requires settled { book.old.size ≡ book.old.sealed }
    requires some { 1 ≤ length block.now.records }
    requires layout { All (λ r. IsHeader r.header) block.now.records }
    requires leaves { AreLeaves block.now.records leaves.now }
    ensures ok { OnOk result ((start : Option Base) (blocks : List (List Entry)) (es : List Entry)
        → Headed es block.now.records → Goes book.old start blocks []
        → TakesBlock book.new start blocks es block.now.root.0) }
    ensures limits { OnOk result (book.new.limits ≡ book.old.limits) }
    ensures err { IfErr result (λ e. (e ≡ errors.NoMemory) ⊎ ((damage : Damage)
        × (e ≡ errors.Damaged damage)
        × ((start : Option Base) (blocks : List (List Entry)) (es : List Entry)
        → Headed es block.now.records → first ≡ next_number start (journals_of blocks)
        → Goes book.old start blocks []
        → IsBadBlock start blocks es block.now.root.0 damage))) }
{
    let records = block.records.as_slice();
    let share = share_len(records);
    if let Err(e) = replay_records(book, &records[..share], &leaves[..share]) {
        return Err(e);
    }
    if share < records.len() {
        return Err(OpenErr::Damaged(Damage::Entry {
            jsn: first + share as u64,
        }));
    }
    // The block has a journal, so it ends.
    let Some(sealed) = book.seal() else {
        return Ok(());
    };
    if sealed.head.root != block.root {
        return Err(OpenErr::Damaged(Damage::Root {
            block: sealed.block,
            kept: block.root,
            found: sealed.head.root,
        }));
    }
    Ok(())
}

// Takes the next block behind those that were taken, and the places of its journals.
fn take_next(book: &mut Book, places: &mut Places, next: &Hashed) -> Result<(), OpenErr>
    requires ahead { HasAhead book.old places.old.list (next.now.block ∷ []) }
    requires leaves { AreLeaves next.now.block.records next.now.leaves.items }
    ensures ok { OnOk result
        (TakesAll book.old places.old.list book.new places.new.list (next.now.block ∷ [])) }
    ensures limits { OnOk result (book.new.limits ≡ book.old.limits) }
    ensures err { IfErr result (λ e. (e ≡ errors.NoMemory) ⊎ ((damage : Damage)
        × (e ≡ errors.Damaged damage)
        × IsBadAhead book.old places.old.list (next.now.block ∷ []) damage)) }
{
    let first = book.size();
    if let Err(e) = take_block(book, &next.block, next.leaves.as_slice(), first) {
        return Err(e);
    }
    match places.add(next.block.records.as_slice()) {
        Ok(()) => Ok(()),
        Err(_) => Err(OpenErr::NoMemory),
    }
}

/// Takes blocks that were read behind those that were taken, one after the other. The first damage is told.
pub(crate) fn take_all(
    book: &mut Book,
    places: &mut Places,
    blocks: &[Hashed],
) -> Result<(), OpenErr>
    requires ahead { HasAhead book.old places.old.list (blocks_in blocks.now) }
    requires leaves { All (λ h. AreLeaves h.block.records h.leaves.items) blocks.now }
    ensures ok { OnOk result
        (TakesAll book.old places.old.list book.new places.new.list (blocks_in blocks.now)) }
    ensures limits { OnOk result (book.new.limits ≡ book.old.limits) }
    ensures err { IfErr result (λ e. (e ≡ errors.NoMemory) ⊎ ((damage : Damage)
        × (e ≡ errors.Damaged damage)
        × IsBadAhead book.old places.old.list (blocks_in blocks.now) damage)) }
{
    for block in blocks {
        if let Err(e) = take_next(book, places, block) {
            return Err(e);
        }
    }
    Ok(())
}

/// Takes blocks as [`take_all`] does, while the leaf digests of the next ones are made in a thread beside.
pub(crate) fn take_beside<R: Threads>(
    rt: &R,
    book: &mut Book,
    places: &mut Places,
    blocks: &[Hashed],
    next: &mut Ahead,
) -> Result<(), OpenErr>
    requires ahead { HasAhead book.old places.old.list (blocks_in blocks.now) }
    requires leaves { All (λ h. AreLeaves h.block.records h.leaves.items) blocks.now }
    requires sizes { All (λ h. vec_len h.leaves ≡ length h.block.records) next.old.blocks.items }
    ensures ok { OnOk result
        (TakesAll book.old places.old.list book.new places.new.list (blocks_in blocks.now)) }
    ensures limits { OnOk result (book.new.limits ≡ book.old.limits) }
    ensures err { IfErr result (λ e. (e ≡ errors.NoMemory) ⊎ ((damage : Damage)
        × (e ≡ errors.Damaged damage)
        × IsBadAhead book.old places.old.list (blocks_in blocks.now) damage)) }
    ensures blocks { blocks_in next.new.blocks.items ≡ blocks_in next.old.blocks.items }
    ensures count { next.new.count ≡ next.old.count }
    ensures stop { next.new.stop ≡ next.old.stop }
    ensures hashed { All (λ h. AreLeaves h.block.records h.leaves.items) next.new.blocks.items }
{
    let (_, taken) = join_mut(
        rt,
        &mut || next.hash(),
        &mut || take_all(book, places, blocks),
    );
    taken
}
