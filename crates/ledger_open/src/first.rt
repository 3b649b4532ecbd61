//! The first block of a file.

ghost use Rattle.std.specs.Prelude.{◌≡◌, ◌≢◌, ◌⊎◌, ◌+◌, ◌≤◌, [], ◌∷◌, List, length, take, drop, None, IsTrue, IfOk, IfErr, IsSomeAnd, OnOk};
ghost use Rattle.sha2.specs.Sha256.{sha256};
ghost use Rattle.tree_model.specs.Tree.{leaf};
ghost use Rattle.block_file.specs.Blocks.{AreBlock, IsRead};
ghost use Rattle.block_file.specs.FileView.{gate_of};
ghost use Rattle.block_file.specs.declared.failure.Damage.{Damage};
ghost use Rattle.block_file.specs.declared.failure.Damage.TheVariants as damages;
ghost use Rattle.journal_record.specs.Entry.{Entry, content_digest_of};
ghost use Rattle.journal_record.specs.Header.{spelling};
ghost use Rattle.journal_record.specs.Rules.{IsHeader};
ghost use Rattle.journal_record.specs.declared.header.Kind.TheVariants as kind;
ghost use Rattle.ledger_book.specs.Books.{Serves};
ghost use Rattle.ledger_book.specs.Reading.{StandsBehind};
ghost use Rattle.ledger_book.specs.Replaying.{begun_with};
ghost use Rattle.ledger_bytes.specs.declared.digest.Digest.{Digest};
ghost use Rattle.ledger_disk.specs.Disk.{KeepsLength};
ghost use Rattle.ledger_model.specs.Limits.{AreWithin};
ghost use Rattle.ledger_open.specs.Opening.{HasRead, IsReadErr, CountsRead, known_from};
ghost use Rattle.block_file.specs.Places.{place_of_record};
ghost use Rattle.ledger_open.specs.Starts.{IsStart};
ghost use Rattle.ledger_open.specs.Replaying.{Headed, IsBadBlock};
ghost use Rattle.ledger_open.specs.declared.failure.OpenErr.TheVariants as errors;

use crate::reading::Read;
use crate::{OpenErr, Places};
use block_file::{BlockAt, BlockFile, Damage, RecordAt};
use journal_record::content_digest;
use ledger_book::Book;
use ledger_bytes::{Digest, Sha};
use ledger_disk::Disk;
use ledger_model::Limits;
use merkle_tree::leaf_of;
use std::alloc::Global;

// The length of the content of journal 0: the keys of the operator and the regulator.
const KEYS_LEN: usize = 64;

// The two keys in the content of journal 0.
fn keys_of(content: &[u8; KEYS_LEN]) -> (Digest, Digest)
    ensures { (result.0.0 ≡ take 32 content.now) × (result.1.0 ≡ drop 32 content.now) }
{
    let (front, back) = content.split_at(32);
    let mut operator = [0; 32];
    operator.copy_from_slice(front);
    let mut regulator = [0; 32];
    regulator.copy_from_slice(back);
    (Digest(operator), Digest(regulator))
}

// The only journal of a file's first block, whose root is that over its leaf.
fn check_first(block: &BlockAt) -> Result<RecordAt, OpenErr>
    requires { (es : List Entry) × AreBlock 0 es × IsRead 64 es block.now }
    ensures alone { IfOk result (λ first. block.now.records ≡ first ∷ []) }
    ensures root { IfOk result (λ first. block.now.root.0 ≡ leaf sha256 (spelling first.header)) }
    ensures first { IfOk result (λ first. (first.header.kind ≡ kind.Genesis)
        × IsHeader first.header) }
    ensures inside { IfOk result (λ first. first.content_at + 64 ≤ 65 + block.now.len) }
    ensures err { IfErr result (λ e. (damage : Damage) × (e ≡ errors.Damaged damage)
        × ((es : List Entry) → AreBlock 0 es → Headed es block.now.records
        → IsBadBlock None [] es block.now.root.0 damage)) }
{
    let records = block.records.as_slice();
    if records.len() > 1 {
        return Err(OpenErr::Damaged(Damage::Entry { jsn: 1 }));
    }
    let first = records[0];
    let found = leaf_of::<Sha>(&first.header.encode());
    if found != block.root {
        return Err(OpenErr::Damaged(Damage::Root {
            block: 0,
            kept: block.root,
            found,
        }));
    }
    Ok(first)
}

// Reads the content of journal 0, and compares its digest.
fn read_keys<D: Disk>(
    file: &BlockFile,
    disk: &mut D,
    first: &RecordAt,
) -> Result<[u8; KEYS_LEN], OpenErr>
    requires { IsSomeAnd (D.state disk.old).told (λ n. first.now.content_at + 64 ≤ n) }
    ensures size { IfOk result (λ content. length content ≡ 64) }
    ensures digest { IfOk result (λ content. first.now.header.content_digest.0
        ≡ content_digest_of content) }
    ensures content { IfOk result (λ content. IsTrue D.tells
        → content ≡ take 64 (drop first.now.content_at (D.state disk.old).bytes.seen)) }
    ensures err { IfErr result (λ e. (e ≡ errors.DiskFault) ⊎ ((found : Digest)
        × (e ≡ errors.Damaged (damages.Content 0 first.now.header.content_digest found))
        × (found.0 ≢ first.now.header.content_digest.0)
        × (IsTrue D.tells → found.0 ≡ content_digest_of (take 64 (drop first.now.content_at
        (D.state disk.old).bytes.seen))))) }
    ensures state { IsTrue D.tells → (D.state disk.new).bytes ≡ (D.state disk.old).bytes }
    ensures length { KeepsLength (D.state disk.old).told (D.state disk.new).told }
    ensures faults { CountsRead result (D.state disk.old).faults (D.state disk.new).faults }
{
    let mut content = [0; KEYS_LEN];
    if let Err(e) = file.read_range(disk, first.content_at, &mut content) {
        return Err(OpenErr::from(e));
    }
    let found = content_digest(&content);
    if found != first.header.content_digest {
        return Err(OpenErr::Damaged(Damage::Content {
            jsn: 0,
            kept: first.header.content_digest,
            found,
        }));
    }
    Ok(content)
}

// A book that begins with journal 0, and its place.
fn begin_book(
    alloc: Global,
    first: &RecordAt,
    content: &[u8; KEYS_LEN],
    limits: Limits,
) -> Result<Read, OpenErr>
    requires kind { first.now.header.kind ≡ kind.Genesis }
    requires layout { IsHeader first.now.header }
    requires digest { first.now.header.content_digest.0 ≡ content_digest_of content.now }
    requires limits { AreWithin limits }
    ensures ok { IfOk result (λ read. (read.places.list ≡ place_of_record first.now ∷ [])
        × ((e : Entry) → e.header ≡ first.now.header → e.content ≡ content.now
        → Serves read.book (begun_with e) × StandsBehind read.book None (e ∷ []))) }
    ensures limits { IfOk result (λ read. read.book.limits ≡ limits) }
    ensures err { IfErr result (λ e. e ≡ errors.NoMemory) }
{
    let (operator, regulator) = keys_of(content);
    let Ok(book) = Book::from_first(alloc, &first.header, &operator, &regulator, limits) else {
        return Err(OpenErr::NoMemory);
    };
    let mut places = Places::new(alloc);
    let Ok(()) = places.add(&[*first]) else {
        return Err(OpenErr::NoMemory);
    };
    Ok(Read { book, places })
}

/// Reads the first block of a file without a base, and begins a book with it. Of its damages the first is told: a length, journal 0, a second
/// journal beside it, the root, and the digest of the content of journal 0.
pub fn read_first<D: Disk>(
    alloc: Global,
    file: &mut BlockFile,
    disk: &mut D,
    buffer: &mut Vec<u8>,
    limits: Limits,
) -> Result<Read, OpenErr>
    requires told { IsSomeAnd (D.state disk.old).told (λ n. gate_of file.old + 1 ≤ n) }
    requires place { gate_of file.old ≡ 64 }
    requires start { IsTrue D.tells → IsStart (D.state disk.old).bytes.seen None }
    requires limits { AreWithin limits }
    ensures ok { IfOk result (λ read. HasRead D.tells (D.state disk.old).bytes.seen
        (known_from read.book read.places.list (gate_of file.new))) }
    ensures limits { IfOk result (λ read. read.book.limits ≡ limits) }
    ensures err { IfErr result (λ e. IsTrue D.tells
        → IsReadErr (D.state disk.old).bytes.seen e) }
    ensures only { IfErr result (λ e. (e ≢ errors.Empty) × (e ≢ errors.Exists)) }
    ensures told { OnOk result (IsSomeAnd (D.state disk.new).told
        (λ n. gate_of file.new + 1 ≤ n)) }
    ensures state { IsTrue D.tells → (D.state disk.new).bytes ≡ (D.state disk.old).bytes }
    ensures length { KeepsLength (D.state disk.old).told (D.state disk.new).told }
    ensures faults { CountsRead result (D.state disk.old).faults (D.state disk.new).faults }
{
    let block = match file.next_block(alloc, disk, buffer, 0) {
        Ok(Some(block)) => block,
        Ok(None) => return Err(OpenErr::Damaged(Damage::Entry { jsn: 0 })),
        Err(e) => return Err(OpenErr::from(e)),
    };
    let first = match check_first(&block) {
        Ok(first) => first,
        Err(e) => return Err(e),
    };
    let content = match read_keys(file, disk, &first) {
        Ok(content) => content,
        Err(e) => return Err(e),
    };
    begin_book(alloc, &first, &content, limits)
}
