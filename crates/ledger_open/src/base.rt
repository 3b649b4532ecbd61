//! The base that a file begins with.

ghost use Rattle.std.specs.Prelude.{◌≡◌, ◌≢◌, ◌+◌, ◌≤◌, [], length, IsTrue, IfOk, IfErr, IsSomeAnd, Some};
ghost use Rattle.block_file.specs.FileView.{base_len_of};
ghost use Rattle.ledger_disk.specs.Disk.{KeepsLength};
ghost use Rattle.ledger_model.specs.Limits.{AreWithin};
ghost use Rattle.pseudo_genesis.specs.Bases.{IsBase, HasWidths};
ghost use Rattle.pseudo_genesis.specs.Reading.{IsBreak};
ghost use Rattle.ledger_open.specs.Opening.{HasTaken, IsHeadOf, IsReadErr, CountsRead, known_from};
ghost use Rattle.ledger_open.specs.Standing.{floor_from};
ghost use Rattle.ledger_open.specs.Starts.{IsDecoded, IsFormErr, IsStart};
ghost use Rattle.ledger_open.specs.declared.failure.OpenErr.TheVariants as errors;

use crate::reading::Read;
use crate::{OpenErr, Places};
use block_file::{BlockFile, Damage};
use ledger_book::Book;
use ledger_bytes::Bad;
use ledger_disk::Disk;
use ledger_model::Limits;
use pseudo_genesis::{Base, BaseErr};
use std::alloc::Global;

// Where a base breaks, as it is told.
fn break_place(bad: Bad) -> u64
    requires { IsBreak bad }
    ensures { IsFormErr bad result }
{
    match bad {
        Bad::Short { at } | Bad::Trailing { at } | Bad::BadFixedField { at } => at,
        Bad::NewerFormat { .. } => 0,
        Bad::BadKind { .. } | Bad::TooLong => unreachable!(),
    }
}

/// Reads the base, where the file has one. Its digest is looked at before its form.
pub(crate) fn read_base<D: Disk>(
    alloc: Global,
    file: &BlockFile,
    disk: &mut D,
) -> Result<Option<Base>, OpenErr>
    requires told { IsSomeAnd (D.state disk.old).told (λ n. 64 + base_len_of file.now ≤ n) }
    requires room { IsSomeAnd (D.state disk.old).told (λ n. 64 + base_len_of file.now + 1 ≤ n) }
    requires head { IsTrue D.tells → IsHeadOf (D.state disk.old).bytes.seen file.now }
    ensures base { IfOk result IsDecoded }
    ensures start { IfOk result (λ start. IsTrue D.tells
        → IsStart (D.state disk.old).bytes.seen start) }
    ensures size { IfOk result (λ start. base_len_of file.now
        ≡ length (floor_from start).base) }
    ensures err { IfErr result (λ e. IsTrue D.tells → IsReadErr (D.state disk.old).bytes.seen e) }
    ensures only { IfErr result (λ e. (e ≢ errors.Empty) × (e ≢ errors.Exists)) }
    ensures state { IsTrue D.tells → (D.state disk.new).bytes ≡ (D.state disk.old).bytes }
    ensures length { KeepsLength (D.state disk.old).told (D.state disk.new).told }
    ensures faults { CountsRead result (D.state disk.old).faults (D.state disk.new).faults }
{
    let bytes = match file.base(alloc, disk) {
        Ok(bytes) => bytes,
        Err(e) => return Err(OpenErr::from(e)),
    };
    if bytes.as_slice().is_empty() {
        return Ok(None);
    }
    match Base::decode(alloc, bytes.as_slice()) {
        Ok(base) => Ok(Some(base)),
        Err(BaseErr::NoMemory) => Err(OpenErr::NoMemory),
        Err(BaseErr::Bad(bad)) => Err(OpenErr::Damaged(Damage::BaseForm {
            at: break_place(bad),
        })),
    }
}

/// A book that begins behind a base. No block was taken.
pub(crate) fn begin_behind(alloc: Global, base: &Base, limits: Limits) -> Result<Read, OpenErr>
    requires base { IsBase base.now }
    requires widths { HasWidths base.now }
    requires limits { AreWithin limits }
    ensures ok { IfOk result (λ read. HasTaken (known_from read.book read.places.list
        (64 + length (floor_from (Some base.now)).base)) (Some base.now) []) }
    ensures limits { IfOk result (λ read. read.book.limits ≡ limits) }
    ensures err { IfErr result (λ e. e ≡ errors.NoMemory) }
{
    match Book::from_base(alloc, base, limits) {
        Ok(book) => Ok(Read {
            book,
            places: Places::new(alloc),
        }),
        Err(_) => Err(OpenErr::NoMemory),
    }
}
