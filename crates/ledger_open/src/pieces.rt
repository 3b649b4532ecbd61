//! What a journal's header doesn't tell is read from the open file, piece by piece.

ghost use Rattle.std.specs.Prelude.{◌≡◌, ◌-◌, ◌≤◌, None, length, IsTrue, IfOk, IfErr, OnOk, if◌then◌else◌, nat_le, slice_get, take, drop};
ghost use Rattle.ledger_open.specs.Pieces.{PieceEnds, WasOnlyRead};

use crate::Places;
use block_file::PlaceAt;
use ledger_book::Book;
use ledger_disk::Disk;
use std::alloc::Global;
use thiserror::Error;

/// Why a piece of the open file isn't read.
#[derive(Clone, Copy, Debug, PartialEq, Eq, Error)]
pub enum PieceErr {
    /// The call of the disk failed, and its count of faults rose.
    #[error("a disk failed")]
    DiskFault,
    #[error("out of memory")]
    NoMemory,
}

/// Where journal `n` stands, where the open file has it. The file begins with the book's first journal.
pub fn kept_place(book: &Book, places: &Places, n: u64) -> Option<PlaceAt>
    ensures { result ≡ (if nat_le book.now.floor n then slice_get places.now.list (n - book.now.floor) else None) }
{
    let index = n.checked_sub(book.floor())?;
    match places.as_slice().get(index as usize) {
        Some(place) => Some(*place),
        None => None,
    }
}

/// A range of the open file, whose disk this is, as far as bytes stand there. A piece that is cut short has another digest
/// than the whole one.
pub fn read_piece<D: Disk>(
    alloc: Global,
    file: &mut D,
    at: u64,
    len: u32,
) -> Result<Vec<u8>, PieceErr>
    ensures bytes { IfOk result (λ piece. IsTrue D.tells
        → piece.items ≡ take len (drop at (D.state file.old).bytes.seen)) }
    ensures size { IfOk result (λ piece. length piece.items ≤ len) }
    ensures read { WasOnlyRead D.tells
        (D.state file.old)
        (D.state file.new) }
    ensures no_fault { OnOk result ((D.state file.new).faults ≡ (D.state file.old).faults) }
    ensures err { IfErr result (λ e. PieceEnds e (D.state file.old).faults (D.state file.new).faults) }
{
    let mut piece = Vec::new(alloc);
    let Ok(()) = piece.resize(len as usize, 0) else {
        return Err(PieceErr::NoMemory);
    };
    let Ok(count) = file.read(at, piece.as_mut_slice()) else {
        return Err(PieceErr::DiskFault);
    };
    piece.truncate(count);
    Ok(piece)
}
