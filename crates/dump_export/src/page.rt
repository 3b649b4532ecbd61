//! A page of the open file, from which the pieces of many journals are taken by one read.

ghost use Rattle.std.specs.Prelude.{◌≡◌, ◌≤◌, ◌+◌, ℕ, List, [], length, take, drop, IsTrue, IfOk, IfErr, OnOk};
ghost use Rattle.ledger_open.specs.Pieces.{PieceEnds, WasOnlyRead};
ghost use Rattle.ledger_open.specs.declared.pieces.PieceErr.TheVariants as piece_err;
ghost use Rattle.dump_export.specs.Pages.{IsPageOf};

use ledger_disk::Disk;
use ledger_open::{PieceErr, read_piece};
use std::alloc::Global;

// The most bytes of a page, unless one piece has more.
const PAGE: u32 = 65_536;

/// The bytes of a range of the open file, as far as bytes stand there.
#[derive(Debug, Drop)]
pub(crate) struct Page {
    // Where the range begins.
    at: u64,
    // How long it is.
    len: u32,
    bytes: Vec<u8>,
}

impl Page {
    /// An empty range, for which nothing is read.
    pub(crate) fn new(alloc: Global) -> Self
        ensures { (file : List ℕ) → IsPageOf result file }
    {
        Page {
            at: 0,
            len: 0,
            bytes: Vec::new(alloc),
        }
    }

    /// A range of the open file, as [`read_piece`] reads it. Where the page doesn't have it, the file is read from there on, and that is the
    /// page from then on; a page has 64 KiB, or else one piece.
    pub(crate) fn piece<D: Disk>(
        &mut self,
        alloc: Global,
        file: &mut D,
        at: u64,
        len: u32,
    ) -> Result<Vec<u8>, PieceErr>
        requires page { IsTrue D.tells → IsPageOf self.old (D.state file.old).bytes.seen }
        ensures page { IsTrue D.tells → IsPageOf self.new (D.state file.new).bytes.seen }
        ensures bytes { IfOk result (λ piece. IsTrue D.tells
            → piece.items ≡ take len (drop at (D.state file.old).bytes.seen)) }
        ensures size { IfOk result (λ piece. length piece.items ≤ len) }
        ensures read { WasOnlyRead D.tells
            (D.state file.old)
            (D.state file.new) }
        ensures no_fault { OnOk result ((D.state file.new).faults ≡ (D.state file.old).faults) }
        ensures err { IfErr result (λ e. PieceEnds e (D.state file.old).faults (D.state file.new).faults) }
    {
        if !self.has(at, len) {
            let bytes = read_piece(alloc, file, at, len.max(PAGE))?;
            *self = Page {
                at,
                len: len.max(PAGE),
                bytes,
            };
        }
        self.copy(alloc, at, len)
    }

    // Whether this range lies in that of the page.
    fn has(&self, at: u64, len: u32) -> bool
        ensures { IsTrue result → (self.now.at ≤ at) × (at + len ≤ self.now.at + self.now.len) }
    {
        match at.checked_sub(self.at) {
            Some(front) => {
                front <= u64::from(self.len) && u64::from(len) <= u64::from(self.len) - front
            }
            None => false,
        }
    }

    // A range that lies in that of the page.
    fn copy(&self, alloc: Global, at: u64, len: u32) -> Result<Vec<u8>, PieceErr>
        requires front { self.now.at ≤ at }
        requires end { at + len ≤ self.now.at + self.now.len }
        ensures bytes { IfOk result (λ piece. (file : List ℕ) → IsPageOf self.now file
            → piece.items ≡ take len (drop at file)) }
        ensures size { IfOk result (λ piece. length piece.items ≤ len) }
        ensures err { IfErr result (λ e. e ≡ piece_err.NoMemory) }
    {
        let bytes = self.bytes.as_slice();
        let front = (at - self.at) as usize;
        let from = front.min(bytes.len());
        let to = (front + len as usize).min(bytes.len());
        match bytes[from..to].to_vec(alloc) {
            Ok(piece) => Ok(piece),
            Err(_) => Err(PieceErr::NoMemory),
        }
    }
}
