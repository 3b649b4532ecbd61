//! Bytes of a header's size that are filled from the front.

ghost use Rattle.std.specs.Prelude.{◌≡◌, ◌+◌, ◌≤◌, [], ◌++◌, length};
ghost use Rattle.sha2.specs.Sha256.{sha256};

use crate::HEADER_LEN;
use ledger_bytes::{Digest, Sha, TreeHash};
use std::marker::Model;

/// The bytes of a header, or of what is hashed and is no longer than one, filled from the front. A contract sees the bytes
/// that were put so far.
#[derive(Drop)]
pub(crate) struct Filling {
    bytes: [u8; HEADER_LEN],
    len: usize,
}

impl Model for Filling {
    ghost use Rattle.std.specs.Prelude.{◌≤◌, List, ℕ, take};
    ghost use Rattle.journal_record.specs.declared.header.TheConstants.{HEADER_LEN};

    ghost Value = { List ℕ };

    ghost view = { λ f. take f.len f.bytes };

    ghost invariant = { λ f. f.len ≤ HEADER_LEN };
}

impl Filling {
    pub(crate) fn new() -> Self
        ensures { result ≡ [] }
    {
        Filling {
            bytes: [0; HEADER_LEN],
            len: 0,
        }
    }

    // Where it is called a piece's length is known, so that only its bytes' moves are left.
    #[inline(always)]
    pub(crate) fn put(&mut self, piece: &[u8])
        requires { length self.old + length piece.now ≤ HEADER_LEN }
        ensures { self.new ≡ self.old ++ piece.now }
    {
        let end = self.len + piece.len();
        self.bytes[self.len..end].copy_from_slice(piece);
        self.len = end;
    }

    pub(crate) fn finish(self) -> [u8; HEADER_LEN]
        requires { length self ≡ HEADER_LEN }
        ensures { result ≡ self }
    {
        self.bytes
    }

    /// SHA-256 of the bytes.
    pub(crate) fn digest(&self) -> Digest
        ensures { result.0 ≡ sha256 self.now }
    {
        Sha::digest(&self.bytes[..self.len])
    }
}
