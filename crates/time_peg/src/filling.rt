//! How the bytes of a notary's entry are put together.

ghost use Rattle.std.specs.Prelude.{◌≡◌, ◌+◌, ◌≤◌, [], ◌++◌, length};

use crate::entry::ENTRY_LEN;
use std::marker::Model;

/// The bytes of an entry, filled from the front. A contract sees the bytes that were put so far.
#[derive(Drop)]
pub(crate) struct Filling {
    bytes: [u8; ENTRY_LEN],
    len: usize,
}

impl Model for Filling {
    ghost use Rattle.std.specs.Prelude.{◌≤◌, List, ℕ, take};
    ghost use Rattle.time_peg.specs.declared.entry.TheConstants.{ENTRY_LEN};

    ghost Value = { List ℕ };

    ghost view = { λ f. take f.len f.bytes };

    ghost invariant = { λ f. f.len ≤ ENTRY_LEN };
}

impl Filling {
    pub(crate) fn new() -> Self
        ensures { result ≡ [] }
    {
        Filling {
            bytes: [0; ENTRY_LEN],
            len: 0,
        }
    }

    pub(crate) fn put(&mut self, piece: &[u8])
        requires { length self.old + length piece.now ≤ ENTRY_LEN }
        ensures { self.new ≡ self.old ++ piece.now }
    {
        let end = self.len + piece.len();
        self.bytes[self.len..end].copy_from_slice(piece);
        self.len = end;
    }

    pub(crate) fn finish(self) -> [u8; ENTRY_LEN]
        requires { length self ≡ ENTRY_LEN }
        ensures { result ≡ self }
    {
        self.bytes
    }
}
