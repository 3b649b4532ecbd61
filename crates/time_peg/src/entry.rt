//! The entries of a notary's list, and the pegs that they hold of a ledger's first journals.

ghost use Rattle.std.specs.Prelude.{◌≡◌};
ghost use Rattle.time_peg.specs.Entries.{entry_of, peg_string};

use crate::filling::Filling;
use ledger_bytes::{Digest, Tag, TreeHash};

/// The length of an entry in bytes.
pub const ENTRY_LEN: usize = 72;

/// What a notary stamps for the first `m` journals of a ledger: the digest of the byte 06, the ledger's id, `m` in 8 bytes
/// and the root over those journals.
pub fn peg_of<H: TreeHash>(id: &Digest, m: u64, root: &Digest) -> Digest
    ensures { result.0 ≡ H.of (peg_string id.now.0 m root.now.0) }
{
    let mut hasher = H::start(Tag::Peg.byte());
    hasher.add(&id.0);
    hasher.add(&m.to_be_bytes());
    hasher.add(&root.0);
    hasher.end()
}

/// The bytes of an entry in a notary's list: its time at offset 0 in 8 bytes, big-endian, what was stamped at 8, and its
/// salt at 40.
pub fn entry_bytes(time: u64, peg: &Digest, salt: &Digest) -> [u8; ENTRY_LEN]
    ensures { result ≡ entry_of time peg.now.0 salt.now.0 }
{
    let mut filling = Filling::new();
    filling.put(&time.to_be_bytes());
    filling.put(&peg.0);
    filling.put(&salt.0);
    filling.finish()
}
