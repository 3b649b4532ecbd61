//! A new entry of a notary's list, with its time and its salt.

ghost use Rattle.std.specs.Prelude.{◌≡◌, length};
ghost use Rattle.time_peg.specs.Entries.{entry_of, salt_of, time_in};

use ledger_bytes::{Digest, Sha, Tag, TreeHash};
use time_peg::{ENTRY_LEN, entry_bytes};

/// The salt of an entry, by its index in the list.
pub(crate) fn salt_for(seed: &Digest, index: u64) -> Digest
    ensures { result.0 ≡ salt_of seed.now.0 index }
{
    let mut hasher = Sha::start(Tag::Salt.byte());
    hasher.add(&seed.0);
    hasher.add(&index.to_be_bytes());
    hasher.end()
}

/// The entry with this time and salt, where this was stamped.
pub(crate) fn new_entry(time: u64, peg: &Digest, salt: &Digest) -> [u8; ENTRY_LEN]
    ensures bytes { result ≡ entry_of time peg.now.0 salt.now.0 }
    ensures width { length result ≡ 72 }
    ensures time { time_in result ≡ time }
{
    entry_bytes(time, peg, salt)
}

/// The time of an entry.
pub(crate) fn time_of(entry: &[u8; ENTRY_LEN]) -> u64
    ensures { result ≡ time_in entry.now }
{
    match entry.as_slice().split_first_chunk::<8>() {
        Some((first, _)) => u64::from_be_bytes(*first),
        None => 0,
    }
}
