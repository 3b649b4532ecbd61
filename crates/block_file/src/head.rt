//! The head of a file of blocks: its form, its generation, and the length and the digest of its base.

ghost use Rattle.std.specs.Prelude.{◌≡◌, ◌≢◌, ◌≤◌, length, take, drop, IsTrue, IsSomeAnd, IfOk, IfErr, OnOk};
ghost use Rattle.ledger_disk.specs.Disk.{CountsFault, KeepsLength};
ghost use Rattle.block_file.specs.Head.{Counts, number_at, digest_of, version_in, is_format, IsOpen, IsHeadErr, magic};

use crate::reading::{fill, read_byte, read_digest, read_number};
use crate::{Damage, FileErr};
use ledger_bytes::{Digest, Failed, Sha, Tag, TreeHash};
use ledger_disk::Disk;

/// The version of new files.
pub(crate) const NEW_FORMAT: u8 = 2;

pub(crate) const MAGIC: [u8; 8] = [76, 69, 68, 71, 69, 82, 68, 66];

/// What the head of an open file tells. The file of the greater generation is the newer one.
#[derive(Clone, Copy, Debug, PartialEq, Eq)]
pub struct FileHead {
    /// 1 or 2: both have one layout.
    pub version: u8,
    pub generation: u64,
    pub base_len: u64,
    pub base_digest: Digest,
}

/// The digest of a base.
pub(crate) fn base_digest(base: &[u8]) -> Digest
    ensures { result.0 ≡ digest_of base.now }
{
    let mut hash = Sha::start(Tag::Base.byte());
    hash.add(base);
    hash.end()
}

/// Looks at the magic and the version of an open file.
pub(crate) fn check_form<D: Disk>(disk: &mut D) -> Result<u8, FileErr>
    requires { IsSomeAnd (D.state disk.old).told (λ n. 65 ≤ n) }
    ensures ok { IfOk result (λ version. IsTrue D.tells
        → (take 8 (drop 1 (D.state disk.old).bytes.seen) ≡ magic)
        × (version ≡ version_in (D.state disk.old).bytes.seen) × IsTrue (is_format version)) }
    ensures err { IfErr result (λ e. IsTrue D.tells → IsOpen (D.state disk.old).bytes.seen
        → IsHeadErr (D.state disk.old).bytes.seen e) }
    ensures only { IfErr result (λ e. e ≢ FileErr.NoMemory) }
    ensures state { IsTrue D.tells → (D.state disk.new).bytes ≡ (D.state disk.old).bytes }
    ensures length { KeepsLength (D.state disk.old).told (D.state disk.new).told }
    ensures faults { Counts result (D.state disk.old).faults (D.state disk.new).faults }
{
    let mut magic = [0; 8];
    fill(disk, 1, &mut magic)?;
    if magic != MAGIC {
        return Err(FileErr::Damaged(Damage::Magic));
    }
    let found = read_byte(disk, 9)?;
    if found != 1 && found != NEW_FORMAT {
        return Err(FileErr::NewerFormat { found });
    }
    Ok(found)
}

/// Reads the fields of a head.
pub(crate) fn read_fields<D: Disk>(disk: &mut D, version: u8) -> Result<FileHead, Failed>
    requires { IsSomeAnd (D.state disk.old).told (λ n. 65 ≤ n) }
    ensures version { IfOk result (λ head. head.version ≡ version) }
    ensures generation { IfOk result (λ head. IsTrue D.tells
        → head.generation ≡ number_at 10 (D.state disk.old).bytes.seen) }
    ensures base_len { IfOk result (λ head. IsTrue D.tells
        → head.base_len ≡ number_at 18 (D.state disk.old).bytes.seen) }
    ensures base_digest { IfOk result (λ head. IsTrue D.tells
        → head.base_digest.0 ≡ take 32 (drop 26 (D.state disk.old).bytes.seen)) }
    ensures state { IsTrue D.tells → (D.state disk.new).bytes ≡ (D.state disk.old).bytes }
    ensures length { KeepsLength (D.state disk.old).told (D.state disk.new).told }
    ensures faults { CountsFault result (D.state disk.old).faults (D.state disk.new).faults }
{
    Ok(FileHead {
        version,
        generation: read_number(disk, 10)?,
        base_len: read_number(disk, 18)?,
        base_digest: read_digest(disk, 26)?,
    })
}
