//! A path is carried on to more leaves of a tree.

ghost use Rattle.std.specs.Prelude.{◌≡◌, [], ◌+◌, ◌-◌, ◌*◌, ◌<◌, ◌≤◌, nat_lt, if◌then◌else◌, ◌++◌, length, take, OnOk};
ghost use Rattle.tree_model.specs.Path.{path_length};
ghost use Rattle.survivor_set.specs.Carries.{Carries, IsOver};

use ledger_bytes::{Digest, FieldWriter, NoMemory, TreeHash};
use merkle_tree::{fold_path, split};

/// Adds the path of leaf `n` among `size` leaves, from its path among the first `point` of them, and the digest and the path
/// of leaf `point`. The leaves in front of the point may be forgotten. It costs one hash for each digest of that leaf's path
/// at most, and the writer's memory.
pub(crate) fn add_carried<H: TreeHash>(
    fields: &mut FieldWriter,
    n: u64,
    point: u64,
    size: u64,
    leaf: &Digest,
    below: &[u8],
    above: &[u8],
) -> Result<(), NoMemory>
    requires kept { n < point }
    requires more { point < size }
    requires below { length below.now ≡ 32 * path_length n point }
    requires above { length above.now ≡ 32 * path_length point size }
    ensures path { OnOk result (Carries H.of n point size leaf.now.0 below.now above.now fields.old fields.new) }
    ensures len { OnOk result (length fields.new ≡ length fields.old + 32 * path_length n size) }
{
    let count = split(size);
    let Some((front, last)) = above.split_last_chunk::<32>() else {
        unreachable!()
    };
    if point < count {
        add_carried::<H>(fields, n, point, count, leaf, below, front)?;
        return fields.put_slice(last);
    }
    let inner = inner(below, count, point);
    if n < count {
        return add_over::<H>(fields, point - count, size - count, leaf, inner, front);
    }
    add_carried::<H>(
        fields,
        n - count,
        point - count,
        size - count,
        leaf,
        inner,
        front,
    )?;
    fields.put_slice(last)
}

// The path in the part that the leaf is in, without the digest of the other part where the first leaves reach into that.
fn inner(below: &[u8], count: u64, point: u64) -> &[u8]
    requires { count < point → 32 ≤ length below.now }
    ensures { result.now ≡ (if nat_lt count point then take (length below.now - 32) below.now else below.now) }
{
    if count < point {
        &below[..below.len() - 32]
    } else {
        below
    }
}

// Adds digests, and the root over so many leaves in which the leaf at a place has a digest and a path.
fn add_over<H: TreeHash>(
    fields: &mut FieldWriter,
    place: u64,
    size: u64,
    leaf: &Digest,
    inner: &[u8],
    front: &[u8],
) -> Result<(), NoMemory>
    requires within { place < size }
    requires front { length front.now ≡ 32 * path_length place size }
    ensures over { OnOk result (IsOver H.of place size leaf.now.0 inner.now front.now fields.old fields.new) }
    ensures len { OnOk result (length fields.new ≡ length fields.old + length inner.now + 32) }
{
    let Some(right) = fold_path::<H>(leaf, place, size, front) else {
        unreachable!()
    };
    fields.put_slice(inner)?;
    put_digest(fields, &right)
}

// Adds a digest.
fn put_digest(fields: &mut FieldWriter, digest: &Digest) -> Result<(), NoMemory>
    ensures bytes { OnOk result (fields.new ≡ fields.old ++ digest.now.0) }
    ensures width { length digest.now.0 ≡ 32 }
{
    fields.put_slice(&digest.0)
}
