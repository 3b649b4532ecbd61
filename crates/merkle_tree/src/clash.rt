//! What a false path or proof shows: two different strings with one digest.

ghost use Rattle.std.specs.Prelude.{◌≡◌, ◌-◌, drop, replicate};

/// Bytes that are hashed: the first `len` of these, behind which stand zeros. They are a tag and the digests of an inner
/// node, or a tag and a leaf of at most 174 bytes.
#[derive(Clone, Copy, Debug, PartialEq, Eq)]
pub struct Pre {
    pub len: u8,
    pub bytes: [u8; 175],
    ghost rest: { drop len bytes ≡ replicate (175 - len) 0 },
}

/// Two different strings of bytes with one digest: the one that a path or a proof tells, and the one that a list has in
/// its place.
#[derive(Clone, Copy, Debug, PartialEq, Eq)]
pub struct Clash {
    pub told: Pre,
    pub truth: Pre,
}
