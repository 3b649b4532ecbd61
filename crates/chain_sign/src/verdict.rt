//! What is answered of a proof by whoever knows the secrets.

use merkle_tree::Clash;

/// What is answered of a proof by whoever knows the secrets of a key.
#[derive(Clone, Copy, Debug, PartialEq, Eq)]
pub enum SignVerdict {
    /// It doesn't show that key.
    OtherKey,
    /// It shows the key, and its values are those of the secrets.
    True,
    /// It shows the key, and its values aren't: two different strings have one digest, the told one first.
    Clash(Clash),
}
