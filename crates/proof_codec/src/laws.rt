//! Laws of a proof's length: under no ledger and no notary is it too long.

ghost use Rattle.std.specs.Prelude.{◌≡◌, ◌*◌, ◌≤◌, Some, length, IfSome};
ghost use Rattle.proof_codec.specs.Proofs.{ShownLower, ShownUpper, Shown, HasFields, spelling, proof_len};

/// A proof is as long as its digests say, and in every ledger and under every notary that there may be, it isn't too long.
pub fn proofs_have_room()
    ensures len { (p : Shown) → HasFields p → length (spelling p) ≡ proof_len p }
    // In a ledger of 2^20 journals under a notary of as many entries a path has 20 digests.
    ensures million { (p : Shown) (l : ShownLower) (u : ShownUpper) → HasFields p → p.lo ≡ Some l
        → p.hi ≡ Some u
        → length p.path ≡ 32 * 20 → length l.path ≡ 32 * 20 → length l.ext ≡ 32 * 20
        → length u.ext ≡ 32 * 20
        → length p.lo_path ≡ 32 * 20 → length p.hi_path ≡ 32 * 20 → length (spelling p) ≡ 4199 }
    // In a ledger of 2^32 journals a path has at most 32 digests and an extension 33, and under a notary of 2^24 entries
    // a path has at most 24.
    ensures most { (p : Shown) → HasFields p → length p.path ≤ 32 * 32
        → IfSome p.lo (λ l. (length l.path ≤ 32 * 32) × (length l.ext ≤ 32 * 33))
        → IfSome p.hi (λ u. length u.ext ≤ 32 * 33)
        → length p.lo_path ≤ 32 * 24 → length p.hi_path ≤ 32 * 24 → length (spelling p) ≤ 8192 }
{}
