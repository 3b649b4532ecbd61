//! The hash tree of RFC 6962, section 2.1: its definitions over any hash function, of roots (`specs/Tree.antt`),
//! of inclusion paths (`specs/Path.antt`) and of proofs that one tree is the beginning of another
//! (`specs/Extension.antt`), the laws by which a reader compares them with the RFC's text, and the two strings with
//! one digest that a false path or proof shows (`specs/Clash.antt`). The same tree from the leaves up, level by level
//! (`specs/Halves.antt`), and its peaks (`specs/Peaks.antt`) serve trees that grow.
#![tactic(auto)]

mod clashes;
mod growing;

ghost use Rattle.std.specs.Prelude.{◌≡◌, ℕ, Bool, true, false, ◌-◌, ◌*◌, ◌%◌, ◌^◌, ◌<◌, ◌≤◌, ◌↔◌, List, [], ◌∷◌, ◌++◌, length, take, drop, get_or, All, Some, None, option_map, IsSome};
ghost use Rattle.std.specs.List.{concat};
ghost use Rattle.tree_model.specs.Tree.{Hash, node, root, mth, IsSplit, cut};
ghost use Rattle.tree_model.specs.Path.{path, path_length, fold, fold_bytes};
ghost use Rattle.tree_model.specs.Extension.{sub, proof, sub_length, proof_length, ext, old_root, fold_proof, fold_proof_bytes};

pub use clashes::{
    path_clash_is_first, paths_show_clashes, proof_clash_is_first, proofs_show_clashes,
    trees_show_clashes,
};
pub use growing::{halves_give_the_tree, peaks_are_roots, peaks_give_roots};

/// The definition of the Merkle tree hash in RFC 6962, section 2.1, case by case: of an empty list, of one
/// leaf, and of more leaves, which split at the largest power of two below their number. There is one such
/// power for each number above one (`split`), so the three cases cover every list and leave no choice.
pub fn is_standard_tree()
    ensures empty { (hash : Hash) → mth hash [] ≡ hash [] }
    ensures one { (hash : Hash) (x : List ℕ) → mth hash (x ∷ []) ≡ hash (0 ∷ x) }
    ensures more { (hash : Hash) (k : ℕ) (xs : List (List ℕ)) → IsSplit k (length xs)
        → mth hash xs ≡ hash (1 ∷ mth hash (take k xs) ++ mth hash (drop k xs)) }
    ensures split { (n : ℕ) → 1 < n → (k : ℕ) × IsSplit k n × ((j : ℕ) → IsSplit j n → j ≡ k) }
{}

/// The same tree over digests that leaves already have (RFC 6962, section 2.1): of one leaf it is that
/// leaf's digest, and of more leaves a node over the trees of the two sides of the split.
pub fn is_standard_root()
    ensures empty { (hash : Hash) → root hash [] ≡ hash [] }
    ensures one { (hash : Hash) (digest : List ℕ) → root hash (digest ∷ []) ≡ digest }
    ensures more { (hash : Hash) (k : ℕ) (digests : List (List ℕ)) → IsSplit k (length digests)
        → root hash digests ≡ node hash (root hash (take k digests)) (root hash (drop k digests)) }
{}

/// What it is to cut flat bytes into pieces of one width: each piece has the width, and where nothing is
/// left over the pieces in a row are the bytes. `exact` says that no other list of pieces is so.
pub fn is_plain_cut()
    ensures width { (width : ℕ) (bytes : List ℕ)
        → All (λ piece. length piece ≡ width) (cut width bytes) }
    ensures whole { (width : ℕ) (bytes : List ℕ) → length bytes % width ≡ 0
        → concat (cut width bytes) ≡ bytes }
    ensures exact { (width : ℕ) (pieces : List (List ℕ)) → 0 < width
        → All (λ piece. length piece ≡ width) pieces → cut width (concat pieces) ≡ pieces }
{}

/// The path from a leaf to the root in RFC 6962, section 2.1.1, case by case: the path of the only leaf is
/// empty. The path of a leaf among more is its path in the part on its side of the split, followed by the
/// root of the other part; leaves behind the split are counted from it.
pub fn is_standard_path()
    ensures one { (hash : Hash) (digest : List ℕ) → path hash 0 (digest ∷ []) ≡ [] }
    ensures left { (hash : Hash) (k n : ℕ) (digests : List (List ℕ)) → IsSplit k (length digests)
        → n < k
        → path hash n digests ≡ path hash n (take k digests) ++ root hash (drop k digests) ∷ [] }
    ensures right { (hash : Hash) (k n : ℕ) (digests : List (List ℕ)) → IsSplit k (length digests)
        → k ≤ n
        → path hash n digests ≡ path hash (n - k) (drop k digests) ++ root hash (take k digests)
        ∷ [] }

    // How many digests that is, and that 2 ^ h leaves need h at most.
    ensures count { (hash : Hash) (n : ℕ) (digests : List (List ℕ))
        → length (path hash n digests) ≡ path_length n (length digests) }
    ensures short { (h n size : ℕ) → size ≤ 2 ^ h → path_length n size ≤ h }
{}

/// What the digest of a leaf folds to along a path, case by case: the only leaf folds to itself along no
/// digest. A leaf among more folds in the part on its side of the split along all digests but the last, which
/// then stands beside the result, on the other side. Nothing else has a fold.
pub fn is_standard_fold()
    ensures one { (hash : Hash) (digest : List ℕ) → fold hash digest 0 1 [] ≡ Some digest }
    ensures left { (hash : Hash) (digest side : List ℕ) (k n size : ℕ) (rest : List (List ℕ))
        → IsSplit k size
        → n < k → fold hash digest n size (rest ++ side ∷ [])
        ≡ option_map (λ root. node hash root side) (fold hash digest n k rest) }
    ensures right { (hash : Hash) (digest side : List ℕ) (k n size : ℕ) (rest : List (List ℕ))
        → IsSplit k size
        → k ≤ n → fold hash digest n size (rest ++ side ∷ [])
        ≡ option_map (λ root. node hash side root) (fold hash digest (n - k) (size - k) rest) }
    ensures outside { (hash : Hash) (digest : List ℕ) (n size : ℕ) (digests : List (List ℕ))
        → size ≤ n
        → fold hash digest n size digests ≡ None }
    ensures missing { (hash : Hash) (digest : List ℕ) (n size : ℕ) → 1 < size
        → fold hash digest n size [] ≡ None }
    ensures over { (hash : Hash) (digest side : List ℕ) (rest : List (List ℕ))
        → fold hash digest 0 1 (rest ++ side ∷ []) ≡ None }

    // Along a path in flat bytes, 32 for each digest. Where bytes are left over there is none.
    ensures flat { (hash : Hash) (digest : List ℕ) (n size : ℕ) (digests : List (List ℕ))
        → All (λ d. length d ≡ 32) digests
        → fold_bytes hash digest n size (concat digests) ≡ fold hash digest n size digests }
    ensures rest { (hash : Hash) (digest : List ℕ) (n size : ℕ) (bytes : List ℕ)
        → IsSome (fold_bytes hash digest n size bytes) → length bytes % 32 ≡ 0 }
{}

/// Each leaf folds along its own path to the root, and a digest has a fold exactly where there is such a leaf
/// and as many digests as its path has.
pub fn paths_give_roots()
    ensures root { (hash : Hash) (n : ℕ) (digests : List (List ℕ)) → n < length digests
        → fold hash (get_or digests n []) n (length digests) (path hash n digests)
        ≡ Some (root hash digests) }
    ensures there { (hash : Hash) (digest : List ℕ) (n size : ℕ) (digests : List (List ℕ))
        → IsSome (fold hash digest n size digests) ↔ ((n < size)
        × (length digests ≡ path_length n size)) }
    ensures there_flat { (hash : Hash) (digest : List ℕ) (n size : ℕ) (bytes : List ℕ)
        → IsSome (fold_bytes hash digest n size bytes) ↔ ((n < size)
        × (length bytes ≡ 32 * path_length n size)) }
{}

/// The proof of RFC 6962, section 2.1.2, that the tree over the first m leaves is the beginning of the tree over
/// all, case by case. The asker knows the root of the first m; where they are all leaves the proof is empty, which
/// the RFC leaves out (`all`). Of fewer leaves it is the proof in the part in front of the split, followed by the
/// root of the part behind (`left`); where the first m reach behind the split, it is what belongs to the part behind,
/// with that part's old root among it, followed by the root of the part in front (`right`).
pub fn is_standard_proof()
    ensures proof { (hash : Hash) (m : ℕ) (digests : List (List ℕ))
        → proof hash m digests ≡ sub hash m true digests }
    ensures all { (hash : Hash) (digests : List (List ℕ))
        → sub hash (length digests) true digests ≡ [] }
    ensures all_unknown { (hash : Hash) (digests : List (List ℕ))
        → sub hash (length digests) false digests ≡ root hash digests ∷ [] }
    ensures left { (hash : Hash) (k m : ℕ) (known : Bool) (digests : List (List ℕ))
        → IsSplit k (length digests) → m ≤ k → sub hash m known digests
        ≡ sub hash m known (take k digests) ++ root hash (drop k digests) ∷ [] }
    ensures right { (hash : Hash) (k m : ℕ) (known : Bool) (digests : List (List ℕ))
        → IsSplit k (length digests) → k < m → m < length digests → sub hash m known digests
        ≡ sub hash (m - k) false (drop k digests) ++ root hash (take k digests) ∷ [] }

    // How many digests that is.
    ensures count { (hash : Hash) (m : ℕ) (known : Bool) (digests : List (List ℕ))
        → 0 < m → m ≤ length digests
        → length (sub hash m known digests) ≡ sub_length m known (length digests) }
{}

/// The two roots that digests give, that of the first m leaves and that of all, case by case. Where the first m are
/// all leaves, both are the known root along no digest, or else the only digest. Of fewer leaves the last digest
/// stands behind the new root of the part in front, or before both roots of the part behind. Nothing else gives roots.
pub fn is_standard_extension()
    ensures all { (hash : Hash) (size : ℕ) (old : List ℕ) → 0 < size
        → ext hash size size true old [] ≡ Some (old, old) }
    ensures all_unknown { (hash : Hash) (size : ℕ) (old digest : List ℕ) → 0 < size
        → ext hash size size false old (digest ∷ []) ≡ Some (digest, digest) }
    ensures left { (hash : Hash) (k m size : ℕ) (known : Bool) (old side : List ℕ) (rest : List
        (List ℕ))
        → IsSplit k size → m ≤ k → ext hash m size known old (rest ++ side ∷ [])
        ≡ option_map (λ roots. (roots.0, node hash roots.1 side)) (ext hash m k known old rest) }
    ensures right { (hash : Hash) (k m size : ℕ) (known : Bool) (old side : List ℕ) (rest : List
        (List ℕ))
        → IsSplit k size → k < m → m < size → ext hash m size known old (rest ++ side ∷ [])
        ≡ option_map (λ roots. (node hash side roots.0, node hash side roots.1))
        (ext hash (m - k) (size - k) false old rest) }

    // There are roots exactly where there are leaves of both trees, and as many digests as a proof has.
    ensures there { (hash : Hash) (m size : ℕ) (known : Bool) (old : List ℕ) (digests : List
        (List ℕ))
        → IsSome (ext hash m size known old digests)
        ↔ ((0 < m) × (m ≤ size) × (length digests ≡ sub_length m known size)) }

    // An old root folds to the new root where the digests give it as the old one.
    ensures fold { (hash : Hash) (m size : ℕ) (old new : List ℕ) (digests : List (List ℕ))
        → (fold_proof hash m old size digests ≡ Some new)
        ↔ (ext hash m size true old digests ≡ Some (old, new)) }

    // Along a proof in flat bytes, 32 for each digest. Where bytes are left over there is none.
    ensures flat { (hash : Hash) (m size : ℕ) (old : List ℕ) (digests : List (List ℕ))
        → All (λ d. length d ≡ 32) digests
        → fold_proof_bytes hash m old size (concat digests) ≡ fold_proof hash m old size digests }
    ensures rest { (hash : Hash) (m size : ℕ) (old bytes : List ℕ)
        → IsSome (fold_proof_bytes hash m old size bytes) → length bytes % 32 ≡ 0 }
{}

/// Each proof gives the old root and the new one, and the old root folds along it to the new one. A proof folds
/// exactly where m is neither 0 nor above the size, it has as many digests as such a proof, and it gives the old root.
pub fn proofs_give_roots()
    ensures roots { (hash : Hash) (m : ℕ) (digests : List (List ℕ)) → 0 < m → m ≤ length digests
        → ext hash m (length digests) true (root hash (take m digests)) (proof hash m digests)
        ≡ Some (root hash (take m digests), root hash digests) }
    ensures fold { (hash : Hash) (m : ℕ) (digests : List (List ℕ)) → 0 < m → m ≤ length digests
        → fold_proof hash m (root hash (take m digests)) (length digests) (proof hash m digests)
        ≡ Some (root hash digests) }
    ensures there { (hash : Hash) (m size : ℕ) (old : List ℕ) (digests : List (List ℕ))
        → IsSome (fold_proof hash m old size digests)
        ↔ ((0 < m) × (m ≤ size) × (length digests ≡ proof_length m size)
        × (old_root hash m old size digests ≡ Some old)) }
{}
