//! Laws of false paths, proofs and trees: each that has a list's root shows two strings with one digest.

ghost use Rattle.std.specs.Prelude.{◌≡◌, ◌≢◌, ℕ, Bool, true, false, ◌-◌, ◌<◌, ◌≤◌, List, [], ◌∷◌, ◌++◌, length, take, drop, get_or, map, All, Some, None, count_ones, ◌+◌};
ghost use Rattle.tree_model.specs.Tree.{Hash, leaf, root, mth, IsSplit};
ghost use Rattle.tree_model.specs.Peaks.{peaks};
ghost use Rattle.tree_model.specs.RootFrom.{root_from};
ghost use Rattle.tree_model.specs.TreeClash.{tree_clash, ShowsOr};
ghost use Rattle.tree_model.specs.Path.{fold};
ghost use Rattle.tree_model.specs.Extension.{ext, fold_proof};
ghost use Rattle.tree_model.specs.Clash.{Clashes, node_bytes, highest_node, path_clash, sub_clash, proof_clash};

/// A path by which anything but the leaf's digest folds to the root of a list shows two different strings with one
/// digest. This is so for every hash whose digests have 32 bytes.
pub fn paths_show_clashes()
    ensures { (hash : Hash) (digest : List ℕ) (n : ℕ) (digests path : List (List ℕ))
        → ((bytes : List ℕ) → length (hash bytes) ≡ 32)
        → All (λ d. length d ≡ 32) digests → All (λ d. length d ≡ 32) path
        → digest ≢ get_or digests n []
        → fold hash digest n (length digests) path ≡ Some (root hash digests)
        → Clashes hash (path_clash hash digest n digests path) }
{}

/// So does a proof by which anything but the root of the first m leaves folds to the root of a list.
pub fn proofs_show_clashes()
    ensures { (hash : Hash) (m : ℕ) (old : List ℕ) (digests proof : List (List ℕ))
        → ((bytes : List ℕ) → length (hash bytes) ≡ 32)
        → All (λ d. length d ≡ 32) digests → All (λ d. length d ≡ 32) proof
        → old ≢ root hash (take m digests)
        → fold_proof hash m old (length digests) proof ≡ Some (root hash digests)
        → Clashes hash (proof_clash hash m old digests proof) }
{}

/// Which strings a path shows, case by case: those of the highest node where they differ, first the one that the path
/// tells and then the one that the list has, and else those that the rest of the path shows in the part on the leaf's
/// side of the split. Over one leaf, and along no digest, it shows none.
pub fn path_clash_is_first()
    ensures few { (hash : Hash) (digest : List ℕ) (n : ℕ) (digests path : List (List ℕ))
        → length digests ≤ 1 → path_clash hash digest n digests path ≡ None }
    ensures missing { (hash : Hash) (digest : List ℕ) (n : ℕ) (digests : List (List ℕ))
        → path_clash hash digest n digests [] ≡ None }
    ensures left { (hash : Hash) (digest side left : List ℕ) (k n : ℕ)
        (digests rest : List (List ℕ)) → IsSplit k (length digests) → n < k
        → fold hash digest n k rest ≡ Some left
        → node_bytes left side ≢ highest_node hash k digests
        → path_clash hash digest n digests (rest ++ side ∷ [])
        ≡ Some (node_bytes left side, highest_node hash k digests) }
    ensures left_below { (hash : Hash) (digest side left : List ℕ) (k n : ℕ)
        (digests rest : List (List ℕ)) → IsSplit k (length digests) → n < k
        → fold hash digest n k rest ≡ Some left
        → node_bytes left side ≡ highest_node hash k digests
        → path_clash hash digest n digests (rest ++ side ∷ [])
        ≡ path_clash hash digest n (take k digests) rest }
    ensures right { (hash : Hash) (digest side right : List ℕ) (k n : ℕ)
        (digests rest : List (List ℕ)) → IsSplit k (length digests) → k ≤ n → n < length digests
        → fold hash digest (n - k) (length digests - k) rest ≡ Some right
        → node_bytes side right ≢ highest_node hash k digests
        → path_clash hash digest n digests (rest ++ side ∷ [])
        ≡ Some (node_bytes side right, highest_node hash k digests) }
    ensures right_below { (hash : Hash) (digest side right : List ℕ) (k n : ℕ)
        (digests rest : List (List ℕ)) → IsSplit k (length digests) → k ≤ n → n < length digests
        → fold hash digest (n - k) (length digests - k) rest ≡ Some right
        → node_bytes side right ≡ highest_node hash k digests
        → path_clash hash digest n digests (rest ++ side ∷ [])
        ≡ path_clash hash digest (n - k) (drop k digests) rest }
{}

/// Which strings a proof shows, case by case: it goes down the new tree in the same way, to the part that is the first
/// m leaves whole. There, and along no digest, it shows none.
pub fn proof_clash_is_first()
    ensures proof { (hash : Hash) (m : ℕ) (old : List ℕ) (digests proof : List (List ℕ))
        → proof_clash hash m old digests proof ≡ sub_clash hash m true old digests proof }
    ensures all { (hash : Hash) (m : ℕ) (known : Bool) (old : List ℕ)
        (digests proof : List (List ℕ)) → length digests ≤ m
        → sub_clash hash m known old digests proof ≡ None }
    ensures missing { (hash : Hash) (m : ℕ) (known : Bool) (old : List ℕ)
        (digests : List (List ℕ)) → sub_clash hash m known old digests [] ≡ None }
    ensures left { (hash : Hash) (k m : ℕ) (known : Bool) (old side first new : List ℕ)
        (digests rest : List (List ℕ)) → IsSplit k (length digests) → 0 < m → m ≤ k
        → ext hash m k known old rest ≡ Some (first, new)
        → node_bytes new side ≢ highest_node hash k digests
        → sub_clash hash m known old digests (rest ++ side ∷ [])
        ≡ Some (node_bytes new side, highest_node hash k digests) }
    ensures left_below { (hash : Hash) (k m : ℕ) (known : Bool) (old side first new : List ℕ)
        (digests rest : List (List ℕ)) → IsSplit k (length digests) → 0 < m → m ≤ k
        → ext hash m k known old rest ≡ Some (first, new)
        → node_bytes new side ≡ highest_node hash k digests
        → sub_clash hash m known old digests (rest ++ side ∷ [])
        ≡ sub_clash hash m known old (take k digests) rest }
    ensures right { (hash : Hash) (k m : ℕ) (known : Bool) (old side first new : List ℕ)
        (digests rest : List (List ℕ)) → IsSplit k (length digests) → k < m → m < length digests
        → ext hash (m - k) (length digests - k) false old rest ≡ Some (first, new)
        → node_bytes side new ≢ highest_node hash k digests
        → sub_clash hash m known old digests (rest ++ side ∷ [])
        ≡ Some (node_bytes side new, highest_node hash k digests) }
    ensures right_below { (hash : Hash) (k m : ℕ) (known : Bool) (old side first new : List ℕ)
        (digests rest : List (List ℕ)) → IsSplit k (length digests) → k < m → m < length digests
        → ext hash (m - k) (length digests - k) false old rest ≡ Some (first, new)
        → node_bytes side new ≡ highest_node hash k digests
        → sub_clash hash m known old digests (rest ++ side ∷ [])
        ≡ sub_clash hash (m - k) false old (drop k digests) rest }
{}

/// A tree that is told by the peaks of its first p leaves and by the leaves behind them, and that has the size and the root of a
/// list, is the list's: its leaves are those behind the first p, and its peaks are those of the first p. Or it shows two
/// different strings with one digest: those of the first node or leaf, from the root down and left before right, at which it
/// differs from the list. With no peaks all of the list is compared.
pub fn trees_show_clashes()
    ensures { (hash : Hash) (tops : List (List ℕ)) (p : ℕ) (told leaves : List (List ℕ))
        → ((bytes : List ℕ) → length (hash bytes) ≡ 32)
        → length leaves ≡ p + length told
        → length tops ≡ count_ones p → All (λ d. length d ≡ 32) tops
        → root_from hash tops p (map (leaf hash) told) ≡ mth hash leaves
        → ShowsOr hash ((told ≡ drop p leaves) × (tops ≡ peaks hash (map (leaf hash) (take p leaves))))
        (tree_clash hash tops p told leaves) }
{}
