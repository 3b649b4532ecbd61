//! Laws of a tree as it grows: it is made level by level, and peaks stand for the leaves in front.

ghost use Rattle.std.specs.Prelude.{◌≡◌, ℕ, true, ◌+◌, ◌-◌, ◌*◌, ◌/◌, ◌%◌, ◌^◌, ◌<◌, ◌≤◌, List, [], ◌∷◌, ◌++◌, length, take, drop, count_ones};
ghost use Rattle.tree_model.specs.Tree.{Hash, node, root, IsSplit};
ghost use Rattle.tree_model.specs.Path.{path};
ghost use Rattle.tree_model.specs.Extension.{proof};
ghost use Rattle.tree_model.specs.Halves.{pairs, halve, beside, own_part};
ghost use Rattle.tree_model.specs.Peaks.{peaks};
ghost use Rattle.tree_model.specs.RootFrom.{root_from};

/// The tree from the leaves up. Each level is made from the one below it, two digests at a time, where an odd last
/// digest goes up as it is. The root is that of the next level, and so is each path of RFC 6962, behind the digest
/// beside the leaf. A proof over an even number of first leaves is that of the next level; over an odd number it is the
/// last of them, unless it is the only one, and the path of that one. The peaks are those of the next level's whole
/// nodes, and an odd last digest. So all can be read level by level, with no look at where the tree splits.
pub fn halves_give_the_tree()
    ensures root { (hash : Hash) (digests : List (List ℕ))
        → root hash digests ≡ root hash (halve hash digests) }
    ensures path { (hash : Hash) (n : ℕ) (digests : List (List ℕ)) → n < length digests
        → path hash n digests ≡ beside n digests ++ path hash (n / 2) (halve hash digests) }
    ensures proof_even { (hash : Hash) (m : ℕ) (digests : List (List ℕ))
        → 0 < m → m ≤ length digests → m % 2 ≡ 0
        → proof hash m digests ≡ proof hash (m / 2) (halve hash digests) }
    ensures proof_odd { (hash : Hash) (m : ℕ) (digests : List (List ℕ))
        → m < length digests → m % 2 ≡ 1
        → proof hash m digests ≡ own_part true m digests ++ path hash (m - 1) digests }
    ensures peaks { (hash : Hash) (digests : List (List ℕ)) → peaks hash digests
        ≡ peaks hash (pairs hash digests) ++ drop (2 * (length digests / 2)) digests }
{}

/// The peaks of a list: the roots of its whole aligned subtrees, the greatest first, one for each digit of the list's
/// length that is one. The first is over the greatest power of two that fits, and the others are those of the rest.
pub fn peaks_are_roots()
    ensures none { (hash : Hash) → peaks hash [] ≡ [] }
    ensures more { (hash : Hash) (h : ℕ) (digests : List (List ℕ))
        → 2 ^ h ≤ length digests → length digests < 2 * 2 ^ h → peaks hash digests
        ≡ root hash (take (2 ^ h) digests) ∷ peaks hash (drop (2 ^ h) digests) }
    ensures count { (hash : Hash) (digests : List (List ℕ))
        → length (peaks hash digests) ≡ count_ones (length digests) }
{}

/// The root of a tree of which only the peaks of the first p leaves and the leaves behind them are known, case by case:
/// over no peaks it is the root of the leaves (`none`), and over one peak and no leaf that peak (`whole`). Otherwise the
/// tree splits at the largest power of two below the number of its leaves: behind the first peak, where that covers the
/// part in front (`front`), and else among the leaves (`behind`). Over the peaks of a list it is the root of that list with
/// the leaves behind it, whichever list it is (`list`).
pub fn peaks_give_roots()
    ensures none { (hash : Hash) (leaves : List (List ℕ))
        → root_from hash [] 0 leaves ≡ root hash leaves }
    ensures whole { (hash : Hash) (h : ℕ) (peak : List ℕ)
        → root_from hash (peak ∷ []) (2 ^ h) [] ≡ peak }
    ensures front { (hash : Hash) (k p : ℕ) (peak : List ℕ) (others leaves : List (List ℕ))
        → IsSplit k (p + length leaves) → k ≤ p → p < 2 * k
        → root_from hash (peak ∷ others) p leaves
        ≡ node hash peak (root_from hash others (p - k) leaves) }
    ensures behind { (hash : Hash) (k p : ℕ) (tops leaves : List (List ℕ))
        → IsSplit k (p + length leaves) → p < k → root_from hash tops p leaves
        ≡ node hash (root_from hash tops p (take (k - p) leaves)) (root hash (drop
        (k - p) leaves)) }
    ensures list { (hash : Hash) (digests leaves : List (List ℕ))
        → root_from hash (peaks hash digests) (length digests) leaves
        ≡ root hash (digests ++ leaves) }
{}
