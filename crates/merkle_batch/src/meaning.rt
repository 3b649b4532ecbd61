//! A law of the lists that a tree stands for: what they have in common.

ghost use Rattle.std.specs.Prelude.{◌≡◌, ℕ, ◌≤◌, List, length, take, drop};
ghost use Rattle.tree_model.specs.Tree.{Hash, root};
ghost use Rattle.tree_model.specs.Peaks.{peaks};
ghost use Rattle.merkle_batch.specs.Rows.{Levels, StandsFor};

/// What a tree knows of the lists that it stands for. Each has as many leaves as the tree (`size`). Any two have the
/// same leaves from its floor on (`leaves`), and their parts before the floor have the same peaks and the same root
/// (`peaks`, `root`). And whichever list has all this in common with one of them is one of them too (`only`).
pub fn lists_of_a_tree()
    ensures size { (hash : Hash) (tree : Levels) (ds : List (List ℕ))
        → StandsFor hash tree ds → length ds ≡ tree.size }
    ensures leaves { (hash : Hash) (tree : Levels) (ds es : List (List ℕ))
        → StandsFor hash tree ds → StandsFor hash tree es
        → drop tree.floor ds ≡ drop tree.floor es }
    ensures peaks { (hash : Hash) (tree : Levels) (ds es : List (List ℕ)) → tree.floor ≤ tree.size
        → StandsFor hash tree ds → StandsFor hash tree es
        → peaks hash (take tree.floor ds) ≡ peaks hash (take tree.floor es) }
    ensures root { (hash : Hash) (tree : Levels) (ds es : List (List ℕ)) → tree.floor ≤ tree.size
        → StandsFor hash tree ds → StandsFor hash tree es
        → root hash (take tree.floor ds) ≡ root hash (take tree.floor es) }
    ensures only { (hash : Hash) (tree : Levels) (ds es : List (List ℕ)) → tree.floor ≤ tree.size
        → StandsFor hash tree ds → length es ≡ tree.size
        → drop tree.floor ds ≡ drop tree.floor es
        → peaks hash (take tree.floor ds) ≡ peaks hash (take tree.floor es)
        → StandsFor hash tree es }
{}
