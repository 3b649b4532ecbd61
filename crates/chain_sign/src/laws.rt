//! What stands at each place of the lists of values, ends and secrets.

ghost use Rattle.std.specs.Prelude.{◌≡◌, ℕ, ◌+◌, ◌-◌, ◌<◌, List, [], length, get_or};
ghost use Rattle.tree_model.specs.Tree.{Hash};
ghost use Rattle.chain_sign.specs.Chain.{walk, values_at, ends_at, secret, keys_of};

/// What stands at each place of the lists of values, ends and secrets: the value of a chain is its secret after as many
/// steps as its digit says, its end is the value after the steps that are left of fifteen, and its secret comes from the
/// seed, the number of the one-time key and its own.
pub fn chains_by_number()
    ensures values { (hash : Hash) (ds : List ℕ) (secrets : List (List ℕ)) (c : ℕ)
        → length secrets ≡ length ds → c < length ds
        → get_or (values_at hash 0 ds secrets) c [] ≡ walk hash c (get_or ds c 0) 0 (get_or secrets c []) }
    ensures ends { (hash : Hash) (ds : List ℕ) (values : List (List ℕ)) (c : ℕ)
        → length values ≡ length ds → c < length ds → get_or (ends_at hash 0 ds values) c []
        ≡ walk hash c (15 - get_or ds c 0) (get_or ds c 0) (get_or values c []) }
    ensures secrets { (hash : Hash) (seed : List ℕ) (size i c : ℕ) → i < size → c < 67
        → get_or (get_or (keys_of hash seed size) i []) c [] ≡ secret hash seed i c }
{}
