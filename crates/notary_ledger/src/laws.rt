//! Laws of a notary's file: it has one list, and a stop leaves that list, or one entry more.

ghost use Rattle.std.specs.Prelude.{◌≡◌, ◌⊎◌, [], ◌∷◌, ◌++◌, ℕ, List, Some, None};
ghost use Rattle.notary_ledger.specs.Slots.{Lists, MayList};

/// Whoever reads a file from the start comes to the same list.
pub fn a_file_has_one_list()
    ensures { (es fs : List (List ℕ)) (file : List ℕ) → Lists es file → Lists fs file → es ≡ fs }
{}

/// What a stop leaves of a notary's file has the notary's list, or that and the entry of a stamp that didn't answer
/// Ok.
pub fn a_stop_leaves_the_list()
    ensures whole { (es fs : List (List ℕ)) (file : List ℕ)
        → MayList es None file → Lists fs file → fs ≡ es }
    ensures half { (es fs : List (List ℕ)) (e file : List ℕ)
        → MayList es (Some e) file → Lists fs file → (fs ≡ es) ⊎ (fs ≡ es ++ e ∷ []) }
{}
