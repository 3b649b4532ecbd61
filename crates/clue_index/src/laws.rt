//! Laws of the index of clues: the states at a point are in order, and an index goes on from them.

ghost use Rattle.std.specs.Prelude.{◌≡◌, ◌≢◌, ℕ, ◌<◌, map, All, None};
ghost use Rattle.std.specs.Cmp.Lexicographic.{slice_cmp};
ghost use Rattle.std.specs.FinMap.{get};
ghost use Rattle.std.specs.List.Sorted.{IsStrictlySortedBy};
ghost use Rattle.std.specs.Ordering.{nat_cmp};
ghost use Rattle.clue_index.specs.Added.{Added, from_point, no_clue, states_at, table_of, with_floor};
ghost use Rattle.clue_index.specs.Index.{KeptTrails, StandsForTrails};
ghost use Rattle.clue_index.specs.Trail.{Ascends};

/// An index that begins with the states at a point, and was given the journals from there on, stands from there on for
/// all journals: it answers as one that was given each of them.
pub fn states_carry_on()
    ensures { (k : KeptTrails) (a : Added) (p : ℕ) → Ascends (map (λ m. m.jsn) a.marks)
        → get (table_of a) no_clue ≡ None
        → All (λ s. 0 < s.count) a.states
        → StandsForTrails k (from_point p a) → StandsForTrails k (with_floor p a) }
{}

/// The states at a point: they ascend by the bytes of their clues, so no two are of one clue; each has a count; and
/// where no journal has zeros as its clue, none is theirs.
pub fn states_are_in_order()
    ensures ascending { (p : ℕ) (a : Added)
        → IsStrictlySortedBy (slice_cmp nat_cmp) (map (λ s. s.clue.0) (states_at p a)) }
    ensures counted { (p : ℕ) (a : Added) → All (λ s. 0 < s.count) (states_at p a) }
    ensures named { (p : ℕ) (a : Added) → get (table_of a) no_clue ≡ None
        → All (λ s. s.clue.0 ≢ no_clue) (states_at p a) }
{}
