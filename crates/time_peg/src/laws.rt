//! Laws of times: bounds are the nearest time journals, and a notary's list may grow by later entries.

ghost use Rattle.std.specs.Prelude.{◌≡◌, ◌<◌, ◌≤◌, ℕ, List, [], ◌∷◌, ◌++◌, length};
ghost use Rattle.journal_record.specs.declared.rules.TheConstants.{NOTARY_LIMIT};
ghost use Rattle.time_peg.specs.Entries.{IsList, last_time, time_in};
ghost use Rattle.time_peg.specs.Times.{Rises, lower_bound, upper_bound, IsNearestBefore, IsNearestBehind};
ghost use Rattle.ledger_bytes.specs.declared.mark.TimeMark.{TimeMark};

/// The bounds of a journal are the nearest time journals on its two sides, and each is missing exactly where there is none
/// on that side.
pub fn bounds_are_nearest()
    ensures before { (n : ℕ) (marks : List TimeMark) → Rises marks
        → IsNearestBefore n marks (lower_bound n marks) }
    ensures behind { (n : ℕ) (marks : List TimeMark) → Rises marks
        → IsNearestBehind n marks (upper_bound n marks) }
{}

/// A notary's list may be empty, and it may grow by an entry whose time isn't below that of the last one.
pub fn lists_grow()
    ensures empty { IsList [] }
    ensures more { (es : List (List ℕ)) (e : List ℕ) → IsList es → length es < NOTARY_LIMIT
        → length e ≡ 72
        → last_time 0 es ≤ time_in e → IsList (es ++ e ∷ []) }
{}
