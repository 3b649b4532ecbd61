//! A law of soaks: without stops, the seed and the count determine what is told.

ghost use Rattle.std.specs.Prelude.{◌≡◌, ℕ, List};
ghost use Rattle.ledger_soak.specs.Soaks.{TellsSoak};

/// What a soak without stops tells is determined by its seed and its count.
pub fn soaks_without_stops_agree()
    ensures { (seed count : ℕ) (text other : List ℕ) → TellsSoak seed count 0 text
        → TellsSoak seed count 0 other → text ≡ other }
{}
