//! Laws of sets: what a ledger kept or carried on is read back, is of each later history, and is carried on and revived by it.

ghost use Rattle.std.specs.Prelude.{◌≡◌, ◌≤◌, ◌<◌, ◌^◌, ℕ, List, length, slice_get, Some, None, Result};
ghost use Rattle.ledger_bytes.specs.Begins.{Begins};
ghost use Rattle.ledger_model.specs.History.{History, journals, size};
ghost use Rattle.ledger_model.specs.Lawful.{AreLawful};
ghost use Rattle.survivor_set.specs.Keeping.{AreAscending, AreShowable, IsSetOf, keep_refusal};
ghost use Rattle.survivor_set.specs.Lives.{AreCarries, Carry, IsCarried, IsRevived, history_after, purge_refusal, set_after};
ghost use Rattle.survivor_set.specs.Outcomes.{AreJournalsOf, CarriesOn, Revives, carried_set, carry_refusal, set_refusal};
ghost use Rattle.survivor_set.specs.Sets.{IsSet, Saved, SavedSet};
ghost use Rattle.survivor_set.specs.declared.failure.SetErr.{SetErr};
ghost use Rattle.proof_maker.specs.declared.made.Made.{Made};

/// The journals of a set that was kept of a history are journals of each later history of that ledger, also where this has purged
/// them: each has its header, and its path under the root in front of the point.
pub fn kept_journals_stay()
    ensures { (h g : History) (p : ℕ) (ns : List ℕ) (s : SavedSet) → AreLawful (journals h)
        → Begins (journals h) (journals g) → p ≤ size h → IsSetOf h p ns s → AreJournalsOf g s }
{}

/// So are those of a set that was carried on: where a set's survivors are journals of the history that carries it on, they are
/// journals of each later one, with their paths at the new point.
pub fn carried_journals_stay()
    ensures { (g k : History) (q : ℕ) (s : SavedSet) → Begins (journals g) (journals k)
        → q ≤ size g → AreJournalsOf g s → AreJournalsOf k (carried_set g q s) }
{}

/// The set of 1 to 64 journals, of which none is refused, keeps every rule of a set where the journals that the ledger shows can stand
/// in one. Those in the files of an open ledger can: what [`crate::keep`] writes is read back.
pub fn kept_sets_keep_the_rules()
    ensures { (h : History) (p : ℕ) (ns : List ℕ) (s : SavedSet) → AreLawful (journals h) → AreShowable h
        → 1 ≤ length ns → length ns ≤ 64 → AreAscending ns
        → keep_refusal h p ns ≡ None → IsSetOf h p ns s → IsSet s }
{}

/// A set that keeps the rules does so when it was carried on, to any journal.
pub fn carried_sets_keep_the_rules()
    ensures { (h : History) (q : ℕ) (s : SavedSet) → IsSet s → q < 2 ^ 64 → IsSet (carried_set h q s) }
{}

/// A set that was kept of a history is refused by a later one of that ledger exactly where that has purged behind the set's point.
pub fn only_purges_refuse_kept_sets()
    ensures { (h g : History) (p : ℕ) (ns : List ℕ) (s : SavedSet) → AreLawful (journals h)
        → Begins (journals h) (journals g) → keep_refusal h p ns ≡ None → IsSetOf h p ns s
        → set_refusal g s ≡ purge_refusal g p }
{}

/// So is a set that was carried on, with its new point.
pub fn only_purges_refuse_carried_sets()
    ensures { (g k : History) (q : ℕ) (s : SavedSet) → Begins (journals g) (journals k)
        → carry_refusal g s q ≡ None → AreJournalsOf g s
        → set_refusal k (carried_set g q s) ≡ purge_refusal k q }
{}

/// So it is over a whole life: a set that was kept, and then carried on any number of times, has journals of each later history, and
/// is refused by it exactly where that has purged behind the set's point.
pub fn kept_sets_live_on()
    ensures { (h k : History) (p : ℕ) (ns : List ℕ) (s : SavedSet) (cs : List Carry) → AreLawful (journals h)
        → keep_refusal h p ns ≡ None → IsSetOf h p ns s → AreCarries h s cs
        → Begins (journals (history_after h cs)) (journals k)
        → (set_refusal k (set_after s cs) ≡ purge_refusal k (set_after s cs).point)
        × AreJournalsOf k (set_after s cs) }
{}

/// Of a set that isn't refused, and whose survivors are journals of the history, [`crate::carry`] gives the carried one, which is read
/// back, unless it refuses the new point or memory is short.
pub fn good_sets_are_carried()
    ensures { (h : History) (s : SavedSet) (q : ℕ) (result : Result (List ℕ) SetErr) → set_refusal h s ≡ None
        → AreJournalsOf h s → CarriesOn h s q result → IsCarried h s q result }
{}

/// Of each survivor of such a set [`crate::revive`] gives the proof, unless the notary fails or memory is short.
pub fn good_survivors_are_revived()
    ensures { (h : History) (es : List (List ℕ)) (s : SavedSet) (i : ℕ) (x : Saved) (result : Result Made SetErr)
        → set_refusal h s ≡ None → AreJournalsOf h s → slice_get s.survivors i ≡ Some x
        → Revives h es (set_refusal h s) s.point x result → IsRevived h es x result }
{}
