//! Laws of books: room changes nothing, and which journal may be next is seen from behind a base too.

ghost use Rattle.std.specs.Prelude.{◌≡◌, true, List, [], ◌∷◌, drop, Option, Some, None};
ghost use Rattle.journal_record.specs.Entry.{Entry};
ghost use Rattle.journal_record.specs.declared.header.Header.{Header};
ghost use Rattle.journal_record.specs.declared.header.Kind.TheVariants as kind;
ghost use Rattle.ledger_model.specs.History.{History, history, journals};
ghost use Rattle.ledger_model.specs.Lawful.{AreLawful, IsNext};
ghost use Rattle.pseudo_genesis.specs.declared.base.Base.{Base};
ghost use Rattle.ledger_model.specs.Behind.{AreBehind, BeginsWell, IsNextBehind, has_own_purge};
ghost use Rattle.ledger_book.specs.Books.{Kept, Stands, Serves};
ghost use Rattle.ledger_book.specs.Reading.{IsBaseIn, StandsBehind};
ghost use Rattle.ledger_book.specs.Steps.{IsAsBefore};

/// A book that is as before but for room keeps each history that it kept.
pub fn room_changes_nothing()
    ensures stands { (old new : Kept) (h : History) → IsAsBefore old new → Stands old h
        → Stands new h }
    ensures serves { (old new : Kept) (h : History) → IsAsBefore old new → Serves old h
        → Serves new h }
    ensures behind { (old new : Kept) (start : Option Base) (journals : List Entry)
        → IsAsBefore old new → StandsBehind old start journals → StandsBehind new start journals }
{}

/// A header that may be the next one of a history may be so for who sees only what stands behind a base of it; where the purge
/// to that base's point is among that, it is the other way round too. All journals of a lawful history behind its base are
/// next ones where a time journal is the first, so a file that stands for one has no damage.
pub fn the_next_is_seen_from_behind()
    ensures seen { (h : History) (base : Base) (x : Header) → IsBaseIn base h
        → IsNext (history [] (journals h)) x
        → BeginsWell (Some base) (drop base.point (journals h)) x
        → IsNextBehind (Some base) (drop base.point (journals h)) x }
    ensures exact { (h : History) (base : Base) (x : Header) → IsBaseIn base h
        → has_own_purge (Some base) (drop base.point (journals h)) ≡ true
        → IsNextBehind (Some base) (drop base.point (journals h)) x
        → IsNext (history [] (journals h)) x }
    ensures all { (h : History) (base : Base) → IsBaseIn base h
        → ((first : Entry) (more : List Entry) → drop base.point (journals h) ≡ first ∷ more
        → first.header.kind ≡ kind.Time)
        → AreBehind (Some base) [] (drop base.point (journals h)) }
{}

/// Where no base stands in front, what may be the next one is what may be so of the history.
pub fn the_next_is_seen_from_the_first()
    ensures seen { (es : List Entry) (x : Header) → AreLawful es → IsNext (history [] es) x
        → IsNextBehind None es x }
    ensures exact { (es : List Entry) (x : Header) → AreLawful es → IsNextBehind None es x
        → IsNext (history [] es) x }
{}
