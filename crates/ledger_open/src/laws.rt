//! Laws of a ledger's two files: which history they stand for, when they open, and what a block or an erasure changes.

ghost use Rattle.std.specs.Prelude.{◌≡◌, ◌⊎◌, ◌<◌, ◌≤◌, ◌==◌, ◌&&◌, ◌||◌, [], Bool, true, false, not, List, ℕ, Option};
ghost use Rattle.block_file.specs.declared.failure.Damage.{Damage};
ghost use Rattle.ledger_model.specs.Genesis.{HasKeys, new_ledger};
ghost use Rattle.ledger_model.specs.History.{History, point, size};
ghost use Rattle.ledger_model.specs.Targets.{is_hidden};
ghost use Rattle.ledger_model.specs.declared.genesis.Genesis.{Genesis};
ghost use Rattle.pseudo_genesis.specs.declared.base.Base.{Base};
ghost use Rattle.ledger_open.specs.Damages.{IsDamage};
ghost use Rattle.ledger_open.specs.Erasing.{AllInside, GivesUp, IsGivenUp, IsOutsideOf, IsZeroedIn, is_given_up, given_up_in};
ghost use Rattle.ledger_open.specs.Founding.{IsFounded};
ghost use Rattle.ledger_open.specs.Growing.{Grows, GrowsErased, IsNewClean};
ghost use Rattle.ledger_open.specs.Places.{AreAtPlaces, AreAllThere};
ghost use Rattle.ledger_open.specs.Opening.{Known, Knows, IsOpenErr, IsOutside, AreSettled};
ghost use Rattle.ledger_open.specs.Purging.{Ledger, IsDone, IsFinished, StandsOpen, open_disk, other_disk};
ghost use Rattle.ledger_open.specs.Reopened.{Remembers, IsReopened, IsTidyAt};
ghost use Rattle.ledger_open.specs.Standing.{IsOneHistory, IsOnePair, StandsBy, StandsFor, IsErased, PairFor, IsClean, IsCleanPair};
ghost use Rattle.ledger_open.specs.declared.failure.OpenErr.{OpenErr};
ghost use Rattle.ledger_open.specs.declared.failure.OpenErr.TheVariants as errors;
ghost use Rattle.block_file.specs.Head.{IsShut};
ghost use Rattle.ledger_book.specs.Books.{Serves};
ghost use Rattle.ledger_disk.specs.Disk.{State};
ghost use Rattle.journal_record.specs.Entry.{Entry};

/// Histories that one image stands for agree but for what isn't kept, and so do those of a pair.
pub fn a_pair_stands_for_one_history()
    ensures image { IsOneHistory }
    ensures pair { IsOnePair }
{}

/// A file that stands for a history is read without any damage.
pub fn a_standing_file_has_no_damage()
    ensures { (image : List ℕ) (h : History) (damage : Damage) → StandsFor image h
        → IsDamage image damage → ⊥ }
{}

/// Each journal of a history that a file has stands at its place there, as far as it is kept, and from the first of them on
/// none is missing.
pub fn journals_stand_at_their_places()
    ensures kept { AreAtPlaces }
    ensures all { AreAllThere }
{}

/// A block more behind a file of which all is gone that was purged or is hidden: the file stands for the history with the
/// block, and all of that is gone where no journal of the block hides another or purges.
pub fn a_block_more_is_one_more()
    ensures stands { Grows }
    ensures erased { GrowsErased }
{}

/// The file that a new ledger is given is clean for the history of its genesis.
pub fn a_new_file_is_clean()
    ensures { (genesis : Genesis) → HasKeys genesis → IsNewClean genesis }
{}

/// Nothing but a fault or want of memory keeps a pair that stands for a history from being opened.
pub fn a_standing_pair_opens()
    ensures { (a b : List ℕ) (h : History) (e : OpenErr) → PairFor a b h → IsOpenErr a b e
        → IsOutside e }
{}

/// The book of a ledger that was opened stands for each history that the pair stands for.
pub fn an_opened_book_stands_for_the_history()
    ensures { (k : Known) (in_a : Bool) (start : Option Base) (blocks : List (List Entry))
        (a b a_new b_new : State) (h : History) → Remembers k start blocks
        → IsReopened in_a k start blocks a b a_new b_new
        → PairFor a.seen b.seen h → Serves k.book h }
{}

/// A pair that was opened is clean for each history that it stood for: all that is hidden is gone, the open file ends with
/// its tail gate, and the other is empty. Of one that was clean no byte has changed.
pub fn an_opened_pair_is_clean()
    ensures history { (k : Known) (in_a : Bool) (start : Option Base) (blocks : List (List Entry))
        (a b a_new b_new : State) (h : History) → Remembers k start blocks
        → IsReopened in_a k start blocks a b a_new b_new → PairFor a.seen b.seen h
        → IsCleanPair a_new.seen b_new.seen h }
    ensures tidy { (k : Known) (in_a : Bool) (start : Option Base) (blocks : List (List Entry))
        (a b a_new b_new : State) → Remembers k start blocks
        → IsReopened in_a k start blocks a b a_new b_new
        → IsTidyAt in_a k.gate a_new b_new }
    ensures left { (k : Known) (in_a : Bool) (start : Option Base) (blocks : List (List Entry))
        (a b a_new b_new : State) (h : History) → IsReopened in_a k start blocks a b a_new b_new
        → IsCleanPair a.seen b.seen h → AreSettled a b a_new b_new }
{}

/// The pair that making a ledger leaves is clean for the history of its genesis.
pub fn a_new_pair_is_clean()
    ensures { (genesis : Genesis) (a b : State) → HasKeys genesis → IsFounded genesis a b
        → IsCleanPair a.seen b.seen (new_ledger genesis) }
{}

/// Where a pair was opened, it has no damage, and is neither empty nor of another version.
pub fn an_opened_pair_has_no_damage()
    ensures { (k : Known) (in_a : Bool) (start : Option Base) (blocks : List (List Entry))
        (a b a_new b_new : State) (e : OpenErr)
        → IsReopened in_a k start blocks a b a_new b_new
        → IsOpenErr a.seen b.seen e → IsOutside e }
{}

/// Where both files are shut nothing else is told of them than that there is no ledger, but for a fault or want of memory.
pub fn a_shut_pair_is_empty()
    ensures { (a b : List ℕ) → IsShut a → IsShut b → (e : OpenErr) → IsOpenErr a b e
        → IsOutside e ⊎ (e ≡ errors.Empty) }
{}

/// A pair has one cause of refusal at most: what [`reopen`](crate::reopen) answers but for a fault or want of memory is
/// determined by the bytes of the two files.
pub fn a_pair_has_one_cause_of_refusal()
    ensures { (a b : List ℕ) (e f : OpenErr) → (IsOutside e → ⊥) → (IsOutside f → ⊥)
        → IsOpenErr a b e → IsOpenErr a b f → e ≡ f }
{}

/// What no purge took, the last journal hides and none before it does is given up. A file stands for the history whatever bytes stand in
/// place of such a content, which the file has; and with zeros over all of them all that is hidden is gone. Where there is
/// none, all that is hidden was gone in a file that begins at the point. One that ended with its tail gate is clean once all
/// is given up.
pub fn a_content_may_be_given_up()
    ensures meanwhile { (image new : List ℕ) (h : History) (n : ℕ) (stands : StandsFor image h)
        → is_given_up h n ≡ true → IsOutsideOf stands.file n new → StandsFor new h }
    ensures there { (image : List ℕ) (h : History) (n : ℕ) (stands : StandsFor image h)
        → is_given_up h n ≡ true → (stands.floor ≤ n) × (n < size h) }
    ensures erased { (image : List ℕ) (h : History) (stands : StandsFor image h)
        → stands.floor ≡ point h → IsErased (given_up_in stands.file image) h }
    ensures other { (image : List ℕ) (h : History) (stands : StandsFor image h)
        → ((n : ℕ) → is_given_up h n ≡ false) → stands.floor ≡ point h → IsErased image h }
    ensures clean { (old new : State) (h : History) (stands : StandsFor old.seen h)
        → stands.file.keeps.file.stands.rest ≡ [] → stands.floor ≡ point h
        → IsGivenUp old new h → IsClean new.seen h }
{}

/// A file stands for its history whatever bytes stand in place of a hidden content that it has, which is then no longer among
/// the zeros that are asked for; and where zeros were written there, it is among them.
pub fn a_hidden_content_may_be_zeroed()
    ensures torn { (floor : ℕ) (zeros : ℕ → Bool) (image new : List ℕ) (h : History) (n : ℕ)
        (stands : StandsBy floor zeros image h) → floor ≤ n → is_hidden h n ≡ true
        → IsOutsideOf stands n new → StandsBy floor (λ m. zeros m && not (m == n)) new h }
    ensures zeroed { (floor : ℕ) (zeros : ℕ → Bool) (image new : List ℕ) (h : History) (n : ℕ)
        (stands : StandsBy floor zeros image h) → floor ≤ n → is_hidden h n ≡ true
        → IsOutsideOf stands n new → IsZeroedIn stands n new
        → StandsBy floor (λ m. zeros m || m == n) new h }
{}

/// What the last journal leaves undone is finished by one of two calls, and what they come to is one thing: after
/// [`finish_erasures`](crate::finish_erasures) of a ledger whose file begins at the point, and after a purge was finished of one whose file
/// began in front of it, all that the history hides or gave up is gone from the open file, and nothing is pending.
pub fn what_is_left_undone_is_finished()
    ensures occult { (old new : Ledger) (h : History) → StandsOpen old h
        → old.known.book.floor ≡ point h
        → GivesUp old.known.book old.known.places (open_disk old) (open_disk new)
        → new.known ≡ old.known → other_disk new ≡ other_disk old → IsFinished new h }
    ensures purge { (old new : Ledger) (h : History) → StandsOpen old h
        → old.known.book.floor < old.known.book.point → IsDone true old new → IsFinished new h }
{}

/// In a ledger that was made or opened each content ends before the tail gate.
pub fn contents_end_before_the_tail()
    ensures { (k : Known) (start : Option Base) (blocks : List (List Entry)) → Knows k start blocks
        → AllInside k.gate k.places }
{}
