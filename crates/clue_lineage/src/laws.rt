//! Laws of lineages: what an accepted one says of the ledger, and when it is whole.

ghost use Rattle.std.specs.Prelude.{◌≡◌, ◌⊎◌, ◌↔◌, ◌+◌, ℕ, List, length, Ok};
ghost use Rattle.ledger_bytes.specs.Fields.{IsBytes};
ghost use Rattle.ledger_bytes.specs.declared.digest.Digest.{Digest};
ghost use Rattle.ledger_model.specs.History.{History, journals, leaves};
ghost use Rattle.ledger_model.specs.Lawful.{AreLawful};
ghost use Rattle.merkle_tree.specs.declared.head.Head.{Head};
ghost use Rattle.tree_model.specs.Clash.{Clashes};
ghost use Rattle.tree_model.specs.Tree.{Hash, mth};
ghost use Rattle.clue_lineage.specs.declared.answer.Run.{Run};
ghost use Rattle.clue_lineage.specs.Lineages.{Lineage, IsLineage, spelling};
ghost use Rattle.clue_lineage.specs.Reading.{lineage_of};
ghost use Rattle.clue_lineage.specs.Accepting.{acceptance};
ghost use Rattle.clue_lineage.specs.Judging.{IsTrueOf, clash_of};
ghost use Rattle.clue_lineage.specs.Runs.{KeepsClueRule, AreWide, headers_read, records_between};

/// Bytes are read as a lineage exactly where they are its spelling, each byte of it.
pub fn lineages_have_one_spelling()
    ensures { (bytes : List ℕ) (l : Lineage) → IsBytes bytes
        → (lineage_of bytes ≡ Ok l) ↔ (IsLineage l × (bytes ≡ spelling l)) }
{}

/// Each header of an accepted lineage is that of each list under the head at its number, or the lineage and the list show two
/// different strings with one digest. This rests on the bytes and the head alone, and holds for every hash whose digests have
/// 32 bytes.
pub fn accepted_lineages_are_true()
    ensures { (hash : Hash) (bytes : List ℕ) (clue : Digest) (head : Head) (run : Run)
        (list : List (List ℕ)) → ((message : List ℕ) → length (hash message) ≡ 32)
        → acceptance hash bytes clue head ≡ Ok run
        → length list ≡ head.size → mth hash list ≡ head.root.0
        → IsTrueOf list bytes ⊎ Clashes hash (clash_of hash list bytes) }
{}

/// Where the list keeps the rule of clues and has each header of an accepted lineage at its number, the headers of the lineage
/// are all records of the list with the clue and an ordinal from the run's first to its last, in order. That the last is the
/// clue's last isn't said.
pub fn true_lineages_are_whole()
    ensures whole { (hash : Hash) (bytes : List ℕ) (clue : Digest) (head : Head) (run : Run)
        (list : List (List ℕ)) → IsBytes bytes → acceptance hash bytes clue head ≡ Ok run
        → IsTrueOf list bytes → KeepsClueRule list
        → headers_read (lineage_of bytes) ≡ records_between clue run.first run.last list }
    ensures count { (hash : Hash) (bytes : List ℕ) (clue : Digest) (head : Head) (run : Run)
        → IsBytes bytes → acceptance hash bytes clue head ≡ Ok run
        → run.last + 1 ≡ run.first + run.count }
{}

/// The headers of a lawful history keep the rule of clues, where their numbers fit their fields as those of the program do.
pub fn lawful_headers_keep_the_clue_rule()
    ensures { (h : History) → AreLawful (journals h) → AreWide (journals h)
        → KeepsClueRule (leaves h) }
{}
