//! Laws of whole runs: each lane is answered in order, a notary's list goes on, what has a receipt is shown later, and no line is cut.

ghost use Rattle.std.specs.Prelude.{◌≡◌, ◌≤◌, ◌+◌, ℕ, List, [], All, Some, length, map, true};
ghost use Rattle.std.specs.List.{flat_map};
ghost use Rattle.ledger_bytes.specs.Begins.{Begins};
ghost use Rattle.ledger_io.specs.Runs.{AreWhole};
ghost use Rattle.time_peg.specs.Entries.{IsList, NotaryState};
ghost use Rattle.script_lines.specs.Grammar.{spoken_line};
ghost use Rattle.ledger_model.specs.History.{History};
ghost use Rattle.ledger_model.specs.Merge.{said_by};
ghost use Rattle.ledger_model.specs.Scheme.{Scheme};
ghost use Rattle.ledger_model.specs.Step.{Step};
ghost use Rattle.ledger_model.specs.Took.{counts_after};
ghost use Rattle.ledger_model.specs.Windows.{said_lines, windows};
ghost use Rattle.script_lines.specs.Receipts.{IsReceipted};
ghost use Rattle.ledger_bytes.specs.declared.digest.Digest.{Digest};
ghost use Rattle.ledger_model.specs.Lawful.{IsSound};
ghost use Rattle.ledger_cli.specs.Runs.{Answers, Anything, Handed, MayStand, RunsAgain, StandFor};
ghost use Rattle.ledger_cli.specs.Leaving.{AreClean, AreErased};
ghost use Rattle.ledger_cli.specs.Shown.{IsShown};
ghost use Rattle.ledger_cli.specs.Taken.{taken, TookSome};
ghost use Rattle.ledger_cli.specs.declared.ending.LedgerEnding.TheVariants as ending;

/// Where all lines of a script belong to one lane, they are answered in their order.
pub fn lines_of_one_lane_are_answered_in_order()
    ensures { (scheme : Scheme) (h : History) (k : ℕ) (lines : List (List ℕ)) (replies : List ℕ)
        (first last : NotaryState)
        → All (λ line. (spoken_line line).0 ≡ k) lines
        → (answers : Answers scheme h lines replies first last)
        → map (map said_by) answers.steps ≡ windows (said_lines lines) }
{}

/// The notary's count of failures is one more for each step of a run in which it failed. Where the run stopped, only steps
/// that were taken count.
pub fn a_run_counts_the_failures_of_its_notary()
    ensures counted { (scheme : Scheme) (h : History) (lines : List (List ℕ)) (replies : List ℕ)
        (first last : NotaryState) → (answers : Answers scheme h lines replies first last)
        → last.faults ≡ counts_after (flat_map (λ window. window) answers.steps) first.faults }
    ensures stopped { (scheme : Scheme) (h : History) (windows : List (List Step))
        (first last : NotaryState) → (took : TookSome scheme h first windows last)
        → let steps = flat_map (λ window. window) (taken took.done took.now) in
        Begins steps (flat_map (λ window. window) windows)
        × (last.faults ≡ counts_after steps first.faults) }
{}

/// However a run ends, the notary's list goes on from what it was, by at most one entry for each line.
pub fn the_list_of_a_notary_goes_on()
    ensures { (scheme : Scheme) (h : History) (windows : List (List Step))
        (first last : NotaryState) → TookSome scheme h first windows last
        → Begins first.entries last.entries × (length last.entries
        ≤ length first.entries + length (flat_map (λ window. window) windows)) }
{}

/// A journal of which a receipt was written whole is shown from each pair of images that a crash may leave: whole, unless a
/// journal that stands in them hides its content.
pub fn a_written_receipt_is_shown()
    ensures clean { (h whole : History) (first last : NotaryState) (replies : List ℕ) (a b : List ℕ)
        (m : MayStand h whole first last replies AreClean a b) (jsn : ℕ) (leaf : Digest)
        → IsSound whole → IsReceipted replies jsn leaf → IsShown m.kept jsn leaf }
    ensures erased { (h whole : History) (first last : NotaryState) (replies : List ℕ) (a b : List ℕ)
        (m : MayStand h whole first last replies (AreErased h replies) a b) (jsn : ℕ) (leaf : Digest)
        → IsSound whole → IsReceipted replies jsn leaf → IsShown m.kept jsn leaf }
{}

/// A run that a failing disk ends wrote whole lines alone, also where a write was pending on a disk at the call.
pub fn a_run_that_a_disk_ends_cuts_no_line()
    ensures { (scheme : Scheme) (before now : Handed) (h : History) (written : List ℕ)
        → RunsAgain scheme true Anything ending.DiskFault before now → StandFor before.disks h
        → IsList before.notary.entries → before.sink.held ≡ Some [] → now.sink.held ≡ Some written
        → AreWhole written }
{}
