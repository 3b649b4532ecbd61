//! What holds of the dump of a history that runs of lines on a new ledger made (`specs/Runs.antt`). It is called a ledger's history
//! below.

ghost use Rattle.std.specs.Prelude.{◌≡◌, ◌<◌, ℕ, List, [], ◌∷◌, ◌++◌, All, None, Some};
ghost use Rattle.journal_record.specs.Entry.{Entry};
ghost use Rattle.journal_record.specs.Items.{Item};
ghost use Rattle.journal_record.specs.declared.header.Kind.TheVariants as kind;
ghost use Rattle.ledger_model.specs.Bases.{base_of, digest_of_base};
ghost use Rattle.ledger_model.specs.Behind.{AreBehind};
ghost use Rattle.ledger_model.specs.Genesis.{HasKeys, new_ledger};
ghost use Rattle.ledger_model.specs.History.{History, id, journals};
ghost use Rattle.ledger_model.specs.Pegs.{Pegged};
ghost use Rattle.ledger_model.specs.Scheme.{Scheme};
ghost use Rattle.ledger_model.specs.Took.{TookAll};
ghost use Rattle.ledger_model.specs.declared.genesis.Genesis.{Genesis};
ghost use Rattle.dump_model.specs.Dumps.{IsDump, dump_text};
ghost use Rattle.dump_model.specs.Shown.{ledger_dump};
ghost use Rattle.ledger_io.specs.Outside.{SourceState};
ghost use Rattle.audit_dump.specs.Audits.{TellsReport};
ghost use Rattle.audit_dump.specs.declared.report.Report.{Report as ReportTold};
ghost use Rattle.audit_dump.specs.Approvals.{IsPlacedBy};
ghost use Rattle.audit_dump.specs.Contents.{IsKeptWhole};
ghost use Rattle.audit_dump.specs.Ending.{Late};
ghost use Rattle.audit_dump.specs.Ending.Late.{of_id, of_erasures, of_ledger, of_notary, of_purge, of_times};
ghost use Rattle.audit_dump.specs.Known.{journals_of};
ghost use Rattle.audit_dump.specs.Placed.{shown_whole};
ghost use Rattle.audit_dump.specs.Reading.{AreGood};
ghost use Rattle.audit_dump.specs.Reports.{Report};
ghost use Rattle.honest_dump.specs.Runs.{honest_given, Run, IsHonestReport, IsHonestReportOfBytes, IsOfRuns, PassesHonestly, left_of};

/// A new ledger has a ledger's history, and what is left of a run on one is one too.
pub fn ledgers_have_histories_of_runs()
    ensures new { (scheme : Scheme) (genesis : Genesis) → HasKeys genesis
        → IsOfRuns scheme (new_ledger genesis) }
    ensures more { (scheme : Scheme) (h : History) (run : Run) → IsOfRuns scheme h → 0 < run.left
        → TookAll scheme h run.old_notary run.windows run.new_notary
        → IsOfRuns scheme (left_of scheme h run) }
{}

/// The dump of a ledger's history and of a notary's list with which it is pegged can be written and read: its parts keep their
/// rules, its numbers fit their fields, and its digests have 32 bytes.
pub fn dumps_of_runs_are_dumps()
    ensures { (scheme : Scheme) (h : History) (entries : List (List ℕ)) → IsOfRuns scheme h
        → Pegged h entries → IsDump (ledger_dump h entries) }
{}

/// The dump of a ledger's history has the ledger's id, and it is that of the journals which the dump shows.
pub fn dumps_have_their_id()
    ensures { (scheme : Scheme) (h : History) (entries : List (List ℕ)) → IsOfRuns scheme h
        → PassesHonestly h entries of_id }
{}

/// In the dump of a ledger's history a content is missing exactly where a journal of the dump hides it.
pub fn dumps_miss_what_is_hidden()
    ensures { (scheme : Scheme) (h : History) (entries : List (List ℕ)) → IsOfRuns scheme h
        → PassesHonestly h entries of_erasures }
{}

/// The dump of a ledger's history has the ledger's head: the peaks of its base and the journals behind give the root over all.
pub fn dumps_have_the_ledgers_head()
    ensures { (scheme : Scheme) (h : History) (entries : List (List ℕ)) → IsOfRuns scheme h
        → PassesHonestly h entries of_ledger }
{}

/// The dump of a ledger's history, with a notary's list with which it is pegged, has the notary's head, and the times never fall.
pub fn dumps_have_the_notarys_list()
    ensures { (scheme : Scheme) (h : History) (entries : List (List ℕ)) → IsOfRuns scheme h
        → Pegged h entries → PassesHonestly h entries of_notary }
{}

/// The journals in the dump of a ledger's history are each the next one behind the dump's base and those before. Contents that were
/// erased make no difference.
pub fn shown_journals_are_next()
    ensures { (scheme : Scheme) (h : History) (entries : List (List ℕ)) → IsOfRuns scheme h
        → AreBehind (ledger_dump h entries).base [] (journals_of (ledger_dump h entries).items) }
{}

/// The journals in the dump of a ledger's history have the contents, where they weren't erased, and the whos that their headers name.
pub fn shown_journals_are_whole()
    ensures { (scheme : Scheme) (h : History) (entries : List (List ℕ)) → IsOfRuns scheme h
        → All IsKeptWhole (ledger_dump h entries).items }
{}

/// The time journals in the dump of a ledger's history, with a notary's list with which it is pegged, are the notary's entries.
pub fn dumps_have_their_times()
    ensures { (scheme : Scheme) (h : History) (entries : List (List ℕ)) → IsOfRuns scheme h
        → Pegged h entries → PassesHonestly h entries of_times }
{}

/// Each journal of a ledger's history was placed by those who had to, as an auditor sees it who has the journals in front of it, from
/// journal 0 on.
pub fn journals_of_runs_are_placed()
    ensures { (scheme : Scheme) (h : History) (front : List Entry) (journal : Entry) (more : List Entry)
        → IsOfRuns scheme h → journals h ≡ front ++ journal ∷ more
        → IsPlacedBy scheme (id h) None front (shown_whole journal) journal.header.kind }
{}

/// Each journal in the dump of a ledger's history was placed by those who had to, as it is seen by who has the dump alone: the base,
/// and the journals of the dump in front of it.
pub fn shown_journals_are_placed()
    ensures { (scheme : Scheme) (h : History) (entries : List (List ℕ)) (front : List Item) (item : Item)
        (more : List Item) → IsOfRuns scheme h → (ledger_dump h entries).items ≡ front ++ item ∷ more
        → IsPlacedBy scheme (id h) (ledger_dump h entries).base (journals_of front) item item.header.kind }
{}

/// Each purge of a ledger's history links the digest of the base at its point, as the whole history tells that base.
pub fn purges_of_runs_link_their_bases()
    ensures { (scheme : Scheme) (h : History) (front : List Entry) (journal : Entry) (more : List Entry)
        → IsOfRuns scheme h → journals h ≡ front ++ journal ∷ more → journal.header.kind ≡ kind.Purge
        → journal.header.link.0 ≡ digest_of_base (base_of h journal.header.a) }
{}

/// Where the dump of a ledger's history has a base, the purge that made it is among the dump's journals.
pub fn dumps_have_the_purge_of_their_base()
    ensures { (scheme : Scheme) (h : History) (entries : List (List ℕ)) → IsOfRuns scheme h
        → PassesHonestly h entries of_purge }
{}

/// The dump of a ledger's history, with a notary's list with which it is pegged, has no fault, where the auditor is given the ledger's
/// id and both heads. That a history is pegged is what runs leave it as (`a_run_keeps_its_pegs`).
///
/// It says nothing of who held the keys, nor of a ledger whose history is not of such runs.
pub fn dumps_of_runs_have_no_fault()
    // Each journal passes its checks as it is read.
    ensures journals { (scheme : Scheme) (h : History) (entries : List (List ℕ)) → IsOfRuns scheme h
        → AreGood scheme (id h) (ledger_dump h entries).base [] (ledger_dump h entries).items }
    // All checks at the end are passed.
    ensures checks { (scheme : Scheme) (h : History) (entries : List (List ℕ)) → IsOfRuns scheme h
        → Pegged h entries → (check : Late) → PassesHonestly h entries check }
    // So there is a report, and none has a fault.
    ensures report { (scheme : Scheme) (h : History) (entries : List (List ℕ)) → IsOfRuns scheme h
        → Pegged h entries → (report : Report) × IsHonestReport scheme h entries report }
    ensures no_fault { (scheme : Scheme) (h : History) (entries : List (List ℕ)) (report : Report)
        → IsOfRuns scheme h → Pegged h entries → IsHonestReport scheme h entries report
        → report.fault ≡ None }
{}

/// The bytes of such a dump have a report, under the same id and heads, and none that they have has a fault.
pub fn bytes_of_runs_have_no_fault()
    ensures report { (scheme : Scheme) (h : History) (entries : List (List ℕ)) → IsOfRuns scheme h
        → Pegged h entries → (report : Report) × IsHonestReportOfBytes scheme h entries report }
    ensures no_fault { (scheme : Scheme) (h : History) (entries : List (List ℕ)) (report : Report)
        → IsOfRuns scheme h → Pegged h entries → IsHonestReportOfBytes scheme h entries report
        → report.fault ≡ None }
{}

/// An audit of the bytes of that dump, where the auditor is given the ledger's id and both heads, has no fault.
pub fn audits_of_runs_have_no_fault()
    ensures { (scheme : Scheme) (h : History) (entries : List (List ℕ)) (before after : SourceState)
        (report : ReportTold) → IsOfRuns scheme h → Pegged h entries
        → before.left ≡ Some (dump_text (ledger_dump h entries))
        → TellsReport scheme (honest_given h entries) before after report → report.fault ≡ None }
{}
