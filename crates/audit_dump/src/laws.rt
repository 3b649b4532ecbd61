//! What a report of a dump promises, and that nothing which a ledger does is a fault of its dump.

ghost use Rattle.std.specs.Prelude.{◌≡◌, ◌<◌, ◌≤◌, ℕ, List, [], length, drop, All, Option, Some, None};
ghost use Rattle.sha2.specs.Sha256.{sha256};
ghost use Rattle.ledger_bytes.specs.declared.digest.Digest.{Digest};
ghost use Rattle.ledger_bytes.specs.declared.limits.TheConstants.{PROOF_LIMIT};
ghost use Rattle.journal_record.specs.Items.{Item};
ghost use Rattle.journal_record.specs.declared.header.Kind.TheVariants as kind;
ghost use Rattle.pseudo_genesis.specs.declared.base.Base.{Base};
ghost use Rattle.script_lines.specs.declared.said.SaidApproval.{SaidApproval};
ghost use Rattle.tree_model.specs.Tree.{mth};
ghost use Rattle.tree_model.specs.TreeClash.{ShowsOr};
ghost use Rattle.ledger_model.specs.Appends.{append_with, member_job, occult_job, clue_occult_job, purge_job};
ghost use Rattle.ledger_model.specs.Bases.{base_of};
ghost use Rattle.ledger_model.specs.Behind.{AreBehind};
ghost use Rattle.ledger_model.specs.History.{History, journals, greatest_point, id};
ghost use Rattle.ledger_model.specs.Judgements.{own_refusal};
ghost use Rattle.ledger_model.specs.Lawful.{AreLawful};
ghost use Rattle.ledger_model.specs.Scheme.{Scheme};
ghost use Rattle.ledger_model.specs.declared.limits.Limits.{Limits};
ghost use Rattle.dump_model.specs.Dumps.{Dump, IsDump, dump_text};
ghost use Rattle.dump_model.specs.Truth.{IsTrueDump, dump_clash};
ghost use Rattle.ledger_bytes.specs.Fields.{IsBytes};
ghost use Rattle.ledger_io.specs.Outside.{SourceState};
ghost use Rattle.audit_dump.specs.Bytes.{IsReportOf};
ghost use Rattle.audit_dump.specs.Approvals.{IsPlacedBy};
ghost use Rattle.audit_dump.specs.Audits.{TellsReport};
ghost use Rattle.audit_dump.specs.Ending.{Given};
ghost use Rattle.audit_dump.specs.Known.{journals_of};
ghost use Rattle.audit_dump.specs.Placed.{shown_whole, record_placed, member_placed, occult_placed, clue_occult_placed, purge_placed};
ghost use Rattle.audit_dump.specs.Reading.{AreGood};
ghost use Rattle.audit_dump.specs.Reports.{Report, IsReport};
ghost use Rattle.audit_dump.specs.Told.{report_of};
ghost use Rattle.audit_dump.specs.declared.report.Report.{Report as ReportTold};

/// Journals of a dump that pass as they are read are each the next one behind the base and those before. That is the rule by which
/// the journals of a ledger's file are judged when it is opened; erased contents make no difference.
pub fn journals_that_pass_are_next()
    ensures { (scheme : Scheme) (id : List ℕ) (start : Option Base) (items : List Item)
        → AreGood scheme id start [] items → AreBehind start [] (journals_of items) }
{}

/// The journals that a ledger keeps are each the next one for who has only those, and the base at the point where journals were
/// given up. So the first check of a journal refuses none of them.
pub fn kept_journals_are_next()
    // where no base stands in front
    ensures whole { (h : History) → AreLawful (journals h) → AreBehind None [] (journals h) }
    // behind the base at the point
    ensures behind { (h : History) → AreLawful (journals h) → 0 < greatest_point (journals h)
        → AreBehind (Some (base_of h (greatest_point (journals h)))) []
        (drop (greatest_point (journals h)) (journals h)) }
{}

/// What a ledger accepts was placed by those who had to, as an auditor looks at it: the job's journal passes that check behind the
/// journals that the ledger has, where no proof is longer than a line may give.
///
/// Time journals and journal 0 need nobody, so nothing is to be said of them. It isn't said here that the journals of a whole ledger
/// pass one after the other.
pub fn accepted_jobs_are_placed()
    ensures records { (scheme : Scheme) (limits : Limits) (h : History) (member : ℕ) (clue : Digest)
        (content proof : List ℕ) (number : ℕ) → length proof ≤ PROOF_LIMIT
        → own_refusal limits h (append_with scheme (id h) member clue content proof number) ≡ None
        → IsPlacedBy scheme (id h) None (journals h)
        (shown_whole (record_placed scheme h member clue content proof number)) kind.Content }
    ensures members { (scheme : Scheme) (limits : Limits) (h : History) (number : ℕ) (key : Digest)
        (proof : List ℕ) → length proof ≤ PROOF_LIMIT
        → own_refusal limits h (member_job scheme (id h) number key proof) ≡ None
        → IsPlacedBy scheme (id h) None (journals h)
        (shown_whole (member_placed scheme h number key proof)) kind.Member }
    ensures occults { (scheme : Scheme) (limits : Limits) (h : History) (target : ℕ) (leaf : Digest)
        (given : List SaidApproval) → All (λ by. length by.proof ≤ PROOF_LIMIT) given
        → own_refusal limits h (occult_job scheme (id h) target leaf given) ≡ None
        → IsPlacedBy scheme (id h) None (journals h)
        (shown_whole (occult_placed scheme h target leaf given)) kind.Occult }
    ensures clue_occults { (scheme : Scheme) (limits : Limits) (h : History) (name : List ℕ)
        (count : ℕ) (given : List SaidApproval)
        → All (λ by. length by.proof ≤ PROOF_LIMIT) given
        → own_refusal limits h (clue_occult_job scheme (id h) name count given) ≡ None
        → IsPlacedBy scheme (id h) None (journals h)
        (shown_whole (clue_occult_placed scheme h name count given)) kind.ClueOccult }
    ensures purges { (scheme : Scheme) (limits : Limits) (h : History) (p : ℕ) (told : Digest)
        (given : List SaidApproval) → All (λ by. length by.proof ≤ PROOF_LIMIT) given
        → own_refusal limits h (purge_job scheme (id h) p told given) ≡ None
        → IsPlacedBy scheme (id h) None (journals h)
        (shown_whole (purge_placed scheme h p told given)) kind.Purge }
{}

/// There is one report at most: two that are told of a dump, or of any bytes, under the same id and the same heads are the same, in
/// the fault, its place and every count.
pub fn a_dump_has_one_report()
    ensures dump { (scheme : Scheme) (given : Given) (dump : Dump) (report other : Report)
        → IsReport scheme given dump report → IsReport scheme given dump other → report ≡ other }
    ensures bytes { (scheme : Scheme) (given : Given) (bytes : List ℕ) (report other : Report)
        → IsReportOf scheme given bytes report → IsReportOf scheme given bytes other
        → report ≡ other }
{}

/// What is told of a dump's bytes, as they are read from left to right, is what is told of the dump, and nothing else. So they break
/// nowhere.
pub fn the_bytes_of_a_dump_have_its_report()
    ensures told { (scheme : Scheme) (given : Given) (dump : Dump) (report : Report) → IsDump dump
        → IsReport scheme given dump report → IsReportOf scheme given (dump_text dump) report }
    ensures only { (scheme : Scheme) (given : Given) (dump : Dump) (report : Report) → IsDump dump
        → IsReportOf scheme given (dump_text dump) report → IsReport scheme given dump report }
{}

/// What an audit tells of a source whose bytes are told is the report of all of them, also where it read none behind a fault.
pub fn an_audit_reports_its_input()
    ensures { (scheme : Scheme) (given : Given) (input : List ℕ) (before after : SourceState)
        (report : ReportTold) → before.left ≡ Some input
        → TellsReport scheme given before after report
        → IsReportOf scheme given input (report_of report) }
{}

/// Where a report has no fault, the dump is true of every ledger and every notary's list with the given heads; or a named function
/// finds two different strings with one digest, those of the first place where it differs from them.
///
/// It says nothing of a ledger with another head. Who placed what stands in front of the base is known only by the keys that the
/// base keeps.
pub fn an_audit_without_a_fault_is_true()
    ensures dump { (scheme : Scheme) (given : Given) (dump : Dump) (report : Report)
        (headers entries : List (List ℕ))
        → IsDump dump → IsReport scheme given dump report → report.fault ≡ None
        → length headers ≡ given.ledger.size → mth sha256 headers ≡ given.ledger.root.0
        → length entries ≡ given.notary.size → mth sha256 entries ≡ given.notary.root.0
        → ShowsOr sha256 (IsTrueDump sha256 headers entries dump)
        (dump_clash sha256 headers entries dump) }
    // Of bytes it says besides that they are those of a dump, each of them.
    ensures bytes { (scheme : Scheme) (given : Given) (bytes : List ℕ) (report : Report)
        → IsBytes bytes → IsReportOf scheme given bytes report → report.fault ≡ None
        → (dump : Dump) × IsDump dump × (bytes ≡ dump_text dump) × IsReport scheme given dump report
        × ((headers entries : List (List ℕ))
        → length headers ≡ given.ledger.size → mth sha256 headers ≡ given.ledger.root.0
        → length entries ≡ given.notary.size → mth sha256 entries ≡ given.notary.root.0
        → ShowsOr sha256 (IsTrueDump sha256 headers entries dump)
        (dump_clash sha256 headers entries dump)) }
{}
