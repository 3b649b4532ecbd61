//! The full audit of a dump.

ghost use Rattle.std.specs.Prelude.{◌≡◌, ◌≢◌, ◌+◌, ◌≤◌, ◌^◌, [], List, length, true, Option, Some, None, IfOk, IfErr, IfSome, OnOk};
ghost use Rattle.std.specs.Int.{w64};
ghost use Rattle.ledger_bytes.specs.Fields.{number_at};
ghost use Rattle.ledger_bytes.specs.declared.digest.Digest.{Digest as DigestRecord};
ghost use Rattle.ledger_io.specs.Outside.{SourceState};
ghost use Rattle.ledger_io.specs.Windows.{Seen};
ghost use Rattle.ledger_io.specs.declared.failure.LineErr.TheVariants as line_err;
ghost use Rattle.journal_record.specs.Items.{Item, most_bytes};
ghost use Rattle.pseudo_genesis.specs.Bases.{IsBase, HasWidths};
ghost use Rattle.pseudo_genesis.specs.declared.base.Base.{Base as BaseRecord};
ghost use Rattle.ledger_model.specs.Behind as behind;
ghost use Rattle.audit_dump.specs.Audits.{IsAuditErr, IsLastFaultAt, Reports, TellsOf, TellsReport};
ghost use Rattle.audit_dump.specs.Breaks.{front_at, place_within};
ghost use Rattle.audit_dump.specs.Bytes.{IsBroken, IsReportBehind, IsReportOfCount, IsReportOfFront};
ghost use Rattle.audit_dump.specs.Fronts.{front_of};
ghost use Rattle.audit_dump.specs.Journals.{AreKept};
ghost use Rattle.audit_dump.specs.Tails.{HasFailed};
ghost use Rattle.audit_dump.specs.Told.{report_of};

use crate::ending::read_tail;
use crate::front::{Front, read_count, read_front};
use crate::journals::Journals;
use crate::late::{Given, first_fault};
use crate::reading::{Outcome, read_journals};
use crate::report::{Check, Fault, Report};
use crate::walking::Break;
use ledger_bytes::Digest;
use ledger_io::{LineErr, Source, Window};
use member_book::Verifier;
use merkle_tree::Head;
use std::alloc::Global;
use std::thread::Threads;

/// Why there is no report of a dump.
#[derive(Clone, Copy, Debug, PartialEq, Eq)]
pub enum AuditErr {
    /// A read failed.
    ReadFault,
    /// 2^40 bytes were read, and more were wanted.
    TooLong,
    /// Memory was wanted.
    NoMemory,
}

/// Audits the dump that a source gives, against the id of a ledger and the heads of it and of its notary.
///
/// The source is read once, up to the first fault of the dump's form or of a journal, and else to its end. Each journal is
/// checked as it is read, so memory grows with the number of journals, clues and members, and not with their contents: of a
/// journal its header, its leaf and its marks are kept. Each journal's header, content and who are hashed once, and each
/// entry of the notary once. An error is told where no fault was found before.
pub fn audit<R: Threads + Sync, S: Source, V: Verifier>(
    rt: &R,
    alloc: Global,
    source: &mut S,
    id: &Digest,
    ledger: &Head,
    notary: &Head,
    verifier: &V,
) -> Result<Report, AuditErr>
    ensures report { IfOk result (TellsReport (V.shows verifier.now)
        (record { id = id.now; ledger = ledger.now; notary = notary.now })
        (S.state source.old) (S.state source.new)) }
    ensures counts { OnOk result ((S.state source.new).faults ≡ (S.state source.old).faults) }
    ensures errors { IfErr result (IsAuditErr (S.state source.old) (S.state source.new)) }
{
    let given = Given {
        id: *id,
        ledger: *ledger,
        notary: *notary,
    };
    let mut window = Window::new(alloc);
    match report_dump(rt, alloc, &mut window, source, &given, verifier) {
        Ok(report) => Ok(report),
        Err(e) => Err(told(e)),
    }
}

// The report of what is still to be read, a dump.
fn report_dump<R: Threads + Sync, S: Source, V: Verifier>(
    rt: &R,
    alloc: Global,
    window: &mut Window,
    source: &mut S,
    given: &Given,
    verifier: &V,
) -> Result<Report, LineErr>
    requires within { length window.old.held ≤ window.old.total }
    ensures report { IfOk result (λ report. Reports (λ l. IsReportOfFront (V.shows verifier.now)
        given.now (front_at l) (report_of report)) (S.state source.old) (S.state source.new)
        window.old window.new report) }
    ensures counts { OnOk result ((S.state source.new).faults ≡ (S.state source.old).faults) }
    ensures errors { IfErr result (HasFailed most_bytes (S.state source.old) (S.state source.new)
        window.old window.new) }
{
    match read_front(window, source, alloc)? {
        Ok(front) => report_behind(rt, alloc, window, source, given, verifier, &front),
        Err(broken) => Ok(without_journals(0, &broken)),
    }
}

// The report of what is still to be read behind a front: the number of the journals, they, and what stands behind them.
fn report_behind<R: Threads + Sync, S: Source, V: Verifier>(
    rt: &R,
    alloc: Global,
    window: &mut Window,
    source: &mut S,
    given: &Given,
    verifier: &V,
    front: &Front,
) -> Result<Report, LineErr>
    requires within { length window.old.held ≤ window.old.total }
    requires fits { IfSome front.now.base (λ base. IsBase base × HasWidths base) }
    ensures report { IfOk result (λ report. Reports (λ l. IsReportOfCount (V.shows verifier.now)
        given.now (front_of front.now) (number_at w64 l) (report_of report))
        (S.state source.old) (S.state source.new) window.old window.new report) }
    ensures counts { OnOk result ((S.state source.new).faults ≡ (S.state source.old).faults) }
    ensures errors { IfErr result (HasFailed most_bytes (S.state source.old) (S.state source.new)
        window.old window.new) }
{
    match read_count(window, source)? {
        Ok(count) => report_journals(rt, alloc, window, source, given, verifier, front, count),
        Err(broken) => Ok(without_journals(first_of(front), &broken)),
    }
}

// The report of what is still to be read: so many journals, and what stands behind them.
fn report_journals<R: Threads + Sync, S: Source, V: Verifier>(
    rt: &R,
    alloc: Global,
    window: &mut Window,
    source: &mut S,
    given: &Given,
    verifier: &V,
    front: &Front,
    count: u64,
) -> Result<Report, LineErr>
    requires within { length window.old.held ≤ window.old.total }
    requires fits { IfSome front.now.base (λ base. IsBase base × HasWidths base) }
    ensures report { IfOk result (λ report. Reports (λ l. IsReportBehind (V.shows verifier.now)
        given.now (front_of front.now) count l (report_of report))
        (S.state source.old) (S.state source.new) window.old window.new report) }
    ensures counts { OnOk result ((S.state source.new).faults ≡ (S.state source.old).faults) }
    ensures errors { IfErr result (HasFailed most_bytes (S.state source.old) (S.state source.new)
        window.old window.new) }
{
    let mut journals = Journals::behind(alloc, front)?;
    report_by(
        rt,
        alloc,
        window,
        source,
        given,
        verifier,
        front,
        count,
        &mut journals,
    )
}

// The same, where no journal was read so far.
fn report_by<R: Threads + Sync, S: Source, V: Verifier>(
    rt: &R,
    alloc: Global,
    window: &mut Window,
    source: &mut S,
    given: &Given,
    verifier: &V,
    front: &Front,
    count: u64,
    journals: &mut Journals,
) -> Result<Report, LineErr>
    requires within { length window.old.held ≤ window.old.total }
    requires kept { AreKept front.now.id front.now.base [] journals.old }
    ensures report { IfOk result (λ report. Reports (λ l. IsReportBehind (V.shows verifier.now)
        given.now (front_of front.now) count l (report_of report))
        (S.state source.old) (S.state source.new) window.old window.new report) }
    ensures counts { OnOk result ((S.state source.new).faults ≡ (S.state source.old).faults) }
    ensures errors { IfErr result (HasFailed most_bytes (S.state source.old) (S.state source.new)
        window.old window.new) }
{
    let outcome = read_journals(rt, alloc, window, source, verifier, front, count, journals)?;
    let counts = journals.counts();
    match outcome {
        Outcome::All => {
            let fault = last_fault(alloc, window, source, given, journals)?;
            Ok(Report { fault, ..counts })
        }
        Outcome::Broken(broken) => Ok(with_fault(&counts, Check::Form, broken.place)),
        Outcome::Failed(check) => Ok(with_fault(&counts, Check::Early(check), counts.size)),
    }
}

// The fault where all journals were read and passed: a break of what stands behind them, or the first check at the end that fails.
fn last_fault<S: Source>(
    alloc: Global,
    window: &mut Window,
    source: &mut S,
    given: &Given,
    journals: &mut Journals,
) -> Result<Option<Fault>, LineErr>
    requires within { length window.old.held ≤ window.old.total }
    requires few { journals.old.erasures.first + length journals.old.erasures.marks ≤ 2 ^ 32 }
    ensures told { IfOk result (λ fault. (id : DigestRecord) (start : Option BaseRecord)
        (items : List Item) → AreKept id start items journals.old → TellsOf
        (IsLastFaultAt given.now id start items fault)
        (S.state source.old) (S.state source.new) window.old window.new) }
    ensures ended { IfOk result (λ fault. fault ≡ None → window.new.ended ≡ true) }
    ensures counts { OnOk result ((S.state source.new).faults ≡ (S.state source.old).faults) }
    ensures errors { IfErr result (HasFailed most_bytes (S.state source.old) (S.state source.new)
        window.old window.new) }
{
    match read_tail(alloc, window, source, &mut journals.claims)? {
        Ok(ending) => Ok(first_fault(given, journals, &ending)),
        Err(broken) => Ok(Some(Fault {
            check: Check::Form,
            place: broken.place,
        })),
    }
}

// A report with this fault.
fn with_fault(counts: &Report, check: Check, place: u64) -> Report
    ensures { result ≡ record counts.now { fault = Some (record { check = check; place = place }) } }
{
    Report {
        fault: Some(Fault { check, place }),
        ..*counts
    }
}

// The report of a dump that breaks in front of its journals, of which the first would have this number.
fn without_journals(first: u64, broken: &Break) -> Report
    ensures { (start : Option BaseRecord) → first ≡ behind.first_of start
        → broken.now.place ≡ place_within broken.now.bad
        → IsBroken start broken.now.bad (report_of result) }
{
    let counts = Report {
        size: first,
        kept: 0,
        point: first,
        occulted: 0,
        times: 0,
        fault: None,
    };
    with_fault(&counts, Check::Form, broken.place)
}

// The number of the first journal behind a front.
fn first_of(front: &Front) -> u64
    ensures { result ≡ behind.first_of front.now.base }
{
    match &front.base {
        Some(base) => base.point,
        None => 0,
    }
}

// The error that the caller is told.
fn told(e: LineErr) -> AuditErr
    requires { e ≢ line_err.LineTooLong }
    ensures { (before after : SourceState) (old new : Seen) → old.total ≡ 0
        → HasFailed most_bytes before after old new e → IsAuditErr before after result }
{
    match e {
        LineErr::ReadFault => AuditErr::ReadFault,
        LineErr::ScriptTooLong => AuditErr::TooLong,
        LineErr::NoMemory => AuditErr::NoMemory,
        LineErr::LineTooLong => unreachable!(),
    }
}
