//! The full audit of a dump, whose report is written as one line.

ghost use Rattle.std.specs.Prelude.{◌≡◌, ◌≢◌, ◌⊎◌, IfErr, OnOk};
ghost use Rattle.ledger_bytes.specs.Causes.{count_after};
ghost use Rattle.ledger_io.specs.Outside.{outside, MeetsNone, MeetsOne};
ghost use Rattle.audit_dump.specs.Told.{report_of};
ghost use Rattle.audit_cli.specs.Dumps.{RanDump, SoundDump, TellsLine, WritesLine, ending_without};

use crate::report_line::report_text;
use audit_dump::{AuditErr, Report, audit};
use ledger_bytes::Digest;
use ledger_io::{Ending, Sink, Source, finish, write_all};
use member_book::Verifier;
use merkle_tree::Head;
use std::alloc::Global;
use std::thread::Threads;

/// Audits the dump that `source` gives, against the id of a ledger and the heads of it and of its notary, and writes the
/// report's line to `sink`. It answers the exit status.
pub(crate) fn run_dump<R: Threads + Sync, S: Source, K: Sink, V: Verifier>(
    rt: &R,
    alloc: Global,
    source: &mut S,
    sink: &mut K,
    id: &Digest,
    ledger: &Head,
    notary: &Head,
    verifier: &V,
) -> u8
    ensures ran { RanDump (V.shows verifier.now) id.now ledger.now notary.now result
        (outside (S.state source.old) (K.state sink.old))
        (outside (S.state source.new) (K.state sink.new)) }
    ensures started { result ≢ 1 }
    ensures sound { result ≡ 0 → SoundDump ledger.now notary.now
        (outside (S.state source.old) (K.state sink.old))
        (outside (S.state source.new) (K.state sink.new)) }
    ensures done { (result ≡ 0) ⊎ (result ≡ 10)
        → ((S.state source.new).faults ≡ (S.state source.old).faults)
        × MeetsNone (K.state sink.old) (K.state sink.new) }
    ensures read_fault { result ≡ 2
        → (S.state source.new).faults ≡ count_after (S.state source.old).faults }
    ensures write_fault { result ≡ 3 → MeetsOne (K.state sink.old) (K.state sink.new) }
{
    match audit(rt, alloc, source, id, ledger, notary, verifier) {
        Ok(report) => tell(alloc, sink, &report),
        Err(error) => finish(sink, ending_for(error)),
    }
}

// Writes a report's line, and answers the exit status.
fn tell<K: Sink>(alloc: Global, sink: &mut K, report: &Report) -> u8
    ensures { TellsLine (report_of report.now) result (K.state sink.old) (K.state sink.new) }
{
    match write_line(alloc, sink, report) {
        Ok(()) if report.fault.is_some() => 10,
        Ok(()) => 0,
        Err(ending) => finish(sink, ending),
    }
}

// Writes a report's line. An error is the ending that it brings.
fn write_line<K: Sink>(alloc: Global, sink: &mut K, report: &Report) -> Result<(), Ending>
    ensures done { OnOk result (WritesLine (report_of report.now) Ending.Done
        (K.state sink.old) (K.state sink.new)) }
    ensures ended { IfErr result (λ ending. WritesLine (report_of report.now) ending
        (K.state sink.old) (K.state sink.new)) }
    ensures stopped { IfErr result (λ ending. ending ≢ Ending.Done) }
{
    let line = report_text(alloc, report)?;
    write_all(sink, line.as_bytes())?;
    Ok(())
}

// The ending that an error brings, in place of a report.
fn ending_for(error: AuditErr) -> Ending
    ensures { result ≡ ending_without error }
{
    match error {
        AuditErr::ReadFault => Ending::ReadFault,
        AuditErr::TooLong => Ending::ScriptTooLong,
        AuditErr::NoMemory => Ending::NoMemory,
    }
}
