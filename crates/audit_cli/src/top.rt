//! The auditor's program, from the words of the command line and an audit script or a dump to what is written and the exit
//! status.

ghost use Rattle.std.specs.Prelude.{◌≡◌, ◌≢◌, ◌⊎◌, None, map, string_bytes};
ghost use Rattle.sha2.specs.Sha256.{sha256};
ghost use Rattle.ledger_bytes.specs.Causes.{count_after};
ghost use Rattle.ledger_io.specs.Outside.{outside, MeetsNone, MeetsOne};
ghost use Rattle.audit_cli.specs.Runs.{RanProgram, RanScript, SoundCommand};
ghost use Rattle.audit_cli.specs.Sound.{SoundRun};
ghost use Rattle.audit_cli.specs.Words.{command_of};

use crate::checking::run_lineage;
use crate::dumping::run_dump;
use crate::session::run_script;
use crate::words::Command;
use ledger_bytes::{NoMemory, Sha, TreeHash};
use ledger_io::{Ending, Sink, Source, finish};
use member_book::Verifier;
use std::alloc::Global;
use std::thread::Threads;

/// The program: runs the command that the words after the program's name make. `script` answers the audit script that
/// `source` gives, and writes the replies to `sink`. `dump ID SIZE ROOT NSIZE NROOT` audits the dump that `source` gives
/// against a ledger's id and the heads of the ledger and its notary, and writes the report's line. `lineage NAME SIZE ROOT`
/// checks the lineage of the clue of that name that `source` gives under a head, and writes one line. It answers the exit
/// status:
///
/// | Status | Comes | Last line |
/// |---|---|---|
/// | 0 | the input was read to its end, and every line has its reply; or the report has no fault, or the lineage is accepted | none |
/// | 1 | exactly where the words are of no form, unless memory was wanted to read them | `fail 1 usage` |
/// | 2 | only where the source failed | `fail 2 read` |
/// | 3 | only where the sink failed, or took nothing of a piece that wasn't empty | none |
/// | 6 | want of memory | `fail 6 memory` |
/// | 7 | a line, a lineage or the script is too long; or as many bytes of a dump were read as may be, and more were wanted | `fail 7 line`, `fail 7 script` |
/// | 10 | the report of a dump has a fault, or the lineage isn't accepted | none |
///
/// Of several, the first that happens is the status: a run that is done met no fault, and one that ends with a fault of
/// reading or writing met that one. Lines that ended before a fault of reading are answered first.
/// The last line is written by one attempt; a fault there doesn't change the status. No line of a script holds a member's
/// approval, so that the verifier is asked only of a dump.
pub fn audit_top<R: Threads + Sync, S: Source, K: Sink, V: Verifier>(
    rt: &R,
    alloc: Global,
    words: &[String],
    source: &mut S,
    sink: &mut K,
    verifier: &V,
) -> u8
    ensures ran { RanProgram sha256 (V.shows verifier.now) (command_of (map string_bytes words.now))
        result
        (outside (S.state source.old) (K.state sink.old))
        (outside (S.state source.new) (K.state sink.new)) }
    ensures usage { result ≡ 1 → command_of (map string_bytes words.now) ≡ None }
    ensures refused { command_of (map string_bytes words.now) ≡ None
        → (result ≡ 1) ⊎ (result ≡ 6) }
    // A script that was read to its end has a text of which all that it says is so, a dump without a fault is true, and a lineage
    // with a yes is accepted.
    ensures sound { result ≡ 0 → SoundCommand sha256 (command_of (map string_bytes words.now))
        (outside (S.state source.old) (K.state sink.old))
        (outside (S.state source.new) (K.state sink.new)) }
    ensures done { (result ≡ 0) ⊎ (result ≡ 10)
        → ((S.state source.new).faults ≡ (S.state source.old).faults)
        × MeetsNone (K.state sink.old) (K.state sink.new) }
    ensures read_fault { result ≡ 2
        → (S.state source.new).faults ≡ count_after (S.state source.old).faults }
    ensures write_fault { result ≡ 3 → MeetsOne (K.state sink.old) (K.state sink.new) }
{
    match Command::read(alloc, words) {
        Ok(Some(Command::Script)) => audit_run::<Sha, S, K, V>(alloc, source, sink, verifier),
        Ok(Some(Command::Dump { id, ledger, notary })) => {
            run_dump(rt, alloc, source, sink, &id, &ledger, &notary, verifier)
        }
        Ok(Some(Command::Lineage { clue, head })) => {
            run_lineage(alloc, source, sink, &clue, &head)
        }
        Ok(None) => finish(sink, Ending::Usage),
        Err(NoMemory) => finish(sink, Ending::NoMemory),
    }
}

/// Answers the audit script that `source` gives, under this hash. The status is one of those above but 1 and 10.
pub fn audit_run<H: TreeHash, S: Source, K: Sink, V: Verifier>(
    alloc: Global,
    source: &mut S,
    sink: &mut K,
    _verifier: &V,
) -> u8
    ensures ran { RanScript H.of result
        (outside (S.state source.old) (K.state sink.old))
        (outside (S.state source.new) (K.state sink.new)) }
    ensures started { result ≢ 1 }
    // A script that was read to its end has a text of which all that it says is so.
    ensures sound { result ≡ 0 → SoundRun H.of
        (outside (S.state source.old) (K.state sink.old))
        (outside (S.state source.new) (K.state sink.new)) }
    ensures done { (result ≡ 0) ⊎ (result ≡ 10)
        → ((S.state source.new).faults ≡ (S.state source.old).faults)
        × MeetsNone (K.state sink.old) (K.state sink.new) }
    ensures read_fault { result ≡ 2
        → (S.state source.new).faults ≡ count_after (S.state source.old).faults }
    ensures write_fault { result ≡ 3 → MeetsOne (K.state sink.old) (K.state sink.new) }
{
    let ending = run_script::<H, S, K>(alloc, source, sink);
    finish(sink, ending)
}
