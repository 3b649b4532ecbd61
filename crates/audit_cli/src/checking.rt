//! The check of a lineage under a head, whose answer is written as one line.

ghost use Rattle.std.specs.Prelude.{◌≡◌, ◌≢◌, ◌⊎◌, IfOk, IfErr, OnOk};
ghost use Rattle.ledger_bytes.specs.Causes.{count_after};
ghost use Rattle.ledger_io.specs.Outside.{outside, MeetsNone, MeetsOne};
ghost use Rattle.audit_cli.specs.Lineages.{RanLineage, SoundLineage, IsAnswer, IsUnread, TellsAnswer, WritesAnswer, ending_unread};

use crate::lineage_line::lineage_text;
use clue_lineage::{LineageNo, Run, accept_lineage};
use ledger_bytes::{Digest, Sha};
use ledger_io::{Ending, LineErr, Sink, Source, Window, finish, write_all};
use merkle_tree::Head;
use std::alloc::Global;

/// The most bytes that an input with a lineage may have.
const LINEAGE_LIMIT: usize = 2_097_152;

/// Checks the lineage of a clue that `source` gives, under a head of the ledger, and writes the answer's line to `sink`. It
/// answers the exit status.
pub(crate) fn run_lineage<S: Source, K: Sink>(
    alloc: Global,
    source: &mut S,
    sink: &mut K,
    clue: &Digest,
    head: &Head,
) -> u8
    ensures ran { RanLineage clue.now head.now result
        (outside (S.state source.old) (K.state sink.old))
        (outside (S.state source.new) (K.state sink.new)) }
    ensures started { result ≢ 1 }
    ensures sound { result ≡ 0 → SoundLineage clue.now head.now
        (outside (S.state source.old) (K.state sink.old))
        (outside (S.state source.new) (K.state sink.new)) }
    ensures done { (result ≡ 0) ⊎ (result ≡ 10)
        → ((S.state source.new).faults ≡ (S.state source.old).faults)
        × MeetsNone (K.state sink.old) (K.state sink.new) }
    ensures read_fault { result ≡ 2
        → (S.state source.new).faults ≡ count_after (S.state source.old).faults }
    ensures write_fault { result ≡ 3 → MeetsOne (K.state sink.old) (K.state sink.new) }
{
    match read_answer(alloc, source, clue, head) {
        Ok(answer) => tell(alloc, sink, &answer),
        Err(ending) => finish(sink, ending),
    }
}

// The answer to the whole input. An error is the ending that it brings.
fn read_answer<S: Source>(
    alloc: Global,
    source: &mut S,
    clue: &Digest,
    head: &Head,
) -> Result<Result<Run, LineageNo>, Ending>
    ensures answer { IfOk result (IsAnswer clue.now head.now (S.state source.old) (S.state source.new)) }
    ensures ended { IfErr result (IsUnread (S.state source.old) (S.state source.new)) }
{
    let mut window = Window::new(alloc);
    if let Err(error) = window.fill(source, LINEAGE_LIMIT + 1) {
        return Err(ending_for(error));
    }
    let bytes = window.as_slice();
    if bytes.len() > LINEAGE_LIMIT {
        return Err(Ending::LineTooLong);
    }
    Ok(accept_lineage::<Sha>(bytes, clue, head))
}

// The ending that an error of reading brings.
fn ending_for(error: LineErr) -> Ending
    ensures { result ≡ ending_unread error }
{
    match error {
        LineErr::ReadFault => Ending::ReadFault,
        LineErr::LineTooLong | LineErr::ScriptTooLong => Ending::LineTooLong,
        LineErr::NoMemory => Ending::NoMemory,
    }
}

// Writes an answer's line, and answers the exit status.
fn tell<K: Sink>(alloc: Global, sink: &mut K, answer: &Result<Run, LineageNo>) -> u8
    ensures { TellsAnswer answer.now result (K.state sink.old) (K.state sink.new) }
{
    match write_answer(alloc, sink, answer) {
        Ok(()) if answer.is_err() => 10,
        Ok(()) => 0,
        Err(ending) => finish(sink, ending),
    }
}

// Writes an answer's line. An error is the ending that it brings.
fn write_answer<K: Sink>(
    alloc: Global,
    sink: &mut K,
    answer: &Result<Run, LineageNo>,
) -> Result<(), Ending>
    ensures done { OnOk result (WritesAnswer answer.now Ending.Done (K.state sink.old) (K.state sink.new)) }
    ensures ended { IfErr result (λ ending. WritesAnswer answer.now ending
        (K.state sink.old) (K.state sink.new)) }
    ensures stopped { IfErr result (λ ending. ending ≢ Ending.Done) }
{
    let line = lineage_text(alloc, answer)?;
    write_all(sink, line.as_slice())?;
    Ok(())
}
