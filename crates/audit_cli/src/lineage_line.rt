//! The line that tells the answer to a lineage.

ghost use Rattle.std.specs.Prelude.{◌≡◌, ◌++◌, IfOk, OnOk, Ok, Err};
ghost use Rattle.script_lines.specs.Words.{spaced_words};
ghost use Rattle.audit_cli.specs.Lineages.{lineage_line, lineage_no_words};

use clue_lineage::{LineageNo, Run};
use ledger_bytes::{Bytes, NoMemory};
use script_lines::{Word, put_words};
use std::alloc::Global;

/// The line that tells an answer, with its newline: `yes FIRST LAST COUNT`, or `no CODE` and the numbers of the refusal.
pub(crate) fn lineage_text(
    alloc: Global,
    answer: &Result<Run, LineageNo>,
) -> Result<Bytes, NoMemory>
    ensures { IfOk result (λ line. line ≡ lineage_line answer.now) }
{
    match answer {
        Ok(run) => yes_text(alloc, run),
        Err(why) => no_text(alloc, why),
    }
}

fn yes_text(alloc: Global, run: &Run) -> Result<Bytes, NoMemory>
    ensures { IfOk result (λ line. line ≡ lineage_line (Ok run.now)) }
{
    let mut line = Vec::from_slice(alloc, b"yes")?;
    put_words(
        &mut line,
        &[
            Word::Number(u64::from(run.first)),
            Word::Number(u64::from(run.last)),
            Word::Number(u64::from(run.count)),
        ],
    )?;
    line.push(b'\n')?;
    Ok(Bytes::of(line))
}

fn no_text(alloc: Global, why: &LineageNo) -> Result<Bytes, NoMemory>
    ensures { IfOk result (λ line. line ≡ lineage_line (Err why.now)) }
{
    let mut line = Vec::from_slice(alloc, b"no")?;
    put_why(&mut line, why)?;
    line.push(b'\n')?;
    Ok(Bytes::of(line))
}

// The code of a refusal, and the numbers behind it.
fn put_why(out: &mut Vec<u8>, why: &LineageNo) -> Result<(), NoMemory>
    ensures { OnOk result (out.new.items ≡ out.old.items ++ spaced_words (lineage_no_words why.now)) }
{
    match why {
        LineageNo::Malformed { at } => put_words(out, &[Word::Number(41), Word::Number(*at)]),
        LineageNo::HeadUnknown { size } => put_words(out, &[Word::Number(34), Word::Number(*size)]),
        LineageNo::LineageClue { at } => {
            put_words(out, &[Word::Number(54), Word::Number(u64::from(*at))])
        }
        LineageNo::LineageLink { at } => {
            put_words(out, &[Word::Number(55), Word::Number(u64::from(*at))])
        }
        LineageNo::LeafPath => put_words(out, &[Word::Number(35)]),
    }
}
