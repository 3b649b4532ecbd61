//! From a line to its job, with all digests that the line alone defines and the key that its proof shows.

ghost use Rattle.std.specs.Prelude.{◌≡◌, true, Ok, IfOk};
ghost use Rattle.script_lines.specs.Grammar.{spoken_line};
ghost use Rattle.script_lines.specs.Limits.{fits_line};
ghost use Rattle.ledger_model.specs.Fitting.{fits_job};
ghost use Rattle.ledger_model.specs.Rules.{job_for, job_of};

use crate::front::Front;
use crate::requests::{clue_occult_job, member_job, occult_job, purge_job, record_job};
use journal_record::clue_digest;
use ledger_book::{Job, Prepared, Query};
use ledger_bytes::{Digest, NoMemory};
use member_book::Verifier;
use script_lines::{Line, Spoken, read_line};
use std::alloc::Global;

/// What a line asks for on the ledger with this id, with all digests that the line alone defines, and with the key that
/// its proof shows to the verifier.
pub fn prepare<V: Verifier>(
    alloc: Global,
    verifier: &V,
    id: &Digest,
    index: u64,
    line: &[u8],
) -> Result<Prepared, NoMemory>
    ensures lane { IfOk result (λ item. item.lane ≡ (spoken_line line.now).0) }
    ensures index { IfOk result (λ item. item.index ≡ index) }
    ensures job { IfOk result (λ item. item.job ≡ job_of (V.shows verifier.now) id.now.0 line.now) }
{
    let mut front = None;
    prepare_behind(alloc, verifier, &mut front, id, index, line)
}

/// The same of one of several lines. `front` is that of the last record's request, so that records of one member and clue
/// share it.
pub(crate) fn prepare_behind<V: Verifier>(
    alloc: Global,
    verifier: &V,
    front: &mut Option<Front>,
    id: &Digest,
    index: u64,
    line: &[u8],
) -> Result<Prepared, NoMemory>
    ensures lane { IfOk result (λ item. item.lane ≡ (spoken_line line.now).0) }
    ensures index { IfOk result (λ item. item.index ≡ index) }
    ensures job { IfOk result (λ item. item.job ≡ job_of (V.shows verifier.now) id.now.0 line.now) }
{
    let Spoken { lane, what } = read_line(alloc, line)?;
    let job = match what {
        Ok(line) => prepare_line(alloc, verifier, front, id, line)?,
        Err(refusal) => Job::Refused(refusal),
    };
    Ok(Prepared { lane, index, job })
}

// The job of a line that has a right form.
fn prepare_line<V: Verifier>(
    alloc: Global,
    verifier: &V,
    front: &mut Option<Front>,
    id: &Digest,
    line: Line,
) -> Result<Job, NoMemory>
    requires { fits_line line ≡ true }
    ensures job { IfOk result (λ job. job ≡ job_for (V.shows verifier.now) id.now.0 (Ok line)) }
    ensures fits { IfOk result (λ job. fits_job job ≡ true) }
{
    let job = match line {
        Line::Append {
            member,
            clue,
            content,
            proof,
            number,
        } => record_job(
            verifier,
            front,
            id,
            member,
            clue_digest(clue.as_slice()),
            content,
            proof,
            number,
        ),
        Line::NewMember { number, key, proof } => member_job(verifier, id, number, key, proof),
        Line::Anchor => Job::Anchor,
        Line::Occult {
            target,
            leaf,
            given,
        } => occult_job(alloc, verifier, id, target, leaf, given.as_slice())?,
        Line::OccultClue { name, count, given } => clue_occult_job(
            alloc,
            verifier,
            id,
            name.as_slice(),
            count,
            given.as_slice(),
        )?,
        Line::Purge { point, root, given } => {
            purge_job(alloc, verifier, id, point, root, given.as_slice())?
        }
        Line::Get { n } => Job::Ask(Query::Get { n }),
        Line::Prove { n } => Job::Ask(Query::Prove { n }),
        Line::Extend { which, m } => Job::Ask(Query::Extend { which, m }),
        Line::Clue { name } => Job::Ask(Query::Clue {
            clue: clue_digest(name.as_slice()),
        }),
        Line::Head => Job::Ask(Query::Head),
    };
    Ok(job)
}
