//! What a line of an audit script is answered, and which heads are trusted from then on.

ghost use Rattle.std.specs.Prelude.{◌≡◌, Ok, IfOk, OnOk};
ghost use Rattle.audit_core.specs.Acceptance.{acceptance};
ghost use Rattle.audit_core.specs.Judgement.{told_by};
ghost use Rattle.audit_cli.specs.Grammar.{IsFit};
ghost use Rattle.audit_cli.specs.Answers.{verdict, judge_reply, RepliesTo, reply_to, trust_behind};
ghost use Rattle.audit_cli.specs.Answers.{answer_to, trust_after};

use crate::line::{Line, read_line};
use crate::reply::Reply;
use audit_core::{Heads, TrustErr, Verdict, accept, judge};
use ledger_bytes::{Bytes, NoMemory, TreeHash};
use proof_codec::Claim;
use script_lines::Stop;
use std::alloc::Global;

/// The reply to a line, which may add to the trusted heads.
pub(crate) fn answer<H: TreeHash>(
    alloc: Global,
    heads: &mut Heads,
    line: &[u8],
) -> Result<Reply, NoMemory>
    ensures reply { IfOk result (λ reply. reply ≡ answer_to H.of heads.old line.now) }
    ensures heads { OnOk result (heads.new ≡ trust_after H.of heads.old line.now) }
{
    match read_line(alloc, line) {
        Ok(line) => reply_to::<H>(alloc, heads, line),
        Err(Stop::Refused(refusal)) => Ok(Reply::Refused(refusal)),
        Err(Stop::NoMemory) => Err(NoMemory),
    }
}

fn reply_to<H: TreeHash>(alloc: Global, heads: &mut Heads, line: Line) -> Result<Reply, NoMemory>
    requires { IsFit line }
    ensures reply { IfOk result (λ reply. reply ≡ reply_to H.of heads.old (Ok line)) }
    ensures heads { OnOk result (heads.new ≡ trust_behind H.of heads.old (Ok line)) }
{
    match line {
        Line::TrustLedger { id, head } => reply_of(heads.trust_ledger(&id, &head)),
        Line::TrustNotary { head } => reply_of(heads.trust_notary(&head)),
        Line::Extend {
            which,
            m,
            head,
            proof,
        } => reply_of(heads.extend::<H>(which, m, &head, proof.as_slice())),
        Line::Check { claim, proof } => Ok(check::<H>(heads, &claim, proof.as_slice())),
        Line::Judge {
            id,
            headers,
            entries,
            claim,
            proof,
        } => {
            let (headers, entries) = (headers.as_slice(), entries.as_slice());
            let verdict = judge::<H>(&id, headers, entries, proof.as_slice(), &claim);
            reply_for(alloc, verdict)
        }
    }
}

/// The reply where a head is trusted, or isn't.
fn reply_of(trusted: Result<(), TrustErr>) -> Result<Reply, NoMemory>
    ensures { RepliesTo trusted result }
{
    match trusted {
        Ok(()) => Ok(Reply::Yes),
        Err(TrustErr::No(no)) => Ok(Reply::No(no)),
        Err(TrustErr::NoMemory) => Err(NoMemory),
    }
}

fn check<H: TreeHash>(heads: &Heads, claim: &Claim, proof: &[u8]) -> Reply
    ensures { result ≡ verdict (acceptance H.of proof.now claim.now heads.now) }
{
    match accept::<H>(proof, claim, heads) {
        Ok(()) => Reply::Yes,
        Err(no) => Reply::No(no),
    }
}

/// The reply that tells a verdict. It has its own copies of the strings of a clash.
fn reply_for(alloc: Global, verdict: Verdict) -> Result<Reply, NoMemory>
    ensures { IfOk result (λ reply. reply ≡ judge_reply (told_by verdict)) }
{
    match verdict {
        Verdict::Unaccepted(why) => Ok(Reply::Unaccepted(why)),
        Verdict::True => Ok(Reply::True),
        Verdict::Clash(clash) => Ok(Reply::Clash {
            told: Bytes::copy_of(alloc, clash.told.as_slice())?,
            truth: Bytes::copy_of(alloc, clash.truth.as_slice())?,
        }),
    }
}
