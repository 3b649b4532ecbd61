//! How the approvals of an occult or a purge are judged.

ghost use Rattle.std.specs.Prelude.{◌≡◌, ◌+◌, ◌<◌, ◌^◌, length, IfSome};
ghost use Rattle.member_book.specs.Approvals.{first_unordered, order_refusal, unknown_refusal, shows_key, key_refusal, approves, least_missing, missing_refusal, approvals_refusal, judgement};
ghost use Rattle.journal_record.specs.Members.{keys, is_known};

use crate::MemberBook;
use journal_record::Approval;
use ledger_bytes::Refusal;

impl MemberBook {
    /// Judges the approvals of an erasure that needs those of the members `needed`. Each of these is looked at over
    /// the whole list before the next: the order, which rises by members (`ApprovalOrder`); whether the members are
    /// known (`UnknownMember`); whether the proofs show their keys (`WrongKey`); and whether a needed one is missing
    /// (`MissingApproval`). Approvals of further members are accepted.
    pub fn check_approvals(&self, given: &[Approval], needed: &[u32]) -> Result<(), Refusal>
        requires { length given.now < 2 ^ 32 }
        ensures { result ≡ judgement (approvals_refusal (keys self.now) given.now needed.now) }
    {
        let refusal = order_refusal(given)
            .or_else(|| self.unknown_refusal(given))
            .or_else(|| self.key_refusal(given))
            .or_else(|| missing_refusal(given, needed));
        match refusal {
            Some(refusal) => Err(refusal),
            None => Ok(()),
        }
    }

    fn unknown_refusal(&self, given: &[Approval]) -> Option<Refusal>
        ensures { result ≡ unknown_refusal (keys self.now) given.now }
    {
        let unknown = given
            .iter()
            .find(|approval| !self.is_known(approval.member))?;
        Some(Refusal::UnknownMember {
            member: unknown.member,
        })
    }

    fn is_known(&self, member: u32) -> bool
        ensures { result ≡ is_known (keys self.now) member }
    {
        member < self.count()
    }

    fn key_refusal(&self, given: &[Approval]) -> Option<Refusal>
        ensures { result ≡ key_refusal (keys self.now) given.now }
    {
        let wrong = given.iter().find(|approval| !self.shows_key(approval))?;
        Some(Refusal::WrongKey {
            member: wrong.member,
        })
    }

    /// Whether an approval's proof shows the key of its member.
    fn shows_key(&self, approval: &Approval) -> bool
        ensures { result ≡ shows_key (keys self.now) approval.now }
    {
        match (approval.key, self.key(approval.member)) {
            (Some(shown), Some(kept)) => shown == kept,
            _ => false,
        }
    }
}

fn order_refusal(given: &[Approval]) -> Option<Refusal>
    requires { length given.now < 2 ^ 32 }
    ensures { result ≡ order_refusal given.now }
{
    let before = first_unordered(given)?;
    Some(Refusal::ApprovalOrder {
        at: before as u32 + 1,
    })
}

/// The place of the first approval whose member the next one doesn't exceed.
fn first_unordered(given: &[Approval]) -> Option<usize>
    ensures place { result ≡ first_unordered given.now }
    ensures within { IfSome result (λ before. before + 1 < length given.now) }
{
    given
        .iter()
        .zip(given.iter().skip(1))
        .position(|(before, next)| next.member <= before.member)
}

fn missing_refusal(given: &[Approval], needed: &[u32]) -> Option<Refusal>
    ensures { result ≡ missing_refusal given.now needed.now }
{
    let member = least_missing(given, needed)?;
    Some(Refusal::MissingApproval { member })
}

fn least_missing(given: &[Approval], needed: &[u32]) -> Option<u32>
    ensures { result ≡ least_missing given.now needed.now }
{
    needed
        .iter()
        .copied()
        .filter(|member| !approves(given, *member))
        .min()
}

/// Whether one of the approvals is this member's.
fn approves(given: &[Approval], member: u32) -> bool
    ensures { result ≡ approves given.now member }
{
    given.iter().any(|approval| approval.member == member)
}
