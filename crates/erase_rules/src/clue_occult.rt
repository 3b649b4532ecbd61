//! Whether an occult of all records of a clue is accepted, and else why it is refused.

ghost use Rattle.std.specs.Prelude.{◌≡◌, ◌<◌, ◌^◌, length};
ghost use Rattle.journal_record.specs.Members.{keys};
ghost use Rattle.member_book.specs.Approvals.{judgement};
ghost use Rattle.member_book.specs.Erasures.{first_refusal, clue_row};
ghost use Rattle.erase_rules.specs.Rows.{row_of_clue_occult};

use crate::occult::APPROVERS;
use journal_record::Approval;
use ledger_bytes::Refusal;
use member_book::MemberBook;

/// What is known of the clue whose records are to be hidden.
#[derive(Clone, Copy, Debug, PartialEq, Eq)]
pub struct ClueFacts {
    /// How many records it has over the whole life of the ledger, purged ones among them.
    pub count: u32,
    /// How many of them are kept, and hidden by no journal.
    pub shown: u64,
}

/// Judges an occult of the records of a clue, of which it is said that there are `count`. It is refused by the first of
/// these: there is another number of them (`ClueDiffers`); none of them is kept and shown (`NothingToHide`); the
/// approvals are refused, of which the operator's and the regulator's are needed.
pub fn judge_clue_occult(
    facts: &ClueFacts,
    members: &MemberBook,
    count: u32,
    given: &[Approval],
) -> Result<(), Refusal>
    requires { length given.now < 2 ^ 32 }
    ensures { result ≡ judgement (first_refusal
        (row_of_clue_occult facts.now (keys members.now) count given.now)) }
{
    match clue_refusal(facts, count) {
        Some(refusal) => Err(refusal),
        None => members.check_approvals(given, &APPROVERS),
    }
}

/// What an occult by clue is refused for before its approvals are looked at: the first two of the refusals of
/// [`judge_clue_occult`].
pub fn clue_refusal(facts: &ClueFacts, count: u32) -> Option<Refusal>
    ensures { result ≡ first_refusal (clue_row facts.now.count facts.now.shown count) }
{
    if count != facts.count {
        return Some(Refusal::ClueDiffers { count: facts.count });
    }
    if facts.shown == 0 {
        return Some(Refusal::NothingToHide);
    }
    None
}
