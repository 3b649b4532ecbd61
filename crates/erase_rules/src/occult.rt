//! Whether an occult of a record's content is accepted, and else why it is refused.

ghost use Rattle.std.specs.Prelude.{◌≡◌, ◌<◌, ◌^◌, length};
ghost use Rattle.journal_record.specs.Members.{keys};
ghost use Rattle.member_book.specs.Approvals.{judgement};
ghost use Rattle.member_book.specs.Erasures.{first_refusal, target_row};
ghost use Rattle.erase_rules.specs.Rows.{row_of_occult};

use journal_record::{Approval, Kind};
use ledger_bytes::{Digest, Refusal};
use member_book::MemberBook;

/// The members whose approval an occult of either kind needs: the operator and the regulator.
pub(crate) const APPROVERS: [u32; 2] = [0, 1];

/// What is known of the journal whose content is to be hidden. The last three are looked at only where the journal is
/// there and wasn't purged.
#[derive(Clone, Copy, Debug, PartialEq, Eq)]
pub struct OccultFacts {
    /// The journal's number.
    pub target: u64,
    /// How many journals there are.
    pub size: u64,
    /// The first journal that wasn't purged.
    pub point: u64,
    /// The journal's kind.
    pub kind: Kind,
    /// The number of the journal that hides its content, where one does.
    pub by: Option<u64>,
    /// The digest of its leaf.
    pub leaf: Digest,
}

/// Judges an occult of the journal whose leaf digest is said to be `leaf`. It is refused by the first of these: the
/// journal isn't there (`NoJournal`); it was purged (`Purged`); it is no record (`NotData`); its content is hidden
/// already (`AlreadyOcculted`); its leaf digest is another (`LeafDiffers`); the approvals are refused, of which the
/// operator's and the regulator's are needed.
pub fn judge_occult(
    facts: &OccultFacts,
    members: &MemberBook,
    leaf: &Digest,
    given: &[Approval],
) -> Result<(), Refusal>
    requires { length given.now < 2 ^ 32 }
    ensures { result ≡ judgement (first_refusal
        (row_of_occult facts.now (keys members.now) leaf.now given.now)) }
{
    match target_refusal(facts, leaf) {
        Some(refusal) => Err(refusal),
        None => members.check_approvals(given, &APPROVERS),
    }
}

/// What an occult is refused for before its approvals are looked at: the first five of the refusals of
/// [`judge_occult`].
pub fn target_refusal(facts: &OccultFacts, leaf: &Digest) -> Option<Refusal>
    ensures { result ≡ first_refusal (target_row facts.now.size facts.now.point facts.now.kind
        facts.now.by facts.now.leaf facts.now.target leaf.now) }
{
    if facts.target >= facts.size {
        return Some(Refusal::NoJournal { size: facts.size });
    }
    if facts.target < facts.point {
        return Some(Refusal::Purged { point: facts.point });
    }
    if facts.kind != Kind::Content {
        return Some(Refusal::NotData {
            kind: facts.kind.code(),
        });
    }
    if let Some(by) = facts.by {
        return Some(Refusal::AlreadyOcculted { by });
    }
    if *leaf != facts.leaf {
        return Some(Refusal::LeafDiffers { kept: facts.leaf });
    }
    None
}
