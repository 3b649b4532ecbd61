//! Whether a purge of all journals in front of a time journal is accepted, and else why it is refused.

ghost use Rattle.std.specs.Prelude.{◌≡◌, ◌<◌, ◌^◌, length};
ghost use Rattle.journal_record.specs.Members.{keys};
ghost use Rattle.member_book.specs.Approvals.{judgement};
ghost use Rattle.member_book.specs.Erasures.{first_refusal, point_row};
ghost use Rattle.erase_rules.specs.Rows.{row_of_purge};

use journal_record::{Approval, Kind};
use ledger_bytes::{Digest, Refusal};
use member_book::MemberBook;

/// What is known of the journal that a purge is to make the first one. The last two are looked at only where the
/// journal is there and lies behind the point so far.
#[derive(Clone, Copy, Debug, PartialEq, Eq)]
pub struct PurgeFacts {
    /// The journal's number.
    pub asked: u64,
    /// How many journals there are.
    pub size: u64,
    /// The first journal that wasn't purged.
    pub point: u64,
    /// The journal's kind.
    pub kind: Kind,
    /// The root of the tree over all journals in front of it.
    pub root: Digest,
}

/// Judges a purge of all journals in front of the one that is named, over which the root is said to be `root`. It is
/// refused by the first of these: the journal isn't there (`NoJournal`); it was purged, or is the point of an earlier
/// purge (`Purged`); it tells no time (`NotTime`); the root is another (`RootDiffers`); the approvals are refused, of
/// which those of the members `needed` must be there: the operator, and each member that owns a record among the
/// journals that go.
pub fn judge_purge(
    facts: &PurgeFacts,
    members: &MemberBook,
    root: &Digest,
    needed: &[u32],
    given: &[Approval],
) -> Result<(), Refusal>
    requires { length given.now < 2 ^ 32 }
    ensures { result ≡ judgement (first_refusal
        (row_of_purge facts.now (keys members.now) root.now needed.now given.now)) }
{
    match point_refusal(facts, root) {
        Some(refusal) => Err(refusal),
        None => members.check_approvals(given, needed),
    }
}

/// What a purge is refused for before its approvals are looked at.
fn point_refusal(facts: &PurgeFacts, root: &Digest) -> Option<Refusal>
    ensures { result ≡ first_refusal (point_row facts.now.size facts.now.point facts.now.kind
        facts.now.root facts.now.asked root.now) }
{
    if facts.asked >= facts.size {
        return Some(Refusal::NoJournal { size: facts.size });
    }
    if facts.point > 0 && facts.asked <= facts.point {
        return Some(Refusal::Purged { point: facts.point });
    }
    if facts.kind != Kind::Time {
        return Some(Refusal::NotTime {
            kind: facts.kind.code(),
        });
    }
    if *root != facts.root {
        return Some(Refusal::RootDiffers { kept: facts.root });
    }
    None
}
