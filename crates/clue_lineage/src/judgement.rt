//! What a lineage is worth to one who has all headers of the ledger.

ghost use Rattle.std.specs.Prelude.{◌≡◌, ◌%◌, length};
ghost use Rattle.std.specs.List.{AllByRecursion};
ghost use Rattle.tree_model.specs.Tree.{cut};
ghost use Rattle.audit_core.specs.Parts.{Finds};
ghost use Rattle.clue_lineage.specs.Judging as judging;
ghost use Rattle.clue_lineage.specs.Judging.{Judges, JudgesRead, Gives, item_parts, parts_of};

use crate::acceptance::{accept_under, break_of};
use crate::item::{Item, Items};
use crate::layout::Lineage;
use crate::{LineageNo, LineageVerdict};
use audit_core::placed_differs;
use journal_record::HEADER_LEN;
use ledger_bytes::{Digest, TreeHash};
use merkle_tree::{Clash, Head, mth};

/// Judges a lineage of a clue by the headers of all journals of the ledger, 174 bytes each, under their own head. It is refused
/// with what [`accept_lineage`](crate::accept_lineage) answers, or each of its headers is the ledger's at its number, or two
/// strings have one digest: those of the first journal that isn't the ledger's, of a node of its path from the root down, and
/// else of its leaf.
///
/// It takes no memory. It hashes the headers once, and of each journal the path; for a clash also the headers again, at most once
/// for each digest of the path.
pub fn judge_lineage<H: TreeHash>(headers: &[u8], proof: &[u8], clue: &Digest) -> LineageVerdict
    requires whole { length headers.now % 174 ≡ 0 }
    // Each verdict comes exactly where it means what holds: of the three meanings no two hold together.
    ensures { Judges H.of (cut 174 headers.now) proof.now clue.now result }
{
    match Lineage::decode(proof) {
        Ok(lineage) => judge_read::<H>(headers, &lineage, clue),
        Err(bad) => LineageVerdict::Unaccepted(LineageNo::Malformed { at: break_of(bad) }),
    }
}

// Judges a lineage that was read.
fn judge_read<H: TreeHash>(headers: &[u8], lineage: &Lineage, clue: &Digest) -> LineageVerdict
    requires whole { length headers.now % 174 ≡ 0 }
    ensures { JudgesRead H.of (cut 174 headers.now) clue.now lineage.now result }
{
    match accept_under::<H>(lineage, clue, &own_head::<H>(headers)) {
        Err(why) => LineageVerdict::Unaccepted(why),
        Ok(_) => match first_clash::<H>(headers, &lineage.items) {
            Some(clash) => LineageVerdict::Clash(clash),
            None => LineageVerdict::True,
        },
    }
}

// The head over all headers.
fn own_head<H: TreeHash>(headers: &[u8]) -> Head
    requires whole { length headers.now % 174 ≡ 0 }
    ensures { result ≡ judging.own_head H.of (cut 174 headers.now) }
{
    Head {
        size: (headers.len() / HEADER_LEN) as u64,
        root: mth::<H>(headers, HEADER_LEN),
    }
}

// The strings of the first journal that isn't the ledger's, if there is one.
fn first_clash<H: TreeHash>(headers: &[u8], items: &Items) -> Option<Clash>
    requires whole { length headers.now % 174 ≡ 0 }
    requires gives { AllByRecursion (Gives H.of (cut 174 headers.now)) items.now }
    ensures { Finds H.of (parts_of H.of (cut 174 headers.now) items.now) result }
{
    let mut rest = items.again();
    while let Some(item) = rest.next() {
        if let Some(clash) = item_differs::<H>(headers, &item) {
            return Some(clash);
        }
    }
    None
}

// The strings of a journal, where it isn't the ledger's.
fn item_differs<H: TreeHash>(headers: &[u8], item: &Item) -> Option<Clash>
    requires whole { length headers.now % 174 ≡ 0 }
    requires gives { Gives H.of (cut 174 headers.now) item.now }
    ensures { Finds H.of (item_parts H.of (cut 174 headers.now) item.now) result }
{
    let header = item.header.encode();
    placed_differs::<H>(headers, HEADER_LEN, &header, item.header.jsn, item.path)
}
