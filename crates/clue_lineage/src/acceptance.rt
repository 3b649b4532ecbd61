//! Whether the auditor accepts a lineage under a head that it trusts, and else why not.

ghost use Rattle.std.specs.Prelude.{◌≡◌, ◌≤◌, ◌↔◌, length, Ok, not, ◌&&◌};
ghost use Rattle.std.specs.List.{list_all};
ghost use Rattle.std.specs.Str.{bytes_eq};
ghost use Rattle.journal_record.specs.Rules.{is_no_clue};
ghost use Rattle.clue_lineage.specs.declared.answer.Run.{Run as RunRecord};
ghost use Rattle.clue_lineage.specs.Reading.{break_of};
ghost use Rattle.clue_lineage.specs.Accepting as accepting;
ghost use Rattle.clue_lineage.specs.Accepting.{acceptance_under, acceptance, IsAccepted, leads};

use crate::item::{Item, Items};
use crate::layout::Lineage;
use crate::{LineageNo, Run};
use journal_record::{Header, Kind};
use ledger_bytes::{Bad, Digest, TreeHash};
use merkle_tree::{Head, fold_path, leaf_of};

/// Accepts a lineage of a clue under a trusted head of the ledger. The first of these that holds is the answer:
///
/// | Answer | Comes where |
/// |---|---|
/// | `Malformed` | the bytes spell no lineage, with the place where they break |
/// | `HeadUnknown` | the lineage is of another size than the head |
/// | `LineageClue` | at 0: the lineage is of another clue, or the clue is 32 zero bytes |
/// | `LineageClue` | a journal isn't a record with the clue, with the place of the first such |
/// | `LineageLink` | a journal's ordinal isn't one more than that of the one in front of it, or it doesn't name that one's number, with the place of the first such |
/// | `LeafPath` | a journal doesn't lead along its path to the head's root |
///
/// That the last journal is the clue's last isn't shown. It takes no memory, and its cost grows with the bytes: a hash for each
/// digest of a path, and a few for each header.
pub fn accept_lineage<H: TreeHash>(
    proof: &[u8],
    clue: &Digest,
    head: &Head,
) -> Result<Run, LineageNo>
    ensures exact { result ≡ acceptance H.of proof.now clue.now head.now }
    // Yes comes exactly where the bytes spell a lineage of this size and clue, whose journals are records with the clue, each
    // behind the one before, and lead to the root.
    ensures yes { (run : RunRecord) → (result ≡ Ok run)
        ↔ IsAccepted H.of proof.now clue.now head.now run }
{
    answer_of::<H>(proof, clue, head)
}

#[tactic(auto, unfolding(crate::specs::Accepting::acceptance))]
fn answer_of<H: TreeHash>(proof: &[u8], clue: &Digest, head: &Head) -> Result<Run, LineageNo>
    ensures { result ≡ acceptance H.of proof.now clue.now head.now }
{
    match Lineage::decode(proof) {
        Ok(lineage) => accept_under::<H>(&lineage, clue, head),
        Err(bad) => Err(LineageNo::Malformed { at: break_of(bad) }),
    }
}

// Where bytes break that spell no lineage.
pub(crate) fn break_of(bad: Bad) -> u64
    ensures { result ≡ break_of bad }
{
    match bad {
        Bad::Short { at } | Bad::Trailing { at } | Bad::BadFixedField { at } => at,
        Bad::BadKind { .. } | Bad::NewerFormat { .. } | Bad::TooLong => 0,
    }
}

/// The answer to a lineage that was read.
#[tactic(auto, unfolding(crate::specs::Accepting::acceptance_under))]
pub(crate) fn accept_under<H: TreeHash>(
    lineage: &Lineage,
    clue: &Digest,
    head: &Head,
) -> Result<Run, LineageNo>
    ensures { result ≡ acceptance_under H.of clue.now head.now lineage.now }
{
    if lineage.size != head.size {
        return Err(LineageNo::HeadUnknown { size: lineage.size });
    }
    if !is_clue(&lineage.clue, clue) {
        return Err(LineageNo::LineageClue { at: 0 });
    }
    if let Some(at) = first_stranger(&lineage.items, clue) {
        return Err(LineageNo::LineageClue { at });
    }
    if let Some(at) = first_break(&lineage.items) {
        return Err(LineageNo::LineageLink { at });
    }
    if !all_lead::<H>(&lineage.items, head) {
        return Err(LineageNo::LeafPath);
    }
    Ok(run_of(&lineage.items))
}

// Is a lineage's clue this one, and is this one?
fn is_clue(own: &Digest, clue: &Digest) -> bool
    ensures { result ≡ (bytes_eq own.now.0 clue.now.0 && not (is_no_clue clue.now)) }
{
    *own == *clue && *clue != Digest::ZERO
}

// Is a header that of a record with this clue?
fn is_record_of(header: &Header, clue: &Digest) -> bool
    ensures { result ≡ accepting.is_record_of clue.now header.now }
{
    matches!(header.kind, Kind::Content) && header.clue == *clue
}

// Is a header that of the clue's next record behind another?
fn follows(before: &Header, header: &Header) -> bool
    ensures { result ≡ accepting.follows before.now header.now }
{
    u64::from(header.clue_ord) == u64::from(before.clue_ord) + 1 && header.clue_prev == before.jsn
}

// The place of the first journal that isn't a record with the clue.
fn first_stranger(items: &Items, clue: &Digest) -> Option<u32>
    ensures { result ≡ accepting.first_stranger clue.now 0 items.now }
{
    let mut rest = items.again();
    let mut at = 0;
    while let Some(item) = rest.next() {
        if !is_record_of(&item.header, clue) {
            return Some(at);
        }
        at += 1;
    }
    None
}

// The place of the first journal that doesn't follow the one in front of it.
fn first_break(items: &Items) -> Option<u32>
    ensures { result ≡ accepting.first_break items.now }
{
    let mut rest = items.again();
    let mut before = rest.next()?.header;
    let mut at = 1;
    while let Some(item) = rest.next() {
        if !follows(&before, &item.header) {
            return Some(at);
        }
        before = item.header;
        at += 1;
    }
    None
}

// Do all journals lead to the head's root?
fn all_lead<H: TreeHash>(items: &Items, head: &Head) -> bool
    ensures { result ≡ list_all (leads H.of head.now) items.now }
{
    let mut rest = items.again();
    while let Some(item) = rest.next() {
        if !item_leads::<H>(&item, head) {
            return false;
        }
    }
    true
}

// Does a journal lead along its path to the head's root?
fn item_leads<H: TreeHash>(item: &Item, head: &Head) -> bool
    ensures { result ≡ leads H.of head.now item.now }
{
    let leaf = leaf_of::<H>(&item.header.encode());
    match fold_path::<H>(&leaf, item.header.jsn, head.size, item.path) {
        Some(root) => root == head.root,
        None => false,
    }
}

// The run that journals are.
fn run_of(items: &Items) -> Run
    ensures { result ≡ accepting.run_of items.now }
{
    let mut rest = items.again();
    let Some(item) = rest.next() else {
        return Run {
            first: 0,
            last: 0,
            count: 0,
        };
    };
    let first = item.header.clue_ord;
    let mut last = first;
    while let Some(item) = rest.next() {
        last = item.header.clue_ord;
    }
    Run {
        first,
        last,
        count: u32::from(items.count()),
    }
}
