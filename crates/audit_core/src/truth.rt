//! Whether a claim is true of the whole lists, the ledger's headers and its notary's entries.

ghost use Rattle.std.specs.Prelude.{◌≡◌, ◌/◌, ◌<◌, ◌≤◌, length, get_or, []};
ghost use Rattle.journal_record.specs.Reading.{header_of};
ghost use Rattle.tree_model.specs.Tree.{cut};
ghost use Rattle.audit_core.specs.Truth.{lists_of};
ghost use Rattle.audit_core.specs.Deciding.{has_journal, pegged, has_mark, has_entry, has_salted};
ghost use Rattle.audit_core.specs.Deciding.{is_noted_by, is_lower, is_upper, passes_if, is_true};

use crate::pieces::{first_root, has_leaf, piece_at, piece_count};
use journal_record::{HEADER_LEN, Header, Kind};
use ledger_bytes::{Digest, TreeHash};
use proof_codec::Claim;
use time_peg::{ENTRY_LEN, TimeMark, entry_bytes, peg_of};

// Is a claim true of the lists?
pub(crate) fn is_true<H: TreeHash>(
    id: &Digest,
    headers: &[u8],
    entries: &[u8],
    claim: &Claim,
) -> bool
    ensures { result ≡ is_true H.of (lists_of id.now headers.now entries.now) claim.now }
{
    has_journal::<H>(headers, claim.n, &claim.leaf)
        && has_lower::<H>(id, headers, entries, claim)
        && has_upper::<H>(id, headers, entries, claim)
}

fn has_journal<H: TreeHash>(headers: &[u8], n: u64, digest: &Digest) -> bool
    ensures { result ≡ has_journal H.of (cut 174 headers.now) n digest.now }
{
    n < piece_count(headers, HEADER_LEN) && has_leaf::<H>(headers, HEADER_LEN, n, digest)
}

fn has_lower<H: TreeHash>(id: &Digest, headers: &[u8], entries: &[u8], claim: &Claim) -> bool
    ensures { result ≡ passes_if
        (is_lower H.of (lists_of id.now headers.now entries.now) claim.now.n) claim.now.lo }
{
    match &claim.lo {
        Some(mark) => is_lower::<H>(id, headers, entries, claim.n, mark),
        None => true,
    }
}

fn has_upper<H: TreeHash>(id: &Digest, headers: &[u8], entries: &[u8], claim: &Claim) -> bool
    ensures { result ≡ passes_if
        (is_upper H.of (lists_of id.now headers.now entries.now) claim.now.n) claim.now.hi }
{
    match &claim.hi {
        Some(mark) => claim.n < mark.jsn && has_entry::<H>(id, headers, entries, mark),
        None => true,
    }
}

fn is_lower<H: TreeHash>(
    id: &Digest,
    headers: &[u8],
    entries: &[u8],
    n: u64,
    mark: &TimeMark,
) -> bool
    ensures { result ≡ is_lower H.of (lists_of id.now headers.now entries.now) n mark.now }
{
    mark.jsn < n
        && mark.jsn < piece_count(headers, HEADER_LEN)
        && is_noted_by::<H>(id, headers, entries, mark)
}

// Is the journal at a mark a time journal of this index and time, and is its entry there?
fn is_noted_by<H: TreeHash>(id: &Digest, headers: &[u8], entries: &[u8], mark: &TimeMark) -> bool
    requires { mark.now.jsn < length headers.now / 174 }
    ensures { result ≡ is_noted_by H.of (lists_of id.now headers.now entries.now) mark.now
        (header_of (get_or (cut 174 headers.now) mark.now.jsn [])) }
{
    match Header::decode(piece_at(headers, HEADER_LEN, mark.jsn)) {
        Ok(header) => {
            header.kind == Kind::Time
                && header.a == mark.index
                && header.b == mark.time
                && has_salted::<H>(id, headers, entries, mark, &header.link)
        }
        Err(_) => false,
    }
}

// Has the notary an entry at a mark with its time, the peg of the first journals, and this salt?
fn has_salted<H: TreeHash>(
    id: &Digest,
    headers: &[u8],
    entries: &[u8],
    mark: &TimeMark,
    salt: &Digest,
) -> bool
    ensures { result ≡ has_salted H.of (lists_of id.now headers.now entries.now) mark.now salt.now }
{
    if !has_mark(headers, entries, mark) {
        return false;
    }
    let peg = peg_over::<H>(id, headers, mark.jsn);
    piece_at(entries, ENTRY_LEN, mark.index) == entry_bytes(mark.time, &peg, salt).as_slice()
}

// The same with any salt.
fn has_entry<H: TreeHash>(id: &Digest, headers: &[u8], entries: &[u8], mark: &TimeMark) -> bool
    ensures { result ≡ has_entry H.of (lists_of id.now headers.now entries.now) mark.now }
{
    if !has_mark(headers, entries, mark) {
        return false;
    }
    let entry = piece_at(entries, ENTRY_LEN, mark.index);
    let peg = peg_over::<H>(id, headers, mark.jsn);
    &entry[..8] == mark.time.to_be_bytes().as_slice() && &entry[8..40] == peg.0.as_slice()
}

// Are there so many journals, and such an entry?
fn has_mark(headers: &[u8], entries: &[u8], mark: &TimeMark) -> bool
    ensures { result ≡ has_mark (cut 174 headers.now) (cut 72 entries.now) mark.now }
{
    mark.jsn <= piece_count(headers, HEADER_LEN) && mark.index < piece_count(entries, ENTRY_LEN)
}

// The peg of the first `m` journals.
fn peg_over<H: TreeHash>(id: &Digest, headers: &[u8], m: u64) -> Digest
    requires { m ≤ length headers.now / 174 }
    ensures { result.0 ≡ pegged H.of id.now (cut 174 headers.now) m }
{
    peg_of::<H>(id, m, &first_root::<H>(headers, HEADER_LEN, m))
}
