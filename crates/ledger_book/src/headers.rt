//! The header of each kind of journal, as it is made when the journal is placed.

ghost use Rattle.std.specs.Prelude.{◌≡◌, ◌<◌, ◌^◌, length, ℕ, List, All};
ghost use Rattle.ledger_model.specs.Anchors as anchors;
ghost use Rattle.ledger_model.specs.Appends as appends;
ghost use Rattle.ledger_model.specs.Appends.{append_header, member_header};
ghost use Rattle.journal_record.specs.Entry.{who_digest_of};
ghost use Rattle.journal_record.specs.Header.{spelling, HasWidths};
ghost use Rattle.ledger_model.specs.Genesis.{genesis_header};
ghost use Rattle.ledger_model.specs.Headers as headers;
ghost use Rattle.ledger_book.specs.Steps.{IsLeafOf};

use journal_record::{
    Approval, Header, Kind, Stamp, approval_digest, approvals_digest, content_digest, name_digest,
    version_of, who_digest,
};
use ledger_bytes::{Digest, Sha};
use ledger_model::{Genesis, PlacedJournal};
use merkle_tree::leaf_of;

/// The header of journal 0.
pub fn first_header(genesis: &Genesis) -> Header
    ensures header { result ≡ genesis_header genesis.now }
    ensures width { length genesis.now.operator.0 ≡ 32 }
{
    Header {
        version: 1,
        kind: Kind::Genesis,
        jsn: 0,
        member: 0,
        clue: Digest::ZERO,
        clue_ord: 0,
        clue_prev: 0,
        a: 0,
        b: 0,
        link: name_digest(genesis.name.as_slice()),
        content_len: 64,
        content_digest: content_digest(&genesis.content()),
        who_digest: who_digest(b""),
    }
}

/// The numbers of a journal: in the ledger, and among those of its clue.
#[derive(Clone, Copy)]
pub(crate) struct Numbers {
    pub(crate) jsn: u64,
    pub(crate) ordinal: u32,
    pub(crate) previous: u64,
}

/// The header of a member's record with this clue and these numbers, whose request has this number, or 0, and whose who bytes
/// have this digest.
pub(crate) fn record_header(
    numbers: Numbers,
    member: u32,
    clue: &Digest,
    content_len: u32,
    content_digest: &Digest,
    request: &Digest,
    who: &Digest,
    number: u64,
) -> Header
    ensures { (content : List ℕ) → length content ≡ content_len
        → result ≡ append_header numbers.jsn member clue.now numbers.ordinal numbers.previous content
        content_digest.now
        request.now who.now number }
{
    Header {
        version: version_of(Kind::Content, number, content_len),
        kind: Kind::Content,
        jsn: numbers.jsn,
        member,
        clue: *clue,
        clue_ord: numbers.ordinal,
        clue_prev: numbers.previous,
        a: number,
        b: 0,
        link: *request,
        content_len,
        content_digest: *content_digest,
        who_digest: *who,
    }
}

// The header of a journal without a clue and a content, whose who bytes have this digest.
fn plain_header(kind: Kind, jsn: u64, a: u64, b: u64, link: &Digest, who_digest: Digest) -> Header
    ensures { (who : List ℕ) → who_digest.0 ≡ who_digest_of who
        → result ≡ headers.plain_header kind jsn a b link.now who }
{
    Header {
        version: version_of(kind, a, 0),
        kind,
        jsn,
        member: 0,
        clue: Digest::ZERO,
        clue_ord: 0,
        clue_prev: 0,
        a,
        b,
        link: *link,
        content_len: 0,
        content_digest: content_digest(b""),
        who_digest,
    }
}

/// The header of a new member that is journal `jsn`.
pub(crate) fn new_member_header(jsn: u64, number: u32, key: &Digest, by: &Approval) -> Header
    requires { length by.now.proof < 2 ^ 16 }
    ensures { result ≡ member_header jsn number key.now by.now }
{
    let who = approval_digest(by);
    plain_header(Kind::Member, jsn, u64::from(number), 0, key, who)
}

/// The header of an occult that is journal `jsn`.
pub(crate) fn occult_header(jsn: u64, target: u64, leaf: &Digest, given: &[Approval]) -> Header
    requires { All (λ a. length a.proof < 2 ^ 16) given.now }
    ensures { result ≡ appends.occult_header jsn target leaf.now given.now }
{
    plain_header(Kind::Occult, jsn, target, 0, leaf, approvals_digest(given))
}

/// The header of an occult of the `count` records of a clue that is journal `jsn`.
pub(crate) fn clue_occult_header(jsn: u64, clue: &Digest, count: u32, given: &[Approval]) -> Header
    requires { All (λ a. length a.proof < 2 ^ 16) given.now }
    ensures { result ≡ appends.clue_occult_header jsn clue.now count given.now }
{
    let who = approvals_digest(given);
    plain_header(Kind::ClueOccult, jsn, u64::from(count), 0, clue, who)
}

/// The header of a purge of all journals in front of `point` that is journal `jsn`, where the base at its point has this
/// digest.
pub(crate) fn purge_header(jsn: u64, point: u64, link: &Digest, given: &[Approval]) -> Header
    requires { All (λ a. length a.proof < 2 ^ 16) given.now }
    ensures { result ≡ appends.purge_header jsn point link.now given.now }
{
    plain_header(Kind::Purge, jsn, point, 0, link, approvals_digest(given))
}

/// The header of a time journal that is journal `jsn`.
pub(crate) fn time_header(jsn: u64, stamp: &Stamp) -> Header
    ensures { result ≡ anchors.time_header jsn stamp.now }
{
    let who = who_digest(b"");
    plain_header(Kind::Time, jsn, stamp.index, stamp.time, &stamp.salt, who)
}

/// What is told of a journal with this number and header once it is placed. The header is spelled here, and nowhere else.
pub(crate) fn placed_with(jsn: u64, header: &Header) -> PlacedJournal
    ensures jsn { result.jsn ≡ jsn }
    ensures leaf { IsLeafOf header.now result.leaf }
    ensures bytes { result.header ≡ spelling header.now }
    ensures widths { HasWidths header.now }
{
    let bytes = header.encode();
    PlacedJournal {
        jsn,
        leaf: leaf_of::<Sha>(&bytes),
        header: bytes,
    }
}
