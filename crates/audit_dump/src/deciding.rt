//! Whether those placed a journal who had to, by its kind.

ghost use Rattle.std.specs.Prelude.{◌≡◌, ◌↔◌, ◌<◌, ◌^◌, [], ◌∷◌, ℕ, length, List, Option, IsTrue, IfOk};
ghost use Rattle.journal_record.specs.Entry.{Entry};
ghost use Rattle.journal_record.specs.Items.{IsItem};
ghost use Rattle.journal_record.specs.Members.{keys};
ghost use Rattle.journal_record.specs.Request.{clue_occult_request_digest_of, member_request_digest_of, occult_request_digest_of};
ghost use Rattle.journal_record.specs.declared.header.Kind.TheVariants as kind;
ghost use Rattle.pseudo_genesis.specs.declared.base.Base.{Base};
ghost use Rattle.ledger_model.specs.Scheme.{Scheme};
ghost use Rattle.audit_dump.specs.Approvals.{AreOf, IsOf, IsPlacedBy, IsPlacedRecord};
ghost use Rattle.audit_dump.specs.Deciding.{IsAskedOf, IsPlacedAmong, IsPurgeAmong};
ghost use Rattle.audit_dump.specs.Known.{keys_behind};
ghost use Rattle.audit_dump.specs.Prepared.{ShowsPlacing};

use crate::placing::{are_in_form, are_of, is_key, is_of, key_in};
use journal_record::{
    Kind, Record, clue_occult_request_digest, member_request_digest, occult_request_digest,
    purge_request_digest, request_digest,
};
use ledger_bytes::{Digest, NoMemory};
use member_book::{MemberBook, Verifier};
use std::alloc::Global;

// Whether those placed a journal who had to, where `known` has the keys of all members that were admitted in front of it. A purge is
// judged by `needed`, the members whose approvals it needs, and by `root`, the root in front of its point; that is `None` where
// the point lies in front of the base. A record is judged by the key that it shows. For other journals none of these is looked at. The
// proofs of occults and purges are copied meanwhile, and the only error is that memory is wanted.
pub(crate) fn is_placed<V: Verifier>(
    alloc: Global,
    verifier: &V,
    id: &Digest,
    known: &MemberBook,
    journal: &Record,
    key: Option<Digest>,
    needed: &[u32],
    root: Option<Digest>,
) -> Result<bool, NoMemory>
    requires rules { IsItem journal.now }
    requires key { ShowsPlacing (V.shows verifier.now) id.now.0 journal.now key }
    ensures { IfOk result (λ good. (start : Option Base) (before : List Entry)
        → keys known.now ≡ keys_behind start before
        → (journal.now.header.kind ≡ kind.Purge
        → IsAskedOf start before journal.now.header.a needed.now root)
        → IsTrue good ↔ IsPlacedBy (V.shows verifier.now) id.now.0 start before journal.now
        journal.now.header.kind) }
{
    is_placed_among(alloc, verifier, id, known, journal, key, needed, root)
}

// The same by what was given alone.
fn is_placed_among<V: Verifier>(
    alloc: Global,
    verifier: &V,
    id: &Digest,
    known: &MemberBook,
    journal: &Record,
    key: Option<Digest>,
    needed: &[u32],
    root: Option<Digest>,
) -> Result<bool, NoMemory>
    requires rules { IsItem journal.now }
    requires key { ShowsPlacing (V.shows verifier.now) id.now.0 journal.now key }
    ensures { IfOk result (λ good. IsTrue good ↔ IsPlacedAmong
        (V.shows verifier.now) id.now.0 (keys known.now) needed.now root journal.now
        journal.now.header.kind) }
{
    match journal.header.kind {
        Kind::Genesis | Kind::Time => Ok(journal.who.is_empty()),
        Kind::Content => Ok(is_placed_record(known, journal, key)),
        Kind::Member => Ok(is_placed_member(verifier, id, known, journal)),
        Kind::Occult => is_placed_occult(alloc, verifier, id, known, journal),
        Kind::Purge => is_placed_purge(alloc, verifier, id, known, journal, needed, root),
        Kind::ClueOccult => is_placed_clue_occult(alloc, verifier, id, known, journal),
    }
}

// The key by which the member that a record names approved it, where its who shows one and it links what was approved. It depends on
// the record alone.
pub(crate) fn record_key<V: Verifier>(verifier: &V, id: &Digest, journal: &Record) -> Option<Digest>
    ensures { ShowsPlacing (V.shows verifier.now) id.now.0 journal.now result }
{
    let header = &journal.header;
    let request = request_digest(
        id,
        header.member,
        &header.clue,
        header.content_len,
        &header.content_digest,
        header.a,
    );
    if header.link == request {
        key_in(verifier, &request, header.member, journal.who)
    } else {
        None
    }
}

// Whether the member that a record names placed it, and it links what the member approved. It is told by the key that the record
// shows.
fn is_placed_record(known: &MemberBook, journal: &Record, key: Option<Digest>) -> bool
    ensures { (scheme : Scheme) (id : List ℕ) → ShowsPlacing scheme id journal.now key
        → IsTrue result ↔ IsPlacedRecord scheme id (keys known.now) journal.now }
{
    is_key(key, known.key(journal.header.member))
}

// Whether the operator placed the journal of a new member.
fn is_placed_member<V: Verifier>(
    verifier: &V,
    id: &Digest,
    known: &MemberBook,
    journal: &Record,
) -> bool
    requires { journal.now.header.a < 2 ^ 32 }
    ensures { IsTrue result ↔ IsOf (V.shows verifier.now) (keys known.now)
        (member_request_digest_of id.now.0 journal.now.header.a journal.now.header.link.0) 0
        journal.now.who }
{
    let header = &journal.header;
    let request = member_request_digest(id, header.a as u32, &header.link);
    is_of(verifier, known, &request, 0, journal.who)
}

// Whether operator and regulator placed an occult.
fn is_placed_occult<V: Verifier>(
    alloc: Global,
    verifier: &V,
    id: &Digest,
    known: &MemberBook,
    journal: &Record,
) -> Result<bool, NoMemory>
    requires { length journal.now.who < 2 ^ 32 }
    ensures { IfOk result (λ good. IsTrue good ↔ AreOf (V.shows verifier.now) (keys known.now)
        (occult_request_digest_of id.now.0 journal.now.header.a journal.now.header.link.0)
        (0 ∷ 1 ∷ []) journal.now.who) }
{
    let header = &journal.header;
    let request = occult_request_digest(id, header.a, &header.link);
    are_of(alloc, verifier, known, &request, &[0, 1], journal.who)
}

// Whether operator and regulator placed an occult by clue.
fn is_placed_clue_occult<V: Verifier>(
    alloc: Global,
    verifier: &V,
    id: &Digest,
    known: &MemberBook,
    journal: &Record,
) -> Result<bool, NoMemory>
    requires count { journal.now.header.a < 2 ^ 32 }
    requires who { length journal.now.who < 2 ^ 32 }
    ensures { IfOk result (λ good. IsTrue good ↔ AreOf (V.shows verifier.now) (keys known.now)
        (clue_occult_request_digest_of id.now.0 journal.now.header.link.0 journal.now.header.a)
        (0 ∷ 1 ∷ []) journal.now.who) }
{
    let header = &journal.header;
    let request = clue_occult_request_digest(id, &header.link, header.a as u32);
    are_of(alloc, verifier, known, &request, &[0, 1], journal.who)
}

// Whether those who are needed placed a purge, and approved this root, where one is told.
fn is_placed_purge<V: Verifier>(
    alloc: Global,
    verifier: &V,
    id: &Digest,
    known: &MemberBook,
    journal: &Record,
    needed: &[u32],
    root: Option<Digest>,
) -> Result<bool, NoMemory>
    requires { length journal.now.who < 2 ^ 32 }
    ensures { IfOk result (λ good. IsTrue good ↔ IsPurgeAmong
        (V.shows verifier.now) id.now.0 (keys known.now) needed.now journal.now root) }
{
    match root {
        Some(root) => {
            let request = purge_request_digest(id, journal.header.a, &root);
            are_of(alloc, verifier, known, &request, needed, journal.who)
        }
        None => are_in_form(alloc, known, needed, journal.who),
    }
}
