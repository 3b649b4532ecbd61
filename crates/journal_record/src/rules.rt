//! What each field of a header may be, by the fields in front of it.

ghost use Rattle.std.specs.Prelude.{◌≡◌, ◌↔◌, IsTrue};
ghost use Rattle.journal_record.specs.Rules as rule;

use crate::{Header, Kind};
use ledger_bytes::{CONTENT_LIMIT, Digest, MEMBER_LIMIT};

/// The version of the first layout. It carries no number of a record, no content above its limit and no occult by clue.
const FIRST_VERSION: u8 = 1;

/// The version that carries what the first doesn't.
const SECOND_VERSION: u8 = 2;

/// The longest content that the first version carries.
const FIRST_CONTENT_LIMIT: u32 = 65_536;

const OPERATOR: u32 = 0;

/// The first number that a member journal may give.
const FIRST_MEMBER: u64 = 2;

/// The most entries of a notary's list. A time journal's place in it is below that.
pub const NOTARY_LIMIT: u64 = 16_777_216;

/// The length of two keys.
const GENESIS_CONTENT: u32 = 64;

pub(crate) fn is_no_clue(clue: &Digest) -> bool
    ensures { result ≡ rule.is_no_clue clue.now }
{
    *clue == Digest::ZERO
}

/// The version of a header with these fields: 1 exactly where the first version can carry them.
pub fn version_of(kind: Kind, a: u64, content_len: u32) -> u8
    ensures { result ≡ rule.version_of kind a content_len }
{
    match kind {
        Kind::Content => {
            if a == 0 && content_len <= FIRST_CONTENT_LIMIT {
                FIRST_VERSION
            } else {
                SECOND_VERSION
            }
        }
        Kind::ClueOccult => SECOND_VERSION,
        _ => FIRST_VERSION,
    }
}

pub(crate) fn is_version(version: u8) -> bool
    ensures { result ≡ rule.is_version version }
{
    version == FIRST_VERSION || version == SECOND_VERSION
}

pub(crate) fn version_ok(version: u8, kind: Kind, a: u64, content_len: u32) -> bool
    ensures { result ≡ rule.version_ok version kind a content_len }
{
    version == version_of(kind, a, content_len)
}

pub(crate) fn carries_a(version: u8, kind: Kind, a: u64) -> bool
    ensures { result ≡ rule.carries_a version kind a }
{
    version_of(kind, a, 0) <= version
}

pub(crate) fn carries_len(version: u8, kind: Kind, content_len: u32) -> bool
    ensures { result ≡ rule.carries_len version kind content_len }
{
    version_of(kind, 0, content_len) <= version
}

pub(crate) fn jsn_ok(kind: Kind, jsn: u64) -> bool
    ensures { result ≡ rule.jsn_ok kind jsn }
{
    match kind {
        Kind::Genesis => jsn == 0,
        _ => 0 < jsn,
    }
}

pub(crate) fn member_ok(kind: Kind, member: u32) -> bool
    ensures { result ≡ rule.member_ok kind member }
{
    match kind {
        Kind::Content => member < MEMBER_LIMIT,
        _ => member == OPERATOR,
    }
}

pub(crate) fn clue_ok(kind: Kind, clue: &Digest) -> bool
    ensures { result ≡ rule.clue_ok kind clue.now }
{
    match kind {
        Kind::Content => true,
        _ => is_no_clue(clue),
    }
}

pub(crate) fn clue_ord_ok(clue: &Digest, clue_ord: u32) -> bool
    ensures { result ≡ rule.clue_ord_ok clue.now clue_ord }
{
    if is_no_clue(clue) {
        clue_ord == 0
    } else {
        0 < clue_ord
    }
}

pub(crate) fn clue_prev_ok(jsn: u64, clue_ord: u32, clue_prev: u64) -> bool
    ensures { result ≡ rule.clue_prev_ok jsn clue_ord clue_prev }
{
    if clue_ord <= 1 {
        clue_prev == 0
    } else {
        0 < clue_prev && clue_prev < jsn
    }
}

pub(crate) fn a_ok(kind: Kind, jsn: u64, a: u64) -> bool
    ensures { result ≡ rule.a_ok kind jsn a }
{
    match kind {
        Kind::Genesis => a == 0,
        Kind::Content => true,
        Kind::Member => FIRST_MEMBER <= a && a < MEMBER_LIMIT as u64,
        Kind::Time => a < NOTARY_LIMIT,
        Kind::Occult => a < jsn,
        Kind::Purge => 0 < a && a < jsn,
        Kind::ClueOccult => 0 < a && a <= u32::MAX as u64,
    }
}

pub(crate) fn b_ok(kind: Kind, b: u64) -> bool
    ensures { result ≡ rule.b_ok kind b }
{
    match kind {
        Kind::Time => true,
        _ => b == 0,
    }
}

pub(crate) fn content_len_ok(kind: Kind, content_len: u32) -> bool
    ensures { result ≡ rule.content_len_ok kind content_len }
{
    match kind {
        Kind::Genesis => content_len == GENESIS_CONTENT,
        Kind::Content => content_len <= CONTENT_LIMIT,
        _ => content_len == 0,
    }
}

pub(crate) fn is_kind_in(version: u8, kind: Kind) -> bool
    ensures { result ≡ rule.is_kind_in version kind }
{
    version_of(kind, 0, 0) <= version
}

pub(crate) fn link_ok(kind: Kind, link: &Digest) -> bool
    ensures { result ≡ rule.link_ok kind link.now }
{
    match kind {
        Kind::ClueOccult => !is_no_clue(link),
        _ => true,
    }
}

/// Whether every field keeps its rule.
pub(crate) fn keeps_rules(header: &Header) -> bool
    ensures { IsTrue result ↔ rule.IsHeader header.now }
{
    let Header {
        version,
        kind,
        jsn,
        member,
        clue,
        clue_ord,
        clue_prev,
        a,
        b,
        link,
        content_len,
        ..
    } = *header;
    version_ok(version, kind, a, content_len)
        && jsn_ok(kind, jsn)
        && member_ok(kind, member)
        && clue_ok(kind, &clue)
        && clue_ord_ok(&clue, clue_ord)
        && clue_prev_ok(jsn, clue_ord, clue_prev)
        && a_ok(kind, jsn, a)
        && b_ok(kind, b)
        && link_ok(kind, &link)
        && content_len_ok(kind, content_len)
}
