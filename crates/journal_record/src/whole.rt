//! Reading a whole header at once, as most are: no field of it is missing, and each keeps its rule.

ghost use Rattle.std.specs.Prelude.{◌≡◌, ◌+◌, ◌≤◌, length, take, drop, IfSome};
ghost use Rattle.std.specs.Int.{from_be_bytes, w32, w64};
ghost use Rattle.journal_record.specs.Header.{spelling, HasWidths};
ghost use Rattle.journal_record.specs.Rules.{IsHeader};
ghost use Rattle.journal_record.specs.Rules as rule;

use crate::rules::keeps_rules;
use crate::{HEADER_LEN, Header, Kind};
use ledger_bytes::Digest;

/// The header that all the bytes spell, where it keeps every rule.
pub(crate) fn read_whole(bytes: &[u8]) -> Option<Header>
    ensures { IfSome result (λ h. IsHeader h × HasWidths h × (bytes.now ≡ spelling h)) }
{
    if bytes.len() != HEADER_LEN {
        return None;
    }
    let header = Header {
        version: bytes[0],
        kind: kind_of(bytes[1])?,
        jsn: number_8(bytes, 2),
        member: number_4(bytes, 10),
        clue: digest(bytes, 14),
        clue_ord: number_4(bytes, 46),
        clue_prev: number_8(bytes, 50),
        a: number_8(bytes, 58),
        b: number_8(bytes, 66),
        link: digest(bytes, 74),
        content_len: number_4(bytes, 106),
        content_digest: digest(bytes, 110),
        who_digest: digest(bytes, 142),
    };
    if keeps_rules(&header) {
        Some(header)
    } else {
        None
    }
}

/// The kind that has this code.
pub(crate) fn kind_of(code: u8) -> Option<Kind>
    ensures { result ≡ rule.kind_of code }
{
    match code {
        0 => Some(Kind::Genesis),
        1 => Some(Kind::Content),
        2 => Some(Kind::Member),
        3 => Some(Kind::Time),
        4 => Some(Kind::Occult),
        5 => Some(Kind::Purge),
        6 => Some(Kind::ClueOccult),
        _ => None,
    }
}

// The number of four bytes at a place.
fn number_4(bytes: &[u8], at: usize) -> u32
    requires { at + 4 ≤ length bytes.now }
    ensures { result ≡ from_be_bytes w32 (take 4 (drop at bytes.now)) }
{
    let mut number = [0; 4];
    number.copy_from_slice(&bytes[at..at + 4]);
    u32::from_be_bytes(number)
}

// The number of eight bytes at a place.
fn number_8(bytes: &[u8], at: usize) -> u64
    requires { at + 8 ≤ length bytes.now }
    ensures { result ≡ from_be_bytes w64 (take 8 (drop at bytes.now)) }
{
    let mut number = [0; 8];
    number.copy_from_slice(&bytes[at..at + 8]);
    u64::from_be_bytes(number)
}

// The digest at a place.
fn digest(bytes: &[u8], at: usize) -> Digest
    requires { at + 32 ≤ length bytes.now }
    ensures { result.0 ≡ take 32 (drop at bytes.now) }
{
    let mut digest = [0; 32];
    digest.copy_from_slice(&bytes[at..at + 32]);
    Digest(digest)
}
