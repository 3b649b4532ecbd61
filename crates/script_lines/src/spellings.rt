//! How numbers, bytes, digests, names, approvals and time marks are read from a text.

ghost use Rattle.std.specs.Prelude.{◌≡◌, ◌≤◌, ◌↔◌, length, option_map, All, IsTrue, IfOk, IfSome, IsSome};
ghost use Rattle.std.specs.Char.{is_ascii_digit, is_ascii_hexdigit};
ghost use Rattle.std.specs.List.{list_all};
ghost use Rattle.script_lines.specs.Spellings.{is_decimal, number_of, request_number_of, count_of, bytes_of, digest_of, clue_of, name_of, which_of, approval_of, approvals_of, mark_of};

use crate::said::{SaidApproval, Which};
use crate::splits::{cut, split_once};
use hex::{FromHex, FromHexError};
use ledger_bytes::{
    APPROVAL_LIMIT, Bytes, Digest, Items, NAME_LIMIT, NoMemory, PROOF_LIMIT, TimeMark,
};
use std::alloc::Global;

/// A decimal number without a leading zero, at most `most`; None where the text is no such number.
pub fn read_number(text: &[u8], most: u64) -> Option<u64>
    ensures number { result ≡ number_of most text.now }
    ensures high { IfSome result (λ number. number ≤ most) }
{
    if !is_decimal(text) {
        return None;
    }
    let mut number: u64 = 0;
    for digit in text {
        number = number
            .checked_mul(10)?
            .checked_add(u64::from(*digit - b'0'))?;
        if number > most {
            return None;
        }
    }
    Some(number)
}

/// The number that a member gives a request, from 1 to 2^64 - 1 without a leading zero; None where the text is no such
/// number.
pub fn read_request_number(text: &[u8]) -> Option<u64>
    ensures { result ≡ request_number_of text.now }
{
    match read_number(text, u64::MAX)? {
        0 => None,
        number => Some(number),
    }
}

/// How many records a clue is said to have, from 1 to 2^32 - 1 without a leading zero; None where the text is no such number.
pub fn read_count(text: &[u8]) -> Option<u32>
    ensures { result ≡ count_of text.now }
{
    match read_number(text, u64::from(u32::MAX))? {
        0 => None,
        count => Some(count as u32),
    }
}

fn is_decimal(text: &[u8]) -> bool
    ensures { result ≡ is_decimal text.now }
{
    !text.is_empty() && has_digits_alone(text) && (text.len() == 1 || text[0] != b'0')
}

fn has_digits_alone(text: &[u8]) -> bool
    ensures { result ≡ list_all is_ascii_digit text.now }
{
    text.iter().all(|b| b.is_ascii_digit())
}

/// No bytes as `-`, or 1 to `most` bytes as two hexadecimal digits each, of either case; None where the text is of no such
/// form.
pub fn read_bytes(alloc: Global, text: &[u8], most: usize) -> Result<Option<Bytes>, NoMemory>
    ensures bytes { IfOk result (λ read. read ≡ bytes_of most text.now) }
    ensures long { IfOk result (λ read. IfSome read (λ bytes. length bytes ≤ most)) }
{
    if text == b"-".as_slice() {
        return Ok(Some(Bytes::of(Vec::new(alloc))));
    }
    if text.len() < 2 || text.len() / 2 > most {
        return Ok(None);
    }
    match hex::decode(alloc, text) {
        Ok(bytes) => Ok(Some(Bytes::of(bytes))),
        Err(FromHexError::OutOfMemory) => Err(NoMemory),
        Err(_) => Ok(None),
    }
}

/// Whether the text is bytes as [`read_bytes`] reads them.
pub fn is_bytes(text: &[u8], most: usize) -> bool
    ensures { IsTrue result ↔ IsSome (bytes_of most text.now) }
{
    text == b"-".as_slice()
        || (text.len() >= 2
            && text.len() % 2 == 0
            && text.len() / 2 <= most
            && has_hex_digits_alone(text))
}

fn has_hex_digits_alone(text: &[u8]) -> bool
    ensures { result ≡ list_all is_ascii_hexdigit text.now }
{
    text.iter().all(|b| b.is_ascii_hexdigit())
}

/// A digest as 64 hexadecimal digits of either case; None where the text is no such digest.
pub fn read_digest(text: &[u8]) -> Option<Digest>
    ensures { result ≡ digest_of text.now }
{
    Some(Digest(<[u8; 32] as FromHex>::from_hex(text).ok()?))
}

/// A clue's name of 1 to 64 bytes, or no clue as `-`, which is the empty name; None where the text is neither.
pub fn read_clue(text: &[u8]) -> Option<&[u8]>
    ensures clue { option_map (λ name. name.now) result ≡ clue_of text.now }
    ensures long { IfSome result (λ name. length name.now ≤ NAME_LIMIT) }
{
    if text == b"-".as_slice() {
        Some(b"")
    } else {
        read_name(text)
    }
}

/// A name of 1 to 64 bytes; None where the text has another length.
pub fn read_name(text: &[u8]) -> Option<&[u8]>
    ensures name { option_map (λ name. name.now) result ≡ name_of text.now }
    ensures long { IfSome result (λ name. length name.now ≤ NAME_LIMIT) }
{
    if (1..=NAME_LIMIT).contains(&text.len()) {
        Some(text)
    } else {
        None
    }
}

pub(crate) fn read_which(text: &[u8]) -> Option<Which>
    ensures { result ≡ which_of text.now }
{
    if text == b"ledger".as_slice() {
        Some(Which::Ledger)
    } else if text == b"notary".as_slice() {
        Some(Which::Notary)
    } else {
        None
    }
}

fn read_approval(alloc: Global, text: &[u8]) -> Result<Option<SaidApproval>, NoMemory>
    ensures approval { IfOk result (λ read. read ≡ approval_of text.now) }
    ensures long { IfOk result (λ read. IfSome read (λ approval. length approval.proof
        ≤ PROOF_LIMIT)) }
{
    let Some((member, proof)) = split_once(text, b':') else {
        return Ok(None);
    };
    if let Some(_) = split_once(proof, b':') {
        return Ok(None);
    }
    let Some(member) = read_number(member, u64::from(u32::MAX)) else {
        return Ok(None);
    };
    let Some(proof) = read_bytes(alloc, proof, PROOF_LIMIT)? else {
        return Ok(None);
    };
    Ok(Some(SaidApproval {
        member: member as u32,
        proof,
    }))
}

pub(crate) fn read_approvals(
    alloc: Global,
    text: &[u8],
) -> Result<Option<Items<SaidApproval>>, NoMemory>
    ensures approvals { IfOk result (λ read. read ≡ approvals_of text.now) }
    ensures few { IfOk result (λ read. IfSome read (λ given. length given ≤ APPROVAL_LIMIT)) }
    ensures long { IfOk result (λ read. IfSome read (All (λ approval. length approval.proof
        ≤ PROOF_LIMIT))) }
{
    let mut given = Vec::new(alloc);
    if text == b"-".as_slice() {
        return Ok(Some(Items::of(given)));
    }
    let mut left = Some(text);
    while let Some(text) = left {
        if given.len() == APPROVAL_LIMIT {
            return Ok(None);
        }
        let (item, rest) = cut(text, b',');
        let Some(approval) = read_approval(alloc, item)? else {
            return Ok(None);
        };
        given.push(approval)?;
        left = rest;
    }
    Ok(Some(Items::of(given)))
}

pub(crate) fn read_mark(text: &[u8]) -> Option<Option<TimeMark>>
    ensures { result ≡ mark_of text.now }
{
    if text == b"-".as_slice() {
        return Some(None);
    }
    let (jsn, rest) = split_once(text, b':')?;
    let (index, time) = split_once(rest, b':')?;
    if let Some(_) = split_once(time, b':') {
        return None;
    }
    Some(Some(TimeMark {
        jsn: read_number(jsn, u64::MAX)?,
        index: read_number(index, u64::MAX)?,
        time: read_number(time, u64::MAX)?,
    }))
}
