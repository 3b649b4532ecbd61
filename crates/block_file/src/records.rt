//! The records of a block's body: for each journal its header (174 bytes), who_len (4), the content and the who.

ghost use Rattle.std.specs.Prelude.{◌≡◌, ◌⊎◌, ℕ, ◌+◌, ◌^◌, ◌<◌, ◌≤◌, true, false, length, drop, List, IfOk, IfErr, IfSome, IfNone, Err};
ghost use Rattle.journal_record.specs.Header.{spelling, HasWidths};
ghost use Rattle.journal_record.specs.Reading.{header_of};
ghost use Rattle.journal_record.specs.Rules.{IsHeader};
ghost use Rattle.ledger_bytes.specs.declared.failure.Bad.{Bad};
ghost use Rattle.ledger_bytes.specs.declared.limits.TheConstants.{BLOCK_LIMIT};
ghost use Rattle.journal_record.specs.Records as read;
ghost use Rattle.journal_record.specs.Records.{number_4, next_len, IsBody, BreaksAt};
ghost use Rattle.block_file.specs.Blocks.{records_from, FirstIs, AreBlock, IsBodyErr};
ghost use Rattle.block_file.specs.declared.failure.FileErr.TheVariants as err;
ghost use Rattle.block_file.specs.declared.failure.Damage.TheVariants as damage;
ghost use Rattle.journal_record.specs.Entry.{Entry};
ghost use Rattle.journal_record.specs.Blocks.{body_of};

use crate::{Damage, FileErr, RecordAt};
use journal_record::{Header, WHO_LIMIT};
use std::alloc::Global;

fn number32(bytes: &[u8], at: usize) -> u32
    requires { at + 4 ≤ length bytes.now }
    ensures { result ≡ number_4 at bytes.now }
{
    let (_, rest) = bytes.split_at(at);
    let (front, _) = rest.split_at(4);
    let mut number = [0; 4];
    number.copy_from_slice(front);
    u32::from_be_bytes(number)
}

/// What the next record takes by its own numbers.
fn record_len(body: &[u8]) -> u64
    ensures len { result ≡ next_len body.now }
    ensures most { result ≤ 178 + 2 ^ 32 + 2 ^ 32 }
    ensures some { 178 ≤ result }
{
    if body.len() < 178 {
        return 178;
    }
    178 + u64::from(number32(body, 106)) + u64::from(number32(body, 174))
}

/// Whether the next record goes past the body, or its approvals are too long.
fn breaks(body: &[u8]) -> bool
    ensures { result ≡ read.breaks body.now }
{
    if body.len() < 178 {
        return true;
    }
    record_len(body) > body.len() as u64 || number32(body, 174) > WHO_LIMIT
}

/// What is behind the next record.
fn behind(body: &[u8]) -> &[u8]
    requires { next_len body.now ≤ length body.now }
    ensures { result.now ≡ drop (next_len body.now) body.now }
{
    let (_, rest) = body.split_at(record_len(body) as usize);
    rest
}

/// Whether so many records fill the body.
fn fills(body: &[u8], count: u32) -> bool
    ensures { result ≡ read.fills count body.now }
{
    let mut rest = body;
    let mut left = count;
    while left > 0 {
        if breaks(rest) {
            return false;
        }
        rest = behind(rest);
        left -= 1;
    }
    rest.is_empty()
}

/// The sum of so many records, up to the first that breaks.
fn sum_of(body: &[u8], count: u32) -> u64
    requires { count ≤ BLOCK_LIMIT }
    ensures { result ≡ read.sum_of count body.now }
{
    let mut rest = body;
    let mut left = count;
    let mut sum = 0;
    while left > 0 {
        sum += record_len(rest);
        if breaks(rest) {
            return sum;
        }
        rest = behind(rest);
        left -= 1;
    }
    sum
}

/// The header that these bytes spell. Which field breaks isn't handed on: of a file the journal alone is told.
fn decode_header(bytes: &[u8]) -> Option<Header>
    ensures found { IfSome result (λ h. IsHeader h × HasWidths h × (bytes.now ≡ spelling h)) }
    ensures none { IfNone result ((bad : Bad) × (header_of bytes.now ≡ Err bad)) }
{
    match Header::decode(bytes) {
        Ok(header) => Some(header),
        Err(_) => None,
    }
}

/// Reads the records that fill a body, which stands at this place; its first journal has this number. There is room for
/// all of them from the first on, since the body that they fill is in memory too.
fn read_records(
    alloc: Global,
    body: &[u8],
    count: u32,
    at: u64,
    first: u64,
) -> Result<Vec<RecordAt>, FileErr>
    requires fill { read.fills count body.now ≡ true }
    requires place { at + length body.now < 2 ^ 63 }
    requires number { first + count < 2 ^ 63 }
    ensures ok { IfOk result (λ records. (es : List Entry) × IsBody count body.now es
        × (records.items ≡ records_from at es)) }
    ensures err { IfErr result (λ e. (e ≡ err.NoMemory)
        ⊎ ((n : ℕ) × (e ≡ err.Damaged (damage.Entry (first + n))) × BreaksAt count body.now n)) }
{
    let Ok(mut records) = Vec::with_capacity(alloc, count as usize) else {
        return Err(FileErr::NoMemory);
    };
    let mut rest = body;
    let mut left = count;
    let mut place = at;
    while left > 0 {
        let (bytes, _) = rest.split_at(174);
        let Some(header) = decode_header(bytes) else {
            return Err(FileErr::Damaged(Damage::Entry {
                jsn: first + u64::from(count - left),
            }));
        };
        let len = record_len(rest);
        let content_at = place + 178;
        let record = RecordAt {
            header,
            content_at,
            who_at: content_at + u64::from(header.content_len),
            who_len: number32(rest, 174),
        };
        let Ok(()) = records.push(record) else {
            return Err(FileErr::NoMemory);
        };
        let (_, behind) = rest.split_at(len as usize);
        rest = behind;
        place += len;
        left -= 1;
    }
    Ok(records)
}

/// Whether the first of some journals has this number.
fn begins_with(records: &[RecordAt], first: u64) -> bool
    ensures yes { result ≡ true → FirstIs first records.now }
    ensures no { result ≡ false → FirstIs first records.now → ⊥ }
{
    match records.first() {
        Some(record) => record.header.jsn == first,
        None => true,
    }
}

/// Reads the body of a block, whose gate stands at this place and whose first journal is to have this number.
pub(crate) fn read_body(
    alloc: Global,
    body: &[u8],
    count: u32,
    at: u64,
    first: u64,
) -> Result<Vec<RecordAt>, FileErr>
    requires some { 1 ≤ count }
    requires most { count ≤ BLOCK_LIMIT }
    requires place { at + 45 + length body.now ≤ 2 ^ 62 }
    requires number { first < 2 ^ 32 }
    ensures ok { IfOk result (λ records. (es : List Entry) × AreBlock first es
        × (length es ≡ count) × (body.now ≡ body_of es)
        × (records.items ≡ records_from (at + 45) es)) }
    ensures err { IfErr result (λ e. IsBodyErr at count body.now first e) }
{
    if !fills(body, count) {
        return Err(FileErr::Damaged(Damage::Length {
            at: at + 5,
            kept: body.len() as u64,
            found: sum_of(body, count),
        }));
    }
    let records = match read_records(alloc, body, count, at + 45, first) {
        Ok(records) => records,
        Err(e) => return Err(e),
    };
    if !begins_with(&records, first) {
        return Err(FileErr::Damaged(Damage::Entry { jsn: first }));
    }
    Ok(records)
}
