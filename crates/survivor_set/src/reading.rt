//! Reading a set of survivors from its bytes.

ghost use Rattle.std.specs.Prelude.{◌≡◌, ◌≤◌, ◌<◌, ◌^◌, ◌-◌, ℕ, List, None, length, slice_get, Ok, IfOk, IfSome};
ghost use Rattle.ledger_bytes.specs.Fields.{IsBytes, Unread, ReadsFields, end_at, left_from};
ghost use Rattle.survivor_set.specs.Sets.{Saved, IsSaved, is_low};
ghost use Rattle.survivor_set.specs.Reading as reading;
ghost use Rattle.survivor_set.specs.Reading.{from_place, survivors_in};
ghost use Rattle.journal_record.specs.Items.{item_at};
ghost use Rattle.survivor_set.specs.Steps.{IsFrontOf, IsNearBad, ReadsTo, EndsAt, ReadsFront};

use crate::{SURVIVOR_LIMIT, Survivor};
use journal_record::{Record, take_record};
use ledger_bytes::{Bad, Digest, FieldReader, check_field};

// The bytes with which each set begins.
pub(crate) const MAGIC: [u8; 8] = *b"LDGSURV1";

// Where the count stands.
const COUNT_PLACE: u64 = 80;

// Where the survivors begin.
const FRONT_LEN: usize = 81;

// The first bytes of a journal, up to the end of its number.
const NUMBER_END: usize = 10;

/// What a set begins with.
#[derive(Drop)]
pub(crate) struct Front {
    pub(crate) id: Digest,
    pub(crate) point: u64,
    pub(crate) root: Digest,
    pub(crate) count: u8,
}

/// The front of the set that all the bytes spell.
pub(crate) fn read(bytes: &[u8]) -> Result<Front, Bad>
    ensures { ReadsFront bytes.now result }
{
    let (front, at) = read_front(bytes)?;
    let end = read_survivors(bytes, at, None, front.count)?;
    check_end(bytes, end)?;
    Ok(front)
}

// The fields in front of the survivors, and where these begin.
fn read_front(bytes: &[u8]) -> Result<(Front, usize), Bad>
    ensures { ReadsTo bytes.now result (reading.front_at (left_from (length bytes.now) bytes.now)) }
{
    let mut reader = FieldReader::new(bytes);
    let front = take_front(&mut reader)?;
    Ok((front, place(&reader, bytes.len())))
}

// The fields in front of the survivors.
#[tactic(auto, unfolding(crate::specs::Reading::front_at))]
fn take_front(reader: &mut FieldReader) -> Result<Front, Bad>
    ensures { ReadsFields result reader.new (reading.front_at reader.old) }
{
    let magic = reader.take_slice(MAGIC.len())?;
    check_field(magic == MAGIC.as_slice(), 0)?;
    let id = reader.take_digest()?;
    let point = reader.take_u64()?;
    let root = reader.take_digest()?;
    let count = reader.take_u8()?;
    check_field(1 <= count && count <= SURVIVOR_LIMIT, COUNT_PLACE)?;
    Ok(Front {
        id,
        point,
        root,
        count,
    })
}

// Where a reader stands in an input of this length.
fn place(reader: &FieldReader, whole: usize) -> usize
    requires { reader.now.whole ≡ whole }
    ensures { result ≡ whole - length reader.now.rest }
{
    match reader.end() {
        Err(Bad::Trailing { at }) => at as usize,
        _ => whole,
    }
}

// Where so many survivors end, of which the first begins at a place, behind a journal with the last number.
fn read_survivors(bytes: &[u8], at: usize, last: Option<u64>, count: u8) -> Result<usize, Bad>
    requires { at ≤ length bytes.now }
    ensures { EndsAt bytes.now result (reading.survivors_at count last (from_place at bytes.now)) }
{
    if count == 0 {
        return Ok(at);
    }
    let (survivor, next) = next_survivor(bytes, at, last)?;
    read_survivors(bytes, next, Some(survivor.number()), count - 1)
}

// The survivor that begins at a place, behind a journal with the last number, and where it ends.
fn next_survivor<'a>(
    bytes: &'a [u8],
    at: usize,
    last: Option<u64>,
) -> Result<(Survivor<'a>, usize), Bad>
    requires { at ≤ length bytes.now }
    ensures read { ReadsTo bytes.now result (reading.survivor_at last (from_place at bytes.now)) }
    ensures saved { IfOk result (λ x. IsSaved x.0) }
{
    let low = shows_low(&bytes[at..], last);
    let mut reader = FieldReader::new(bytes);
    reader.take_slice(at)?;
    let survivor = take_survivor(&mut reader, at as u64, low)?;
    Ok((survivor, place(&reader, bytes.len())))
}

// Whether the next journal's number is there, and isn't above the last one's.
fn shows_low(ahead: &[u8], last: Option<u64>) -> bool
    ensures { result ≡ reading.shows_low last ahead.now }
{
    if ahead.len() < NUMBER_END {
        return false;
    }
    let mut number = [0; 8];
    number.copy_from_slice(&ahead[2..NUMBER_END]);
    is_low(last, u64::from_be_bytes(number))
}

// A journal's number isn't above the last one's.
fn is_low(last: Option<u64>, n: u64) -> bool
    ensures { result ≡ is_low last n }
{
    match last {
        Some(last) => n <= last,
        None => false,
    }
}

// The survivor that begins at a place, where its number is in order.
#[tactic(auto, unfolding(crate::specs::Reading::saved_at))]
fn take_survivor<'a>(reader: &mut FieldReader<'a>, at: u64, low: bool) -> Result<Survivor<'a>, Bad>
    requires place { at < 2 ^ 63 }
    requires bytes { IsBytes reader.now.rest }
    ensures { ReadsFields result reader.new (reading.saved_at at low reader.old) }
{
    let item = take_item(reader, at, low)?;
    let count = reader.take_u8()?;
    let path = reader.take_slice(usize::from(count) * 32)?;
    Ok(Survivor { item, path })
}

// The journal that begins at a place, where its number is in order.
fn take_item<'a>(reader: &mut FieldReader<'a>, at: u64, low: bool) -> Result<Record<'a>, Bad>
    requires place { at < 2 ^ 63 }
    requires bytes { IsBytes reader.now.rest }
    ensures { ReadsFields result reader.new (reading.in_order at low (item_at reader.old)) }
{
    match take_record(reader) {
        Ok(_) if low => Err(Bad::BadFixedField { at: at + 2 }),
        Ok(item) => Ok(item),
        Err(bad) => Err(break_at(at, low, bad)),
    }
}

// How a journal that begins at a place breaks.
fn break_at(at: u64, low: bool, bad: Bad) -> Bad
    requires place { at < 2 ^ 63 }
    requires near { IsNearBad (2 ^ 33) bad }
    ensures { result ≡ reading.break_at at low bad }
{
    match bad {
        Bad::NewerFormat { .. } | Bad::BadKind { .. } => bad,
        Bad::BadFixedField { .. } | Bad::Short { .. } if low => Bad::BadFixedField { at: at + 2 },
        Bad::BadFixedField { at: place } => Bad::BadFixedField { at: at + place },
        Bad::Short { .. } | Bad::Trailing { .. } | Bad::TooLong => bad,
    }
}

// Nothing stands behind this place.
fn check_end(bytes: &[u8], at: usize) -> Result<(), Bad>
    requires { at ≤ length bytes.now }
    ensures { result ≡ end_at tt (from_place at bytes.now) }
{
    if at < bytes.len() {
        Err(Bad::Trailing { at: at as u64 })
    } else {
        Ok(())
    }
}

/// The survivor with a place among those of a set.
pub(crate) fn survivor(bytes: &[u8], i: u8) -> Option<Survivor<'_>>
    requires { (front : Front) × IsFrontOf front bytes.now × (i < front.count) }
    ensures is { result ≡ slice_get (survivors_in bytes.now) i }
    ensures saved { IfSome result IsSaved }
{
    nth(bytes, FRONT_LEN, None, i)
}

// The survivor with a place among those of which the first begins here, behind a journal with the last number.
fn nth(bytes: &[u8], at: usize, last: Option<u64>, i: u8) -> Option<Survivor<'_>>
    requires { at ≤ length bytes.now }
    ensures is { (count : ℕ) (x : List Saved × Unread)
        → reading.survivors_at count last (from_place at bytes.now) ≡ Ok x
        → i < count → result ≡ slice_get x.0 i }
    ensures saved { IfSome result IsSaved }
{
    let Ok((survivor, next)) = next_survivor(bytes, at, last) else {
        return None;
    };
    if i == 0 {
        return Some(survivor);
    }
    nth(bytes, next, Some(survivor.number()), i - 1)
}
