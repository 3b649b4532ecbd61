//! Reading a line of a script: its lane, its verb, and the fields that the verb has.

ghost use Rattle.std.specs.Prelude.{◌≡◌, ◌≤◌, true, IfOk, IfSome};
ghost use Rattle.script_lines.specs.Grammar.{append_at, member_at, anchor_at, occult_at, clue_occult_at, purge_at, get_at, prove_at, extend_at, clue_at, head_at, asked_by, lane_of, lane_or_zero, spoken_line};
ghost use Rattle.script_lines.specs.Fields.{field_at};
ghost use Rattle.script_lines.specs.Reading.{ReadsLine, fits_read};
ghost use Rattle.script_lines.specs.Spellings.{text_of};

use crate::fields::Fields;
use crate::line::Line;
use crate::spoken::Spoken;
use crate::stop::Stop;
use ledger_bytes::{CONTENT_LIMIT, NoMemory, PROOF_LIMIT, Refusal};
use std::alloc::Global;

/// How many lanes are served, from 0 on.
const LANES: u8 = 8;

/// Reads a line, without its newline. Fields stand around single spaces. The first is the lane, then comes the verb, and
/// then the verb's fields. A number is decimal digits without a leading zero; bytes are `-` for none or two hexadecimal
/// digits each, of either case. A line whose lane isn't served belongs to lane 0.
#[tactic(auto, unfolding(crate::specs::Grammar::spoken_line))]
pub fn read_line(alloc: Global, line: &[u8]) -> Result<Spoken, NoMemory>
    ensures { IfOk result (λ s. (s.lane, s.what) ≡ spoken_line line.now) }
{
    let mut fields = Fields::of(line);
    let lane = match fields.text() {
        Ok(text) => read_lane(text),
        Err(_) => None,
    };
    let Some(lane) = lane else {
        return Ok(Spoken {
            lane: 0,
            what: Err(Refusal::BadLane),
        });
    };
    match read_asked(alloc, fields) {
        Ok(line) => Ok(Spoken {
            lane,
            what: Ok(line),
        }),
        Err(Stop::Refused(refusal)) => Ok(Spoken {
            lane,
            what: Err(refusal),
        }),
        Err(Stop::NoMemory) => Err(NoMemory),
    }
}

/// The lane that a line belongs to, 0 to 7. It looks at the first two bytes alone.
#[tactic(auto, using(crate::proofs::LaneLaws::lane_of_one, crate::proofs::LaneLaws::lane_of_two, crate::proofs::LaneLaws::lane_of_none, crate::proofs::LaneLaws::lane_of_more))]
pub fn lane_of_line(line: &[u8]) -> u8
    ensures lane { result ≡ (spoken_line line.now).0 }
    ensures in_range { result ≤ 7 }
{
    match line {
        [digit] => lane_or_zero(*digit),
        [digit, b' ', ..] => lane_or_zero(*digit),
        _ => 0,
    }
}

fn lane_or_zero(digit: u8) -> u8
    ensures lane { result ≡ lane_or_zero digit }
    ensures in_range { result ≤ 7 }
{
    if digit >= b'0' && digit < b'0' + LANES {
        digit - b'0'
    } else {
        0
    }
}

fn read_lane(text: &[u8]) -> Option<u8>
    ensures lane { result ≡ lane_of text.now }
    ensures in_range { IfSome result (λ lane. lane ≤ 7) }
{
    match text {
        [digit] if *digit >= b'0' && *digit < b'0' + LANES => Some(*digit - b'0'),
        _ => None,
    }
}

fn read_asked(alloc: Global, mut fields: Fields) -> Result<Line, Stop>
    ensures reads { ReadsLine result (asked_by (field_at text_of fields.entry)) }
    ensures fits { fits_read result ≡ true }
{
    let Ok(verb) = fields.text() else {
        return Err(Stop::Refused(Refusal::BadVerb));
    };
    if verb == b"append".as_slice() {
        read_append(alloc, fields)
    } else if verb == b"member".as_slice() {
        read_member(alloc, fields)
    } else if verb == b"anchor".as_slice() {
        read_anchor(fields)
    } else if verb == b"occult".as_slice() {
        read_occult(alloc, fields)
    } else if verb == b"occultclue".as_slice() {
        read_clue_occult(alloc, fields)
    } else if verb == b"purge".as_slice() {
        read_purge(alloc, fields)
    } else if verb == b"get".as_slice() {
        read_get(fields)
    } else if verb == b"prove".as_slice() {
        read_prove(fields)
    } else if verb == b"extend".as_slice() {
        read_extend(fields)
    } else if verb == b"clue".as_slice() {
        read_clue(alloc, fields)
    } else if verb == b"head".as_slice() {
        read_head(fields)
    } else {
        Err(Stop::Refused(Refusal::BadVerb))
    }
}

#[tactic(auto, unfolding(crate::specs::Grammar::append_at))]
fn read_append(alloc: Global, mut fields: Fields) -> Result<Line, Stop>
    ensures reads { ReadsLine result (append_at fields.entry) }
    ensures fits { fits_read result ≡ true }
{
    let member = fields.number(u64::from(u32::MAX))?;
    let clue = fields.clue(alloc)?;
    let content = fields.bytes(alloc, CONTENT_LIMIT as usize)?;
    let proof = fields.bytes(alloc, PROOF_LIMIT)?;
    let number = fields.request_number()?;
    fields.end()?;
    Ok(Line::Append {
        member: member as u32,
        clue,
        content,
        proof,
        number,
    })
}

#[tactic(auto, unfolding(crate::specs::Grammar::member_at))]
fn read_member(alloc: Global, mut fields: Fields) -> Result<Line, Stop>
    ensures reads { ReadsLine result (member_at fields.entry) }
    ensures fits { fits_read result ≡ true }
{
    let number = fields.number(u64::from(u32::MAX))?;
    let key = fields.digest()?;
    let proof = fields.bytes(alloc, PROOF_LIMIT)?;
    fields.end()?;
    Ok(Line::NewMember {
        number: number as u32,
        key,
        proof,
    })
}

#[tactic(auto, unfolding(crate::specs::Grammar::anchor_at))]
fn read_anchor(fields: Fields) -> Result<Line, Stop>
    ensures reads { ReadsLine result (anchor_at fields.entry) }
    ensures fits { fits_read result ≡ true }
{
    fields.end()?;
    Ok(Line::Anchor)
}

#[tactic(auto, unfolding(crate::specs::Grammar::occult_at))]
fn read_occult(alloc: Global, mut fields: Fields) -> Result<Line, Stop>
    ensures reads { ReadsLine result (occult_at fields.entry) }
    ensures fits { fits_read result ≡ true }
{
    let target = fields.number(u64::MAX)?;
    let leaf = fields.digest()?;
    let given = fields.approvals(alloc)?;
    fields.end()?;
    Ok(Line::Occult {
        target,
        leaf,
        given,
    })
}

#[tactic(auto, unfolding(crate::specs::Grammar::clue_occult_at))]
fn read_clue_occult(alloc: Global, mut fields: Fields) -> Result<Line, Stop>
    ensures reads { ReadsLine result (clue_occult_at fields.entry) }
    ensures fits { fits_read result ≡ true }
{
    let name = fields.clue(alloc)?;
    let count = fields.count()?;
    let given = fields.approvals(alloc)?;
    fields.end()?;
    Ok(Line::OccultClue { name, count, given })
}

#[tactic(auto, unfolding(crate::specs::Grammar::purge_at))]
fn read_purge(alloc: Global, mut fields: Fields) -> Result<Line, Stop>
    ensures reads { ReadsLine result (purge_at fields.entry) }
    ensures fits { fits_read result ≡ true }
{
    let point = fields.number(u64::MAX)?;
    let root = fields.digest()?;
    let given = fields.approvals(alloc)?;
    fields.end()?;
    Ok(Line::Purge { point, root, given })
}

#[tactic(auto, unfolding(crate::specs::Grammar::get_at))]
fn read_get(mut fields: Fields) -> Result<Line, Stop>
    ensures reads { ReadsLine result (get_at fields.entry) }
    ensures fits { fits_read result ≡ true }
{
    let n = fields.number(u64::MAX)?;
    fields.end()?;
    Ok(Line::Get { n })
}

#[tactic(auto, unfolding(crate::specs::Grammar::prove_at))]
fn read_prove(mut fields: Fields) -> Result<Line, Stop>
    ensures reads { ReadsLine result (prove_at fields.entry) }
    ensures fits { fits_read result ≡ true }
{
    let n = fields.number(u64::MAX)?;
    fields.end()?;
    Ok(Line::Prove { n })
}

#[tactic(auto, unfolding(crate::specs::Grammar::extend_at))]
fn read_extend(mut fields: Fields) -> Result<Line, Stop>
    ensures reads { ReadsLine result (extend_at fields.entry) }
    ensures fits { fits_read result ≡ true }
{
    let which = fields.which()?;
    let m = fields.number(u64::MAX)?;
    fields.end()?;
    Ok(Line::Extend { which, m })
}

#[tactic(auto, unfolding(crate::specs::Grammar::clue_at))]
fn read_clue(alloc: Global, mut fields: Fields) -> Result<Line, Stop>
    ensures reads { ReadsLine result (clue_at fields.entry) }
    ensures fits { fits_read result ≡ true }
{
    let name = fields.clue(alloc)?;
    fields.end()?;
    Ok(Line::Clue { name })
}

#[tactic(auto, unfolding(crate::specs::Grammar::head_at))]
fn read_head(fields: Fields) -> Result<Line, Stop>
    ensures reads { ReadsLine result (head_at fields.entry) }
    ensures fits { fits_read result ≡ true }
{
    fields.end()?;
    Ok(Line::Head)
}
