//! Reading a proof field by field.

ghost use Rattle.std.specs.Prelude.{◌≡◌, ◌≤◌, length, IfOk};
ghost use Rattle.ledger_bytes.specs.Fields.{ReadsFields};
ghost use Rattle.proof_codec.specs.Proofs.{lower_len, HasShortLower};
ghost use Rattle.proof_codec.specs.Reading as reading;

use crate::proof::PROOF_LIMIT;
use crate::{Lower, Proof, Upper};
use journal_record::{Header, Kind, take_header};
use ledger_bytes::{Bad, Digest, FieldReader, TimeMark, check_field};

const VERSION: u8 = 1;

/// The proof that all the bytes spell.
#[tactic(auto, unfolding(crate::specs::Reading::proof_of))]
pub(crate) fn read(bytes: &[u8]) -> Result<Proof<'_>, Bad>
    ensures { result ≡ reading.proof_of bytes.now }
{
    if bytes.len() > PROOF_LIMIT {
        return Err(Bad::TooLong);
    }
    let mut reader = FieldReader::new(bytes);
    let proof = take_proof(&mut reader)?;
    reader.end()?;
    Ok(proof)
}

#[tactic(auto, unfolding(crate::specs::Reading::proof_at))]
fn take_proof<'a>(reader: &mut FieldReader<'a>) -> Result<Proof<'a>, Bad>
    ensures { ReadsFields result reader.new (reading.proof_at reader.old) }
{
    let (size, n, leaf, path) = take_front(reader)?;
    let lo_flag = 50 + path.len() as u64;
    let lo = take_lower(reader, lo_flag)?;
    let hi = take_upper(reader, lo_flag + len_of(&lo))?;
    let notary_size = take_size(reader, lo.is_some() || hi.is_some())?;
    let lo_path = take_path(reader, lo.is_some())?;
    let hi_path = take_path(reader, hi.is_some())?;
    Ok(Proof {
        size,
        n,
        leaf,
        path,
        lo,
        hi,
        notary_size,
        lo_path,
        hi_path,
    })
}

/// The ledger's size, the journal's number, its leaf and its path.
#[tactic(auto, unfolding(crate::specs::Reading::front_at))]
fn take_front<'a>(reader: &mut FieldReader<'a>) -> Result<(u64, u64, Digest, &'a [u8]), Bad>
    ensures front { reading.ReadsSeen (λ x. (x.0, x.1, x.2, x.3.now)) result reader.new
        (reading.front_at reader.old) }
    ensures few { IfOk result (λ x. length x.3.now ≤ 8160) }
{
    let version = reader.take_u8()?;
    check_field(version == VERSION, 0)?;
    let size = reader.take_u64()?;
    let n = reader.take_u64()?;
    let leaf = reader.take_digest()?;
    let path = take_digests(reader)?;
    Ok((size, n, leaf, path))
}

/// Digests behind their count.
#[tactic(auto, unfolding(crate::specs::Reading::digests_at))]
fn take_digests<'a>(reader: &mut FieldReader<'a>) -> Result<&'a [u8], Bad>
    ensures digests { reading.ReadsSeen (λ x. x.now) result reader.new (reading.digests_at reader.old) }
    ensures few { IfOk result (λ x. length x.now ≤ 8160) }
{
    let count = reader.take_u8()?;
    reader.take_slice(32 * count as usize)
}

/// The flag of a bound: is it there?
#[tactic(auto, unfolding(crate::specs::Reading::flag_at))]
fn take_flag(reader: &mut FieldReader, at: u64) -> Result<bool, Bad>
    ensures { ReadsFields result reader.new (reading.flag_at at reader.old) }
{
    let flag = reader.take_u8()?;
    check_field(flag <= 1, at)?;
    Ok(flag == 1)
}

/// A lower bound behind its flag, which stands at this place.
#[tactic(auto, unfolding(crate::specs::Reading::lower_at))]
fn take_lower<'a>(reader: &mut FieldReader<'a>, at: u64) -> Result<Option<Lower<'a>>, Bad>
    requires { at ≤ 8210 }
    ensures lower { ReadsFields result reader.new (reading.lower_at at reader.old) }
    ensures few { IfOk result HasShortLower }
{
    if take_flag(reader, at)? {
        take_some_lower(reader, at + 1)
    } else {
        Ok(None)
    }
}

/// A lower bound, whose header stands at this place.
#[tactic(auto, unfolding(crate::specs::Reading::some_lower_at))]
fn take_some_lower<'a>(reader: &mut FieldReader<'a>, at: u64) -> Result<Option<Lower<'a>>, Bad>
    ensures lower { ReadsFields result reader.new (reading.some_lower_at at reader.old) }
    ensures few { IfOk result HasShortLower }
{
    let header = take_time(reader, at)?;
    let path = take_digests(reader)?;
    let root = reader.take_digest()?;
    let ext = take_digests(reader)?;
    Ok(Some(Lower {
        header,
        path,
        root,
        ext,
    }))
}

/// The header of a time journal, which stands at this place.
#[tactic(auto, unfolding(crate::specs::Reading::time_at))]
fn take_time(reader: &mut FieldReader, at: u64) -> Result<Header, Bad>
    ensures { ReadsFields result reader.new (reading.time_at at reader.old) }
{
    let header = header_break(take_header(reader), at)?;
    check_field(is_time(header.kind), at)?;
    Ok(header)
}

/// How a header at this place breaks.
fn header_break(read: Result<Header, Bad>, at: u64) -> Result<Header, Bad>
    ensures { result ≡ reading.header_break at read }
{
    match read {
        Ok(header) => Ok(header),
        Err(Bad::Short { at: whole }) => Err(Bad::Short { at: whole }),
        Err(_) => Err(Bad::BadFixedField { at }),
    }
}

fn is_time(kind: Kind) -> bool
    ensures { result ≡ reading.is_time kind }
{
    matches!(kind, Kind::Time)
}

/// How many bytes a lower bound has with its flag.
fn len_of(lower: &Option<Lower>) -> u64
    requires { HasShortLower lower.now }
    ensures { result ≡ lower_len lower.now }
{
    match lower {
        None => 1,
        Some(lower) => 209 + lower.path.len() as u64 + lower.ext.len() as u64,
    }
}

/// An upper bound behind its flag, which stands at this place.
#[tactic(auto, unfolding(crate::specs::Reading::upper_at))]
fn take_upper<'a>(reader: &mut FieldReader<'a>, at: u64) -> Result<Option<Upper<'a>>, Bad>
    ensures { ReadsFields result reader.new (reading.upper_at at reader.old) }
{
    if take_flag(reader, at)? {
        take_some_upper(reader)
    } else {
        Ok(None)
    }
}

#[tactic(auto, unfolding(crate::specs::Reading::some_upper_at))]
fn take_some_upper<'a>(reader: &mut FieldReader<'a>) -> Result<Option<Upper<'a>>, Bad>
    ensures { ReadsFields result reader.new (reading.some_upper_at reader.old) }
{
    let mark = take_mark(reader)?;
    let salt = reader.take_digest()?;
    let root = reader.take_digest()?;
    let ext = take_digests(reader)?;
    Ok(Some(Upper {
        mark,
        salt,
        root,
        ext,
    }))
}

#[tactic(auto, unfolding(crate::specs::Reading::mark_at))]
fn take_mark(reader: &mut FieldReader) -> Result<TimeMark, Bad>
    ensures { ReadsFields result reader.new (reading.mark_at reader.old) }
{
    let jsn = reader.take_u64()?;
    let index = reader.take_u64()?;
    let time = reader.take_u64()?;
    Ok(TimeMark { jsn, index, time })
}

/// The size of the notary's list, where there is a bound.
#[tactic(auto, unfolding(crate::specs::Reading::size_if))]
fn take_size(reader: &mut FieldReader, is_bounded: bool) -> Result<u64, Bad>
    ensures { ReadsFields result reader.new (reading.size_if is_bounded reader.old) }
{
    if is_bounded { reader.take_u64() } else { Ok(0) }
}

/// The path of a bound's entry, where it is there.
#[tactic(auto, unfolding(crate::specs::Reading::path_if))]
fn take_path<'a>(reader: &mut FieldReader<'a>, is_there: bool) -> Result<&'a [u8], Bad>
    ensures { reading.ReadsSeen (λ x. x.now) result reader.new (reading.path_if is_there reader.old) }
{
    if is_there {
        take_digests(reader)
    } else {
        Ok(&[])
    }
}
