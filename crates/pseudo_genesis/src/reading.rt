//! Reading a base field by field.

ghost use Rattle.std.specs.Prelude.{◌≡◌, ◌≤◌, ◌<◌, ◌^◌, ◌++◌, [], ◌∷◌, length, IfOk, OnOk};
ghost use Rattle.ledger_bytes.specs.Fields.{ReadsFields};
ghost use Rattle.ledger_bytes.specs.Digests.{zero_digest};
ghost use Rattle.pseudo_genesis.specs.Bases.{is_behind, is_inside};
ghost use Rattle.pseudo_genesis.specs.Reading as reading;

use crate::base::{CLUE_LIMIT, POINT_LIMIT};
use crate::{Base, BaseErr};
use clue_index::ClueState;
use ledger_bytes::{Bad, Digest, FieldReader, Items, MEMBER_LIMIT, NoMemory, check_field};
use std::alloc::Global;

const VERSION: u8 = 1;

/// The base that all the bytes spell.
#[tactic(auto, unfolding(crate::specs::Reading::base_of))]
pub(crate) fn read(alloc: Global, bytes: &[u8]) -> Result<Base, BaseErr>
    ensures { reading.ReadsBase result (reading.base_of bytes.now) }
{
    let mut reader = FieldReader::new(bytes);
    let base = take_base(alloc, &mut reader)?;
    reader.end()?;
    Ok(base)
}

#[tactic(auto, unfolding(crate::specs::Reading::base_at))]
fn take_base(alloc: Global, reader: &mut FieldReader) -> Result<Base, BaseErr>
    ensures { reading.TakesBase result reader.new (reading.base_at reader.old) }
{
    let (id, point, blocks) = take_front(reader)?;
    let count = point.count_ones();
    let peaks = take_digests(alloc, reader, count)?;
    let members_place = 49 + 32 * u64::from(count);
    let keys = take_keys(alloc, reader, members_place)?;
    let clues_place = members_place + 2 + 32 * keys.as_slice().len() as u64;
    let clues = take_clues(alloc, reader, point, clues_place)?;
    Ok(Base {
        id,
        point,
        blocks,
        peaks,
        keys,
        clues,
    })
}

/// The ledger's id, the point and the number of blocks.
#[tactic(auto, unfolding(crate::specs::Reading::base_front_at))]
fn take_front(reader: &mut FieldReader) -> Result<(Digest, u64, u64), Bad>
    ensures { ReadsFields result reader.new (reading.base_front_at reader.old) }
{
    let version = reader.take_u8()?;
    if version != VERSION {
        return Err(Bad::NewerFormat { found: version });
    }
    let id = reader.take_digest()?;
    let point = reader.take_u64()?;
    check_field(1 <= point && point <= POINT_LIMIT, 33)?;
    let blocks = reader.take_u64()?;
    check_field(1 <= blocks && blocks <= point, 41)?;
    Ok((id, point, blocks))
}

fn take_digests(
    alloc: Global,
    reader: &mut FieldReader,
    count: u32,
) -> Result<Items<Digest>, BaseErr>
    ensures digests { reading.TakesBase result reader.new (reading.digests_at count reader.old) }
    ensures number { IfOk result (λ digests. length digests ≡ count) }
{
    let mut digests = Vec::new(alloc);
    for _ in 0..count {
        let digest = reader.take_digest()?;
        keep(&mut digests, digest)?;
    }
    Ok(Items::of(digests))
}

/// Keys behind their count, which stands at this place.
#[tactic(auto, unfolding(crate::specs::Reading::keys_at))]
fn take_keys(alloc: Global, reader: &mut FieldReader, at: u64) -> Result<Items<Digest>, BaseErr>
    ensures keys { reading.TakesBase result reader.new (reading.keys_at at reader.old) }
    ensures few { IfOk result (λ keys. length keys ≤ MEMBER_LIMIT) }
{
    let count = u32::from(reader.take_u16()?);
    check_field(2 <= count && count <= MEMBER_LIMIT, at)?;
    take_digests(alloc, reader, count)
}

/// The states of clues behind their count, which stands at this place.
#[tactic(auto, unfolding(crate::specs::Reading::clues_at))]
fn take_clues(
    alloc: Global,
    reader: &mut FieldReader,
    point: u64,
    at: u64,
) -> Result<Items<ClueState>, BaseErr>
    requires { at < 2 ^ 40 }
    ensures { reading.TakesBase result reader.new (reading.clues_at point at reader.old) }
{
    let count = reader.take_u32()?;
    check_field(count <= CLUE_LIMIT, at)?;
    take_states(alloc, reader, point, count, at + 4)
}

/// The states of that many clues, of which the first stands at this place.
fn take_states(
    alloc: Global,
    reader: &mut FieldReader,
    point: u64,
    count: u32,
    at: u64,
) -> Result<Items<ClueState>, BaseErr>
    requires { at < 2 ^ 41 }
    ensures { reading.TakesBase result reader.new
        (reading.states_at point count (record { clue = zero_digest; place = at }) reader.old) }
{
    let mut states = Vec::new(alloc);
    let mut before = Digest::ZERO;
    for i in 0..count {
        let state = take_state(reader, point, &before, at + 44 * u64::from(i))?;
        keep(&mut states, state)?;
        before = state.clue;
    }
    Ok(Items::of(states))
}

/// The state of a clue behind another, which stands at this place.
#[tactic(auto, unfolding(crate::specs::Reading::state_at))]
fn take_state(
    reader: &mut FieldReader,
    point: u64,
    before: &Digest,
    at: u64,
) -> Result<ClueState, Bad>
    requires { at < 2 ^ 63 }
    ensures { ReadsFields result reader.new
        (reading.state_at point (record { clue = before.now; place = at }) reader.old) }
{
    let clue = reader.take_digest()?;
    check_field(is_behind(before, &clue), at)?;
    let count = reader.take_u32()?;
    check_field(is_inside(point, u64::from(count)), at + 32)?;
    let last = reader.take_u64()?;
    check_field(is_inside(point, last), at + 36)?;
    Ok(ClueState { clue, count, last })
}

/// A clue stands behind another by its bytes.
fn is_behind(before: &Digest, clue: &Digest) -> bool
    ensures { result ≡ is_behind before.now clue.now }
{
    before.0.cmp(&clue.0).is_lt()
}

/// A count of journals, or the number of one, that isn't journal 0 and stands below the point.
fn is_inside(point: u64, n: u64) -> bool
    ensures { result ≡ is_inside point n }
{
    1 <= n && n < point
}

/// Keeps one value more.
fn keep<T: Drop>(kept: &mut Vec<T>, value: T) -> Result<(), NoMemory>
    ensures ok { OnOk result (kept.new.items ≡ kept.old.items ++ value ∷ []) }
{
    Ok(kept.push(value)?)
}
