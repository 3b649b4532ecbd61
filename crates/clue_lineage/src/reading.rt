//! Reading a lineage field by field.

ghost use Rattle.std.specs.Prelude.{◌≡◌, ◌≤◌, ◌*◌, ◌+◌, length, IfOk};
ghost use Rattle.ledger_bytes.specs.Fields.{ReadsFields};
ghost use Rattle.proof_codec.specs.Reading as proofs;
ghost use Rattle.clue_lineage.specs.Reading as reading;

use crate::item::Item;
use journal_record::{HEADER_LEN, Header, take_header};
use ledger_bytes::{Bad, Digest, FieldReader, check_field};

const VERSION: u8 = 1;

/// Where the first journal of a lineage stands.
pub(crate) const FRONT_LEN: usize = 43;

/// The most journals that a lineage may have.
pub(crate) const ITEM_LIMIT: u16 = 1024;

/// The ledger's size, the clue, and how many journals there are.
#[tactic(auto, unfolding(crate::specs::Reading::front_at))]
pub(crate) fn take_front(reader: &mut FieldReader) -> Result<(u64, Digest, u16), Bad>
    ensures { ReadsFields result reader.new (reading.front_at reader.old) }
{
    let version = reader.take_u8()?;
    check_field(version == VERSION, 0)?;
    let size = reader.take_u64()?;
    let clue = reader.take_digest()?;
    let count = reader.take_u16()?;
    check_field(1 <= count && count <= ITEM_LIMIT, 41)?;
    Ok((size, clue, count))
}

/// Passes over so many journals behind the front.
pub(crate) fn pass_items(reader: &mut FieldReader, count: u16) -> Result<(), Bad>
    ensures { reading.Passes result reader.new (reading.items_at count 43 reader.old) }
{
    let mut at = FRONT_LEN as u64;
    for _ in 0..count {
        let item = take_item(reader, at)?;
        at += (HEADER_LEN + 1 + item.path.len()) as u64;
    }
    Ok(())
}

/// The next journal, which stands at this place.
#[tactic(auto, unfolding(crate::specs::Reading::item_at))]
pub(crate) fn take_item<'a>(reader: &mut FieldReader<'a>, at: u64) -> Result<Item<'a>, Bad>
    ensures item { ReadsFields result reader.new (reading.item_at at reader.old) }
    ensures few { IfOk result (λ item. length item.path ≤ 8160) }
{
    let header = placed(take_header(reader), at)?;
    let path = take_path(reader)?;
    Ok(Item { header, path })
}

// How a header at this place breaks.
fn placed(read: Result<Header, Bad>, at: u64) -> Result<Header, Bad>
    ensures { result ≡ proofs.header_break at read }
{
    match read {
        Err(Bad::Short { at: whole }) => Err(Bad::Short { at: whole }),
        Err(_) => Err(Bad::BadFixedField { at }),
        Ok(header) => Ok(header),
    }
}

// The digests of a path, behind their number.
#[tactic(auto, unfolding(proof_codec::specs::Reading::digests_at))]
fn take_path<'a>(reader: &mut FieldReader<'a>) -> Result<&'a [u8], Bad>
    ensures path { proofs.ReadsSeen (λ path. path.now) result reader.new (proofs.digests_at reader.old) }
    ensures few { IfOk result (λ path. length path.now ≤ 8160) }
{
    let count = reader.take_u8()?;
    reader.take_slice(32 * usize::from(count))
}
