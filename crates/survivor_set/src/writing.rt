//! Writing a set of survivors.

ghost use Rattle.std.specs.Prelude.{◌≡◌, ◌++◌, ◌*◌, ◌/◌, ◌≤◌, ◌∷◌, length, OnOk};
ghost use Rattle.survivor_set.specs.Sets.{IsSaved, saved_text, front_text};

use crate::reading::MAGIC;
use journal_record::Record;
use ledger_bytes::{Digest, FieldWriter, NoMemory};
use std::alloc::Global;

/// Adds the fields in front of so many survivors.
pub(crate) fn put_front(
    fields: &mut FieldWriter,
    id: &Digest,
    point: u64,
    root: &Digest,
    count: u8,
) -> Result<(), NoMemory>
    ensures { OnOk result (fields.new ≡ fields.old ++ front_text id.now point root.now count) }
{
    fields.put_slice(&MAGIC)?;
    fields.put_slice(&id.0)?;
    fields.put_u64(point)?;
    fields.put_slice(&root.0)?;
    fields.put_u8(count)
}

/// Adds a survivor with this path.
pub(crate) fn put_survivor(
    alloc: Global,
    fields: &mut FieldWriter,
    item: &Record,
    path: &[u8],
) -> Result<(), NoMemory>
    requires { IsSaved (record { item = item.now; path = path.now }) }
    ensures { OnOk result (fields.new ≡ fields.old ++ saved_text (record { item = item.now; path = path.now })) }
{
    let item = item.encode(alloc)?;
    put_spelled(fields, item.as_slice(), path)
}

/// Adds a survivor whose journal is spelled already.
pub(crate) fn put_spelled(
    fields: &mut FieldWriter,
    item: &[u8],
    path: &[u8],
) -> Result<(), NoMemory>
    requires { length path.now ≤ 32 * 255 }
    ensures { OnOk result (fields.new ≡ fields.old ++ (item.now ++ (length path.now / 32 ∷ path.now))) }
{
    fields.put_slice(item)?;
    fields.put_u8((path.len() / 32) as u8)?;
    fields.put_slice(path)
}
