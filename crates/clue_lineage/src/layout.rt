//! A lineage as it is read.

ghost use Rattle.std.specs.Prelude.{◌≡◌};
ghost use Rattle.clue_lineage.specs.Reading.{lineage_of};

use crate::item::Items;
use crate::reading::{FRONT_LEN, pass_items, take_front};
use ledger_bytes::{Bad, Digest, FieldReader};
use std::marker::Model;

/// A lineage that was read from bytes that it borrows. Its spelling has these fields one after the other, all numbers unsigned
/// and big-endian:
///
/// | Length | Field |
/// |---|---|
/// | 1 | version, 1 |
/// | 8 | the size of the ledger whose root the paths lead to |
/// | 32 | the clue's digest |
/// | 2 | how many journals there are, 1 to 1,024 |
/// | 174 | of each journal the header |
/// | 1 + 32c | and its path in the tree of that size, from the leaf up, behind the number of its digests (RFC 6962, section 2.1.1) |
#[derive(Debug, Drop)]
pub(crate) struct Lineage<'a> {
    pub(crate) size: u64,
    pub(crate) clue: Digest,
    pub(crate) items: Items<'a>,
}

impl<'a> Model for Lineage<'a> {
    ghost use Rattle.clue_lineage.specs.Lineages.{Lineage as Shown};

    ghost Value = { Shown };

    ghost view = { λ l. record { size = l.size; clue = l.clue; items = l.items } };
}

impl<'a> Lineage<'a> {
    /// Reads a lineage. The first break in the order of the bytes is told: `BadFixedField` at 0 for another version, at 41 for
    /// a count that is out of range, and at a header's place for a header that doesn't decode; `Short` where a field isn't whole;
    /// `Trailing` last.
    pub(crate) fn decode(bytes: &'a [u8]) -> Result<Lineage<'a>, Bad>
        ensures { result ≡ lineage_of bytes.now }
    {
        let mut reader = FieldReader::new(bytes);
        let (size, clue, count) = take_front(&mut reader)?;
        pass_items(&mut reader, count)?;
        reader.end()?;
        let (_, rest) = bytes.split_at(FRONT_LEN);
        let items = Items {
            bytes: rest,
            left: count,
        };
        Ok(Lineage { size, clue, items })
    }
}
