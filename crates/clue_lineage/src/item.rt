//! The journals of a lineage, gone over without a copy.

ghost use Rattle.std.specs.Prelude.{◌≡◌, ◌<◌, ◌^◌, length};
ghost use Rattle.clue_lineage.specs.Reading.{TakesFirst};

use crate::reading::take_item;
use journal_record::{HEADER_LEN, Header};
use ledger_bytes::FieldReader;
use std::marker::Model;

/// A journal of a lineage, with its path digest by digest.
#[derive(Debug, Drop)]
pub(crate) struct Item<'a> {
    pub(crate) header: Header,
    pub(crate) path: &'a [u8],
}

impl<'a> Model for Item<'a> {
    ghost use Rattle.clue_lineage.specs.Lineages.{LineageItem as Shown};

    ghost Value = { Shown };

    ghost view = { λ i. record { header = i.header; path = i.path.now } };
}

/// Journals that were read once, and are read again one after the other.
#[derive(Debug, Drop)]
pub(crate) struct Items<'a> {
    pub(crate) bytes: &'a [u8],
    pub(crate) left: u16,
}

impl<'a> Model for Items<'a> {
    ghost use Rattle.std.specs.Prelude.{List};
    ghost use Rattle.clue_lineage.specs.Lineages.{LineageItem as Shown};
    ghost use Rattle.clue_lineage.specs.Reading.{HasItems, items_in};

    ghost Value = { List Shown };

    ghost view = { λ i. items_in i.left i.bytes.now };

    ghost invariant = { λ i. HasItems i.left i.bytes.now };
}

impl<'a> Items<'a> {
    /// The same journals from the first on.
    pub(crate) fn again(&self) -> Items<'a>
        ensures same { result ≡ self.now }
        ensures few { length self.now < 2 ^ 16 }
    {
        Items {
            bytes: self.bytes,
            left: self.left,
        }
    }

    /// How many journals there are.
    pub(crate) fn count(&self) -> u16
        ensures { result ≡ length self.now }
    {
        self.left
    }

    /// The next journal, where there is one.
    pub(crate) fn next(&mut self) -> Option<Item<'a>>
        ensures { TakesFirst self.old self.new result }
    {
        if self.left == 0 {
            return None;
        }
        let mut reader = FieldReader::new(self.bytes);
        let Ok(item) = take_item(&mut reader, 0) else {
            unreachable!()
        };
        let (_, rest) = self.bytes.split_at(HEADER_LEN + 1 + item.path.len());
        self.bytes = rest;
        self.left -= 1;
        Some(item)
    }
}
