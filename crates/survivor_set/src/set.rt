//! A set of survivors, lent from its bytes.

ghost use Rattle.std.specs.Prelude.{◌≡◌, ◌≢◌, ◌<◌, ◌≤◌, Some, IfSome, ◌++◌, ℕ, List, [], length, IfOk, Ok, Err, slice_get};
ghost use Rattle.journal_record.specs.Items.{body_seen};
ghost use Rattle.survivor_set.specs.Sets.{SavedSet, IsSaved, IsSet, set_text};
ghost use Rattle.survivor_set.specs.Reading.{set_of};

use crate::reading::{read, survivor};
use journal_record::{Body, Header, Record};
use ledger_bytes::{Bad, Digest};
use std::marker::Model;

/// The most survivors of a set.
pub const SURVIVOR_LIMIT: u8 = 64;

/// A journal that was kept, lent from a set's bytes.
#[derive(Debug, Drop)]
pub struct Survivor<'a> {
    /// The journal as the ledger showed it when it was kept.
    pub item: Record<'a>,
    /// The digests of its path under the root over the journals in front of the set's point, 32 bytes each, one after the other
    /// from the leaf up (RFC 6962, section 2.1.1).
    pub path: &'a [u8],
}

impl<'a> Model for Survivor<'a> {
    ghost use Rattle.survivor_set.specs.Sets.{Saved};

    ghost Value = { Saved };

    ghost view = { λ s. record { item = s.item; path = s.path.now } };
}

impl<'a> Survivor<'a> {
    /// The journal's number.
    pub fn number(&self) -> u64
        ensures { result ≡ self.now.item.header.jsn }
    {
        self.item.header.jsn
    }

    /// The journal.
    pub(crate) fn item(&self) -> &Record<'a>
        ensures { result.now ≡ self.now.item }
    {
        &self.item
    }

    /// The journal's header.
    pub(crate) fn header(&self) -> &Header
        ensures { result.now ≡ self.now.item.header }
    {
        &self.item.header
    }

    /// The journal's content, where it is there.
    pub(crate) fn body(&self) -> Body<'a>
        ensures { body_seen result ≡ self.now.item.body }
    {
        self.item.body
    }

    /// The bytes that show who placed the journal.
    pub(crate) fn who(&self) -> &'a [u8]
        ensures { result.now ≡ self.now.item.who }
    {
        self.item.who
    }

    /// The digests of the path.
    pub(crate) fn path(&self) -> &'a [u8]
        ensures { result.now ≡ self.now.path }
    {
        self.path
    }
}

/// A set of survivors, lent from its bytes. Numbers are unsigned and big-endian:
///
/// | Offset | Length | Part |
/// |---|---|---|
/// | 0 | 8 | ASCII `LDGSURV1` |
/// | 8 | 32 | the ledger's id |
/// | 40 | 8 | the point |
/// | 48 | 32 | the root over the journals in front of the point |
/// | 80 | 1 | the number of survivors, 1 to 64 |
/// | 81 | | the survivors, in ascending order of their journals' numbers |
///
/// Each survivor is a journal as [`Record`] spells it, one byte with the number of digests of its path, and these digests. Nothing
/// stands behind the last.
#[derive(Debug, Drop)]
pub struct Set<'a> {
    bytes: &'a [u8],
    id: Digest,
    point: u64,
    root: Digest,
    count: u8,
}

impl<'a> Model for Set<'a> {
    ghost use Rattle.std.specs.Prelude.{◌≡◌, ◌≤◌, length, Ok};
    ghost use Rattle.survivor_set.specs.Sets.{SavedSet, IsSet};
    ghost use Rattle.survivor_set.specs.Reading.{set_of, survivors_in};

    ghost Value = { SavedSet };

    ghost view = { λ s. record {
      id = s.id;
      point = s.point;
      root = s.root;
      survivors = survivors_in s.bytes.now;
    } };

    ghost invariant = { λ s. (set_of s.bytes.now ≡ Ok (record {
      id = s.id;
      point = s.point;
      root = s.root;
      survivors = survivors_in s.bytes.now;
    })) × (length (survivors_in s.bytes.now) ≡ s.count) × (1 ≤ s.count) × (s.count ≤ 64) × IsSet (record {
      id = s.id;
      point = s.point;
      root = s.root;
      survivors = survivors_in s.bytes.now;
    }) };
}

impl<'a> Set<'a> {
    /// Reads a set from its bytes. The first break in the order of the bytes is told: `BadFixedField` at 0 for another magic, and
    /// at 80 for a count that is 0 or above 64; then of each survivor the break of its journal, as [`Record::decode`] tells it,
    /// with its field's place counted from the set's first byte, and `BadFixedField` at the journal's number where that isn't
    /// above the one in front, before what stands behind the number; `Short` with the input's length where a part isn't whole;
    /// and at last `Trailing`.
    pub fn decode(bytes: &'a [u8]) -> Result<Set<'a>, Bad>
        // Which answer it is, and at a break which break and where.
        ensures exact { result ≡ set_of bytes.now }
        // What is read keeps every rule and is spelled so, each byte of it.
        ensures found { IfOk result (λ s. IsSet s × (bytes.now ≡ set_text s)) }
        // What keeps every rule and is spelled so is read.
        ensures only { (s : SavedSet) → IsSet s → bytes.now ≡ set_text s → result ≡ Ok s }
        // Bytes behind a set are told by the place of the first.
        ensures trailing { (s : SavedSet) (rest : List ℕ) → IsSet s → rest ≢ []
            → bytes.now ≡ set_text s ++ rest
            → result ≡ Err (Bad.Trailing (length (set_text s))) }
    {
        read_set(bytes)
    }

    /// The id of the ledger whose journals these are.
    pub fn id(&self) -> Digest
        ensures { result ≡ self.now.id }
    {
        self.id
    }

    /// The point: the paths lead to the root over the journals in front of it.
    pub fn point(&self) -> u64
        ensures { result ≡ self.now.point }
    {
        self.point
    }

    /// The root over the journals in front of the point.
    pub fn root(&self) -> Digest
        ensures { result ≡ self.now.root }
    {
        self.root
    }

    /// The number of survivors.
    pub fn count(&self) -> u8
        ensures count { result ≡ length self.now.survivors }
        ensures some { 1 ≤ result }
        ensures few { result ≤ 64 }
        // A set that was read keeps every rule of one.
        ensures rules { IsSet self.now }
    {
        self.count
    }

    /// The survivor with this place among them, from 0, where there is one. Those in front of it are read again.
    pub fn get(&self, i: u8) -> Option<Survivor<'a>>
        ensures is { result ≡ slice_get self.now.survivors i }
        ensures saved { IfSome result IsSaved }
    {
        if i < self.count {
            survivor(self.bytes, i)
        } else {
            None
        }
    }

    /// The survivor with this place among them, which is there.
    pub(crate) fn survivor(&self, i: u8) -> Survivor<'a>
        requires { i < length self.now.survivors }
        ensures is { slice_get self.now.survivors i ≡ Some result }
        ensures saved { IsSaved result }
    {
        let Some(survivor) = self.get(i) else {
            unreachable!()
        };
        survivor
    }
}

// The set that all the bytes spell.
fn read_set<'a>(bytes: &'a [u8]) -> Result<Set<'a>, Bad>
    ensures { result ≡ set_of bytes.now }
{
    let front = read(bytes)?;
    Ok(Set {
        bytes,
        id: front.id,
        point: front.point,
        root: front.root,
        count: front.count,
    })
}
