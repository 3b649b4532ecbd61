//! The base that stands in front of a purged ledger's blocks, and the bytes that spell it.

ghost use Rattle.std.specs.Prelude.{◌≡◌, ◌≢◌, ◌⊎◌, ℕ, ◌<◌, List, [], ◌∷◌, ◌++◌, length, take, IfOk, IfErr, Ok, Err};
ghost use Rattle.ledger_bytes.specs.Tags.{byte_of};
ghost use Rattle.ledger_bytes.specs.declared.tag.Tag.TheVariants as tag;

use crate::reading::read;
use crate::writing::write;
use clue_index::ClueState;
use ledger_bytes::{Bad, Bytes, Digest, Items, NoMemory, Tag, TreeHash};
use std::alloc::Global;
use thiserror::Error;

/// The greatest point: behind it there is room for the journal with the greatest number.
pub const POINT_LIMIT: u64 = 4_294_967_294;

/// The most clues of which a base has the states: as many as a ledger may have.
pub const CLUE_LIMIT: u32 = 1_048_576;

/// Why bytes aren't read as a base.
#[derive(Clone, Copy, Debug, PartialEq, Eq, Error)]
pub enum BaseErr {
    #[error("{0}")]
    Bad(Bad),
    #[error("out of memory")]
    NoMemory,
}

impl From<Bad> for BaseErr {
    ghost use Rattle.std.specs.Prelude.{◌≡◌};
    ghost use Rattle.pseudo_genesis.specs.declared.base.BaseErr.TheVariants as base_err;

    ghost from_gives = { λ bad e. e ≡ base_err.Bad bad };

    fn from(bad: Bad) -> Self {
        BaseErr::Bad(bad)
    }
}

impl From<NoMemory> for BaseErr {
    ghost use Rattle.std.specs.Prelude.{◌≡◌};
    ghost use Rattle.pseudo_genesis.specs.declared.base.BaseErr.TheVariants as base_err;

    ghost from_gives = { λ _ e. e ≡ base_err.NoMemory };

    fn from(_: NoMemory) -> Self {
        BaseErr::NoMemory
    }
}

/// What stands for the journals in front of a point. Its spelling has these fields one after the other, all numbers
/// unsigned and big-endian:
///
/// | Length | Field |
/// |---|---|
/// | 1 | version, 1 |
/// | 32 | the ledger's id |
/// | 8 | the point, 1 to 4,294,967,294 |
/// | 8 | the number of the block that begins at the point, 1 to the point |
/// | 32 each | the peaks, one for each binary digit 1 of the point |
/// | 2 | how many members there are, 2 to 256 |
/// | 32 each | their keys |
/// | 4 | how many clues there are, at most 1,048,576 |
/// | 44 each | the clues, ascending by their bytes, none twice and none zero: the clue 32, how many journals it has 4, the number of the last of them 8, both from 1 to the point less 1 |
#[derive(Debug, Drop)]
pub struct Base {
    /// The leaf digest of journal 0.
    pub id: Digest,
    /// The first journal that stays.
    pub point: u64,
    /// How many blocks stand in front of the point.
    pub blocks: u64,
    /// The roots of the whole subtrees that the leaves in front of the point make, the greatest first.
    pub peaks: Items<Digest>,
    /// The keys of the members that were admitted in front of the point, by their numbers.
    pub keys: Items<Digest>,
    /// The clues of the journals in front of the point.
    pub clues: Items<ClueState>,
}

impl Base {
    ghost use Rattle.pseudo_genesis.specs.declared.base.Base.{Base as BaseRecord};
    ghost use Rattle.pseudo_genesis.specs.declared.base.BaseErr.TheVariants as base_err;
    ghost use Rattle.ledger_bytes.specs.declared.failure.Bad.TheVariants as bad;
    ghost use Rattle.pseudo_genesis.specs.Bases.{IsBase, HasWidths, HasCounts, base_spelling};
    ghost use Rattle.pseudo_genesis.specs.Reading.{base_of, ReadsBase, IsFailure};

    /// Reads a base. The first break in the order of the bytes is told: `NewerFormat` for another version,
    /// `BadFixedField` with its offset for a number or a clue that breaks its rule, `Short` with the input's length
    /// where a field isn't whole, and at last `Trailing`.
    pub fn decode(alloc: Global, bytes: &[u8]) -> Result<Base, BaseErr>
        // Which answer it is, and at a break which break and where.
        ensures exact { ReadsBase result (base_of bytes.now) }
        // What is read keeps every rule and is spelled so, each byte of it.
        ensures found { IfOk result (λ b. IsBase b × HasWidths b × (bytes.now ≡ base_spelling b)) }
        // What keeps every rule and is spelled so is read.
        ensures only { (b : BaseRecord) → IsBase b → HasWidths b → bytes.now ≡ base_spelling b
            → (result ≡ Ok b) ⊎ (result ≡ Err base_err.NoMemory) }
        // No other error comes.
        ensures breaks { IfErr result IsFailure }
        // What is left of a base when its end is cut off is too short.
        ensures cut { (b : BaseRecord) (k : ℕ) → IsBase b → HasWidths b → k < length (base_spelling b)
            → bytes.now ≡ take k (base_spelling b) → ReadsBase result (Err (bad.Short k)) }
        // Bytes behind a base are told by the place of the first.
        ensures trailing { (b : BaseRecord) (rest : List ℕ) → IsBase b → HasWidths b → rest ≢ []
            → bytes.now ≡ base_spelling b ++ rest
            → ReadsBase result (Err (bad.Trailing (length (base_spelling b)))) }
    {
        read(alloc, bytes)
    }

    /// The one spelling of the base, which stands in front of a file's blocks.
    pub fn encode(&self, alloc: Global) -> Result<Bytes, NoMemory>
        requires { HasCounts self.now }
        ensures text { IfOk result (λ bytes. bytes ≡ base_spelling self.now) }
        // Its bytes are read as this base.
        ensures again { IsBase self.now → HasWidths self.now
            → IfOk result (λ bytes. base_of bytes ≡ Ok self.now) }
    {
        write(self, alloc)
    }
}

/// The digest of a base's bytes: the hash of the byte 07 and the bytes.
pub fn base_digest<H: TreeHash>(bytes: &[u8]) -> Digest
    ensures { result.0 ≡ H.of (byte_of tag.Base ∷ bytes.now) }
{
    let mut hash = H::start(Tag::Base.byte());
    hash.add(bytes);
    hash.end()
}
