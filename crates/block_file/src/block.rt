//! A block as it stands in a file: its head, its journals, and where their parts are.

ghost use Rattle.std.specs.Prelude.{◌≡◌, ◌++◌};
ghost use Rattle.std.specs.Int.{to_be_bytes, w32, w64};
ghost use Rattle.block_file.specs.Blocks.{count_in, body_len_in};
ghost use Rattle.block_file.specs.File.{IsOneParse};

use journal_record::Header;
use ledger_bytes::{Digest, Items};

/// The length of a block's head in bytes.
pub const BLOCK_HEAD_LEN: usize = 44;

/// Where a journal of a block stands in its file. Offsets are in bytes, from the file's first.
#[derive(Clone, Copy, Debug)]
pub struct RecordAt {
    pub header: Header,
    /// The offset of the content, whose length the header names.
    pub content_at: u64,
    /// The offset of the bytes that show who placed the journal.
    pub who_at: u64,
    /// Their length.
    pub who_len: u32,
}

/// A block that was read.
#[derive(Debug, Drop)]
pub struct BlockAt {
    /// The offset of its gate.
    pub at: u64,
    /// Its length in bytes without the gate.
    pub len: u64,
    /// The root that it names.
    pub root: Digest,
    /// Its journals in order.
    pub records: Items<RecordAt>,
}

/// What a block's head tells. Its bytes are these numbers, big-endian, in 4 and 8 bytes, and the root.
#[derive(Clone, Copy, Debug)]
pub(crate) struct BlockHead {
    /// How many journals there are.
    pub count: u32,
    /// The length of the body in bytes.
    pub body_len: u64,
    pub root: Digest,
}

impl BlockHead {
    /// The head that these bytes spell.
    #[tactic(auto, unfolding(crate::specs::Blocks::count_in, crate::specs::Blocks::body_len_in))]
    pub(crate) fn of(bytes: &[u8; BLOCK_HEAD_LEN]) -> BlockHead
        ensures count { result.count ≡ count_in bytes.now }
        ensures body_len { result.body_len ≡ body_len_in bytes.now }
        ensures bytes { bytes.now ≡ to_be_bytes w32 result.count
            ++ (to_be_bytes w64 result.body_len ++ result.root.0) }
    {
        let (front, rest) = bytes.split_at(4);
        let (middle, back) = rest.split_at(8);
        let mut count = [0; 4];
        count.copy_from_slice(front);
        let mut body_len = [0; 8];
        body_len.copy_from_slice(middle);
        let mut root = [0; 32];
        root.copy_from_slice(back);
        BlockHead {
            count: u32::from_be_bytes(count),
            body_len: u64::from_be_bytes(body_len),
            root: Digest(root),
        }
    }
}

/// The blocks of a file are told apart by their own lengths: behind one front it stands for one list of them.
pub fn a_file_has_one_list_of_blocks()
    ensures { IsOneParse }
{}
