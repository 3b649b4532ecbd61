//! The text of receipts, which all tell the end of their block.

ghost use Rattle.std.specs.Prelude.{◌≡◌, ◌++◌, IfOk, OnOk};
ghost use Rattle.script_lines.specs.BlockEnds.{block_end, end_words};
ghost use Rattle.script_lines.specs.Replies as spec;
ghost use Rattle.script_lines.specs.Words.{spaced_words};
ghost use Rattle.script_lines.specs.declared.reply.Reply.TheVariants as reply;

use crate::reply::{put_front, put_stamp};
use crate::words::{Word, put_words};
use ledger_bytes::{Digest, NoMemory};
use std::alloc::Global;
use std::marker::Model;

/// How many bytes the words have at most: two numbers of 20 digits and a digest, each behind a space.
const WORDS_LIMIT: usize = 107;

/// The end of a block, as the receipts of all its journals tell it: the block's number, and the size and the root of the
/// tree up to there. Its words are spelled at the first receipt, and copied from then on.
#[derive(Debug, Drop)]
pub struct BlockEnd {
    alloc: Global,
    block: u64,
    size: u64,
    root: Digest,
    // The words, or nothing so far.
    words: Vec<u8>,
}

impl Model for BlockEnd {
    ghost use Rattle.script_lines.specs.BlockEnds.{BlockEnd as End, block_end, IsSpelled};

    ghost Value = { End };

    ghost view = { λ e. block_end e.block e.size e.root };

    ghost invariant = { λ e. IsSpelled (block_end e.block e.size e.root) e.words.items };
}

impl BlockEnd {
    /// It takes no memory.
    pub fn new(alloc: Global, block: u64, size: u64, root: Digest) -> Self
        ensures { result ≡ block_end block size root }
    {
        BlockEnd {
            alloc,
            block,
            size,
            root,
            words: Vec::new(alloc),
        }
    }

    // Appends the words, each behind a space.
    fn put(&mut self, out: &mut Vec<u8>) -> Result<(), NoMemory>
        ensures ok { OnOk result (out.new.items ≡ out.old.items ++ spaced_words (end_words self.old)) }
        ensures same { self.new ≡ self.old }
    {
        if self.words.is_empty() {
            self.words = self.spelled()?;
        }
        Ok(out.extend_from_slice(self.words.as_slice())?)
    }

    fn spelled(&self) -> Result<Vec<u8>, NoMemory>
        ensures { IfOk result (λ words. words.items ≡ spaced_words (end_words self.now)) }
    {
        let mut words = Vec::with_capacity(self.alloc, WORDS_LIMIT)?;
        put_words(
            &mut words,
            &[
                Word::Number(self.block),
                Word::Number(self.size),
                Word::Hash(self.root),
            ],
        )?;
        Ok(words)
    }
}

/// Appends the text that [`put_reply`](crate::put_reply) appends for [`Reply::Placed`](crate::Reply::Placed) with the
/// block's end.
pub fn put_receipt(
    out: &mut Vec<u8>,
    lane: u8,
    index: u64,
    jsn: u64,
    leaf: &Digest,
    end: &mut BlockEnd,
    stamp: Option<(u64, u64)>,
) -> Result<(), NoMemory>
    ensures ok { OnOk result (out.new.items
        ≡ out.old.items ++ spec.reply_text lane index
        (reply.Placed jsn leaf.now end.old.block end.old.size end.old.root stamp)) }
    ensures same { end.new ≡ end.old }
{
    put_front(out, lane, index)?;
    put_words(
        out,
        &[Word::Text(b"ok"), Word::Number(jsn), Word::Hash(*leaf)],
    )?;
    end.put(out)?;
    put_stamp(out, stamp)?;
    Ok(out.push(b'\n')?)
}
