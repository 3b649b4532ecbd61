//! The bytes of a block, gathered journal by journal before it is committed, and of a group of blocks, one after the other.

ghost use Rattle.std.specs.Prelude.{◌≡◌, ◌<◌, ◌^◌, ◌+◌, ◌-◌, ◌++◌, [], ◌∷◌, ◌≤◌, ℕ, List, length, take, drop, All, IfOk, OnOk};
ghost use Rattle.journal_record.specs.Approval.{who_of, approval_bytes};
ghost use Rattle.journal_record.specs.declared.header.TheConstants.{HEADER_LEN};
ghost use Rattle.ledger_bytes.specs.declared.limits.TheConstants.{APPROVAL_LIMIT, CONTENT_LIMIT, PROOF_LIMIT};
ghost use Rattle.block_file.specs.File.{IsGroupOf};
ghost use Rattle.block_file.specs.Places.{body_from, place_of_lengths};
ghost use Rattle.block_file.specs.Writing.{block_head, ended_blocks, record_with};

use crate::block::BLOCK_HEAD_LEN;
use crate::place::{BODY_BEHIND_GATE, PlaceAt};
use journal_record::{Approval, HEADER_LEN};
use ledger_bytes::{Digest, NoMemory, keep_from};
use std::alloc::Global;
use std::marker::Model;

/// How many bytes an approval has in front of its proof.
const APPROVAL_LEN: u32 = 6;

/// The bytes of a block, gathered as journals are placed: room for its head, and the records. They stand behind those of
/// the blocks of its group that ended before it.
#[derive(Drop)]
pub struct BlockWriter {
    bytes: Vec<u8>,
    /// Where the block begins: behind its gate, or at 0 where no other ended before it.
    begins: usize,
}

impl Model for BlockWriter {
    ghost use Rattle.std.specs.Prelude.{◌≡◌, ◌+◌, ◌≤◌, ◌⊎◌, length, take, drop};
    ghost use Rattle.block_file.specs.Writing.{BlockBytes};

    ghost Value = { BlockBytes };

    ghost invariant = { λ b. (length b.bytes.items ≡ b.begins) ⊎ (b.begins + 44 ≤ length b.bytes.items) };

    ghost view = { λ b. record {
      before = take b.begins b.bytes.items;
      head = take 44 (drop b.begins b.bytes.items);
      body = drop 44 (drop b.begins b.bytes.items);
    } };
}

impl BlockWriter {
    /// A block without journals.
    pub fn new(alloc: Global) -> Self
        ensures { result.body ≡ [] }
    {
        BlockWriter {
            bytes: Vec::new(alloc),
            begins: 0,
        }
    }

    /// Adds a journal by its header's bytes, its content, and who approved it. The answer is its place in a file where
    /// the block's gate stands at this offset.
    pub fn put(
        &mut self,
        gate: u64,
        header: &[u8; HEADER_LEN],
        content: &[u8],
        given: &[Approval],
    ) -> Result<PlaceAt, NoMemory>
        requires gate { gate ≤ 2 ^ 62 }
        requires content { length content.now ≤ CONTENT_LIMIT }
        requires few { length given.now ≤ APPROVAL_LIMIT }
        requires proofs { All (λ a. length a.proof ≤ PROOF_LIMIT) given.now }
        ensures body { OnOk result (self.new.body
            ≡ self.old.body ++ record_with header.now content.now (who_of given.now)) }
        ensures before { OnOk result (self.new.before ≡ self.old.before) }
        ensures place { IfOk result (λ place. place ≡ place_of_lengths
            (body_from gate + length self.old.body) (length content.now) (length (who_of given.now))) }
        ensures width { length header.now ≡ HEADER_LEN }
    {
        self.make_room()?;
        let at = gate + BODY_BEHIND_GATE + self.len();
        let who_len = who_len(given);
        self.put_parts(header, who_len, content, given)?;
        Ok(PlaceAt::in_record(at, content.len() as u32, who_len))
    }

    fn put_parts(
        &mut self,
        header: &[u8; HEADER_LEN],
        who_len: u32,
        content: &[u8],
        given: &[Approval],
    ) -> Result<(), NoMemory>
        requires room { length self.old.head ≡ 44 }
        requires who { who_len ≡ length (who_of given.now) }
        requires proofs { All (λ a. length a.proof ≤ PROOF_LIMIT) given.now }
        ensures body { OnOk result (self.new.body
            ≡ self.old.body ++ record_with header.now content.now (who_of given.now)) }
        ensures before { OnOk result (self.new.before ≡ self.old.before) }
    {
        self.add(header)?;
        self.add(&who_len.to_be_bytes())?;
        self.add(content)?;
        self.put_approvals(given)
    }

    fn put_approvals(&mut self, given: &[Approval]) -> Result<(), NoMemory>
        requires room { length self.old.head ≡ 44 }
        requires proofs { All (λ a. length a.proof ≤ PROOF_LIMIT) given.now }
        ensures body { OnOk result (self.new.body ≡ self.old.body ++ who_of given.now) }
        ensures before { OnOk result (self.new.before ≡ self.old.before) }
    {
        for by in given {
            self.put_approval(by)?;
        }
        Ok(())
    }

    fn put_approval(&mut self, by: &Approval) -> Result<(), NoMemory>
        requires room { length self.old.head ≡ 44 }
        requires proof { length by.now.proof ≤ PROOF_LIMIT }
        ensures room { OnOk result (length self.new.head ≡ 44) }
        ensures body { OnOk result (self.new.body ≡ self.old.body ++ approval_bytes by.now) }
        ensures before { OnOk result (self.new.before ≡ self.old.before) }
    {
        self.add(&by.front())?;
        self.add(by.proof.as_slice())
    }

    // Room for the head.
    fn make_room(&mut self) -> Result<(), NoMemory>
        ensures room { OnOk result (length self.new.head ≡ 44) }
        ensures body { OnOk result (self.new.body ≡ self.old.body) }
        ensures before { OnOk result (self.new.before ≡ self.old.before) }
    {
        if self.bytes.len() == self.begins {
            self.bytes.extend_from_slice(&[0; BLOCK_HEAD_LEN])?;
        }
        Ok(())
    }

    fn add(&mut self, piece: &[u8]) -> Result<(), NoMemory>
        requires { length self.old.head ≡ 44 }
        ensures room { OnOk result (length self.new.head ≡ 44) }
        ensures body { OnOk result (self.new.body ≡ self.old.body ++ piece.now) }
        ensures before { OnOk result (self.new.before ≡ self.old.before) }
    {
        Ok(self.bytes.extend_from_slice(piece)?)
    }

    // How many bytes the records have.
    fn len(&self) -> u64
        ensures len { result ≡ length self.now.body }
        ensures small { result < 2 ^ 63 }
    {
        (self.bytes.len() - self.begins).saturating_sub(BLOCK_HEAD_LEN) as u64
    }

    /// Fills the head in: how many journals there are, how many bytes the records have, and this root.
    pub fn finish(&mut self, count: u32, root: &Digest) -> Result<(), NoMemory>
        ensures head { OnOk result (self.new.head
            ≡ block_head count (length self.old.body) root.now.0) }
        ensures size { OnOk result (length self.new.head ≡ 44) }
        ensures body { OnOk result (self.new.body ≡ self.old.body) }
        ensures before { OnOk result (self.new.before ≡ self.old.before) }
    {
        self.make_room()?;
        self.set_head(count, root);
        Ok(())
    }

    fn set_head(&mut self, count: u32, root: &Digest)
        requires { length self.old.head ≡ 44 }
        ensures head { self.new.head ≡ block_head count (length self.old.body) root.now.0 }
        ensures size { length self.new.head ≡ 44 }
        ensures body { self.new.body ≡ self.old.body }
        ensures before { self.new.before ≡ self.old.before }
    {
        let len = self.len();
        overwrite(self.bytes.as_mut_slice(), self.begins, count, len, root);
    }

    /// Ends the block, whose head was filled in, and begins the next one of its group behind it and an open gate.
    pub fn begin_next(&mut self) -> Result<(), NoMemory>
        ensures before { OnOk result (self.new.before
            ≡ self.old.before ++ (self.old.head ++ self.old.body) ++ 1 ∷ []) }
        ensures ended { OnOk result ((ended : List (List ℕ)) → self.old.before ≡ ended_blocks ended
            → self.new.before ≡ ended_blocks (ended ++ (self.old.head ++ self.old.body) ∷ [])) }
        ensures body { OnOk result (self.new.body ≡ []) }
    {
        self.bytes.extend_from_slice(&[1])?;
        self.begins = self.bytes.len();
        Ok(())
    }

    /// The block's bytes, without its gate.
    pub fn as_slice(&self) -> &[u8]
        ensures { result.now ≡ self.now.head ++ self.now.body }
    {
        let (_, block) = self.bytes.as_slice().split_at(self.begins);
        block
    }

    /// The bytes of the group of the blocks that ended before this one: the first without its gate, and each further one
    /// behind an open gate.
    pub fn ended(&self) -> &[u8]
        ensures bytes { result.now ≡ take (length self.now.before - 1) self.now.before }
        ensures group { (ended : List (List ℕ)) → self.now.before ≡ ended_blocks ended
            → 1 ≤ length ended → IsGroupOf ended result.now }
    {
        let (ended, _) = self
            .bytes
            .as_slice()
            .split_at(self.begins.saturating_sub(1));
        ended
    }

    /// Forgets the blocks that ended, so that this one is the first of its group. The memory stays for those that follow.
    pub fn drop_ended(&mut self)
        ensures before { self.new.before ≡ [] }
        ensures head { self.new.head ≡ self.old.head }
        ensures body { self.new.body ≡ self.old.body }
    {
        let room = self.bytes.capacity();
        keep_from(&mut self.bytes, self.begins, room);
        self.begins = 0;
    }

    /// Forgets all journals, and keeps the memory for those that follow.
    pub fn clear(&mut self)
        ensures { self.new.body ≡ [] }
    {
        self.begin_group();
    }

    /// Begins the first block of a group: forgets all blocks and journals, and keeps the memory for those that follow.
    pub fn begin_group(&mut self)
        ensures before { self.new.before ≡ [] }
        ensures body { self.new.body ≡ [] }
    {
        self.bytes.clear();
        self.begins = 0;
    }
}

// How many bytes show who approved.
fn who_len(given: &[Approval]) -> u32
    requires few { length given.now ≤ APPROVAL_LIMIT }
    requires proofs { All (λ a. length a.proof ≤ PROOF_LIMIT) given.now }
    ensures { result ≡ length (who_of given.now) }
{
    let mut len = 0_u32;
    for by in given {
        len += APPROVAL_LEN + by.proof.as_slice().len() as u32;
    }
    len
}

// Puts the head in the place of the bytes at an offset.
fn overwrite(bytes: &mut [u8], at: usize, count: u32, len: u64, root: &Digest)
    requires { at + 44 ≤ length bytes.old }
    ensures bytes { bytes.new ≡ take at bytes.old ++ (block_head count len root.now.0 ++ drop 44 (drop at bytes.old)) }
    ensures size { length (block_head count len root.now.0) ≡ 44 }
{
    let (_, block) = bytes.split_at_mut(at);
    let (head, _) = block.split_at_mut(BLOCK_HEAD_LEN);
    let (counts, rest) = head.split_at_mut(4);
    let (lengths, roots) = rest.split_at_mut(8);
    counts.copy_from_slice(&count.to_be_bytes());
    lengths.copy_from_slice(&len.to_be_bytes());
    roots.copy_from_slice(&root.0);
}
