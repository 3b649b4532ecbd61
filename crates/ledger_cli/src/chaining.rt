//! The commands `chainkey` and `chainsign`: what is made of a seed in the scheme of chains.

ghost use Rattle.std.specs.Prelude.{◌≡◌, ◌<◌, ◌≤◌, ◌*◌, IfOk, IfSome};
ghost use Rattle.ledger_cli.specs.Chaining.{HasRange, asked_key, chain_line, asked_signature, size_of};
ghost use Rattle.ledger_cli.specs.Signing.{hex_line};

use chain_sign::{KEYS_LIMIT, chain_key, chain_sign};
use ledger_bytes::{Digest, NoMemory, Sha};
use script_lines::{read_digest, read_number};
use std::alloc::Global;

/// What is made of a seed from which so many one-time keys come, 1 to 1,024.
#[derive(Clone, Copy, Debug, PartialEq, Eq)]
pub enum ChainText {
    /// `chainkey SEED SIZE`: the key over all of them.
    Key {
        seed: Digest,
        size: u32,
    },
    /// `chainsign SEED SIZE INDEX MESSAGE`: the signature of a message by one of them, by its number from 0.
    Signature {
        seed: Digest,
        size: u32,
        index: u32,
        message: Digest,
    },
}

impl ChainText {
    /// The line that is written for it: its bytes in lower-case hexadecimal digits, and a newline.
    pub fn line(&self, alloc: Global) -> Result<Vec<u8>, NoMemory>
        requires { HasRange self.now }
        ensures { IfOk result (λ line. line.items ≡ chain_line self.now) }
    {
        match self {
            ChainText::Key { seed, size } => {
                let key = chain_key::<Sha>(alloc, seed, *size)?;
                line_of(alloc, &key.0)
            }
            ChainText::Signature {
                seed,
                size,
                index,
                message,
            } => {
                let proof = chain_sign::<Sha>(alloc, seed, *size, *index, message)?;
                line_of(alloc, proof.as_slice())
            }
        }
    }
}

// Bytes as a line of hexadecimal digits.
fn line_of(alloc: Global, bytes: &[u8]) -> Result<Vec<u8>, NoMemory>
    ensures { IfOk result (λ line. line.items ≡ hex_line bytes.now) }
{
    let mut line = hex::encode(alloc, bytes)?.into_bytes();
    line.push(b'\n')?;
    Ok(line)
}

/// What the words behind `chainkey` ask for, or None where they are of no form.
#[tactic(auto, unfolding(crate::specs::Chaining::asked_key))]
pub(crate) fn read_key(seed: &str, size: &str) -> Option<ChainText>
    ensures read { result ≡ asked_key seed.now size.now }
    ensures sizes { IfSome result HasRange }
{
    let seed = read_digest(seed.as_bytes())?;
    let size = read_size(size)?;
    Some(ChainText::Key { seed, size })
}

/// What the words behind `chainsign` ask for, or None where they are of no form.
#[tactic(auto, unfolding(crate::specs::Chaining::asked_signature))]
pub(crate) fn read_signature(
    seed: &str,
    size: &str,
    index: &str,
    message: &str,
) -> Option<ChainText>
    ensures read { result ≡ asked_signature seed.now size.now index.now message.now }
    ensures sizes { IfSome result HasRange }
{
    let seed = read_digest(seed.as_bytes())?;
    let size = read_size(size)?;
    let index = read_number(index.as_bytes(), u64::from(size - 1))?;
    let message = read_digest(message.as_bytes())?;
    Some(ChainText::Signature {
        seed,
        size,
        index: index as u32,
        message,
    })
}

// How many one-time keys a word tells.
#[tactic(auto, unfolding(crate::specs::Chaining::size_of))]
fn read_size(word: &str) -> Option<u32>
    ensures read { result ≡ size_of word.now }
    ensures range { IfSome result (λ size. (1 ≤ size) × (size ≤ 1024)) }
{
    let size = read_number(word.as_bytes(), u64::from(KEYS_LIMIT))?;
    if size == 0 {
        return None;
    }
    Some(size as u32)
}
