//! The words of which replies are made, and how each is written.

ghost use Rattle.std.specs.Prelude.{◌≡◌, ◌∷◌, ◌++◌, codes, decimal, map, OnOk, OnErr};
ghost use Rattle.hex.specs.Hex.{encode_lower};
ghost use Rattle.ledger_bytes.specs.Begins.{Begins};
ghost use Rattle.script_lines.specs.Words.{behind_commas, hex_or_dash, list_text, mark_text, spaced_words, word_text};

use itoa::Buffer;
use ledger_bytes::{Digest, NoMemory, TimeMark};

/// How many bytes are turned to digits at a time.
const CHUNK: usize = 512;

/// A word of a reply.
#[derive(Clone, Copy)]
pub enum Word<'a> {
    /// Bytes as they are.
    Text(&'a [u8]),
    /// A number in decimal digits.
    Number(u64),
    /// A digest as 64 lower-case hexadecimal digits.
    Hash(Digest),
    /// Bytes as two lower-case hexadecimal digits each, or `-` for none.
    Hex(&'a [u8]),
    /// A time mark as `JSN:INDEX:TIME`, or `-` for none.
    Mark(Option<TimeMark>),
    /// Numbers with commas between, or `-` for none.
    Numbers(&'a [u64]),
}

/// Appends the words, each behind a space. Where memory is missing the buffer begins as it was.
pub fn put_words(out: &mut Vec<u8>, words: &[Word]) -> Result<(), NoMemory>
    ensures ok { OnOk result (out.new.items
        ≡ out.old.items ++ spaced_words (map word_text words.now)) }
    ensures err { OnErr result (Begins out.old.items out.new.items) }
{
    for word in words {
        out.push(b' ')?;
        put_word(out, word)?;
    }
    Ok(())
}

/// Appends what tells that something is refused, each word behind a space: `no`, a code, and the words behind it.
pub fn put_no(out: &mut Vec<u8>, code: u8, words: &[Word]) -> Result<(), NoMemory>
    ensures ok { OnOk result (out.new.items
        ≡ out.old.items ++ spaced_words (codes "no" ∷ decimal code ∷ map word_text words.now)) }
    ensures err { OnErr result (Begins out.old.items out.new.items) }
{
    put_words(out, &[Word::Text(b"no"), Word::Number(u64::from(code))])?;
    put_words(out, words)
}

fn put_word(out: &mut Vec<u8>, word: &Word) -> Result<(), NoMemory>
    ensures ok { OnOk result (out.new.items ≡ out.old.items ++ word_text word.now) }
    ensures err { OnErr result (Begins out.old.items out.new.items) }
{
    match word {
        Word::Text(text) => Ok(out.extend_from_slice(text)?),
        Word::Number(number) => put_number(out, *number),
        Word::Hash(digest) => Ok(out.extend_from_slice(&hex_of(digest))?),
        Word::Hex(bytes) => put_hex_or_dash(out, bytes),
        Word::Mark(mark) => put_mark(out, *mark),
        Word::Numbers(numbers) => put_list(out, numbers),
    }
}

/// Appends the number in decimal digits.
pub fn put_number(out: &mut Vec<u8>, number: u64) -> Result<(), NoMemory>
    ensures ok { OnOk result (out.new.items ≡ out.old.items ++ decimal number) }
    ensures err { OnErr result (out.new.items ≡ out.old.items) }
{
    let mut buffer = Buffer::new();
    Ok(out.extend_from_slice(buffer.format(number).as_bytes())?)
}

fn hex_of(digest: &Digest) -> [u8; 64]
    ensures { result ≡ encode_lower digest.now.0 }
{
    let mut text = [0; 64];
    hex::encode_to_slice(digest.0, &mut text).unwrap();
    text
}

fn put_dash(out: &mut Vec<u8>) -> Result<(), NoMemory>
    ensures ok { OnOk result (out.new.items ≡ out.old.items ++ codes "-") }
    ensures err { OnErr result (Begins out.old.items out.new.items) }
{
    Ok(out.push(b'-')?)
}

fn put_hex_or_dash(out: &mut Vec<u8>, bytes: &[u8]) -> Result<(), NoMemory>
    ensures ok { OnOk result (out.new.items ≡ out.old.items ++ hex_or_dash bytes.now) }
    ensures err { OnErr result (Begins out.old.items out.new.items) }
{
    if bytes.is_empty() {
        put_dash(out)
    } else {
        put_hex(out, bytes)
    }
}

fn put_hex(out: &mut Vec<u8>, bytes: &[u8]) -> Result<(), NoMemory>
    ensures ok { OnOk result (out.new.items ≡ out.old.items ++ encode_lower bytes.now) }
    ensures err { OnErr result (Begins out.old.items out.new.items) }
{
    let mut digits = [0; 2 * CHUNK];
    let mut left = bytes;
    while !left.is_empty() {
        let (chunk, rest) = left.split_at(left.len().min(CHUNK));
        let text = &mut digits[..2 * chunk.len()];
        hex::encode_to_slice(chunk, text).unwrap();
        out.extend_from_slice(text)?;
        left = rest;
    }
    Ok(())
}

fn put_mark(out: &mut Vec<u8>, mark: Option<TimeMark>) -> Result<(), NoMemory>
    ensures ok { OnOk result (out.new.items ≡ out.old.items ++ mark_text mark) }
    ensures err { OnErr result (Begins out.old.items out.new.items) }
{
    let Some(mark) = mark else {
        return put_dash(out);
    };
    put_number(out, mark.jsn)?;
    out.push(b':')?;
    put_number(out, mark.index)?;
    out.push(b':')?;
    put_number(out, mark.time)
}

fn put_list(out: &mut Vec<u8>, numbers: &[u64]) -> Result<(), NoMemory>
    ensures ok { OnOk result (out.new.items ≡ out.old.items ++ list_text numbers.now) }
    ensures err { OnErr result (Begins out.old.items out.new.items) }
{
    let [first, others @ ..] = numbers else {
        return put_dash(out);
    };
    put_number(out, *first)?;
    put_behind_commas(out, others)
}

fn put_behind_commas(out: &mut Vec<u8>, numbers: &[u64]) -> Result<(), NoMemory>
    ensures ok { OnOk result (out.new.items ≡ out.old.items ++ behind_commas numbers.now) }
    ensures err { OnErr result (Begins out.old.items out.new.items) }
{
    for number in numbers {
        out.push(b',')?;
        put_number(out, *number)?;
    }
    Ok(())
}
