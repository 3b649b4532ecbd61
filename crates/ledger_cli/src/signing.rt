//! The command `sign`: a member's request, and the message and the proof that are written for it.

ghost use Rattle.std.specs.Prelude.{◌≡◌, ◌≤◌, ◌+◌, ◌*◌, length, map, string_bytes, option_map, IfOk, IfSome, OnErr, IsSome};
ghost use Rattle.ledger_cli.specs.Signing.{append_from, member_from, occult_from, clue_occult_from, purge_from, clue_of_word, hex_line, number_behind, numbered_digest, request_of};

use journal_record::{
    clue_digest, clue_occult_request_digest, content_digest, member_request_digest,
    occult_request_digest, purge_request_digest, request_digest,
};
use ledger_bytes::{CONTENT_LIMIT, Digest, NoMemory};
use member_book::tag_proof;
use script_lines::{
    is_bytes, read_bytes, read_clue, read_count, read_digest, read_number, read_request_number,
};
use std::alloc::Global;

/// A request that is to be proved: on which ledger, and by which key.
#[derive(Clone, Copy, Debug, PartialEq, Eq)]
pub struct Signing {
    /// The ledger's identity.
    pub id: Digest,
    /// The key that proves the request.
    pub key: Digest,
    pub request: Request,
}

/// What a member asks for, as the member's message has it.
#[derive(Clone, Copy, Debug, PartialEq, Eq)]
pub enum Request {
    /// A journal is to be added: `append MEMBER CLUE CONTENT`, or the same with a number as its last word.
    Append {
        /// The member who asks.
        member: u32,
        /// The clue's digest, 32 zero bytes where there is no clue.
        clue: Digest,
        /// The content's length in bytes, up to 1,048,576.
        content_len: u32,
        content_digest: Digest,
        /// The number that the member gives the request, or 0 where it gives none.
        number: u64,
    },
    /// A member is to be added: `member NUMBER NEWKEY`.
    NewMember {
        /// The new member's number.
        number: u32,
        /// The new member's key.
        key: Digest,
    },
    /// A journal is to be occulted: `occult TARGET LEAF`.
    Occult {
        /// The journal's number.
        target: u64,
        /// The digest of its leaf.
        leaf: Digest,
    },
    /// All records of a clue are to be occulted: `occultclue NAME COUNT`.
    OccultClue {
        /// The clue's digest, 32 zero bytes where there is no clue.
        clue: Digest,
        /// How many records the clue has, 1 or more.
        count: u32,
    },
    /// All journals below a point are to be purged: `purge POINT ROOT`.
    Purge {
        /// The point.
        point: u64,
        /// The root of the journals below it.
        root: Digest,
    },
}

impl Signing {
    ghost use Rattle.ledger_cli.specs.Signing.{message_of, signed_text};

    /// What the member's key is to prove: the digest of the request.
    pub fn message(&self) -> Digest
        ensures { result.0 ≡ message_of self.now }
    {
        let id = &self.id;
        match &self.request {
            Request::Append {
                member,
                clue,
                content_len,
                content_digest,
                number,
            } => request_digest(id, *member, clue, *content_len, content_digest, *number),
            Request::NewMember { number, key } => member_request_digest(id, *number, key),
            Request::Occult { target, leaf } => occult_request_digest(id, *target, leaf),
            Request::OccultClue { clue, count } => clue_occult_request_digest(id, clue, *count),
            Request::Purge { point, root } => purge_request_digest(id, *point, root),
        }
    }

    /// The text that is written for it: the message (64 lower-case hexadecimal digits) and the key's proof of it in the
    /// scheme of tags (128 digits), each with a newline behind it.
    pub fn text(&self) -> [u8; 194]
        ensures { result ≡ signed_text self.now }
    {
        let message = self.message();
        let proof = tag_proof(&self.key, &message);
        let mut text = [0; 194];
        let (first, second) = text.split_at_mut(65);
        put_line(first, &message.0);
        put_line(second, &proof);
        text
    }
}

// Fills a line with the hexadecimal digits of bytes and a newline.
fn put_line(line: &mut [u8], bytes: &[u8])
    requires { length line.old ≡ 2 * length bytes.now + 1 }
    ensures { line.new ≡ hex_line bytes.now }
{
    let (digits, end) = line.split_at_mut(2 * bytes.len());
    hex::encode_to_slice(bytes, digits).unwrap();
    end.copy_from_slice(b"\n");
}

/// The request that a verb and the fields behind it make, or None where they are of no form.
pub(crate) fn read_request(
    alloc: Global,
    verb: &[u8],
    fields: &[String],
) -> Result<Option<Request>, NoMemory>
    ensures ok { IfOk result (λ request. request
        ≡ request_of verb.now (map string_bytes fields.now)) }
    ensures err { OnErr result (IsSome (request_of verb.now (map string_bytes fields.now))) }
{
    if verb == b"append".as_slice() {
        read_append(alloc, fields)
    } else if verb == b"member".as_slice() {
        Ok(read_member(fields))
    } else if verb == b"occult".as_slice() {
        Ok(read_occult(fields))
    } else if verb == b"occultclue".as_slice() {
        Ok(read_clue_occult(fields))
    } else if verb == b"purge".as_slice() {
        Ok(read_purge(fields))
    } else {
        Ok(None)
    }
}

#[tactic(auto, unfolding(crate::specs::Signing::append_from))]
fn read_append(alloc: Global, fields: &[String]) -> Result<Option<Request>, NoMemory>
    ensures ok { IfOk result (λ request. request ≡ append_from (map string_bytes fields.now)) }
    ensures err { OnErr result (IsSome (append_from (map string_bytes fields.now))) }
{
    let [member, clue, content, behind @ ..] = fields else {
        return Ok(None);
    };
    let Some(number) = read_number_behind(behind) else {
        return Ok(None);
    };
    let Some(member) = read_number(member.as_bytes(), u64::from(u32::MAX)) else {
        return Ok(None);
    };
    let Some(clue) = read_clue_word(clue.as_bytes()) else {
        return Ok(None);
    };
    let content = content.as_bytes();
    // Words of no form are told without memory.
    if !is_bytes(content, CONTENT_LIMIT as usize) {
        return Ok(None);
    }
    let Some(content) = read_bytes(alloc, content, CONTENT_LIMIT as usize)? else {
        return Ok(None);
    };
    Ok(Some(Request::Append {
        member: member as u32,
        clue: clue_digest(clue),
        content_len: content.as_slice().len() as u32,
        content_digest: content_digest(content.as_slice()),
        number,
    }))
}

// The number of a request, as the last of its words, or 0 where that is missing.
fn read_number_behind(words: &[String]) -> Option<u64>
    ensures { result ≡ number_behind (map string_bytes words.now) }
{
    match words {
        [] => Some(0),
        [number] => read_request_number(number.as_bytes()),
        _ => None,
    }
}

// A field of a line holds no space, and a word may.
fn read_clue_word(word: &[u8]) -> Option<&[u8]>
    ensures { option_map (λ name. name.now) result ≡ clue_of_word word.now }
{
    if word.contains(&b' ') {
        None
    } else {
        read_clue(word)
    }
}

#[tactic(auto, unfolding(crate::specs::Signing::member_from))]
fn read_member(fields: &[String]) -> Option<Request>
    ensures { result ≡ member_from (map string_bytes fields.now) }
{
    let (number, key) = read_numbered(fields, u64::from(u32::MAX))?;
    Some(Request::NewMember {
        number: number as u32,
        key,
    })
}

#[tactic(auto, unfolding(crate::specs::Signing::occult_from))]
fn read_occult(fields: &[String]) -> Option<Request>
    ensures { result ≡ occult_from (map string_bytes fields.now) }
{
    let (target, leaf) = read_numbered(fields, u64::MAX)?;
    Some(Request::Occult { target, leaf })
}

#[tactic(auto, unfolding(crate::specs::Signing::clue_occult_from))]
fn read_clue_occult(fields: &[String]) -> Option<Request>
    ensures { result ≡ clue_occult_from (map string_bytes fields.now) }
{
    let [name, count] = fields else {
        return None;
    };
    let name = read_clue_word(name.as_bytes())?;
    let count = read_count(count.as_bytes())?;
    Some(Request::OccultClue {
        clue: clue_digest(name),
        count,
    })
}

#[tactic(auto, unfolding(crate::specs::Signing::purge_from))]
fn read_purge(fields: &[String]) -> Option<Request>
    ensures { result ≡ purge_from (map string_bytes fields.now) }
{
    let (point, root) = read_numbered(fields, u64::MAX)?;
    Some(Request::Purge { point, root })
}

// A number, at most `most`, and a digest.
fn read_numbered(fields: &[String], most: u64) -> Option<(u64, Digest)>
    ensures read { result ≡ numbered_digest most (map string_bytes fields.now) }
    ensures high { IfSome result (λ numbered. numbered.0 ≤ most) }
{
    let [number, digest] = fields else {
        return None;
    };
    Some((
        read_number(number.as_bytes(), most)?,
        read_digest(digest.as_bytes())?,
    ))
}
