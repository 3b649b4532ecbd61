//! The replies to the lines of an audit script, and the words in which they are written.

ghost use Rattle.std.specs.Prelude.{◌≡◌, ◌++◌, OnOk};
ghost use Rattle.script_lines.specs.Words.{spaced_words};
ghost use Rattle.audit_cli.specs.Replies.{no_words, reply_words, reply_text};

use audit_core::No;
use ledger_bytes::{Bytes, NoMemory, Refusal};
use script_lines::{Word, put_number, put_refusal, put_words};

/// The answer to a line of an audit script.
#[derive(Debug, Drop)]
pub(crate) enum Reply {
    /// The head is trusted, or the proof is accepted.
    Yes,
    /// The head isn't trusted, or the proof isn't accepted.
    No(No),
    /// The proof isn't accepted under the lists' own heads.
    Unaccepted(No),
    /// It is, and its claim is true of the lists.
    True,
    /// It is, and its claim is false of the lists. Then these two strings have one digest.
    Clash {
        /// The proof's string.
        told: Bytes,
        /// The list's, in its place.
        truth: Bytes,
    },
    /// The line is of no form that is read.
    Refused(Refusal),
}

/// Appends the line that answers the line with this number: the number, a space, the reply's words and a newline.
pub(crate) fn put_reply(out: &mut Vec<u8>, number: u64, reply: &Reply) -> Result<(), NoMemory>
    ensures { OnOk result (out.new.items ≡ out.old.items ++ reply_text number reply.now) }
{
    put_number(out, number)?;
    put_reply_words(out, reply)?;
    Ok(out.push(b'\n')?)
}

fn put_reply_words(out: &mut Vec<u8>, reply: &Reply) -> Result<(), NoMemory>
    ensures { OnOk result (out.new.items ≡ out.old.items ++ spaced_words (reply_words reply.now)) }
{
    match reply {
        Reply::Yes => put_words(out, &[Word::Text(b"yes")]),
        Reply::No(why) => {
            put_words(out, &[Word::Text(b"no")])?;
            put_why(out, why)
        }
        Reply::True => put_words(out, &[Word::Text(b"true")]),
        Reply::Unaccepted(why) => {
            put_words(out, &[Word::Text(b"unaccepted")])?;
            put_why(out, why)
        }
        Reply::Clash { told, truth } => put_words(
            out,
            &[
                Word::Text(b"clash"),
                Word::Hex(told.as_slice()),
                Word::Hex(truth.as_slice()),
            ],
        ),
        Reply::Refused(refusal) => put_refusal(out, refusal),
    }
}

// The code of a no, and the words behind it.
fn put_why(out: &mut Vec<u8>, why: &No) -> Result<(), NoMemory>
    ensures { OnOk result (out.new.items ≡ out.old.items ++ spaced_words (no_words why.now)) }
{
    match why {
        No::HeadUnknown { size } => put_words(out, &[Word::Number(34), Word::Number(*size)]),
        No::LeafPath => put_words(out, &[Word::Number(35)]),
        No::LowerBound => put_words(out, &[Word::Number(36)]),
        No::UpperBound => put_words(out, &[Word::Number(37)]),
        No::NotaryPath => put_words(out, &[Word::Number(38)]),
        No::TimesCross => put_words(out, &[Word::Number(39)]),
        No::ClaimDiffers => put_words(out, &[Word::Number(40)]),
        No::Malformed { at } => put_words(out, &[Word::Number(41), Word::Number(*at)]),
        No::BadExtension => put_words(out, &[Word::Number(43)]),
        No::HeadDiffers { kept } => put_words(out, &[Word::Number(44), Word::Hash(*kept)]),
        No::HeadsFull => put_words(out, &[Word::Number(45)]),
    }
}
