//! The replies to the lines of a script, and the text of each.

ghost use Rattle.std.specs.Prelude.{◌≡◌, [], ◌++◌, codes, decimal, IfOk, OnOk, OnErr};
ghost use Rattle.ledger_bytes.specs.Begins.{Begins};
ghost use Rattle.script_lines.specs.Replies as spec;
ghost use Rattle.script_lines.specs.Words.{spaced_words, which_text};

use crate::said::Which;
use crate::words::{Word, put_no, put_number, put_words};
use ledger_bytes::{Bytes, Digest, Items, NoMemory, Refusal, TimeMark};
use std::alloc::Global;

/// The answer to a line of a script. Its text is a few words with a space between: numbers in decimal, digests as 64
/// lower-case hexadecimal digits, bytes as two such digits each or `-` for none, a time as `JSN:INDEX:TIME` or `-`,
/// and a list of numbers with commas between or `-`.
#[derive(Debug, Drop)]
pub enum Reply {
    /// A journal was placed: `ok JSN LEAF BLOCK SIZE ROOT`.
    Placed {
        /// The journal's number in the ledger, from 0.
        jsn: u64,
        /// The digest of the journal's leaf.
        leaf: Digest,
        /// The number of the block that holds the journal, from 0.
        block: u64,
        /// The number of journals up to the end of that block.
        size: u64,
        /// The root of the tree over those journals.
        root: Digest,
        /// The index and the time of a time journal's entry in the notary's list. They are two further words.
        stamp: Option<(u64, u64)>,
    },
    /// A journal: `whole HEADER CONTENT WHO`.
    Whole {
        /// The bytes of its header.
        header: [u8; 174],
        content: Bytes,
        /// The bytes of its approvals.
        who: Bytes,
    },
    /// A journal whose content was hidden: `occulted HEADER WHO`.
    Occulted {
        /// The bytes of its header.
        header: [u8; 174],
        /// The bytes of its approvals.
        who: Bytes,
    },
    /// The proof of a journal: `proof N LEAF LO HI HEX`.
    Proof {
        /// The journal's number.
        n: u64,
        /// The digest of the journal's leaf.
        leaf: Digest,
        /// The last time journal before it, where one is kept: its number, index and time.
        lo: Option<(u64, u64, u64)>,
        /// The first time journal behind it, where one is kept: its number, index and time.
        hi: Option<(u64, u64, u64)>,
        /// The bytes of the proof.
        proof: Bytes,
    },
    /// The proof that a tree extends one of its earlier ones: `extension WHICH M SIZE ROOT HEX`.
    Extension {
        which: Which,
        /// The earlier size.
        m: u64,
        /// The size.
        size: u64,
        /// The root.
        root: Digest,
        /// The digests of the proof, one after the other.
        proof: Bytes,
    },
    /// A clue's journals: `clue COUNT LIST`.
    Clue {
        /// How many journals have had the clue.
        count: u32,
        /// The numbers of those that are kept, from the least on.
        kept: Items<u64>,
    },
    /// The ledger's head: `head ID SIZE ROOT BLOCKS POINT NSIZE NROOT`.
    Head {
        /// The ledger's identity: the leaf digest of its first journal.
        id: Digest,
        /// The number of journals in blocks that have ended.
        size: u64,
        /// The root of the tree over those journals.
        root: Digest,
        /// The number of blocks that have ended.
        blocks: u64,
        /// The first journal that a purge left, or 0.
        point: u64,
        /// The number of entries in the notary's list.
        notary_size: u64,
        /// The root of the tree over those.
        notary_root: Digest,
    },
    /// The line adds nothing: `no CODE`, and the refusal's fields.
    Refused(Refusal),
}

/// The text of a reply: `LANE.INDEX`, a space, the reply's words and a newline. `index` counts the lane's lines in a
/// session from 1.
pub fn reply_text(alloc: Global, lane: u8, index: u64, reply: &Reply) -> Result<Bytes, NoMemory>
    ensures { IfOk result (λ text. text ≡ spec.reply_text lane index reply.now) }
{
    let mut text = Vec::new(alloc);
    put_reply(&mut text, lane, index, reply)?;
    Ok(Bytes::of(text))
}

/// Appends the text that [`reply_text`] gives.
pub fn put_reply(out: &mut Vec<u8>, lane: u8, index: u64, reply: &Reply) -> Result<(), NoMemory>
    ensures ok { OnOk result (out.new.items
        ≡ out.old.items ++ spec.reply_text lane index reply.now) }
    ensures err { OnErr result (out.new.items ≡ out.old.items) }
{
    let len = out.len();
    let put = put_line(out, lane, index, reply);
    if put.is_err() {
        out.truncate(len);
    }
    put
}

fn put_line(out: &mut Vec<u8>, lane: u8, index: u64, reply: &Reply) -> Result<(), NoMemory>
    ensures ok { OnOk result (out.new.items
        ≡ out.old.items ++ spec.reply_text lane index reply.now) }
    ensures err { OnErr result (Begins out.old.items out.new.items) }
{
    put_front(out, lane, index)?;
    put_reply_words(out, reply)?;
    Ok(out.push(b'\n')?)
}

/// Appends the line that a reply answers, as `LANE.INDEX`.
pub(crate) fn put_front(out: &mut Vec<u8>, lane: u8, index: u64) -> Result<(), NoMemory>
    ensures ok { OnOk result (out.new.items
        ≡ out.old.items ++ decimal lane ++ codes "." ++ decimal index) }
    ensures err { OnErr result (Begins out.old.items out.new.items) }
{
    put_number(out, u64::from(lane))?;
    out.push(b'.')?;
    put_number(out, index)
}

fn put_reply_words(out: &mut Vec<u8>, reply: &Reply) -> Result<(), NoMemory>
    ensures ok { OnOk result (out.new.items
        ≡ out.old.items ++ spaced_words (spec.reply_words reply.now)) }
    ensures err { OnErr result (Begins out.old.items out.new.items) }
{
    match reply {
        Reply::Placed {
            jsn,
            leaf,
            block,
            size,
            root,
            stamp,
        } => put_placed(out, *jsn, leaf, *block, *size, root, *stamp),
        Reply::Whole {
            header,
            content,
            who,
        } => put_whole(out, header, content, who),
        Reply::Occulted { header, who } => put_occulted(out, header, who),
        Reply::Proof {
            n,
            leaf,
            lo,
            hi,
            proof,
        } => put_proof(out, *n, leaf, *lo, *hi, proof),
        Reply::Extension {
            which,
            m,
            size,
            root,
            proof,
        } => put_extension(out, *which, *m, *size, root, proof),
        Reply::Clue { count, kept } => put_clue(out, *count, kept),
        Reply::Head {
            id,
            size,
            root,
            blocks,
            point,
            notary_size,
            notary_root,
        } => put_words(
            out,
            &[
                Word::Text(b"head"),
                Word::Hash(*id),
                Word::Number(*size),
                Word::Hash(*root),
                Word::Number(*blocks),
                Word::Number(*point),
                Word::Number(*notary_size),
                Word::Hash(*notary_root),
            ],
        ),
        Reply::Refused(refusal) => put_refusal(out, refusal),
    }
}

fn put_placed(
    out: &mut Vec<u8>,
    jsn: u64,
    leaf: &Digest,
    block: u64,
    size: u64,
    root: &Digest,
    stamp: Option<(u64, u64)>,
) -> Result<(), NoMemory>
    ensures ok { OnOk result (out.new.items
        ≡ out.old.items ++ spaced_words (spec.reply_words
        (Reply.Placed jsn leaf.now block size root.now stamp))) }
    ensures err { OnErr result (Begins out.old.items out.new.items) }
{
    put_words(
        out,
        &[
            Word::Text(b"ok"),
            Word::Number(jsn),
            Word::Hash(*leaf),
            Word::Number(block),
            Word::Number(size),
            Word::Hash(*root),
        ],
    )?;
    put_stamp(out, stamp)
}

pub(crate) fn put_stamp(out: &mut Vec<u8>, stamp: Option<(u64, u64)>) -> Result<(), NoMemory>
    ensures ok { OnOk result (out.new.items
        ≡ out.old.items ++ spaced_words (spec.stamp_words stamp)) }
    ensures err { OnErr result (Begins out.old.items out.new.items) }
{
    match stamp {
        Some((index, time)) => put_words(out, &[Word::Number(index), Word::Number(time)]),
        None => Ok(()),
    }
}

fn put_whole<'a>(
    out: &mut Vec<u8>,
    header: &'a [u8; 174],
    content: &'a Bytes,
    who: &'a Bytes,
) -> Result<(), NoMemory>
    ensures ok { OnOk result (out.new.items
        ≡ out.old.items
        ++ spaced_words (spec.reply_words (Reply.Whole header.now content.now who.now))) }
    ensures err { OnErr result (Begins out.old.items out.new.items) }
{
    put_words(
        out,
        &[
            Word::Text(b"whole"),
            Word::Hex(header.as_slice()),
            Word::Hex(content.as_slice()),
            Word::Hex(who.as_slice()),
        ],
    )
}

fn put_occulted<'a>(
    out: &mut Vec<u8>,
    header: &'a [u8; 174],
    who: &'a Bytes,
) -> Result<(), NoMemory>
    ensures ok { OnOk result (out.new.items
        ≡ out.old.items ++ spaced_words (spec.reply_words (Reply.Occulted header.now who.now))) }
    ensures err { OnErr result (Begins out.old.items out.new.items) }
{
    put_words(
        out,
        &[
            Word::Text(b"occulted"),
            Word::Hex(header.as_slice()),
            Word::Hex(who.as_slice()),
        ],
    )
}

fn put_proof(
    out: &mut Vec<u8>,
    n: u64,
    leaf: &Digest,
    lo: Option<(u64, u64, u64)>,
    hi: Option<(u64, u64, u64)>,
    proof: &Bytes,
) -> Result<(), NoMemory>
    ensures ok { OnOk result (out.new.items
        ≡ out.old.items
        ++ spaced_words (spec.reply_words (Reply.Proof n leaf.now lo hi proof.now))) }
    ensures err { OnErr result (Begins out.old.items out.new.items) }
{
    put_words(
        out,
        &[
            Word::Text(b"proof"),
            Word::Number(n),
            Word::Hash(*leaf),
            Word::Mark(time_mark(lo)),
            Word::Mark(time_mark(hi)),
            Word::Hex(proof.as_slice()),
        ],
    )
}

// The time mark of these three numbers.
fn time_mark(said: Option<(u64, u64, u64)>) -> Option<TimeMark>
    ensures { result ≡ spec.time_mark said }
{
    let (jsn, index, time) = said?;
    Some(TimeMark { jsn, index, time })
}

fn put_extension(
    out: &mut Vec<u8>,
    which: Which,
    m: u64,
    size: u64,
    root: &Digest,
    proof: &Bytes,
) -> Result<(), NoMemory>
    ensures ok { OnOk result (out.new.items
        ≡ out.old.items ++ spaced_words (spec.reply_words
        (Reply.Extension which m size root.now proof.now))) }
    ensures err { OnErr result (Begins out.old.items out.new.items) }
{
    put_words(
        out,
        &[
            Word::Text(b"extension"),
            Word::Text(name_of(which)),
            Word::Number(m),
            Word::Number(size),
            Word::Hash(*root),
            Word::Hex(proof.as_slice()),
        ],
    )
}

fn put_clue(out: &mut Vec<u8>, count: u32, kept: &Items<u64>) -> Result<(), NoMemory>
    ensures ok { OnOk result (out.new.items
        ≡ out.old.items ++ spaced_words (spec.reply_words (Reply.Clue count kept.now))) }
    ensures err { OnErr result (Begins out.old.items out.new.items) }
{
    put_words(
        out,
        &[
            Word::Text(b"clue"),
            Word::Number(u64::from(count)),
            Word::Numbers(kept.as_slice()),
        ],
    )
}

fn name_of(which: Which) -> &'static [u8]
    ensures { result.now ≡ which_text which }
{
    match which {
        Which::Ledger => b"ledger",
        Which::Notary => b"notary",
    }
}

/// Appends a refusal's words, each behind a space: `no`, its code, and its fields.
pub fn put_refusal(out: &mut Vec<u8>, refusal: &Refusal) -> Result<(), NoMemory>
    ensures ok { OnOk result (out.new.items
        ≡ out.old.items ++ spaced_words (spec.reply_words (Reply.Refused refusal.now))) }
    ensures err { OnErr result (Begins out.old.items out.new.items) }
{
    let code = refusal.code();
    match refusal {
        Refusal::BadVerb
        | Refusal::BadLane
        | Refusal::MembersFull
        | Refusal::NotaryFault
        | Refusal::NotaryFull
        | Refusal::CluesFull
        | Refusal::NothingToHide => put_no(out, code, &[]),
        Refusal::BadField { column: number }
        | Refusal::UnknownMember { member: number }
        | Refusal::WrongKey { member: number }
        | Refusal::MissingApproval { member: number }
        | Refusal::ApprovalOrder { at: number }
        | Refusal::MemberNumber { next: number }
        | Refusal::ClueDiffers { count: number } => {
            put_no(out, code, &[Word::Number(u64::from(*number))])
        }
        Refusal::NotData { kind } | Refusal::NotTime { kind } => {
            put_no(out, code, &[Word::Number(u64::from(*kind))])
        }
        Refusal::NoJournal { size: number }
        | Refusal::Purged { point: number }
        | Refusal::AlreadyOcculted { by: number }
        | Refusal::BadSize { size: number }
        | Refusal::NumberTaken { jsn: number } => put_no(out, code, &[Word::Number(*number)]),
        Refusal::LeafDiffers { kept } | Refusal::RootDiffers { kept } => {
            put_no(out, code, &[Word::Hash(*kept)])
        }
        Refusal::Damaged { kept, found } => {
            put_no(out, code, &[Word::Hash(*kept), Word::Hash(*found)])
        }
        Refusal::Full { kept, size } => {
            put_no(out, code, &[Word::Number(*kept), Word::Number(*size)])
        }
    }
}
