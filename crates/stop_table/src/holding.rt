//! What has to stand on the disks behind a stop or a fault.

use crate::script::{ENDS, End, HIDDEN, REPLIES, TOLD};
use anyhow::{Context, Result, ensure};

/// How many replies stand whole in what was written, and whether all of it is a beginning of the replies, but for a last line
/// that tells a failure.
pub(crate) fn replies_in(written: &[u8], last_line: &str) -> Option<usize> {
    let mut rest = written.strip_suffix(last_line.as_bytes())?;
    for (whole, reply) in REPLIES.iter().enumerate() {
        match rest.strip_prefix(reply.as_bytes()) {
            Some(more) => rest = more,
            None => return is_cut(rest, reply).then_some(whole),
        }
    }
    rest.is_empty().then_some(REPLIES.len())
}

// Whether bytes are a beginning of a reply.
fn is_cut(bytes: &[u8], reply: &str) -> bool {
    reply.as_bytes().starts_with(bytes)
}

/// How many journals there have to be where so many replies were written.
pub(crate) fn least_size(replies: usize) -> u64 {
    TOLD.get(replies).copied().unwrap_or(0)
}

/// Looks at a ledger that was opened again: what it tells of its head, and both files then. It ends where a block ended, has each
/// journal of which a receipt was written, has no content that was hidden for good, and one file behind a purge.
pub(crate) fn check(status: u8, written: &[u8], a: &[u8], b: &[u8], least: u64) -> Result<()> {
    if least == 0 && status == 8 {
        ensure!(
            written == b"fail 8 empty\n".as_slice(),
            "it isn't told as empty"
        );
        return Ok(());
    }
    ensure!(status == 0, "it isn't opened: {status}");
    let end = end_of(written).context("the head isn't that of a block's end")?;
    ensure!(
        least <= end.size,
        "a receipt is lost: {} of {least}",
        end.size
    );
    ensure!(
        !has_hidden(a, end.size) && !has_hidden(b, end.size),
        "a hidden content is there"
    );
    ensure!(
        end.size < 12 || (a.is_empty() != b.is_empty()),
        "both files are there behind the purge"
    );
    Ok(())
}

// The block's end that is told.
fn end_of(written: &[u8]) -> Option<End> {
    ENDS.iter()
        .find(|end| written.starts_with(end.head.as_bytes()))
        .copied()
}

// Whether a content that one of so many journals hides stands in these bytes.
fn has_hidden(bytes: &[u8], size: u64) -> bool {
    for (content, least) in HIDDEN.iter() {
        if *least <= size && has_content(bytes, content) {
            return true;
        }
    }
    false
}

fn has_content(bytes: &[u8], content: &str) -> bool {
    !content.is_empty()
        && bytes
            .windows(content.len())
            .any(|part| part == content.as_bytes())
}
