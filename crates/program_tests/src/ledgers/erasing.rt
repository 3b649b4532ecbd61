//! What sessions share that give contents up: the images of a crash, the size that replies tell, and a look for bytes.

use ledger_bytes::NoMemory;
use ledger_disk::Pick;
use std::alloc::Global;

pub(super) const PICKS: [Pick; 3] = [Pick::AllWritten, Pick::NoneWritten, Pick::Torn(1)];

/// More room than such a ledger takes.
pub(super) const ROOM: usize = 16_384;

/// The size behind a block of a ledger; the second words of what its session writes where the receipts of these journals are
/// its last, and of what is answered to the lines that ask for all its journals.
pub(super) type BlockEnd = (usize, &'static str, &'static str);

/// The size that these replies tell, of the session or of the lines that ask for its journals. None for others.
pub(super) fn size_told(
    alloc: Global,
    blocks: &[BlockEnd],
    replies: &[u8],
) -> Result<Option<usize>, NoMemory> {
    let mut verbs = Vec::new(alloc);
    for line in replies.split(|byte| *byte == b'\n') {
        for word in line.split(|byte| *byte == b' ').skip(1).take(1) {
            verbs.extend_from_slice(word)?;
            verbs.push(b' ')?;
        }
    }
    for (size, session, gets) in blocks {
        if verbs.as_slice() == session.as_bytes() || verbs.as_slice() == gets.as_bytes() {
            return Ok(Some(*size));
        }
    }
    Ok(None)
}

/// Whether a piece stands somewhere in these bytes.
pub(super) fn stands_in(bytes: &[u8], piece: &[u8]) -> bool {
    for at in 0..bytes.len() {
        if bytes.get(at..).unwrap_or_default().starts_with(piece) {
            return true;
        }
    }
    false
}
