//! Where a journal's content, and the bytes that show who placed it, stand in a file.

ghost use Rattle.std.specs.Prelude.{◌≡◌, ◌<◌, ◌+◌, ◌-◌, ◌^◌, IfSome, IfNone};
ghost use Rattle.block_file.specs.Places.{content_from, moved_place, place_of_lengths, place_of_record};

use crate::RecordAt;

/// The offset of the first block's gate in a file without a base: it stands behind the file's head.
pub const FIRST_GATE: u64 = 64;

/// How many bytes behind a block's gate its records begin: the gate and the head.
pub(crate) const BODY_BEHIND_GATE: u64 = 45;

/// How many bytes of a record stand before its content: the header, and the length of who placed the journal.
const CONTENT_BEHIND_RECORD: u64 = 178;

/// Where that of a journal stands which isn't in its header. Offsets are in bytes, from the file's first.
#[derive(Clone, Copy, Debug)]
pub struct PlaceAt {
    /// The offset of the content.
    pub content_at: u64,
    /// The offset of the bytes that show who placed the journal.
    pub who_at: u64,
    pub content_len: u32,
    pub who_len: u32,
}

// A ledger has one for each of its journals: no byte stands between the fields.
const _: () = prove!(size_of::<PlaceAt>() == 24);

impl PlaceAt {
    /// That of a journal whose record begins at this offset.
    pub(crate) fn in_record(at: u64, content_len: u32, who_len: u32) -> Self
        requires { at < 2 ^ 64 - 2 ^ 33 }
        ensures { result ≡ place_of_lengths at content_len who_len }
    {
        let content_at = at + CONTENT_BEHIND_RECORD;
        PlaceAt {
            content_at,
            who_at: content_at + u64::from(content_len),
            content_len,
            who_len,
        }
    }

    /// That of a journal whose record was read.
    pub fn of(journal: &RecordAt) -> Self
        ensures { result ≡ place_of_record journal.now }
    {
        PlaceAt {
            content_at: journal.content_at,
            who_at: journal.who_at,
            content_len: journal.header.content_len,
            who_len: journal.who_len,
        }
    }

    /// The same where what stood at one offset stands at another. Offsets of a file are far below the greatest number.
    pub fn moved(&self, old: u64, new: u64) -> Self
        ensures { result ≡ moved_place old new self.now }
    {
        PlaceAt {
            content_at: self.content_at.saturating_sub(old).saturating_add(new),
            who_at: self.who_at.saturating_sub(old).saturating_add(new),
            content_len: self.content_len,
            who_len: self.who_len,
        }
    }

    /// The offset of the gate of a block whose first journal this is. None where the content stands too far in front for
    /// one.
    pub fn gate(&self) -> Option<u64>
        ensures some { IfSome result (λ gate. content_from gate ≡ self.now.content_at) }
        ensures none { IfNone result (self.now.content_at < content_from 0) }
    {
        self.content_at
            .checked_sub(BODY_BEHIND_GATE + CONTENT_BEHIND_RECORD)
    }
}
