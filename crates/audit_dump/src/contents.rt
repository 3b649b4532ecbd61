//! Whether what stands beside a header is what the header names.

ghost use Rattle.std.specs.Prelude.{◌≡◌, ◌↔◌, IsTrue, IfSome};
ghost use Rattle.journal_record.specs.Entry.{content_digest_of};
ghost use Rattle.journal_record.specs.Items.{body_seen};
ghost use Rattle.audit_dump.specs.Contents.{IsKeptWhole};

use journal_record::{Body, Header, Record, content_digest, who_digest};

// Whether a journal's content, where it is there, and the bytes that show who placed it have the digests that its header
// names. It takes no memory, and hashes both.
pub(crate) fn is_kept_whole(journal: &Record) -> bool
    ensures { IsTrue result ↔ IsKeptWhole journal.now }
{
    has_own_content(&journal.header, &journal.body)
        && who_digest(journal.who) == journal.header.who_digest
}

// Whether a content that is there has the digest that the header names.
fn has_own_content(header: &Header, body: &Body) -> bool
    ensures { IsTrue result ↔ IfSome (body_seen body.now)
        (λ content. header.now.content_digest.0 ≡ content_digest_of content) }
{
    match body {
        Body::Whole(content) => content_digest(content) == header.content_digest,
        Body::Erased => true,
    }
}
