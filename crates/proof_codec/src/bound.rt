//! What a proof shows of the time journals in front of its journal and behind it.

ghost use Rattle.std.specs.Prelude.{◌≡◌};
ghost use Rattle.proof_codec.specs.Claims.{lower_mark};

use journal_record::Header;
use ledger_bytes::{Digest, TimeMark};
use std::marker::Model;

/// What a proof shows of the time journal in front of a journal.
#[derive(Debug, Drop)]
pub struct Lower<'a> {
    /// The time journal's header, whose link is the salt of the notary's entry.
    pub header: Header,
    /// The path of its leaf in the ledger's tree, digest by digest.
    pub path: &'a [u8],
    /// The root over the journals in front of it.
    pub root: Digest,
    /// The proof that the ledger's tree goes on from that root, digest by digest.
    pub ext: &'a [u8],
}

impl<'a> Model for Lower<'a> {
    ghost use Rattle.proof_codec.specs.Proofs.{ShownLower};

    ghost Value = { ShownLower };

    ghost view = { λ l. record {
      header = l.header;
      path = l.path.now;
      root = l.root;
      ext = l.ext.now;
    } };
}

impl<'a> Lower<'a> {
    /// The mark of the time journal.
    pub fn mark(&self) -> TimeMark
        ensures { result ≡ lower_mark self.now }
    {
        TimeMark {
            jsn: self.header.jsn,
            index: self.header.a,
            time: self.header.b,
        }
    }
}

/// What a proof shows of the time journal behind a journal.
#[derive(Debug, Drop)]
pub struct Upper<'a> {
    /// The mark of the time journal.
    pub mark: TimeMark,
    /// The salt of the notary's entry.
    pub salt: Digest,
    /// The root over the journals in front of it.
    pub root: Digest,
    /// The proof that the ledger's tree goes on from that root, digest by digest.
    pub ext: &'a [u8],
}

impl<'a> Model for Upper<'a> {
    ghost use Rattle.proof_codec.specs.Proofs.{ShownUpper};

    ghost Value = { ShownUpper };

    ghost view = { λ u. record { mark = u.mark; salt = u.salt; root = u.root; ext = u.ext.now } };
}
