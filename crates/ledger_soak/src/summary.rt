//! The line that sums up a soak.

ghost use Rattle.std.specs.Prelude.{◌≡◌, ◌++◌, ◌∷◌, [], codes, decimal, IfOk, OnOk};
ghost use Rattle.script_lines.specs.Words.{hex_of, spaced_words};

use ledger_bytes::{Digest, NoMemory};
use script_lines::{Word, put_words};
use std::alloc::Global;

/// What a soak tells of its run.
#[derive(Clone, Copy, Debug, PartialEq, Eq)]
pub struct Summary {
    pub seed: u64,
    /// How many jobs were drawn.
    pub count: u64,
    /// How many calls of write, cut and sync a fuse passes on, or 0 where there are no fuses.
    pub stop: u64,
    /// One more than how often the ledger was stopped and opened again.
    pub sessions: u64,
    /// How many journals the ledger has at the end.
    pub size: u64,
    /// The first journal that isn't purged.
    pub point: u64,
    /// How many jobs were answered `no`.
    pub refused: u64,
    /// How many proofs were written.
    pub proofs: u64,
    /// How many of them the auditor accepted.
    pub yes: u64,
    /// How many receipts weren't found, each counted at each reopening.
    pub lost: u64,
    /// The root over all journals at the end.
    pub root: Digest,
}

impl Summary {
    ghost use Rattle.ledger_soak.specs.Soaks.{summary_text};

    /// Its line, with a newline.
    pub fn text(&self, alloc: Global) -> Result<Vec<u8>, NoMemory>
        ensures { IfOk result (λ text. text.items ≡ summary_text self.now) }
    {
        let mut line = Vec::new(alloc);
        line.extend_from_slice(b"soak")?;
        self.put_plan(&mut line)?;
        self.put_counts(&mut line)?;
        line.push(b'\n')?;
        Ok(line)
    }

    // What the run was, and where the ledger stands.
    fn put_plan(&self, line: &mut Vec<u8>) -> Result<(), NoMemory>
        ensures { OnOk result (line.new.items ≡ line.old.items ++ spaced_words
            (decimal self.now.seed ∷ decimal self.now.count ∷ decimal self.now.stop
            ∷ codes "sessions" ∷ decimal self.now.sessions ∷ codes "size" ∷ decimal self.now.size
            ∷ codes "point" ∷ decimal self.now.point ∷ [])) }
    {
        put_words(
            line,
            &[
                Word::Number(self.seed),
                Word::Number(self.count),
                Word::Number(self.stop),
                Word::Text(b"sessions"),
                Word::Number(self.sessions),
                Word::Text(b"size"),
                Word::Number(self.size),
                Word::Text(b"point"),
                Word::Number(self.point),
            ],
        )
    }

    // What was counted, and the root.
    fn put_counts(&self, line: &mut Vec<u8>) -> Result<(), NoMemory>
        ensures { OnOk result (line.new.items ≡ line.old.items ++ spaced_words
            (codes "refused" ∷ decimal self.now.refused ∷ codes "proofs" ∷ decimal self.now.proofs
            ∷ codes "yes" ∷ decimal self.now.yes ∷ codes "lost" ∷ decimal self.now.lost
            ∷ codes "root" ∷ hex_of self.now.root ∷ [])) }
    {
        put_words(
            line,
            &[
                Word::Text(b"refused"),
                Word::Number(self.refused),
                Word::Text(b"proofs"),
                Word::Number(self.proofs),
                Word::Text(b"yes"),
                Word::Number(self.yes),
                Word::Text(b"lost"),
                Word::Number(self.lost),
                Word::Text(b"root"),
                Word::Hash(self.root),
            ],
        )
    }
}
