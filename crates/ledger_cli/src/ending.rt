//! How a run of `ledgerctl` ends: its exit status, and the line that it writes last.

ghost use Rattle.std.specs.Prelude.{◌≡◌, ◌++◌, map, OnOk, IfSome, IfNone};
ghost use Rattle.script_lines.specs.Words.{word_text};
ghost use Rattle.ledger_cli.specs.Endings as spec;
ghost use Rattle.ledger_cli.specs.Endings.{status_of, HasWords};

use crate::denial::{Denial, put_denial};
use batch_committer::CommitErr;
use block_file::Damage;
use dump_export::DumpErr;
use ledger_bytes::NoMemory;
use ledger_io::Ending;
use ledger_open::OpenErr;
use script_lines::{Word, put_words};
use std::alloc::Global;
use survivor_set::SetErr;

/// How a run of the program ended. Each ending has an exit status and a last line.
#[derive(Clone, Copy, Debug, PartialEq, Eq)]
pub enum LedgerEnding {
    /// The run over the lines of the source, or the writing of one text, ended so.
    Run(Ending),
    /// A call of a disk failed.
    DiskFault,
    /// The file that is open is damaged.
    Damaged(Damage),
    /// There is no ledger to open.
    Empty,
    /// There is a ledger already.
    Exists,
    /// The version of a file isn't 1.
    NewerFormat { found: u8 },
    /// The notary failed while a dump was written.
    NotaryFault,
    /// The ledger was opened, and what was asked of it is refused.
    Refused(Denial),
}

impl LedgerEnding {
    /// The exit status, by which whoever started the program is told the ending.
    pub fn status(self) -> u8
        ensures { result ≡ status_of self }
    {
        match self {
            LedgerEnding::Run(ending) => ending.status(),
            LedgerEnding::DiskFault => 4,
            LedgerEnding::Damaged(_) => 5,
            LedgerEnding::Empty | LedgerEnding::Exists => 8,
            LedgerEnding::NewerFormat { .. } => 9,
            LedgerEnding::NotaryFault => 11,
            LedgerEnding::Refused(_) => 12,
        }
    }

    /// The line that is written last, with its newline, where it is made of no words; it is empty where there is none.
    pub fn fixed_line(self) -> Option<&'static [u8]>
        ensures some { IfSome result (λ line. line.now ≡ spec.last_line self) }
        ensures none { IfNone result (HasWords self) }
    {
        match self {
            LedgerEnding::Run(ending) => Some(ending.last_line()),
            LedgerEnding::DiskFault => Some(b"fail 4 disk\n"),
            LedgerEnding::Empty => Some(b"fail 8 empty\n"),
            LedgerEnding::Exists => Some(b"fail 8 exists\n"),
            LedgerEnding::NotaryFault => Some(b"fail 11 notary\n"),
            LedgerEnding::Damaged(_)
            | LedgerEnding::NewerFormat { .. }
            | LedgerEnding::Refused(_) => None,
        }
    }

    /// Appends the line that is written last, with its newline, where it is made of words.
    pub fn put_line(self, out: &mut Vec<u8>, alloc: Global) -> Result<(), NoMemory>
        ensures { HasWords self → OnOk result
            (out.new.items ≡ out.old.items ++ spec.last_line self) }
    {
        match self {
            LedgerEnding::Damaged(damage) => put_damage(out, &damage),
            LedgerEnding::NewerFormat { found } => {
                put_line(out, b"fail 9 format", &[Word::Number(u64::from(found))])
            }
            LedgerEnding::Refused(why) => put_denial(out, alloc, &why),
            _ => Ok(()),
        }
    }
}

// The line of a damage: its name, and the numbers and digests that tell it.
fn put_damage(out: &mut Vec<u8>, damage: &Damage) -> Result<(), NoMemory>
    ensures { OnOk result (out.new.items ≡ out.old.items ++ spec.damage_line damage.now) }
{
    match damage {
        Damage::Magic => put_line(out, b"fail 5 magic", &[]),
        Damage::BaseForm { at } => put_line(out, b"fail 5 baseform", &[Word::Number(*at)]),
        Damage::Base { kept, found } => put_line(
            out,
            b"fail 5 base",
            &[Word::Hash(*kept), Word::Hash(*found)],
        ),
        Damage::Length { at, kept, found } => put_line(
            out,
            b"fail 5 length",
            &[Word::Number(*at), Word::Number(*kept), Word::Number(*found)],
        ),
        Damage::Entry { jsn } => put_line(out, b"fail 5 entry", &[Word::Number(*jsn)]),
        Damage::Root { block, kept, found } => put_line(
            out,
            b"fail 5 root",
            &[Word::Number(*block), Word::Hash(*kept), Word::Hash(*found)],
        ),
        Damage::Content { jsn, kept, found } => put_line(
            out,
            b"fail 5 content",
            &[Word::Number(*jsn), Word::Hash(*kept), Word::Hash(*found)],
        ),
    }
}

/// Appends a line: what stands in front, and words, each behind a space.
pub(crate) fn put_line(out: &mut Vec<u8>, front: &[u8], words: &[Word]) -> Result<(), NoMemory>
    ensures { OnOk result (out.new.items
        ≡ out.old.items ++ spec.line_of front.now (map word_text words.now)) }
{
    out.extend_from_slice(front)?;
    put_words(out, words)?;
    Ok(out.push(b'\n')?)
}

impl From<Ending> for LedgerEnding {
    ghost use Rattle.ledger_cli.specs.declared.ending.LedgerEnding.TheVariants.{Run};

    ghost from_gives = { λ e ending. ending ≡ Run e };

    fn from(ending: Ending) -> Self {
        LedgerEnding::Run(ending)
    }
}

impl From<NoMemory> for LedgerEnding {
    ghost use Rattle.ledger_cli.specs.declared.ending.LedgerEnding.TheVariants.{Run};
    ghost use Rattle.ledger_io.specs.declared.ending.Ending.TheVariants.{NoMemory as no_memory};

    ghost from_gives = { λ _ ending. ending ≡ Run no_memory };

    fn from(_: NoMemory) -> Self {
        LedgerEnding::Run(Ending::NoMemory)
    }
}

impl From<OpenErr> for LedgerEnding {
    ghost use Rattle.ledger_cli.specs.Endings.{ending_of_opening};

    ghost from_gives = { λ e ending. ending ≡ ending_of_opening e };

    fn from(e: OpenErr) -> Self {
        match e {
            OpenErr::DiskFault => LedgerEnding::DiskFault,
            OpenErr::Damaged(damage) => LedgerEnding::Damaged(damage),
            OpenErr::Empty => LedgerEnding::Empty,
            OpenErr::Exists => LedgerEnding::Exists,
            OpenErr::NewerFormat { found } => LedgerEnding::NewerFormat { found },
            OpenErr::NoMemory => LedgerEnding::Run(Ending::NoMemory),
        }
    }
}

impl From<CommitErr> for LedgerEnding {
    ghost use Rattle.ledger_cli.specs.Endings.{ending_of_end};

    ghost from_gives = { λ e ending. ending ≡ ending_of_end e };

    // A committer that is closed takes nothing more; a session ends at its first error, so this one doesn't come.
    fn from(e: CommitErr) -> Self {
        match e {
            CommitErr::DiskFault => LedgerEnding::DiskFault,
            CommitErr::WriteFault => LedgerEnding::Run(Ending::WriteFault),
            CommitErr::NoMemory | CommitErr::Closed => LedgerEnding::Run(Ending::NoMemory),
        }
    }
}

impl From<SetErr> for LedgerEnding {
    ghost use Rattle.ledger_cli.specs.Endings.{ending_of_set};

    ghost from_gives = { λ e ending. ending ≡ ending_of_set e };

    fn from(e: SetErr) -> Self {
        match e {
            SetErr::Refused(refusal) => LedgerEnding::Refused(Denial::Said(refusal)),
            SetErr::Bad(bad) => LedgerEnding::Refused(Denial::NoSet(bad)),
            SetErr::NotBelow { point } => LedgerEnding::Refused(Denial::NotBelow { point }),
            SetErr::OtherLedger { kept } => LedgerEnding::Refused(Denial::OtherLedger { kept }),
            SetErr::LeafPath => LedgerEnding::Refused(Denial::LeafPath),
            SetErr::DiskFault => LedgerEnding::DiskFault,
            SetErr::NoMemory => LedgerEnding::Run(Ending::NoMemory),
        }
    }
}

/// How a run ends whose dump was written so far.
pub(crate) fn ending_of_export(written: Result<(), DumpErr>) -> LedgerEnding
    ensures { result ≡ spec.ending_of_export written }
{
    match written {
        Ok(()) => LedgerEnding::Run(Ending::Done),
        Err(DumpErr::DiskFault) => LedgerEnding::DiskFault,
        Err(DumpErr::NotaryFault) => LedgerEnding::NotaryFault,
        Err(DumpErr::WriteFault) => LedgerEnding::Run(Ending::WriteFault),
        Err(DumpErr::Damaged(damage)) => LedgerEnding::Damaged(damage),
        Err(DumpErr::NoMemory) => LedgerEnding::Run(Ending::NoMemory),
    }
}
