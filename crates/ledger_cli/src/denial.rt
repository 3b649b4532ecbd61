//! Why a command on an opened ledger is refused.

ghost use Rattle.std.specs.Prelude.{◌≡◌, ◌++◌, OnOk, map};
ghost use Rattle.script_lines.specs.Words.{word_text};
ghost use Rattle.ledger_cli.specs.Endings as spec;

use crate::ending::put_line;
use ledger_bytes::{Bad, Digest, NoMemory, Refusal};
use script_lines::{Word, put_refusal};
use std::alloc::Global;

/// Why a command is refused that asks an opened ledger for one text. `docs/FORMATS.md` has the code of each.
#[derive(Clone, Copy, Debug, PartialEq, Eq)]
pub enum Denial {
    /// Code 53: no record of the clue that is kept has such an ordinal.
    NoLineage,
    /// What is refused with a code that lines of a script have too.
    Said(Refusal),
    /// Codes 1, 2, 8, 9 and 31: the input spells no set of survivors.
    NoSet(Bad),
    /// Code 51: the number isn't below the point.
    NotBelow {
        point: u64,
    },
    /// Code 52: the set is of another ledger.
    OtherLedger {
        /// The id of the ledger that is open.
        kept: Digest,
    },
    /// Code 35: the path of a survivor doesn't lead to the set's root.
    LeafPath,
}

/// Appends the line of a denial: `no`, its code and its fields, with a newline.
pub(crate) fn put_denial(out: &mut Vec<u8>, alloc: Global, why: &Denial) -> Result<(), NoMemory>
    ensures { OnOk result (out.new.items ≡ out.old.items ++ spec.denial_line why.now) }
{
    match why {
        Denial::NoLineage => put_line(out, b"no", &[Word::Number(53)]),
        Denial::Said(refusal) => put_said(out, alloc, refusal),
        Denial::NoSet(bad) => put_bad(out, bad),
        Denial::NotBelow { point } => put_line(
            out,
            b"no",
            &[Word::Number(51), Word::Number(*point)],
        ),
        Denial::OtherLedger { kept } => {
            put_line(out, b"no", &[Word::Number(52), Word::Hash(*kept)])
        }
        Denial::LeafPath => put_line(out, b"no", &[Word::Number(35)]),
    }
}

// The line of a refusal that lines of a script have too, without what stands in front of it there.
fn put_said(out: &mut Vec<u8>, alloc: Global, refusal: &Refusal) -> Result<(), NoMemory>
    ensures { OnOk result (out.new.items ≡ out.old.items ++ spec.said_line refusal.now) }
{
    let mut words = Vec::new(alloc);
    put_refusal(&mut words, refusal)?;
    let Some((_, line)) = words.as_slice().split_first() else {
        unreachable!()
    };
    out.extend_from_slice(line)?;
    Ok(out.push(b'\n')?)
}

// The line that tells why bytes spell nothing.
fn put_bad(out: &mut Vec<u8>, bad: &Bad) -> Result<(), NoMemory>
    ensures { OnOk result (out.new.items ≡ out.old.items ++ spec.bad_line bad.now) }
{
    let (code, field) = match bad {
        Bad::Short { at } => (1, *at),
        Bad::Trailing { at } => (2, *at),
        Bad::BadKind { found } => (8, u64::from(*found)),
        Bad::BadFixedField { at } => (9, *at),
        Bad::NewerFormat { found } => (31, u64::from(*found)),
        Bad::TooLong => return put_line(out, b"no", &[Word::Number(32)]),
    };
    put_line(out, b"no", &[Word::Number(code), Word::Number(field)])
}
