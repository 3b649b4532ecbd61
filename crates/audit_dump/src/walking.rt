//! The journals of a dump, read one after the other through a window on its source.

ghost use Rattle.std.specs.Prelude.{◌≡◌, ◌≤◌, ◌^◌, ℕ, List, length, IfOk, IfErr, OnOk, Err};
ghost use Rattle.ledger_bytes.specs.Fields.{IsBytes};
ghost use Rattle.ledger_io.specs.Lines.{script_limit};
ghost use Rattle.ledger_io.specs.Windows.{HasSeen, HasEnough};
ghost use Rattle.journal_record.specs.Items.{most_bytes};
ghost use Rattle.audit_dump.specs.Breaks.{place_behind};
ghost use Rattle.audit_dump.specs.Walking.{BeginsWith, IsNextItem, field_place, in_whole, place_left};

use journal_record::{HEADER_LEN, WHO_LIMIT, take_record};
use ledger_bytes::{Bad, CONTENT_LIMIT, FieldReader};
use ledger_io::{LineErr, Source, Window};

// The most bytes of a journal in a dump: its header, the state and the longest content, and the longest who behind its
// length.
const MOST_BYTES: usize = HEADER_LEN + (1 + CONTENT_LIMIT as usize) + (4 + WHO_LIMIT as usize);

// A break of a dump's bytes.
#[derive(Clone, Copy, Debug, PartialEq, Eq)]
pub(crate) struct Break {
    // What breaks. Places in it count as those of `take_record`: a field's from the journal's first byte, and the
    // input's end from the input's.
    pub(crate) bad: Bad,
    // Where it breaks, counted in bytes from the input's first.
    pub(crate) place: u64,
}

// How many bytes the next journal has, which the window then holds whole; or how it breaks. Nothing is taken from the
// window.
//
// The source is read until the window holds as many bytes as the longest journal has, 2,098,867, or the source ends; each
// read asks for 64 KiB at most, so memory doesn't grow with the input. `ReadFault` where a read failed, `ScriptTooLong`
// where 2^40 bytes were read and more are wanted, and `NoMemory`; `LineTooLong` doesn't come. The bytes that were read
// stay in the window.
pub(crate) fn next_item<S: Source>(
    window: &mut Window,
    source: &mut S,
) -> Result<Result<usize, Break>, LineErr>
    // What was read stands behind what was held.
    ensures seen { (bytes : List ℕ)
        × HasSeen (S.state source.old) (S.state source.new) window.old window.new bytes }
    // What is told is so of every input that begins so.
    ensures told { IfOk result (IsNextItem window.new) }
    ensures counts { OnOk result ((S.state source.new).faults ≡ (S.state source.old).faults) }
    ensures errors { IfErr result (λ e. HasEnough (S.state source.old) (S.state source.new)
        most_bytes window.new (Err e)) }
{
    match window.fill(source, MOST_BYTES) {
        Ok(()) => Ok(item_len(window.as_slice(), window.place())),
        Err(e) => Err(e),
    }
}

// How many bytes the journal has with which these begin, the last of an input, at this place of it.
pub(crate) fn item_len(bytes: &[u8], start: u64) -> Result<usize, Break>
    requires { start ≤ script_limit }
    ensures begins { BeginsWith start bytes.now result }
    ensures bytes { IsBytes bytes.now }
{
    let mut reader = FieldReader::new(bytes);
    match take_record(&mut reader) {
        Ok(_) => match reader.end() {
            Ok(()) => Ok(bytes.len()),
            Err(bad) => Ok(first_left(&bad)),
        },
        Err(bad) => Err(break_at(bad, start, start + bytes.len() as u64)),
    }
}

// Where the first byte stands that is left over.
fn first_left(bad: &Bad) -> usize
    ensures { result ≡ place_left bad.now }
{
    match bad {
        Bad::Trailing { at } => *at as usize,
        _ => 0,
    }
}

// A break of the last bytes of an input, from this place to its end, as one of the input.
fn break_at(bad: Bad, start: u64, end: u64) -> Break
    requires start { start ≤ script_limit }
    requires near { field_place bad ≤ 2 ^ 33 }
    ensures bad { result.bad ≡ in_whole end bad }
    ensures place { result.place ≡ place_behind start result.bad }
{
    match bad {
        Bad::Short { .. } => Break {
            bad: Bad::Short { at: end },
            place: end,
        },
        Bad::Trailing { at } => Break { bad, place: at },
        Bad::BadKind { .. } => Break {
            bad,
            place: start + 1,
        },
        Bad::BadFixedField { at } => Break {
            bad,
            place: start + at,
        },
        Bad::NewerFormat { .. } | Bad::TooLong => Break { bad, place: start },
    }
}
