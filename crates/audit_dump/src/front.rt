//! What stands in front of the journals of a dump, read through a window on its source.

ghost use Rattle.std.specs.Prelude.{◌≡◌, ◌<◌, ◌≤◌, ◌^◌, ◌-◌, ◌+◌, ℕ, List, length, IfOk, IfErr, IfSome, OnOk, Err};
ghost use Rattle.std.specs.Int.{w64};
ghost use Rattle.ledger_bytes.specs.Fields.{number_at, digest_at};
ghost use Rattle.ledger_bytes.specs.declared.failure.Bad.TheVariants.{Short as short_bad};
ghost use Rattle.ledger_io.specs.Lines.{script_limit};
ghost use Rattle.ledger_io.specs.Windows.{HasEnough};
ghost use Rattle.journal_record.specs.Items.{most_bytes};
ghost use Rattle.dump_model.specs.Dumps.{magic};
ghost use Rattle.pseudo_genesis.specs.Bases.{IsBase, HasWidths};
ghost use Rattle.pseudo_genesis.specs.Reading.{base_of};
ghost use Rattle.audit_dump.specs.Breaks.{base_part_at, begins_as, front_at, place_within};
ghost use Rattle.audit_dump.specs.Fronts.{Decodes, HasReadOn, ReadsOn, TellsOver, as_front, base_bad, base_behind, begin_at, most_base, skip_at, stops_as_front};

use crate::walking::Break;
use ledger_bytes::{Bad, Digest, FieldReader};
use ledger_io::{LineErr, Source, Window};
use pseudo_genesis::{Base, BaseErr, CLUE_LIMIT};
use std::alloc::Global;

// The bytes with which each dump begins.
const MAGIC: [u8; 8] = *b"LDGDUMP1";

// Where the base stands, behind 8 bytes, the id and its own length.
const BASE_PLACE: u64 = 48;

// No base has more bytes: its front, the peaks, the keys and the clues with their counts.
const MOST_BASE: u64 = 49 + 32 * 32 + (2 + 32 * 256) + (4 + 44 * CLUE_LIMIT as u64);

// Why reading goes no further: the input breaks, or it can't be read.
#[derive(Clone, Copy, Debug, PartialEq, Eq)]
pub(crate) enum Stop {
    Broken(Break),
    Failed(LineErr),
}

impl From<LineErr> for Stop {
    ghost use Rattle.std.specs.Prelude.{◌≡◌};
    ghost use Rattle.audit_dump.specs.declared.front.Stop.TheVariants.{Failed as failed};

    ghost from_gives = { λ e stop. stop ≡ failed e };

    fn from(e: LineErr) -> Self {
        Stop::Failed(e)
    }
}

// What stands in front of the journals of a dump, but their number.
#[derive(Debug, Drop)]
pub(crate) struct Front {
    // The ledger's id, as the dump tells it.
    pub(crate) id: Digest,
    // What stands for the journals in front of the first one that is there, where some were given up.
    pub(crate) base: Option<Base>,
}

// Reads what stands in front of the journals' number, and takes it from the window: the 8 bytes with which each dump
// begins, the id, and the base behind its length. A dump without a base has the length 0.
//
// A wrong byte among the first 8 is told before that others are missing, and a break of the base at its own place in the
// input. The source is read until the window holds as many bytes as the next part needs, or the source ends; of a base
// those are at most 46,146,616, so memory doesn't grow with the input. Where a greater length is told the base breaks,
// and its bytes are read only to learn whether the input ends before. `ReadFault` where a read failed, `ScriptTooLong`
// where 2^40 bytes were read and more are wanted, and `NoMemory`; `LineTooLong` doesn't come. After an error or a break
// some of the front may have been taken from the window.
pub(crate) fn read_front<S: Source>(
    window: &mut Window,
    source: &mut S,
    alloc: Global,
) -> Result<Result<Front, Break>, LineErr>
    // What is told is so of every input that begins so.
    ensures over { (bytes : List ℕ)
        × HasReadOn (S.state source.old) (S.state source.new) window.old window.new bytes
        × IfOk result (λ told. TellsOver front_at window.old window.new bytes (as_front told)) }
    // A base keeps its rules.
    ensures fits { IfOk result (λ told. IfOk told (λ front. IfSome front.base
        (λ base. IsBase base × HasWidths base))) }
    ensures counts { OnOk result ((S.state source.new).faults ≡ (S.state source.old).faults) }
    ensures errors { IfErr result (λ e. HasEnough (S.state source.old) (S.state source.new)
        most_bytes window.new (Err e)) }
{
    match take_front(window, source, alloc) {
        Ok(front) => Ok(Ok(front)),
        Err(Stop::Broken(broken)) => Ok(Err(broken)),
        Err(Stop::Failed(e)) => Err(e),
    }
}

// Reads how many journals follow, the 8 bytes behind the front, and takes them from the window.
//
// The source is read until the window holds 8 bytes, or the source ends; memory doesn't grow with the input. The break is
// `Short` at the input's end. `ReadFault` where a read failed, `ScriptTooLong` where 2^40 bytes were read and more are
// wanted, and `NoMemory`; `LineTooLong` doesn't come.
pub(crate) fn read_count<S: Source>(
    window: &mut Window,
    source: &mut S,
) -> Result<Result<u64, Break>, LineErr>
    // What is told is so of every input that begins so.
    ensures over { (bytes : List ℕ)
        × HasReadOn (S.state source.old) (S.state source.new) window.old window.new bytes
        × IfOk result (TellsOver (number_at w64) window.old window.new bytes) }
    ensures counts { OnOk result ((S.state source.new).faults ≡ (S.state source.old).faults) }
    ensures errors { IfErr result (λ e. HasEnough (S.state source.old) (S.state source.new)
        most_bytes window.new (Err e)) }
{
    match take_number(window, source) {
        Ok(count) => Ok(Ok(count)),
        Err(Stop::Broken(broken)) => Ok(Err(broken)),
        Err(Stop::Failed(e)) => Err(e),
    }
}

// The next 8 bytes as a number.
fn take_number<S: Source>(window: &mut Window, source: &mut S) -> Result<u64, Stop>
    ensures { ReadsOn (number_at w64) (S.state source.old) (S.state source.new)
        window.old window.new result }
{
    window.fill(source, 8)?;
    let taken = FieldReader::new(window.as_slice()).take_u64();
    match taken {
        Ok(number) => {
            window.consume(8);
            Ok(number)
        }
        Err(_) => Err(Stop::Broken(end_of(window))),
    }
}

// The next 32 bytes as a digest.
fn take_digest<S: Source>(window: &mut Window, source: &mut S) -> Result<Digest, Stop>
    ensures { ReadsOn digest_at (S.state source.old) (S.state source.new)
        window.old window.new result }
{
    window.fill(source, 32)?;
    let taken = FieldReader::new(window.as_slice()).take_digest();
    match taken {
        Ok(digest) => {
            window.consume(32);
            Ok(digest)
        }
        Err(_) => Err(Stop::Broken(end_of(window))),
    }
}

// The bytes with which each dump begins.
fn take_magic<S: Source>(window: &mut Window, source: &mut S) -> Result<(), Stop>
    ensures { ReadsOn begin_at (S.state source.old) (S.state source.new)
        window.old window.new result }
{
    window.fill(source, 8)?;
    if !begins_as_dump(window.as_slice()) {
        return Err(Stop::Broken(Break {
            bad: Bad::BadFixedField { at: 0 },
            place: 0,
        }));
    }
    if window.as_slice().len() < 8 {
        return Err(Stop::Broken(end_of(window)));
    }
    window.consume(8);
    Ok(())
}

// Do bytes begin as a dump does, as far as they are there?
fn begins_as_dump(bytes: &[u8]) -> bool
    ensures { result ≡ begins_as magic bytes.now }
{
    let len = bytes.len().min(8);
    bytes[..len] == MAGIC[..len]
}

// What stands in front of the journals, but their number.
fn take_front<S: Source>(window: &mut Window, source: &mut S, alloc: Global) -> Result<Front, Stop>
    ensures reads { ReadsOn front_at (S.state source.old) (S.state source.new)
        window.old window.new (stops_as_front result) }
    ensures fits { IfOk result (λ front. IfSome front.base
        (λ base. IsBase base × HasWidths base)) }
{
    take_magic(window, source)?;
    let id = take_digest(window, source)?;
    let base = take_base(window, source, alloc)?;
    Ok(Front { id, base })
}

// The base behind its length, where there is one.
fn take_base<S: Source>(
    window: &mut Window,
    source: &mut S,
    alloc: Global,
) -> Result<Option<Base>, Stop>
    ensures reads { ReadsOn base_part_at (S.state source.old) (S.state source.new)
        window.old window.new result }
    ensures fits { IfOk result (λ base. IfSome base (λ base. IsBase base × HasWidths base)) }
{
    let len = take_number(window, source)?;
    base_of_len(window, source, alloc, len)
}

// The base of so many bytes, where they aren't none.
fn base_of_len<S: Source>(
    window: &mut Window,
    source: &mut S,
    alloc: Global,
    len: u64,
) -> Result<Option<Base>, Stop>
    ensures reads { ReadsOn (base_behind len) (S.state source.old) (S.state source.new)
        window.old window.new result }
    ensures fits { IfOk result (λ base. IfSome base (λ base. IsBase base × HasWidths base)) }
{
    if len == 0 {
        return Ok(None);
    }
    if len > MOST_BASE {
        return long_base(window, source, alloc, len, MOST_BASE as usize + 1);
    }
    short_base(window, source, alloc, len as usize)
}

// A base of which more bytes are told than any base has, and of which so many tell its break. It breaks, unless the input
// ends before it does.
fn long_base<S: Source>(
    window: &mut Window,
    source: &mut S,
    alloc: Global,
    len: u64,
    enough: usize,
) -> Result<Option<Base>, Stop>
    requires far { most_base < enough }
    requires within { enough ≤ len }
    ensures reads { ReadsOn (base_behind len) (S.state source.old) (S.state source.new)
        window.old window.new result }
    ensures fits { IfOk result (λ base. IfSome base (λ base. IsBase base × HasWidths base)) }
{
    window.fill(source, enough)?;
    if window.as_slice().len() < enough {
        return Err(Stop::Broken(end_of(window)));
    }
    let stop = far_stop(alloc, &window.as_slice()[..enough]);
    match stop {
        Stop::Broken(broken) => {
            skip(window, source, len)?;
            Err(Stop::Broken(broken))
        }
        Stop::Failed(e) => Err(Stop::Failed(e)),
    }
}

// Why there is no base of these bytes, which are more than any base has.
fn far_stop(alloc: Global, bytes: &[u8]) -> Stop
    requires far { most_base < length bytes.now }
    requires fits { length bytes.now < 2 ^ 63 }
    ensures { Decodes (base_of bytes.now) (Err result) }
{
    match decoded(alloc, bytes) {
        Ok(_) => unreachable!(),
        Err(stop) => stop,
    }
}

// Takes so many bytes, a piece at a time, and keeps none of them.
fn skip<S: Source>(window: &mut Window, source: &mut S, len: u64) -> Result<(), Stop>
    ensures { ReadsOn (skip_at len) (S.state source.old) (S.state source.new)
        window.old window.new result }
{
    let mut left = len;
    while left > 0 {
        window.fill(source, 1)?;
        let held = window.as_slice().len() as u64;
        if held == 0 {
            return Err(Stop::Broken(end_of(window)));
        }
        let count = held.min(left);
        window.consume(count as usize);
        left -= count;
    }
    Ok(())
}

// What breaks in a base, as a break of the dump.
fn base_break(bad: Bad) -> Break
    requires { place_within bad ≤ 2 ^ 63 + 2 ^ 33 }
    ensures bad { result.bad ≡ base_bad bad }
    ensures place { result.place ≡ place_within result.bad }
{
    let within = match bad {
        Bad::Short { at } | Bad::Trailing { at } | Bad::BadFixedField { at } => at,
        Bad::BadKind { .. } => 1,
        Bad::NewerFormat { .. } | Bad::TooLong => 0,
    };
    let place = BASE_PLACE + within;
    Break {
        bad: Bad::BadFixedField { at: place },
        place,
    }
}

// The base of so many bytes, which aren't none.
fn short_base<S: Source>(
    window: &mut Window,
    source: &mut S,
    alloc: Global,
    len: usize,
) -> Result<Option<Base>, Stop>
    requires { 0 < len }
    ensures reads { ReadsOn (base_behind len) (S.state source.old) (S.state source.new)
        window.old window.new result }
    ensures fits { IfOk result (λ base. IfSome base (λ base. IsBase base × HasWidths base)) }
{
    window.fill(source, len)?;
    if window.as_slice().len() < len {
        return Err(Stop::Broken(end_of(window)));
    }
    let base = decoded(alloc, &window.as_slice()[..len])?;
    window.consume(len);
    Ok(Some(base))
}

// The base that bytes spell, all of them, or why there is none.
fn decoded(alloc: Global, bytes: &[u8]) -> Result<Base, Stop>
    requires { length bytes.now < 2 ^ 63 }
    ensures decodes { Decodes (base_of bytes.now) result }
    ensures fits { IfOk result (λ base. IsBase base × HasWidths base) }
{
    match Base::decode(alloc, bytes) {
        Ok(base) => Ok(base),
        Err(e) => match e {
            BaseErr::Bad(bad) => Err(Stop::Broken(base_break(bad))),
            BaseErr::NoMemory => Err(Stop::Failed(LineErr::NoMemory)),
        },
    }
}

// The break at the end of the input, where a window holds the last of it.
fn end_of(window: &Window) -> Break
    requires { window.now.total ≤ script_limit }
    ensures bad { result.bad ≡ short_bad result.place }
    ensures place { result.place ≡ (window.now.total - length window.now.held) + length window.now.held }
{
    let end = window.place() + window.as_slice().len() as u64;
    Break {
        bad: Bad::Short { at: end },
        place: end,
    }
}
