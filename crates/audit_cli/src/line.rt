//! The lines of an audit script: what each asks for, and how it is read from its text.

ghost use Rattle.std.specs.Prelude.{◌≡◌, ◌<◌, ◌%◌, length, IfOk};
ghost use Rattle.script_lines.specs.Fields.{field_at};
ghost use Rattle.script_lines.specs.Reading.{ReadsLine, TakesFields};
ghost use Rattle.audit_cli.specs.Grammar.{trust_ledger_at, trust_notary_at, trust_at, extend_at, check_at};
ghost use Rattle.audit_cli.specs.Grammar.{pieces_of, judge_at, line_at, line_of, IsFit};

use journal_record::HEADER_LEN;
use ledger_bytes::{Bytes, Digest, Refusal};
use ledger_io::LINE_LIMIT;
use merkle_tree::Head;
use proof_codec::Claim;
use script_lines::{Fields, Stop, Which};
use std::alloc::Global;
use time_peg::ENTRY_LEN;

/// What a line of an audit script asks for.
#[derive(Debug, Drop)]
pub(crate) enum Line {
    /// A head of a ledger is to be trusted: `trust ledger ID SIZE ROOT`.
    TrustLedger {
        /// The ledger's id.
        id: Digest,
        head: Head,
    },
    /// A head of a notary is to be trusted: `trust notary SIZE ROOT`.
    TrustNotary {
        head: Head,
    },
    /// A head is to be trusted that goes on from a trusted one: `extend WHICH M SIZE ROOT HEX`.
    Extend {
        which: Which,
        /// The size of the trusted head.
        m: u64,
        head: Head,
        /// The digests of the proof, one after the other.
        proof: Bytes,
    },
    /// A proof is to be checked: `check N LEAF LO HI HEX`.
    Check {
        claim: Claim,
        /// The proof's bytes.
        proof: Bytes,
    },
    /// A proof is to be judged by the whole lists: `judge ID HEADERS ENTRIES N LEAF LO HI HEX`.
    Judge {
        /// The ledger's id.
        id: Digest,
        /// The headers of all journals of the ledger, 174 bytes each.
        headers: Bytes,
        /// All entries of its notary, 72 bytes each.
        entries: Bytes,
        claim: Claim,
        /// The proof's bytes.
        proof: Bytes,
    },
}

/// What a line asks for, without its newline. Its fields stand around single spaces, and the first is the verb, column
/// 1. A number is decimal digits without a leading zero, below 2^64; a digest 64 hexadecimal digits of either case. WHICH
/// is `ledger` or `notary`. LO and HI are `-` or `JSN:INDEX:TIME`, and HEX is `-` for no bytes or two hexadecimal digits
/// for each. HEADERS and ENTRIES are such digits of whole headers and whole entries.
pub(crate) fn read_line(alloc: Global, line: &[u8]) -> Result<Line, Stop>
    ensures reads { ReadsLine result (line_of line.now) }
    ensures fit { IfOk result IsFit }
{
    read_fields(alloc, Fields::of(line))
}

#[tactic(auto, unfolding(crate::specs::Grammar::line_at))]
fn read_fields(alloc: Global, mut fields: Fields) -> Result<Line, Stop>
    ensures reads { ReadsLine result (line_at fields.entry) }
    ensures fit { IfOk result IsFit }
{
    let verb = fields.text()?;
    match verb {
        b"trust" => Ok(trust(fields)?),
        b"extend" => extend(alloc, fields),
        b"check" => check(alloc, fields),
        b"judge" => judge(alloc, fields),
        _ => Err(Stop::Refused(Refusal::BadVerb)),
    }
}

#[tactic(auto, unfolding(crate::specs::Grammar::trust_at))]
fn trust(mut fields: Fields) -> Result<Line, Refusal>
    ensures reads { result ≡ trust_at fields.entry }
    ensures fit { IfOk result IsFit }
{
    match fields.which()? {
        Which::Ledger => trust_ledger(fields),
        Which::Notary => trust_notary(fields),
    }
}

#[tactic(auto, unfolding(crate::specs::Grammar::trust_ledger_at))]
fn trust_ledger(mut fields: Fields) -> Result<Line, Refusal>
    ensures reads { result ≡ trust_ledger_at fields.entry }
    ensures fit { IfOk result IsFit }
{
    let id = fields.digest()?;
    let size = fields.number(u64::MAX)?;
    let root = fields.digest()?;
    fields.end()?;
    Ok(Line::TrustLedger {
        id,
        head: Head { size, root },
    })
}

#[tactic(auto, unfolding(crate::specs::Grammar::trust_notary_at))]
fn trust_notary(mut fields: Fields) -> Result<Line, Refusal>
    ensures reads { result ≡ trust_notary_at fields.entry }
    ensures fit { IfOk result IsFit }
{
    let size = fields.number(u64::MAX)?;
    let root = fields.digest()?;
    fields.end()?;
    Ok(Line::TrustNotary {
        head: Head { size, root },
    })
}

#[tactic(auto, unfolding(crate::specs::Grammar::extend_at))]
fn extend(alloc: Global, mut fields: Fields) -> Result<Line, Stop>
    ensures reads { ReadsLine result (extend_at fields.entry) }
    ensures fit { IfOk result IsFit }
{
    let which = fields.which()?;
    let m = fields.number(u64::MAX)?;
    let size = fields.number(u64::MAX)?;
    let root = fields.digest()?;
    let proof = fields.bytes(alloc, LINE_LIMIT)?;
    fields.end()?;
    Ok(Line::Extend {
        which,
        m,
        head: Head { size, root },
        proof,
    })
}

#[tactic(auto, unfolding(crate::specs::Grammar::check_at))]
fn check(alloc: Global, mut fields: Fields) -> Result<Line, Stop>
    ensures reads { ReadsLine result (check_at fields.entry) }
    ensures fit { IfOk result IsFit }
{
    let n = fields.number(u64::MAX)?;
    let leaf = fields.digest()?;
    let lo = fields.mark()?;
    let hi = fields.mark()?;
    let proof = fields.bytes(alloc, LINE_LIMIT)?;
    fields.end()?;
    Ok(Line::Check {
        claim: Claim { n, leaf, lo, hi },
        proof,
    })
}

#[tactic(auto, unfolding(crate::specs::Grammar::judge_at))]
fn judge(alloc: Global, mut fields: Fields) -> Result<Line, Stop>
    ensures reads { ReadsLine result (judge_at fields.entry) }
    ensures fit { IfOk result IsFit }
{
    let id = fields.digest()?;
    let headers = pieces(alloc, &mut fields, HEADER_LEN)?;
    let entries = pieces(alloc, &mut fields, ENTRY_LEN)?;
    let n = fields.number(u64::MAX)?;
    let leaf = fields.digest()?;
    let lo = fields.mark()?;
    let hi = fields.mark()?;
    let proof = fields.bytes(alloc, LINE_LIMIT)?;
    fields.end()?;
    let claim = Claim { n, leaf, lo, hi };
    Ok(Line::Judge {
        id,
        headers,
        entries,
        claim,
        proof,
    })
}

// The bytes of a field that are whole pieces of this width.
fn pieces(alloc: Global, fields: &mut Fields, width: usize) -> Result<Bytes, Stop>
    requires { 0 < width }
    ensures takes { TakesFields fields.new result (field_at (pieces_of width) fields.old) }
    ensures whole { IfOk result (λ bytes. length bytes % width ≡ 0) }
{
    let column = fields.column();
    let bytes = fields.bytes(alloc, LINE_LIMIT)?;
    if bytes.as_slice().len() % width == 0 {
        Ok(bytes)
    } else {
        Err(Stop::Refused(Refusal::BadField { column }))
    }
}
