//! Writing a proof field by field.

ghost use Rattle.std.specs.Prelude.{◌≡◌, ◌++◌, IfOk, IfSome, OnOk};
ghost use Rattle.proof_codec.specs.Proofs.{HasFields, HasLower, HasUpper, IsDigests, IsPathIf, spelling, with_count, text_if};
ghost use Rattle.proof_codec.specs.Proofs.{lower_text, mark_text, upper_text, front_text, notary_text};

use crate::{Lower, Proof, Upper};
use ledger_bytes::{Bytes, FieldWriter, NoMemory, TimeMark};
use std::alloc::Global;

const VERSION: u8 = 1;

/// The flags of a bound: it isn't there, or it is.
const ABSENT: u8 = 0;

const PRESENT: u8 = 1;

#[tactic(auto, unfolding(crate::specs::Proofs::spelling))]
pub(crate) fn write(proof: &Proof, alloc: Global) -> Result<Bytes, NoMemory>
    requires { HasFields proof.now }
    ensures { IfOk result (λ bytes. bytes ≡ spelling proof.now) }
{
    let mut writer = FieldWriter::new(alloc);
    put_front(&mut writer, proof)?;
    put_lower(&mut writer, &proof.lo)?;
    put_upper(&mut writer, &proof.hi)?;
    put_notary(&mut writer, proof)?;
    Ok(writer.finish())
}

#[tactic(auto, unfolding(crate::specs::Proofs::front_text))]
fn put_front(writer: &mut FieldWriter, proof: &Proof) -> Result<(), NoMemory>
    requires { IsDigests proof.now.path }
    ensures { OnOk result (writer.new ≡ writer.old ++ front_text proof.now) }
{
    writer.put_u8(VERSION)?;
    writer.put_u64(proof.size)?;
    writer.put_u64(proof.n)?;
    writer.put_slice(&proof.leaf.0)?;
    put_digests(writer, proof.path)
}

/// Digests behind their count.
fn put_digests(writer: &mut FieldWriter, digests: &[u8]) -> Result<(), NoMemory>
    requires { IsDigests digests.now }
    ensures { OnOk result (writer.new ≡ writer.old ++ with_count digests.now) }
{
    writer.put_u8((digests.len() / 32) as u8)?;
    writer.put_slice(digests)
}

#[tactic(auto, unfolding(crate::specs::Proofs::lower_text))]
fn put_lower(writer: &mut FieldWriter, lower: &Option<Lower>) -> Result<(), NoMemory>
    requires { IfSome lower.now HasLower }
    ensures { OnOk result (writer.new ≡ writer.old ++ lower_text lower.now) }
{
    let Some(lower) = lower else {
        return writer.put_u8(ABSENT);
    };
    writer.put_u8(PRESENT)?;
    writer.put_slice(&lower.header.encode())?;
    put_digests(writer, lower.path)?;
    writer.put_slice(&lower.root.0)?;
    put_digests(writer, lower.ext)
}

#[tactic(auto, unfolding(crate::specs::Proofs::upper_text))]
fn put_upper(writer: &mut FieldWriter, upper: &Option<Upper>) -> Result<(), NoMemory>
    requires { IfSome upper.now HasUpper }
    ensures { OnOk result (writer.new ≡ writer.old ++ upper_text upper.now) }
{
    let Some(upper) = upper else {
        return writer.put_u8(ABSENT);
    };
    writer.put_u8(PRESENT)?;
    put_mark(writer, &upper.mark)?;
    writer.put_slice(&upper.salt.0)?;
    writer.put_slice(&upper.root.0)?;
    put_digests(writer, upper.ext)
}

#[tactic(auto, unfolding(crate::specs::Proofs::mark_text))]
fn put_mark(writer: &mut FieldWriter, mark: &TimeMark) -> Result<(), NoMemory>
    ensures { OnOk result (writer.new ≡ writer.old ++ mark_text mark.now) }
{
    writer.put_u64(mark.jsn)?;
    writer.put_u64(mark.index)?;
    writer.put_u64(mark.time)
}

/// The size of the notary's list, and the paths of the bounds' entries.
#[tactic(auto, unfolding(crate::specs::Proofs::notary_text))]
fn put_notary(writer: &mut FieldWriter, proof: &Proof) -> Result<(), NoMemory>
    requires { HasFields proof.now }
    ensures { OnOk result (writer.new ≡ writer.old ++ notary_text proof.now) }
{
    if proof.lo.is_some() || proof.hi.is_some() {
        writer.put_u64(proof.notary_size)?;
    }
    put_path(writer, proof.lo.is_some(), proof.lo_path)?;
    put_path(writer, proof.hi.is_some(), proof.hi_path)
}

/// The path of a bound's entry, where it is there.
fn put_path(writer: &mut FieldWriter, is_there: bool, path: &[u8]) -> Result<(), NoMemory>
    requires { IsPathIf is_there path.now }
    ensures { OnOk result (writer.new ≡ writer.old ++ text_if is_there (with_count path.now)) }
{
    if is_there {
        put_digests(writer, path)
    } else {
        Ok(())
    }
}
