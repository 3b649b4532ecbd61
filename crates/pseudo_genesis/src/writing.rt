//! Writing a base field by field.

ghost use Rattle.std.specs.Prelude.{◌≡◌, ◌++◌, ◌<◌, ◌^◌, length, IfOk, OnOk};
ghost use Rattle.pseudo_genesis.specs.Bases.{HasCounts, digests_text, front_text, keys_text, state_text, states_text, clues_text, base_spelling};

use crate::Base;
use clue_index::ClueState;
use ledger_bytes::{Bytes, Digest, FieldWriter, NoMemory};
use std::alloc::Global;

const VERSION: u8 = 1;

#[tactic(auto, unfolding(crate::specs::Bases::base_spelling))]
pub(crate) fn write(base: &Base, alloc: Global) -> Result<Bytes, NoMemory>
    requires { HasCounts base.now }
    ensures { IfOk result (λ bytes. bytes ≡ base_spelling base.now) }
{
    let mut writer = FieldWriter::new(alloc);
    put_front(&mut writer, base)?;
    put_digests(&mut writer, base.peaks.as_slice())?;
    put_keys(&mut writer, base.keys.as_slice())?;
    put_clues(&mut writer, base.clues.as_slice())?;
    Ok(writer.finish())
}

#[tactic(auto, unfolding(crate::specs::Bases::front_text))]
fn put_front(writer: &mut FieldWriter, base: &Base) -> Result<(), NoMemory>
    ensures { OnOk result (writer.new
        ≡ writer.old ++ front_text base.now.id base.now.point base.now.blocks) }
{
    writer.put_u8(VERSION)?;
    writer.put_slice(&base.id.0)?;
    writer.put_u64(base.point)?;
    writer.put_u64(base.blocks)
}

fn put_digests(writer: &mut FieldWriter, digests: &[Digest]) -> Result<(), NoMemory>
    ensures { OnOk result (writer.new ≡ writer.old ++ digests_text digests.now) }
{
    for digest in digests {
        writer.put_slice(&digest.0)?;
    }
    Ok(())
}

/// Keys behind their count.
#[tactic(auto, unfolding(crate::specs::Bases::keys_text))]
fn put_keys(writer: &mut FieldWriter, keys: &[Digest]) -> Result<(), NoMemory>
    requires { length keys.now < 2 ^ 16 }
    ensures { OnOk result (writer.new ≡ writer.old ++ keys_text keys.now) }
{
    writer.put_u16(keys.len() as u16)?;
    put_digests(writer, keys)
}

/// The states of clues behind their count.
#[tactic(auto, unfolding(crate::specs::Bases::clues_text))]
fn put_clues(writer: &mut FieldWriter, clues: &[ClueState]) -> Result<(), NoMemory>
    requires { length clues.now < 2 ^ 32 }
    ensures { OnOk result (writer.new ≡ writer.old ++ clues_text clues.now) }
{
    writer.put_u32(clues.len() as u32)?;
    put_states(writer, clues)
}

fn put_states(writer: &mut FieldWriter, states: &[ClueState]) -> Result<(), NoMemory>
    ensures { OnOk result (writer.new ≡ writer.old ++ states_text states.now) }
{
    for state in states {
        put_state(writer, state)?;
    }
    Ok(())
}

fn put_state(writer: &mut FieldWriter, state: &ClueState) -> Result<(), NoMemory>
    ensures { OnOk result (writer.new ≡ writer.old ++ state_text state.now) }
{
    writer.put_slice(&state.clue.0)?;
    writer.put_u32(state.count)?;
    writer.put_u64(state.last)
}
