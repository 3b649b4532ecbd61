//! The jobs of a soak as they are drawn, before they are lines.

ghost use Rattle.std.specs.Prelude.{◌≡◌, ◌<◌, ◌+◌, ◌%◌, ℕ, IfOk, length};
ghost use Rattle.ledger_disk.specs.Generator.{next_draw};
ghost use Rattle.ledger_soak.specs.Tasks.{task_drawn, state_behind, drawn_bytes, drawn_length, nth_drawn, IsDrawable, state_after};
ghost use Rattle.ledger_soak.specs.declared.task.Task.TheVariants as spec;

use crate::draws::Draws;
use ledger_bytes::{Bytes, NoMemory};
use std::alloc::Global;

/// What is drawn for a job, before the ledger is asked.
#[derive(Debug, Drop)]
pub enum Task {
    /// A record.
    Append {
        /// Who places it: member 2, 3 or 4.
        member: u8,
        /// The number in its clue's name, below 40.
        clue: u64,
        /// 1 to 64 bytes.
        content: Bytes,
    },
    /// A time journal.
    Anchor,
    /// The content of a journal is to be hidden.
    Occult {
        /// The journal's number.
        target: u64,
    },
    /// The proof of a journal.
    Prove {
        /// The journal's number.
        n: u64,
    },
    /// The journals in front of the last time journal but one are to be given up.
    Purge,
}

/// Draws a job for a ledger of this size.
#[tactic(auto, unfolding(crate::specs::Tasks::task_drawn, crate::specs::Tasks::state_behind, crate::specs::Tasks::state_after))]
pub(crate) fn draw_task(alloc: Global, draws: &mut Draws, size: u64) -> Result<Task, NoMemory>
    requires { 0 < size }
    ensures task { IfOk result (λ task. task ≡ task_drawn draws.old.state size) }
    ensures state { IfOk result (λ task. draws.new.state ≡ state_behind draws.old.state) }
    ensures drawable { IfOk result (IsDrawable size) }
{
    match draws.below(100) {
        0..=84 => draw_record(alloc, draws),
        85..=91 => Ok(Task::Anchor),
        92..=94 => Ok(Task::Occult {
            target: draws.below(size),
        }),
        95..=98 => Ok(Task::Prove {
            n: draws.below(size),
        }),
        _ => Ok(Task::Purge),
    }
}

// A record, whose first number was drawn already.
#[tactic(auto, unfolding(crate::specs::Tasks::state_after))]
fn draw_record(alloc: Global, draws: &mut Draws) -> Result<Task, NoMemory>
    ensures task { IfOk result (λ task. (x : ℕ) → draws.old.state ≡ next_draw x → task
        ≡ spec.Append (2 + nth_drawn 1 x % 3) (nth_drawn 2 x % 40) (drawn_bytes (drawn_length x) (state_after 4 x))) }
    ensures state { IfOk result (λ task. (x : ℕ) → draws.old.state ≡ next_draw x
        → draws.new.state ≡ state_after (4 + drawn_length x) x) }
    ensures drawable { IfOk result (λ task. (size : ℕ) → IsDrawable size task) }
{
    let member = 2 + draws.below(3) as u8;
    let clue = draws.below(40);
    let length = 1 + draws.below(64);
    let content = draw_bytes(alloc, draws, length)?;
    Ok(Task::Append {
        member,
        clue,
        content,
    })
}

#[tactic(auto, using(crate::proofs::DrawLaws::bytes_none, crate::proofs::DrawLaws::bytes_more, crate::proofs::DrawLaws::state_none, crate::proofs::DrawLaws::state_more, crate::proofs::DrawLaws::bytes_long))]
fn draw_bytes(alloc: Global, draws: &mut Draws, count: u64) -> Result<Bytes, NoMemory>
    ensures bytes { IfOk result (λ bytes. bytes ≡ drawn_bytes count draws.old.state) }
    ensures state { IfOk result (λ bytes. draws.new.state ≡ state_after count draws.old.state) }
    ensures length { IfOk result (λ bytes. length bytes ≡ count) }
{
    let mut bytes = Vec::new(alloc);
    for made in 0..count {
        bytes.push(draws.below(256) as u8)?;
    }
    Ok(Bytes::of(bytes))
}
