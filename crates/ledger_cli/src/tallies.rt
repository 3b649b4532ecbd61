//! The lines that are written of provers, behind the replies.

ghost use Rattle.std.specs.Prelude.{◌≡◌, ◌++◌, List, length, IfOk};
ghost use Rattle.proof_board.specs.declared.hands.Tally.{Tally};
ghost use Rattle.ledger_cli.specs.Boards.{board_text};
ghost use Rattle.ledger_cli.specs.Beside.{AreTallies};

use crate::ending::put_line;
use ledger_bytes::NoMemory;
use proof_board::Tally;
use script_lines::Word;
use std::alloc::Global;

/// The lines of provers of which none lacked memory, and of the size of the published list.
pub(crate) fn spell_tallies(
    alloc: Global,
    results: &[Result<Tally, NoMemory>],
    published: u64,
) -> Result<Vec<u8>, NoMemory>
    ensures { IfOk result (λ text. (tallies : List Tally) × AreTallies results.now tallies
        × (text.items ≡ board_text tallies published)) }
{
    let mut text = Vec::new(alloc);
    for k in 0..results.len() {
        let Tally { accepted, size } = results[k]?;
        let words = [
            Word::Number(k as u64),
            Word::Number(u64::from(accepted)),
            Word::Number(size),
        ];
        put_line(&mut text, b"board", &words)?;
    }
    put_line(&mut text, b"published", &[Word::Number(published)])?;
    Ok(text)
}
