//! A run over the lines of an audit script, each of which is answered before the next one is read.

ghost use Rattle.std.specs.Prelude.{◌≡◌, ◌≢◌, OnOk, IfErr};
ghost use Rattle.ledger_io.specs.Outside.{outside};
ghost use Rattle.audit_cli.specs.Answers.{answer_to, trust_after};
ghost use Rattle.audit_cli.specs.Replies.{reply_text};
ghost use Rattle.audit_cli.specs.Runs.{ServedScript};

use crate::answer::answer;
use crate::reply::put_reply;
use audit_core::Heads;
use ledger_bytes::{NoMemory, TreeHash};
use ledger_io::{Ending, Lines, Sink, Source, write_all};
use std::alloc::Global;

/// Answers the lines of an audit script, one after the other, until it ends or a fault ends it.
pub(crate) fn run_script<H: TreeHash, S: Source, K: Sink>(
    alloc: Global,
    source: &mut S,
    sink: &mut K,
) -> Ending
    ensures served { ServedScript H.of result
        (outside (S.state source.old) (K.state sink.old))
        (outside (S.state source.new) (K.state sink.new)) }
    ensures started { result ≢ Ending.Usage }
{
    match answer_lines::<H, S, K>(alloc, source, sink) {
        Ok(()) => Ending::Done,
        Err(ending) => ending,
    }
}

// Each reply is written before the next line is read. An error is the ending that it brings.
fn answer_lines<H: TreeHash, S: Source, K: Sink>(
    alloc: Global,
    source: &mut S,
    sink: &mut K,
) -> Result<(), Ending>
    ensures done { OnOk result (ServedScript H.of Ending.Done
        (outside (S.state source.old) (K.state sink.old))
        (outside (S.state source.new) (K.state sink.new))) }
    ensures ended { IfErr result (λ ending. ServedScript H.of ending
        (outside (S.state source.old) (K.state sink.old))
        (outside (S.state source.new) (K.state sink.new))) }
    ensures started { IfErr result (λ ending. ending ≢ Ending.Usage) }
{
    let mut lines = Lines::new(alloc);
    let mut heads = Heads::new(alloc);
    let mut text = Vec::new(alloc);
    let mut number = 0;
    while let Some(line) = lines.next(source)? {
        number += 1;
        set_answer::<H>(alloc, &mut heads, &mut text, number, line.as_slice())?;
        write_all(sink, text.as_slice())?;
    }
    Ok(())
}

// The text that answers a line, in a buffer that is used again.
fn set_answer<H: TreeHash>(
    alloc: Global,
    heads: &mut Heads,
    text: &mut Vec<u8>,
    number: u64,
    line: &[u8],
) -> Result<(), NoMemory>
    ensures text { OnOk result (text.new.items
        ≡ reply_text number (answer_to H.of heads.old line.now)) }
    ensures heads { OnOk result (heads.new ≡ trust_after H.of heads.old line.now) }
{
    let reply = answer::<H>(alloc, heads, line)?;
    text.clear();
    put_reply(text, number, &reply)
}
