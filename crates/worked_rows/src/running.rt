//! A row's run on disks in memory.

use crate::row::{Found, Program, Row};
use anyhow::Result;
use audit_cli::{audit_run, audit_top};
use chain_sign::ChainScheme;
use lane_work::{OpenGate, Tools};
use ledger_bytes::{Bytes, Digest, Toy};
use ledger_cli::{Keeping, ledger_main, ledger_top};
use ledger_disk::{Disk, MemDisk};
use ledger_io::{MemSink, MemSource};
use member_book::{TagScheme, Verifier};
use notary_ledger::{ListClock, MemNotary};
use std::alloc::Global;
use std::sync::Wait;
use std::thread::Threads;

// How many bytes each of the two disks can hold, and how many are written at most.
const DISK_ROOM: usize = 16_777_216;

const OUTPUT_ROOM: usize = 1_048_576;

/// Runs a row's program.
pub(crate) fn run<R: Threads + Wait + Sync>(rt: &R, alloc: Global, row: &Row) -> Result<Found> {
    let [before_a, before_b] = &row.before;
    let mut a = disk_of(alloc, before_a)?;
    let mut b = disk_of(alloc, before_b)?;
    let script = Bytes::copy_of(alloc, &row.script)?;
    let mut source = MemSource::new(script, Vec::new(alloc));
    let mut sink = MemSink::new(alloc, OUTPUT_ROOM, Vec::new(alloc))?;
    let words = row.words.as_slice();
    let (status, list) = match row.program {
        Program::Ledger => run_ledger(rt, alloc, row, &mut source, &mut sink, &mut a, &mut b)?,
        Program::Auditor => {
            let status = audit_top(rt, alloc, words, &mut source, &mut sink, &TagScheme);
            (status, None)
        }
        Program::ToyAuditor => {
            let verifier = &TagScheme;
            let status = audit_run::<Toy, MemSource, MemSink, TagScheme>(
                alloc,
                &mut source,
                &mut sink,
                verifier,
            );
            (status, None)
        }
    };
    Ok(Found {
        status,
        output: sink.written().to_vec(alloc)?,
        disks: [a.bytes()?, b.bytes()?],
        list,
    })
}

// A run of `ledgerctl`, with the scheme that its words name.
fn run_ledger<R: Threads + Wait + Sync>(
    rt: &R,
    alloc: Global,
    row: &Row,
    source: &mut MemSource,
    sink: &mut MemSink,
    a: &mut MemDisk,
    b: &mut MemDisk,
) -> Result<(u8, Option<Bytes>)> {
    let list = row.list.as_ref();
    let words = row.words.as_slice();
    match words.split_first() {
        Some((scheme, words)) if scheme.as_str() == "chain" => {
            let tools = tools(rt, alloc, &ChainScheme);
            run_by(&tools, words, list, source, sink, a, b)
        }
        _ => {
            let tools = tools(rt, alloc, &TagScheme);
            run_by(&tools, words, list, source, sink, a, b)
        }
    }
}

// No line is held.
fn tools<'a, R, V>(rt: &'a R, alloc: Global, verifier: &'a V) -> Tools<'a, R, V, OpenGate> {
    Tools {
        rt,
        alloc,
        verifier,
        gate: &OpenGate,
    }
}

// The status, and what stands on the disk of the notary's list behind the run, where there is one.
fn run_by<R: Threads + Wait + Sync, V: Verifier>(
    tools: &Tools<R, V, OpenGate>,
    words: &[String],
    list: Option<&Vec<u8>>,
    source: &mut MemSource,
    sink: &mut MemSink,
    a: &mut MemDisk,
    b: &mut MemDisk,
) -> Result<(u8, Option<Bytes>)> {
    let alloc = tools.alloc;
    let Some(list) = list else {
        let mut notary = MemNotary::new(alloc, Vec::new(alloc));
        let status = ledger_top(tools, words, source, sink, a, b, &mut notary);
        return Ok((status, None));
    };
    let keeping = Keeping {
        keeper: disk_of(alloc, list)?,
        clock: ListClock::new(Vec::new(alloc)),
        seed: Some(Digest([0; 32])),
    };
    let (status, keeper) = ledger_main(tools, words, source, sink, a, b, keeping);
    Ok((status, Some(keeper.bytes()?)))
}

// A disk that holds these bytes for good.
fn disk_of(alloc: Global, bytes: &[u8]) -> Result<MemDisk> {
    let mut disk = MemDisk::new(alloc, DISK_ROOM, Vec::new(alloc))?;
    disk.write(0, bytes)?;
    disk.sync()?;
    Ok(disk)
}
