//! How a board is opened.

ghost use Rattle.std.specs.Prelude.{◌≡◌, ◌-◌, ◌<◌, ◌≤◌, ◌+◌, ◌^◌, List, ℕ, [], ◌∷◌, length, take, drop, All, IfOk, OnOk, vec_len};
ghost use Rattle.sha2.specs.Sha256.{sha256};
ghost use Rattle.merkle_batch.specs.Rows.{StandsFor};
ghost use Rattle.left_right.specs.Sides.{view};
ghost use Rattle.proof_board.specs.History.{IsWide, all_leaves, leaves_of};
ghost use Rattle.proof_board.specs.Growing.{IsListOf};
ghost use Rattle.proof_board.specs.Rule.{aware_of};
ghost use Rattle.proof_board.specs.Words.{shown_by, history_of, waiting_of, told_to, seen_by, base_in, IsNew, IsPassOf, IsWriterOf};

use crate::board::Board;
use crate::history::Front;
use crate::pass::ProverPass;
use crate::rule::{Grows, Sees, Starts, Tells};
use crate::shown::{Growing, Shown};
use crate::stretches::are_all_wide;
use crate::view::View;
use crate::writer::BoardWriter;
use ledger_bytes::{NoMemory, Sha};
use left_right::writer::Writer;
use merkle_batch::{Stretch, Tree};
use std::alloc::Global;
use std::sync::Wait;

// A prover's pass, which has seen what is published.
fn split(writer: &mut Writer<Shown, Growing, View, Grows>) -> Result<ProverPass, NoMemory>
    requires aware { view writer.old.desk.place
        ≡ aware_of writer.old.desk.shown.value.base writer.old.desk.shown.value.at }
    requires whole { writer.old.desk.shown.value.leaves ≡ all_leaves writer.old.desk.shown.value.at.log }
    requires some { 0 < length (all_leaves writer.old.desk.shown.value.at.log) }
    requires wide { All IsWide (all_leaves writer.old.desk.shown.value.at.log) }
    ensures same { (writer.new.desk.shown.value ≡ writer.old.desk.shown.value)
        × (view writer.new.desk.place ≡ view writer.old.desk.place) }
    ensures log { drop writer.new.behind writer.new.log.items ≡ drop writer.old.behind writer.old.log.items }
    ensures pass { IfOk result (IsNew writer.old.desk.shown.value) }
{
    let mut reader = writer.factory().reader()?;
    let (floor, size) = (writer.published().floor(), writer.published().size());
    let seen = writer.published().at().again();
    let told = writer.published().at().again();
    reader.learn::<Starts>(writer.tell::<Tells>());
    Ok(ProverPass {
        reader,
        floor,
        size,
        seen,
        told,
    })
}

// The leaves that a tree keeps, as one stretch.
fn kept(alloc: Global, tree: &Tree<Sha>) -> Result<Vec<Stretch<Sha>>, NoMemory>
    requires { tree.now.floor < tree.now.size }
    ensures digests { IfOk result (λ v. (ds : List (List ℕ)) → StandsFor sha256 tree.now ds
        → leaves_of v.items ≡ take (tree.now.size - tree.now.floor) (drop tree.now.floor ds)) }
    ensures count { IfOk result (λ v. length (leaves_of v.items) ≡ tree.now.size - tree.now.floor) }
{
    let Ok(stretch) = tree.stretch(tree.floor(), tree.size()) else {
        return Err(NoMemory);
    };
    let mut stretches = Vec::new(alloc);
    stretches.push(stretch)?;
    Ok(stretches)
}

// A writer over two copies of a tree, which knows what it shows. Where memory is missing its copies are taken back.
fn writer_of<R: Wait>(
    rt: &R,
    alloc: Global,
    first: Shown,
    second: Shown,
    provers: u8,
) -> Result<Writer<Shown, Growing, View, Grows>, NoMemory>
    requires alike { first ≡ second }
    requires whole { first.leaves ≡ all_leaves first.at.log }
    requires wide { All IsWide first.leaves }
    requires some { 0 < provers }
    ensures shown { IfOk result (λ w. w.desk.shown.value ≡ first) }
    ensures aware { IfOk result (λ w. view w.desk.place ≡ aware_of first.base first.at) }
    ensures none { IfOk result (λ w. drop w.behind w.log.items ≡ []) }
{
    let writer = Writer::new(alloc, first, second, usize::from(provers))?;
    let (writer, done) = writer.publish_as::<Sees, R>(rt);
    match done {
        Ok(()) => Ok(writer),
        Err(_) => {
            drop(writer.take(rt));
            Err(NoMemory)
        }
    }
}

// A pass for each prover.
fn split_all(
    alloc: Global,
    writer: &mut Writer<Shown, Growing, View, Grows>,
    provers: u8,
) -> Result<Vec<ProverPass>, NoMemory>
    requires aware { view writer.old.desk.place
        ≡ aware_of writer.old.desk.shown.value.base writer.old.desk.shown.value.at }
    requires whole { writer.old.desk.shown.value.leaves ≡ all_leaves writer.old.desk.shown.value.at.log }
    requires some { 0 < length (all_leaves writer.old.desk.shown.value.at.log) }
    requires wide { All IsWide (all_leaves writer.old.desk.shown.value.at.log) }
    ensures same { writer.new.desk.shown.value ≡ writer.old.desk.shown.value }
    ensures log { drop writer.new.behind writer.new.log.items ≡ drop writer.old.behind writer.old.log.items }
    ensures len { IfOk result (λ v. vec_len v ≡ provers) }
    ensures passes { IfOk result (λ v. All (IsNew writer.old.desk.shown.value) v.items) }
{
    let mut passes = Vec::with_capacity(alloc, usize::from(provers))?;
    for _k in 0..provers {
        let pass = split(writer)?;
        passes.push_reserved(pass);
    }
    Ok(passes)
}

/// Opens a board on a tree that keeps some leaf, with a pass for each prover, which has seen the tree as it is. The board has two
/// copies of the tree from its floor on, and each has room set aside for `room` leaves more; where more are added, memory is
/// asked for as they are published.
pub fn open_board<R: Wait>(
    rt: &R,
    alloc: Global,
    tree: &Tree<Sha>,
    room: u64,
    provers: u8,
) -> Result<(Board, BoardWriter, Vec<ProverPass>), NoMemory>
    requires some { 0 < provers }
    requires keeps { tree.now.floor < tree.now.size }
    ensures lists { IfOk result (λ r. (ds : List (List ℕ)) → StandsFor sha256 tree.now ds → All IsWide ds
        → IsListOf (shown_by r.1).base (all_leaves (history_of r.1)) ds) }
    ensures floor { IfOk result (λ r. (shown_by r.1).base.floor ≡ tree.now.floor) }
    ensures writer { IfOk result (λ r. IsWriterOf r.0 r.1 × (waiting_of r.1 ≡ [])
        × (length (history_of r.1) ≡ 1)) }
    ensures len { IfOk result (λ r. vec_len r.2 ≡ provers) }
    ensures passes { IfOk result (λ r. All (λ p. IsPassOf r.0 p × IsNew (shown_by r.1) p) r.2.items) }
{
    let floor = tree.floor();
    if tree.size() >= 1 << 62 {
        return Err(NoMemory);
    }
    let Ok(peaks) = tree.peaks_at(floor) else {
        return Err(NoMemory);
    };
    let leaves = kept(alloc, tree)?;
    are_all_wide(leaves.as_slice());
    let (mut at, counter) = Front::new();
    if !at.add(&counter, &leaves) {
        return Err(NoMemory);
    }
    let room = room as usize;
    let (known, held) = (peaks.as_slice(), leaves.as_slice());
    let first = Shown::new(alloc, floor, known, held, room, at.again())?;
    let second = Shown::new(alloc, floor, known, held, room, at.again())?;
    let mut writer = writer_of(rt, alloc, first, second, provers)?;
    match split_all(alloc, &mut writer, provers) {
        Ok(passes) => {
            let writer = BoardWriter {
                alloc,
                writer,
                counter,
                waiting: Vec::new(alloc),
                stuck: false,
            };
            Ok((Board { alloc, start: at }, writer, passes))
        }
        Err(NoMemory) => {
            drop(writer.take(rt));
            Err(NoMemory)
        }
    }
}
