//! The rows of a stretch of leaves: made, copied from those of a tree, and added to those of another.

ghost use Rattle.std.specs.Prelude.{◌≡◌, ℕ, ◌+◌, ◌-◌, ◌%◌, ◌≤◌, ◌<◌, List, [], ◌∷◌, ◌++◌, length, take, drop, map, count_ones, option_map, OnOk, IfOk};
ghost use Rattle.tree_model.specs.Halves.{pairs, edge};
ghost use Rattle.tree_model.specs.Tree.{Hash};
ghost use Rattle.merkle_batch.specs.Over.{KeepsOver};
ghost use Rattle.merkle_batch.specs.Rows.{first_of, HasCounted, HasNodes, HasRoom};
ghost use Rattle.merkle_batch.specs.Stretches.{lowest, HoldsNodes};

use crate::row::Row;
use crate::rows::add;
use ledger_bytes::{Digest, NoMemory, TreeHash};
use merkle_tree::node_of;
use std::alloc::Global;

// Adds a node to one level. The answer is the node above that it completes.
fn push<H: TreeHash>(row: &mut Row, node: Digest) -> Option<Digest>
    requires { length row.old.nodes < row.old.room }
    ensures nodes { row.new.nodes ≡ row.old.nodes ++ node.0 ∷ [] }
    ensures room { row.new.room ≡ row.old.room }
    ensures above { pairs H.of row.new.nodes
        ≡ pairs H.of row.old.nodes ++ edge (option_map (λ d. d.0) result) }
{
    match row.push(node) {
        Some(left) => Some(node_of::<H>(&left, &node)),
        None => None,
    }
}

// Adds the node at a seam to one level, where there is one. The answer is the node above that it completes.
fn push_seam<H: TreeHash>(row: &mut Row, seam: Option<Digest>) -> Option<Digest>
    requires { length row.old.nodes + length (edge (option_map (λ d. d.0) seam)) ≤ row.old.room }
    ensures nodes { row.new.nodes ≡ row.old.nodes ++ edge (option_map (λ d. d.0) seam) }
    ensures room { row.new.room ≡ row.old.room }
    ensures above { pairs H.of row.new.nodes
        ≡ pairs H.of row.old.nodes ++ edge (option_map (λ d. d.0) result) }
{
    match seam {
        Some(node) => push::<H>(row, node),
        None => None,
    }
}

// Adds to one level the node at the seam, where there is one, and the nodes of a stretch behind it, of which the first
// stands at `start`. The answer is the node at the seam of the next level.
fn extend<H: TreeHash>(
    row: &mut Row,
    start: u64,
    seam: Option<Digest>,
    nodes: &[Digest],
) -> Option<Digest>
    requires room { length row.old.nodes
        + (length (edge (option_map (λ d. d.0) seam)) + length nodes.now) ≤ row.old.room }
    requires place { start % 2
        ≡ (length row.old.nodes + length (edge (option_map (λ d. d.0) seam))) % 2 }
    ensures nodes { row.new.nodes ≡ row.old.nodes
        ++ (edge (option_map (λ d. d.0) seam) ++ map (λ d. d.0) nodes.now) }
    ensures room { row.new.room ≡ row.old.room }
    ensures above { pairs H.of row.new.nodes ≡ pairs H.of row.old.nodes
        ++ (edge (option_map (λ d. d.0) result)
        ++ pairs H.of (drop (start % 2) (map (λ d. d.0) nodes.now))) }
{
    let joined = push_seam::<H>(row, seam);
    if start % 2 == 0 {
        row.push_all(nodes);
        return joined;
    }
    match nodes {
        [] => None,
        [first, rest @ ..] => {
            let joined = push::<H>(row, *first);
            row.push_all(rest);
            joined
        }
    }
}

// Adds the node at a seam behind the nodes of one level, where there is one, and the nodes above that it completes.
fn add_seam<H: TreeHash>(rows: &mut [Row], level: usize, seam: Option<Digest>)
    requires { HasRoom (length (edge (option_map (λ d. d.0) seam))) (drop level rows.old) }
    ensures below { take level rows.new ≡ take level rows.old }
    ensures over { (p floor : ℕ) (ps xs : List (List ℕ)) → length ps ≡ count_ones p
        → p ≤ floor → floor ≤ p + length xs → KeepsOver H.of p floor (drop level rows.old) ps xs
        → KeepsOver H.of p floor (drop level rows.new) ps (xs ++ edge (option_map (λ d. d.0) seam)) }
    ensures room { (more : ℕ)
        → HasRoom (length (edge (option_map (λ d. d.0) seam)) + more) (drop level rows.old)
        → HasRoom more (drop level rows.new) }
{
    if let Some(node) = seam {
        add::<H>(rows, level, node);
    }
}

// Adds to one level the node at the seam, where there is one, and the nodes of a stretch behind it, of which the first
// stands at `start`; and to the levels above it what follows. At most one node a level is hashed.
pub(crate) fn add_rows<H: TreeHash>(
    rows: &mut [Row],
    level: usize,
    start: u64,
    seam: Option<Digest>,
    stretch: &[Row],
)
    requires holds { HoldsNodes H.of start stretch.now }
    requires place { (p : ℕ) × (count : ℕ) × HasCounted p count (drop level rows.old)
        × (count + length (edge (option_map (λ d. d.0) seam)) ≡ start) }
    requires room { HasRoom (length (edge (option_map (λ d. d.0) seam)) + length (lowest stretch.now))
        (drop level rows.old) }
    ensures below { take level rows.new ≡ take level rows.old }
    ensures over { (p floor : ℕ) (ps xs : List (List ℕ)) → length ps ≡ count_ones p
        → p ≤ floor → floor ≤ p + length xs → KeepsOver H.of p floor (drop level rows.old) ps xs
        → KeepsOver H.of p floor (drop level rows.new) ps
        (xs ++ (edge (option_map (λ d. d.0) seam) ++ lowest stretch.now)) }
    ensures room { (more : ℕ) → HasRoom
        (length (edge (option_map (λ d. d.0) seam)) + length (lowest stretch.now) + more) (drop level rows.old)
        → HasRoom more (drop level rows.new) }
{
    match stretch {
        [] => add_seam::<H>(rows, level, seam),
        [row, above @ ..] => {
            if row.len() == 0 {
                return add_seam::<H>(rows, level, seam);
            }
            if level >= rows.len() {
                unreachable!()
            }
            let joined = extend::<H>(&mut rows[level], start, seam, row.nodes());
            add_rows::<H>(rows, level + 1, start / 2 + start % 2, joined, above);
        }
    }
}

// Copies the nodes of one level from one place on up to another, and those above that depend on them alone, behind the
// rows that are there.
pub(crate) fn copy_rows(
    alloc: Global,
    copies: &mut Vec<Row>,
    rows: &[Row],
    p: u64,
    from: u64,
    to: u64,
) -> Result<(), NoMemory>
    requires floor { p ≤ from }
    requires there { HasNodes p to rows.now }
    ensures front { OnOk result (take (length copies.old.items) copies.new.items ≡ copies.old.items) }
    ensures nodes { OnOk result (lowest (drop (length copies.old.items) copies.new.items)
        ≡ take (to - from) (drop (from - first_of p) (lowest rows.now))) }
    ensures holds { OnOk result ((hash : Hash) (q : ℕ) (ps xs : List (List ℕ)) → length ps ≡ count_ones q
        → q ≤ p → KeepsOver hash q p rows.now ps xs
        → HoldsNodes hash from (drop (length copies.old.items) copies.new.items)) }
{
    if from >= to {
        return Ok(());
    }
    match rows {
        [] => unreachable!(),
        [row, above @ ..] => {
            let copied = row.copy(alloc, from - p / 2 * 2, to - p / 2 * 2)?;
            copies.push(copied)?;
            copy_rows(alloc, copies, above, p / 2, from / 2 + from % 2, to / 2)
        }
    }
}

// The row of the nodes over all pairs of these.
fn pairs_of<H: TreeHash>(alloc: Global, nodes: &[Digest]) -> Result<Row, NoMemory>
    ensures { IfOk result (λ row. row.nodes ≡ pairs H.of (map (λ d. d.0) nodes.now)) }
{
    let mut above = Row::new(alloc);
    let count = nodes.len() / 2;
    above.reserve(count as u64)?;
    for k in 0..count {
        above.push(node_of::<H>(&nodes[2 * k], &nodes[2 * k + 1]));
    }
    Ok(above)
}

// Puts a level of a stretch, of which the first node stands at `start`, behind the rows that are there, and those above
// that depend on it alone.
pub(crate) fn rows_over<H: TreeHash>(
    alloc: Global,
    rows: &mut Vec<Row>,
    start: u64,
    row: Row,
) -> Result<(), NoMemory>
    ensures front { OnOk result (take (length rows.old.items) rows.new.items ≡ rows.old.items) }
    ensures nodes { OnOk result (lowest (drop (length rows.old.items) rows.new.items) ≡ row.nodes) }
    ensures holds { OnOk result (HoldsNodes H.of start (drop (length rows.old.items) rows.new.items)) }
{
    if row.len() == 0 {
        return Ok(());
    }
    let odd = (start % 2) as usize;
    let above = pairs_of::<H>(alloc, &row.nodes()[odd..])?;
    rows.push(row)?;
    rows_over::<H>(alloc, rows, start / 2 + start % 2, above)
}
