//! The levels of a tree that grows, over which leaves are added and forgotten and roots, paths and proofs are made.

ghost use Rattle.std.specs.Prelude.{◌≡◌, ℕ, suc, ◌+◌, ◌-◌, ◌*◌, ◌/◌, ◌%◌, ◌^◌, ◌<◌, ◌≤◌, List, [], ◌∷◌, ◌++◌, length, take, drop, get_or, max, map, count_ones, option_map, true, OnOk, IfOk};
ghost use Rattle.tree_model.specs.Tree.{Hash};
ghost use Rattle.tree_model.specs.Path.{path, path_length};
ghost use Rattle.tree_model.specs.Extension.{proof, proof_length};
ghost use Rattle.tree_model.specs.Halves.{halve, pairs, edge, beside, own_part};
ghost use Rattle.tree_model.specs.Peaks.{peaks as peaks_of};
ghost use Rattle.merkle_batch.specs.Over.{KeepsOver, root_over};
ghost use Rattle.merkle_batch.specs.Rows.{first_of, KeepsNodes, HasCounted, HasRoom, HasNodes, Grown, Forgot, IsNil, root_of};

use crate::row::Row;
use ledger_bytes::{Digest, NoMemory, TreeHash};
use merkle_tree::node_of;
use std::alloc::Global;

// Adds a digest behind the nodes of one level, and the nodes above that it completes.
pub(crate) fn add<H: TreeHash>(rows: &mut [Row], level: usize, digest: Digest)
    requires { HasRoom 1 (drop level rows.old) }
    ensures below { take level rows.new ≡ take level rows.old }
    ensures keeps { (p : ℕ) (ds : List (List ℕ)) → p ≤ length ds
        → KeepsNodes H.of p (drop level rows.old) ds
        → KeepsNodes H.of p (drop level rows.new) (ds ++ digest.0 ∷ []) }
    ensures over { (p floor : ℕ) (ps xs : List (List ℕ)) → length ps ≡ count_ones p
        → p ≤ floor → floor ≤ p + length xs → KeepsOver H.of p floor (drop level rows.old) ps xs
        → KeepsOver H.of p floor (drop level rows.new) ps (xs ++ digest.0 ∷ []) }
    ensures counts { (p count : ℕ) → p ≤ count → HasCounted p count (drop level rows.old)
        → HasCounted p (suc count) (drop level rows.new) }
    ensures room { (more : ℕ) → HasRoom (suc more) (drop level rows.old)
        → HasRoom more (drop level rows.new) }
{
    if level >= rows.len() {
        unreachable!()
    }
    if let Some(left) = rows[level].push(digest) {
        let node = node_of::<H>(&left, &digest);
        add::<H>(rows, level + 1, node);
    }
}

// The last of the first `count` nodes of a level joined with what stands behind them at the right edge, where their
// number is odd. Where it is even the edge goes up as it is.
fn join<H: TreeHash>(row: &Row, p: u64, count: u64, behind: Option<Digest>) -> Option<Digest>
    requires floor { p ≤ count }
    requires there { count ≤ first_of p + length row.now.nodes }
    ensures { (ds : List (List ℕ)) → row.now.nodes ≡ drop (first_of p) ds → count ≤ length ds
        → halve H.of (take count ds ++ edge (option_map (λ d. d.0) behind))
        ≡ take (count / 2) (pairs H.of ds) ++ edge (option_map (λ d. d.0) result) }
{
    if count % 2 == 0 {
        return behind;
    }
    let last = row.at(count - 1 - p / 2 * 2);
    match behind {
        None => Some(last),
        Some(edge) => Some(node_of::<H>(&last, &edge)),
    }
}

// The root over the first `count` nodes of a level and what stands behind them at the right edge.
pub(crate) fn climb<H: TreeHash>(
    rows: &[Row],
    p: u64,
    count: u64,
    behind: Option<Digest>,
) -> Option<Digest>
    requires floor { p ≤ count }
    requires there { HasNodes p count rows.now }
    ensures list { (ds : List (List ℕ)) → KeepsNodes H.of p rows.now ds
        → p ≤ length ds → count ≤ length ds
        → option_map (λ d. d.0) result
        ≡ root_of H.of (take count ds ++ edge (option_map (λ d. d.0) behind)) }
    ensures over { (q : ℕ) (ps xs : List (List ℕ)) → length ps ≡ count_ones q
        → q ≤ p → count ≤ q + length xs → KeepsOver H.of q p rows.now ps xs
        → option_map (λ d. d.0) result
        ≡ root_over H.of ps q (take (count - q) xs ++ edge (option_map (λ d. d.0) behind)) }
{
    match rows {
        [] => behind,
        [row, above @ ..] => {
            let joined = join::<H>(row, p, count, behind);
            climb::<H>(above, p / 2, count / 2, joined)
        }
    }
}

// Adds the path of the digest `n` among the first `count` nodes of a level and what stands behind them.
pub(crate) fn add_path<H: TreeHash>(
    digests: &mut Vec<Digest>,
    rows: &[Row],
    p: u64,
    n: u64,
    count: u64,
    behind: Option<Digest>,
) -> Result<(), NoMemory>
    requires first { first_of p ≤ n }
    requires floor { p ≤ count }
    requires there { HasNodes p count rows.now }
    requires small { n + 1 < 2 ^ 64 }
    requires leaf { n ≤ count }
    ensures list { OnOk result ((ds : List (List ℕ)) → KeepsNodes H.of p rows.now ds
        → p ≤ length ds → count ≤ length ds
        → n < length (take count ds ++ edge (option_map (λ d. d.0) behind))
        → map (λ d. d.0) digests.new.items ≡ map (λ d. d.0) digests.old.items
        ++ path H.of n (take count ds ++ edge (option_map (λ d. d.0) behind))) }
    ensures count { OnOk result (n < count + length (edge (option_map (λ d. d.0) behind))
        → length digests.new.items ≡ length digests.old.items
        + path_length n (count + length (edge (option_map (λ d. d.0) behind)))) }
{
    match rows {
        [] => Ok(()),
        [row, above @ ..] => {
            push_some(digests, sibling(row, p, n, count, behind))?;
            let joined = join::<H>(row, p, count, behind);
            add_path::<H>(digests, above, p / 2, n / 2, count / 2, joined)
        }
    }
}

// Adds a digest behind those that are there, where there is one.
fn push_some(digests: &mut Vec<Digest>, side: Option<Digest>) -> Result<(), NoMemory>
    ensures { OnOk result (map (λ d. d.0) digests.new.items
        ≡ map (λ d. d.0) digests.old.items ++ edge (option_map (λ d. d.0) side)) }
{
    if let Some(digest) = side {
        digests.push(digest)?;
    }
    Ok(())
}

// The digest that stands beside the digest `n` in its pair, where there is one.
fn sibling(row: &Row, p: u64, n: u64, count: u64, behind: Option<Digest>) -> Option<Digest>
    requires first { first_of p ≤ n }
    requires floor { p ≤ count }
    requires there { count ≤ first_of p + length row.now.nodes }
    requires small { n + 1 < 2 ^ 64 }
    requires leaf { n ≤ count }
    ensures { (ds : List (List ℕ)) → row.now.nodes ≡ drop (first_of p) ds
        → p ≤ length ds → count ≤ length ds
        → beside n (take count ds ++ edge (option_map (λ d. d.0) behind))
        ≡ edge (option_map (λ d. d.0) result) }
{
    let place = n + 1 - n % 2 * 2;
    if place < count {
        Some(row.at(place - p / 2 * 2))
    } else if place == count {
        behind
    } else {
        None
    }
}

// Sets room aside for so many digests more at one level, and for the nodes above that they complete.
pub(crate) fn reserve(
    alloc: Global,
    rows: &mut Vec<Row>,
    level: usize,
    more: u64,
) -> Result<(), NoMemory>
    requires level { level ≤ length rows.old.items }
    requires small { more < 2 ^ 63 }
    requires room { HasRoom 0 (drop level rows.old.items) }
    ensures below { take level rows.new.items ≡ take level rows.old.items }
    ensures keeps { Grown (drop level rows.old.items) (drop level rows.new.items) }
    ensures ok { OnOk result (HasRoom more (drop level rows.new.items)) }
{
    if more == 0 {
        return Ok(());
    }
    extend(alloc, rows, level)?;
    let above = rows[level].reserve(more)?;
    reserve(alloc, rows, level + 1, above)
}

// Adds an empty row where there is none for a level.
fn extend(alloc: Global, rows: &mut Vec<Row>, level: usize) -> Result<(), NoMemory>
    requires { level ≤ length rows.old.items }
    ensures below { take level rows.new.items ≡ take level rows.old.items }
    ensures keeps { Grown (drop level rows.old.items) (drop level rows.new.items) }
    ensures ok { OnOk result (level < length rows.new.items) }
    ensures len { OnOk result (length rows.new.items ≡ max (level + 1) (length rows.old.items)) }
    ensures empty { length rows.old.items ≡ level
        → OnOk result (IsNil (drop level rows.new.items)) }
{
    if level == rows.len() {
        rows.push(Row::new(alloc))?;
    }
    Ok(())
}

// The digest of a leaf.
pub(crate) fn leaf_at(rows: &[Row], p: u64, n: u64) -> Digest
    requires first { first_of p ≤ n }
    requires there { HasNodes p (n + 1) rows.now }
    ensures list { (hash : Hash) (ds : List (List ℕ)) → KeepsNodes hash p rows.now ds
        → result.0 ≡ get_or ds n [] }
    ensures over { (hash : Hash) (q : ℕ) (ps xs : List (List ℕ)) → length ps ≡ count_ones q
        → q ≤ p → p ≤ n → KeepsOver hash q p rows.now ps xs → result.0 ≡ get_or xs (n - q) [] }
{
    match rows {
        [] => unreachable!(),
        [row, ..] => row.at(n - p / 2 * 2),
    }
}

// Forgets the nodes of one level, and of those above it, that a higher floor leaves out. There is still room for so
// many digests more.
pub(crate) fn forget(rows: &mut [Row], level: usize, p: u64, to: u64, more: u64)
    requires higher { p ≤ to }
    requires there { HasNodes p to (drop level rows.old) }
    requires room { HasRoom more (drop level rows.old) }
    requires small { more < 2 ^ 63 }
    ensures below { take level rows.new ≡ take level rows.old }
    ensures forgot { Forgot p to (drop level rows.old) (drop level rows.new) }
    ensures room { HasRoom more (drop level rows.new) }
{
    if level < rows.len() {
        let above = rows[level].forget(to / 2 * 2 - p / 2 * 2, more);
        forget(rows, level + 1, p / 2, to / 2, above);
    }
}

// Adds the peaks of the first `count` nodes of a level behind the digests that are there.
pub(crate) fn add_peaks(
    digests: &mut Vec<Digest>,
    rows: &[Row],
    p: u64,
    count: u64,
) -> Result<(), NoMemory>
    requires floor { p ≤ count }
    requires there { HasNodes p count rows.now }
    ensures list { OnOk result ((hash : Hash) (ds : List (List ℕ)) → KeepsNodes hash p rows.now ds
        → p ≤ length ds → count ≤ length ds
        → map (λ d. d.0) digests.new.items
        ≡ map (λ d. d.0) digests.old.items ++ peaks_of hash (take count ds)) }
    ensures count { OnOk result
        (length digests.new.items ≡ length digests.old.items + count_ones count) }
{
    match rows {
        [] => Ok(()),
        [row, above @ ..] => {
            add_peaks(digests, above, p / 2, count / 2)?;
            push_some(digests, odd_last(row, p, count))
        }
    }
}

// The last of the first `count` nodes of a level, where their number is odd.
fn odd_last(row: &Row, p: u64, count: u64) -> Option<Digest>
    requires floor { p ≤ count }
    requires there { count ≤ first_of p + length row.now.nodes }
    ensures { (ds : List (List ℕ)) → row.now.nodes ≡ drop (first_of p) ds → count ≤ length ds
        → drop (2 * (length (take count ds) / 2)) (take count ds)
        ≡ edge (option_map (λ d. d.0) result) }
{
    if count % 2 == 0 {
        None
    } else {
        Some(row.at(count - 1 - p / 2 * 2))
    }
}

// Makes the rows over the peaks of `p` digests, and puts them behind those that are there.
pub(crate) fn rows_of<H: TreeHash>(
    alloc: Global,
    rows: &mut Vec<Row>,
    p: u64,
    peaks: &[Digest],
) -> Result<(), NoMemory>
    ensures front { OnOk result (take (length rows.old.items) rows.new.items ≡ rows.old.items) }
    ensures counts { OnOk result (HasCounted p p (drop (length rows.old.items) rows.new.items)) }
    ensures room { OnOk result (HasRoom 0 (drop (length rows.old.items) rows.new.items)) }
    ensures keeps { OnOk result ((hash : Hash) (ds : List (List ℕ)) → length ds ≡ p
        → map (λ d. d.0) peaks.now ≡ peaks_of hash ds
        → KeepsNodes hash p (drop (length rows.old.items) rows.new.items) ds) }
    ensures over { OnOk result ((hash : Hash) → length peaks.now ≡ count_ones p
        → KeepsOver hash p p (drop (length rows.old.items) rows.new.items)
        (map (λ d. d.0) peaks.now) []) }
{
    if p == 0 {
        return Ok(());
    }
    let mut row = Row::new(alloc);
    let rest = take_peak::<H>(&mut row, p, peaks)?;
    rows.push(row)?;
    rows_of::<H>(alloc, rows, p / 2, rest)
}

// Takes the last of some peaks into an empty row, where the number of digests is odd. The answer is the other peaks.
fn take_peak<'a, H: TreeHash>(
    row: &mut Row,
    p: u64,
    peaks: &'a [Digest],
) -> Result<&'a [Digest], NoMemory>
    requires { row.old.nodes ≡ [] }
    ensures len { OnOk result (length row.new.nodes ≡ p % 2) }
    ensures room { length row.new.nodes ≤ row.new.room }
    ensures parts { IfOk result (λ rest. p % 2 ≤ length peaks.now
        → map (λ d. d.0) peaks.now ≡ map (λ d. d.0) rest.now ++ row.new.nodes) }
{
    if p % 2 == 0 {
        return Ok(peaks);
    }
    row.reserve(1)?;
    match peaks {
        [] => {
            row.push(H::empty());
            Ok(peaks)
        }
        [rest @ .., last] => {
            row.push(*last);
            Ok(rest)
        }
    }
}

// Adds the consistency proof of the first `m` among the first `count` nodes of a level and what stands behind them.
pub(crate) fn add_proof<H: TreeHash>(
    digests: &mut Vec<Digest>,
    rows: &[Row],
    p: u64,
    m: u64,
    count: u64,
    behind: Option<Digest>,
) -> Result<(), NoMemory>
    requires some { 0 < m }
    requires floor { p ≤ m }
    requires within { m ≤ count }
    requires there { HasNodes p count rows.now }
    ensures list { OnOk result ((ds : List (List ℕ)) → KeepsNodes H.of p rows.now ds
        → p ≤ length ds → count ≤ length ds
        → m < length (take count ds ++ edge (option_map (λ d. d.0) behind))
        → map (λ d. d.0) digests.new.items ≡ map (λ d. d.0) digests.old.items
        ++ proof H.of m (take count ds ++ edge (option_map (λ d. d.0) behind))) }
    ensures count { OnOk result (m < count + length (edge (option_map (λ d. d.0) behind))
        → length digests.new.items ≡ length digests.old.items
        + proof_length m (count + length (edge (option_map (λ d. d.0) behind)))) }
{
    match rows {
        [] => Ok(()),
        [row, above @ ..] => {
            if m % 2 == 0 {
                let joined = join::<H>(row, p, count, behind);
                return add_proof::<H>(digests, above, p / 2, m / 2, count / 2, joined);
            }
            push_some(digests, last_of(row, p, m, count))?;
            add_path::<H>(digests, rows, p, m - 1, count, behind)
        }
    }
}

// The last of the first `m` nodes of a level, where it isn't the only one.
fn last_of(row: &Row, p: u64, m: u64, count: u64) -> Option<Digest>
    requires odd { m % 2 ≡ 1 }
    requires floor { p ≤ m }
    requires within { m ≤ count }
    requires there { count ≤ first_of p + length row.now.nodes }
    ensures { (ds cs : List (List ℕ)) → row.now.nodes ≡ drop (first_of p) ds → count ≤ length ds
        → own_part true m (take count ds ++ cs) ≡ edge (option_map (λ d. d.0) result) }
{
    if m == 1 {
        None
    } else {
        Some(row.at(m - 1 - p / 2 * 2))
    }
}
