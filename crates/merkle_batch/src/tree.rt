//! A tree that grows by leaves and forgets its first ones, with its roots, paths, proofs and peaks.

ghost use Rattle.std.specs.Prelude.{◌≡◌, ℕ, ◌+◌, ◌-◌, ◌<◌, ◌≤◌, ◌^◌, List, [], ◌∷◌, ◌++◌, length, map, take, drop, get_or, count_ones, Err, IfOk, IfErr, IsOk, OnOk};
ghost use Rattle.tree_model.specs.Tree.{root};
ghost use Rattle.tree_model.specs.Path.{path, path_length};
ghost use Rattle.tree_model.specs.Extension.{proof, proof_length};
ghost use Rattle.tree_model.specs.RootFrom.{root_from};
ghost use Rattle.tree_model.specs.Peaks.{peaks as peaks_of};
ghost use Rattle.merkle_batch.specs.Over.{StandsOver};
ghost use Rattle.merkle_batch.specs.Rows.{StandsFor};
ghost use Rattle.merkle_batch.specs.declared.tree.TreeErr.TheVariants as tree_err;

use crate::joining::{add_rows, copy_rows};
use crate::row::Row;
use crate::rows::{add, add_path, add_peaks, add_proof, climb, forget, leaf_at, reserve, rows_of};
use crate::stretch::Stretch;
use ledger_bytes::{Digest, NoMemory, TreeHash};
use std::alloc::Global;
use std::marker::{Model, PhantomData};
use thiserror::Error;

// Room is made for so many leaves at least, so that a call for one leaf seldom looks at every level.
const LEAST_ROOM: u64 = 64;

/// Why a tree gives no answer.
#[derive(Clone, Copy, Debug, PartialEq, Eq, Error)]
pub enum TreeErr {
    /// The leaf, or the number of first leaves, lies below the floor, which is `p`.
    #[error("below the floor, which is {p}")]
    Below { p: u64 },
    /// There is no such leaf, or no such number of leaves. This is the size that was asked, where the leaf or the
    /// number lies beyond that, and else the tree's own.
    #[error("beyond the size of {size}")]
    Beyond { size: u64 },
    #[error("not enough memory")]
    NoMemory,
}

impl From<NoMemory> for TreeErr {
    fn from(_: NoMemory) -> Self {
        TreeErr::NoMemory
    }
}

/// The hash tree over the leaves that were added, by the digests that `merkle_tree::leaf_of` gives of them. It keeps
/// those from its floor on, and the peaks of the leaves before it.
#[derive(Drop)]
pub struct Tree<H: TreeHash> {
    alloc: Global,
    rows: Vec<Row>,
    size: u64,
    floor: u64,
    spare: u64,
    hash: PhantomData<H>,
}

impl<H: TreeHash> Model for Tree<H> {
    ghost use Rattle.std.specs.Prelude.{◌≤◌, ◌<◌, ◌^◌};
    ghost use Rattle.merkle_batch.specs.Over.{IsOverSome};
    ghost use Rattle.merkle_batch.specs.Rows.{Levels, HasCounted, HasRoom};

    ghost Value = { Levels };

    ghost view = { λ t. record {
      rows = t.rows.items;
      size = t.size;
      floor = t.floor;
      spare = t.spare;
    } };

    ghost invariant = { λ t. (t.floor ≤ t.size) × HasCounted t.floor t.size t.rows.items
        × HasRoom t.spare t.rows.items × (t.spare < 2 ^ 63)
        × IsOverSome H.of (record { rows = t.rows.items; size = t.size; floor = t.floor; spare = t.spare }) };
}

impl<H: TreeHash> Tree<H> {
    /// The tree over no leaves.
    pub fn new(alloc: Global) -> Self
        ensures stands { StandsFor H.of result [] }
        ensures over { StandsOver H.of result 0 [] [] }
        ensures size { result.size ≡ 0 }
        ensures floor { result.floor ≡ 0 }
    {
        Tree {
            alloc,
            rows: Vec::new(alloc),
            size: 0,
            floor: 0,
            spare: 0,
            hash: PhantomData,
        }
    }

    /// How many leaves it has.
    pub fn size(&self) -> u64
        ensures { result ≡ self.now.size }
    {
        self.size
    }

    /// The first leaf that is kept.
    pub fn floor(&self) -> u64
        ensures { result ≡ self.now.floor }
    {
        self.floor
    }

    // Adds one leaf.
    fn add_leaf(&mut self, leaf: Digest)
        requires room { 0 < self.old.spare }
        requires small { self.old.size + 1 < 2 ^ 63 }
        ensures stands { (ds : List (List ℕ)) → StandsFor H.of self.old ds
            → StandsFor H.of self.new (ds ++ leaf.0 ∷ []) }
        ensures over { (p : ℕ) (ps xs : List (List ℕ)) → StandsOver H.of self.old p ps xs
            → StandsOver H.of self.new p ps (xs ++ leaf.0 ∷ []) }
        ensures size { self.new.size ≡ self.old.size + 1 }
        ensures floor { self.new.floor ≡ self.old.floor }
        ensures spare { self.new.spare + 1 ≡ self.old.spare }
    {
        add::<H>(&mut self.rows, 0, leaf);
        self.size += 1;
        self.spare -= 1;
    }

    /// Adds leaves behind those that are there, in the room that `reserve` has set aside. It takes no memory.
    pub fn add_leaves(&mut self, leaves: &[Digest])
        requires room { length leaves.now ≤ self.old.spare }
        requires small { self.old.size + length leaves.now < 2 ^ 63 }
        ensures stands { (ds : List (List ℕ)) → StandsFor H.of self.old ds
            → StandsFor H.of self.new (ds ++ map (λ d. d.0) leaves.now) }
        ensures over { (p : ℕ) (ps xs : List (List ℕ)) → StandsOver H.of self.old p ps xs
            → StandsOver H.of self.new p ps (xs ++ map (λ d. d.0) leaves.now) }
        ensures size { self.new.size ≡ self.old.size + length leaves.now }
        ensures floor { self.new.floor ≡ self.old.floor }
        ensures spare { self.new.spare + length leaves.now ≡ self.old.spare }
    {
        for leaf in leaves {
            self.add_leaf(*leaf);
        }
    }

    /// Adds the leaves of a stretch behind those that are there, in the room that `reserve` has set aside. It takes no
    /// memory. Where the stretch begins at the tree's end, only the nodes over leaves of both are hashed, at most one a
    /// level.
    pub fn add_stretch(&mut self, stretch: &Stretch<H>)
        requires room { length stretch.now.leaves ≤ self.old.spare }
        requires small { self.old.size + length stretch.now.leaves < 2 ^ 63 }
        ensures stands { (ds : List (List ℕ)) → StandsFor H.of self.old ds
            → StandsFor H.of self.new (ds ++ stretch.now.leaves) }
        ensures over { (p : ℕ) (ps xs : List (List ℕ)) → StandsOver H.of self.old p ps xs
            → StandsOver H.of self.new p ps (xs ++ stretch.now.leaves) }
        ensures size { self.new.size ≡ self.old.size + length stretch.now.leaves }
        ensures floor { self.new.floor ≡ self.old.floor }
        ensures spare { self.new.spare + length stretch.now.leaves ≡ self.old.spare }
    {
        if self.size == stretch.start {
            self.join(stretch);
        } else {
            self.add_leaves(stretch.leaves());
        }
    }

    // Adds the leaves and the nodes of a stretch that begins at its end.
    fn join(&mut self, stretch: &Stretch<H>)
        requires start { stretch.now.start ≡ self.old.size }
        requires room { length stretch.now.leaves ≤ self.old.spare }
        requires small { self.old.size + length stretch.now.leaves < 2 ^ 63 }
        ensures stands { (ds : List (List ℕ)) → StandsFor H.of self.old ds
            → StandsFor H.of self.new (ds ++ stretch.now.leaves) }
        ensures over { (p : ℕ) (ps xs : List (List ℕ)) → StandsOver H.of self.old p ps xs
            → StandsOver H.of self.new p ps (xs ++ stretch.now.leaves) }
        ensures size { self.new.size ≡ self.old.size + length stretch.now.leaves }
        ensures floor { self.new.floor ≡ self.old.floor }
        ensures spare { self.new.spare + length stretch.now.leaves ≡ self.old.spare }
    {
        let len = stretch.len();
        add_rows::<H>(&mut self.rows, 0, stretch.start, None, &stretch.rows);
        self.size += len;
        self.spare -= len;
    }

    /// The root of the tree over all leaves. It takes no memory, as `root_at`.
    pub fn root(&self) -> Digest
        ensures list { (ds : List (List ℕ)) → StandsFor H.of self.now ds → result.0 ≡ root H.of ds }
        ensures over { (p : ℕ) (ps xs : List (List ℕ)) → StandsOver H.of self.now p ps xs
            → result.0 ≡ root_from H.of ps p xs }
    {
        self.root_over(self.size)
    }

    // The root over the first leaves, of which none that is kept is left out below the floor.
    fn root_over(&self, count: u64) -> Digest
        requires floor { self.now.floor ≤ count }
        requires there { count ≤ self.now.size }
        ensures list { (ds : List (List ℕ)) → StandsFor H.of self.now ds
            → result.0 ≡ root H.of (take count ds) }
        ensures over { (p : ℕ) (ps xs : List (List ℕ)) → StandsOver H.of self.now p ps xs
            → result.0 ≡ root_from H.of ps p (take (count - p) xs) }
    {
        match climb::<H>(&self.rows, self.floor, count, None) {
            Some(root) => root,
            None => H::empty(),
        }
    }

    // Refuses a leaf below the floor, and then one that isn't among the first `size`.
    fn check_leaf(&self, n: u64, size: u64) -> Result<(), TreeErr>
        ensures within { OnOk result ((self.now.floor ≤ n) × (n < size)) }
        ensures ok { self.now.floor ≤ n → n < size → IsOk result }
        ensures below { n < self.now.floor → result ≡ Err (tree_err.Below self.now.floor) }
        ensures beyond { self.now.floor ≤ n → size ≤ n → result ≡ Err (tree_err.Beyond size) }
    {
        if n < self.floor {
            Err(TreeErr::Below { p: self.floor })
        } else if n >= size {
            Err(TreeErr::Beyond { size })
        } else {
            Ok(())
        }
    }

    // Refuses a number of first leaves below the floor, and then one above `size`.
    fn check_front(&self, m: u64, size: u64) -> Result<(), TreeErr>
        ensures within { OnOk result ((self.now.floor ≤ m) × (m ≤ size)) }
        ensures ok { self.now.floor ≤ m → m ≤ size → IsOk result }
        ensures below { m < self.now.floor → result ≡ Err (tree_err.Below self.now.floor) }
        ensures beyond { self.now.floor ≤ m → size < m → result ≡ Err (tree_err.Beyond size) }
    {
        if m < self.floor {
            Err(TreeErr::Below { p: self.floor })
        } else if m > size {
            Err(TreeErr::Beyond { size })
        } else {
            Ok(())
        }
    }

    /// The root of the tree over the first `m` leaves.
    pub fn root_at(&self, m: u64) -> Result<Digest, TreeErr>
        ensures root { IfOk result (λ digest. (ds : List (List ℕ)) → StandsFor H.of self.now ds
            → digest.0 ≡ root H.of (take m ds)) }
        ensures over { IfOk result (λ digest. (p : ℕ) (ps xs : List (List ℕ))
            → StandsOver H.of self.now p ps xs
            → digest.0 ≡ root_from H.of ps p (take (m - p) xs)) }
        ensures ok { self.now.floor ≤ m → m ≤ self.now.size → IsOk result }
        ensures below { m < self.now.floor → result ≡ Err (tree_err.Below self.now.floor) }
        ensures beyond { self.now.floor ≤ m → self.now.size < m
            → result ≡ Err (tree_err.Beyond self.now.size) }
    {
        self.check_front(m, self.size)?;
        Ok(self.root_over(m))
    }

    /// The path of leaf `n` to the root over the first `size` leaves, from the leaf up (RFC 6962, section 2.1.1).
    pub fn path(&self, n: u64, size: u64) -> Result<Vec<Digest>, TreeErr>
        ensures path { IfOk result (λ digests. (ds : List (List ℕ)) → StandsFor H.of self.now ds
            → map (λ d. d.0) digests.items ≡ path H.of n (take size ds)) }
        ensures count { IfOk result (λ digests. length digests.items ≡ path_length n size) }
        ensures ok { self.now.floor ≤ n → n < size → size ≤ self.now.size
            → IfErr result (λ e. e ≡ tree_err.NoMemory) }
        ensures below { n < self.now.floor → result ≡ Err (tree_err.Below self.now.floor) }
        ensures beyond { self.now.floor ≤ n → size ≤ n → result ≡ Err (tree_err.Beyond size) }
        ensures beyond_all { self.now.floor ≤ n → n < size → self.now.size < size
            → result ≡ Err (tree_err.Beyond self.now.size) }
    {
        self.check_leaf(n, size)?;
        if size > self.size {
            return Err(TreeErr::Beyond { size: self.size });
        }
        let mut digests = Vec::new(self.alloc);
        match add_path::<H>(&mut digests, &self.rows, self.floor, n, size, None) {
            Ok(()) => Ok(digests),
            Err(_) => Err(TreeErr::NoMemory),
        }
    }

    /// Sets room aside for so many leaves more than there are, at each level of nodes.
    pub fn reserve(&mut self, more: usize) -> Result<(), NoMemory>
        ensures stands { (ds : List (List ℕ)) → StandsFor H.of self.old ds
            → StandsFor H.of self.new ds }
        ensures over { (q : ℕ) (ps xs : List (List ℕ)) → StandsOver H.of self.old q ps xs
            → StandsOver H.of self.new q ps xs }
        ensures size { self.new.size ≡ self.old.size }
        ensures floor { self.new.floor ≡ self.old.floor }
        ensures spare { self.old.spare ≤ self.new.spare }
        ensures ok { OnOk result (more ≤ self.new.spare) }
    {
        let more = more as u64;
        if more <= self.spare {
            return Ok(());
        }
        if more >= 1 << 63 {
            return Err(NoMemory);
        }
        let more = more.max(LEAST_ROOM);
        reserve(self.alloc, &mut self.rows, 0, more)?;
        self.spare = more;
        Ok(())
    }

    /// The digest of leaf `n`.
    pub fn leaf(&self, n: u64) -> Result<Digest, TreeErr>
        ensures leaf { IfOk result (λ digest. (ds : List (List ℕ)) → StandsFor H.of self.now ds
            → digest.0 ≡ get_or ds n []) }
        ensures over { IfOk result (λ digest. (p : ℕ) (ps xs : List (List ℕ))
            → StandsOver H.of self.now p ps xs → digest.0 ≡ get_or xs (n - p) []) }
        ensures ok { self.now.floor ≤ n → n < self.now.size → IsOk result }
        ensures below { n < self.now.floor → result ≡ Err (tree_err.Below self.now.floor) }
        ensures beyond { self.now.floor ≤ n → self.now.size ≤ n
            → result ≡ Err (tree_err.Beyond self.now.size) }
    {
        self.check_leaf(n, self.size)?;
        Ok(leaf_at(&self.rows, self.floor, n))
    }

    /// The leaves from one on up to another, with the nodes that depend on them alone. None is hashed.
    pub fn stretch(&self, from: u64, to: u64) -> Result<Stretch<H>, TreeErr>
        ensures start { IfOk result (λ s. s.start ≡ from) }
        ensures leaves { IfOk result (λ s. (ds : List (List ℕ)) → StandsFor H.of self.now ds
            → s.leaves ≡ take (to - from) (drop from ds)) }
        ensures over { IfOk result (λ s. (p : ℕ) (ps xs : List (List ℕ))
            → StandsOver H.of self.now p ps xs
            → s.leaves ≡ take (to - from) (drop (from - p) xs)) }
        ensures count { IfOk result (λ s. length s.leaves ≡ to - from) }
        ensures ok { self.now.floor ≤ from → from ≤ to → to ≤ self.now.size
            → IfErr result (λ e. e ≡ tree_err.NoMemory) }
        ensures below { from < self.now.floor → result ≡ Err (tree_err.Below self.now.floor) }
        ensures beyond { self.now.floor ≤ from → to < from → result ≡ Err (tree_err.Beyond to) }
        ensures beyond_all { self.now.floor ≤ from → from ≤ to → self.now.size < to
            → result ≡ Err (tree_err.Beyond self.now.size) }
    {
        self.check_front(from, to)?;
        if to > self.size {
            return Err(TreeErr::Beyond { size: self.size });
        }
        let mut rows = Vec::new(self.alloc);
        match copy_rows(self.alloc, &mut rows, &self.rows, self.floor, from, to) {
            Ok(()) => Ok(Stretch {
                start: from,
                rows,
                hash: PhantomData,
            }),
            Err(_) => Err(TreeErr::NoMemory),
        }
    }

    /// Forgets the leaves below `p`, and the nodes that only they need, and gives their memory back. It takes none, and
    /// its time is that of the kept nodes.
    pub fn forget_below(&mut self, p: u64) -> Result<(), TreeErr>
        ensures stands { (ds : List (List ℕ)) → StandsFor H.of self.old ds
            → StandsFor H.of self.new ds }
        ensures over { (q : ℕ) (ps xs : List (List ℕ)) → StandsOver H.of self.old q ps xs
            → StandsOver H.of self.new q ps xs }
        ensures size { self.new.size ≡ self.old.size }
        ensures floor { IfOk result (λ _. self.new.floor ≡ p) }
        ensures err { IfErr result (λ _. self.new ≡ self.old) }
        ensures spare { self.new.spare ≡ self.old.spare }
        ensures ok { self.old.floor ≤ p → p ≤ self.old.size → IsOk result }
        ensures below { p < self.old.floor → result ≡ Err (tree_err.Below self.old.floor) }
        ensures beyond { self.old.floor ≤ p → self.old.size < p
            → result ≡ Err (tree_err.Beyond self.old.size) }
    {
        self.check_front(p, self.size)?;
        forget(&mut self.rows, 0, self.floor, p, self.spare);
        self.floor = p;
        Ok(())
    }

    /// The tree over `p` leaves that have these peaks, one for each binary digit of `p` that is one, the greatest
    /// subtree first. None of its leaves is kept. Where no list of leaves has these peaks, its roots are those over the
    /// peaks and the leaves that are added (`over`).
    pub fn from_peaks(alloc: Global, p: u64, peaks: &[Digest]) -> Result<Self, NoMemory>
        ensures stands { IfOk result (λ tree. (ds : List (List ℕ)) → length ds ≡ p
            → map (λ d. d.0) peaks.now ≡ peaks_of H.of ds → StandsFor H.of tree ds) }
        ensures over { IfOk result (λ tree. length peaks.now ≡ count_ones p
            → StandsOver H.of tree p (map (λ d. d.0) peaks.now) []) }
        ensures size { IfOk result (λ tree. tree.size ≡ p) }
        ensures floor { IfOk result (λ tree. tree.floor ≡ p) }
    {
        let mut rows = Vec::new(alloc);
        rows_of::<H>(alloc, &mut rows, p, peaks)?;
        Ok(Tree {
            alloc,
            rows,
            size: p,
            floor: p,
            spare: 0,
            hash: PhantomData,
        })
    }

    /// The peaks of the first `m` leaves: all that `from_peaks` needs to go on from there.
    pub fn peaks_at(&self, m: u64) -> Result<Vec<Digest>, TreeErr>
        ensures peaks { IfOk result (λ digests. (ds : List (List ℕ)) → StandsFor H.of self.now ds
            → map (λ d. d.0) digests.items ≡ peaks_of H.of (take m ds)) }
        ensures count { IfOk result (λ digests. length digests.items ≡ count_ones m) }
        ensures ok { self.now.floor ≤ m → m ≤ self.now.size
            → IfErr result (λ e. e ≡ tree_err.NoMemory) }
        ensures below { m < self.now.floor → result ≡ Err (tree_err.Below self.now.floor) }
        ensures beyond { self.now.floor ≤ m → self.now.size < m
            → result ≡ Err (tree_err.Beyond self.now.size) }
    {
        self.check_front(m, self.size)?;
        let mut digests = Vec::new(self.alloc);
        match add_peaks(&mut digests, &self.rows, self.floor, m) {
            Ok(()) => Ok(digests),
            Err(_) => Err(TreeErr::NoMemory),
        }
    }

    /// The consistency proof from the tree over the first `m` leaves to that over the first `size`, from the leaves up
    /// (RFC 6962, section 2.1.2). Where both are the same it is empty.
    pub fn proof(&self, m: u64, size: u64) -> Result<Vec<Digest>, TreeErr>
        ensures proof { IfOk result (λ digests. (ds : List (List ℕ)) → StandsFor H.of self.now ds
            → m < size → map (λ d. d.0) digests.items ≡ proof H.of m (take size ds)) }
        ensures count { IfOk result (λ digests. length digests.items ≡ proof_length m size) }
        ensures all { m ≡ size → IfOk result (λ digests. digests.items ≡ []) }
        ensures ok { self.now.floor ≤ m → 0 < m → m ≤ size → size ≤ self.now.size
            → IfErr result (λ e. e ≡ tree_err.NoMemory) }
        ensures below { m < self.now.floor → result ≡ Err (tree_err.Below self.now.floor) }
        ensures beyond { self.now.floor ≤ m → size < m → result ≡ Err (tree_err.Beyond size) }
        ensures beyond_all { self.now.floor ≤ m → m ≤ size → self.now.size < size
            → result ≡ Err (tree_err.Beyond self.now.size) }
        ensures zero { self.now.floor ≡ 0 → m ≡ 0 → size ≤ self.now.size
            → result ≡ Err (tree_err.Beyond self.now.size) }
    {
        self.check_front(m, size)?;
        if size > self.size || m == 0 {
            return Err(TreeErr::Beyond { size: self.size });
        }
        let mut digests = Vec::new(self.alloc);
        if m == size {
            return Ok(digests);
        }
        match add_proof::<H>(&mut digests, &self.rows, self.floor, m, size, None) {
            Ok(()) => Ok(digests),
            Err(_) => Err(TreeErr::NoMemory),
        }
    }
}
