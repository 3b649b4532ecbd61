//! A disk that stops after so many calls, to show what a stop leaves of a ledger.

ghost use Rattle.std.specs.Prelude.{◌≡◌, ◌+◌, ◌-◌, ◌^◌, ◌≤◌, ◌++◌, IsTrue, length, take, drop, min, max, Some, IfOk, OnOk, OnErr, IfSome, IsSome, IsSomeAnd};
ghost use Rattle.ledger_disk.specs.Disk.{settled_state, overlay, with_write, cut_to, MayHaveWritten, MayHaveCut, CountsFault, KeepsLength};

use crate::Disk;
use ledger_bytes::Failed;

/// A disk that stops. It passes on so many calls of `write`, `cut` and `sync`, counted together, and all reads
/// between them. Each call after the last of these fails, and nothing reaches the disk any more.
#[derive(Drop)]
pub struct FuseDisk<D: Disk> {
    inner: D,
    left: u64,
    refused: u64,
}

impl<D: Disk> FuseDisk<D> {
    ghost use Rattle.ledger_disk.specs.Fuse.{inner_of, left_of, refused_of};

    pub fn new(inner: D, left: u64) -> FuseDisk<D>
        ensures inner { inner_of result ≡ inner }
        ensures left { left_of result ≡ left }
        ensures refused { refused_of result ≡ 0 }
    {
        FuseDisk {
            inner,
            left,
            refused: 0,
        }
    }

    pub fn into_inner(self) -> D
        ensures { result ≡ inner_of self }
    {
        self.inner
    }
}

// Uses up one of the calls that are left. Where none is, the call is refused.
fn spend(left: &mut u64, refused: &mut u64) -> Result<(), Failed>
    ensures faults { CountsFault result refused.old refused.new }
    ensures left { left.new ≡ left.old - 1 }
    ensures passed { OnOk result (1 ≤ left.old) }
    ensures stopped { OnErr result (left.old ≡ 0) }
{
    check(*left, refused)?;
    *left -= 1;
    Ok(())
}

// Where no call is left, this one is refused.
fn check(left: u64, refused: &mut u64) -> Result<(), Failed>
    ensures faults { CountsFault result refused.old refused.new }
    ensures passed { OnOk result (1 ≤ left) }
    ensures stopped { OnErr result (left ≡ 0) }
{
    if left == 0 {
        *refused = refused.saturating_add(1);
        return Err(Failed);
    }
    Ok(())
}

impl<D: Disk> Disk for FuseDisk<D> {
    ghost use Rattle.ledger_disk.specs.Fuse.{inner_of, left_of, refused_of, fuse_state, fuse_faults, IsPassedOn};

    ghost tells = { D.Disk.tells };

    ghost state = { λ f. fuse_state D.Disk.state f };

    ghost bounded = { λ f. D.Disk.bounded f.inner };

    ghost length_is = { λ f. D.Disk.length_is f.inner };

    ghost seen_may_be_left = { λ f. D.Disk.seen_may_be_left f.inner };

    fn len(&mut self) -> Result<u64, Failed>
        ensures value { IfOk result (λ n. (D.state (inner_of self.new)).told ≡ Some n) }
        ensures state { IsTrue D.tells → (D.state (inner_of self.new)).bytes ≡ (D.state (inner_of self.old)).bytes }
        ensures length { KeepsLength
            (D.state (inner_of self.old)).told (D.state (inner_of self.new)).told }
        ensures faults { CountsFault result
            (fuse_faults D.state self.old) (fuse_faults D.state self.new) }
        ensures left { left_of self.new ≡ left_of self.old }
        ensures passed { IsPassedOn result self.old self.new }
    {
        check(self.left, &mut self.refused)?;
        self.inner.len()
    }

    fn read(&mut self, at: u64, into: &mut [u8]) -> Result<usize, Failed>
        ensures told { OnOk result (IsSome (D.state (inner_of self.new)).told) }
        ensures count { IfOk result (λ n. IfSome (D.state (inner_of self.new)).told
            (λ len. n ≡ min (length into.old) (len - at))) }
        ensures bytes { IfOk result (λ n. IsTrue D.tells
            → into.new ≡ take n (drop at (D.state (inner_of self.old)).bytes.seen) ++ drop n into.old) }
        ensures state { IsTrue D.tells → (D.state (inner_of self.new)).bytes ≡ (D.state (inner_of self.old)).bytes }
        ensures length { KeepsLength
            (D.state (inner_of self.old)).told (D.state (inner_of self.new)).told }
        ensures faults { CountsFault result
            (fuse_faults D.state self.old) (fuse_faults D.state self.new) }
        ensures left { left_of self.new ≡ left_of self.old }
        ensures passed { IsPassedOn result self.old self.new }
    {
        check(self.left, &mut self.refused)?;
        self.inner.read(at, into)
    }

    fn write(&mut self, at: u64, piece: &[u8]) -> Result<(), Failed>
        requires { IfSome (D.state (inner_of self.old)).told (λ n. at ≤ n) }
        ensures ok { OnOk result (IsTrue D.tells → (D.state (inner_of self.new)).bytes
            ≡ with_write at (length piece.now)
            (overlay at piece.now (D.state (inner_of self.old)).bytes.seen)
            (D.state (inner_of self.old)).bytes) }
        ensures err { OnErr result (IsTrue D.tells → MayHaveWritten at (length piece.now)
            (D.state (inner_of self.old)).bytes (D.state (inner_of self.new)).bytes) }
        ensures told { OnOk result (IsSomeAnd (D.state (inner_of self.new)).told
            (λ n. at + length piece.now ≤ n)) }
        ensures fits { OnOk result (at + length piece.now ≤ 2 ^ 62) }
        ensures length { OnOk result (IfSome (D.state (inner_of self.old)).told
            (λ n. (D.state (inner_of self.new)).told ≡ Some (max n (at + length piece.now)))) }
        ensures length_err { OnErr result (IfSome (D.state (inner_of self.old)).told
            (λ n. IsSomeAnd (D.state (inner_of self.new)).told
            (λ m. (n ≤ m) × (m ≤ max n (at + length piece.now))))) }
        ensures faults { CountsFault result
            (fuse_faults D.state self.old) (fuse_faults D.state self.new) }
        ensures left { left_of self.new ≡ left_of self.old - 1 }
        ensures passed { IsPassedOn result self.old self.new }
    {
        spend(&mut self.left, &mut self.refused)?;
        self.inner.write(at, piece)
    }

    fn cut(&mut self, to: u64) -> Result<(), Failed>
        requires { IfSome (D.state (inner_of self.old)).told (λ n. to ≤ n) }
        ensures ok { OnOk result (IsTrue D.tells
            → (D.state (inner_of self.new)).bytes ≡ cut_to to (D.state (inner_of self.old)).bytes) }
        ensures err { OnErr result (IsTrue D.tells
            → MayHaveCut to (D.state (inner_of self.old)).bytes (D.state (inner_of self.new)).bytes) }
        ensures told { OnOk result (IsSome (D.state (inner_of self.new)).told) }
        ensures length { OnOk result ((D.state (inner_of self.new)).told ≡ Some to) }
        ensures length_err { OnErr result (IfSome (D.state (inner_of self.old)).told
            (λ n. IsSomeAnd (D.state (inner_of self.new)).told (λ m. (to ≤ m) × (m ≤ n)))) }
        ensures faults { CountsFault result
            (fuse_faults D.state self.old) (fuse_faults D.state self.new) }
        ensures left { left_of self.new ≡ left_of self.old - 1 }
        ensures passed { IsPassedOn result self.old self.new }
    {
        spend(&mut self.left, &mut self.refused)?;
        self.inner.cut(to)
    }

    fn sync(&mut self) -> Result<(), Failed>
        ensures ok { OnOk result (IsTrue D.tells
            → (D.state (inner_of self.new)).bytes ≡ settled_state (D.state (inner_of self.old)).bytes.seen) }
        ensures err { OnErr result (IsTrue D.tells
            → (D.state (inner_of self.new)).bytes ≡ (D.state (inner_of self.old)).bytes) }
        ensures told { OnOk result (IsSome (D.state (inner_of self.new)).told) }
        ensures length { KeepsLength
            (D.state (inner_of self.old)).told (D.state (inner_of self.new)).told }
        ensures faults { CountsFault result
            (fuse_faults D.state self.old) (fuse_faults D.state self.new) }
        ensures left { left_of self.new ≡ left_of self.old - 1 }
        ensures passed { IsPassedOn result self.old self.new }
    {
        spend(&mut self.left, &mut self.refused)?;
        self.inner.sync()
    }

    fn faults(&self) -> u64
        ensures { result ≡ fuse_faults D.state self.now }
    {
        self.inner.faults().saturating_add(self.refused)
    }
}
