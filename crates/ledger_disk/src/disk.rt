//! What a disk is: the calls that read, write, cut and sync it, and what each leaves, also where it fails.

ghost use Rattle.std.specs.Prelude.{◌≡◌, ◌≤◌, ◌+◌, ◌-◌, ◌^◌, ◌++◌, ℕ, Bool, IsTrue, Some, length, min, max, take, drop, IfOk, IfSome, IsSome, IsSomeAnd, OnOk, OnErr};
ghost use Rattle.ledger_disk.specs.Disk.{DiskState, MayLeave, settled_state, overlay, with_write, cut_to, MayHaveWritten, MayHaveCut, CountsFault, KeepsLength};

use ledger_bytes::Failed;

/// A disk, which has the bytes of one file. Offsets and lengths count bytes. It tells its length from its first
/// call that answered Ok on, and is never longer than 2^62.
pub trait Disk {
    /// Whether this kind of disk tells its contents. An adapter over a real file doesn't.
    ghost tells: { Bool };

    /// What a clause knows of the disk. Where the contents aren't told nothing reads them.
    ghost state: { Self → DiskState };

    /// How many bytes there are.
    fn len(&mut self) -> Result<u64, Failed>
        ensures value { IfOk result (λ n. (state self.new).told ≡ Some n) }
        ensures state { IsTrue tells → (state self.new).bytes ≡ (state self.old).bytes }
        ensures length { KeepsLength (state self.old).told (state self.new).told }
        ensures faults { CountsFault result (state self.old).faults (state self.new).faults };

    /// Fills `into` from this offset on, as far as bytes stand there, and answers how many they are.
    fn read(&mut self, at: u64, into: &mut [u8]) -> Result<usize, Failed>
        ensures told { OnOk result (IsSome (state self.new).told) }
        ensures count { IfOk result (λ n. IfSome (state self.new).told
            (λ len. n ≡ min (length into.old) (len - at))) }
        ensures bytes { IfOk result (λ n. IsTrue tells
            → into.new ≡ take n (drop at (state self.old).bytes.seen) ++ drop n into.old) }
        ensures state { IsTrue tells → (state self.new).bytes ≡ (state self.old).bytes }
        ensures length { KeepsLength (state self.old).told (state self.new).told }
        ensures faults { CountsFault result (state self.old).faults (state self.new).faults };

    /// Writes a piece over what stands at this offset, and past the end. A write that would end past 2^62 fails.
    /// One that failed may have written any bytes in its range.
    fn write(&mut self, at: u64, piece: &[u8]) -> Result<(), Failed>
        requires { IfSome (state self.old).told (λ n. at ≤ n) }
        ensures ok { OnOk result (IsTrue tells → (state self.new).bytes
            ≡ with_write at (length piece.now)
            (overlay at piece.now (state self.old).bytes.seen) (state self.old).bytes) }
        ensures err { OnErr result (IsTrue tells
            → MayHaveWritten at (length piece.now) (state self.old).bytes (state self.new).bytes) }

        // The length grows up to the end of the piece, where that is greater.
        ensures told { OnOk result (IsSomeAnd (state self.new).told
            (λ n. at + length piece.now ≤ n)) }
        ensures fits { OnOk result (at + length piece.now ≤ 2 ^ 62) }
        ensures length { OnOk result (IfSome (state self.old).told
            (λ n. (state self.new).told ≡ Some (max n (at + length piece.now)))) }
        ensures length_err { OnErr result (IfSome (state self.old).told
            (λ n. IsSomeAnd (state self.new).told
            (λ m. (n ≤ m) × (m ≤ max n (at + length piece.now))))) }

        ensures faults { CountsFault result (state self.old).faults (state self.new).faults };

    /// Cuts the disk to a length. A cut that failed may have cut it to any length between.
    fn cut(&mut self, to: u64) -> Result<(), Failed>
        requires { IfSome (state self.old).told (λ n. to ≤ n) }
        ensures ok { OnOk result (IsTrue tells → (state self.new).bytes ≡ cut_to to (state self.old).bytes) }
        ensures err { OnErr result (IsTrue tells
            → MayHaveCut to (state self.old).bytes (state self.new).bytes) }
        ensures told { OnOk result (IsSome (state self.new).told) }
        ensures length { OnOk result ((state self.new).told ≡ Some to) }
        ensures length_err { OnErr result (IfSome (state self.old).told
            (λ n. IsSomeAnd (state self.new).told (λ m. (to ≤ m) × (m ≤ n)))) }
        ensures faults { CountsFault result (state self.old).faults (state self.new).faults };

    /// Makes all that was written stand for good: afterwards a crash leaves what a read gives, and nothing else.
    fn sync(&mut self) -> Result<(), Failed>
        ensures ok { OnOk result (IsTrue tells
            → (state self.new).bytes ≡ settled_state (state self.old).bytes.seen) }
        ensures err { OnErr result (IsTrue tells → (state self.new).bytes ≡ (state self.old).bytes) }
        ensures told { OnOk result (IsSome (state self.new).told) }
        ensures length { KeepsLength (state self.old).told (state self.new).told }
        ensures faults { CountsFault result (state self.old).faults (state self.new).faults };

    /// How many calls failed. The count stays at 2^64 - 1 once it is there.
    fn faults(&self) -> u64
        ensures { result ≡ (state self.now).faults };

    /// No disk is longer than this.
    ghost bounded: { (disk : Self) (n : ℕ) → (state disk).told ≡ Some n → n ≤ 2 ^ 62 };

    /// A disk that tells its contents tells their length.
    ghost length_is: { (disk : Self) → IsTrue tells
        → (state disk).told ≡ Some (length (state disk).bytes.seen) };

    /// A disk as it reads is one of its images.
    ghost seen_may_be_left: { (disk : Self) → IsTrue tells
        → MayLeave (state disk).bytes (state disk).bytes.seen };
}
