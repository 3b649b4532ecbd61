//! The two files of a ledger: which one is open, and how a copy in the other takes over.

ghost use Rattle.std.specs.Prelude.{◌≡◌, ◌≢◌, ◌⊎◌, ◌+◌, ◌≤◌, [], ◌∷◌, ℕ, Bool, List, None, Some, true, IsSome, option_map, length, take, drop, IsTrue, IfSome, IsSomeAnd, IfOk, IfErr, OnOk, OnErr};
ghost use Rattle.block_file.specs.File.{IsSettled, whole_file};
ghost use Rattle.block_file.specs.Head.{Counts, CountsTwoAlone, IsResumeErr, front_of, number_at};
ghost use Rattle.block_file.specs.FileView.{gate_of, base_len_of, HasTail};
ghost use Rattle.ledger_disk.specs.Disk.{MayLeave, settled_state, KeepsLength};
ghost use Rattle.twin_file.specs.Calls.{AreRead, IsAtFirst, IsBegun, AddsPiece, IsHalfSwitched, IsSwitched, KeepsOpen, SparesOpen, StaysCopying, TakesOver};
ghost use Rattle.twin_file.specs.Images.{AreShut, IsCopying, IsMadeOrShut, IsQuiet, LeavesFront};
ghost use Rattle.twin_file.specs.Picking.{IsReopened, view};
ghost use Rattle.twin_file.specs.Places.{HasCopy, IsBuilt, IsBuiltCopy};
ghost use Rattle.twin_file.specs.Twin.{open_of, other_of, OpensTo, IsReopenErr, next_generation};
ghost use Rattle.twin_file.specs.Which.{in_a_of, generation_in, format_in, file_of, copy_of, view_of, SameOpen};

use crate::copy::{extend, unveil_other};
use crate::parts::{begin, clear, make_first, wipe_file};
use crate::picking::pick;
use block_file::{BlockFile, FileErr, FileHead};
use ledger_disk::Disk;

/// Two files on two disks, of which one is open. A copy can be made in the other one, behind a shut gate: its first
/// byte is 00 on the disk for good until it is opened, so it is shut in every image, however long it is. The open
/// file of the greater generation is taken, and the first where both are open and the generations equal.
#[derive(Drop)]
pub struct Twin {
    in_a: bool,
    generation: u64,
    version: u8,
    file: BlockFile,
    copy: Option<BlockFile>,
}

impl Twin {
    ghost use Rattle.std.specs.Borrow.{sem};
    ghost use Rattle.twin_file.specs.Lending.{LendsFile};

    /// Looks at the head of `a`, then at that of `b`, and takes a file. It stands at its first block. None where both
    /// are shut. A damage or another version in either head is told, and the length of a base only in the file that
    /// is taken.
    pub fn reopen<D: Disk>(a: &mut D, b: &mut D) -> Result<Option<Twin>, FileErr>
        ensures answer { IfOk result (λ found. IsTrue D.tells
            → IsReopened (D.state a.old).bytes.seen (D.state b.old).bytes.seen (option_map view_of found)) }
        ensures err { IfErr result (λ e. IsTrue D.tells
            → IsReopenErr (D.state a.old).bytes.seen (D.state b.old).bytes.seen e) }
        ensures only { IfErr result (λ e. e ≢ FileErr.NoMemory) }

        // A pair that opens to a file is taken so, and nothing else is answered but a fault or a base that reaches
        // too far.
        ensures takes { IfOk result (λ found. IsTrue D.tells → (in_a : Bool) (file : List ℕ)
            → OpensTo in_a file (D.state a.old).bytes.seen (D.state b.old).bytes.seen
            → IsSomeAnd found (λ twin. in_a_of twin ≡ in_a)) }
        ensures takes_err { IfErr result (λ e. IsTrue D.tells → (in_a : Bool) (file : List ℕ)
            → OpensTo in_a file (D.state a.old).bytes.seen (D.state b.old).bytes.seen
            → (e ≡ FileErr.DiskFault) ⊎ IsResumeErr file (number_at 18 file) e) }

        ensures first { IfOk result (λ found.
            IfSome found (IsAtFirst (D.state a.new).told (D.state b.new).told)) }
        ensures read { AreRead D.tells result
            (D.state a.old) (D.state b.old) (D.state a.new) (D.state b.new) }
    {
        look(a, b)
    }

    /// Makes generation 1 in `a`, with an empty base and this block alone, and nothing in `b`, which is wiped before
    /// where it isn't empty. The block is without its gate. Both files must be shut.
    pub fn make<D: Disk>(a: &mut D, b: &mut D, block: &[u8]) -> Result<Twin, FileErr>
        ensures first { OnOk result (IsTrue D.tells
            → (D.state a.new).bytes ≡ settled_state (whole_file (front_of 1 1 []) (block.now ∷ []))) }
        ensures second { OnOk result (IsTrue D.tells → IsSettled (D.state b.old).bytes
            → (D.state b.new).bytes ≡ settled_state []) }

        // A crash at any time leaves both shut, or the first with that block alone.
        ensures images { IsTrue D.tells → AreShut (D.state a.old).bytes (D.state b.old).bytes
            → (image_a image_b : List ℕ) → MayLeave (D.state a.new).bytes image_a
            → MayLeave (D.state b.new).bytes image_b → IsMadeOrShut block.now image_a image_b }

        // After it nothing is pending.
        ensures quiet { OnOk result (IsTrue D.tells → AreShut (D.state a.old).bytes (D.state b.old).bytes
            → IsQuiet true (D.state a.new).bytes (D.state b.new).bytes) }

        ensures twin { IfOk result (λ twin. (in_a_of twin ≡ true) × (generation_in twin ≡ 1) × (format_in twin ≡ 2)
            × (gate_of (file_of twin) ≡ 65 + length block.now) × (copy_of twin ≡ None)) }
        ensures built { IfOk result (λ twin. IsTrue D.tells
            → IsBuilt (front_of 1 1 []) (block.now ∷ []) (D.state a.new).bytes.seen (file_of twin)) }
        ensures told { IfOk result (λ twin. HasTail (D.state a.new).told (file_of twin)) }
        ensures faults { CountsTwoAlone result
            (D.state a.old).faults (D.state a.new).faults (D.state b.old).faults (D.state b.new).faults }
    {
        clear(b)?;
        let file = make_first(a, block)?;
        Ok(Twin {
            in_a: true,
            generation: 1,
            version: 2,
            file,
            copy: None,
        })
    }

    /// The open file, for the calls that read it and add to it. They are given its disk, which is `a` where
    /// [`Twin::in_a`] says so.
    pub fn file(&mut self) -> &mut BlockFile
        ensures* writes_back { sem 𝓛 (LendsFile self.entry result) }
        ensures value { result.now ≡ file_of self.old }
    {
        &mut self.file
    }

    /// Whether the open file is the first.
    pub fn in_a(&self) -> bool
        ensures { result ≡ in_a_of self.now }
    {
        self.in_a
    }

    /// The generation of the open file.
    pub fn generation(&self) -> u64
        ensures { result ≡ generation_in self.now }
    {
        self.generation
    }

    /// The version of the open file: 1 or 2.
    pub fn version(&self) -> u8
        ensures { result ≡ format_in self.now }
    {
        self.version
    }

    /// Begins a copy in the other file, whose generation is one greater, or 2^64 - 1 where that is reached. A copy that
    /// was begun before is given up.
    pub fn begin_copy<D: Disk>(&mut self, a: &mut D, b: &mut D, base: &[u8]) -> Result<(), FileErr>
        // A crash at any time leaves the open file as it was, and a file that is passed over.
        ensures images { IsTrue D.tells → SparesOpen (in_a_of self.old)
            (D.state a.old).bytes (D.state b.old).bytes (D.state a.new).bytes (D.state b.new).bytes }

        // From then on the copy is shut in every image.
        ensures begun { OnOk result (IsBegun D.tells (next_generation (generation_in self.old)) base.now
            (other_of (in_a_of self.old) (D.state a.new).bytes (D.state b.new).bytes)
            (other_of (in_a_of self.old) (D.state a.new).told (D.state b.new).told) (copy_of self.new)) }
        ensures copying { OnOk result (IsTrue D.tells
            → IsQuiet (in_a_of self.old) (D.state a.old).bytes (D.state b.old).bytes
            → IsCopying (in_a_of self.old) (D.state a.new).bytes (D.state b.new).bytes) }
        ensures given_up { OnErr result (copy_of self.new ≡ None) }
        ensures which { SameOpen self.old self.new }
        ensures kept { KeepsOpen D.tells result (in_a_of self.old)
            (D.state a.old) (D.state b.old) (D.state a.new) (D.state b.new) }
    {
        let generation = self.generation.saturating_add(1);
        self.copy = None;
        if self.in_a {
            self.copy = Some(begin(b, generation, base)?);
        } else {
            self.copy = Some(begin(a, generation, base)?);
        }
        Ok(())
    }

    /// Copies `len` bytes at the offset `at` of the open file behind what stands in the copy: blocks with their gates,
    /// one after the other. They go through a fixed buffer in pieces of 65,536 bytes.
    pub fn copy_block<D: Disk>(
        &mut self,
        a: &mut D,
        b: &mut D,
        at: u64,
        len: u64,
    ) -> Result<(), FileErr>
        requires from { IsSomeAnd
            (open_of (in_a_of self.old) (D.state a.old).told (D.state b.old).told)
            (λ n. at + len ≤ n) }
        requires begun { HasCopy
            (other_of (in_a_of self.old) (D.state a.old).told (D.state b.old).told)
            (copy_of self.old) }
        ensures extended { OnOk result (AddsPiece D.tells
            (take len (drop at (open_of (in_a_of self.old) (D.state a.old).bytes (D.state b.old).bytes).seen)) len
            (other_of (in_a_of self.old) (D.state a.old).bytes (D.state b.old).bytes).seen
            (other_of (in_a_of self.old) (D.state a.new).bytes (D.state b.new).bytes).seen
            (other_of (in_a_of self.old) (D.state a.new).told (D.state b.new).told)
            (copy_of self.old) (copy_of self.new)) }

        // A crash meanwhile leaves the open file, and the copy shut.
        ensures copying { IsTrue D.tells
            → IsCopying (in_a_of self.old) (D.state a.old).bytes (D.state b.old).bytes
            → StaysCopying (in_a_of self.old)
            (D.state a.old).bytes (D.state b.old).bytes (D.state a.new).bytes (D.state b.new).bytes }
        ensures stays { OnErr result (self.new ≡ self.old) }
        ensures which { SameOpen self.old self.new }
        ensures kept { KeepsOpen D.tells result (in_a_of self.old)
            (D.state a.old) (D.state b.old) (D.state a.new) (D.state b.new) }
    {
        if self.in_a {
            extend(&mut self.copy, b, a, at, len)
        } else {
            extend(&mut self.copy, a, b, at, len)
        }
    }

    /// Opens the copy, which becomes the open file.
    pub fn switch<D: Disk>(&mut self, a: &mut D, b: &mut D) -> Result<(), FileErr>
        requires begun { HasCopy
            (other_of (in_a_of self.old) (D.state a.old).told (D.state b.old).told)
            (copy_of self.old) }
        // After it every image opens to the new file. A crash in it leaves a pair that opens to the old file or to
        // the new one.
        ensures switched { OnOk result (IsTrue D.tells → IsSwitched (in_a_of self.old)
            (D.state a.old).bytes (D.state b.old).bytes (D.state a.new).bytes (D.state b.new).bytes) }
        ensures images_err { OnErr result (IsTrue D.tells → IsHalfSwitched (in_a_of self.old)
            (D.state a.old).bytes (D.state b.old).bytes (D.state a.new).bytes (D.state b.new).bytes) }
        ensures which { OnOk result (TakesOver self.old self.new) }
        ensures built { OnOk result (IsTrue D.tells
            → (generation : ℕ) (base : List ℕ) (blocks : List (List ℕ))
            → IsBuiltCopy (front_of 0 generation base) blocks
            (other_of (in_a_of self.old) (D.state a.old).bytes (D.state b.old).bytes).seen
            (copy_of self.old)
            → IsBuilt (front_of 1 generation base) blocks
            (other_of (in_a_of self.old) (D.state a.new).bytes (D.state b.new).bytes).seen
            (file_of self.new)) }
        ensures stays { OnErr result (self.new ≡ self.old) }
        ensures told { OnOk result (HasTail
            (other_of (in_a_of self.old) (D.state a.new).told (D.state b.new).told)
            (file_of self.new)) }
        ensures kept { KeepsOpen D.tells result (in_a_of self.old)
            (D.state a.old) (D.state b.old) (D.state a.new) (D.state b.new) }
    {
        unveil_other(self.in_a, &mut self.copy, a, b)?;
        self.take_over();
        Ok(())
    }

    // The copy becomes the open file.
    fn take_over(&mut self)
        requires { IsSome (copy_of self.old) }
        ensures { TakesOver self.old self.new }
    {
        if let Some(file) = self.copy.take() {
            self.file = file;
            self.in_a = !self.in_a;
            self.generation = self.generation.saturating_add(1);
            self.version = 2;
        }
    }

    /// Cuts the other file to nothing, for good. A copy that was begun is given up.
    pub fn wipe<D: Disk>(&mut self, a: &mut D, b: &mut D) -> Result<(), FileErr>
        ensures ok { OnOk result (IsTrue D.tells
            → other_of (in_a_of self.old) (D.state a.new).bytes (D.state b.new).bytes ≡ settled_state []) }

        // A crash at any time leaves the open file as it was, and a file that is passed over.
        ensures images { IsTrue D.tells → SparesOpen (in_a_of self.old)
            (D.state a.old).bytes (D.state b.old).bytes (D.state a.new).bytes (D.state b.new).bytes }

        // .. and a front of the other one.
        ensures front { IsTrue D.tells → LeavesFront
            (other_of (in_a_of self.old) (D.state a.old).bytes (D.state b.old).bytes)
            (other_of (in_a_of self.old) (D.state a.new).bytes (D.state b.new).bytes) }

        // After it nothing is pending.
        ensures quiet { OnOk result (IsTrue D.tells
            → IsQuiet (in_a_of self.old) (D.state a.old).bytes (D.state b.old).bytes
            → IsQuiet (in_a_of self.old) (D.state a.new).bytes (D.state b.new).bytes) }

        ensures which { SameOpen self.old self.new }
        ensures given_up { copy_of self.new ≡ None }
        ensures kept { KeepsOpen D.tells result (in_a_of self.old)
            (D.state a.old) (D.state b.old) (D.state a.new) (D.state b.new) }
    {
        self.copy = None;
        if self.in_a {
            wipe_file(b)?;
        } else {
            wipe_file(a)?;
        }
        Ok(())
    }
}

// Looks at the heads of both files and takes one.
fn look<D: Disk>(a: &mut D, b: &mut D) -> Result<Option<Twin>, FileErr>
    ensures answer { IfOk result (λ found. IsTrue D.tells
        → IsReopened (D.state a.old).bytes.seen (D.state b.old).bytes.seen (option_map view_of found)) }
    ensures err { IfErr result (λ e. IsTrue D.tells
        → IsReopenErr (D.state a.old).bytes.seen (D.state b.old).bytes.seen e) }
    ensures only { IfErr result (λ e. e ≢ FileErr.NoMemory) }
    ensures first { IfOk result (λ found.
        IfSome found (IsAtFirst (D.state a.new).told (D.state b.new).told)) }
    ensures read { AreRead D.tells result
        (D.state a.old) (D.state b.old) (D.state a.new) (D.state b.new) }
{
    let first = BlockFile::head(a)?;
    let second = BlockFile::head(b)?;
    match pick(first, second) {
        Some(picked) => {
            if picked.in_a {
                resume(a, &picked.head, true)
            } else {
                resume(b, &picked.head, false)
            }
        }
        None => Ok(None),
    }
}

// The file that is taken, at its first block.
fn resume<D: Disk>(disk: &mut D, head: &FileHead, in_a: bool) -> Result<Option<Twin>, FileErr>
    requires { IsSomeAnd (D.state disk.old).told (λ n. 65 ≤ n) }
    ensures twin { IfOk result (λ found. IsSomeAnd found
        (λ twin. view_of twin ≡ view in_a head.now.generation head.now.version (64 + head.now.base_len)
        head.now.base_len head.now.base_digest.0)) }
    ensures begins { IfOk result (λ found. IfSome found (λ twin.
        gate_of (file_of twin) ≡ 64 + base_len_of (file_of twin))) }
    ensures copy { IfOk result (λ found. IfSome found (λ twin. copy_of twin ≡ None)) }
    ensures err { IfErr result (λ e. IsTrue D.tells
        → IsResumeErr (D.state disk.old).bytes.seen head.now.base_len e) }
    ensures only { IfErr result (λ e. e ≢ FileErr.NoMemory) }
    ensures told { IfOk result (λ found. IsSomeAnd found
        (λ twin. HasTail (D.state disk.new).told (file_of twin))) }
    ensures state { IsTrue D.tells → (D.state disk.new).bytes ≡ (D.state disk.old).bytes }
    ensures length { KeepsLength (D.state disk.old).told (D.state disk.new).told }
    ensures faults { Counts result (D.state disk.old).faults (D.state disk.new).faults }
{
    let file = BlockFile::resume(disk, head)?;
    Ok(Some(Twin {
        in_a,
        generation: head.generation,
        version: head.version,
        file,
        copy: None,
    }))
}
