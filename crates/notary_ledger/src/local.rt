//! The notary that keeps its list in a file.

ghost use Rattle.std.specs.Prelude.{◌≡◌, ◌⊎◌, ◌<◌, ◌≤◌, ◌*◌, ℕ, IsTrue, List, Some, None, length, max, slice_get, IsSome, MatchResult, IsOk, IfOk, IfErr, OnOk, OnErr};
ghost use Rattle.ledger_bytes.specs.Causes.{Rose};
ghost use Rattle.ledger_disk.specs.Disk.{MayLeave};
ghost use Rattle.time_peg.specs.Entries.{IsList, CountsFailures, entry_of, last_time};
ghost use Rattle.notary_ledger.specs.Answering.{AnswersHead, AnswersPath, AnswersProof, Stamps};
ghost use Rattle.notary_ledger.specs.Clocks.{HasAdvanced, clock_times};
ghost use Rattle.notary_ledger.specs.Notaries.{origin_of};
ghost use Rattle.notary_ledger.specs.Slots.{Lists, MayList};
ghost use Rattle.notary_ledger.specs.Opening.{CountsOpenAt, IsShutAgain, KeepsList};

use crate::Clock;
use crate::entry::{new_entry, salt_for};
use crate::list::Entries;
use crate::open::load;
use crate::slot::put_entry;
use block_file::FileErr;
use journal_record::NOTARY_LIMIT;
use ledger_bytes::Digest;
use ledger_disk::Disk;
use merkle_tree::Head;
use std::alloc::Global;
use std::marker::Model;
use time_peg::{ENTRY_LEN, Notary, NotaryErr, Stamp};

/// A notary that keeps its list in a file. The time of an entry is the clock's moment, or that of the last entry
/// where this is greater. Its salt is SHA-256 of the byte 09, the seed and the entry's index in 8 bytes. The list
/// stands in memory too, with its tree, so that no call but a stamp asks the disk.
#[derive(Drop)]
pub struct LocalNotary<D: Disk, C: Clock> {
    disk: D,
    clock: C,
    seed: Digest,
    /// How many calls of the disk had failed when the list was taken up.
    begun: u64,
    list: Entries,
    /// The entry whose gate was called to be written since the last sync that succeeded.
    half: Option<[u8; ENTRY_LEN]>,
}

impl<D: Disk, C: Clock> Model for LocalNotary<D, C> {
    ghost use Rattle.notary_ledger.specs.Notaries.{Shown, Keeps};

    ghost Value = { Shown D C };

    ghost view = { λ n. record {
      disk = n.disk;
      clock = n.clock;
      seed = n.seed.0;
      begun = n.begun;
      entries = n.list.entries;
      half = n.half;
    } };

    ghost invariant = { λ n. Keeps D.tells n.list.entries n.half n.begun (D.state n.disk) };
}

impl<D: Disk, C: Clock> LocalNotary<D, C> {
    /// Takes up the list that the disk has: it syncs, and shuts the tail gate of a file that is empty or whose tail
    /// gate reads 01. A refused disk is handed back, with `DiskFault` where its count of faults rose, and else with
    /// `NoMemory`.
    pub fn reopen(
        alloc: Global,
        disk: D,
        clock: C,
        seed: Digest,
    ) -> Result<LocalNotary<D, C>, (FileErr, D)>
        ensures list { IfOk result (λ n. IsTrue D.tells
            → Lists n.entries (D.state disk).bytes.seen) }
        ensures half { IfOk result (λ n. n.half ≡ None) }
        ensures kept { IfOk result (λ n. (n.clock ≡ clock) × (n.seed ≡ seed.0)) }
        ensures lawful { IfOk result (λ n. IsList n.entries) }
        // Nothing is cut, also where bytes stand behind the tail gate.
        ensures same { IfOk result (λ n. IsTrue D.tells
            → IsShutAgain (73 * length n.entries) (D.state disk).bytes.seen (D.state n.disk).bytes.seen) }
        ensures begun { IfOk result (λ n. n.begun ≡ (D.state disk).faults) }
        // What a crash leaves of a refused disk has the list of something that a crash might have left before.
        ensures err { IfErr result (λ e. IsTrue D.tells → (image : List ℕ)
            → MayLeave (D.state e.1).bytes image → KeepsList (D.state disk).bytes image) }
        ensures faults { MatchResult result
            (λ n. (D.state n.disk).faults ≡ (D.state disk).faults)
            (λ e. CountsOpenAt e.0 (D.state disk).faults (D.state e.1).faults) }
    {
        let mut disk = disk;
        let begun = disk.faults();
        match load(alloc, &mut disk) {
            Ok(list) => Ok(LocalNotary {
                disk,
                clock,
                seed,
                begun,
                list,
                half: None,
            }),
            Err(err) => Err((err, disk)),
        }
    }

    /// Gives the disk back.
    pub fn into_disk(self) -> D
        ensures { result ≡ self.disk }
    {
        self.disk
    }

    /// In each image that a crash may leave of the disk stands the list, or that and the entry in `half`, whose
    /// stamp didn't answer Ok: such a one is there only where a call of the disk failed since the list was taken up.
    pub fn images_have_the_list(&self)
        ensures images { IsTrue D.tells → (image : List ℕ) → MayLeave (D.state self.now.disk).bytes image
            → MayList self.now.entries self.now.half image }
        ensures failed { IsSome self.now.half → Rose self.now.begun (D.state self.now.disk).faults }
        ensures lawful { IsList self.now.entries }
    {
        // Where a field is read, what the notary keeps true of its fields is known.
        let _ = &self.disk;
    }
}

impl<D: Disk, C: Clock> Notary for LocalNotary<D, C> {
    ghost state = { λ n. record {
      origin = origin_of n.seed (clock_times C.tells (C.moments n.clock)) n.begun;
      entries = n.entries;
      faults = (D.state n.disk).faults;
    } };

    fn stamp(&mut self, _alloc: Global, peg: &Digest) -> Result<Stamp, NotaryErr>
        ensures list { Stamps peg.now.0 self.old.seed (clock_times C.tells (C.moments self.old.clock))
            self.old.entries self.new.entries result }
        ensures lawful { IsList self.new.entries }
        ensures faults { CountsFailures result (D.state self.old.disk).faults (D.state self.new.disk).faults }
        ensures time { IfOk result (λ s. IsTrue C.tells
            → s.time ≡ max (C.moment self.old.clock 0) (last_time 0 self.old.entries)) }
        // What may stand behind the list after a crash: nothing after Ok. After an error what may have stood there
        // before, or nothing, or an entry with this peg.
        ensures half_ok { OnOk result (self.new.half ≡ None) }
        ensures half_err { OnErr result ((self.new.half ≡ self.old.half) ⊎ ((self.new.half ≡ None)
            ⊎ ((time : ℕ) × (salt : List ℕ) × (self.new.half ≡ Some (entry_of time peg.now.0 salt))))) }
        // The clock is asked once, or not at all where the stamp failed.
        ensures clock { IsTrue C.tells → OnOk result
            (HasAdvanced (C.moment self.old.clock) (C.moment self.new.clock)) }
        ensures clock_err { IsTrue C.tells → OnErr result ((self.new.clock ≡ self.old.clock)
            ⊎ HasAdvanced (C.moment self.old.clock) (C.moment self.new.clock)) }
        ensures origin { origin_of self.new.seed (clock_times C.tells (C.moments self.new.clock)) self.new.begun
            ≡ origin_of self.old.seed (clock_times C.tells (C.moments self.old.clock)) self.old.begun }
    {
        let index = self.list.len();
        if index >= NOTARY_LIMIT {
            return Err(NotaryErr::Full);
        }
        let Ok(()) = self.list.reserve() else {
            return Err(NotaryErr::NoMemory);
        };
        let now = self.clock.now_ms();
        let time = now.max(self.list.last_time());
        let salt = salt_for(&self.seed, index);
        let entry = new_entry(time, peg, &salt);
        let Ok(()) = put_entry(&mut self.disk, &mut self.half, 73 * index, &entry) else {
            return Err(NotaryErr::Failed);
        };
        self.list.push(&entry);
        Ok(Stamp { index, time, salt })
    }

    fn head(&mut self) -> Result<Head, NotaryErr>
        ensures head { AnswersHead self.old.entries result }
        ensures same { self.new ≡ self.old }
        ensures lawful { IsList self.new.entries }
    {
        Ok(self.list.head())
    }

    fn entry(&mut self, k: u64) -> Result<[u8; ENTRY_LEN], NotaryErr>
        requires { k < length self.old.entries }
        ensures entry { IfOk result (λ entry. slice_get self.old.entries k ≡ Some entry) }
        ensures ok { IsOk result }
        ensures same { self.new ≡ self.old }
    {
        Ok(self.list.get(k))
    }

    fn path(&mut self, _alloc: Global, k: u64) -> Result<Vec<Digest>, NotaryErr>
        requires { k < length self.old.entries }
        ensures path { AnswersPath self.old.entries k result }
        ensures same { self.new ≡ self.old }
    {
        self.list.path(k)
    }

    fn proof(&mut self, _alloc: Global, m: u64) -> Result<Vec<Digest>, NotaryErr>
        requires some { 0 < m }
        requires within { m ≤ length self.old.entries }
        ensures proof { AnswersProof self.old.entries m result }
        ensures same { self.new ≡ self.old }
    {
        self.list.proof(m)
    }

    fn faults(&self) -> u64 {
        self.disk.faults()
    }
}
