//! A disk that has the file of a nearly full notary without keeping its bytes.

ghost use Rattle.std.specs.Prelude.{◌≡◌, ◌+◌, ◌*◌, ◌^◌, ◌≤◌, length, false};
ghost use Rattle.ledger_bytes.specs.Causes.{count_after};

use ledger_bytes::Failed;
use ledger_disk::Disk;

// The bytes of a slot in a notary's file.
const SLOT_LEN: u64 = 73;

// The most bytes that can be written.
const MOST_WRITTEN: u64 = 1 << 20;

/// A disk whose first bytes are made when they are read: so many slots of a notary's file, each with an open gate and
/// 72 zeros. What is written stands behind them, in memory. A write or a cut in front of their end fails.
#[derive(Drop)]
pub(crate) struct MadeDisk {
    slots: u32,
    written: Vec<u8>,
    faults: u64,
    ghost within: { length written.items ≤ 2 ^ 20 },
    ghost bounded: { 73 * slots + length written.items ≤ 2 ^ 62 },
}

impl MadeDisk {
    /// A disk with so many slots and nothing behind them.
    pub(crate) fn of(slots: u32, written: Vec<u8>) -> Option<MadeDisk> {
        if written.len() as u64 > MOST_WRITTEN {
            return None;
        }
        Some(MadeDisk {
            slots,
            written,
            faults: 0,
        })
    }

    // How many bytes are made.
    fn made(&self) -> u64
        ensures { result ≡ 73 * self.now.slots }
    {
        SLOT_LEN * u64::from(self.slots)
    }

    fn end(&self) -> u64
        ensures { result ≡ 73 * self.now.slots + length self.now.written.items }
    {
        self.made() + self.written.len() as u64
    }

    fn byte_at(&self, at: u64) -> u8 {
        let made = self.made();
        if at < made {
            return u8::from(at % SLOT_LEN == 0);
        }
        let place = (at - made) as usize;
        self.written.as_slice().get(place).copied().unwrap_or(0)
    }

    // Counts a failure.
    fn fail(&mut self) -> Failed
        ensures slots { self.new.slots ≡ self.old.slots }
        ensures written { self.new.written ≡ self.old.written }
        ensures faults { self.new.faults ≡ count_after self.old.faults }
    {
        self.faults = self.faults.saturating_add(1);
        Failed
    }
}

impl Disk for MadeDisk {
    ghost use Rattle.ledger_disk.specs.Adapter.{untold_state};
    ghost use Rattle.ledger_disk.specs.Bounds.{not_told, some_bounded};
    ghost use Rattle.std.specs.Prelude.{Some};
    ghost use Rattle.std.proofs.Math.Nat.{le_refl};

    ghost tells = { false };

    ghost state = { λ d. record {
      bytes = untold_state;
      told = Some (73 * d.slots + length d.written.items);
      faults = d.faults;
    } };

    ghost bounded = { λ d n is. some_bounded (73 * d.slots + length d.written.items) (2 ^ 62) n is
        d.bounded (le_refl (2 ^ 62)) };

    ghost length_is = { λ _ told. not_told told };

    ghost seen_may_be_left = { λ _ told. not_told told };

    fn len(&mut self) -> Result<u64, Failed> {
        Ok(self.end())
    }

    fn read(&mut self, at: u64, into: &mut [u8]) -> Result<usize, Failed> {
        let n = self.end().saturating_sub(at).min(into.len() as u64) as usize;
        for i in 0..n {
            into[i] = self.byte_at(at + i as u64);
        }
        Ok(n)
    }

    fn write(&mut self, at: u64, piece: &[u8]) -> Result<(), Failed> {
        let made = self.made();
        if at < made || at - made + piece.len() as u64 > MOST_WRITTEN {
            return Err(self.fail());
        }
        let place = (at - made) as usize;
        let inside = piece.len().min(self.written.len() - place);
        let Ok(()) = self.written.extend_from_slice(&piece[inside..]) else {
            return Err(self.fail());
        };
        self.written[place..place + inside].copy_from_slice(&piece[..inside]);
        Ok(())
    }

    fn cut(&mut self, to: u64) -> Result<(), Failed> {
        let made = self.made();
        if to < made {
            return Err(self.fail());
        }
        self.written.truncate((to - made) as usize);
        Ok(())
    }

    fn sync(&mut self) -> Result<(), Failed> {
        Ok(())
    }

    fn faults(&self) -> u64 {
        self.faults
    }
}
