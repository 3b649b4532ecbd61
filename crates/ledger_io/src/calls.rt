//! Which calls of a source or a sink in memory fail, and how many did.

ghost use Rattle.std.specs.Prelude.{◌≡◌, ◌≤◌, ◌↔◌, Contains, IsTrue};
ghost use Rattle.std.specs.Bool.{OnTrue};
ghost use Rattle.ledger_bytes.specs.Causes.{Rose};
ghost use Rattle.ledger_io.specs.Memory.{Plan, after_call, unused_plan};

use std::marker::Model;

/// Counts the calls of an object in memory. Chosen ones are to fail.
#[derive(Drop)]
pub struct Calls {
    next: u64,
    fail_at: Vec<u64>,
    faults: u64,
}

impl Model for Calls {
    ghost Value = { Plan };

    ghost view = { λ c. record { next = c.next; fail_at = c.fail_at.items; faults = c.faults } };
}

impl Calls {
    pub fn new(fail_at: Vec<u64>) -> Self
        ensures { result ≡ unused_plan fail_at.items }
    {
        Calls {
            next: 0,
            fail_at,
            faults: 0,
        }
    }

    /// Counts a call, and answers whether it is to fail.
    pub fn fails(&mut self) -> bool
        ensures fails { IsTrue result ↔ Contains self.old.fail_at self.old.next }
        ensures counts { self.new ≡ after_call self.old result }
        ensures later { self.old.faults ≤ self.new.faults }
        ensures rose { OnTrue result (Rose self.old.faults self.new.faults) }
    {
        let fails = self.fail_at.contains(&self.next);
        self.next = self.next.saturating_add(1);
        if fails {
            self.faults = self.faults.saturating_add(1);
        }
        fails
    }

    /// How many calls failed.
    pub fn faults(&self) -> u64
        ensures { result ≡ self.now.faults }
    {
        self.faults
    }
}
