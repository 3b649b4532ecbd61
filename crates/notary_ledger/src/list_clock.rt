//! A clock that tells moments which were given to it beforehand.

ghost use Rattle.std.specs.Prelude.{◌≡◌, ℕ, drop, true, slice_index_or};
ghost use Rattle.notary_ledger.specs.Clocks.{HasAdvanced};

use crate::Clock;
use std::marker::Model;

/// A clock that answers these moments in order, and 0 after the last. A contract sees them, and those that are left.
#[derive(Drop)]
pub struct ListClock {
    moments: Vec<u64>,
    /// How many were answered.
    answered: usize,
}

impl Model for ListClock {
    ghost use Rattle.std.specs.Prelude.{drop};
    ghost use Rattle.notary_ledger.specs.Clocks.{Moments};

    ghost Value = { Moments };

    ghost view = { λ c. record { all = c.moments.items; left = drop c.answered c.moments.items } };
}

impl ListClock {
    /// A clock with these moments.
    pub fn new(moments: Vec<u64>) -> ListClock
        ensures { result ≡ record { all = moments.items; left = moments.items } }
    {
        ListClock {
            moments,
            answered: 0,
        }
    }
}

impl Clock for ListClock {
    ghost tells = { true };

    ghost moment = { λ c n. slice_index_or c.left n 0 };

    ghost moments = { λ c n. slice_index_or c.all n 0 };

    fn now_ms(&mut self) -> u64
        ensures moment { result ≡ slice_index_or self.old.left 0 0 }
        ensures left { self.new.left ≡ drop 1 self.old.left }
        ensures later { HasAdvanced (λ n. slice_index_or self.old.left n 0) (λ n. slice_index_or self.new.left n 0) }
        ensures among { (call : ℕ) × (result ≡ slice_index_or self.old.all call 0) }
        ensures same { self.new.all ≡ self.old.all }
    {
        let Some(moment) = self.moments.as_slice().get(self.answered).copied() else {
            return 0;
        };
        self.answered += 1;
        moment
    }
}
