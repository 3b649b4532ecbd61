//! What a clock is, from which a notary has its times.

ghost use Rattle.std.specs.Prelude.{◌≡◌, ℕ, Bool, IsTrue};
ghost use Rattle.notary_ledger.specs.Clocks.{HasAdvanced};

/// A clock. A moment is in milliseconds since the beginning of 1970, in UTC.
pub trait Clock: Drop {
    /// Whether this kind of clock tells its moments before it is asked. That of the system doesn't.
    ghost tells: { Bool };

    /// The moment that each call answers from now on, by its number from 0, where it is told.
    ghost moment: { Self → ℕ → ℕ };

    /// All moments that it has, from its first call to its last, where they are told.
    ghost moments: { Self → ℕ → ℕ };

    /// The moment now. It may lie before one that was answered earlier.
    fn now_ms(&mut self) -> u64
        ensures moment { IsTrue tells → result ≡ moment self.old 0 }
        ensures later { IsTrue tells → HasAdvanced (moment self.old) (moment self.new) }
        ensures among { IsTrue tells → (call : ℕ) × (result ≡ moments self.old call) }
        ensures same { moments self.new ≡ moments self.old };
}
