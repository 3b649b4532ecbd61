//! The leaves that a prover asks for, which its seed determines.

ghost use Rattle.std.specs.Prelude.{◌≡◌, ◌+◌, ◌-◌, ◌%◌, ◌<◌, ◌≤◌};
ghost use Rattle.ledger_disk.specs.Generator.{next_draw};
ghost use Rattle.proof_board.specs.Draws.{drawn};

/// A generator of numbers: Knuth's linear congruential one of 64 bits (MMIX).
#[derive(Clone, Copy, Debug, PartialEq, Eq)]
pub(crate) struct Draws {
    pub(crate) state: u64,
}

impl Draws {
    /// The next number, below 2^31.
    fn draw(&mut self) -> u64
        ensures state { self.new.state ≡ next_draw self.old.state }
        ensures drawn { result ≡ drawn self.new.state }
    {
        self.state = self
            .state
            .wrapping_mul(6364136223846793005)
            .wrapping_add(1442695040888963407);
        self.state >> 33
    }

    /// The next of the numbers from `floor` on and below `size`.
    pub(crate) fn between(&mut self, floor: u64, size: u64) -> u64
        requires { floor < size }
        ensures state { self.new.state ≡ next_draw self.old.state }
        ensures drawn { result ≡ floor + drawn self.new.state % (size - floor) }
        ensures low { floor ≤ result }
        ensures high { result < size }
    {
        floor + self.draw() % (size - floor)
    }
}
