//! The random numbers of a soak, which its seed determines.

ghost use Rattle.std.specs.Prelude.{◌≡◌, ◌%◌, ◌<◌};
ghost use Rattle.ledger_disk.specs.Generator.{next_draw};
ghost use Rattle.ledger_soak.specs.Tasks.{drawn};

/// A generator of numbers: Knuth's linear congruential one of 64 bits (MMIX).
#[derive(Clone, Copy, Debug, PartialEq, Eq)]
pub(crate) struct Draws {
    pub(crate) state: u64,
}

impl Draws {
    /// The next number, below 2^31.
    pub(crate) fn draw(&mut self) -> u64
        ensures state { self.new.state ≡ next_draw self.old.state }
        ensures drawn { result ≡ drawn self.new.state }
    {
        self.state = self
            .state
            .wrapping_mul(6364136223846793005)
            .wrapping_add(1442695040888963407);
        self.state >> 33
    }

    /// The next number modulo `most`.
    pub(crate) fn below(&mut self, most: u64) -> u64
        requires { 0 < most }
        ensures state { self.new.state ≡ next_draw self.old.state }
        ensures drawn { result ≡ drawn self.new.state % most }
        ensures below { result < most }
    {
        self.draw() % most
    }
}
