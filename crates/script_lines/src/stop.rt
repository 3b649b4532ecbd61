//! Why reading a line gives nothing: it is refused, or memory is missing.

ghost use Rattle.std.specs.Prelude.{◌≡◌};
ghost use Rattle.script_lines.specs.declared.stop.Stop.TheVariants as stop;

use ledger_bytes::{NoMemory, Refusal};

/// Why a reader that keeps what it reads gives no value.
#[derive(Clone, Copy, Debug, PartialEq, Eq)]
pub enum Stop {
    /// The line is refused.
    Refused(Refusal),
    NoMemory,
}

impl From<Refusal> for Stop {
    ghost from_gives = { λ refusal s. s ≡ stop.Refused refusal };

    fn from(refusal: Refusal) -> Self {
        Stop::Refused(refusal)
    }
}

impl From<NoMemory> for Stop {
    ghost from_gives = { λ _ s. s ≡ stop.NoMemory };

    fn from(_: NoMemory) -> Self {
        Stop::NoMemory
    }
}
