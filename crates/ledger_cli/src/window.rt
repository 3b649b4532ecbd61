//! The window of a script's lines that is at hand, and which line ends it.

ghost use Rattle.ledger_bytes.specs.declared.limits.TheConstants.{WINDOW_BYTES, WINDOW_LINES};
ghost use Rattle.std.specs.Prelude.{◌≡◌, ◌+◌, ◌<◌, ◌≤◌, if◌then◌else◌};
ghost use Rattle.ledger_io.specs.Lines.{line_limit};
ghost use Rattle.ledger_model.specs.Windows.{fills_window};

use ledger_bytes::{WINDOW_BYTES, WINDOW_LINES};

/// The window at hand: how many lines and bytes it has already.
#[derive(Clone, Copy, Debug, PartialEq, Eq)]
pub(crate) struct Window {
    lines: u64,
    bytes: u64,
    ghost few_lines: { lines < WINDOW_LINES },
    ghost few_bytes: { bytes < WINDOW_BYTES },
}

impl Window {
    pub(crate) fn new() -> Self
        ensures lines { result.lines ≡ 0 }
        ensures bytes { result.bytes ≡ 0 }
    {
        Window { lines: 0, bytes: 0 }
    }

    /// Takes a line, and tells whether it ends the window. The next one then begins.
    pub(crate) fn add(&mut self, length: usize) -> bool
        requires { length ≤ line_limit }
        ensures full { result ≡ fills_window (self.old.lines + 1) (self.old.bytes + length) }
        ensures lines { self.new.lines ≡ (if result then 0 else self.old.lines + 1) }
        ensures bytes { self.new.bytes ≡ (if result then 0 else self.old.bytes + length) }
    {
        let lines = self.lines + 1;
        let bytes = self.bytes + length as u64;
        let full = lines >= WINDOW_LINES || bytes >= WINDOW_BYTES;
        *self = if full {
            Window::new()
        } else {
            Window { lines, bytes }
        };
        full
    }
}
