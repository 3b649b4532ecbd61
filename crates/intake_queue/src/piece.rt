//! What an item tells to go through the queue: its lane, and its number there.

ghost use Rattle.std.specs.Prelude.{◌≡◌, ℕ};

/// What goes through the queue: an item of one lane, with its number there. What is left in a queue is let go with it.
pub trait Piece: Send + Drop {
    ghost lane_of: { Self → ℕ };

    ghost index_of: { Self → ℕ };

    fn lane(&self) -> u8
        ensures { result ≡ lane_of self.now };

    fn index(&self) -> u64
        ensures { result ≡ index_of self.now };
}
