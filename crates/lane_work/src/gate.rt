//! The gate that a prepared line passes, by which its lane can be held.

/// What each line passes once it is prepared, before it is handed on. A gate that holds a line holds its lane alone.
pub trait Gate: Sync {
    fn pass(&self, lane: u8, index: u64);
}

/// A gate that holds nothing.
pub struct OpenGate;

impl Gate for OpenGate {
    fn pass(&self, _lane: u8, _index: u64) {}
}
