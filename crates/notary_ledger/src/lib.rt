//! Notaries: one that keeps its list in a file, and one in memory; and the clocks that tell the time.
//!
//! A notary's file is slots, one behind the other, and then a tail gate. Numbers are big-endian; offsets and lengths
//! are in bytes. Where the list has n entries:
//!
//! | Part | Offset | Bytes | Content |
//! |---|---|---|---|
//! | gate of slot k | 73 k | 1 | 01 is open, every other byte is shut |
//! | entry k: its time | 73 k + 1 | 8 | milliseconds since the beginning of 1970 |
//! | entry k: what was stamped | 73 k + 9 | 32 | a peg |
//! | entry k: its salt | 73 k + 41 | 32 | SHA-256 of the byte 09, the notary's seed and k in 8 bytes |
//! | tail gate | 73 n | 1 | shut |
//!
//! A slot is open where its gate is 01, at least 73 bytes follow the gate, its time isn't below that of the slot
//! before it, and fewer than 16,777,216 slots stand before it. The open slots from the start are the list. What stands
//! behind the tail gate doesn't count.
//!
//! What a crash may leave of a file stands in the contract of each call that writes, for each of its answers.
#![tactic(auto)]

mod clock;
mod entry;
mod laws;
mod list;
mod list_clock;
mod local;
mod memory;
mod open;
mod real_clock;
mod slot;
mod sure;

pub use clock::Clock;
pub use laws::{a_file_has_one_list, a_stop_leaves_the_list};
pub use list_clock::ListClock;
pub use local::LocalNotary;
pub use memory::MemNotary;
pub use real_clock::RealClock;
pub use sure::SureNotary;
