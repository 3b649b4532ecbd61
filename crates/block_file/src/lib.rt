//! A file of blocks behind gates. Numbers are big-endian; offsets and lengths are in bytes.
//!
//! | Part | Offset | Bytes | Content |
//! |---|---|---|---|
//! | file gate | 0 | 1 | 01 is open, every other byte is shut |
//! | magic | 1 | 8 | ASCII `LEDGERDB` |
//! | version | 9 | 1 | 2, or 1 in an older file |
//! | generation | 10 | 8 | from 1 |
//! | base_len | 18 | 8 | the length of the base |
//! | base digest | 26 | 32 | SHA-256 of the byte 07 and the base |
//! | reserved | 58 | 6 | zeros, not looked at |
//! | base | 64 | base_len | |
//! | blocks | 64 + base_len | | one after the other |
//! | tail gate | | 1 | shut |
//!
//! A file is shut where it has fewer than 65 bytes or its gate isn't 01. A block is its gate, which is open, and then
//! its head, 4 bytes count, 8 bytes body_len and 32 bytes root, and its body: for each journal the header, 4 bytes
//! who_len, the content and the who. What stands behind the tail gate doesn't count.
//!
//! No call of a file takes memory but [`BlockFile::base`] and [`BlockFile::next_block`]. What a crash may leave of a file stands
//! in the contract of each call that writes, for each of its answers.
#![tactic(auto)]

mod block;
mod copying;
mod failure;
mod file;
mod head;
mod place;
mod reading;
mod records;
mod tail;
mod veil;
mod writer;
mod zeroing;

pub use block::{BLOCK_HEAD_LEN, BlockAt, RecordAt, a_file_has_one_list_of_blocks};
pub use failure::{Damage, FileErr};
pub use file::BlockFile;
pub use head::FileHead;
pub use place::{FIRST_GATE, PlaceAt};
pub use writer::BlockWriter;
