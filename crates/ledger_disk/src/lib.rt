//! A disk as the ledger sees it: what a read gives, what a crash may leave (`specs/Disk.antt`), and its forms in
//! memory, behind a fuse, and over a file. No call takes memory but [`MemDisk::new`], [`MemDisk::crash`],
//! [`MemDisk::bytes`] and [`FileDisk::at`].
#![tactic(auto)]

mod disk;
mod file;
mod fuse;
mod images;
mod memory;
mod pieces;
mod torn;

pub use disk::Disk;
pub use file::FileDisk;
pub use fuse::FuseDisk;
pub use images::{is_confining, is_crash_model, is_guarding};
pub use memory::{MemDisk, Pick};
