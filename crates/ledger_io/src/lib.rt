//! What is read and written: the traits of a source and a sink, their forms in memory and over std's readers and
//! writers, the lines of a source, the writing of a whole piece, the words of a command line, and how a run over such
//! lines ends.
#![tactic(auto)]

mod adapters;
mod buffer;
mod calls;
mod command;
mod ending;
mod failure;
mod memory;
mod outside;
mod reader;
mod window;
mod writer;

pub use adapters::{StdSink, StdSource};
pub use command::command_words;
pub use ending::Ending;
pub use failure::LineErr;
pub use memory::{MemSink, MemSource};
pub use outside::{Sink, Source};
pub use reader::{LINE_LIMIT, Lines, SCRIPT_LIMIT};
pub use window::Window;
pub use writer::{WriteErr, finish, write_all, write_last};
