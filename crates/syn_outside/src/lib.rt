//! The outside of a program: files that are read and written by name, and a text that is put out.
//! Each is a trait that says what a call did to what can be told of it, and that counts its own
//! faults, so that an answer of failure always has a cause. There are implementations in memory,
//! with faults at will, and over the real runtime; two functions read a file whole and put a text
//! whole. What the real files and the real output hold is trusted and not told.
#![tactic(auto)]

mod buffer;
mod memory_files;
mod memory_text;
mod runtime;
mod traits;
mod whole;

pub use memory_files::MemCabinet;
pub use memory_text::MemSink;
pub use runtime::{FolderCabinet, StdSink};
pub use traits::{Cabinet, Sink, Trouble};
pub use whole::{ReadError, WriteError, put_all, read_all};
