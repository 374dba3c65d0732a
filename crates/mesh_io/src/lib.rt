//! What lies outside of the program, as traits: a folder of files, a clock, a source of bytes and a sink of them. Its
//! contract: each object counts its faults, the count never falls, and a call fails only where it rose; where an
//! object tells its content, a call answers exactly what that says. The objects in memory tell everything and fail by
//! a list; those over the host's files, clock and streams tell nothing and are the trusted edge.
#![tactic(auto)]

mod calls;
mod dir_folder;
mod fails;
mod files;
mod mem_clock;
mod mem_folder;
mod mem_sink;
mod mem_source;
mod outside;
mod refused;
mod std_streams;
mod system_clock;
mod taking;

pub use calls::Numbers;
pub use dir_folder::DirFolder;
pub use fails::IoFail;
pub use files::{File, Files, are_distinct};
pub use mem_clock::MemClock;
pub use mem_folder::MemFolder;
pub use mem_sink::MemSink;
pub use mem_source::MemSource;
pub use outside::{Clock, Folder, Sink, Source};
pub use std_streams::{StdSink, StdSource};
pub use system_clock::SystemClock;
pub use taking::take_all;
