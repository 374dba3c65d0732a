//! Command lines: which command a list of words asks for. Its contract: `read_words` answers a line exactly where the
//! words are such words, and what they ask for. `host_words` has the words that the host gives, and `warehouse_file`
//! the file that they name; no clause says so.
#![tactic(auto)]

mod apps;
mod commands;
mod given;
mod host;
mod line;
mod read;

pub use host::{host_words, warehouse_file};
pub use line::{Command, Line, UsageFault};
pub use read::read_words;
