//! The program's calls: `cli` has the top call of `mesh`, and `demo` the demonstration, which goes over the same
//! commands. Each module says its contract; they stand on `mesh_cli_words` for words, on `mesh_cli_apply` and
//! `mesh_cli_look` for the commands, and on `mesh_cli_print` for what is printed.
#![tactic(auto)]

pub mod cli;
pub mod demo;
pub mod promise;
