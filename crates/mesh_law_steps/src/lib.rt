//! Laws of the steps of commands. Of a plan's changes: `puts`, its models stand in the book once they are put;
//! `opens`, what is recorded once it is opened; `fills`, making and filling a model keeps a world sound. Of upkeep:
//! `again`, what sweeping and promoting leave, once and again; `sweep`, the janitor and loads keep a world sound;
//! `migrate`, what a move to other fingerprints leaves.
#![tactic(auto)]

pub mod again;
pub mod fills;
pub mod migrate;
pub mod opens;
pub mod puts;
pub mod sweep;
