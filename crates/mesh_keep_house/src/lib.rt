//! A warehouse over the records of a keeper: `bodies` writes what records say, `touched` tells which records a change
//! is about, `stored` reads the world that records say, and `kept` is the warehouse. Each module says its contract;
//! they stand on `mesh_keep` for what it is to know a world, and on `mesh_keep_records` and
//! `mesh_keep_records::reading` for texts.
#![tactic(auto)]

pub mod bodies;
pub mod kept;
pub mod stored;
pub mod touched;
