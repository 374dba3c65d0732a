//! The changes that commands make: the one list of changes of each command, where its rows are those of the worlds
//! that the list reaches. Its definitions are read in this order: `Environments`, `Changes`, `Planning`, `Kept`,
//! `Commands` and `Apart`. The modules have what these lists go by: `shown`, what a warehouse shows; `listed`,
//! snapshots with their ancestors; `reuse`, added columns and categories; `due`, marks, tables and what is due;
//! `steady`, models that stay as they are computed.
#![tactic(auto)]

pub mod due;
mod laws;
pub mod listed;
pub mod reuse;
pub mod shown;
pub mod steady;

pub use laws::{migrating_keeps_closures, what_changes_nothing};
