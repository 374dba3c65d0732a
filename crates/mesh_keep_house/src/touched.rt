//! The things of a world that a change is about, and the writes by which records follow it. Its contract: `stepped`
//! makes the change and lists the writes that `specs/touched/Touched.antt` says, and records that know the world know
//! the next one once these are made, while all else among them stays.

mod bodies;
mod laws;
mod listing;
mod stepping;
mod things;
mod writing;

pub use laws::records_follow_changes;
pub use stepping::stepped;
pub use things::{Thing, Things};
pub use writing::head_write;
