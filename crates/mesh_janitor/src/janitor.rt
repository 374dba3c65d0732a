//! The janitor: what is over, and what nothing that stays uses, goes. Its contract: `sweep` makes exactly the
//! janitor's list of changes, one call each, or stops after a part of it, and refuses a moment before the book's;
//! `invalidate` makes an environment one that is over.

mod changes;
mod faults;
mod kept;
mod laws;
mod sweeping;
mod tables;

pub use faults::{SweepFault, Swept};
pub use laws::what_is_used_stays;
pub use sweeping::{invalidate, sweep};
