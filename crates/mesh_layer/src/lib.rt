//! What a warehouse shows. Its contract: `object_rows`, `show` and `ask` answer the rows that
//! `mesh_spec_changes::shown` says a world shows, or the object that dangles, and change nothing.
#![tactic(auto)]

mod faults;
mod kept;
mod known;
mod names;
mod seen;
mod shown;
mod sources;
mod views;
mod walk;

pub use faults::ShowFault;
pub use shown::{LONGEST_CHAIN, ask, object_rows, show, view_tables};
pub use sources::{has_shape, picked_rows, source_tables};
pub use views::view_in;
