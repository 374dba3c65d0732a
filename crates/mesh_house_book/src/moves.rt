//! Two changes of a book that go over many of its items at once: units and marks are forgotten, and snapshots get
//! other fingerprints. Its contract: each makes of a book what its definition says, and nothing where memory is
//! wanting. The ranges of one version lose all that a list says of it in one pass, and renames are looked up by
//! halves.

mod forgets;
mod migrations;
mod moves;
mod orders;
mod renames;

pub use forgets::forget_units;
pub use migrations::migrate;
