//! What holds of a definition because a program holds it: its numbers are those of their types, its texts are no
//! longer than memory, and its cron is one. Its contract: each rule says that its value fits as
//! `mesh_canon_reading/specs/Fits.antt` has it.

mod definitions;
mod expressions;
mod held;
mod queries;
mod values;

pub use definitions::own_rule;
pub use values::{cell_rule, name_rule, signed_rule, text_rule};
