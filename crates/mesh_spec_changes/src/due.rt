//! What is due: how far a model and the tables that it stands on go, which table a model has, what of a plan is
//! computed again, and what is computed at all. Its definitions are read in this order: `Parts`, `Marks`, `Versions`,
//! `Plans` and `Dues`.

mod laws;

pub use laws::{due_units_are_in_order, schedules_and_marks_grow};
