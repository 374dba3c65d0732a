//! What making a plan asks of it, the plans of `mesh_plan` have. Its contract: a plan of a proper project, for an
//! environment or for a run, is one that `execute` of `mesh_exec` takes: its moment is one, each model has an entry,
//! and what is due stands in the plan's order, each part once, and fits its model.

mod laws;

pub use laws::plans_can_be_made;
