//! What is printed: `faults` has the line of a fault, `plans` the text of a plan, and `printed` rows, reports and
//! refusals, their sinks and statuses. Each module says its contract; they stand on `csv` for records and on
//! `mesh_io` for sinks.
#![tactic(auto)]

pub mod faults;
pub mod plans;
pub mod printed;
