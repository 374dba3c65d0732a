//! Plans are made. Its contract: `execute` makes exactly the changes of a plan up to those of the environment's
//! views, one call each and in the plan's order, over the rows that the warehouse shows; it is refused for a source
//! of a due model before anything is changed, and stops at an object that dangles.
//! The module `plans` has the law that plans can be executed, and `units` what one evaluation over adjoining units has
//! to do with each of them.
#![tactic(auto)]

mod executing;
mod faults;
mod fills;
mod fronts;
mod jobs;
mod laws;
mod making;
pub mod plans;
mod ready;
mod runs;
mod sources;
pub mod units;

pub use executing::execute;
pub use faults::ExecFault;
pub use laws::a_plan_of_a_book_makes_what_is_asked;
pub use mesh_exec_wave::claims::{ClaimSeat, ClaimTable, draw};
pub use mesh_exec_wave::wave::{Gate, OpenGate, wave};
pub use sources::{Breach, kind_of, model_breach};
