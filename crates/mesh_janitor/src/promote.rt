//! Promotion: an environment gets its list and its views. Its contract: `promote` makes exactly the changes of an
//! environment's last steps, one call each, or stops after a part of them; it goes by the book as it was read before;
//! `push_drops` has the changes that take views out.

mod changes;
mod gone;
mod laws;
mod promoting;

pub use changes::push_drops;
pub use laws::a_plan_promotes_its_models;
pub use promoting::promote;
