//! The models of a plan, part by part. Its contract: `works_of` deals what is due to the models; `part_tables`
//! answers the tables that a model reads, as the warehouse shows them, or the object that dangles, and changes
//! nothing; `pools_ahead` those of the first of some models, as far as they are there before any of these is made;
//! `opening`, `push_making` and `push_written` have the changes before the first model's, those that make a model's
//! object, and those that fill a due part of it, rows before their records; `cut_to` picks the rows of a due part
//! among those of its run.
#![tactic(auto)]

mod changes;
mod cuts;
mod fronts;
mod tables;
mod works;

pub use changes::{opening, push_making, push_written};
pub use cuts::{Seconds, cut_to, seconds_of};
pub use fronts::{Pooled, pools_ahead};
pub use tables::part_tables;
pub use works::{Work, Works, works_of};
