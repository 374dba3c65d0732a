//! Crons, and ranges of whole seconds since 1970-01-01T00:00:00 UTC. Its contract: a text is read as a cron exactly
//! where POSIX crontab has it; `floor` is the greatest tick of a cron that is not above a moment; `Ranges` have
//! exactly the seconds that were added and not forgotten since, and list the units of a schedule that they lack.
#![tactic(auto)]

mod crontab;
mod cuts;
mod fields;
mod laws;
mod ranges;
mod ticks;

pub use crontab::read_cron;
pub use laws::{
    adding_is_exact, forgetting_each_is_exact, forgetting_is_exact, held_is_every_second,
    same_seconds_same_ranges, units_end_by_the_end, units_follow_one_another,
};
pub use mesh_time_days::{day_of, day_text, moment_of, moment_text, time_value};
pub use ranges::{END_OF_SECONDS, FIRST_SECOND, Ranges};
pub use ticks::{floor, ticks_at, unit_of};
