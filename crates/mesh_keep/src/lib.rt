//! Records by kind and name, and what keeps them: the trait `Keeper`, a keeper in memory whose calls fail by a list,
//! and the relation between records and the world that they hold. Its contract: a keeper that tells its records tells
//! them in order, answers what they are and makes all of a list of writes or none of it; records hold one world at
//! most; and they hold a world exactly where it is the one that they say, which `specs/Said.antt` makes a function of
//! them.
#![tactic(auto)]

mod fails;
mod keeper;
mod kept;
mod laws;
mod maps;
mod refusals;
mod writing;

pub use keeper::{KeepFail, Keeper};
pub use kept::{Kept, Place, Record, Records, Write, Writes};
pub use laws::{records_hold_one_world, records_say_their_world};
pub use maps::MapKeeper;
pub use refusals::counted;
