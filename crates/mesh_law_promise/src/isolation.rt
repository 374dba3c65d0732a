//! What a command leaves of the others, each the contract of a function with an empty body: at every exit of an apply
//! or a run each other environment has the record and the views that it had, and no other one appears; and each table
//! has the rows of what was recorded of it: where the command settles, of what isn't in doubt, even where these are
//! computed again, and in any case of what isn't computed again (of a FULL table, where its recorded marks are its
//! model's at the command's moment).

mod laws;

pub use laws::{
    no_other_environment_appears, other_environments_stay, the_janitor_leaves_other_records,
    what_is_not_computed_again_keeps_its_rows, what_is_recorded_keeps_its_rows,
};
