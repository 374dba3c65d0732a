//! The promise of a warehouse: worlds that are kept well, what moves as time goes on and sources change, when an
//! environment is final, and what holds after any list of commands. Its definitions are read in this order: `Sound`,
//! `Moved`, `Current`, `Final` and `Histories`.
#![tactic(auto)]

mod laws;

pub use laws::{
    finalized_environments_are_final, loading_a_source_keeps_the_world_sound,
    models_are_filled_with_rows_from_scratch, models_that_are_done_stay_so,
    more_doubt_keeps_the_world_sound, objects_up_to_date_show_rows_from_scratch,
    pointing_a_view_keeps_the_world_sound, raising_the_moment_keeps_the_world_sound,
    the_empty_world_is_sound, what_is_taken_leaves_doubt,
};
