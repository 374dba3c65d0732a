//! The promise of the public call: where the house tells a world that is sound but for some parts, and what a command
//! line asks for settles there, it tells one that is sound but for what is then left in doubt, at every exit and
//! whatever the status; at status 0 an apply, a run or a plan that is applied at once leaves its environment final,
//! for every number of workers; so after any calls from the empty world that settle; every call leaves a world formed
//! that was, and none tells of a sound world that it is damaged; and a command leaves the environments that it isn't
//! for, and what is recorded and isn't computed again, as they were. Each law is the contract of a function with an
//! empty body.

mod laws;
mod others;
mod stages;

pub use laws::{
    calls_are_events, calls_keep_worlds_formed, calls_show_rows_from_scratch,
    commands_at_status_0_leave_what_they_promise, commands_keep_worlds_formed,
    commands_keep_worlds_sound, commands_within_a_moment_are_still, events_go_on_from_one_another,
    lines_at_status_0_leave_what_they_promise, steady_projects_are_still, still_calls_are_events,
    what_is_made_is_asked_of_the_promise, what_is_still_settles, worlds_of_events_are_sound,
};
pub use others::{
    commands_keep_rows_that_they_do_not_compute_again, commands_leave_other_environments,
    commands_make_no_other_environment, the_janitor_leaves_other_records,
    the_janitor_leaves_other_views,
};
pub use stages::{
    commands_never_find_damage, executions_keep_worlds_sound, executions_never_dangle,
    promotions_keep_worlds_sound, sweeps_keep_worlds_sound,
};
