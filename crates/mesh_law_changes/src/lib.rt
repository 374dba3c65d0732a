//! Laws on the way to the promise of `mesh_spec_promise`: that a world stays well kept where a kind of change is made
//! as a command makes it.
//! The module `along` has lists of changes along which a world stays sound.
#![tactic(auto)]

pub mod along;
mod laws;

pub use laws::{
    deleting_a_snapshot_keeps_the_world_sound, deleting_an_environment_keeps_the_world_sound,
    doubt_is_left_step_by_step, dropping_a_view_keeps_the_world_sound,
    dropping_an_object_keeps_the_world_sound, expiring_an_environment_keeps_the_world_sound,
    finalizing_keeps_the_world_sound, forgetting_a_version_keeps_the_world_sound,
    forgetting_units_keeps_the_world_sound, making_a_table_keeps_the_world_sound,
    making_a_view_keeps_the_world_sound, migrating_keeps_the_world_sound,
    putting_a_snapshot_keeps_the_world_sound, recording_a_unit_keeps_the_world_sound,
    recording_marks_keeps_the_world_sound, replacing_rows_keeps_the_world_sound,
    setting_an_environment_pending_keeps_the_world_sound, writing_a_unit_keeps_the_world_sound,
};
