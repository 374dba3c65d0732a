//! What a model's rows are from scratch, at a moment and over the sources as they stand. Its definitions are read in
//! this order: `Closures`, `Horizons`, `Sources` and `Scratch`. They are its contract, with laws that show them at
//! work.
#![tactic(auto)]

mod laws;

pub use laws::{
    full_models_read_their_seed, horizons_go_by_ancestors, moments_decide_rows,
    moments_have_clocks, projects_are_closed_under_parents, rows_go_by_the_kind,
    rows_lie_in_a_unit_by_their_second, rows_lie_in_the_schedule,
    schedules_go_from_the_start_to_the_horizon, sources_have_the_declared_shape,
    ticks_are_floored_to_their_unit,
};
