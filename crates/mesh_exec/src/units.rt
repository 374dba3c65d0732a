//! What one evaluation over adjoining units has to do with those units. Its contract: for a joinable definition, a
//! unit's rows are those of the whole run's evaluation that lie in the unit, in the same order, sorted or not.

mod laws;

pub use laws::{
    runs_give_the_rows_of_their_units, seconds_lie_in_days, sorted_runs_are_cut_to_their_units,
};
