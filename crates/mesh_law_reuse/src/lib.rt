//! Laws of reuse, each the contract of a function with an empty body: a model needs no more of its ancestors than its
//! core has, models that are compatible and have one definition are twins, and a plan gives its models tables of
//! twins alone. Its definitions are read in this order: `Well` and `Shared`.
#![tactic(auto)]

mod laws;

pub use laws::{
    additions_above_leave_twins, cores_have_the_same_marks, cores_have_the_same_rows,
    cores_have_the_same_times, given_tables_are_of_twins,
    models_are_well_formed_with_their_ancestors, no_table_is_given_twice,
    plans_keep_tables_for_twins, tables_stay_with_twins, twins_have_the_same_rows,
};
