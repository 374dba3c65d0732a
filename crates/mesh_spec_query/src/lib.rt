//! What an expression and a query mean, in the terms of ISO/IEC 9075. Its definitions are read in this order: `Cells`
//! and `Macros` for values, beside the days and casts of `mesh_time_days::casts`, `Aggregates`, `Ev` for the value of
//! an expression for a row or a group, `Tables` for what a query reads, and `Sel` for its rows. They are its
//! contract, with laws: the value of an expression by its form, that of a part which equals a key, and that a value
//! hangs on the columns that are named alone.
#![tactic(auto)]

mod laws;

pub use laws::{
    keys_keep_their_value_in_a_group, parts_equal_keys_as_expressions, values_go_by_the_form,
    values_hang_on_named_columns,
};
