//! The laws of reading. `lexemes`: the longest token wins, and a text has one list of such tokens. What a query is
//! resolved to names only what is in sight, its items have distinct names and values of their types, and the
//! definition of a model that is made of it is well formed.
#![tactic(auto)]

mod laws;
pub mod lexemes;
mod sight;
mod typing;

pub use laws::{
    named_models_are_parents, own_definitions_are_well_formed, own_definitions_keep_their_files,
};
pub use sight::{one_query_or_one_fault, output_names_are_distinct, what_is_resolved_is_in_sight};
pub use typing::{
    models_fill_their_columns, resolved_operands_fit, resolved_rows_fit_columns,
    values_have_their_types,
};
