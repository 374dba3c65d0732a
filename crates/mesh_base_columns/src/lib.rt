//! The columns of a model. Its contract: `columns_of` gives the columns that a definition has, and `select_columns`
//! those of a query.
#![tactic(auto)]

mod outputs;

pub use outputs::{columns_of, select_columns};
