//! What a trace promises, as the contract of a function with an empty body: whatever isn't listed may change as it
//! likes, and the values stay the same. Its definitions stand in `Varied`.
#![tactic(auto)]

mod laws;

pub use laws::{traced_columns_decide_rows, traced_columns_decide_values};
