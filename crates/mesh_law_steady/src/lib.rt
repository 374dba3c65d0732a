//! Laws of steady projects, each the contract of a function with an empty body: a steady model's query for a unit
//! sees no other rows than those near the unit, so a computed unit keeps its rows while sources change in later rows
//! alone, and nothing moves. Its definitions are read in this order: `Days`, `Near`, `Kept` and `Projects`.
#![tactic(auto)]

mod laws;

pub use laws::{
    nothing_moves_in_steady_projects, steady_full_models_keep_their_rows,
    steady_models_read_near_rows, steady_units_keep_their_rows, uneven_units_may_move,
};
