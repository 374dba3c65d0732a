//! The grammar of queries: which tokens spell which tree, which tokens begin a query, and how both are found with one
//! token of lookahead. Its contract is its laws: one list of tokens has one tree at most, and one place at most where
//! it goes wrong.
//! The module `surface` has the syntax tree of a query, and `lookahead` its next token and the names of types.
#![tactic(auto)]

mod laws;
pub mod lookahead;
pub mod surface;

pub use laws::{
    a_failed_run_ends_behind_the_longest_beginning, one_longest_beginning, one_tree,
    what_is_read_is_spelled, with_more_room,
};
