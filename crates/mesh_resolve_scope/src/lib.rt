//! The walk through an expression. Its contract: `typed_expression` gives exactly the expression with its columns and
//! types, or the first fault in it, operands from left to right before their operators; one that would grow too large
//! is never begun. `lone_name` tells an expression that is a single name.
//! The module `sight` has what an expression may name.
#![tactic(auto)]

mod lone;
pub mod sight;
mod sizes;
mod steps;
mod walk;

pub use lone::lone_name;
pub use walk::typed_expression;
