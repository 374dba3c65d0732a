//! The rules of a SELECT: `groups` has the rule on groups, `outputs` the output columns, keys and common table
//! expressions, and `selects` the parts of a SELECT and what keeps its rules. Each module says its contract; they
//! stand on `mesh_resolve_scope` for expressions, and on the forms of `mesh_query_grammar::surface` and `mesh_base`.
#![tactic(auto)]

pub mod groups;
pub mod outputs;
pub mod selects;
