//! The grammar of queries: tokens are read as a syntax tree. Its contract: `parse` gives exactly the tree that the
//! tokens spell, from the one named to the last, with at most 64 parentheses, CASEs, NOTs and minus signs open at
//! once and at most 4,096 nodes in an expression, or it tells the one fault that is met first: the end of the longest
//! beginning of a query, or a limit.
#![tactic(auto)]

mod brackets;
mod expressions;
mod laws;
mod lists;
mod literals;
mod nodes;
mod queries;
mod reader;
mod relations;

pub use laws::{one_refusal, what_is_counted_is_in_the_tree};
pub use mesh_query_tokens::{FaultKind, ReadFault, Token, TokenKind, Tokens, tokens_of as tokens};
pub use reader::parse;
