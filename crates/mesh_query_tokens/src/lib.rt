//! The tokens of model files and queries, and the faults of every text that is read. Its contract: `tokens_of` gives
//! exactly the tokens of a text, each as long as it can be and with its place, or the text's first fault.
//! The module `bounds` says how far a property's value, a path and a lookback go.
#![tactic(auto)]

pub mod bounds;
mod copies;
mod faults;
mod lengths;
mod letters;
mod pieces;
mod read;
mod same;
mod tokens;

pub use faults::{FaultKind, ReadFault};
pub use read::{tokens_ascend, tokens_of};
pub use tokens::{Token, TokenKind, Tokens};
