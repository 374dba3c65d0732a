//! The canonical text of a definition, written: the bytes that a model's fingerprint is made of and that a stored
//! warehouse keeps. Its contract: `own_text`, `own_text_old`, `node_text`, `list_text`, `cell_text` and `type_text`
//! answer the text that `specs/Text.antt` spells out, or refuse for want of memory. `own_text_old` is the former
//! text, in which the kind of an incremental model says no lookback.
#![tactic(auto)]

mod cron_text;
mod definition_text;
mod expression_text;
mod form;
mod number_text;
mod query_text;
mod value_text;
mod written;

pub use definition_text::{list_text, node_text, own_by, own_text, own_text_old};
pub use form::Form;
pub use value_text::{cell_text, type_text};
