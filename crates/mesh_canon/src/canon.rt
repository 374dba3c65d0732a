//! The canonical text of a definition, both ways: the bytes that a model's fingerprint is made of and that a stored
//! warehouse keeps. Its contract: `own_text` and `node_text` are the text that `mesh_canon_text/specs/Text.antt`
//! spells out, `read_own` answers exactly the definition that a text is the text of, `read_own_old` the one that it
//! is the former text of, `read_definition` the one that it is either text of, and two definitions of one text are
//! equal. What a text says is read by `mesh_canon_reading`; here it is written again and compared.

mod definition_reading;
mod depth;
mod either_form;
mod laws;
mod lone_reading;
mod same;

pub use definition_reading::{read_list, read_own, read_own_old};
pub use either_form::read_definition;
pub use laws::one_text_one_value;
pub use lone_reading::{read_cell, read_type};
pub use mesh_canon_text::{cell_text, list_text, node_text, own_text, own_text_old, type_text};
pub use mesh_canon_words::CanonFault;
