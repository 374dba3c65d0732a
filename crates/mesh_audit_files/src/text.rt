//! The texts of audits. Its contract: `entries_of` gives exactly the entries that the value of a model's `audits`
//! lists; `with_name` puts a model's name for each `@this_model`; `read_audit` gives what the definition `text_of`
//! says of an audit's file: its name and the tokens of its query, or the first fault of the text.

mod entries;
mod heads;
mod replaced;
mod statement;
mod texts;

pub use entries::{Entries, Entry, entries_of};
pub use replaced::with_name;
pub use texts::{AuditText, placeless, read_audit};
