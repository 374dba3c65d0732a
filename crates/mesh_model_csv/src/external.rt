//! The file that declares the sources, which no model makes: CSV (RFC 4180, as `csv` reads it) under the header
//! `name,column,type,role`, with a record for each column of a source. Its contract: `read_external` gives exactly
//! what the definition `external_text` says of the file, the sources ascending by name or its first fault.

mod columns;
mod laws;
mod names;
mod read;
mod sources;

pub use laws::{sources_are_proper, sources_ascend};
pub use read::read_external;
