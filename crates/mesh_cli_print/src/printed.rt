//! What commands print: rows, reports and refusals, on which sink, and with which exit status. Its contract: each
//! call gives exactly the text that its definition has, and `printed` writes it or a beginning of it.

mod printing;
mod records;
mod refusals;
mod reports;

pub use printing::printed;
pub use records::rows_text;
pub use refusals::{Refusal, refusal_line, status};
pub use reports::{
    applied_line, ingested_line, invalidated_line, janitor_line, migrated_line, ran_line,
};
