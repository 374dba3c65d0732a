//! The CSV files of a project (RFC 4180, as `csv` reads them). Its contract: `read_seed` gives exactly what the
//! definition `seed_text` says of a file beside its declared columns, its columns and rows or its first fault.
//! Records and the names of a header are there for other files too.

mod fields;
mod header;
mod laws;
mod records;
mod rows;
mod seed;
mod types;

pub use header::{bad_row, header_fault, header_names, long_name, many_columns};
pub use laws::{numbers_are_found, rows_fit_columns};
pub use records::{Record, Records, records_of};
pub use seed::read_seed;
