//! The CSV files of a project (RFC 4180, as `csv` reads them): `seeds` reads the rows of a seed, and `external` the
//! file that declares the sources. Each module says its contract; they stand on `mesh_time_days::casts` for values
//! and on `mesh_query_grammar::lookahead` for types.
#![tactic(auto)]

pub mod external;
pub mod seeds;
