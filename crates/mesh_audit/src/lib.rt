//! What models promise, and whether it is kept: an audit is a query that has no rows where a model keeps what it
//! promises. Its contract: `audit` answers a finding for each audit that has rows over what the objects of a plan
//! show, or the object that dangles, and changes nothing; `not_null` and `unique_values` make the queries of the two
//! audits that need no file, exactly as defined, so that their rows are those of the one meaning of queries.
#![tactic(auto)]

pub mod audits;
mod findings;
mod forms;
mod laws;
mod tables;

pub use findings::audit;
pub use forms::{not_null, unique_values};
pub use laws::{
    not_null_finds_rows_with_null, nulls_are_one_value, unique_values_finds_repeated_values,
};
