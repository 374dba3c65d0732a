//! What a move of the book to other fingerprints leaves: at every exit of it each view shows the rows that it showed,
//! and a run has due what it had. Each law is the contract of a function with an empty body.

mod laws;

pub use laws::{migrating_leaves_the_rows_of_views, migrating_leaves_what_is_due};
