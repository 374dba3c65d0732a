//! What a warehouse shows: the rows behind an object, which is a table or stores a query, and behind a view. Its
//! definitions (`Shown`) are its contract, with laws that show them at work.

mod laws;

pub use laws::{
    objects_alone_are_shown, tables_and_stored_queries_show_their_rows, views_show_their_targets,
};
