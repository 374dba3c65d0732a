//! The snapshots of a book as models: the closure of each, through its parents in the book, and the project of a list
//! of them, as an environment has one. Its definitions (`Closing`, `Listed`) are read in this order, with laws about
//! them.

mod laws;

pub use laws::{
    closures_stay_where_snapshots_are_put, environments_have_fit_lists, lists_are_projects,
    projects_of_lists_have_the_closures_of_the_book, snapshots_stand_on_their_parents_closures,
};
