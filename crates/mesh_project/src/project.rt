//! Whole projects: the files of a folder, whatever forms their models have, as models by rank and name. Its contract:
//! `load` gives the project that the relation `IsLoaded` says of the files of a folder, or their first fault with its
//! file and place, and a project is proper by its type's rule: that a resolved query names the relations that its
//! text names, and that the models in order are a proper project, are laws.

mod laws;
mod order;
mod project;

pub use laws::{
    files_are_one_project, models_in_order_are_a_project, models_that_are_named_suffice,
    resolved_names_are_those_of_the_text,
};
pub use project::load;
