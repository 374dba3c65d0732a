//! What is known of commands that don't settle: whether a command settles or not, a world stays well kept at each
//! exit of it, but for the parts that were in doubt or move, and all parts of the objects that the command plans; and
//! no object dangles that a plan reads. Each law is the contract of a function with an empty body.

mod laws;

pub use laws::{commands_keep_worlds_formed, plans_are_made_whole};
