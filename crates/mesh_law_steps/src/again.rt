//! Laws of doing the same again, each the contract of a function with an empty body: what a janitor's sweep leaves of
//! a world is exactly what stays at its moment, and a second sweep at that moment leaves it as it is; a second
//! promotion of a plan leaves everything that views show. Its definitions are those of `Swept`.

mod laws;

pub use laws::{
    promoting_again_shows_the_same, sweeping_again_changes_nothing, sweeping_leaves_what_stays,
};
