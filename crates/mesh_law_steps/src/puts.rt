//! Laws of a plan's models in the book: the world stays well kept while an apply puts them, and then each stands
//! there, with its object, its parents and its closure.

mod laws;

pub use laws::plans_are_put;
