//! Laws of filling, each the contract of a function with an empty body: the changes that make and fill one model of a
//! plan keep the world sound, change nothing but the model's object, and leave the model done.

mod laws;

pub use laws::models_are_made_and_filled;
