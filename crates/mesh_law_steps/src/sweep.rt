//! The changes of two commands keep a world well, each the contract of a function with an empty body: those of the
//! janitor, which sweeps away what is over and what nothing uses, and the one of a load.

mod laws;

pub use laws::{loads_keep_the_world_sound, sweeps_keep_the_world_sound};
