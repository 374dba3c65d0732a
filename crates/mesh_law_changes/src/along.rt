//! What is known along the changes of a command. Its definitions: lists of changes along which a world stays sound,
//! and a plan on its way.

mod laws;

pub use laws::worlds_are_sound_at_every_exit;
