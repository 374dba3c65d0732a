//! The bounds of a MODEL statement: how far the value of a property goes and how deep it nests, which file of the
//! project a path leads to, and how far a model may look back. Its contract: `value_len`, `file_at` and
//! `lookback_number` give exactly what the definitions in `specs/Brackets.antt`, `Paths.antt` and `Numbers.antt` say.

mod brackets;
mod faults;
mod lookbacks;
mod paths;
mod signs;

pub use brackets::value_len;
pub use faults::broken;
pub use lookbacks::lookback_number;
pub use paths::file_at;
pub use signs::is_sign;
