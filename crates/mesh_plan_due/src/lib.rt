//! How far the models of a project go at a moment, and what is due of them. Its contract: `horizons_of` gives the
//! horizon of each model, `first_too_long` the first whose schedule has too many units, `agains` exactly what is
//! computed again although it is recorded, and `dues` exactly what is due, each once and in a plan's order; a moment
//! decides all of it.
#![tactic(auto)]

mod again;
mod due;
mod gone;
mod horizons;
mod laws;
mod lineages;
mod long;
mod marks;
mod named;
mod numbers;
mod schedules;
mod stands;

pub use again::agains;
pub use due::dues;
pub use horizons::{Horizons, horizons_of};
pub use laws::moments_decide_dues;
pub use long::first_too_long;
