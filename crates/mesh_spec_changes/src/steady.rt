//! Steady projects: models whose computed rows don't change as time goes on, closures whose units lie within one
//! another, and sources that change in later rows alone. Its definitions are read in this order: `Steady`, `Even` and
//! `Arrives`.

mod laws;

pub use laws::unchanged_sources_arrive;
