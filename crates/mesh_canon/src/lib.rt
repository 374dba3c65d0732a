//! The canonical text of a definition: `canon` writes and reads it, both ways, and `held` says what holds of a
//! definition because a program holds it. Each module says its contract; they stand on `mesh_canon_text` and
//! `mesh_canon_reading`.
//! The module `fingerprint` has the digest of a text.
#![tactic(auto)]

pub mod canon;
pub mod fingerprint;
pub mod held;
