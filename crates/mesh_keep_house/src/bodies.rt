//! The bodies of a stored warehouse's records, written. Its contract: each is the text that
//! `mesh_keep_records/specs/Records.antt` spells out, with the canonical text of a definition.

mod book_bodies;
mod world_bodies;

pub use book_bodies::{env_body, head_body, snapshot_body, version_body};
pub use world_bodies::{object_body, source_body, view_body};
