//! The files of a project, whatever the form of its models. Its contract: `read_files` gives what the relation
//! `AreFiles` says of the files of a folder: the declared sources, and each model's file with its seed in the order
//! of their paths, or their first fault with its file and place.
#![tactic(auto)]

mod faults;
mod files;
mod laws;
mod models;
mod places;
mod project;
mod read;

pub use faults::{LoadFault, bad_path, in_file, outside, too_large};
pub use files::{read_sources, read_within};
pub use laws::files_say_one_thing;
pub use places::{in_dir, is_sql, under};
pub use project::{ModelFile, ProjectFiles};
pub use read::read_files;
