//! The records of a stored warehouse: under which name a thing of the world is kept, the parts of its body, both
//! ways, and its body, read. Its contract: what is read is exactly the thing whose body, as `specs/Records.antt`
//! spells it out, a text is; any other text is refused. A definition in a body has its canonical text or its former
//! one.
//! The module `reading` says what the body of a record says, as a function.
#![tactic(auto)]

mod book_records;
mod held;
mod laws;
mod leaves;
mod lists;
mod names;
mod numbers;
mod part;
pub mod reading;
mod spans;
mod tuples;
mod values;
mod world_records;

pub use book_records::{BookHead, read_env, read_head, read_snapshot, read_version};
pub use held::{env_rule, head_rule, object_rule, snapshot_rule, source_rule, version_rule};
pub use laws::one_body_one_thing;
pub use names::{env_key, head_key, snapshot_key, thing_key};
pub use numbers::bytes_text;
pub use part::{Listed, Part, add, add_both, write_as_list};
pub use world_records::{read_object, read_source, read_view};
