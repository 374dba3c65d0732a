// The parts of a SELECT, with their columns and types.
use crate::outputs::{Key, Output};
use mesh_base::{Join, Rel};
use mesh_base_values::Str;
use mesh_list::Seq;
use mesh_resolve_types::Typed;

/// A FROM item: the place of its relation's name, the name that it has in its SELECT, and its condition.
#[derive(Drop)]
pub struct Drawn {
    pub at: u64,
    pub name: Str,
    pub join: Join,
    pub rel: Rel,
    pub on: Option<Typed>,
}

/// The parts of a SELECT, with their columns and types.
#[derive(Drop)]
pub struct Walked {
    pub from: Seq<Drawn>,
    pub filter: Option<Typed>,
    pub outputs: Seq<Output>,
    pub keys: Seq<Key>,
    pub having: Option<Typed>,
}
