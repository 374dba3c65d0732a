// The FROM items of a SELECT, as they are drawn from left to right.
use mesh_list::Seq;
use mesh_resolve_scope::sight::Sight;
use mesh_resolve_selects::selects::Drawn;

/// The FROM items so far, and what they let an expression see.
#[derive(Drop)]
pub struct Drawing {
    pub sight: Sight,
    pub drawn: Seq<Drawn>,
}
