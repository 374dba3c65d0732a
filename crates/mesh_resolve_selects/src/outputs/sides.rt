// The sides of each UNION ALL.
ghost use Rattle.std.specs.Prelude.{◌≡◌};
ghost use Rattle.std.specs.List.{list_all};
ghost use Rattle.mesh_base.specs.Outputs.{item_columns};
ghost use Rattle.mesh_query_tokens.specs.Gives.{Gives};
ghost use Rattle.mesh_base_values.specs.Types.{have_same_types};
ghost use Rattle.mesh_resolve_selects.specs.outputs.Sides.{are_sides_alike, with_sides_alike};

use mesh_base::{Ctes, Item, Query, Select, Selects};
use mesh_query_tokens::ReadFault;
use mesh_resolve_types::mismatch;

// Whether two lists of items have as many items, of the same types in the same order.
#[tactic(auto, using(crate::proofs::outputs::Unlike::unlike_items))]
fn have_same_types(a: &[Item], b: &[Item]) -> bool
    ensures { result ≡ have_same_types (item_columns a.now) (item_columns b.now) }
{
    if a.len() != b.len() {
        return false;
    }
    for i in 0..a.len() {
        if a[i].kind != b[i].kind {
            return false;
        }
    }
    true
}

fn are_sides_alike(all: &[Select]) -> bool
    ensures { result ≡ are_sides_alike all.now }
{
    match all {
        [] => true,
        [first, ..] => {
            for s in all {
                if !have_same_types(first.items.as_slice(), s.items.as_slice()) {
                    return false;
                }
            }
            true
        }
    }
}

fn are_all_alike(ctes: &[Selects]) -> bool
    ensures { result ≡ list_all are_sides_alike ctes.now }
{
    for c in ctes {
        if !are_sides_alike(c.as_slice()) {
            return false;
        }
    }
    true
}

/// The query, if the sides of each UNION ALL are alike.
pub fn with_sides_alike(ctes: Ctes, selects: Selects) -> Result<Query, ReadFault>
    ensures { Gives result (with_sides_alike ctes selects) }
{
    if are_all_alike(ctes.as_slice()) && are_sides_alike(selects.as_slice()) {
        Ok(Query { ctes, selects })
    } else {
        Err(mismatch(0))
    }
}
