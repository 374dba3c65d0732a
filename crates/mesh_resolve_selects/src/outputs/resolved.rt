// The items of the resolved SELECT.
ghost use Rattle.std.specs.Prelude.{◌≡◌, map, IfOk};
ghost use Rattle.mesh_resolve_selects.specs.outputs.Outputs.{resolved_item};

use crate::outputs::outputs::Output;
use mesh_base::Item;
use mesh_base_values::ColType;
use mesh_list::{Memory, Seq};
use mesh_resolve_types::Typed;
use std::alloc::Global;

fn resolved_item(o: Output) -> Item
    ensures { result ≡ resolved_item o }
{
    let Output { name, typed, .. } = o;
    let Typed { kind, expr, .. } = typed;
    Item {
        name,
        kind: kind.unwrap_or(ColType::Text),
        expr: expr.into_inner(),
    }
}

/// The items of the resolved SELECT.
pub fn resolved_items(alloc: Global, outputs: Seq<Output>) -> Result<Seq<Item>, Memory>
    ensures { IfOk result (λ made. made ≡ map resolved_item outputs) }
{
    let mut made = Seq::new(alloc);
    for o in outputs.into_vec() {
        made.push(resolved_item(o))?;
    }
    Ok(made)
}
