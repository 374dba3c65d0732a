// What keeps the rules of a SELECT: the rule on groups, and then names that stand twice.
ghost use Rattle.mesh_query_tokens.specs.Gives.{Gives};
ghost use Rattle.mesh_resolve_selects.specs.selects.Standing.{stands};

use crate::selects::apart::{items_apart, outputs_apart};
use crate::selects::grouping::keeps_groups;
use crate::selects::parts::Walked;
use mesh_base::Expr;
use mesh_query_tokens::ReadFault;
use std::alloc::Global;

/// The parts of a SELECT keep the rule on groups, and no name stands twice among its outputs, nor in its FROM; `keys`
/// are the expressions of its keys.
pub fn stands(alloc: Global, grouped: bool, keys: &[Expr], w: &Walked) -> Result<(), ReadFault>
    ensures { Gives result (stands grouped keys.now w.now) }
{
    keeps_groups(alloc, grouped, keys, w)?;
    outputs_apart(alloc, w.outputs.as_slice())?;
    items_apart(alloc, w.from.as_slice())
}
