// Names that stand once.
ghost use Rattle.mesh_query_tokens.specs.Gives.{Gives};
ghost use Rattle.mesh_query_tokens.specs.Walk.{along};
ghost use Rattle.mesh_resolve_selects.specs.outputs.Leads.{Leads};
ghost use Rattle.mesh_resolve_selects.specs.selects.Apart.{items_apart, names_of, new_item, new_name, new_output, outputs_apart};

use crate::outputs::Output;
use crate::selects::faults::duplicate;
use crate::selects::parts::Drawn;
use mesh_base_values::Str;
use mesh_list::Duplicate;
use mesh_query_tokens::ReadFault;
use std::alloc::Global;
use std::collections::BTreeSet;

fn take_name(taken: &mut BTreeSet<Str>, at: u64, name: &Str) -> Result<(), ReadFault>
    ensures { Leads result (names_of taken.new) (new_name (names_of taken.old) at name.now) }
{
    let copy = name.copy()?;
    match taken.insert(copy) {
        Ok(true) => Ok(()),
        Ok(false) => {
            let name = name.copy()?;
            Err(duplicate(at, name))
        }
        Err(_) => Err(ReadFault::Memory),
    }
}

#[tactic(auto, using(crate::proofs::outputs::Steps::none_along, crate::proofs::outputs::Steps::one_more, crate::proofs::outputs::Steps::stops, crate::proofs::outputs::Steps::all_along))]
fn take_outputs(taken: &mut BTreeSet<Str>, outputs: &[Output]) -> Result<(), ReadFault>
    ensures { Leads result (names_of taken.new) (along new_output (names_of taken.old) outputs.now) }
{
    for o in outputs {
        take_name(taken, o.at, &o.name)?;
    }
    Ok(())
}

#[tactic(auto, using(crate::proofs::outputs::Steps::none_along, crate::proofs::outputs::Steps::one_more, crate::proofs::outputs::Steps::stops, crate::proofs::outputs::Steps::all_along))]
fn take_items(taken: &mut BTreeSet<Str>, from: &[Drawn]) -> Result<(), ReadFault>
    ensures { Leads result (names_of taken.new) (along new_item (names_of taken.old) from.now) }
{
    for d in from {
        take_name(taken, d.at, &d.name)?;
    }
    Ok(())
}

/// No two output columns have one name.
pub(crate) fn outputs_apart(alloc: Global, outputs: &[Output]) -> Result<(), ReadFault>
    ensures { Gives result (outputs_apart outputs.now) }
{
    let mut taken = BTreeSet::new(alloc);
    take_outputs(&mut taken, outputs)
}

/// No two FROM items have one name.
pub(crate) fn items_apart(alloc: Global, from: &[Drawn]) -> Result<(), ReadFault>
    ensures { Gives result (items_apart from.now) }
{
    let mut taken = BTreeSet::new(alloc);
    take_items(&mut taken, from)
}
