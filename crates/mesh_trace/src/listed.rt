// Traces in order, a relation alone only where none of its columns is among them.
ghost use Rattle.std.specs.Prelude.{◌≡◌, ◌||◌, ◌∷◌, [], true, IfOk, OnOk};
ghost use Rattle.std.specs.BTreeSet.{contains};
ghost use Rattle.mesh_base_values.specs.Names.{name_cmp};
ghost use Rattle.mesh_base_values.specs.declared.values.Name.{Name};
ghost use Rattle.mesh_list.specs.Keyed.{ascends};
ghost use Rattle.mesh_lineage.specs.Alike.{IsAlike};
ghost use Rattle.mesh_trace.specs.Pairs.{as_traces};
ghost use Rattle.mesh_trace.specs.Traces.{has_column_of, listed, trace_cmp, trace_itself};

use crate::traces::{Trace, Traces};
use mesh_base_values::{Name, Str};
use mesh_list::{Duplicate, Memory, Seq};
use std::alloc::Global;
use std::collections::BTreeSet;

fn add_relation(set: &mut BTreeSet<Name>, t: &Trace) -> Result<(), Memory>
    ensures { OnOk result ((name : Name) → contains name_cmp set.new name ≡ (contains name_cmp set.old name || has_column_of (t.now ∷ []) name)) }
{
    match &t.column {
        None => Ok(()),
        Some(_) => {
            let relation = t.relation.copy()?;
            set.insert(relation)?;
            Ok(())
        }
    }
}

// The relations that have a column among them.
fn with_columns(alloc: Global, all: &[Trace]) -> Result<BTreeSet<Name>, Memory>
    ensures { IfOk result (λ set. (name : Name) → contains name_cmp set name ≡ has_column_of all.now name) }
{
    let mut set = BTreeSet::new(alloc);
    for t in all {
        add_relation(&mut set, t)?;
    }
    Ok(set)
}

fn listed_pairs(alloc: Global, all: Traces) -> Result<Vec<(Name, Option<Str>)>, Memory>
    ensures { IfOk result (λ made. as_traces made.items ≡ listed all) }
{
    let with = with_columns(alloc, all.as_slice())?;
    let mut made = Vec::new(alloc);
    for t in all.into_vec() {
        let Trace { relation, column } = t;
        if column.is_some() || !with.contains(&relation) {
            made.push((relation, column))?;
        }
    }
    Ok(made)
}

fn ordered(alloc: Global, all: Traces) -> Result<BTreeSet<(Name, Option<Str>)>, Memory>
    ensures ascending { IfOk result (λ set. ascends trace_cmp trace_itself (as_traces set.keys) ≡ true) }
    ensures exactly { IfOk result (λ set. IsAlike (as_traces set.keys) (listed all)) }
{
    let pairs = listed_pairs(alloc, all)?;
    let set: BTreeSet<(Name, Option<Str>)> = pairs.into_iter().collect(alloc)?;
    Ok(set)
}

fn as_list(alloc: Global, set: BTreeSet<(Name, Option<Str>)>) -> Result<Traces, Memory>
    ensures { IfOk result (λ made. made ≡ as_traces set.keys) }
{
    let mut made = Seq::new(alloc);
    for (relation, column) in set {
        made.push(Trace { relation, column })?;
    }
    Ok(made)
}

/// Those that are listed, in order and each once.
pub(crate) fn listed(alloc: Global, all: Traces) -> Result<Traces, Memory>
    ensures ascending { IfOk result (λ made. ascends trace_cmp trace_itself made ≡ true) }
    ensures exactly { IfOk result (λ made. IsAlike made (listed all)) }
{
    let set = ordered(alloc, all)?;
    let made = as_list(alloc, set)?;
    Ok(made)
}
