// The columns that hang on one.
ghost use Rattle.std.specs.Prelude.{◌≡◌, ◌++◌, IfOk, OnOk, IsTrue, map, true, ◌↔◌};
ghost use Rattle.std.specs.List.{Contains};
ghost use Rattle.mesh_list.specs.Keyed.{ascends};
ghost use Rattle.mesh_base.specs.rules.Proper.{is_proper};
ghost use Rattle.mesh_spec_model.specs.Closures.{closures};
ghost use Rattle.mesh_trace.specs.Impacts.{IsFedBy, column_trace};
ghost use Rattle.mesh_trace.specs.Traces.{trace_cmp, trace_itself};
ghost use Rattle.mesh_trace.specs.declared.traces.Trace.{Trace};

use crate::hits::node_hit;
use crate::listed::listed;
use crate::traces::{Trace, Traces};
use mesh_base::rules::Project;
use mesh_base::{Node, Reading};
use mesh_base_values::{Name, Str};
use mesh_list::{Memory, Seq, both};
use std::alloc::Global;

fn add_columns(found: &mut Traces, name: &Name, columns: &[Str]) -> Result<(), Memory>
    ensures { OnOk result (found.new ≡ found.old ++ map (column_trace name.now) columns.now) }
{
    for column in columns {
        let (relation, column) = both(name, column)?;
        found.push(Trace {
            relation,
            column: Some(column),
        })?;
    }
    Ok(())
}

// The models by rank, each after its parents.
fn fed_by(alloc: Global, nodes: &[Node], source: &Reading) -> Result<Traces, Memory>
    requires { IsTrue (is_proper nodes.now) }
    ensures { IfOk result (λ found. (t : Trace) → Contains found t ↔ IsFedBy (closures nodes.now) source.now t) }
{
    let mut found = Seq::new(alloc);
    let mut hits = Vec::new(alloc);
    for n in nodes {
        let hit = node_hit(nodes, &hits, n, source)?;
        add_columns(&mut found, &n.own.name, hit.columns.as_slice())?;
        hits.push(hit)?;
    }
    Ok(found)
}

/// The columns of models whose values hang on a column of a model or a source, by model and then by column: just those
/// whose traces have it.
pub fn impact(p: &Project, name: &Name, column: &Str) -> Result<Traces, Memory>
    ensures ascending { IfOk result (λ made. ascends trace_cmp trace_itself made ≡ true) }
    ensures exactly { IfOk result (λ made. (t : Trace) → Contains made t ↔ IsFedBy (closures p.now.nodes) (record { relation = name.now; column = column.now }) t) }
{
    let alloc = p.nodes.alloc();
    let (relation, column) = both(name, column)?;
    let source = Reading { relation, column };
    let found = fed_by(alloc, p.as_slice(), &source)?;
    let made = listed(alloc, found)?;
    Ok(made)
}
