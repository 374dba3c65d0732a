// The trace of a column.
ghost use Rattle.std.specs.Prelude.{◌≡◌, ◌<◌, ◌∷◌, [], IfOk, IfSome, IsTrue, Some, length, true};
ghost use Rattle.mesh_list.specs.Keyed.{ascends};
ghost use Rattle.mesh_base.specs.rules.Proper.{is_proper};
ghost use Rattle.mesh_spec_model.specs.Closures.{Closure, closures};
ghost use Rattle.mesh_lineage.specs.Alike.{IsAlike};
ghost use Rattle.mesh_trace.specs.Feeds.{feeds};
ghost use Rattle.mesh_trace.specs.Traces.{HasColumn, listed, model_named, place_in, trace_cmp, trace_itself};

use crate::listed::listed;
use crate::traces::Traces;
use crate::walk::{one_asked, walk};
use mesh_base::Node;
use mesh_base::rules::Project;
use mesh_base_values::{Name, Str};
use mesh_list::{Memory, Seq};
use std::alloc::Global;

fn place_of(nodes: &[Node], name: &Name) -> Option<usize>
    ensures within { IfSome result (λ at. at < length nodes.now) }
    ensures there { place_in (closures nodes.now) result ≡ model_named (closures nodes.now) name.now }
{
    for (i, n) in nodes.iter().enumerate() {
        if n.own.name.compare(name).is_eq() {
            return Some(i);
        }
    }
    None
}

// All that feeds the column, as often as it does.
fn feeds_of(alloc: Global, nodes: &[Node], name: &Name, column: &Str) -> Result<Traces, Memory>
    requires { IsTrue (is_proper nodes.now) }
    ensures { IfOk result (λ made. (c : Closure) → model_named (closures nodes.now) name.now ≡ Some c → IsAlike made (feeds c (column.now ∷ []))) }
{
    let mut found = Seq::new(alloc);
    match place_of(nodes, name) {
        None => Ok(found),
        Some(place) => {
            let asks = one_asked(alloc, place, column)?;
            walk(nodes, asks, &mut found)?;
            Ok(found)
        }
    }
}

/// The columns that the values of a model's column hang on, and the relations of which no column but the number of rows
/// counts, by relation and then by column.
pub fn trace(p: &Project, m: &Name, column: &Str) -> Result<Traces, Memory>
    requires { HasColumn (closures p.now.nodes) m.now column.now }
    ensures ascending { IfOk result (λ made. ascends trace_cmp trace_itself made ≡ true) }
    ensures exactly { IfOk result (λ made. (c : Closure) → model_named (closures p.now.nodes) m.now ≡ Some c → IsAlike made (listed (feeds c (column.now ∷ [])))) }
{
    let alloc = p.nodes.alloc();
    let found = feeds_of(alloc, p.as_slice(), m, column)?;
    let made = listed(alloc, found)?;
    Ok(made)
}
