// What of a plan is computed again, and what is due.
ghost use Rattle.std.specs.Prelude.{◌≡◌, true, length, map, IfOk, IfErr, OnOk, None, Some};
ghost use Rattle.std.specs.List.{slice_get};
ghost use Rattle.std.specs.Option.{option_copied};
ghost use Rattle.mesh_base.specs.rules.Proper.{is_proper};
ghost use Rattle.mesh_time_days.specs.Moments.{IsMoment};
ghost use Rattle.mesh_spec_model.specs.Closures.{closures};
ghost use Rattle.mesh_spec_model.specs.Horizons.{Clock, Shows, horizon};
ghost use Rattle.mesh_spec_changes.specs.due.Dues.{again, dues};
ghost use Rattle.mesh_spec_changes.specs.due.Plans.{planned};
ghost use Rattle.mesh_plan_due.specs.Long.{first_too_long};
ghost use Rattle.mesh_plan.specs.Intervals.{IsLongest, RefusesUnits, too_many};
ghost use Rattle.mesh_category.specs.declared.versions.faults.PlanFault.TheVariants.{Model};

use mesh_base::{Dues, Entry, Forgets, Node, Restate};
use mesh_base_values::MOST_INTERVALS;
use mesh_category::versions::PlanFault;
use mesh_house_book::Book;
use mesh_list::{Duplicate, Memory, Seq};
use mesh_plan_due::{Horizons, agains, dues, first_too_long, horizons_of};
use mesh_query_tokens::FaultKind;
use std::alloc::Global;

/// What is forgotten, and what is due.
#[derive(Drop)]
pub(crate) struct Computed {
    pub forgets: Forgets,
    pub dues: Dues,
}

fn node_at<'a>(nodes: &'a [Node], at: usize) -> Option<&'a Node>
    ensures { option_copied result ≡ slice_get nodes.now at }
{
    nodes.get(at)
}

// The first model whose schedule is too long.
fn longest<'a>(nodes: &'a [Node], horizons: &Horizons) -> Option<&'a Node>
    requires { length horizons.now ≡ length nodes.now }
    ensures { IsLongest nodes.now horizons.now (option_copied result) }
{
    match first_too_long(nodes, horizons) {
        None => None,
        Some(at) => node_at(nodes, at),
    }
}

fn too_long(alloc: Global, node: &Node) -> Result<PlanFault, Memory>
    ensures { IfOk result (λ fault. fault ≡ Model node.now.own.name too_many) }
{
    let name = node.own.name.copy()?;
    let what = Seq::from_vec(Vec::from_slice(alloc, b"intervals")?);
    Ok(PlanFault::Model {
        name,
        kind: FaultKind::TooLarge {
            what,
            limit: MOST_INTERVALS,
        },
    })
}

/// What is computed again and what is due of a project's models, which have these entries, at a moment.
pub(crate) fn compute(
    alloc: Global,
    nodes: &[Node],
    entries: &[Entry],
    b: &Book,
    t: i64,
    restate: Option<&Restate>,
) -> Result<Computed, PlanFault>
    requires proper { is_proper nodes.now ≡ true }
    requires moment { IsMoment t }
    requires entries { length entries.now ≡ length nodes.now }
    ensures short { OnOk result ((clock : Clock) → Shows clock t → first_too_long clock (closures nodes.now) ≡ None) }
    ensures forgets { IfOk result (λ made. (clock : Clock) → Shows clock t → made.forgets ≡ again clock b.now (option_copied restate.entry) (planned nodes.now entries.now)) }
    ensures dues { IfOk result (λ made. (clock : Clock) → Shows clock t → made.dues ≡ dues clock b.now made.forgets (planned nodes.now entries.now)) }
    ensures refused { IfErr result (λ fault. RefusesUnits nodes.now t fault) }
{
    let horizons = horizons_of(alloc, nodes, t)?;
    if let Some(node) = longest(nodes, &horizons) {
        return Err(too_long(alloc, node)?);
    }
    let forgets = agains(alloc, nodes, &horizons, entries, b, restate)?;
    let dues = dues(alloc, nodes, &horizons, entries, b, forgets.as_slice())?;
    Ok(Computed { forgets, dues })
}
