// The models that are named to be computed again, or stand on one that is.
ghost use Rattle.std.specs.Prelude.{◌≡◌, ◌∷◌, [], ◌++◌, ◌||◌, map, IfOk, length, true};
ghost use Rattle.std.specs.List.{slice_get};
ghost use Rattle.std.specs.Option.{option_copied};
ghost use Rattle.mesh_spec_model.specs.Closures.{closures};
ghost use Rattle.mesh_spec_changes.specs.due.Dues.{restates};
ghost use Rattle.mesh_plan_due.specs.Stands.{any_at, flag_of, is_named};

use mesh_base::{Node, Restate};
use mesh_base_values::Name;
use mesh_list::Memory;
use std::alloc::Global;

fn is_named(restate: Option<&Restate>, name: &Name) -> bool
    ensures { result ≡ is_named (option_copied restate.entry) name.now }
{
    match restate {
        None => false,
        Some(r) => name.compare(&r.name).is_eq(),
    }
}

fn flag_at(flags: &[bool], place: u32) -> bool
    ensures { result ≡ flag_of (slice_get flags.now place) }
{
    match flags.get(place as usize) {
        None => false,
        Some(flag) => *flag,
    }
}

fn any_at(flags: &[bool], places: &[u32]) -> bool
    ensures { result ≡ any_at flags.now places.now }
{
    for place in places {
        if flag_at(flags, *place) {
            return true;
        }
    }
    false
}

// One of both, with no branch in its caller.
fn either(a: bool, b: bool) -> bool
    ensures { result ≡ (a || b) }
{
    a || b
}

/// Whether each model is named to be computed again, or stands on one that is.
pub(crate) fn named_of(
    alloc: Global,
    nodes: &[Node],
    restate: Option<&Restate>,
) -> Result<Vec<bool>, Memory>
    ensures named { IfOk result (λ made. made.items ≡ map (restates (option_copied restate.entry)) (closures nodes.now)) }
    ensures length { IfOk result (λ made. length made.items ≡ length nodes.now) }
{
    let mut made = Vec::new(alloc);
    for node in nodes {
        let named = is_named(restate, &node.own.name);
        let above = any_at(&made, node.parents.as_slice());
        made.push(either(named, above))?;
    }
    Ok(made)
}
