// The models that reach themselves.
ghost use Rattle.std.specs.Prelude.{◌≡◌, ◌<◌, length, All, AllPairs, IfOk, OnOk};
ghost use Rattle.mesh_project.specs.order.Order.{name_at};
ghost use Rattle.mesh_project.specs.order.Links.{AreWithin, IsBelow};
ghost use Rattle.mesh_project.specs.order.Seen.{AreNamed, IsNext};

use crate::order::readers::Reader;
use crate::order::seen::reaches_itself;
use mesh_base_values::{Name, Names};
use mesh_list::{Duplicate, Memory, Seq};
use std::alloc::Global;

// A copy of the name at a place.
fn name_at(models: &[Reader], at: u32) -> Result<Name, Memory>
    requires { at < length models.now }
    ensures { IfOk result (λ name. name ≡ name_at models.now at) }
{
    models[at as usize].name.copy()
}

// Puts the name at a place behind the others, where the model there reaches itself.
fn add_cyclic(
    alloc: Global,
    models: &[Reader],
    links: &[Seq<u32>],
    at: u32,
    names: &mut Names,
) -> Result<(), Memory>
    requires links { length links.now ≡ length models.now }
    requires within { AreWithin links.now }
    requires place { at < length models.now }
    ensures { OnOk result (IsNext models.now links.now at names.old names.new) }
{
    if reaches_itself(alloc, links, at)? {
        let name = name_at(models, at)?;
        names.push(name)?;
    }
    Ok(())
}

/// The names of those among these models that reach themselves.
pub(crate) fn cyclic(
    alloc: Global,
    models: &[Reader],
    links: &[Seq<u32>],
    rest: &[u32],
) -> Result<Names, Memory>
    requires links { length links.now ≡ length models.now }
    requires within { AreWithin links.now }
    requires rest { All (λ at. at < length models.now) rest.now }
    requires by_name { AllPairs (IsBelow models.now) rest.now }
    ensures { IfOk result (λ names. AreNamed models.now links.now rest.now (length rest.now) names) }
{
    let mut names = Seq::new(alloc);
    for at in rest {
        add_cyclic(alloc, models, links, *at, &mut names)?;
    }
    Ok(names)
}
