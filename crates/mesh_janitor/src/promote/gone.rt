// The models that an environment loses.
ghost use Rattle.std.specs.Prelude.{◌≡◌, IfOk, map};
ghost use Rattle.std.specs.Option.{option_copied};
ghost use Rattle.mesh_base.specs.Keys.{ref_name};
ghost use Rattle.mesh_house_book.specs.Changes.{joined, previous_of};
ghost use Rattle.mesh_spec_changes.specs.Changes.{names_by_order};
ghost use Rattle.mesh_spec_changes.specs.Environments.{env_at};
ghost use Rattle.mesh_janitor.specs.promote.Promotion.{left_out};

use crate::naming::{absent, names_of, ordered_names};
use crate::snapshots::add_refs;
use mesh_base::{Env, Ref, Refs};
use mesh_base_values::{Name, Names, Str};
use mesh_house_book::Book;
use mesh_list::{Duplicate, Memory, Register, Seq, together};
use std::alloc::Global;

fn joined(alloc: Global, list: &[Ref], previous: &[Ref]) -> Result<Refs, Memory>
    ensures { IfOk result (λ all. all ≡ joined list.now previous.now) }
{
    let mut all = Register::new(alloc);
    add_refs(list, &mut all)?;
    add_refs(previous, &mut all)?;
    Ok(Seq::from_vec(all.into_vec()))
}

/// What the environment's views may be those of.
fn previous_of(alloc: Global, env: Option<&Env>) -> Result<Refs, Memory>
    ensures { IfOk result (λ refs. refs ≡ previous_of (option_copied env.entry)) }
{
    match env {
        None => Ok(Seq::new(alloc)),
        Some(env) if env.pending => joined(alloc, env.list.as_slice(), env.previous.as_slice()),
        Some(env) => env.list.copy(),
    }
}

// The models that the environment had, by name.
fn had(alloc: Global, b: &Book, env: &Str) -> Result<Register<Name>, Memory>
    ensures { IfOk result (λ made. made ≡ names_by_order (map ref_name (previous_of (env_at b.now env.now)))) }
{
    let previous = previous_of(alloc, b.environments.find(env))?;
    ordered_names(alloc, previous.as_slice())
}

/// The models that the environment had and the list doesn't have, by name.
pub(crate) fn left_out(alloc: Global, b: &Book, env: &Str, list: &[Ref]) -> Result<Names, Memory>
    ensures { IfOk result (λ made. made ≡ left_out b.now env.now list.now) }
{
    let (all, names) = together(had(alloc, b, env), names_of(alloc, list))?;
    let names = Register::from_vec(names.into_vec());
    absent(alloc, &names, all.as_slice())
}
