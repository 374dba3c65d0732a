// The models of an environment that a query names.
ghost use Rattle.std.specs.Prelude.{◌≡◌, IfOk, map};
ghost use Rattle.std.specs.List.{filter};
ghost use Rattle.mesh_base.specs.Keys.{ref_name};
ghost use Rattle.mesh_base.specs.declared.definitions.Defn.TheVariants.{Sql};
ghost use Rattle.mesh_base.specs.rules.Proper.{defn_names, is_among};
ghost use Rattle.mesh_layer.specs.Asked.{asked_models};

use mesh_base::rules::is_named;
use mesh_base::{Query, Ref};
use mesh_base_values::{Names, Str};
use mesh_house_book::Book;
use mesh_list::{Duplicate, Memory, Seq, push_made};
use std::alloc::Global;

/// Those of some models that a query names.
fn named(alloc: Global, q: &Query, list: &[Ref]) -> Result<Names, Memory>
    ensures { IfOk result (λ names. names ≡ filter (is_among (defn_names (Sql q.now))) (map ref_name list.now)) }
{
    let mut names = Seq::new(alloc);
    for r in list {
        if is_named(q, &r.name) {
            push_made(&mut names, r.name.copy())?;
        }
    }
    Ok(names)
}

/// The models of an environment that a query names, in the order of the environment's list.
pub(crate) fn asked_models(alloc: Global, b: &Book, env: &Str, q: &Query) -> Result<Names, Memory>
    ensures { IfOk result (λ names. names ≡ asked_models b.now env.now q.now) }
{
    match b.environments.find(env) {
        None => Ok(Seq::new(alloc)),
        Some(e) => named(alloc, q, e.list.as_slice()),
    }
}
