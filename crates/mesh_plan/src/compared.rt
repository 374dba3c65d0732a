// The list that a project is compared with.
ghost use Rattle.std.specs.Prelude.{◌≡◌, [], codes, true, IfOk};
ghost use Rattle.mesh_house_book.specs.WellFormed.{is_well_formed_book};
ghost use Rattle.mesh_spec_changes.specs.Environments.{prod};
ghost use Rattle.mesh_spec_changes.specs.Planning.{compared_list};
ghost use Rattle.mesh_spec_changes.specs.listed.Listed.{is_list_fit};

use mesh_base::Refs;
use mesh_base_values::Str;
use mesh_house_book::Book;
use mesh_list::{Memory, Seq};
use std::alloc::Global;

/// The name of production.
pub(crate) fn prod(alloc: Global) -> Result<Str, Memory>
    ensures { IfOk result (λ name. name ≡ prod) }
{
    Ok(Seq::from_vec(Vec::from_slice(alloc, b"prod")?))
}

/// The environment's list, or else production's, or else none.
pub(crate) fn compared_list<'a>(
    b: &'a Book,
    env: &Str,
    production: &Str,
    none: &'a Refs,
) -> &'a Refs
    requires book { is_well_formed_book b.now ≡ true }
    requires production { production.now ≡ prod }
    requires none { none.now ≡ [] }
    ensures list { result.now ≡ compared_list b.now env.now }
    ensures fit { is_list_fit b.now.snapshots result.now ≡ true }
{
    if let Some(e) = b.environments.find(env) {
        return &e.list;
    }
    match b.environments.find(production) {
        Some(e) => &e.list,
        None => none,
    }
}
