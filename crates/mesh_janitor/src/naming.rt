// Names by their order.
ghost use Rattle.std.specs.Prelude.{◌≡◌, IfOk, OnOk, map};
ghost use Rattle.std.specs.List.{filter};
ghost use Rattle.mesh_list.specs.Keyed.{ascends, placed};
ghost use Rattle.mesh_base_values.specs.Names.{name_cmp};
ghost use Rattle.mesh_base.specs.Keys.{ref_name};
ghost use Rattle.mesh_spec_changes.specs.Changes.{name_itself, names_by_order};
ghost use Rattle.mesh_janitor.specs.promote.Promotion.{is_absent};

use mesh_base::Ref;
use mesh_base_values::{Name, Names};
use mesh_list::{Duplicate, Memory, Register, Seq, push_made};
use std::alloc::Global;

/// The names of some models, as they stand.
pub(crate) fn names_of(alloc: Global, refs: &[Ref]) -> Result<Names, Memory>
    ensures { IfOk result (λ names. names ≡ map ref_name refs.now) }
{
    let mut names = Seq::new(alloc);
    for r in refs {
        push_made(&mut names, r.name.copy())?;
    }
    Ok(names)
}

/// A name comes to others, by their order.
pub(crate) fn place_copy(names: &mut Register<Name>, name: &Name) -> Result<(), Memory>
    ensures { OnOk result (names.new ≡ placed name_cmp name_itself name.now names.old) }
{
    names.place(name.copy()?)
}

// Whether each name is above the one before it.
fn ascend(names: &[Name]) -> bool
    ensures { result ≡ ascends name_cmp name_itself names.now }
{
    for (i, name) in names.iter().enumerate() {
        match &names[i + 1..] {
            [] => {}
            [next, ..] => if !name.compare(next).is_lt() {
                return false;
            },
        }
    }
    true
}

// Each at its place, from the last to the first.
fn placed_all(alloc: Global, names: &[Name]) -> Result<Register<Name>, Memory>
    ensures { IfOk result (λ made. made ≡ names_by_order names.now) }
{
    let mut made = Register::new(alloc);
    let mut left = names.len();
    while left > 0 {
        left -= 1;
        place_copy(&mut made, &names[left])?;
    }
    Ok(made)
}

/// Some names by their order, each once. Where they stand so already, none is moved.
#[tactic(auto, using(crate::proofs::naming::ByOrder::stays))]
pub(crate) fn by_order(alloc: Global, names: Names) -> Result<Register<Name>, Memory>
    ensures { IfOk result (λ made. made ≡ names_by_order names) }
{
    if ascend(names.as_slice()) {
        return Ok(Register::from_vec(names.into_vec()));
    }
    placed_all(alloc, names.as_slice())
}

/// The names of some models by their order, each once.
pub(crate) fn ordered_names(alloc: Global, refs: &[Ref]) -> Result<Register<Name>, Memory>
    ensures { IfOk result (λ made. made ≡ names_by_order (map ref_name refs.now)) }
{
    let names = names_of(alloc, refs)?;
    by_order(alloc, names)
}

/// Those of some names that are not among others.
pub(crate) fn absent(alloc: Global, names: &Register<Name>, all: &[Name]) -> Result<Names, Memory>
    ensures { IfOk result (λ made. made ≡ filter (is_absent names.now) all.now) }
{
    let mut made = Seq::new(alloc);
    for name in all {
        if names.find(name).is_none() {
            push_made(&mut made, name.copy())?;
        }
    }
    Ok(made)
}
