// Where the models of a list stand, by their names.
ghost use Rattle.std.specs.Prelude.{◌≡◌, ◌++◌, ◌∷◌, [], if◌then◌else◌, IfOk, OnOk};
ghost use Rattle.std.specs.BTreeMap.{get};
ghost use Rattle.std.specs.Option.{is_none};
ghost use Rattle.mesh_base_values.specs.Names.{name_cmp};
ghost use Rattle.mesh_base_values.specs.declared.values.Name.{Name};
ghost use Rattle.mesh_spec_changes.specs.reuse.Categories.{removed};
ghost use Rattle.mesh_category.specs.category.Gone.{AreGone, IsAscending, IsPlaceOf, IsSameBag, names_of};

use mesh_base::Node;
use mesh_base_values::{Name, Names};
use mesh_list::{Duplicate, Memory, Seq, push_made};
use std::alloc::Global;
use std::collections::BTreeMap;

/// The place of each model, by its name.
pub(crate) fn places_of(alloc: Global, nodes: &[Node]) -> Result<BTreeMap<Name, usize>, Memory>
    ensures { IfOk result (λ places. (name : Name) → IsPlaceOf nodes.now name (get name_cmp places name)) }
{
    let mut places = BTreeMap::new(alloc);
    for (at, node) in nodes.iter().enumerate() {
        let name = node.own.name.copy()?;
        places.insert(name, at)?;
    }
    Ok(places)
}

pub(crate) fn place_of(places: &BTreeMap<Name, usize>, name: &Name) -> Option<usize>
    ensures { result ≡ get name_cmp places.now name.now }
{
    places.get(name).copied()
}

// A name comes to those that are gone, where it has none of these places.
fn push_gone(made: &mut Names, places: &BTreeMap<Name, usize>, name: &Name) -> Result<(), Memory>
    ensures { OnOk result (made.new ≡ made.old ++ (if is_none (get name_cmp places.now name.now) then name.now ∷ [] else [])) }
{
    match places.get(name) {
        Some(_) => Ok(()),
        None => push_made(made, name.copy()),
    }
}

fn gone(alloc: Global, olds: &[Node], news: &[Node]) -> Result<Names, Memory>
    ensures { IfOk result (λ made. made ≡ removed (names_of olds.now) (names_of news.now)) }
{
    let places = places_of(alloc, news)?;
    let mut made = Seq::new(alloc);
    for node in olds {
        push_gone(&mut made, &places, &node.own.name)?;
    }
    Ok(made)
}

fn in_order(names: Names) -> Result<Names, Memory>
    ensures same { IfOk result (λ made. IsSameBag names made) }
    ensures ascending { IfOk result (λ made. IsAscending made) }
{
    let mut items = names.into_vec();
    match items.sort() {
        Ok(()) => Ok(Seq::from_vec(items)),
        Err(_) => Err(Memory),
    }
}

/// The names of the old models of which none is among the new, in their order.
pub(crate) fn removed(alloc: Global, olds: &[Node], news: &[Node]) -> Result<Names, Memory>
    ensures { IfOk result (λ made. AreGone olds.now news.now made) }
{
    let names = gone(alloc, olds, news)?;
    let made = in_order(names)?;
    Ok(made)
}
