// Where models stand by their names, and the places of those that each one reads.
ghost use Rattle.std.specs.Prelude.{◌≡◌, ◌≤◌, ◌++◌, [], length, slice_index_or, IfOk, OnOk};
ghost use Rattle.std.specs.Option.{option_to_list};
ghost use Rattle.std.specs.List.{filter_map};
ghost use Rattle.std.specs.BTreeMap.{IsOrdered, get, values};
ghost use Rattle.mesh_base_values.specs.Names.{name_cmp};
ghost use Rattle.mesh_project.specs.order.Order.{AreApart};
ghost use Rattle.mesh_project.specs.order.Links.{AreByName, AreLinks, ArePlaces};

use crate::order::readers::Reader;
use mesh_base_values::Name;
use mesh_list::{Duplicate, Memory, Seq, together};
use std::alloc::Global;
use std::collections::BTreeMap;

type Places = BTreeMap<Name, u32>;

/// For each model the places of those that it reads.
pub(crate) type Links = Seq<Seq<u32>>;

// Where each model stands, by its name.
fn places_of(alloc: Global, models: &[Reader]) -> Result<Places, Memory>
    requires { length models.now ≤ 4096 }
    ensures { IfOk result (λ places. ArePlaces models.now places) }
{
    let mut places = BTreeMap::new(alloc);
    for (at, model) in models.iter().enumerate() {
        let name = model.name.copy()?;
        places.insert(name, at as u32)?;
    }
    Ok(places)
}

// All places, by the names there.
fn by_name(alloc: Global, models: &[Reader], places: &Places) -> Result<Seq<u32>, Memory>
    requires apart { AreApart models.now }
    requires places { ArePlaces models.now places.now }
    ensures { IfOk result (λ made. AreByName models.now made) }
{
    let made = values_of(alloc, places)?;
    Ok(made)
}

fn values_of(alloc: Global, places: &Places) -> Result<Seq<u32>, Memory>
    ensures value { IfOk result (λ made. made ≡ values places.now) }
    ensures ordered { IsOrdered name_cmp places.now }
{
    let mut made = Seq::new(alloc);
    for at in places.values() {
        made.push(*at)?;
    }
    Ok(made)
}

fn push_found(made: &mut Seq<u32>, found: Option<u32>) -> Result<(), Memory>
    ensures { OnOk result (made.new ≡ made.old ++ option_to_list found) }
{
    match found {
        Some(at) => made.push(at),
        None => Ok(()),
    }
}

// The places of the models of these names.
fn links_of_one(alloc: Global, places: &Places, names: &[Name]) -> Result<Seq<u32>, Memory>
    ensures { IfOk result (λ made. made ≡ filter_map (get name_cmp places.now) names.now) }
{
    let mut made = Seq::new(alloc);
    for name in names {
        push_found(&mut made, places.get(name).copied())?;
    }
    Ok(made)
}

// For each model the places of those that it reads.
fn links_of(alloc: Global, places: &Places, models: &[Reader]) -> Result<Links, Memory>
    requires apart { AreApart models.now }
    requires places { ArePlaces models.now places.now }
    ensures { IfOk result (λ made. AreLinks models.now made) }
{
    let mut made = Seq::new(alloc);
    for model in models {
        made.push(links_of_one(alloc, places, model.reads.as_slice())?)?;
    }
    Ok(made)
}

/// The places of those that each model reads, and all places by the names there.
pub(crate) fn linked(alloc: Global, models: &[Reader]) -> Result<(Links, Seq<u32>), Memory>
    requires apart { AreApart models.now }
    requires few { length models.now ≤ 4096 }
    ensures links { IfOk result (λ made. AreLinks models.now made.0) }
    ensures by_name { IfOk result (λ made. AreByName models.now made.1) }
{
    let places = places_of(alloc, models)?;
    together(
        links_of(alloc, &places, models),
        by_name(alloc, models, &places),
    )
}

/// The places that one leads to.
pub(crate) fn links_at(links: &[Seq<u32>], at: u32) -> &[u32]
    ensures { result.now ≡ slice_index_or links.now at [] }
{
    match links.get(at as usize) {
        Some(found) => found.as_slice(),
        None => &[],
    }
}
