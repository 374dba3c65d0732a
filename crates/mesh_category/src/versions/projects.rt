// The project of a list of snapshots.
ghost use Rattle.std.specs.Prelude.{◌≡◌, ◌++◌, map, true, IfOk, OnOk};
ghost use Rattle.std.specs.BTreeMap.{get};
ghost use Rattle.std.specs.Option.{option_to_list};
ghost use Rattle.mesh_base_values.specs.Names.{name_cmp};
ghost use Rattle.mesh_house_book.specs.WellFormed.{is_well_formed_book};
ghost use Rattle.mesh_spec_changes.specs.listed.Listed.{is_list_fit, listed};
ghost use Rattle.mesh_category.specs.versions.Standing.{node_by, places_by, snapshots_of};

use crate::versions::standing::{Standing, collected, places};
use mesh_base::rules::Project;
use mesh_base::{Indexes, Node, Nodes, Ref, Refs, Snapshot};
use mesh_base_values::Name;
use mesh_house_book::Book;
use mesh_list::{Duplicate, Memory, Seq, push_made, together};
use std::alloc::Global;
use std::collections::BTreeMap;

// The place of one parent, where it has one.
fn put_place(made: &mut Indexes, places: &BTreeMap<Name, u32>, parent: &Ref) -> Result<(), Memory>
    ensures { OnOk result (made.new ≡ made.old ++ option_to_list (get name_cmp places.now parent.now.name)) }
{
    match places.get(&parent.name) {
        None => Ok(()),
        Some(place) => made.push(*place),
    }
}

// The places of a model's parents.
fn parents_at(
    alloc: Global,
    places: &BTreeMap<Name, u32>,
    parents: &[Ref],
) -> Result<Indexes, Memory>
    ensures { IfOk result (λ made. made ≡ places_by (get name_cmp places.now) parents.now) }
{
    let mut made = Seq::new(alloc);
    for parent in parents {
        put_place(&mut made, places, parent)?;
    }
    Ok(made)
}

fn as_node(alloc: Global, places: &BTreeMap<Name, u32>, s: &Snapshot) -> Result<Node, Memory>
    ensures { IfOk result (λ node. node ≡ node_by (get name_cmp places.now) s.now) }
{
    let (parents, own) = together(
        parents_at(alloc, places, s.parents.as_slice()),
        s.own.copy(),
    )?;
    Ok(Node {
        own,
        parents,
        rank: s.rank,
        fingerprint: s.fingerprint,
    })
}

fn as_nodes(alloc: Global, places: &BTreeMap<Name, u32>, all: &[Standing]) -> Result<Nodes, Memory>
    ensures { IfOk result (λ nodes. nodes ≡ map (node_by (get name_cmp places.now)) (snapshots_of all.now)) }
{
    let mut nodes = Seq::new(alloc);
    for one in all {
        push_made(&mut nodes, as_node(alloc, places, one.snapshot))?;
    }
    Ok(nodes)
}

fn listed(alloc: Global, b: &Book, list: &[Ref]) -> Result<Nodes, Memory>
    requires book { is_well_formed_book b.now ≡ true }
    requires list { is_list_fit b.now.snapshots list.now ≡ true }
    ensures { IfOk result (λ nodes. nodes ≡ listed b.now.snapshots list.now) }
{
    let all = collected(alloc, b, list)?;
    let places = places(alloc, all.as_slice())?;
    as_nodes(alloc, &places, all.as_slice())
}

/// The project of a list that an environment of the book may have. Each snapshot is found in steps in proportion to the
/// logarithm of their number.
pub fn project_of(alloc: Global, b: &Book, list: &Refs) -> Result<Project, Memory>
    requires book { is_well_formed_book b.now ≡ true }
    requires list { is_list_fit b.now.snapshots list.now ≡ true }
    ensures { IfOk result (λ project. project.nodes ≡ listed b.now.snapshots list.now) }
{
    let nodes = listed(alloc, b, list.as_slice())?;
    Ok(Project { nodes })
}
