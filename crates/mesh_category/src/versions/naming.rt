// The object of each model of a project.
ghost use Rattle.std.specs.Prelude.{◌≡◌, ◌<◌, true, length, map, IfOk, IfErr, OnOk, Some};
ghost use Rattle.std.specs.List.{All, Contains, slice_get};
ghost use Rattle.mesh_house_book.specs.WellFormed.{is_well_formed_book};
ghost use Rattle.mesh_base.specs.rules.Proper.{is_proper};
ghost use Rattle.mesh_category.specs.category.Stated.{HaveCategories};
ghost use Rattle.mesh_spec_changes.specs.due.Versions.{version};
ghost use Rattle.mesh_spec_changes.specs.listed.Listed.{is_list_fit, listed};
ghost use Rattle.mesh_category.specs.versions.Clashes.{IsAlone, Refuses, RefusesModel, TellsClash, compared_in, versions};
ghost use Rattle.mesh_category.specs.versions.Index.{IsIndex};

use crate::versions::clashes::is_alone;
use crate::versions::faults::PlanFault;
use crate::versions::index::{Index, indexed, told_at};
use crate::versions::objects::{Object, object_of};
use mesh_base::rules::Project;
use mesh_base::{Categories, Category, Node, Ref, Refs};
use mesh_base_values::{Name, Names};
use mesh_house_book::Book;
use mesh_list::{Duplicate, Seq};
use mesh_query_tokens::FaultKind;
use std::alloc::Global;

// A model's fingerprint clashes with a stored one, which is told where there is memory for it.
fn clash(node: &Node, stored: [u8; 32]) -> PlanFault
    ensures { TellsClash stored node.now result }
{
    match node.own.name.copy() {
        Ok(name) => PlanFault::Model {
            name,
            kind: FaultKind::FingerprintClash {
                stored,
                given: node.fingerprint,
            },
        },
        Err(_) => PlanFault::Memory,
    }
}

// The object of one model.
fn named(
    alloc: Global,
    b: &Book,
    index: &Index,
    nodes: &[Node],
    base: &[Ref],
    node: &Node,
    category: Category,
) -> Result<Name, PlanFault>
    requires book { is_well_formed_book b.now ≡ true }
    requires nodes { is_proper nodes.now ≡ true }
    requires node { Contains nodes.now node.now }
    requires index { IsIndex b.now.snapshots nodes.now base.now index.now }
    ensures alone { OnOk result (IsAlone b.now.snapshots nodes.now node.now) }
    ensures object { IfOk result (λ name. version b.now.snapshots (compared_in b.now.snapshots base.now node.now.own.name) category node.now ≡ Some name) }
    ensures refused { IfErr result (λ fault. RefusesModel b.now.snapshots nodes.now base.now category node.now fault) }
{
    let told = told_at(&index.told, &node.fingerprint);
    if !is_alone(b, told, nodes, node) {
        return Err(clash(node, node.fingerprint));
    }
    match object_of(alloc, b, index, told, nodes, base, node, category)? {
        Object::Named(name) => Ok(name),
        Object::Taken(stored) => Err(clash(node, stored)),
    }
}

fn category_at(categories: &[Category], at: usize) -> Category
    requires { at < length categories.now }
    ensures { slice_get categories.now at ≡ Some result }
{
    categories[at]
}

fn all_named(
    alloc: Global,
    b: &Book,
    index: &Index,
    nodes: &[Node],
    base: &[Ref],
    categories: &[Category],
) -> Result<Names, PlanFault>
    requires book { is_well_formed_book b.now ≡ true }
    requires nodes { is_proper nodes.now ≡ true }
    requires categories { length categories.now ≡ length nodes.now }
    requires index { IsIndex b.now.snapshots nodes.now base.now index.now }
    ensures objects { IfOk result (λ names. map Some names ≡ versions b.now.snapshots base.now nodes.now categories.now) }
    ensures alone { OnOk result (All (IsAlone b.now.snapshots nodes.now) nodes.now) }
    ensures refused { IfErr result (λ fault. Refuses b.now.snapshots nodes.now base.now categories.now fault) }
{
    let mut made = Seq::new(alloc);
    for (at, node) in nodes.iter().enumerate() {
        let category = category_at(categories, at);
        match named(alloc, b, index, nodes, base, node, category) {
            Ok(name) => made.push(name)?,
            Err(fault) => return Err(fault),
        }
    }
    Ok(made)
}

/// The name of the table or the stored query of each model of a project, where `c` has their categories against a
/// list that an environment of the book may have. `c` and the list are those that the models are compared with. Each
/// fingerprint and each name is found in steps in proportion to a logarithm.
pub fn versions(
    alloc: Global,
    p: &Project,
    c: &Categories,
    base: &Refs,
    b: &Book,
) -> Result<Names, PlanFault>
    requires book { is_well_formed_book b.now ≡ true }
    requires base { is_list_fit b.now.snapshots base.now ≡ true }
    requires categories { HaveCategories (listed b.now.snapshots base.now) p.now.nodes c.now.of }
    ensures objects { IfOk result (λ names. map Some names ≡ versions b.now.snapshots base.now p.now.nodes c.now.of) }
    ensures alone { OnOk result (All (IsAlone b.now.snapshots p.now.nodes) p.now.nodes) }
    ensures refused { IfErr result (λ fault. Refuses b.now.snapshots p.now.nodes base.now c.now.of fault) }
{
    let nodes = p.as_slice();
    let index = indexed(alloc, b.snapshots.as_slice(), nodes, base.as_slice())?;
    all_named(alloc, b, &index, nodes, base.as_slice(), c.of.as_slice())
}
