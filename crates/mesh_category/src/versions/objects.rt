// The object of a model whose fingerprint stands for it alone.
ghost use Rattle.std.specs.Prelude.{◌≡◌, ◌<◌, true, IfOk, Some};
ghost use Rattle.std.specs.BTreeMap.{get};
ghost use Rattle.std.specs.List.{Contains};
ghost use Rattle.std.specs.Option.{option_copied};
ghost use Rattle.mesh_base_values.specs.Names.{name_cmp};
ghost use Rattle.mesh_base_values.specs.declared.values.Name.{Name};
ghost use Rattle.mesh_house_book.specs.WellFormed.{is_well_formed_book};
ghost use Rattle.mesh_base.specs.rules.Proper.{is_proper};
ghost use Rattle.mesh_spec_changes.specs.due.Versions.{kept_object, stays, table_name};
ghost use Rattle.mesh_category.specs.versions.Clashes.{IsAlone, compared_in};
ghost use Rattle.mesh_category.specs.versions.Index.{IsIndex, listed_print, told_of};
ghost use Rattle.mesh_category.specs.versions.Objects.{IsObject, choice_at, fresh_by, or_fresh};

use crate::versions::clashes::snapshot_at;
use crate::versions::index::{Holders, Index, Told};
use crate::versions::names::table_name;
use mesh_base::{Category, Node, Ref, Snapshot};
use mesh_base_values::{Kind, Name};
use mesh_house_book::Book;
use mesh_list::{Duplicate, Memory};
use std::alloc::Global;

/// An object for a model, or the fingerprint of the snapshot that has the last name which it might have.
#[derive(Drop)]
pub(crate) enum Object {
    Named(Name),
    Taken([u8; 32]),
}

// One of the four names, where no snapshot has it.
fn choose(
    alloc: Global,
    objects: &Holders,
    m: &Name,
    print: &[u8; 32],
    k: usize,
) -> Result<Object, Memory>
    requires { k < 4 }
    ensures { IfOk result (λ made. made ≡ choice_at (get name_cmp objects.now) m.now print.now k) }
{
    let name = table_name(alloc, m, print, k)?;
    match objects.get(&name) {
        None => Ok(Object::Named(name)),
        Some(by) => Ok(Object::Taken(*by)),
    }
}

// The first of them that no snapshot has.
fn fresh(alloc: Global, objects: &Holders, m: &Name, print: &[u8; 32]) -> Result<Object, Memory>
    ensures { IfOk result (λ made. made ≡ fresh_by (get name_cmp objects.now) m.now print.now) }
{
    if let Object::Named(name) = choose(alloc, objects, m, print, 0)? {
        return Ok(Object::Named(name));
    }
    if let Object::Named(name) = choose(alloc, objects, m, print, 1)? {
        return Ok(Object::Named(name));
    }
    if let Object::Named(name) = choose(alloc, objects, m, print, 2)? {
        return Ok(Object::Named(name));
    }
    choose(alloc, objects, m, print, 3)
}

/// Whether a model of this category stays in its table.
fn stays(category: Category, kind: &Kind) -> bool
    ensures { result ≡ stays category kind.now }
{
    match category {
        Category::IndirectNonBreaking => match kind {
            Kind::View => false,
            Kind::Full | Kind::Seed | Kind::Incremental { .. } => true,
        },
        Category::Unchanged
        | Category::Added
        | Category::Breaking
        | Category::NonBreaking
        | Category::IndirectBreaking => false,
    }
}

// The snapshot that the list has of a model.
fn compared<'a>(
    b: &'a Book,
    compared: &Holders,
    base: &[Ref],
    name: &Name,
) -> Result<Option<&'a Snapshot>, Memory>
    requires { (name : Name) → get name_cmp compared.now name ≡ listed_print base.now name }
    ensures { IfOk result (λ s. option_copied s ≡ compared_in b.now.snapshots base.now name.now) }
{
    match compared.get(name) {
        None => Ok(None),
        Some(print) => {
            let name = name.copy()?;
            Ok(
                b.snapshots.find(&Ref {
                    name,
                    fingerprint: *print,
                }),
            )
        }
    }
}

// Its object, where the model stays in it.
fn kept(
    b: &Book,
    index: &Holders,
    base: &[Ref],
    node: &Node,
    category: Category,
) -> Result<Option<Name>, Memory>
    requires { (name : Name) → get name_cmp index.now name ≡ listed_print base.now name }
    ensures { IfOk result (λ name. name ≡ kept_object (stays category node.now.own.kind) (compared_in b.now.snapshots base.now node.now.own.name)) }
{
    if !stays(category, &node.own.kind) {
        return Ok(None);
    }
    match compared(b, index, base, &node.own.name)? {
        None => Ok(None),
        Some(s) => Ok(Some(s.object.copy()?)),
    }
}

// The object of a model that the book doesn't know.
fn unknown(
    alloc: Global,
    b: &Book,
    index: &Index,
    base: &[Ref],
    node: &Node,
    category: Category,
) -> Result<Object, Memory>
    requires { (name : Name) → get name_cmp index.now.compared name ≡ listed_print base.now name }
    ensures { IfOk result (λ made. made ≡ or_fresh (kept_object (stays category node.now.own.kind) (compared_in b.now.snapshots base.now node.now.own.name)) (fresh_by (get name_cmp index.now.objects) node.now.own.name node.now.fingerprint)) }
{
    match kept(b, &index.compared, base, node, category)? {
        Some(name) => Ok(Object::Named(name)),
        None => fresh(alloc, &index.objects, &node.own.name, &node.fingerprint),
    }
}

/// The object of a model whose fingerprint stands for it alone, and for this as far as fingerprints tell.
pub(crate) fn object_of(
    alloc: Global,
    b: &Book,
    index: &Index,
    told: Told,
    nodes: &[Node],
    base: &[Ref],
    node: &Node,
    category: Category,
) -> Result<Object, Memory>
    requires book { is_well_formed_book b.now ≡ true }
    requires nodes { is_proper nodes.now ≡ true }
    requires node { Contains nodes.now node.now }
    requires index { IsIndex b.now.snapshots nodes.now base.now index.now }
    requires told { told_of b.now.snapshots nodes.now node.now.fingerprint ≡ Some told }
    requires alone { IsAlone b.now.snapshots nodes.now node.now }
    ensures { IfOk result (λ made. IsObject b.now.snapshots base.now category node.now made) }
{
    match told {
        Told::Stored(at) => Ok(Object::Named(snapshot_at(b, at).object.copy()?)),
        Told::New | Told::Shared => {
            let made = unknown(alloc, b, index, base, node, category)?;
            Ok(made)
        }
    }
}
