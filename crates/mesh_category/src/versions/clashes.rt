// Whether a model's fingerprint stands for it alone.
ghost use Rattle.std.specs.Prelude.{◌≡◌, ◌<◌, ◌++◌, ◌⊎◌, ◌↔◌, List, false, true, length, map, IsTrue, IfOk, Some};
ghost use Rattle.std.specs.List.{Contains, slice_get};
ghost use Rattle.std.specs.Option.{option_copied, option_to_list};
ghost use Rattle.mesh_base.specs.declared.snapshots.Ref.{Ref};
ghost use Rattle.mesh_house_book.specs.WellFormed.{is_well_formed_book};
ghost use Rattle.mesh_spec_changes.specs.due.Versions.{node_ref};
ghost use Rattle.mesh_base.specs.rules.Proper.{is_proper};
ghost use Rattle.mesh_category.specs.versions.Clashes.{ClashesWithBook, ClashesWithProject, IsAlone, IsOf, refs_at};
ghost use Rattle.mesh_category.specs.versions.Index.{told_of};

use crate::category::node_at;
use crate::versions::index::Told;
use mesh_base::{Node, Ref, Snapshot};
use mesh_house_book::Book;
use mesh_list::Same;

fn is_ref_of(r: &Ref, node: &Node) -> bool
    ensures { IsTrue result ↔ (r.now ≡ node_ref node.now) }
{
    r.name.same(&node.own.name) && r.fingerprint == node.fingerprint
}

// The references behind that of a model, where it is the first of these, and all where there is no model.
fn behind<'a>(refs: &'a [Ref], node: Option<&Node>) -> Option<&'a [Ref]>
    ensures { (rest : List Ref) → (option_copied result ≡ Some rest) ↔ (refs.now ≡ map node_ref (option_to_list (option_copied node.entry)) ++ rest) }
{
    match node {
        None => Some(refs),
        Some(node) => match refs {
            [first, more @ ..] => {
                if is_ref_of(first, node) {
                    Some(more)
                } else {
                    None
                }
            }
            [] => None,
        },
    }
}

// Whether these references are those of the models at some places, where they lie.
fn are_refs_at(nodes: &[Node], places: &[u32], refs: &[Ref]) -> bool
    ensures { IsTrue result ↔ (refs.now ≡ refs_at nodes.now places.now) }
{
    let mut rest = refs;
    for place in places {
        match behind(rest, node_at(nodes, *place)) {
            None => return false,
            Some(more) => rest = more,
        }
    }
    rest.is_empty()
}

fn is_of(nodes: &[Node], node: &Node, s: &Snapshot) -> bool
    ensures { IsTrue result ↔ IsOf nodes.now node.now s.now }
{
    s.own.same(&node.own) && are_refs_at(nodes, node.parents.as_slice(), s.parents.as_slice())
}

/// The snapshot at a place.
pub(crate) fn snapshot_at<'a>(b: &'a Book, at: usize) -> &'a Snapshot
    requires { at < length b.now.snapshots }
    ensures { slice_get b.now.snapshots at ≡ Some result.now }
{
    &b.snapshots.as_slice()[at]
}

/// Whether a model's fingerprint stands for it alone, which stands for this as far as fingerprints tell.
pub(crate) fn is_alone(b: &Book, told: Told, nodes: &[Node], node: &Node) -> bool
    requires book { is_well_formed_book b.now ≡ true }
    requires nodes { is_proper nodes.now ≡ true }
    requires node { Contains nodes.now node.now }
    requires told { told_of b.now.snapshots nodes.now node.now.fingerprint ≡ Some told }
    ensures yes { IsTrue result → IsAlone b.now.snapshots nodes.now node.now }
    ensures no { result ≡ false → ClashesWithBook b.now.snapshots nodes.now node.now ⊎ ClashesWithProject nodes.now node.now }
{
    match told {
        Told::New => true,
        Told::Stored(at) => is_of(nodes, node, snapshot_at(b, at)),
        Told::Shared => false,
    }
}
