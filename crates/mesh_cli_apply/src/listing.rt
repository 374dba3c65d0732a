// The models of a plan and their objects, by name.
ghost use Rattle.std.specs.Prelude.{◌≡◌, ◌++◌, ◌∷◌, [], IfOk, OnOk, map};
ghost use Rattle.mesh_list.specs.Keyed.{placed};
ghost use Rattle.mesh_spec_changes.specs.Changes.{objects_by_name, refs_by_name};
ghost use Rattle.mesh_base_values.specs.Names.{name_cmp};
ghost use Rattle.mesh_janitor.specs.promote.Promotion.{paired};
ghost use Rattle.mesh_exec.specs.Planned.{planned_models};
ghost use Rattle.mesh_cli_apply.specs.Listing.{as_targets, object_of, ref_of, target, target_name, targets};

use mesh_base::rules::Plan;
use mesh_base::{Entry, Node, Ref, Refs};
use mesh_base_values::{Name, Names};
use mesh_list::{Duplicate, Memory, Seq, both};
use std::alloc::Global;
use std::collections::BTreeMap;

/// A model of a plan with the object that has its rows.
pub struct Target {
    pub name: Name,
    pub fingerprint: [u8; 32],
    pub object: Name,
}

impl Drop for Target {
    fn drop(self) {
        let Target {
            name: _,
            fingerprint: _,
            object: _,
        } = self;
    }
}

/// The models of a plan by name, each with its fingerprint and its object.
type ByName = BTreeMap<Name, ([u8; 32], Name)>;

/// The list of an environment, and the object of each model in it.
pub struct Lists {
    pub list: Refs,
    pub objects: Names,
}

impl Drop for Lists {
    fn drop(self) {
        let Lists {
            list: _,
            objects: _,
        } = self;
    }
}

fn place(models: &mut ByName, node: &Node, entry: &Entry) -> Result<(), Memory>
    ensures { OnOk result (as_targets models.new.entries ≡ placed name_cmp target_name (target node.now entry.now) (as_targets models.old.entries)) }
{
    let (name, object) = both(&node.own.name, &entry.object)?;
    models.insert(name, (node.fingerprint, object))?;
    Ok(())
}

/// The models beside their entries; from the last to the first, as their list is defined.
fn by_name(alloc: Global, nodes: &[Node], entries: &[Entry]) -> Result<ByName, Memory>
    ensures { IfOk result (λ made. as_targets made.entries ≡ targets nodes.now entries.now) }
{
    let mut made = BTreeMap::new(alloc);
    let mut left = nodes.len().min(entries.len());
    while left > 0 {
        left -= 1;
        place(&mut made, &nodes[left], &entries[left])?;
    }
    Ok(made)
}

fn as_list(alloc: Global, models: ByName) -> Result<Seq<Target>, Memory>
    ensures { IfOk result (λ made. made ≡ as_targets models.entries) }
{
    let mut made = Seq::new(alloc);
    for (name, (fingerprint, object)) in models {
        made.push(Target {
            name,
            fingerprint,
            object,
        })?;
    }
    Ok(made)
}

/// The models by name, each beside its entry.
fn targets(alloc: Global, nodes: &[Node], entries: &[Entry]) -> Result<Seq<Target>, Memory>
    ensures { IfOk result (λ made. made ≡ targets nodes.now entries.now) }
{
    let models = by_name(alloc, nodes, entries)?;
    as_list(alloc, models)
}

fn push_ref(list: &mut Refs, target: &Target) -> Result<(), Memory>
    ensures { OnOk result (list.new ≡ list.old ++ ref_of target.now ∷ []) }
{
    let name = target.name.copy()?;
    list.push(Ref {
        name,
        fingerprint: target.fingerprint,
    })
}

fn refs_of(alloc: Global, targets: &[Target]) -> Result<Refs, Memory>
    ensures { IfOk result (λ made. made ≡ map ref_of targets.now) }
{
    let mut made = Seq::new(alloc);
    for target in targets {
        push_ref(&mut made, target)?;
    }
    Ok(made)
}

fn objects_of(alloc: Global, targets: &[Target]) -> Result<Names, Memory>
    ensures { IfOk result (λ made. made ≡ map object_of targets.now) }
{
    let mut made = Seq::new(alloc);
    for target in targets {
        made.push(target.object.copy()?)?;
    }
    Ok(made)
}

fn listed(alloc: Global, targets: &[Target]) -> Result<Lists, Memory>
    ensures { IfOk result (λ made. made ≡ record { list = map ref_of targets.now; objects = map object_of targets.now }) }
{
    let list = refs_of(alloc, targets)?;
    let objects = objects_of(alloc, targets)?;
    Ok(Lists { list, objects })
}

/// The models of a plan by name, each with its object.
pub(crate) fn listing(alloc: Global, p: &Plan) -> Result<Lists, Memory>
    ensures list { IfOk result (λ made. made.list ≡ refs_by_name (planned_models p.now)) }
    ensures objects { IfOk result (λ made. paired made.list made.objects ≡ objects_by_name (planned_models p.now)) }
{
    let targets = targets(alloc, p.project.as_slice(), p.entries.as_slice())?;
    let made = listed(alloc, targets.as_slice())?;
    Ok(made)
}
