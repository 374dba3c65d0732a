// The tables and stored queries that nothing uses any more.
ghost use Rattle.std.specs.Prelude.{◌≡◌, IfOk, OnOk, map};
ghost use Rattle.std.specs.List.{All};
ghost use Rattle.mesh_list.specs.Keyed.{placed};
ghost use Rattle.mesh_base_values.specs.Names.{name_cmp};
ghost use Rattle.mesh_base_values.specs.declared.values.Name.{Name};
ghost use Rattle.mesh_base.specs.declared.snapshots.Snapshot.{Snapshot};
ghost use Rattle.mesh_house_book.specs.Changes.{version_object};
ghost use Rattle.mesh_spec_changes.specs.Changes.{name_itself};
ghost use Rattle.mesh_spec_changes.specs.Kept.{gone_tables, is_kept, tables};
ghost use Rattle.mesh_janitor.specs.janitor.Walk.{object_after, objects_after, snapshot_object, stays, with_names};

use crate::janitor::kept::stays;
use crate::naming::{absent, by_order, place_copy};
use mesh_base::{Ref, Snapshot};
use mesh_base_values::{Name, Names};
use mesh_house_book::{Book, Version};
use mesh_list::{Duplicate, Memory, Register, Seq, push_made};
use std::alloc::Global;

// The objects of versions, as they stand.
fn objects_of(alloc: Global, versions: &[Version]) -> Result<Names, Memory>
    ensures { IfOk result (λ names. names ≡ map version_object versions.now) }
{
    let mut names = Seq::new(alloc);
    for version in versions {
        push_made(&mut names, version.object.copy())?;
    }
    Ok(names)
}

// The objects of snapshots, by name.
fn add_objects(all: &[Snapshot], names: &mut Register<Name>) -> Result<(), Memory>
    ensures { OnOk result (names.new ≡ with_names (map snapshot_object all.now) names.old) }
{
    let mut left = all.len();
    while left > 0 {
        left -= 1;
        place_copy(names, &all[left].object)?;
    }
    Ok(())
}

fn tables(alloc: Global, b: &Book) -> Result<Register<Name>, Memory>
    ensures { IfOk result (λ names. names ≡ tables b.now) }
{
    let mut names = by_order(alloc, objects_of(alloc, b.versions.as_slice())?)?;
    add_objects(b.snapshots.as_slice(), &mut names)?;
    Ok(names)
}

// Where a snapshot stays, its object is used.
fn add_object(
    t: i64,
    wanted: &Register<Ref>,
    s: &Snapshot,
    names: &mut Register<Name>,
) -> Result<(), Memory>
    ensures { OnOk result (names.new ≡ object_after t wanted.now s.now names.old) }
{
    if stays(t, wanted, s)? {
        place_copy(names, &s.object)?;
    }
    Ok(())
}

// The objects of what stays.
fn add_used(
    t: i64,
    wanted: &Register<Ref>,
    all: &[Snapshot],
    names: &mut Register<Name>,
) -> Result<(), Memory>
    ensures { OnOk result (names.new ≡ objects_after t wanted.now all.now names.old) }
{
    for s in all {
        add_object(t, wanted, s, names)?;
    }
    Ok(())
}

/// The tables and stored queries that no snapshot uses that stays, by name.
pub(crate) fn gone_tables(
    alloc: Global,
    b: &Book,
    t: i64,
    wanted: &Register<Ref>,
) -> Result<Names, Memory>
    requires { All (λ (s : Snapshot). stays t wanted.now s ≡ is_kept b.now t s) b.now.snapshots }
    ensures { IfOk result (λ names. names ≡ gone_tables b.now t) }
{
    let mut used = Register::new(alloc);
    add_used(t, wanted, b.snapshots.as_slice(), &mut used)?;
    let all = tables(alloc, b)?;
    let gone = absent(alloc, &used, all.as_slice())?;
    Ok(gone)
}
