// The things that a change is about.
ghost use Rattle.std.specs.Prelude.{◌≡◌, ◌++◌, ◌∷◌, [], IfOk, map};
ghost use Rattle.mesh_keep_house.specs.declared.touched.things.Thing.TheVariants as things;
ghost use Rattle.mesh_keep_house.specs.touched.Touched.{about, env_thing, forget_object, forget_thing, moved_things, noted, snapshot_thing};

use crate::touched::things::{Thing, Things};
use mesh_base::{Env, Forget, Ref, Snapshot};
use mesh_base_values::{Name, Str};
use mesh_house::{Change, World};
use mesh_house_book::Book;
use mesh_list::{Duplicate, Memory, Seq};
use std::alloc::Global;

fn one(alloc: Global, thing: Thing) -> Result<Things, Memory>
    ensures { IfOk result (λ made. made ≡ thing ∷ []) }
{
    let mut made = Seq::new(alloc);
    made.push(thing)?;
    Ok(made)
}

fn reference(name: &Name, fingerprint: &[u8; 32]) -> Result<Ref, Memory>
    ensures { IfOk result (λ made. made ≡ record { name = name.now; fingerprint = fingerprint.now }) }
{
    Ok(Ref {
        name: name.copy()?,
        fingerprint: *fingerprint,
    })
}

fn snapshot(alloc: Global, name: &Name, fingerprint: &[u8; 32]) -> Result<Things, Memory>
    ensures { IfOk result (λ made. made ≡ things.Snapshot (record { name = name.now; fingerprint = fingerprint.now }) ∷ []) }
{
    one(alloc, Thing::Snapshot(reference(name, fingerprint)?))
}

fn version(alloc: Global, object: &Name) -> Result<Things, Memory>
    ensures { IfOk result (λ made. made ≡ things.Version object.now ∷ []) }
{
    one(alloc, Thing::Version(object.copy()?))
}

fn environment(alloc: Global, name: &Str) -> Result<Things, Memory>
    ensures { IfOk result (λ made. made ≡ things.Env name.now ∷ []) }
{
    one(alloc, Thing::Env(name.copy()?))
}

fn view(alloc: Global, name: &Name) -> Result<Things, Memory>
    ensures { IfOk result (λ made. made ≡ things.View name.now ∷ []) }
{
    one(alloc, Thing::View(name.copy()?))
}

fn object(alloc: Global, name: &Name) -> Result<Things, Memory>
    ensures { IfOk result (λ made. made ≡ things.Object name.now ∷ []) }
{
    one(alloc, Thing::Object(name.copy()?))
}

fn source(alloc: Global, name: &Name) -> Result<Things, Memory>
    ensures { IfOk result (λ made. made ≡ things.Source name.now ∷ []) }
{
    one(alloc, Thing::Source(name.copy()?))
}

// An object, and then its version.
fn object_and_version(alloc: Global, name: &Name) -> Result<Things, Memory>
    ensures { IfOk result (λ made. made ≡ things.Object name.now ∷ things.Version name.now ∷ []) }
{
    let mut made = object(alloc, name)?;
    made.append(version(alloc, name)?)?;
    Ok(made)
}

// A snapshot, and then the version of its object.
fn snapshot_and_version(alloc: Global, s: &Snapshot) -> Result<Things, Memory>
    ensures { IfOk result (λ made. made ≡ snapshot_thing s.now ∷ things.Version s.now.object ∷ []) }
{
    let mut made = snapshot(alloc, &s.name, &s.fingerprint)?;
    made.append(version(alloc, &s.object)?)?;
    Ok(made)
}

fn push_snapshot(made: &mut Things, s: &Snapshot) -> Result<(), Memory>
    ensures { IfOk result (λ _. made.new ≡ made.old ++ snapshot_thing s.now ∷ []) }
{
    made.push(Thing::Snapshot(reference(&s.name, &s.fingerprint)?))
}

fn snapshots(alloc: Global, list: &[Snapshot]) -> Result<Things, Memory>
    ensures { IfOk result (λ made. made ≡ map snapshot_thing list.now) }
{
    let mut made = Seq::new(alloc);
    for s in list {
        push_snapshot(&mut made, s)?;
    }
    Ok(made)
}

fn push_env(made: &mut Things, env: &Env) -> Result<(), Memory>
    ensures { IfOk result (λ _. made.new ≡ made.old ++ env_thing env.now ∷ []) }
{
    made.push(Thing::Env(env.name.copy()?))
}

fn environments(alloc: Global, list: &[Env]) -> Result<Things, Memory>
    ensures { IfOk result (λ made. made ≡ map env_thing list.now) }
{
    let mut made = Seq::new(alloc);
    for env in list {
        push_env(&mut made, env)?;
    }
    Ok(made)
}

fn forgotten(forget: &Forget) -> &Name
    ensures { result.now ≡ forget_object forget.now }
{
    match forget {
        Forget::Range { object, .. } => object,
        Forget::Marks { object } => object,
    }
}

fn push_forgotten(made: &mut Things, forget: &Forget) -> Result<(), Memory>
    ensures { IfOk result (λ _. made.new ≡ made.old ++ forget_thing forget.now ∷ []) }
{
    made.push(Thing::Version(forgotten(forget).copy()?))
}

fn units(alloc: Global, list: &[Forget]) -> Result<Things, Memory>
    ensures { IfOk result (λ made. made ≡ map forget_thing list.now) }
{
    let mut made = Seq::new(alloc);
    for forget in list {
        push_forgotten(&mut made, forget)?;
    }
    Ok(made)
}

// All of a book that speaks of fingerprints, and the version.
fn moved(alloc: Global, book: &Book) -> Result<Things, Memory>
    ensures { IfOk result (λ made. made ≡ moved_things book.now) }
{
    let mut made = one(alloc, Thing::Head)?;
    made.append(snapshots(alloc, book.snapshots.as_slice())?)?;
    made.append(environments(alloc, book.environments.as_slice())?)?;
    Ok(made)
}

/// The things of a world that a change may take away, where they aren't those that it names.
pub(crate) fn noted(alloc: Global, world: &World, change: &Change) -> Result<Things, Memory>
    ensures { IfOk result (λ made. made ≡ noted world.now change.now) }
{
    match change {
        Change::Migrate { .. } => snapshots(alloc, world.book.snapshots.as_slice()),
        _ => Ok(Seq::new(alloc)),
    }
}

/// The things that a change names, of the world after it.
pub(crate) fn about(alloc: Global, world: &World, change: &Change) -> Result<Things, Memory>
    ensures { IfOk result (λ made. made ≡ about world.now change.now) }
{
    match change {
        Change::Moment { .. } => one(alloc, Thing::Head),
        Change::Load { name, .. } => source(alloc, name),
        Change::PutSnapshot { snapshot: s } => snapshot_and_version(alloc, s),
        Change::MakeTable { object: name, .. } => object_and_version(alloc, name),
        Change::MakeView { object: name, .. } => object_and_version(alloc, name),
        Change::ReplaceRows { object: name, .. } => object(alloc, name),
        Change::WriteRange { object: name, .. } => object(alloc, name),
        Change::RecordRange { object: name, .. } => version(alloc, name),
        Change::RecordMarks { object: name, .. } => version(alloc, name),
        Change::SetPending { env, .. } => environment(alloc, env),
        Change::PointView { view: name, .. } => view(alloc, name),
        Change::DropView { view: name } => view(alloc, name),
        Change::Finalize { env } => environment(alloc, env),
        Change::Expire { env } => environment(alloc, env),
        Change::ForgetVersion { object: name } => version(alloc, name),
        Change::DropObject { object: name } => object(alloc, name),
        Change::DeleteSnapshot { name, fingerprint } => snapshot(alloc, name, fingerprint),
        Change::DeleteEnv { env } => environment(alloc, env),
        Change::ForgetUnits { list } => units(alloc, list.as_slice()),
        Change::Migrate { .. } => moved(alloc, &world.book),
    }
}
