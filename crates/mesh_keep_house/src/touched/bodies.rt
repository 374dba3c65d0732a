// The body of what a world has of a thing, where it has one.
ghost use Rattle.std.specs.Prelude.{◌≡◌, true, IfOk};
ghost use Rattle.mesh_keep_house.specs.declared.touched.things.Thing.TheVariants as things;
ghost use Rattle.mesh_keep_house.specs.touched.Touched.{body_in, value_fits};

use crate::bodies::{env_body, object_body, snapshot_body, source_body, version_body, view_body};
use mesh_base::Ref;
use mesh_base_values::{Name, Str};
use mesh_house::World;
use mesh_list::Memory;
use std::alloc::Global;

pub(crate) fn snapshot_of(alloc: Global, world: &World, key: &Ref) -> Result<Option<Str>, Memory>
    ensures body { IfOk result (λ made. made ≡ body_in world.now (things.Snapshot key.now)) }
    ensures fits { IfOk result (λ _. value_fits world.now (things.Snapshot key.now) ≡ true) }
{
    match world.book.snapshots.find(key) {
        Some(snapshot) => Ok(Some(snapshot_body(alloc, snapshot)?)),
        None => Ok(None),
    }
}

pub(crate) fn version_of(alloc: Global, world: &World, key: &Name) -> Result<Option<Str>, Memory>
    ensures body { IfOk result (λ made. made ≡ body_in world.now (things.Version key.now)) }
    ensures fits { IfOk result (λ _. value_fits world.now (things.Version key.now) ≡ true) }
{
    match world.book.versions.find(key) {
        Some(version) => Ok(Some(version_body(alloc, version)?)),
        None => Ok(None),
    }
}

pub(crate) fn env_of(alloc: Global, world: &World, key: &Str) -> Result<Option<Str>, Memory>
    ensures body { IfOk result (λ made. made ≡ body_in world.now (things.Env key.now)) }
    ensures fits { IfOk result (λ _. value_fits world.now (things.Env key.now) ≡ true) }
{
    match world.book.environments.find(key) {
        Some(env) => Ok(Some(env_body(alloc, env)?)),
        None => Ok(None),
    }
}

pub(crate) fn view_of(alloc: Global, world: &World, key: &Name) -> Result<Option<Str>, Memory>
    ensures { IfOk result (λ made. made ≡ body_in world.now (things.View key.now)) }
{
    match world.views.find(key) {
        Some(view) => Ok(Some(view_body(alloc, view)?)),
        None => Ok(None),
    }
}

pub(crate) fn object_of(alloc: Global, world: &World, key: &Name) -> Result<Option<Str>, Memory>
    ensures body { IfOk result (λ made. made ≡ body_in world.now (things.Object key.now)) }
    ensures fits { IfOk result (λ _. value_fits world.now (things.Object key.now) ≡ true) }
{
    match world.objects.find(key) {
        Some(object) => Ok(Some(object_body(alloc, object)?)),
        None => Ok(None),
    }
}

pub(crate) fn source_of(alloc: Global, world: &World, key: &Name) -> Result<Option<Str>, Memory>
    ensures body { IfOk result (λ made. made ≡ body_in world.now (things.Source key.now)) }
    ensures fits { IfOk result (λ _. value_fits world.now (things.Source key.now) ≡ true) }
{
    match world.sources.find(key) {
        Some(source) => Ok(Some(source_body(alloc, source)?)),
        None => Ok(None),
    }
}
