// The changes of a sweep.
ghost use Rattle.std.specs.Prelude.{◌≡◌, ◌++◌, ◌∷◌, [], Ok, IfOk, OnOk, not, true, map, length};
ghost use Rattle.std.specs.List.{All, filter, flat_map};
ghost use Rattle.mesh_base_values.specs.declared.values.Name.{Name};
ghost use Rattle.mesh_base.specs.Keys.{ref_name};
ghost use Rattle.mesh_base.specs.declared.snapshots.Snapshot.{Snapshot};
ghost use Rattle.mesh_house_book.specs.WellFormed.{is_well_formed_book};
ghost use Rattle.mesh_house.specs.declared.world.Change.{Change};
ghost use Rattle.mesh_house.specs.declared.world.Change.TheVariants.{DeleteEnv, DeleteSnapshot, DropObject, ForgetVersion, Moment, SetPending};
ghost use Rattle.mesh_spec_changes.specs.Changes.{drops, names_by_order};
ghost use Rattle.mesh_spec_changes.specs.Kept.{both_lists, gone_snapshots, gone_tables, is_kept, leaving, removes, sweeps};
ghost use Rattle.mesh_janitor.specs.janitor.Sweeping.{numbers};
ghost use Rattle.mesh_janitor.specs.janitor.Walk.{deletes, deletes_by, deletes_of, discards, forgets, goes, stays, with_names};

use crate::janitor::faults::Swept;
use crate::janitor::kept::{is_over, stays, wanted};
use crate::janitor::tables::gone_tables;
use crate::naming::{ordered_names, place_copy};
use crate::promote::push_drops;
use crate::snapshots::rank_limit;
use mesh_base::{Env, Ref, Snapshot};
use mesh_base_values::{Name, Str};
use mesh_house::{Change, Changes};
use mesh_house_book::Book;
use mesh_list::{Duplicate, Memory, Register, Seq, push_made};
use std::alloc::Global;

fn emptied(alloc: Global, env: &Env) -> Result<Change, Memory>
    ensures { IfOk result (λ change. change ≡ SetPending env.now.name [] env.now.expires) }
{
    Ok(Change::SetPending {
        env: env.name.copy()?,
        list: Seq::new(alloc),
        expires: env.expires,
    })
}

fn deleting(env: &Env) -> Result<Change, Memory>
    ensures { IfOk result (λ change. change ≡ DeleteEnv env.now.name) }
{
    Ok(Change::DeleteEnv {
        env: env.name.copy()?,
    })
}

fn forgetting(object: &Name) -> Result<Change, Memory>
    ensures { IfOk result (λ change. change ≡ ForgetVersion object.now) }
{
    Ok(Change::ForgetVersion {
        object: object.copy()?,
    })
}

fn discarding(object: &Name) -> Result<Change, Memory>
    ensures { IfOk result (λ change. change ≡ DropObject object.now) }
{
    Ok(Change::DropObject {
        object: object.copy()?,
    })
}

fn taking_out(s: &Snapshot) -> Result<Change, Memory>
    ensures { IfOk result (λ change. change ≡ DeleteSnapshot s.now.name s.now.fingerprint) }
{
    Ok(Change::DeleteSnapshot {
        name: s.name.copy()?,
        fingerprint: s.fingerprint,
    })
}

// The names of some models, by their order.
fn add_names(refs: &[Ref], names: &mut Register<Name>) -> Result<(), Memory>
    ensures { OnOk result (names.new ≡ with_names (map ref_name refs.now) names.old) }
{
    let mut left = refs.len();
    while left > 0 {
        left -= 1;
        place_copy(names, &refs[left].name)?;
    }
    Ok(())
}

// Those of the list, with others that stood before.
fn models(alloc: Global, env: &Env) -> Result<Register<Name>, Memory>
    ensures { IfOk result (λ names. names ≡ names_by_order (map ref_name (both_lists env.now))) }
{
    if env.previous.is_empty() {
        return ordered_names(alloc, env.list.as_slice());
    }
    let mut names = ordered_names(alloc, env.previous.as_slice())?;
    add_names(env.list.as_slice(), &mut names)?;
    Ok(names)
}

// The views of an environment go.
fn push_views(alloc: Global, changes: &mut Changes, env: &Env) -> Result<(), Memory>
    ensures { OnOk result (changes.new ≡ changes.old ++ map (drops env.now.name) (names_by_order (map ref_name (both_lists env.now)))) }
{
    let names = models(alloc, env)?;
    push_drops(alloc, changes, &env.name, names.as_slice())
}

// An environment goes with its views.
fn push_removes(alloc: Global, changes: &mut Changes, env: &Env) -> Result<(), Memory>
    ensures { OnOk result (changes.new ≡ changes.old ++ removes env.now) }
{
    push_made(changes, emptied(alloc, env))?;
    push_views(alloc, changes, env)?;
    push_made(changes, deleting(env))
}

// The environments that are over go.
fn push_leaving(alloc: Global, changes: &mut Changes, envs: &[Env], t: i64) -> Result<(), Memory>
    ensures { OnOk result (changes.new ≡ changes.old ++ flat_map removes (leaving t envs.now)) }
{
    for env in envs {
        if is_over(t, env.expires) {
            push_removes(alloc, changes, env)?;
        }
    }
    Ok(())
}

fn count_leaving(envs: &[Env], t: i64) -> u64
    ensures { result ≡ length (leaving t envs.now) }
{
    let mut count = 0;
    for env in envs {
        if is_over(t, env.expires) {
            count += 1;
        }
    }
    count
}

fn push_forgets(changes: &mut Changes, names: &[Name]) -> Result<(), Memory>
    ensures { OnOk result (changes.new ≡ changes.old ++ map forgets names.now) }
{
    for name in names {
        push_made(changes, forgetting(name))?;
    }
    Ok(())
}

fn push_discards(changes: &mut Changes, names: &[Name]) -> Result<(), Memory>
    ensures { OnOk result (changes.new ≡ changes.old ++ map discards names.now) }
{
    for name in names {
        push_made(changes, discarding(name))?;
    }
    Ok(())
}

// A snapshot of this rank goes where it doesn't stay.
fn push_delete(
    changes: &mut Changes,
    t: i64,
    wanted: &Register<Ref>,
    rank: u64,
    s: &Snapshot,
) -> Result<(), Memory>
    ensures { OnOk result (changes.new ≡ changes.old ++ deletes_of (goes t wanted.now) rank s.now) }
{
    if s.rank as u64 != rank {
        return Ok(());
    }
    if stays(t, wanted, s)? {
        return Ok(());
    }
    push_made(changes, taking_out(s))
}

// The same for the snapshots of one rank.
fn push_layer(
    changes: &mut Changes,
    t: i64,
    wanted: &Register<Ref>,
    rank: u64,
    all: &[Snapshot],
) -> Result<(), Memory>
    ensures { OnOk result (changes.new ≡ changes.old ++ flat_map (deletes_of (goes t wanted.now) rank) all.now) }
{
    for s in all {
        push_delete(changes, t, wanted, rank, s)?;
    }
    Ok(())
}

// The same for all ranks below a limit, from the highest down.
fn push_layers(
    changes: &mut Changes,
    t: i64,
    wanted: &Register<Ref>,
    limit: u64,
    all: &[Snapshot],
) -> Result<(), Memory>
    ensures { OnOk result (changes.new ≡ changes.old ++ deletes_by (goes t wanted.now) limit all.now) }
{
    let mut left = limit;
    while left > 0 {
        left -= 1;
        push_layer(changes, t, wanted, left, all)?;
    }
    Ok(())
}

// The snapshots that don't stay go, and their number is answered.
fn push_deletes(
    changes: &mut Changes,
    b: &Book,
    t: i64,
    wanted: &Register<Ref>,
) -> Result<u64, Memory>
    requires fit { is_well_formed_book b.now ≡ true }
    requires exact { All (λ (s : Snapshot). stays t wanted.now s ≡ is_kept b.now t s) b.now.snapshots }
    ensures { IfOk result (λ gone. (changes.new ≡ changes.old ++ map deletes (gone_snapshots b.now t)) × (gone ≡ length (gone_snapshots b.now t))) }
{
    let before = changes.len();
    let all = b.snapshots.as_slice();
    push_layers(changes, t, wanted, rank_limit(all), all)?;
    Ok((changes.len() - before) as u64)
}

// The moment, and the environments that go.
fn push_opening(alloc: Global, changes: &mut Changes, b: &Book, t: i64) -> Result<(), Memory>
    ensures { OnOk result (changes.new ≡ changes.old ++ Moment t ∷ flat_map removes (leaving t b.now.environments)) }
{
    changes.push(Change::Moment { t })?;
    push_leaving(alloc, changes, b.environments.as_slice(), t)
}

// The tables that go, and their number.
fn push_tables(
    alloc: Global,
    changes: &mut Changes,
    b: &Book,
    t: i64,
    wanted: &Register<Ref>,
) -> Result<u64, Memory>
    requires { All (λ (s : Snapshot). stays t wanted.now s ≡ is_kept b.now t s) b.now.snapshots }
    ensures { IfOk result (λ gone. (changes.new ≡ (changes.old ++ map forgets (gone_tables b.now t)) ++ map discards (gone_tables b.now t)) × (gone ≡ length (gone_tables b.now t))) }
{
    let gone = gone_tables(alloc, b, t, wanted)?;
    push_forgets(changes, gone.as_slice())?;
    push_discards(changes, gone.as_slice())?;
    Ok(gone.len() as u64)
}

/// What a sweep makes, and how much of each kind goes.
pub(crate) fn push_sweep(
    alloc: Global,
    changes: &mut Changes,
    b: &Book,
    t: i64,
) -> Result<Swept, Memory>
    requires fit { is_well_formed_book b.now ≡ true }
    requires empty { changes.old ≡ [] }
    ensures changes { OnOk result (changes.new ≡ sweeps b.now t) }
    ensures numbers { IfOk result (λ swept. swept ≡ numbers b.now t) }
{
    let wanted = wanted(alloc, b, t)?;
    push_opening(alloc, changes, b, t)?;
    let objects = push_tables(alloc, changes, b, t, &wanted)?;
    let snapshots = push_deletes(changes, b, t, &wanted)?;
    Ok(Swept {
        environments: count_leaving(b.environments.as_slice(), t),
        objects,
        snapshots,
        changes: changes.len() as u64,
    })
}
