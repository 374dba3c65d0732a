// What stays, by a walk from what stays for its own sake down to what it stands on.
ghost use Rattle.std.specs.Prelude.{◌≡◌, true, IfOk, OnOk};
ghost use Rattle.std.specs.List.{All};
ghost use Rattle.mesh_base.specs.declared.snapshots.Snapshot.{Snapshot};
ghost use Rattle.mesh_house_book.specs.WellFormed.{is_well_formed_book};
ghost use Rattle.mesh_spec_changes.specs.Environments.{is_over};
ghost use Rattle.mesh_spec_changes.specs.Kept.{is_kept};
ghost use Rattle.mesh_janitor.specs.janitor.Walk.{after, env_after, envs_after, layer, layers, stays};

use crate::snapshots::{add_refs, rank_limit, reference};
use mesh_base::{Env, Ref, Snapshot};
use mesh_house_book::Book;
use mesh_list::{Memory, Register};
use std::alloc::Global;

/// Whether an environment may go.
pub(crate) fn is_over(t: i64, expires: Option<i64>) -> bool
    ensures { result ≡ is_over t expires }
{
    match expires {
        None => false,
        Some(expires) => expires <= t,
    }
}

// What an environment has that stays.
fn add_env(t: i64, env: &Env, wanted: &mut Register<Ref>) -> Result<(), Memory>
    ensures { OnOk result (wanted.new ≡ env_after t env.now wanted.old) }
{
    if is_over(t, env.expires) {
        return Ok(());
    }
    add_refs(env.list.as_slice(), wanted)?;
    add_refs(env.previous.as_slice(), wanted)
}

// The same for some environments.
fn add_envs(t: i64, envs: &[Env], wanted: &mut Register<Ref>) -> Result<(), Memory>
    ensures { OnOk result (wanted.new ≡ envs_after t envs.now wanted.old) }
{
    for env in envs {
        add_env(t, env, wanted)?;
    }
    Ok(())
}

/// Whether a snapshot is young, or wanted.
pub(crate) fn stays(t: i64, wanted: &Register<Ref>, s: &Snapshot) -> Result<bool, Memory>
    ensures { IfOk result (λ yes. yes ≡ stays t wanted.now s.now) }
{
    let r = reference(s)?;
    Ok(s.expires > t || wanted.find(&r).is_some())
}

// Where a snapshot stays, what it stands on is wanted.
fn add_parents(t: i64, s: &Snapshot, wanted: &mut Register<Ref>) -> Result<(), Memory>
    ensures { OnOk result (wanted.new ≡ after t s.now wanted.old) }
{
    if stays(t, wanted, s)? {
        add_refs(s.parents.as_slice(), wanted)?;
    }
    Ok(())
}

// The same for the snapshots of one rank.
fn add_layer(t: i64, rank: u64, all: &[Snapshot], wanted: &mut Register<Ref>) -> Result<(), Memory>
    ensures { OnOk result (wanted.new ≡ layer t rank all.now wanted.old) }
{
    for s in all {
        if s.rank as u64 == rank {
            add_parents(t, s, wanted)?;
        }
    }
    Ok(())
}

// The same for all ranks below the limit, from the highest down.
fn add_layers(
    t: i64,
    limit: u64,
    all: &[Snapshot],
    wanted: &mut Register<Ref>,
) -> Result<(), Memory>
    ensures { OnOk result (wanted.new ≡ layers t limit all.now wanted.old) }
{
    let mut left = limit;
    while left > 0 {
        left -= 1;
        add_layer(t, left, all, wanted)?;
    }
    Ok(())
}

/// What is wanted by what stays. A snapshot of the book stays just where it is young or wanted.
pub(crate) fn wanted(alloc: Global, b: &Book, t: i64) -> Result<Register<Ref>, Memory>
    requires { is_well_formed_book b.now ≡ true }
    ensures { IfOk result (λ made. All (λ (s : Snapshot). stays t made s ≡ is_kept b.now t s) b.now.snapshots) }
{
    let mut wanted = Register::new(alloc);
    add_envs(t, b.environments.as_slice(), &mut wanted)?;
    let all = b.snapshots.as_slice();
    add_layers(t, rank_limit(all), all, &mut wanted)?;
    Ok(wanted)
}
