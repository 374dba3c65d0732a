// The changes of a promotion.
ghost use Rattle.std.specs.Prelude.{◌≡◌, ◌++◌, ◌∷◌, [], IfOk, OnOk, IsTrue, map, Ok};
ghost use Rattle.mesh_house.specs.declared.world.Change.{Change};
ghost use Rattle.mesh_house.specs.declared.world.Change.TheVariants.{SetPending, PointView, DropView, Finalize};
ghost use Rattle.mesh_house_book.specs.WellFormed.{is_moment};
ghost use Rattle.mesh_spec_changes.specs.Changes.{drops, expiry, points};
ghost use Rattle.mesh_spec_changes.specs.Environments.{view_in};
ghost use Rattle.mesh_janitor.specs.promote.Promotion.{paired, promotion};

use crate::promote::gone::left_out;
use mesh_base::{Ref, Refs};
use mesh_base_values::{LIFETIME, Name, Names, Str, same_text};
use mesh_house::{Change, Changes};
use mesh_house_book::Book;
use mesh_layer::view_in;
use mesh_list::{Duplicate, Memory, Seq, both, push_made, together};
use std::alloc::Global;

/// Production stays, and another environment stays for a week.
fn expiry(env: &Str, t: i64) -> Option<i64>
    requires { IsTrue (is_moment t) }
    ensures { result ≡ expiry env.now t }
{
    if same_text(env.as_slice(), b"prod") {
        None
    } else {
        Some(t + LIFETIME)
    }
}

fn setting(env: &Str, list: &Refs, t: i64) -> Result<Change, Memory>
    requires { IsTrue (is_moment t) }
    ensures { IfOk result (λ change. change ≡ SetPending env.now list.now (expiry env.now t)) }
{
    let (name, list) = both(env, list)?;
    Ok(Change::SetPending {
        env: name,
        list,
        expires: expiry(env, t),
    })
}

fn pointing(alloc: Global, env: &Str, model: &Name, object: &Name) -> Result<Change, Memory>
    ensures { IfOk result (λ change. change ≡ PointView (view_in env.now model.now) object.now) }
{
    let (view, target) = together(view_in(alloc, env, model), object.copy())?;
    Ok(Change::PointView { view, target })
}

fn dropping(alloc: Global, env: &Str, model: &Name) -> Result<Change, Memory>
    ensures { IfOk result (λ change. change ≡ drops env.now model.now) }
{
    Ok(Change::DropView {
        view: view_in(alloc, env, model)?,
    })
}

fn finalizing(env: &Str) -> Result<Change, Memory>
    ensures { IfOk result (λ change. change ≡ Finalize env.now) }
{
    Ok(Change::Finalize { env: env.copy()? })
}

/// The view of each model, by the object that has its rows.
fn push_points(
    alloc: Global,
    changes: &mut Changes,
    env: &Str,
    list: &[Ref],
    objects: &[Name],
) -> Result<(), Memory>
    ensures { OnOk result (changes.new ≡ changes.old ++ map (points env.now) (paired list.now objects.now)) }
{
    for (i, model) in list.iter().enumerate() {
        let Some(object) = objects.get(i) else {
            return Ok(());
        };
        push_made(changes, pointing(alloc, env, &model.name, object))?;
    }
    Ok(())
}

/// The changes that take the views of these models out of an environment.
pub fn push_drops(
    alloc: Global,
    changes: &mut Changes,
    env: &Str,
    names: &[Name],
) -> Result<(), Memory>
    ensures { OnOk result (changes.new ≡ changes.old ++ map (drops env.now) names.now) }
{
    for name in names {
        push_made(changes, dropping(alloc, env, name))?;
    }
    Ok(())
}

// The views of what the environment loses go, and only then it is finalized.
fn push_end(alloc: Global, changes: &mut Changes, env: &Str, gone: &[Name]) -> Result<(), Memory>
    ensures { OnOk result (changes.new ≡ changes.old ++ (map (drops env.now) gone.now ++ Finalize env.now ∷ [])) }
{
    push_drops(alloc, changes, env, gone)?;
    push_made(changes, finalizing(env))
}

// All of them, where these models go.
fn push_steps(
    alloc: Global,
    changes: &mut Changes,
    env: &Str,
    list: &Refs,
    objects: &Names,
    gone: &[Name],
    t: i64,
) -> Result<(), Memory>
    requires { IsTrue (is_moment t) }
    ensures { OnOk result (changes.new ≡ changes.old ++ SetPending env.now list.now (expiry env.now t) ∷ (map (points env.now) (paired list.now objects.now) ++ (map (drops env.now) gone.now ++ Finalize env.now ∷ []))) }
{
    push_made(changes, setting(env, list, t))?;
    push_points(alloc, changes, env, list.as_slice(), objects.as_slice())?;
    push_end(alloc, changes, env, gone)
}

/// The changes that give the environment its list and its views.
pub(crate) fn promotion(
    alloc: Global,
    b: &Book,
    env: &Str,
    list: &Refs,
    objects: &Names,
    t: i64,
) -> Result<Changes, Memory>
    requires { IsTrue (is_moment t) }
    ensures { IfOk result (λ changes. changes ≡ promotion b.now env.now list.now objects.now t) }
{
    let gone = left_out(alloc, b, env, list.as_slice())?;
    let mut changes = Seq::new(alloc);
    push_steps(alloc, &mut changes, env, list, objects, gone.as_slice(), t)?;
    Ok(changes)
}
