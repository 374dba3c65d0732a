// References, snapshots and environments with new fingerprints.
ghost use Rattle.std.specs.Prelude.{◌≡◌, ◌++◌, ◌∷◌, [], IfOk, map};
ghost use Rattle.mesh_base.specs.declared.snapshots.Ref.{Ref};
ghost use Rattle.mesh_house_book.specs.moves.Moves.{renames_of};
ghost use Rattle.mesh_house_book.specs.moves.Renames.{renamed, renamed_all, renamed_env, renamed_snapshot};

use crate::moves::moves::Moves;
use mesh_base::{Env, Ref, Refs, Snapshot};
use mesh_base_values::Name;
use mesh_list::{Duplicate, Memory, Seq, both, together};
use std::alloc::Global;

// The reference of this name and fingerprint, with its new fingerprint.
fn renamed(moves: &Moves, name: &Name, fingerprint: [u8; 32]) -> Result<Ref, Memory>
    ensures { IfOk result (λ made. made ≡ renamed (renames_of moves.now) (record { name = name.now; fingerprint = fingerprint })) }
{
    let own = Ref {
        name: name.copy()?,
        fingerprint,
    };
    match moves.find(&own) {
        None => Ok(own),
        Some(found) => {
            let fingerprint = found.rename.new;
            Ok(Ref {
                name: own.name,
                fingerprint,
            })
        }
    }
}

fn push_renamed(moves: &Moves, r: &Ref, made: &mut Refs) -> Result<(), Memory>
    ensures { IfOk result (λ _. made.new ≡ made.old ++ renamed (renames_of moves.now) r.now ∷ []) }
{
    made.push(renamed(moves, &r.name, r.fingerprint)?)
}

fn renamed_refs(moves: &Moves, refs: &Refs) -> Result<Refs, Memory>
    ensures { IfOk result (λ made. made ≡ map (renamed (renames_of moves.now)) refs.now) }
{
    let mut made = Seq::new(refs.alloc());
    for r in refs.as_slice() {
        push_renamed(moves, r, &mut made)?;
    }
    Ok(made)
}

fn renamed_snapshot(moves: &Moves, s: &Snapshot) -> Result<Snapshot, Memory>
    ensures { IfOk result (λ made. made ≡ renamed_snapshot (renames_of moves.now) s.now) }
{
    let ((own, object), (key, parents)) = together(
        both(&s.own, &s.object),
        together(
            renamed(moves, &s.name, s.fingerprint),
            renamed_refs(moves, &s.parents),
        ),
    )?;
    let fingerprint = key.fingerprint;
    Ok(Snapshot {
        name: key.name,
        fingerprint,
        own,
        parents,
        rank: s.rank,
        object,
        expires: s.expires,
    })
}

fn push_snapshot(moves: &Moves, s: &Snapshot, made: &mut Vec<Snapshot>) -> Result<(), Memory>
    ensures { IfOk result (λ _. made.new.items ≡ made.old.items ++ renamed_snapshot (renames_of moves.now) s.now ∷ []) }
{
    made.push(renamed_snapshot(moves, s)?)?;
    Ok(())
}

/// The snapshots with their new fingerprints, in their order.
pub(crate) fn renamed_snapshots(
    alloc: Global,
    moves: &Moves,
    snapshots: &[Snapshot],
) -> Result<Vec<Snapshot>, Memory>
    ensures { IfOk result (λ made. made.items ≡ renamed_all (renames_of moves.now) snapshots.now) }
{
    let mut made = Vec::new(alloc);
    for s in snapshots {
        push_snapshot(moves, s, &mut made)?;
    }
    Ok(made)
}

fn renamed_env(moves: &Moves, env: &Env) -> Result<Env, Memory>
    ensures { IfOk result (λ made. made ≡ renamed_env (renames_of moves.now) env.now) }
{
    let name = env.name.copy()?;
    let (list, previous) = together(
        renamed_refs(moves, &env.list),
        renamed_refs(moves, &env.previous),
    )?;
    Ok(Env {
        name,
        pending: env.pending,
        list,
        previous,
        expires: env.expires,
    })
}

fn push_env(moves: &Moves, env: &Env, made: &mut Vec<Env>) -> Result<(), Memory>
    ensures { IfOk result (λ _. made.new.items ≡ made.old.items ++ renamed_env (renames_of moves.now) env.now ∷ []) }
{
    made.push(renamed_env(moves, env)?)?;
    Ok(())
}

/// The environments with the new fingerprints of their lists.
pub(crate) fn renamed_envs(
    alloc: Global,
    moves: &Moves,
    environments: &[Env],
) -> Result<Vec<Env>, Memory>
    ensures { IfOk result (λ made. made.items ≡ map (renamed_env (renames_of moves.now)) environments.now) }
{
    let mut made = Vec::new(alloc);
    for env in environments {
        push_env(moves, env, &mut made)?;
    }
    Ok(made)
}
