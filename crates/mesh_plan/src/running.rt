// Plans of runs.
ghost use Rattle.std.specs.Prelude.{◌≡◌, [], true, false, IfOk, IfErr, IsSome, Some};
ghost use Rattle.std.specs.List.{AllZip, Contains};
ghost use Rattle.std.specs.Int.Signed.{lt_z};
ghost use Rattle.mesh_base.specs.declared.snapshots.Node.{Node};
ghost use Rattle.mesh_house_book.specs.WellFormed.{is_well_formed_book, snapshot_at};
ghost use Rattle.mesh_spec_changes.specs.Environments.{env_at};
ghost use Rattle.mesh_time_days.specs.Moments.{IsMoment};
ghost use Rattle.mesh_spec_changes.specs.due.Versions.{node_ref};
ghost use Rattle.mesh_plan.specs.Entries.{IsRecorded};
ghost use Rattle.mesh_plan.specs.Running.{IsRunIn, IsRunOf, RefusesRun, RefusesRunOf};

use crate::computed::{Computed, compute};
use crate::entries::entry_of;
use mesh_base::rules::{Plan, Project};
use mesh_base::{Category, Entries, Entry, Env, Node, Ref};
use mesh_base_values::Str;
use mesh_category::versions::{PlanFault, project_of};
use mesh_house_book::Book;
use mesh_list::{Duplicate, Memory, Seq};
use std::alloc::Global;

fn node_ref(node: &Node) -> Result<Ref, Memory>
    ensures { IfOk result (λ r. r ≡ node_ref node.now) }
{
    Ok(Ref {
        name: node.own.name.copy()?,
        fingerprint: node.fingerprint,
    })
}

// The entry of a model that the book knows.
fn kept_entry(b: &Book, node: &Node) -> Result<Entry, Memory>
    requires { IsSome (snapshot_at b.now.snapshots (node_ref node.now)) }
    ensures { IfOk result (λ entry. IsRecorded b.now node.now entry) }
{
    let r = node_ref(node)?;
    let s = b.snapshots.find(&r).unwrap();
    let entry = entry_of(b, Category::Unchanged, &s.object)?;
    Ok(entry)
}

fn kept_entries(alloc: Global, b: &Book, nodes: &[Node]) -> Result<Entries, Memory>
    requires { (n : Node) → Contains nodes.now n → IsSome (snapshot_at b.now.snapshots (node_ref n)) }
    ensures { IfOk result (λ entries. AllZip (IsRecorded b.now) nodes.now entries) }
{
    let mut entries = Seq::new(alloc);
    for node in nodes {
        entries.push(kept_entry(b, node)?)?;
    }
    Ok(entries)
}

fn as_plan(
    alloc: Global,
    env: &Str,
    t: i64,
    project: Project,
    entries: Entries,
    computed: Computed,
) -> Result<Plan, Memory>
    ensures { IfOk result (λ made. made ≡ record { env = env.now; moment = t; run = true; project = project; entries = entries; removed = []; unsteady = []; dues = computed.dues; forgets = computed.forgets }) }
{
    let env = env.copy()?;
    let Computed { forgets, dues } = computed;
    Ok(Plan {
        env,
        moment: t,
        run: true,
        project,
        entries,
        removed: Seq::new(alloc),
        unsteady: Seq::new(alloc),
        dues,
        forgets,
    })
}

// The plan of a run of this environment.
fn run_of(alloc: Global, b: &Book, env: &Str, e: &Env, t: i64) -> Result<Plan, PlanFault>
    requires book { is_well_formed_book b.now ≡ true }
    requires moment { IsMoment t }
    requires ahead { lt_z t b.now.moment ≡ false }
    requires known { env_at b.now env.now ≡ Some e.now }
    requires settled { e.now.pending ≡ false }
    ensures ok { IfOk result (λ made. IsRunOf b.now env.now e.now t made) }
    ensures refused { IfErr result (λ fault. RefusesRunOf b.now e.now t fault) }
{
    let project = project_of(alloc, b, &e.list)?;
    let entries = kept_entries(alloc, b, project.as_slice())?;
    match compute(alloc, project.as_slice(), entries.as_slice(), b, t, None) {
        Ok(computed) => {
            let made = as_plan(alloc, env, t, project, entries, computed)?;
            Ok(made)
        }
        Err(fault) => Err(fault),
    }
}

/// What is due at a moment of the models that an environment lists. Faults are looked for in this order: the moment,
/// whether there is such an environment, whether it is pending, the schedules.
pub fn plan_run(alloc: Global, b: &Book, env: &Str, t: i64) -> Result<Plan, PlanFault>
    requires book { is_well_formed_book b.now ≡ true }
    requires moment { IsMoment t }
    ensures ok { IfOk result (λ made. IsRunIn b.now env.now (env_at b.now env.now) t made) }
    ensures refused { IfErr result (λ fault. RefusesRun b.now (env_at b.now env.now) t fault) }
{
    if t < b.moment {
        return Err(PlanFault::Moment {
            given: t,
            kept: b.moment,
        });
    }
    match b.environments.find(env) {
        None => Err(PlanFault::EnvUnknown),
        Some(e) => {
            if e.pending {
                return Err(PlanFault::EnvPending);
            }
            run_of(alloc, b, env, e, t)
        }
    }
}
