// Plans for environments.
ghost use Rattle.std.specs.Prelude.{◌≡◌, true, false, IfOk, IfErr};
ghost use Rattle.std.specs.Int.Signed.{lt_z};
ghost use Rattle.std.specs.Option.{option_copied};
ghost use Rattle.mesh_house_book.specs.WellFormed.{is_well_formed_book};
ghost use Rattle.mesh_spec_changes.specs.Planning.{compared_list};
ghost use Rattle.mesh_time_days.specs.Moments.{IsMoment};
ghost use Rattle.mesh_spec_changes.specs.listed.Listed.{is_list_fit};
ghost use Rattle.mesh_lineage.specs.Unsteady.{unsteady};
ghost use Rattle.mesh_spec_model.specs.Closures.{closures};
ghost use Rattle.mesh_plan.specs.Plans.{IsPlanOf, RefusesPlan, Unclashed, removed};

use crate::compared::{compared_list, prod};
use crate::computed::{Computed, compute};
use crate::entries::entries;
use crate::gone::removed;
use mesh_base::rules::{Plan, Project};
use mesh_base::{Entries, Refs, Restate};
use mesh_base_values::{Pairs, Str};
use mesh_category::versions::PlanFault;
use mesh_house_book::Book;
use mesh_lineage::unsteady;
use mesh_list::{Duplicate, Memory, Seq, both};
use std::alloc::Global;

// The models that are gone, and those that aren't steady.
fn noted(alloc: Global, p: &Project, b: &Book, base: &Refs) -> Result<(Pairs, Pairs), Memory>
    ensures gone { IfOk result (λ made. made.0 ≡ removed b.now base.now p.now.nodes) }
    ensures unsteady { IfOk result (λ made. made.1 ≡ unsteady (closures p.now.nodes)) }
{
    let gone = removed(alloc, b, base.as_slice(), p.as_slice())?;
    let unsteady = unsteady(p)?;
    Ok((gone, unsteady))
}

// A plan of these parts.
fn as_plan(
    p: &Project,
    env: &Str,
    t: i64,
    entries: Entries,
    noted: (Pairs, Pairs),
    computed: Computed,
) -> Result<Plan, Memory>
    ensures { IfOk result (λ made. made ≡ record { env = env.now; moment = t; run = false; project = p.now; entries = entries; removed = noted.0; unsteady = noted.1; dues = computed.dues; forgets = computed.forgets }) }
{
    let (env, project) = both(env, p)?;
    let (removed, unsteady) = noted;
    let Computed { forgets, dues } = computed;
    Ok(Plan {
        env,
        moment: t,
        run: false,
        project,
        entries,
        removed,
        unsteady,
        dues,
        forgets,
    })
}

// The plan of a project's models, which have these entries beside this list.
fn with_entries(
    alloc: Global,
    p: &Project,
    b: &Book,
    env: &Str,
    t: i64,
    again: Option<&Restate>,
    base: &Refs,
    entries: Entries,
) -> Result<Plan, PlanFault>
    requires book { is_well_formed_book b.now ≡ true }
    requires moment { IsMoment t }
    requires ahead { lt_z t b.now.moment ≡ false }
    requires list { base.now ≡ compared_list b.now env.now }
    requires fit { is_list_fit b.now.snapshots base.now ≡ true }
    requires entries { Unclashed b.now base.now p.now.nodes entries }
    ensures ok { IfOk result (λ made. IsPlanOf b.now p.now.nodes env.now t (option_copied again.entry) made) }
    ensures refused { IfErr result (λ fault. RefusesPlan b.now base.now p.now.nodes t fault) }
{
    match compute(alloc, p.as_slice(), entries.as_slice(), b, t, again) {
        Ok(computed) => {
            let noted = noted(alloc, p, b, base)?;
            let made = as_plan(p, env, t, entries, noted, computed)?;
            Ok(made)
        }
        Err(fault) => Err(fault),
    }
}

// The plan of a project beside this list.
fn beside(
    alloc: Global,
    p: &Project,
    b: &Book,
    env: &Str,
    t: i64,
    again: Option<&Restate>,
    base: &Refs,
) -> Result<Plan, PlanFault>
    requires book { is_well_formed_book b.now ≡ true }
    requires moment { IsMoment t }
    requires ahead { lt_z t b.now.moment ≡ false }
    requires list { base.now ≡ compared_list b.now env.now }
    requires fit { is_list_fit b.now.snapshots base.now ≡ true }
    ensures ok { IfOk result (λ made. IsPlanOf b.now p.now.nodes env.now t (option_copied again.entry) made) }
    ensures refused { IfErr result (λ fault. RefusesPlan b.now base.now p.now.nodes t fault) }
{
    match entries(alloc, p, b, base) {
        Ok(entries) => with_entries(alloc, p, b, env, t, again, base, entries),
        Err(fault) => Err(fault),
    }
}

/// What is planned of a project for an environment at a moment; `again` names a model to be computed again with its
/// descendants. The project is compared with the environment's list, or else production's. Faults are looked for in
/// this order: the moment, the fingerprints, the schedules.
pub fn plan(
    alloc: Global,
    p: &Project,
    b: &Book,
    env: &Str,
    t: i64,
    again: Option<&Restate>,
) -> Result<Plan, PlanFault>
    requires book { is_well_formed_book b.now ≡ true }
    requires moment { IsMoment t }
    ensures ok { IfOk result (λ made. IsPlanOf b.now p.now.nodes env.now t (option_copied again.entry) made) }
    ensures refused { IfErr result (λ fault. RefusesPlan b.now (compared_list b.now env.now) p.now.nodes t fault) }
{
    if t < b.moment {
        return Err(PlanFault::Moment {
            given: t,
            kept: b.moment,
        });
    }
    let none = Seq::new(alloc);
    let prod = prod(alloc)?;
    let base = compared_list(b, env, &prod, &none);
    beside(alloc, p, b, env, t, again, base)
}
