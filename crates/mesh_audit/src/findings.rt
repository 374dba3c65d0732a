// What audits find.
ghost use Rattle.std.specs.Prelude.{◌≡◌, ◌++◌, ◌∷◌, [], IfOk, OnOk, IsTrue, map, Some};
ghost use Rattle.mesh_spec_query.specs.Sel.{Sel};
ghost use Rattle.mesh_spec_model.specs.Scratch.{no_bounds};
ghost use Rattle.mesh_house.specs.Sources.{are_plain};
ghost use Rattle.mesh_layer.specs.Lost.{first_of};
ghost use Rattle.mesh_layer.specs.Shows.{Finds, Shows};
ghost use Rattle.mesh_audit.specs.Audited.{finding, findings, found_by, gathered, lost_by, lost_for};
ghost use Rattle.mesh_audit.specs.Pools.{plain};

use crate::audits::{Audit, Audits, Finding, Findings};
use crate::tables::{Model, models_of, no_pool, refill};
use mesh_base::Input;
use mesh_base::rules::Plan;
use mesh_base_values::{Bounds, Rows};
use mesh_eval::exact_rows;
use mesh_house::Warehouse;
use mesh_layer::ShowFault;
use mesh_list::{Memory, Seq, both};
use std::alloc::Global;

/// An audit that has rows is found.
fn add_found(findings: &mut Findings, a: &Audit, rows: &Rows) -> Result<(), Memory>
    ensures { OnOk result (findings.new ≡ findings.old ++ finding a.now rows.now) }
{
    if rows.is_empty() {
        return Ok(());
    }
    let (model, name) = both(&a.model, &a.name)?;
    findings.push(Finding {
        model,
        name,
        rows: rows.len() as u64,
    })
}

/// Adds what an audit finds over these tables.
fn add_finding(
    alloc: Global,
    findings: &mut Findings,
    a: &Audit,
    tables: &[Input],
) -> Result<(), Memory>
    ensures { OnOk result (findings.new ≡ findings.old ++ finding a.now (Sel a.now.query tables.now no_bounds)) }
{
    let bounds = Bounds { start: 0, end: 0 };
    let rows = exact_rows(alloc, &a.query, tables, bounds)?;
    add_found(findings, a, &rows)
}

/// What audits find over what the objects of these models show.
fn found_over<W: Warehouse>(
    alloc: Global,
    house: &mut W,
    all: &[Model],
    audits: &[Audit],
) -> Result<Findings, ShowFault>
    ensures { Finds (λ w. IsTrue (are_plain w.sources))
        (λ w found. gathered (found_by w (map plain all.now)) audits.now ≡ Some found)
        (λ w. first_of (map (lost_by w (map plain all.now)) audits.now)) (W.told house.old) (W.told house.new) result }
{
    let mut pool = no_pool(alloc);
    let mut findings = Seq::new(alloc);
    for a in audits {
        refill(alloc, house, all, &a.query, &mut pool)?;
        add_finding(alloc, &mut findings, a, pool.tables.as_slice())?;
    }
    Ok(findings)
}

/// What audits find over what the objects of a plan show: a finding for each audit that has rows, in the order of the
/// audits. A relation that is no model of the plan's project, and a CTE that doesn't stand earlier, has neither columns
/// nor rows.
pub fn audit<W: Warehouse>(
    alloc: Global,
    house: &mut W,
    p: &Plan,
    a: &Audits,
) -> Result<Findings, ShowFault>
    ensures { Shows (findings p.now a.now) (lost_for p.now a.now) (W.told house.old) (W.told house.new) result }
{
    let all = models_of(alloc, p.project.as_slice(), p.entries.as_slice())?;
    let found = found_over(alloc, house, all.as_slice(), a.as_slice())?;
    Ok(found)
}
