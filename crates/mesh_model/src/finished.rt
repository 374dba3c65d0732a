// What follows from absent properties.
ghost use Rattle.std.specs.Prelude.{◌≡◌, codes, IfOk};
ghost use Rattle.std.specs.Option.{unwrap_or};
ghost use Rattle.mesh_query_tokens.specs.bounds.Brackets.{or_fault};
ghost use Rattle.mesh_model_statement.specs.Faults.{bad};
ghost use Rattle.mesh_query_tokens.specs.Gives.{Gives};
ghost use Rattle.mesh_model.specs.ModelTexts.{kind_of, is_timed, started, cron_or_daily, unit_of, settled, finished};

use crate::model::Whole;
use mesh_base_values::{Cron, Kind, Name, Str, Unit};
use mesh_list::{Duplicate, Memory};
use mesh_model_statement::model::ModelText;
use mesh_model_statement::{KindText, Parts};
use mesh_query_tokens::{FaultKind, ReadFault};
use mesh_time::read_cron;
use std::alloc::Global;

fn kind_of(found: Option<KindText>) -> KindText
    ensures { result ≡ kind_of found }
{
    match found {
        Some(kind) => kind,
        None => KindText {
            kind: Kind::View,
            path: None,
            path_at: 0,
        },
    }
}

fn is_timed(kind: &Kind) -> bool
    ensures { result ≡ is_timed kind.now }
{
    match kind {
        Kind::Incremental { .. } => true,
        _ => false,
    }
}

// The start, which an incremental model has.
fn started(kind: &Kind, start: Option<i32>) -> Result<Option<i32>, ReadFault>
    ensures { Gives result (started kind.now start) }
{
    if is_timed(kind) && !start.is_some() {
        return Err(ReadFault::Fault {
            at: 0,
            kind: FaultKind::NoStart,
        });
    }
    Ok(start)
}

fn cron_or_daily(cron: Option<Cron>) -> Result<Cron, ReadFault>
    ensures { Gives result (cron_or_daily cron) }
{
    match cron {
        Some(found) => Ok(found),
        None => match read_cron(b"@daily") {
            Ok(daily) => Ok(daily),
            Err(fault) => Err(ReadFault::Fault {
                at: 0,
                kind: FaultKind::BadCron { fault },
            }),
        },
    }
}

fn unit_of(cron: &Cron) -> Unit
    ensures { result ≡ unit_of cron.now }
{
    mesh_time::unit_of(cron)
}

fn unit_or_its(unit: Option<Unit>, cron: &Cron) -> Unit
    ensures { result ≡ unwrap_or unit (unit_of cron.now) }
{
    match unit {
        Some(found) => found,
        None => unit_of(cron),
    }
}

fn no_name(alloc: Global) -> Result<ReadFault, Memory>
    ensures { IfOk result (λ fault. fault ≡ bad 0 (codes "name")) }
{
    let name = u8::copy_items(alloc, b"name")?;
    Ok(ReadFault::Fault {
        at: 0,
        kind: FaultKind::BadProperty { name },
    })
}

fn named(alloc: Global, name: Option<Name>) -> Result<Name, ReadFault>
    ensures { Gives result (or_fault (bad 0 (codes "name")) name) }
{
    match name {
        Some(found) => Ok(found),
        None => Err(no_name(alloc)?),
    }
}

// The path of a model's file, its name, its start and its cron.
fn settled(
    alloc: Global,
    file: &Str,
    name: Option<Name>,
    kind: &Kind,
    start: Option<i32>,
    cron: Option<Cron>,
) -> Result<(Str, Name, Option<i32>, Cron), ReadFault>
    ensures { Gives result (settled file.now name kind.now start cron) }
{
    let name = match named(alloc, name) {
        Ok(name) => name,
        Err(fault) => return Err(fault),
    };
    let start = match started(kind, start) {
        Ok(start) => start,
        Err(fault) => {
            drop(name);
            return Err(fault);
        }
    };
    let cron = match cron_or_daily(cron) {
        Ok(cron) => cron,
        Err(fault) => {
            drop(name);
            return Err(fault);
        }
    };
    match file.copy() {
        Ok(file) => Ok((file, name, start, cron)),
        Err(_) => {
            drop(name);
            Err(ReadFault::Memory)
        }
    }
}

/// The model of a whole file, which wants a name and, where it is incremental, a start.
pub(crate) fn finished(alloc: Global, file: &Str, whole: Whole) -> Result<ModelText, ReadFault>
    ensures { Gives result (finished file.now whole) }
{
    let Whole { parts, query } = whole;
    let Parts {
        seen: _,
        name,
        kind,
        cron,
        unit,
        start,
        columns,
        audits,
    } = parts;
    let KindText {
        kind,
        path,
        path_at,
    } = kind_of(kind);
    match settled(alloc, file, name, &kind, start, cron) {
        Ok((file, name, start, cron)) => Ok(ModelText {
            file,
            name,
            kind,
            unit: unit_or_its(unit, &cron),
            cron,
            start,
            columns,
            path,
            path_at,
            audits,
            query,
        }),
        Err(fault) => {
            drop(kind);
            drop(columns);
            drop(path);
            drop(audits);
            drop(query);
            Err(fault)
        }
    }
}
