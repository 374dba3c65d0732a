// `trace` and `impact`.
ghost use Rattle.std.specs.Prelude.{◌≡◌, ◌++◌, IfOk, Ok, OnOk};
ghost use Rattle.mesh_io.specs.Told.{FolderTold};
ghost use Rattle.mesh_cli_apply.specs.Loaded.{LoadsProject};
ghost use Rattle.mesh_cli_apply.specs.Tracing.{ImpactGives, ImpactOf, ReadsFolder, Says, TraceGives, TraceOf, column_part, trace_line, traces_text};

use crate::columns::{found, model_columns, or_declared};
use crate::planned::loaded;
use mesh_base::Decl;
use mesh_base::rules::Project;
use mesh_base_values::{Name, Str};
use mesh_cli_answer::of_load;
use mesh_cli_print::faults::{put, put_name};
use mesh_cli_print::printed::Refusal;
use mesh_io::Folder;
use mesh_list::{Memory, Seq};
use mesh_project_files::read_sources;
use mesh_trace::Trace;
use std::alloc::Global;

fn put_column(out: &mut Vec<u8>, column: &Option<Str>) -> Result<(), Memory>
    ensures { OnOk result (out.new.items ≡ out.old.items ++ column_part column.now) }
{
    match column {
        None => Ok(()),
        Some(column) => {
            put(out, b" ")?;
            put(out, column.as_slice())
        }
    }
}

fn put_trace(out: &mut Vec<u8>, t: &Trace) -> Result<(), Memory>
    ensures { OnOk result (out.new.items ≡ out.old.items ++ trace_line t.now) }
{
    put_name(out, &t.relation)?;
    put_column(out, &t.column)?;
    put(out, b"\n")
}

fn put_traces(out: &mut Vec<u8>, traces: &[Trace]) -> Result<(), Memory>
    ensures { OnOk result (out.new.items ≡ out.old.items ++ traces_text traces.now) }
{
    for t in traces {
        put_trace(out, t)?;
    }
    Ok(())
}

/// A line for each.
fn traces_text(alloc: Global, traces: &[Trace]) -> Result<Str, Memory>
    ensures { IfOk result (λ text. text ≡ traces_text traces.now) }
{
    let mut out = Vec::new(alloc);
    put_traces(&mut out, traces)?;
    Ok(Seq::from_vec(out))
}

fn traced(alloc: Global, project: &Project, model: &Name, column: &Str) -> Result<Str, Refusal>
    ensures { Says (TraceOf project.now.nodes model.now column.now) result }
{
    let columns = model_columns(project.as_slice(), model)?;
    found(alloc, model, column, &columns)?;
    let traces = mesh_trace::trace(project, model, column)?;
    let text = traces_text(alloc, traces.as_slice())?;
    Ok(text)
}

fn affected(
    alloc: Global,
    sources: &[Decl],
    project: &Project,
    name: &Name,
    column: &Str,
) -> Result<Str, Refusal>
    ensures { Says (ImpactOf sources.now project.now.nodes name.now column.now) result }
{
    let columns = model_columns(project.as_slice(), name)?;
    let there = or_declared(columns, sources, name)?;
    found(alloc, name, column, &there)?;
    let traces = mesh_trace::impact(project, name, column)?;
    let text = traces_text(alloc, traces.as_slice())?;
    Ok(text)
}

// The same beside the sources that the project declares.
fn affected_beside<F: Folder>(
    alloc: Global,
    folder: &mut F,
    dir: &Str,
    project: &Project,
    name: &Name,
    column: &Str,
) -> Result<Str, Refusal>
    ensures { (before : FolderTold) → LoadsProject dir.now before (F.told folder.old) (Ok project.now) → ReadsFolder (λ files. ImpactGives files dir.now name.now column.now) before (F.told folder.new) result }
{
    match read_sources(alloc, folder, dir) {
        Err(fault) => Err(of_load(fault)),
        Ok(sources) => affected(alloc, sources.as_slice(), project, name, column),
    }
}

/// `trace`: the columns that a column of a model hangs on, in the project in `dir`, and the relations of which no
/// column but the rows count, a line for each. Nothing but the folder is asked.
pub fn trace<F: Folder>(
    alloc: Global,
    folder: &mut F,
    dir: &Str,
    model: &Name,
    column: &Str,
) -> Result<Str, Refusal>
    ensures { ReadsFolder (λ files. TraceGives files dir.now model.now column.now) (F.told folder.old) (F.told folder.new) result }
{
    match loaded(alloc, folder, dir) {
        Err(refusal) => Err(refusal),
        Ok(project) => traced(alloc, &project, model, column),
    }
}

/// `impact`: the columns of models that hang on a column of a model or a declared source, in the project in `dir`, a
/// line for each. Nothing but the folder is asked.
pub fn impact<F: Folder>(
    alloc: Global,
    folder: &mut F,
    dir: &Str,
    name: &Name,
    column: &Str,
) -> Result<Str, Refusal>
    ensures { ReadsFolder (λ files. ImpactGives files dir.now name.now column.now) (F.told folder.old) (F.told folder.new) result }
{
    match loaded(alloc, folder, dir) {
        Err(refusal) => Err(refusal),
        Ok(project) => affected_beside(alloc, folder, dir, &project, name, column),
    }
}
