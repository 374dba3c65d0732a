// `ingest`: a declared source is loaded from a file of the project.
ghost use Rattle.std.specs.Prelude.{◌≡◌, ◌⊎◌, ◌↔◌, ◌∷◌, [], true, Ok, IfOk, IsErrOf, IsTrue, length};
ghost use Rattle.mesh_list.specs.Counts.{Rose};
ghost use Rattle.mesh_house.specs.declared.world.Change.TheVariants.{Load};
ghost use Rattle.mesh_cli_answer.specs.Answers.{Answers, IsAsked};
ghost use Rattle.mesh_cli_print.specs.printed.Reports.{ingested_line};
ghost use Rattle.mesh_cli_print.specs.declared.printed.refusals.Refusal.TheVariants.{Input, Memory as NoMemory};
ghost use Rattle.mesh_cli_look.specs.upkeep.Ingesting.{Fits, IngestGives, IngestMakes, LoadGives, LoadMakes, MayLoad, other_shape};

use crate::upkeep::sourced::source_rows;
use mesh_base_values::{Columns, Name, Seed, Str};
use mesh_cli_answer::{as_refusal, of_load};
use mesh_cli_print::faults::name_text;
use mesh_cli_print::printed::{Refusal, ingested_line};
use mesh_house::{Change, Warehouse};
use mesh_io::Folder;
use mesh_list::{Duplicate, Memory, Same};
use mesh_query_tokens::FaultKind;
use std::alloc::Global;

fn shape_fault(alloc: Global, name: &Name) -> Result<Refusal, Memory>
    ensures { IfOk result (λ r. r ≡ other_shape name.now) }
{
    let file = name_text(alloc, name)?;
    let name = name.copy()?;
    Ok(Refusal::Model {
        file,
        at: 0,
        kind: FaultKind::SourceShape { name },
    })
}

fn other_shape(alloc: Global, name: &Name) -> Refusal
    ensures { (result ≡ NoMemory) ⊎ (result ≡ other_shape name.now) }
{
    match shape_fault(alloc, name) {
        Ok(refusal) => refusal,
        Err(_) => Refusal::Memory,
    }
}

// Whether the columns of the source that is there, if one is, let rows be added.
fn is_alike(there: &Option<Columns>, columns: &Columns) -> bool
    ensures { IsTrue result ↔ MayLoad true there.now columns.now }
{
    match there {
        None => true,
        Some(there) => there.same(columns),
    }
}

// Whether rows may be added to the source.
fn fits_there<W: Warehouse>(
    alloc: Global,
    house: &mut W,
    name: &Name,
    columns: &Columns,
) -> Result<(), Refusal>
    ensures { Fits name.now columns.now true (W.told house.old) (W.told house.new) result }
{
    match house.head(alloc, name) {
        Err(fail) => Err(as_refusal(fail)),
        Ok(there) => {
            if is_alike(&there, columns) {
                Ok(())
            } else {
                Err(other_shape(alloc, name))
            }
        }
    }
}

// Whether the source may be loaded: any may where its rows are replaced.
fn fits<W: Warehouse>(
    alloc: Global,
    house: &mut W,
    name: &Name,
    columns: &Columns,
    append: bool,
) -> Result<(), Refusal>
    ensures { Fits name.now columns.now append (W.told house.old) (W.told house.new) result }
{
    if append {
        fits_there(alloc, house, name, columns)
    } else {
        Ok(())
    }
}

// The change, and the line that is printed when it is made.
fn load_of(alloc: Global, name: &Name, source: Seed, append: bool) -> Result<(Change, Str), Memory>
    ensures { IfOk result (λ made. made ≡ (Load name.now source.columns source.rows append, ingested_line name.now (length source.rows))) }
{
    let line = ingested_line(alloc, name, source.rows.len() as u64)?;
    let name = name.copy()?;
    let Seed { columns, rows } = source;
    let change = Change::Load {
        name,
        columns,
        rows,
        keep: append,
    };
    Ok((change, line))
}

// Makes one change, and hands its line on.
fn made<W: Warehouse>(
    alloc: Global,
    house: &mut W,
    change: &Change,
    line: Str,
) -> Result<Str, Refusal>
    ensures { Answers ⊥ (λ w list. list ≡ change.now ∷ []) (λ w answer. answer ≡ Ok line) (W.told house.old) (W.told house.new) result }
{
    match house.change(alloc, change) {
        Err(fail) => Err(as_refusal(fail)),
        Ok(()) => Ok(line),
    }
}

fn put<W: Warehouse>(
    alloc: Global,
    house: &mut W,
    name: &Name,
    source: Seed,
    append: bool,
) -> Result<Str, Refusal>
    ensures { Answers ⊥ (LoadMakes name.now source append) (λ w answer. answer ≡ Ok (ingested_line name.now (length source.rows))) (W.told house.old) (W.told house.new) result }
{
    match load_of(alloc, name, source, append) {
        Err(_) => Err(Refusal::Memory),
        Ok((change, line)) => made(alloc, house, &change, line),
    }
}

fn load<W: Warehouse>(
    alloc: Global,
    house: &mut W,
    name: &Name,
    source: Seed,
    append: bool,
) -> Result<Str, Refusal>
    ensures { Answers ⊥ (LoadMakes name.now source append) (LoadGives name.now source append) (W.told house.old) (W.told house.new) result }
{
    match fits(alloc, house, name, &source.columns, append) {
        Err(refusal) => Err(refusal),
        Ok(()) => put(alloc, house, name, source, append),
    }
}

/// `ingest`: a declared source gets the rows of a file of the project in `dir`, whose columns are the declared ones
/// in any order, instead of its old rows, or behind them where `append` says so. The answer is the line that is
/// printed when it is done.
pub fn ingest<W: Warehouse, F: Folder>(
    alloc: Global,
    folder: &mut F,
    house: &mut W,
    dir: &Str,
    name: &Name,
    file: &Str,
    append: bool,
) -> Result<Str, Refusal>
    ensures answers { Answers (Rose (F.told folder.old).faults (F.told folder.new).faults) (IngestMakes (F.told folder.old).files dir.now name.now file.now append) (IngestGives (F.told folder.old).files dir.now name.now file.now append) (W.told house.old) (W.told house.new) result }
    ensures folder { IsAsked (F.told folder.old) (F.told folder.new) }
{
    match source_rows(alloc, folder, dir, name, file) {
        Err(fault) => Err(of_load(fault)),
        Ok(source) => load(alloc, house, name, source, append),
    }
}
