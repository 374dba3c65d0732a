// The rows that a file of the project has for a declared source.
ghost use Rattle.std.specs.Prelude.{◌≡◌, IfOk, IsErrOf};
ghost use Rattle.std.specs.Option.{option_copied};
ghost use Rattle.std.specs.Ordering.{is_eq};
ghost use Rattle.mesh_base_values.specs.Names.{name_cmp};
ghost use Rattle.mesh_cli_print.specs.faults.Lines.{name_text};
ghost use Rattle.mesh_project_files.specs.Loading.{Asks, Gives};
ghost use Rattle.mesh_project_files.specs.declared.faults.LoadFault.TheVariants as fault;
ghost use Rattle.mesh_cli_look.specs.upkeep.Sourced.{columns_named, declared_as, file_rows, in_order, seed_in, source_in, source_rows, undeclared};

use mesh_base::Decl;
use mesh_base_values::{Columns, LARGEST_SOURCE, Name, Seed, Str};
use mesh_cli_print::faults::name_text;
use mesh_io::Folder;
use mesh_layer::picked_rows;
use mesh_list::{Duplicate, Memory};
use mesh_model_csv::seeds::{bad_row, read_seed};
use mesh_project_files::{LoadFault, in_file, read_sources, read_within};
use mesh_query_tokens::FaultKind;
use std::alloc::Global;

fn is_named(source: &Decl, name: &Name) -> bool
    ensures { result ≡ is_eq (name_cmp source.now.name name.now) }
{
    source.name.compare(name).is_eq()
}

/// The declared source of that name.
fn declared_as<'a>(sources: &'a [Decl], name: &Name) -> Option<&'a Decl>
    ensures { option_copied result ≡ declared_as name.now sources.now }
{
    sources.iter().find(|source| is_named(source, name))
}

// The words name a source that no file declares.
fn undeclared(alloc: Global, name: &Name) -> Result<LoadFault, Memory>
    ensures { IfOk result (λ made. made ≡ undeclared name.now) }
{
    let file = u8::copy_items(alloc, b"-")?;
    let name = name_text(alloc, name)?;
    Ok(LoadFault::Fault {
        file,
        at: 0,
        kind: FaultKind::UnknownRelation { name },
    })
}

fn columns_named(alloc: Global, sources: &[Decl], name: &Name) -> Result<Columns, LoadFault>
    ensures gives { Gives result (columns_named name.now sources.now) }
    ensures alone { IsErrOf result fault.Folder → ⊥ }
{
    match declared_as(sources, name) {
        None => Err(undeclared(alloc, name)?),
        Some(source) => Ok(source.columns.copy()?),
    }
}

// What the file says beside the declared columns; one that isn't there has a fault of its own.
fn seed_in(file: &Str, columns: &Columns, bytes: Option<Str>) -> Result<Seed, LoadFault>
    ensures gives { Gives result (seed_in file.now columns.now bytes) }
    ensures alone { IsErrOf result fault.Folder → ⊥ }
{
    match bytes {
        None => in_file(file, Err(bad_row(0, 0))),
        Some(bytes) => in_file(file, read_seed(&bytes, columns)),
    }
}

// The rows of a file whose columns may stand in any order, in the order of the declared ones.
fn in_order(alloc: Global, columns: Columns, seed: Seed) -> Result<Seed, Memory>
    ensures { IfOk result (λ made. made ≡ in_order columns seed) }
{
    let found = seed.rows;
    let rows = picked_rows(alloc, columns.as_slice(), seed.columns.as_slice(), found)?;
    Ok(Seed { columns, rows })
}

fn source_in(
    alloc: Global,
    file: &Str,
    columns: Columns,
    bytes: Option<Str>,
) -> Result<Seed, LoadFault>
    ensures gives { Gives result (source_in file.now columns bytes) }
    ensures alone { IsErrOf result fault.Folder → ⊥ }
{
    let seed = seed_in(file, &columns, bytes)?;
    let source = in_order(alloc, columns, seed)?;
    Ok(source)
}

fn file_rows<F: Folder>(
    alloc: Global,
    folder: &mut F,
    dir: &Str,
    file: &Str,
    columns: Columns,
) -> Result<Seed, LoadFault>
    ensures { Asks (λ fs. file_rows fs dir.now file.now columns) (F.told folder.old) (F.told folder.new) result }
{
    let bytes = read_within(alloc, folder, dir, file, b"source", LARGEST_SOURCE)?;
    source_in(alloc, file, columns, bytes)
}

/// The columns that are declared for a source, and the rows that a file of the project in `dir` has for it.
pub(crate) fn source_rows<F: Folder>(
    alloc: Global,
    folder: &mut F,
    dir: &Str,
    name: &Name,
    file: &Str,
) -> Result<Seed, LoadFault>
    ensures { Asks (λ fs. source_rows fs dir.now name.now file.now) (F.told folder.old) (F.told folder.new) result }
{
    let sources = read_sources(alloc, folder, dir)?;
    let columns = columns_named(alloc, sources.as_slice(), name)?;
    file_rows(alloc, folder, dir, file, columns)
}
