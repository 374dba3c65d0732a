// The models of a project by rank and name.
ghost use Rattle.std.specs.Prelude.{◌≡◌, ◌≤◌, length, map, Ok, IfOk, IsErrOf};
ghost use Rattle.mesh_project.specs.order.Order.{AreApart};
ghost use Rattle.mesh_project_files.specs.declared.faults.LoadFault.TheVariants as fault;
ghost use Rattle.mesh_project.specs.project.Project.{IsOrdered, cycle, reader_of};

use crate::nodes::text_reads;
use crate::order::{Order, OrderFault, Reader, in_order};
use mesh_base_values::Names;
use mesh_list::{Duplicate, Memory, Seq};
use mesh_project_files::{LoadFault, ModelFile};
use mesh_query_tokens::FaultKind;
use std::alloc::Global;

fn reader_of(alloc: Global, file: &ModelFile) -> Result<Reader, Memory>
    ensures { IfOk result (λ reader. reader ≡ reader_of file.now) }
{
    let name = file.text.name.copy()?;
    let reads = text_reads(alloc, &file.text.query)?;
    Ok(Reader { name, reads })
}

fn readers_of(alloc: Global, files: &[ModelFile]) -> Result<Seq<Reader>, Memory>
    ensures { IfOk result (λ readers. readers ≡ map reader_of files.now) }
{
    let mut readers = Seq::new(alloc);
    for file in files {
        readers.push(reader_of(alloc, file)?)?;
    }
    Ok(readers)
}

// A fault of no one file: the models that reach themselves.
fn cycle(alloc: Global, names: Names) -> Result<LoadFault, Memory>
    ensures { IfOk result (λ made. made ≡ cycle names) }
{
    let file = u8::copy_items(alloc, b"-")?;
    Ok(LoadFault::Fault {
        file,
        at: 0,
        kind: FaultKind::Cycle { names },
    })
}

/// The models by rank and name, or the fault that tells all that reach themselves.
pub fn ordered(alloc: Global, files: &[ModelFile]) -> Result<Order, LoadFault>
    requires apart { AreApart (map reader_of files.now) }
    requires few { length files.now ≤ 4096 }
    ensures { IsOrdered (map reader_of files.now) result }
{
    let readers = readers_of(alloc, files)?;
    match in_order(alloc, readers.as_slice()) {
        Ok(order) => Ok(order),
        Err(OrderFault::Memory) => Err(LoadFault::Memory),
        Err(OrderFault::Cycle { names }) => Err(cycle(alloc, names)?),
    }
}
