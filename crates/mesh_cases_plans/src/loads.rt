// Projects that are loaded from a folder, and the lines of their faults.
use mesh_base::rules::Project;
use mesh_cases::{Pen, Trouble};
use mesh_cli_print::faults::fault_line;
use mesh_io::Folder;
use mesh_list::Duplicate;
use mesh_project::project::load;
use mesh_project_files::LoadFault;
use mesh_query_tokens::FaultKind;
use std::alloc::Global;

/// The project in the folder itself, which has no fault.
pub fn loaded<F: Folder>(alloc: Global, folder: &mut F) -> Result<Project, Trouble> {
    let here = u8::copy_items(alloc, b".")?;
    match load(alloc, folder, &here) {
        Ok(project) => Ok(project),
        Err(LoadFault::Fault { .. }) => Err(Trouble::Case),
        Err(LoadFault::Folder) => Err(Trouble::Outside),
        Err(LoadFault::Memory) => Err(Trouble::Memory),
    }
}

/// Adds how many models a project has.
fn put_models(pen: &mut Pen, project: &Project) {
    pen.put(b" ");
    pen.count(project.as_slice().len() as u64);
}

/// Adds a line without its line feed.
fn put_line(pen: &mut Pen, line: &[u8]) -> Result<(), Trouble> {
    match line.strip_suffix(b"\n") {
        Some(line) => {
            pen.put(b"\n    ");
            pen.put(line);
            Ok(())
        }
        None => Err(Trouble::Case),
    }
}

/// Adds the line of a fault.
fn put_fault(pen: &mut Pen, file: &[u8], at: u64, kind: &FaultKind) -> Result<(), Trouble> {
    match fault_line(pen.alloc(), file, at, kind) {
        Ok(line) => put_line(pen, line.as_slice()),
        Err(_) => Err(Trouble::Memory),
    }
}

/// Loads the project in DIR, and adds how many models it has, or the line of its first fault.
pub fn put_loaded<F: Folder>(
    alloc: Global,
    folder: &mut F,
    dir: &[u8],
    pen: &mut Pen,
) -> Result<(), Trouble> {
    let dir = u8::copy_items(alloc, dir)?;
    match load(alloc, folder, &dir) {
        Ok(project) => {
            put_models(pen, &project);
            Ok(())
        }
        Err(LoadFault::Fault { file, at, kind }) => put_fault(pen, file.as_slice(), at, &kind),
        Err(LoadFault::Folder) => Err(Trouble::Outside),
        Err(LoadFault::Memory) => Err(Trouble::Memory),
    }
}
