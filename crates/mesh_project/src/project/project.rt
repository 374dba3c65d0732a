// Reads a project.
ghost use Rattle.std.specs.List.{AllByRecursion};
ghost use Rattle.std.specs.Prelude.{IsErrOf};
ghost use Rattle.mesh_project_files.specs.Loading.{AsksAs, Gives};
ghost use Rattle.mesh_project_files.specs.declared.faults.LoadFault.TheVariants as fault;
ghost use Rattle.mesh_project.specs.nodes.Nodes.{IsWhole};
ghost use Rattle.mesh_project.specs.project.Project.{IsLoaded, IsMeant, checked, counted};

use crate::nodes::{are_apart, nodes_of};
use crate::project::order::ordered;
use mesh_base::rules::Project;
use mesh_base_values::{MOST_MODELS, Str};
use mesh_io::Folder;
use mesh_project_files::{LoadFault, ModelFile, ProjectFiles, read_files, too_large};
use std::alloc::Global;

// As many models as a project may have.
fn counted(alloc: Global, models: &[ModelFile]) -> Result<(), LoadFault>
    ensures gives { Gives result (counted models.now) }
    ensures alone { IsErrOf result fault.Folder → ⊥ }
{
    if models.len() as u64 <= MOST_MODELS {
        Ok(())
    } else {
        Err(too_large(alloc, b"-", b"models", MOST_MODELS)?)
    }
}

fn checked(alloc: Global, files: &ProjectFiles) -> Result<(), LoadFault>
    ensures gives { Gives result (checked files.now) }
    ensures alone { IsErrOf result fault.Folder → ⊥ }
{
    counted(alloc, files.models.as_slice())?;
    are_apart(alloc, files)
}

/// The project that files mean, once they are read, or its first fault: two models of one name or a model and a source,
/// then models that reach themselves, and then the models by rank and name, each over those before it.
pub fn project_of(alloc: Global, files: &ProjectFiles) -> Result<Project, LoadFault>
    requires { AllByRecursion IsWhole files.now.models }
    ensures meant { IsMeant files.now result }
    ensures alone { IsErrOf result fault.Folder → ⊥ }
{
    checked(alloc, files)?;
    let order = ordered(alloc, files.models.as_slice())?;
    let earlier = nodes_of(alloc, files, order.as_slice())?;
    Ok(Project {
        nodes: earlier.into_nodes(),
    })
}

/// The project in `dir`. Its first fault is that of reading its files; behind that, the second model of one name, or
/// one that has a source's; then models that reach themselves, all of them told; and then what resolving says of the
/// models by rank and name. Each fingerprint is the SHA-256 of a model's definition and its parents' fingerprints.
pub fn load<F: Folder>(alloc: Global, folder: &mut F, dir: &Str) -> Result<Project, LoadFault>
    ensures { AsksAs (λ fs. IsLoaded fs dir.now) (F.told folder.old) (F.told folder.new) result }
{
    let files = read_files(alloc, folder, dir)?;
    project_of(alloc, &files)
}
