// Reads the files of a project.
ghost use Rattle.std.specs.Prelude.{◌≡◌, [], IfOk, OnOk};
ghost use Rattle.std.specs.List.{All};
ghost use Rattle.mesh_project_files.specs.Kept.{IsReadFile};
ghost use Rattle.mesh_project_files.specs.Loading.{AsksAs};
ghost use Rattle.mesh_project_files.specs.Project.{with_file, AreRead, AreFiles};

use crate::faults::LoadFault;
use crate::files::{paths_in, read_sources};
use crate::models::read_file;
use crate::project::{ModelFile, ProjectFiles};
use mesh_base_values::Str;
use mesh_io::Folder;
use mesh_list::{Memory, Seq};
use std::alloc::Global;

fn add(models: &mut Seq<ModelFile>, file: Option<ModelFile>) -> Result<(), Memory>
    ensures { OnOk result (models.new ≡ with_file models.old file) }
{
    match file {
        None => Ok(()),
        Some(model) => models.push(model),
    }
}

// The models at these paths below `models`, one after the other.
fn gather<F: Folder>(
    alloc: Global,
    folder: &mut F,
    dir: &Str,
    paths: &[Str],
) -> Result<Seq<ModelFile>, LoadFault>
    ensures says { AsksAs (λ fs. AreRead fs dir.now [] paths.now) (F.told folder.old) (F.told folder.new) result }
    ensures kept { IfOk result (All IsReadFile) }
{
    let mut models = Seq::new(alloc);
    for path in paths {
        let file = read_file(alloc, folder, dir, path)?;
        add(&mut models, file)?;
    }
    Ok(models)
}

/// The files of the project in `dir`: `external_models.csv` declares the sources, each file below `models` that ends
/// in `.sql` is a model, in the order of their paths' bytes, and a SEED names a file of rows. The file PATH of the
/// project is read as `dir/PATH`, and as PATH where `dir` is `.`; faults name it PATH. A listed file that isn't there
/// any more is passed over.
pub fn read_files<F: Folder>(
    alloc: Global,
    folder: &mut F,
    dir: &Str,
) -> Result<ProjectFiles, LoadFault>
    ensures says { AsksAs (λ fs. AreFiles fs dir.now) (F.told folder.old) (F.told folder.new) result }
    ensures kept { IfOk result (λ files. All IsReadFile files.models) }
{
    let sources = read_sources(alloc, folder, dir)?;
    let paths = paths_in(alloc, folder, dir)?;
    let models = gather(alloc, folder, dir, paths.as_slice())?;
    Ok(ProjectFiles { sources, models })
}
