// The files of a project's folder, the paths that stand for models, and the declared sources.
ghost use Rattle.std.specs.Prelude.{◌≡◌, ◌<◌, ◌≤◌, ◌^◌, [], IfOk, IsErrOf, filter, length};
ghost use Rattle.mesh_io.specs.Files.{bytes_at};
ghost use Rattle.mesh_project_files.specs.declared.faults.LoadFault.TheVariants as fault;
ghost use Rattle.mesh_project_files.specs.Loading.{Gives, Asks};
ghost use Rattle.mesh_project_files.specs.Places.{is_sql, is_read};
ghost use Rattle.mesh_project_files.specs.Models.{within, file_within};
ghost use Rattle.mesh_project_files.specs.Project.{declared, sources_at, sources_in, counted, paths_in};

use crate::faults::{LoadFault, in_file, too_large};
use crate::places::{in_dir, is_read, is_sql};
use mesh_base::Externals;
use mesh_base_values::{LARGEST_FILE, MOST_MODELS, Str, Strs};
use mesh_io::Folder;
use mesh_list::{Duplicate, Memory, Seq};
use mesh_model_csv::external::read_external;
use std::alloc::Global;

// The bytes at a path, if a file is there. One byte more than the limit is asked for, so that a longer file is seen.
fn bytes_within<F: Folder>(
    alloc: Global,
    folder: &mut F,
    path: &Str,
    file: &Str,
    what: &[u8],
    most: u64,
) -> Result<Option<Str>, LoadFault>
    requires { most < 2 ^ 32 }
    ensures { Asks (λ fs. within file.now what.now most (bytes_at path.now fs)) (F.told folder.old) (F.told folder.new) result }
{
    match folder.read(alloc, path, most + 1)? {
        None => Ok(None),
        Some(bytes) => {
            if bytes.len() as u64 <= most {
                Ok(Some(bytes))
            } else {
                Err(too_large(alloc, file.as_slice(), what, most)?)
            }
        }
    }
}

/// The bytes of a file of the project in `dir`, if it is there.
pub fn read_within<F: Folder>(
    alloc: Global,
    folder: &mut F,
    dir: &Str,
    file: &Str,
    what: &[u8],
    most: u64,
) -> Result<Option<Str>, LoadFault>
    requires { most < 2 ^ 32 }
    ensures { Asks (λ fs. file_within fs dir.now file.now what.now most) (F.told folder.old) (F.told folder.new) result }
{
    let path = in_dir(alloc, dir.as_slice(), file.as_slice())?;
    bytes_within(alloc, folder, &path, file, what, most)
}

// How many of the paths are those of model files.
fn sql_count(paths: &[Str]) -> usize
    ensures { result ≡ length (filter is_sql paths.now) }
{
    let mut count: usize = 0;
    for path in paths {
        if is_sql(path) {
            count += 1;
        }
    }
    count
}

// The paths that stand for models.
fn only_read(alloc: Global, paths: &[Str]) -> Result<Strs, Memory>
    ensures { IfOk result (λ kept. kept ≡ filter is_read paths.now) }
{
    let mut kept = Vec::new(alloc);
    for path in paths {
        if is_read(path) {
            kept.push(path.copy()?)?;
        }
    }
    Ok(Seq::from_vec(kept))
}

fn counted(alloc: Global, paths: &[Str]) -> Result<Strs, LoadFault>
    ensures gives { Gives result (counted paths.now) }
    ensures alone { IsErrOf result fault.Folder → ⊥ }
{
    if sql_count(paths) as u64 <= MOST_MODELS {
        Ok(only_read(alloc, paths)?)
    } else {
        Err(too_large(alloc, b"-", b"models", MOST_MODELS)?)
    }
}

/// The paths below `models` that stand for models, in the order of their bytes.
pub fn paths_in<F: Folder>(alloc: Global, folder: &mut F, dir: &Str) -> Result<Strs, LoadFault>
    ensures { Asks (λ fs. paths_in fs dir.now) (F.told folder.old) (F.told folder.new) result }
{
    let models = in_dir(alloc, dir.as_slice(), b"models")?;
    let paths = folder.list(alloc, &models)?;
    counted(alloc, paths.as_slice())
}

fn declared(alloc: Global, file: &Str, bytes: Option<Str>) -> Result<Externals, LoadFault>
    ensures gives { Gives result (declared file.now bytes) }
    ensures alone { IsErrOf result fault.Folder → ⊥ }
{
    match bytes {
        None => Ok(Seq::new(alloc)),
        Some(bytes) => in_file(file, read_external(&bytes)),
    }
}

fn sources_at<F: Folder>(
    alloc: Global,
    folder: &mut F,
    dir: &Str,
    file: &Str,
) -> Result<Externals, LoadFault>
    ensures { Asks (λ fs. sources_at fs dir.now file.now) (F.told folder.old) (F.told folder.new) result }
{
    let bytes = read_within(alloc, folder, dir, file, b"file", LARGEST_FILE)?;
    declared(alloc, file, bytes)
}

/// The sources that the project in `dir` declares, of which there are none where there is no such file.
pub fn read_sources<F: Folder>(
    alloc: Global,
    folder: &mut F,
    dir: &Str,
) -> Result<Externals, LoadFault>
    ensures { Asks (λ fs. sources_in fs dir.now) (F.told folder.old) (F.told folder.new) result }
{
    let file = u8::copy_items(alloc, b"external_models.csv")?;
    sources_at(alloc, folder, dir, &file)
}
