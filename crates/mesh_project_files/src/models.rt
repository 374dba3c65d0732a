// A file below `models`, with the seed that it names.
ghost use Rattle.std.specs.Prelude.{◌≡◌, true, is_some, IfOk, IfSome, IsErrOf};
ghost use Rattle.mesh_base_values.specs.Crons.{is_cron};
ghost use Rattle.mesh_project_files.specs.declared.faults.LoadFault.TheVariants as fault;
ghost use Rattle.mesh_project_files.specs.Loading.{Gives, Asks, AsksAs};
ghost use Rattle.mesh_project_files.specs.Kept.{IsSeedWhere, HasItsSeed, IsReadFile};
ghost use Rattle.mesh_project_files.specs.Models.{seed_if_there, seed_at, seed_of, with_seed, IsTextRead, IsModelFileRead, IsFileRead};

use crate::faults::{LoadFault, bad_path, in_file, outside};
use crate::files::read_within;
use crate::places::{below_models, is_python};
use crate::project::ModelFile;
use mesh_base_values::{LARGEST_FILE, LARGEST_SEED, Seed, Str};
use mesh_io::Folder;
use mesh_model::read_model;
use mesh_model_csv::seeds::read_seed;
use mesh_model_statement::model::ModelText;
use std::alloc::Global;

fn seed_if_there(
    alloc: Global,
    text: &ModelText,
    path: &Str,
    bytes: Option<Str>,
) -> Result<Option<Seed>, LoadFault>
    ensures gives { Gives result (seed_if_there text.now path.now bytes) }
    ensures alone { IsErrOf result fault.Folder → ⊥ }
{
    match bytes {
        None => Err(bad_path(alloc, &text.file, text.path_at)?),
        Some(bytes) => {
            let seed = in_file(path, read_seed(&bytes, &text.columns))?;
            Ok(Some(seed))
        }
    }
}

fn seed_at<F: Folder>(
    alloc: Global,
    folder: &mut F,
    dir: &Str,
    text: &ModelText,
    path: &Str,
) -> Result<Option<Seed>, LoadFault>
    ensures says { Asks (λ fs. seed_at fs dir.now text.now path.now) (F.told folder.old) (F.told folder.new) result }
    ensures seeded { IfOk result (IsSeedWhere true) }
{
    let bytes = read_within(alloc, folder, dir, path, b"seed", LARGEST_SEED)?;
    seed_if_there(alloc, text, path, bytes)
}

// The seed that a model names.
#[tactic(auto, using(crate::proofs::Kept::no_seed))]
fn seed_of<F: Folder>(
    alloc: Global,
    folder: &mut F,
    dir: &Str,
    text: &ModelText,
) -> Result<Option<Seed>, LoadFault>
    ensures says { Asks (λ fs. seed_of fs dir.now text.now) (F.told folder.old) (F.told folder.new) result }
    ensures seeded { IfOk result (IsSeedWhere (is_some text.now.path)) }
{
    match &text.path {
        None => Ok(None),
        Some(path) => seed_at(alloc, folder, dir, text, path),
    }
}

fn cron_is_one(text: &ModelText)
    ensures { is_cron text.now.cron ≡ true }
{
    text.cron.rule();
}

fn with_seed<F: Folder>(
    alloc: Global,
    folder: &mut F,
    dir: &Str,
    text: ModelText,
) -> Result<Option<ModelFile>, LoadFault>
    ensures says { Asks (λ fs. with_seed fs dir.now text) (F.told folder.old) (F.told folder.new) result }
    ensures kept { IfOk result (λ file. IfSome file (HasItsSeed text)) }
{
    cron_is_one(&text);
    match seed_of(alloc, folder, dir, &text) {
        Ok(seed) => Ok(Some(ModelFile { text, seed })),
        Err(fault) => {
            drop(text);
            Err(fault)
        }
    }
}

// The model of a file of these bytes.
fn text_file<F: Folder>(
    alloc: Global,
    folder: &mut F,
    dir: &Str,
    file: &Str,
    bytes: &Str,
) -> Result<Option<ModelFile>, LoadFault>
    ensures says { AsksAs (λ fs. IsTextRead fs dir.now file.now bytes.now) (F.told folder.old) (F.told folder.new) result }
    ensures kept { IfOk result (λ file. IfSome file IsReadFile) }
{
    match in_file(file, read_model(file, bytes.as_slice())) {
        Ok(text) => with_seed(alloc, folder, dir, text),
        Err(fault) => Err(fault),
    }
}

fn model_file<F: Folder>(
    alloc: Global,
    folder: &mut F,
    dir: &Str,
    file: &Str,
) -> Result<Option<ModelFile>, LoadFault>
    ensures says { AsksAs (λ fs. IsModelFileRead fs dir.now file.now) (F.told folder.old) (F.told folder.new) result }
    ensures kept { IfOk result (λ file. IfSome file IsReadFile) }
{
    match read_within(alloc, folder, dir, file, b"file", LARGEST_FILE)? {
        None => Ok(None),
        Some(bytes) => text_file(alloc, folder, dir, file, &bytes),
    }
}

/// The model at a path below `models`, and none where its file isn't there.
pub fn read_file<F: Folder>(
    alloc: Global,
    folder: &mut F,
    dir: &Str,
    path: &Str,
) -> Result<Option<ModelFile>, LoadFault>
    ensures says { AsksAs (λ fs. IsFileRead fs dir.now path.now) (F.told folder.old) (F.told folder.new) result }
    ensures kept { IfOk result (λ file. IfSome file IsReadFile) }
{
    let file = below_models(alloc, path.as_slice())?;
    if is_python(path) {
        return Err(outside(alloc, file.as_slice(), file.as_slice())?);
    }
    model_file(alloc, folder, dir, &file)
}
