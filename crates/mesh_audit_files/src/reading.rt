// The audits of a project.
ghost use Rattle.std.specs.Prelude.{map};
ghost use Rattle.mesh_project_files.specs.Loading.{AsksAs};
ghost use Rattle.mesh_audit_files.specs.Listing.{plain};
ghost use Rattle.mesh_audit_files.specs.Sets.{AuditsIn, AuditsOf, IsSetOf};

use crate::listings::{Listing, all_listed};
use crate::queries::known_in;
use crate::sets::audit_files;
use crate::taking::take_all;
use mesh_audit::audits::AuditSet;
use mesh_base::rules::Project;
use mesh_base_values::Str;
use mesh_io::Folder;
use mesh_project_files::{LoadFault, ModelFile, read_files};
use mesh_resolve::Known;
use std::alloc::Global;

// The audits of a project whose models list all this.
fn set_of<F: Folder>(
    alloc: Global,
    folder: &mut F,
    dir: &Str,
    known: &Known,
    all: &[Listing],
) -> Result<AuditSet, LoadFault>
    ensures { AsksAs (λ fs. IsSetOf fs dir.now known.now (map plain all.now)) (F.told folder.old) (F.told folder.new) result }
{
    match audit_files(alloc, folder, dir, known, all) {
        Ok(files) => take_all(alloc, known, all, files.as_slice()),
        Err(fault) => Err(fault),
    }
}

/// The audits of a project whose models' files have been read; they are looked up by the models' names.
pub fn audits_in<F: Folder>(
    alloc: Global,
    folder: &mut F,
    dir: &Str,
    models: &[ModelFile],
    p: &Project,
) -> Result<AuditSet, LoadFault>
    ensures { AsksAs (λ fs. AuditsIn fs dir.now models.now p.now) (F.told folder.old) (F.told folder.new) result }
{
    let known = known_in(alloc, p.as_slice())?;
    let all = all_listed(alloc, models, p.as_slice())?;
    set_of(alloc, folder, dir, &known, all.as_slice())
}

/// The audits of the project in `dir`: those that are run, and the names that its models list and that aren't, by
/// rank and name of the model and then in written order. The first fault is that of reading the models' files, then
/// of the audits' files in the order of their paths, each with the models that list it, and then of what the models
/// list.
pub fn read_audits<F: Folder>(
    alloc: Global,
    folder: &mut F,
    dir: &Str,
    p: &Project,
) -> Result<AuditSet, LoadFault>
    ensures { AsksAs (λ fs. AuditsOf fs dir.now p.now) (F.told folder.old) (F.told folder.new) result }
{
    let files = read_files(alloc, folder, dir)?;
    audits_in(alloc, folder, dir, files.models.as_slice(), p)
}
