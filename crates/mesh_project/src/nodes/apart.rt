// Names that stand once.
ghost use Rattle.std.specs.Prelude.{◌≡◌, IfOk, IsErrOf};
ghost use Rattle.std.specs.BTreeSet.{contains};
ghost use Rattle.mesh_base_values.specs.Names.{name_cmp};
ghost use Rattle.mesh_base_values.specs.declared.values.Name.{Name};
ghost use Rattle.mesh_base.specs.rules.Relations.{is_declared};
ghost use Rattle.mesh_project_files.specs.Loading.{Gives};
ghost use Rattle.mesh_project_files.specs.declared.faults.LoadFault.TheVariants as fault;
ghost use Rattle.mesh_project.specs.nodes.Apart.{apart, duplicate, names_of, with_model_name};
ghost use Rattle.mesh_project.specs.nodes.Walk.{Leads, along};

use mesh_base::Decl;
use mesh_base_values::Name;
use mesh_list::{Duplicate, Memory, both};
use mesh_project_files::{LoadFault, ModelFile, ProjectFiles};
use mesh_query_tokens::FaultKind;
use std::alloc::Global;
use std::collections::BTreeSet;

fn duplicate(file: &ModelFile) -> Result<LoadFault, Memory>
    ensures { IfOk result (λ made. made ≡ duplicate file.now) }
{
    let (path, name) = both(&file.text.file, &file.text.name)?;
    Ok(LoadFault::Fault {
        file: path,
        at: 0,
        kind: FaultKind::DuplicateModel { name },
    })
}

fn source_names(alloc: Global, sources: &[Decl]) -> Result<BTreeSet<Name>, Memory>
    ensures { IfOk result (λ set. (name : Name) → contains name_cmp set name ≡ is_declared sources.now name) }
{
    let mut set = BTreeSet::new(alloc);
    for source in sources {
        set.insert(source.name.copy()?)?;
    }
    Ok(set)
}

fn take_name(taken: &mut BTreeSet<Name>, file: &ModelFile) -> Result<(), LoadFault>
    ensures leads { Leads result (names_of taken.new) (with_model_name (names_of taken.old) file.now) }
    ensures alone { IsErrOf result fault.Folder → ⊥ }
{
    let name = file.text.name.copy()?;
    match taken.insert(name) {
        Ok(true) => Ok(()),
        Ok(false) => Err(duplicate(file)?),
        Err(_) => Err(LoadFault::Memory),
    }
}

#[tactic(auto, using(crate::proofs::nodes::Steps::none_along, crate::proofs::nodes::Steps::one_more, crate::proofs::nodes::Steps::stops, crate::proofs::nodes::Steps::all_along))]
fn take_names(taken: &mut BTreeSet<Name>, files: &[ModelFile]) -> Result<(), LoadFault>
    ensures leads { Leads result (names_of taken.new) (along with_model_name (names_of taken.old) files.now) }
    ensures alone { IsErrOf result fault.Folder → ⊥ }
{
    for file in files {
        take_name(taken, file)?;
    }
    Ok(())
}

/// No two models have one name, and none has that of a source.
pub fn are_apart(alloc: Global, files: &ProjectFiles) -> Result<(), LoadFault>
    ensures gives { Gives result (apart files.now.sources files.now.models) }
    ensures alone { IsErrOf result fault.Folder → ⊥ }
{
    let mut taken = source_names(alloc, files.sources.as_slice())?;
    take_names(&mut taken, files.models.as_slice())
}
