// Why a project isn't read.
ghost use Rattle.std.specs.Prelude.{◌≡◌, IfOk, IsErrOf};
ghost use Rattle.mesh_project_files.specs.Loading.{Gives, in_file, too_large, bad_path, outside, of_folder};
ghost use Rattle.mesh_project_files.specs.declared.faults.LoadFault.TheVariants as fault;

use mesh_base_values::Str;
use mesh_io::IoFail;
use mesh_list::{Duplicate, Memory};
use mesh_query_tokens::{FaultKind, ReadFault};
use std::alloc::Global;

/// The first fault of the project's files, where it stands, or the folder failed, or memory ran out. `file` is a path
/// in the project, and `-` for a fault of no one file; `at` is a place in its bytes.
#[derive(Drop)]
pub enum LoadFault {
    Fault { file: Str, at: u64, kind: FaultKind },
    Folder,
    Memory,
}

impl From<Memory> for LoadFault {
    ghost from_gives = { λ _ e. e ≡ fault.Memory };

    fn from(_: Memory) -> Self {
        LoadFault::Memory
    }
}

impl From<IoFail> for LoadFault {
    ghost from_gives = { λ f e. e ≡ of_folder f };

    fn from(fail: IoFail) -> Self {
        match fail {
            IoFail::Failed => LoadFault::Folder,
            IoFail::Memory => LoadFault::Memory,
        }
    }
}

/// A fault of a text as one of the file that the text stands in.
pub fn in_file<T: Drop>(file: &Str, read: Result<T, ReadFault>) -> Result<T, LoadFault>
    ensures gives { Gives result (in_file file.now read) }
    ensures alone { IsErrOf result fault.Folder → ⊥ }
{
    match read {
        Ok(x) => Ok(x),
        Err(ReadFault::Memory) => Err(LoadFault::Memory),
        Err(ReadFault::Fault { at, kind }) => match file.copy() {
            Ok(file) => Err(LoadFault::Fault { file, at, kind }),
            Err(_) => {
                drop(kind);
                Err(LoadFault::Memory)
            }
        },
    }
}

/// The file has more than so many of what is named.
pub fn too_large(alloc: Global, file: &[u8], what: &[u8], limit: u64) -> Result<LoadFault, Memory>
    ensures { IfOk result (λ made. made ≡ too_large file.now what.now limit) }
{
    let file = u8::copy_items(alloc, file)?;
    let what = u8::copy_items(alloc, what)?;
    Ok(LoadFault::Fault {
        file,
        at: 0,
        kind: FaultKind::TooLarge { what, limit },
    })
}

/// The path of a SEED names no file. It stands at that place of the model's file.
pub fn bad_path(alloc: Global, file: &Str, at: u64) -> Result<LoadFault, Memory>
    ensures { IfOk result (λ made. made ≡ bad_path file.now at) }
{
    let file = file.copy()?;
    let name = u8::copy_items(alloc, b"path")?;
    Ok(LoadFault::Fault {
        file,
        at,
        kind: FaultKind::BadProperty { name },
    })
}

/// What lies outside of what is built, and the file that it is in.
pub fn outside(alloc: Global, file: &[u8], name: &[u8]) -> Result<LoadFault, Memory>
    ensures { IfOk result (λ made. made ≡ outside file.now name.now) }
{
    let file = u8::copy_items(alloc, file)?;
    let name = u8::copy_items(alloc, name)?;
    Ok(LoadFault::Fault {
        file,
        at: 0,
        kind: FaultKind::Outside { name },
    })
}
