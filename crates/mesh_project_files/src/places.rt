// Where the files of a project stand in a folder.
ghost use Rattle.std.specs.Prelude.{◌≡◌, IfOk};
ghost use Rattle.mesh_project_files.specs.Places.{under, is_here, in_dir, below_models, is_sql, is_init, is_python, is_read};

use mesh_base_values::Str;
use mesh_list::{Duplicate, Memory, Seq};
use std::alloc::Global;

/// A path below a folder.
pub fn under(alloc: Global, dir: &[u8], path: &[u8]) -> Result<Str, Memory>
    ensures { IfOk result (λ made. made ≡ under dir.now path.now) }
{
    let mut made = Vec::from_slice(alloc, dir)?;
    made.push(b'/')?;
    made.extend_from_slice(path)?;
    Ok(Seq::from_vec(made))
}

fn is_here(dir: &[u8]) -> bool
    ensures { result ≡ is_here dir.now }
{
    dir.cmp(&b".".as_slice()).is_eq()
}

/// The path in the folder of a file of the project in `dir`.
pub fn in_dir(alloc: Global, dir: &[u8], path: &[u8]) -> Result<Str, Memory>
    ensures { IfOk result (λ made. made ≡ in_dir dir.now path.now) }
{
    if is_here(dir) {
        u8::copy_items(alloc, path)
    } else {
        under(alloc, dir, path)
    }
}

/// `models/` before a path.
pub fn below_models(alloc: Global, path: &[u8]) -> Result<Str, Memory>
    ensures { IfOk result (λ made. made ≡ below_models path.now) }
{
    under(alloc, b"models", path)
}

/// Whether a model's file stands at the path.
pub fn is_sql(path: &Str) -> bool
    ensures { result ≡ is_sql path.now }
{
    path.as_slice().ends_with(b".sql")
}

fn is_init(path: &Str) -> bool
    ensures { result ≡ is_init path.now }
{
    path.as_slice().cmp(&b"__init__.py".as_slice()).is_eq()
        || path.as_slice().ends_with(b"/__init__.py")
}

/// Whether a model in Python stands at the path.
pub fn is_python(path: &Str) -> bool
    ensures { result ≡ is_python path.now }
{
    path.as_slice().ends_with(b".py") && !is_init(path)
}

/// Whether a model stands at the path.
pub fn is_read(path: &Str) -> bool
    ensures { result ≡ is_read path.now }
{
    is_sql(path) || is_python(path)
}
