// The folder of the project.
ghost use Rattle.std.specs.Prelude.{◌≡◌, IfOk};
ghost use Rattle.mesh_cli.specs.cli.Sides.{here, place_or};

use mesh_base_values::Str;
use mesh_list::{Duplicate, Memory};
use std::alloc::Global;

/// The folder that is named, or else another one.
pub(crate) fn place_or(paths: &Option<Str>, other: &Str) -> Result<Str, Memory>
    ensures { IfOk result (λ dir. dir ≡ place_or paths.now other.now) }
{
    match paths {
        Some(paths) => paths.copy(),
        None => other.copy(),
    }
}

/// The folder that is named, or else the one that the command is called in.
pub(crate) fn place_of(alloc: Global, paths: &Option<Str>) -> Result<Str, Memory>
    ensures { IfOk result (λ dir. dir ≡ place_or paths.now here) }
{
    match paths {
        Some(paths) => paths.copy(),
        None => u8::copy_items(alloc, b"."),
    }
}
