// Why files of a project weren't read, as a command tells it.
ghost use Rattle.std.specs.Prelude.{◌≡◌};
ghost use Rattle.mesh_cli_answer.specs.Loads.{of_load};

use mesh_cli_print::printed::Refusal;
use mesh_project_files::LoadFault;

/// A fault of loading, as a command tells it.
pub fn of_load(fault: LoadFault) -> Refusal
    ensures { result ≡ of_load fault }
{
    match fault {
        LoadFault::Fault { file, at, kind } => Refusal::Model { file, at, kind },
        LoadFault::Folder => Refusal::Input,
        LoadFault::Memory => Refusal::Memory,
    }
}
