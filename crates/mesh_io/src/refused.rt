// Errors of the host: want of memory is told apart, and any other is a fault, which is counted.
ghost use Rattle.std.specs.Prelude.{◌≡◌, ◌≤◌};
ghost use Rattle.mesh_list.specs.Counts.{Rose};

use crate::fails::IoFail;
use std::io::ErrorKind;

/// The refusal that an error of the host comes to.
pub fn refused(faults: &mut u64, kind: ErrorKind) -> IoFail
    ensures kept { faults.old ≤ faults.new }
    ensures counted { result ≡ IoFail.Failed → Rose faults.old faults.new }
{
    match kind {
        ErrorKind::OutOfMemory => IoFail::Memory,
        _ => {
            *faults = faults.saturating_add(1);
            IoFail::Failed
        }
    }
}

/// Whether the error says that nothing of that kind stands at the path, or a link that leads nowhere.
pub fn is_absent(kind: ErrorKind) -> bool {
    match kind {
        ErrorKind::NotFound
        | ErrorKind::NotADirectory
        | ErrorKind::IsADirectory
        | ErrorKind::FilesystemLoop => true,
        _ => false,
    }
}
