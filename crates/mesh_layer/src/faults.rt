// Why nothing is shown.
ghost use Rattle.std.specs.Prelude.{◌≡◌, ◌⊎◌};
ghost use Rattle.mesh_layer.specs.Shows.{of_house};
ghost use Rattle.mesh_layer.specs.declared.faults.ShowFault.TheVariants as fault;

use mesh_base_values::Name;
use mesh_house::WhFail;
use mesh_list::{Duplicate, Memory};

/// An object or a view dangles, the warehouse failed, or memory ran out.
#[derive(Drop)]
pub enum ShowFault {
    /// What is named isn't there, stores no query whose names are there, or stands behind too many stored queries.
    Dangling { object: Name },
    Warehouse,
    Memory,
}

impl From<Memory> for ShowFault {
    ghost from_gives = { λ _ e. e ≡ fault.Memory };

    fn from(_: Memory) -> Self {
        ShowFault::Memory
    }
}

impl From<WhFail> for ShowFault {
    ghost from_gives = { λ f e. e ≡ of_house f };

    fn from(fail: WhFail) -> Self {
        match fail {
            WhFail::Failed => ShowFault::Warehouse,
            WhFail::Memory => ShowFault::Memory,
        }
    }
}

/// That an object dangles, or want of memory to say which.
#[inline(never)]
pub(crate) fn dangling(name: &Name) -> ShowFault
    ensures { (result ≡ fault.Dangling name.now) ⊎ (result ≡ fault.Memory) }
{
    match name.copy() {
        Ok(object) => ShowFault::Dangling { object },
        Err(_) => ShowFault::Memory,
    }
}
