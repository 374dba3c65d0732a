// Why records were not read.
ghost use Rattle.std.specs.Prelude.{◌≡◌};
ghost use Rattle.mesh_keep_house.specs.declared.stored.fault.LoadFail.TheVariants.{Memory as OutOfMemory};
ghost use Rattle.mesh_keep_house.specs.stored.Faults.{of_canon, of_keep, of_read};

use mesh_canon_words::CanonFault;
use mesh_keep::KeepFail;
use mesh_list::Memory;

/// Why records were not read: the keeper failed, there was not enough memory, or some record is of no world.
#[derive(Clone, Copy)]
pub enum LoadFail {
    Failed,
    Memory,
    Unread,
}

impl From<Memory> for LoadFail {
    ghost from_gives = { λ _ e. e ≡ OutOfMemory };

    fn from(_error: Memory) -> LoadFail {
        LoadFail::Memory
    }
}

impl From<CanonFault> for LoadFail {
    ghost from_gives = { λ f e. e ≡ of_canon f };

    fn from(fault: CanonFault) -> LoadFail {
        match fault {
            CanonFault::NotCanonical => LoadFail::Unread,
            CanonFault::Memory => LoadFail::Memory,
        }
    }
}

impl From<KeepFail> for LoadFail {
    ghost from_gives = { λ f e. e ≡ of_keep f };

    fn from(fail: KeepFail) -> LoadFail {
        match fail {
            KeepFail::Failed => LoadFail::Failed,
            KeepFail::Memory => LoadFail::Memory,
        }
    }
}

/// What was read of a body, as what is read of a record.
pub(crate) fn as_taken<T: Drop>(read: Result<T, CanonFault>) -> Result<T, LoadFail>
    ensures { result ≡ of_read read }
{
    match read {
        Ok(thing) => Ok(thing),
        Err(fault) => Err(LoadFail::from(fault)),
    }
}
