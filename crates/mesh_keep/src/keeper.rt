// What keeps records.
ghost use Rattle.std.specs.Prelude.{◌≡◌};
ghost use Rattle.mesh_keep.specs.declared.keeper.KeepFail.TheVariants.{Memory as OutOfMemory};
ghost use Rattle.mesh_keep.specs.Keeping.{KeeperTold, Looks, Writing};
ghost use Rattle.mesh_keep.specs.Places.{body_at, records_of};

use crate::kept::{Records, Writes};
use mesh_base_values::Str;
use mesh_list::Memory;
use std::alloc::Global;

/// Why a call of a keeper stopped.
#[derive(Clone, Copy)]
pub enum KeepFail {
    /// The count of faults rose.
    Failed,
    /// There was not enough memory, and nothing was written.
    Memory,
}

impl From<Memory> for KeepFail {
    ghost from_gives = { λ _ e. e ≡ OutOfMemory };

    fn from(_error: Memory) -> KeepFail {
        KeepFail::Memory
    }
}

/// What keeps records by kind and name.
pub trait Keeper {
    /// Its records, where it tells them, and how many faults came.
    ghost told: { Self → KeeperTold };

    /// The body of the record of that kind and name.
    fn get(&mut self, alloc: Global, kind: u32, name: &Str) -> Result<Option<Str>, KeepFail>
        ensures { Looks (λ kept. body_at kept kind name.now) (told self.old) (told self.new) result };

    /// The records of that kind, in ascending order of the bytes of their names.
    fn all(&mut self, alloc: Global, kind: u32) -> Result<Records, KeepFail>
        ensures { Looks (λ kept. records_of kind kept) (told self.old) (told self.new) result };

    /// Makes all of the writes in their order. Where it failed, all of them were made or none.
    fn write(&mut self, alloc: Global, writes: &Writes) -> Result<(), KeepFail>
        ensures { Writing writes.now (told self.old) (told self.new) result };

    /// How many faults came so far, which never falls.
    fn faults(&self) -> u64
        ensures { result ≡ (told self.now).faults };
}
