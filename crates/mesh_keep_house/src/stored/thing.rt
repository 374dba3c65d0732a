// Things of a world, which have records.
ghost use Rattle.std.specs.Prelude.{◌≡◌, ℕ, Bool, true, not, List, IfOk};
ghost use Rattle.std.specs.declared.option.Option.{Option};
ghost use Rattle.mesh_house.specs.Objects.{is_physical};
ghost use Rattle.mesh_canon_reading.specs.Fits.{text_fits};
ghost use Rattle.mesh_keep_records.specs.Keys.{env_key, snapshot_key, thing_key};
ghost use Rattle.mesh_keep_records.specs.reading.Reading.{env_in, object_in, snapshot_in, source_in, version_in, view_in};
ghost use Rattle.mesh_keep_house.specs.stored.Loads.{Takes};

use crate::stored::fault::{LoadFail, as_taken};
use mesh_base::{Env, Input, Snapshot};
use mesh_base_values::{Str, has_two_underscores};
use mesh_house::{Object, ViewOf};
use mesh_house_book::Version;
use mesh_keep_records::{
    env_key, read_env, read_object, read_snapshot, read_source, read_version, read_view,
    snapshot_key, thing_key,
};
use mesh_list::Memory;
use std::alloc::Global;

/// A thing that has a record.
pub(crate) trait Thing: Drop {
    ghost said: { List ℕ → Option Self };

    ghost name: { Self → List ℕ };

    ghost may: { Self → Bool };

    /// What a body says.
    fn read(alloc: Global, body: &[u8]) -> Result<Self, LoadFail>
        ensures { Takes (said body.now) result };

    /// The name of its record.
    fn record_name(&self, alloc: Global) -> Result<Str, Memory>
        ensures { IfOk result (λ made. made ≡ name self.now) };

    /// Whether a world may have it.
    fn is_allowed(&self) -> bool
        ensures { result ≡ may self.now };
}

/// A slice lies in memory.
pub(crate) fn lies_in_memory(bytes: &[u8])
    ensures { text_fits bytes.now ≡ true }
{
    let _length = bytes.len();
}

impl Thing for Snapshot {
    ghost said = { snapshot_in };

    ghost name = { λ s. snapshot_key s.name s.fingerprint };

    ghost may = { λ s. true };

    fn read(alloc: Global, body: &[u8]) -> Result<Snapshot, LoadFail> {
        lies_in_memory(body);
        as_taken(read_snapshot(alloc, body))
    }

    fn record_name(&self, alloc: Global) -> Result<Str, Memory> {
        snapshot_key(alloc, &self.name, &self.fingerprint)
    }

    fn is_allowed(&self) -> bool {
        true
    }
}

impl Thing for Version {
    ghost said = { version_in };

    ghost name = { λ v. thing_key v.object };

    ghost may = { λ v. true };

    fn read(alloc: Global, body: &[u8]) -> Result<Version, LoadFail> {
        lies_in_memory(body);
        as_taken(read_version(alloc, body))
    }

    fn record_name(&self, alloc: Global) -> Result<Str, Memory> {
        thing_key(alloc, &self.object)
    }

    fn is_allowed(&self) -> bool {
        true
    }
}

impl Thing for Env {
    ghost said = { env_in };

    ghost name = { λ e. env_key e.name };

    ghost may = { λ e. true };

    fn read(alloc: Global, body: &[u8]) -> Result<Env, LoadFail> {
        lies_in_memory(body);
        as_taken(read_env(alloc, body))
    }

    fn record_name(&self, alloc: Global) -> Result<Str, Memory> {
        env_key(alloc, &self.name)
    }

    fn is_allowed(&self) -> bool {
        true
    }
}

impl Thing for ViewOf {
    ghost said = { view_in };

    ghost name = { λ v. thing_key v.view };

    ghost may = { λ v. true };

    fn read(alloc: Global, body: &[u8]) -> Result<ViewOf, LoadFail> {
        lies_in_memory(body);
        as_taken(read_view(alloc, body))
    }

    fn record_name(&self, alloc: Global) -> Result<Str, Memory> {
        thing_key(alloc, &self.view)
    }

    fn is_allowed(&self) -> bool {
        true
    }
}

impl Thing for Object {
    ghost said = { object_in };

    ghost name = { λ o. thing_key o.name };

    ghost may = { λ o. is_physical o.name };

    fn read(alloc: Global, body: &[u8]) -> Result<Object, LoadFail> {
        lies_in_memory(body);
        as_taken(read_object(alloc, body))
    }

    fn record_name(&self, alloc: Global) -> Result<Str, Memory> {
        thing_key(alloc, &self.name)
    }

    fn is_allowed(&self) -> bool {
        has_two_underscores(self.name.schema.as_slice())
    }
}

impl Thing for Input {
    ghost said = { source_in };

    ghost name = { λ s. thing_key s.name };

    ghost may = { λ s. not (is_physical s.name) };

    fn read(alloc: Global, body: &[u8]) -> Result<Input, LoadFail> {
        lies_in_memory(body);
        as_taken(read_source(alloc, body))
    }

    fn record_name(&self, alloc: Global) -> Result<Str, Memory> {
        thing_key(alloc, &self.name)
    }

    fn is_allowed(&self) -> bool {
        !has_two_underscores(self.name.schema.as_slice())
    }
}
