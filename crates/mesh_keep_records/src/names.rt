// The names that records are kept under.
ghost use Rattle.std.specs.Prelude.{◌≡◌, IfOk};
ghost use Rattle.mesh_keep_records.specs.Keys.{env_key, head_key, snapshot_key, thing_key};

use crate::part::{add, add_both, write_as_list};
use mesh_base_values::{Name, Str};
use mesh_canon::canon::list_text;
use mesh_list::{Memory, Seq};
use std::alloc::Global;

/// The name of the record of what a book has besides its lists.
pub fn head_key(alloc: Global) -> Result<Str, Memory>
    ensures { IfOk result (λ key. key ≡ head_key) }
{
    list_text(alloc, &Seq::new(alloc))
}

/// The name of a snapshot's record.
pub fn snapshot_key(alloc: Global, name: &Name, fingerprint: &[u8; 32]) -> Result<Str, Memory>
    ensures { IfOk result (λ key. key ≡ snapshot_key name.now fingerprint.now) }
{
    let mut parts = Seq::new(alloc);
    add_both(&mut parts, &name.schema, &name.model)?;
    add(&mut parts, fingerprint)?;
    list_text(alloc, &parts)
}

/// The name of an environment's record.
pub fn env_key(alloc: Global, name: &Str) -> Result<Str, Memory>
    ensures { IfOk result (λ key. key ≡ env_key name.now) }
{
    let mut parts = Seq::new(alloc);
    add(&mut parts, name)?;
    list_text(alloc, &parts)
}

/// The name of the record of a version, a view, an object or a source.
pub fn thing_key(alloc: Global, name: &Name) -> Result<Str, Memory>
    ensures { IfOk result (λ key. key ≡ thing_key name.now) }
{
    write_as_list(alloc, name)
}
