// The bodies of the records of a book.
ghost use Rattle.std.specs.Prelude.{◌≡◌, true, IfOk};
ghost use Rattle.mesh_canon_text.specs.Text.{own_text};
ghost use Rattle.mesh_keep_records.specs.Records.{env_fits, env_text, head_fits, head_text, snapshot_fits, snapshot_text, version_fits, version_text};

use mesh_base::{Env, Snapshot};
use mesh_base_values::Str;
use mesh_canon_text::{list_text, own_text};
use mesh_house_book::Version;
use mesh_keep_records::{
    BookHead, add, add_both, env_rule, head_rule, snapshot_rule, version_rule, write_as_list,
};
use mesh_list::{Memory, Seq};
use std::alloc::Global;

/// The body of the record of what a book has besides its lists.
pub fn head_body(alloc: Global, head: &BookHead) -> Result<Str, Memory>
    ensures written { IfOk result (λ text. text ≡ head_text head.now) }
    ensures fits { head_fits head.now ≡ true }
{
    head_rule(head);
    write_as_list(alloc, head)
}

/// The body of a snapshot's record, with the canonical text of its definition.
pub fn snapshot_body(alloc: Global, snapshot: &Snapshot) -> Result<Str, Memory>
    ensures written { IfOk result (λ text. text ≡ snapshot_text (own_text snapshot.now.own) snapshot.now) }
    ensures fits { snapshot_fits snapshot.now ≡ true }
{
    snapshot_rule(snapshot);
    let own = own_text(alloc, &snapshot.own)?;
    let mut parts = Seq::new(alloc);
    add_both(&mut parts, &snapshot.name, &snapshot.fingerprint)?;
    add_both(&mut parts, &own, &snapshot.parents)?;
    add_both(&mut parts, &snapshot.rank, &snapshot.object)?;
    add(&mut parts, &snapshot.expires)?;
    list_text(alloc, &parts)
}

/// The body of a version's record.
pub fn version_body(alloc: Global, version: &Version) -> Result<Str, Memory>
    ensures written { IfOk result (λ text. text ≡ version_text version.now) }
    ensures fits { version_fits version.now ≡ true }
{
    version_rule(version);
    let mut parts = Seq::new(alloc);
    add_both(&mut parts, &version.object, &version.made)?;
    add_both(&mut parts, &version.ranges, &version.marks)?;
    list_text(alloc, &parts)
}

/// The body of an environment's record.
pub fn env_body(alloc: Global, env: &Env) -> Result<Str, Memory>
    ensures written { IfOk result (λ text. text ≡ env_text env.now) }
    ensures fits { env_fits env.now ≡ true }
{
    env_rule(env);
    let mut parts = Seq::new(alloc);
    add_both(&mut parts, &env.name, &env.pending)?;
    add_both(&mut parts, &env.list, &env.previous)?;
    add(&mut parts, &env.expires)?;
    list_text(alloc, &parts)
}
