// The records of a book.
ghost use Rattle.std.specs.Prelude.{◌≡◌, ◌==◌, true, false, IfOk, Some};
ghost use Rattle.mesh_base.specs.declared.snapshots.Env.{Env};
ghost use Rattle.mesh_base.specs.declared.snapshots.Snapshot.{Snapshot};
ghost use Rattle.mesh_house_book.specs.declared.versions.Version.{Version};
ghost use Rattle.mesh_canon_words.specs.Words.{Gives};
ghost use Rattle.mesh_keep_records.specs.declared.book_records.BookHead.{BookHead};
ghost use Rattle.mesh_keep_records.specs.Records.{IsSnapshotText, env_fits, env_text, head_fits, head_parts, head_text, newer_parts, snapshot_fits, version_fits, version_text};

use crate::held::{env_rule, head_rule, snapshot_rule, version_rule};
use crate::part::{Listed, Part, add, add_both, read_as_list};
use mesh_base::{Env, Marks, Refs, Snapshot};
use mesh_base_values::{Name, Str, Strs};
use mesh_canon::canon::read_definition;
use mesh_canon_words::CanonFault;
use mesh_house_book::{OLD_VERSION, Version};
use mesh_list::Memory;
use mesh_time::Ranges;
use std::alloc::Global;

/// What a book has besides its lists.
#[derive(Clone, Copy)]
pub struct BookHead {
    pub version: u32,
    pub moment: i64,
}

/// The fields of a snapshot, with its definition as a text.
type SnapshotFields = (Name, ([u8; 32], (Str, (Refs, (u32, (Name, (i64, ())))))));

type VersionFields = (Name, (bool, (Ranges, (Option<Marks>, ()))));

type EnvFields = (Str, (bool, (Refs, (Refs, (Option<i64>, ())))));

impl Listed for BookHead {
    ghost parts = { head_parts };

    ghost fit = { head_fits };

    fn put(&self, out: &mut Strs) -> Result<(), Memory> {
        if self.version == OLD_VERSION {
            add(out, &self.moment)
        } else {
            add_both(out, &self.moment, &self.version)
        }
    }

    fn take(alloc: Global, texts: &[Str]) -> Result<BookHead, CanonFault> {
        match texts {
            [moment] => {
                let moment = i64::read(alloc, moment.as_slice())?;
                Ok(BookHead {
                    version: OLD_VERSION,
                    moment,
                })
            }
            _ => newer_head(alloc, texts),
        }
    }
}

// The moment and a version that is said.
fn newer_head(alloc: Global, texts: &[Str]) -> Result<BookHead, CanonFault>
    ensures found { IfOk result (λ h. texts.now ≡ newer_parts h) }
    ensures newer { IfOk result (λ h. (h.version == 1) ≡ false) }
    ensures only { (h : BookHead) → (h.version == 1) ≡ false → head_fits h ≡ true → texts.now ≡ newer_parts h → Gives (λ x. x) result (Some h) }
{
    let (moment, (version, ())) = <(i64, (u32, ()))>::take(alloc, texts)?;
    if version == OLD_VERSION {
        return Err(CanonFault::NotCanonical);
    }
    Ok(BookHead { version, moment })
}

/// What a book has besides its lists, by the body of its record.
pub fn read_head(alloc: Global, text: &[u8]) -> Result<BookHead, CanonFault>
    ensures found { IfOk result (λ h. text.now ≡ head_text h) }
    ensures fits { IfOk result (λ h. head_fits h ≡ true) }
    ensures only { (h : BookHead) → head_fits h ≡ true → text.now ≡ head_text h → Gives (λ x. x) result (Some h) }
{
    let head: BookHead = read_as_list(alloc, text)?;
    head_rule(&head);
    Ok(head)
}

/// The snapshot that has this body.
pub fn read_snapshot(alloc: Global, text: &[u8]) -> Result<Snapshot, CanonFault>
    ensures found { IfOk result (λ s. IsSnapshotText text.now s) }
    ensures fits { IfOk result (λ s. snapshot_fits s ≡ true) }
    ensures only { (s : Snapshot) → snapshot_fits s ≡ true → IsSnapshotText text.now s → Gives (λ x. x) result (Some s) }
{
    let (name, (fingerprint, (definition, (parents, (rank, (object, (expires, ()))))))) =
        read_as_list::<SnapshotFields>(alloc, text)?;
    let own = read_definition(alloc, definition.as_slice())?;
    let snapshot = Snapshot {
        name,
        fingerprint,
        own,
        parents,
        rank,
        object,
        expires,
    };
    snapshot_rule(&snapshot);
    Ok(snapshot)
}

/// The version that has this body.
pub fn read_version(alloc: Global, text: &[u8]) -> Result<Version, CanonFault>
    ensures found { IfOk result (λ v. text.now ≡ version_text v) }
    ensures fits { IfOk result (λ v. version_fits v ≡ true) }
    ensures only { (v : Version) → version_fits v ≡ true → text.now ≡ version_text v → Gives (λ x. x) result (Some v) }
{
    let (object, (made, (ranges, (marks, ())))) = read_as_list::<VersionFields>(alloc, text)?;
    let version = Version {
        object,
        made,
        ranges,
        marks,
    };
    version_rule(&version);
    Ok(version)
}

/// The environment that has this body.
pub fn read_env(alloc: Global, text: &[u8]) -> Result<Env, CanonFault>
    ensures found { IfOk result (λ e. text.now ≡ env_text e) }
    ensures fits { IfOk result (λ e. env_fits e ≡ true) }
    ensures only { (e : Env) → env_fits e ≡ true → text.now ≡ env_text e → Gives (λ x. x) result (Some e) }
{
    let (name, (pending, (list, (previous, (expires, ()))))) = read_as_list::<EnvFields>(
        alloc, text,
    )?;
    let env = Env {
        name,
        pending,
        list,
        previous,
        expires,
    };
    env_rule(&env);
    Ok(env)
}
