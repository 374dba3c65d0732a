// The first two renames that give one reference.
ghost use Rattle.std.specs.Prelude.{◌≡◌, Ok, None, IfOk, IfErr};
ghost use Rattle.std.specs.Option.{option_copied};
ghost use Rattle.std.specs.Ordering.{is_eq};
ghost use Rattle.mesh_base_values.specs.Names.{name_cmp};
ghost use Rattle.mesh_base.specs.Keys.{ref_cmp};
ghost use Rattle.mesh_janitor.specs.migrate.Migration.{TellsTwins, rename_new};
ghost use Rattle.mesh_janitor.specs.migrate.Walk.{near_twin, near_twins};

use crate::migrate::fault::MigrationFault;
use mesh_base::Rename;
use mesh_list::{Duplicate, Keyed};

fn has_name(one: &Rename, other: &Rename) -> bool
    ensures { result ≡ is_eq (name_cmp one.now.old.name other.now.old.name) }
{
    one.old.name.compare(&other.old.name).is_eq()
}

fn gives_same(one: &Rename, other: &Rename) -> bool
    ensures { result ≡ is_eq (ref_cmp (rename_new one.now) (rename_new other.now)) }
{
    one.new.cmp(&other.new).is_eq() && has_name(one, other)
}

// The first of these that gives what that one gives. It stands among those of the model, which come first.
fn near_twin<'a>(m: &Rename, rest: &'a [Rename]) -> Option<&'a Rename>
    ensures { option_copied result ≡ near_twin m.now rest.now }
{
    for other in rest {
        if !has_name(other, m) {
            return None;
        }
        if gives_same(other, m) {
            return Some(other);
        }
    }
    None
}

/// Whether no two renames of one model that stand together give one reference, or else the first two that do.
pub(crate) fn without_twins(renames: &[Rename]) -> Result<(), MigrationFault>
    ensures ok { IfOk result (λ _. near_twins renames.now ≡ None) }
    ensures err { IfErr result (λ fault. TellsTwins (near_twins renames.now) fault) }
{
    for (i, m) in renames.iter().enumerate() {
        if let Some(other) = near_twin(m, &renames[i + 1..]) {
            return Err(MigrationFault::Twins {
                name: m.old.name.copy()?,
                stored: m.old.fingerprint,
                given: other.old.fingerprint,
            });
        }
    }
    Ok(())
}
