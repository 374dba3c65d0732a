// The things of a warehouse fit, since a program holds them.
ghost use Rattle.std.specs.Prelude.{◌≡◌, true};
ghost use Rattle.mesh_keep_records.specs.Records.{body_fits, env_fits, head_fits, object_fits, snapshot_fits, source_fits, version_fits};

use crate::book_records::BookHead;
use crate::part::Part;
use mesh_base::{Env, Input, Snapshot};
use mesh_canon::held::own_rule;
use mesh_house::{Body, Object};
use mesh_house_book::Version;

/// What a book has besides its lists fits.
pub fn head_rule(head: &BookHead)
    ensures { head_fits head.now ≡ true }
{
    head.moment.rule();
    head.version.rule()
}

/// A snapshot fits.
pub fn snapshot_rule(snapshot: &Snapshot)
    ensures { snapshot_fits snapshot.now ≡ true }
{
    own_rule(&snapshot.own);
    snapshot.fingerprint.rule();
    snapshot.parents.rule();
    snapshot.rank.rule();
    snapshot.expires.rule()
}

/// A version fits.
pub fn version_rule(version: &Version)
    ensures { version_fits version.now ≡ true }
{
    version.ranges.rule();
    version.marks.rule()
}

/// An environment fits.
pub fn env_rule(env: &Env)
    ensures { env_fits env.now ≡ true }
{
    env.list.rule();
    env.previous.rule();
    env.expires.rule()
}

// What an object keeps fits.
fn body_rule(body: &Body)
    ensures { body_fits body.now ≡ true }
{
    match body {
        Body::Rows(rows) => rows.rule(),
        Body::Stored { own, targets } => {
            own_rule(own);
            targets.rule()
        }
    }
}

/// An object fits.
pub fn object_rule(object: &Object)
    ensures { object_fits object.now ≡ true }
{
    body_rule(&object.body);
    object.columns.rule()
}

/// A source fits.
pub fn source_rule(source: &Input)
    ensures { source_fits source.now ≡ true }
{
    source.columns.rule();
    source.rows.rule()
}
