// The records of things, as they stand in a world.
ghost use Rattle.std.specs.Prelude.{◌≡◌, ◌++◌, ◌∷◌, [], true, IfOk, Ok, Some, map};
ghost use Rattle.std.specs.List.{list_all};
ghost use Rattle.mesh_canon_reading.specs.Fits.{text_fits};
ghost use Rattle.mesh_keep_records.specs.Keys.{head_key};
ghost use Rattle.mesh_keep_records.specs.Parts.{option_fits};
ghost use Rattle.mesh_keep_records.specs.Records.{head_fits, head_text};
ghost use Rattle.mesh_keep_house.specs.touched.Touched.{thing_fits, write_of};

use crate::bodies::head_body;
use crate::touched::bodies::{env_of, object_of, snapshot_of, source_of, version_of, view_of};
use crate::touched::things::Thing;
use mesh_base_values::Str;
use mesh_canon::held::text_rule;
use mesh_house::World;
use mesh_keep::{Write, Writes};
use mesh_keep_records::{BookHead, Part, env_key, head_key, snapshot_key, thing_key};
use mesh_list::{Memory, Seq, together};
use std::alloc::Global;

// A body lies in memory, where there is one.
fn body_rule(body: &Option<Str>)
    ensures { option_fits text_fits body.now ≡ true }
{
    match body {
        Some(text) => text_rule(text.as_slice()),
        None => {}
    }
}

// The record of that kind under a name, which goes where it has no body.
fn written(
    kind: u32,
    name: Result<Str, Memory>,
    body: Result<Option<Str>, Memory>,
) -> Result<Write, Memory>
    ensures made { IfOk result (λ w. (w.kind ≡ kind) × (name ≡ Ok w.name) × (body ≡ Ok w.body)) }
    ensures fits { IfOk result (λ w. (text_fits w.name ≡ true) × (option_fits text_fits w.body ≡ true)) }
{
    let (name, body) = together(name, body)?;
    text_rule(name.as_slice());
    body_rule(&body);
    Ok(Write { kind, name, body })
}

/// The record of what a book has besides its lists.
pub fn head_write(alloc: Global, head: &BookHead) -> Result<Write, Memory>
    ensures made { IfOk result (λ w. w ≡ record { kind = 0; name = head_key; body = Some (head_text head.now) }) }
    ensures fits { IfOk result (λ w. (text_fits w.name ≡ true) × (option_fits text_fits w.body ≡ true)) }
    ensures head { IfOk result (λ _. head_fits head.now ≡ true) }
{
    let (name, body) = together(head_key(alloc), head_body(alloc, head))?;
    text_rule(name.as_slice());
    text_rule(body.as_slice());
    Ok(Write {
        kind: 0,
        name,
        body: Some(body),
    })
}

// The record of a thing, as it stands in a world.
fn write_of(alloc: Global, world: &World, thing: &Thing) -> Result<Write, Memory>
    ensures made { IfOk result (λ w. w ≡ write_of world.now thing.now) }
    ensures fits { IfOk result (λ _. thing_fits world.now thing.now ≡ true) }
{
    match thing {
        Thing::Head => {
            let head = BookHead {
                version: world.book.version,
                moment: world.book.moment,
            };
            head_write(alloc, &head)
        }
        Thing::Snapshot(key) => {
            key.fingerprint.rule();
            let name = snapshot_key(alloc, &key.name, &key.fingerprint);
            written(1, name, snapshot_of(alloc, world, key))
        }
        Thing::Version(key) => written(2, thing_key(alloc, key), version_of(alloc, world, key)),
        Thing::Env(key) => written(3, env_key(alloc, key), env_of(alloc, world, key)),
        Thing::View(key) => written(4, thing_key(alloc, key), view_of(alloc, world, key)),
        Thing::Object(key) => written(5, thing_key(alloc, key), object_of(alloc, world, key)),
        Thing::Source(key) => written(6, thing_key(alloc, key), source_of(alloc, world, key)),
    }
}

fn push_write(alloc: Global, world: &World, thing: &Thing, made: &mut Writes) -> Result<(), Memory>
    ensures made { IfOk result (λ _. made.new ≡ made.old ++ write_of world.now thing.now ∷ []) }
    ensures fits { IfOk result (λ _. thing_fits world.now thing.now ≡ true) }
{
    made.push(write_of(alloc, world, thing)?)
}

/// The records of things, one after another.
pub(crate) fn writes_of(alloc: Global, world: &World, things: &[Thing]) -> Result<Writes, Memory>
    ensures made { IfOk result (λ made. made ≡ map (write_of world.now) things.now) }
    ensures fits { IfOk result (λ _. list_all (thing_fits world.now) things.now ≡ true) }
{
    let mut made = Seq::new(alloc);
    for thing in things {
        push_write(alloc, world, thing, &mut made)?;
    }
    Ok(made)
}
