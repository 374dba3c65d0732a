// The world that records say.
ghost use Rattle.std.specs.Prelude.{[]};
ghost use Rattle.mesh_keep.specs.Places.{records_of};
ghost use Rattle.mesh_keep.specs.Said.{book_said, head_said, known_world, objects_said, sources_said, thing_in, things_in, views_said};
ghost use Rattle.mesh_keep_records.specs.reading.Reading.{head_in};
ghost use Rattle.mesh_keep_house.specs.stored.Loads.{Loads, Takes};

use crate::stored::fault::{LoadFail, as_taken};
use crate::stored::lists::{take_all, take_objects, take_sources, take_views};
use crate::stored::thing::{Thing, lies_in_memory};
use mesh_base::{Envs, Snapshots};
use mesh_house::{Objects, SourceTables, ViewOf, World};
use mesh_house_book::{Book, Versions};
use mesh_keep::Keeper;
use mesh_keep_records::{BookHead, head_key, read_head};
use mesh_list::{Keyed, Register, Sorted};
use std::alloc::Global;

// What a book has besides its lists, by its body.
fn take_head(alloc: Global, body: &[u8]) -> Result<BookHead, LoadFail>
    ensures { Takes (head_in body.now) result }
{
    lies_in_memory(body);
    as_taken(read_head(alloc, body))
}

fn load_head<K: Keeper>(alloc: Global, keeper: &mut K) -> Result<BookHead, LoadFail>
    ensures { Loads head_said (K.told keeper.old) (K.told keeper.new) result }
{
    let key = head_key(alloc)?;
    match keeper.get(alloc, 0, &key)? {
        None => Err(LoadFail::Unread),
        Some(body) => take_head(alloc, body.as_slice()),
    }
}

// All things of a kind of which a book has a list.
fn load_all<K: Keeper, T: Thing + Keyed>(
    alloc: Global,
    keeper: &mut K,
    kind: u32,
) -> Result<Register<T>, LoadFail>
    ensures { Loads (λ kept. things_in T.order T.key (thing_in T.said T.name T.may) [] (records_of kind kept)) (K.told keeper.old) (K.told keeper.new) result }
{
    let records = keeper.all(alloc, kind)?;
    take_all(alloc, records.as_slice())
}

fn load_views<K: Keeper>(alloc: Global, keeper: &mut K) -> Result<Sorted<ViewOf>, LoadFail>
    ensures { Loads views_said (K.told keeper.old) (K.told keeper.new) result }
{
    let records = keeper.all(alloc, 4)?;
    take_views(alloc, records.as_slice())
}

fn load_objects<K: Keeper>(alloc: Global, keeper: &mut K) -> Result<Objects, LoadFail>
    ensures { Loads objects_said (K.told keeper.old) (K.told keeper.new) result }
{
    let records = keeper.all(alloc, 5)?;
    take_objects(alloc, records.as_slice())
}

fn load_sources<K: Keeper>(alloc: Global, keeper: &mut K) -> Result<SourceTables, LoadFail>
    ensures { Loads sources_said (K.told keeper.old) (K.told keeper.new) result }
{
    let records = keeper.all(alloc, 6)?;
    take_sources(alloc, records.as_slice())
}

fn load_book<K: Keeper>(alloc: Global, keeper: &mut K) -> Result<Book, LoadFail>
    ensures { Loads book_said (K.told keeper.old) (K.told keeper.new) result }
{
    let head = load_head(alloc, keeper)?;
    let snapshots: Snapshots = load_all(alloc, keeper, 1)?;
    let versions: Versions = load_all(alloc, keeper, 2)?;
    let environments: Envs = load_all(alloc, keeper, 3)?;
    Ok(Book {
        version: head.version,
        moment: head.moment,
        snapshots,
        versions,
        environments,
    })
}

/// The world that all records say.
#[tactic(auto, unfolding(mesh_keep::specs::Said::known_world))]
pub fn load<K: Keeper>(alloc: Global, keeper: &mut K) -> Result<World, LoadFail>
    ensures { Loads known_world (K.told keeper.old) (K.told keeper.new) result }
{
    let book = load_book(alloc, keeper)?;
    let views = load_views(alloc, keeper)?;
    let objects = load_objects(alloc, keeper)?;
    let sources = load_sources(alloc, keeper)?;
    Ok(World {
        sources,
        objects,
        views,
        book,
    })
}
