// A warehouse over a keeper.
ghost use Rattle.std.specs.Prelude.{◌≡◌, ◌≤◌, IfErr, IfOk};
ghost use Rattle.mesh_house.specs.World.{head, body, view, book};
ghost use Rattle.mesh_house.specs.House.{Changes, Reads};
ghost use Rattle.mesh_keep_house.specs.kept.Held.{IsHeld, IsHeld-prop};
ghost use Rattle.mesh_keep_house.specs.kept.Kept.{Steps};
ghost use Rattle.mesh_keep_house.specs.kept.Refused.{RefusedAs};

use crate::kept::fault::KeepFault;
use crate::kept::reading::view_of;
use crate::kept::writing::written;
use crate::stored::{LoadFail, begin, load};
use mesh_base_values::{Columns, Name};
use mesh_house::{Body, Change, Warehouse, WhFail, World};
use mesh_house_book::Book;
use mesh_keep::{KeepFail, Keeper};
use mesh_list::Duplicate;
use std::alloc::Global;

/// The world that a keeper's records say, which is absent until it is read, and the keeper.
pub struct KeptHouse<K: Keeper> {
    keeper: K,
    world: Option<World>,
    calls: u64,
    unread: u64,
    ghost held: { IsHeld world (K.told keeper).records } by { IsHeld-prop world (K.told keeper).records },
}

impl<K: Keeper> KeptHouse<K> {
    ghost use Rattle.mesh_keep_house.specs.kept.House.{OnlyKeeperFails, Starts, house_told, keeper_of};

    /// The warehouse that a keeper's records say. Where there is no record of the moment, that of an empty book is put.
    pub fn new(alloc: Global, keeper: K) -> Result<KeptHouse<K>, KeepFault<K>>
        ensures starts { IfOk result (λ house. Starts K.told keeper house) }
        ensures refused { IfErr result (λ fault. RefusedAs K.told keeper fault) }
    {
        let mut keeper = keeper;
        match begin(alloc, &mut keeper) {
            Ok(()) => Ok(KeptHouse {
                keeper,
                world: None,
                calls: 0,
                unread: 0,
            }),
            Err(KeepFail::Failed) => Err(KeepFault::Failed(keeper)),
            Err(KeepFail::Memory) => Err(KeepFault::Memory(keeper)),
        }
    }

    /// The keeper, which ends the warehouse.
    pub fn into_keeper(self) -> K
        ensures { result ≡ keeper_of self }
    {
        let KeptHouse {
            keeper,
            world,
            calls: _,
            unread: _,
        } = self;
        drop(world);
        keeper
    }

    // Reads the world where it is absent.
    fn ready(&mut self, alloc: Global) -> Result<(), WhFail>
        ensures told { Reads (λ _. record {}) (house_told K.told self.old) (house_told K.told self.new) result }
        ensures records { (K.told self.new.keeper).records ≡ (K.told self.old.keeper).records }
        ensures faults { (K.told self.old.keeper).faults ≤ (K.told self.new.keeper).faults }
        ensures only { OnlyKeeperFails K.told self.old self.new result }
    {
        if self.world.is_some() {
            return Ok(());
        }
        match load(alloc, &mut self.keeper) {
            Ok(world) => {
                drop(std::mem::replace(&mut self.world, Some(world)));
                Ok(())
            }
            Err(LoadFail::Failed) => Err(WhFail::Failed),
            Err(LoadFail::Memory) => Err(WhFail::Memory),
            Err(LoadFail::Unread) => {
                self.unread = self.unread.saturating_add(1);
                Err(WhFail::Failed)
            }
        }
    }

    // Makes a change in memory, and then by one write. Where that is refused, the world is absent until it is read
    // anew.
    fn make(&mut self, alloc: Global, change: &Change) -> Result<(), WhFail>
        ensures steps { Steps change.now (K.told self.old.keeper) (K.told self.new.keeper) result }
        ensures counts { (self.new.calls ≡ self.old.calls) × (self.new.unread ≡ self.old.unread) }
    {
        let Some(mut world) = std::mem::replace(&mut self.world, None) else {
            return Err(WhFail::Memory);
        };
        match written(alloc, &mut self.keeper, &mut world, change) {
            Ok(()) => {
                drop(std::mem::replace(&mut self.world, Some(world)));
                Ok(())
            }
            Err(fail) => {
                drop(world);
                Err(fail)
            }
        }
    }
}

impl<K: Keeper> Warehouse for KeptHouse<K> {
    ghost use Rattle.mesh_keep_house.specs.kept.House.{OnlyKeeperFails, house_told};

    ghost told = { house_told K.told };

    fn change(&mut self, alloc: Global, change: &Change) -> Result<(), WhFail>
        ensures told { Changes change.now (house_told K.told self.old) (house_told K.told self.new) result }
        ensures only { OnlyKeeperFails K.told self.old self.new result }
    {
        self.calls = self.calls.saturating_add(1);
        self.ready(alloc)?;
        self.make(alloc, change)
    }

    fn head(&mut self, alloc: Global, name: &Name) -> Result<Option<Columns>, WhFail>
        ensures told { Reads (λ w. head w name.now) (house_told K.told self.old) (house_told K.told self.new) result }
        ensures only { OnlyKeeperFails K.told self.old self.new result }
    {
        self.ready(alloc)?;
        match &self.world {
            Some(world) => Ok(world.head(name)?),
            None => Err(WhFail::Memory),
        }
    }

    fn body(&mut self, alloc: Global, name: &Name) -> Result<Option<Body>, WhFail>
        ensures told { Reads (λ w. body w name.now) (house_told K.told self.old) (house_told K.told self.new) result }
        ensures only { OnlyKeeperFails K.told self.old self.new result }
    {
        self.ready(alloc)?;
        match &self.world {
            Some(world) => Ok(world.body(name)?),
            None => Err(WhFail::Memory),
        }
    }

    fn view(&mut self, alloc: Global, name: &Name) -> Result<Option<Name>, WhFail>
        ensures told { Reads (λ w. view w name.now) (house_told K.told self.old) (house_told K.told self.new) result }
        ensures only { OnlyKeeperFails K.told self.old self.new result }
    {
        self.ready(alloc)?;
        match &self.world {
            Some(world) => Ok(view_of(world, name)?),
            None => Err(WhFail::Memory),
        }
    }

    fn book(&mut self, alloc: Global) -> Result<Book, WhFail>
        ensures told { Reads book (house_told K.told self.old) (house_told K.told self.new) result }
        ensures only { OnlyKeeperFails K.told self.old self.new result }
    {
        self.ready(alloc)?;
        match &self.world {
            Some(world) => Ok(world.book.copy()?),
            None => Err(WhFail::Memory),
        }
    }

    fn faults(&self) -> u64 {
        self.keeper.faults().saturating_add(self.unread)
    }

    fn calls(&self) -> u64 {
        self.calls
    }
}
