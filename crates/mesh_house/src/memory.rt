// A house in memory, which tells everything and whose calls fail by a list.
ghost use Rattle.std.specs.Prelude.{◌≡◌, [], Ok, IfOk, OnErr, IsErr, IsErrOf};
ghost use Rattle.mesh_house.specs.declared.house.WhFail.TheVariants.{Failed};
ghost use Rattle.mesh_house.specs.World.{empty_world, head, body, view, book};
ghost use Rattle.mesh_house.specs.House.{Changes, Reads};
ghost use Rattle.mesh_house.specs.Memory.{memory_told, memory_world, memory_fails, fresh, next_change, next_read, ChangesAsListed, ReadsAsListed};

use crate::buffered::Buffered;
use crate::fails::{Fails, change_fails, read_fails};
use crate::house::{Warehouse, WhFail};
use crate::objects::Body;
use crate::sources::SourceTables;
use crate::world::{Change, World};
use mesh_base_values::{Columns, Name};
use mesh_house_book::Book;
use mesh_list::{Memory, Seq};
use std::alloc::Global;

// What was read or done, where there was memory for it.
fn or_wanting<T: Drop>(done: Result<T, Memory>) -> Result<T, WhFail>
    ensures ok { IfOk result (λ x. done ≡ Ok x) }
    ensures err { OnErr result (IsErr done) }
    ensures wanting { IsErrOf result Failed → ⊥ }
{
    match done {
        Ok(value) => Ok(value),
        Err(_) => Err(WhFail::Memory),
    }
}

/// A world in memory.
pub struct MemHouse {
    world: Buffered,
    fails: Fails,
    next_change: u64,
    next_read: u64,
    calls: u64,
    faults: u64,
}

impl Drop for MemHouse {
    fn drop(self) {
        let MemHouse {
            world: _,
            fails: _,
            next_change: _,
            next_read: _,
            calls: _,
            faults: _,
        } = self;
    }
}

impl MemHouse {
    /// The empty world, where no call is to fail. It takes no memory.
    pub fn new(alloc: Global) -> MemHouse
        ensures told { memory_told result ≡ fresh empty_world }
        ensures fails { memory_fails result ≡ [] }
        ensures numbers { (next_change result ≡ 0) × (next_read result ≡ 0) }
    {
        MemHouse::with(World::new(alloc), Seq::new(alloc))
    }

    /// This world, where these calls are to fail.
    pub fn with(world: World, fails: Fails) -> MemHouse
        ensures told { memory_told result ≡ fresh world }
        ensures fails { memory_fails result ≡ fails }
        ensures numbers { (next_change result ≡ 0) × (next_read result ≡ 0) }
    {
        MemHouse {
            world: Buffered::new(fails.alloc(), world),
            fails,
            next_change: 0,
            next_read: 0,
            calls: 0,
            faults: 0,
        }
    }

    /// The world as it stands. It counts as no call.
    pub fn world(&mut self) -> &World
        ensures { result.now ≡ memory_world self.old }
    {
        self.world.look()
    }

    /// The sources of the world as it stands. It counts as no call.
    pub fn sources(&self) -> &SourceTables
        ensures { result.now ≡ (memory_world self.now).sources }
    {
        self.world.sources()
    }

    /// From now on these calls are to fail, and both kinds of calls are numbered from 0 anew.
    pub fn set_fails(&mut self, fails: Fails)
        ensures told { memory_told self.new ≡ memory_told self.old }
        ensures fails { memory_fails self.new ≡ fails }
        ensures numbers { (next_change self.new ≡ 0) × (next_read self.new ≡ 0) }
    {
        self.fails = fails;
        self.next_change = 0;
        self.next_read = 0;
    }

    // Counts a call that only reads, and fails where it is listed.
    fn reading(&mut self) -> Result<(), WhFail>
        ensures told { Reads (λ _. record {}) (memory_told self.old) (memory_told self.new) result }
        ensures listed { ReadsAsListed self.old self.new result }
    {
        let number = self.next_read;
        self.next_read = number.saturating_add(1);
        if read_fails(self.fails.as_slice(), number) {
            self.faults = self.faults.saturating_add(1);
            return Err(WhFail::Failed);
        }
        Ok(())
    }
}

impl Warehouse for MemHouse {
    ghost told = { memory_told };

    fn change(&mut self, alloc: Global, change: &Change) -> Result<(), WhFail>
        ensures told { Changes change.now (memory_told self.old) (memory_told self.new) result }
        ensures listed { ChangesAsListed change.now self.old self.new result }
    {
        let number = self.next_change;
        self.next_change = number.saturating_add(1);
        self.calls = self.calls.saturating_add(1);
        match change_fails(self.fails.as_slice(), number) {
            None => or_wanting(self.world.step(alloc, change)),
            Some(after) => {
                self.faults = self.faults.saturating_add(1);
                if after {
                    self.world.step(alloc, change)?;
                }
                Err(WhFail::Failed)
            }
        }
    }

    fn head(&mut self, alloc: Global, name: &Name) -> Result<Option<Columns>, WhFail>
        ensures told { Reads (λ w. head w name.now) (memory_told self.old) (memory_told self.new) result }
        ensures listed { ReadsAsListed self.old self.new result }
    {
        self.reading()?;
        or_wanting(self.world.head(name))
    }

    fn body(&mut self, alloc: Global, name: &Name) -> Result<Option<Body>, WhFail>
        ensures told { Reads (λ w. body w name.now) (memory_told self.old) (memory_told self.new) result }
        ensures listed { ReadsAsListed self.old self.new result }
    {
        self.reading()?;
        or_wanting(self.world.body(name))
    }

    fn view(&mut self, alloc: Global, name: &Name) -> Result<Option<Name>, WhFail>
        ensures told { Reads (λ w. view w name.now) (memory_told self.old) (memory_told self.new) result }
        ensures listed { ReadsAsListed self.old self.new result }
    {
        self.reading()?;
        or_wanting(self.world.view(name))
    }

    fn book(&mut self, alloc: Global) -> Result<Book, WhFail>
        ensures told { Reads book (memory_told self.old) (memory_told self.new) result }
        ensures listed { ReadsAsListed self.old self.new result }
    {
        self.reading()?;
        or_wanting(self.world.book())
    }

    fn faults(&self) -> u64 {
        self.faults
    }

    fn calls(&self) -> u64 {
        self.calls
    }
}
