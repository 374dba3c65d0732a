// A keeper in memory, which tells everything and whose calls fail by a list.
ghost use Rattle.std.specs.Prelude.{◌≡◌, true, []};
ghost use Rattle.mesh_list.specs.Keyed.{ascends};
ghost use Rattle.mesh_keep.specs.Keeping.{Looks, Writing};
ghost use Rattle.mesh_keep.specs.MapKeeper.{LooksAsListed, WritesAsListed, map_fails, map_kept, map_told, next_look, next_write};
ghost use Rattle.mesh_keep.specs.Places.{body_at, kept_place, place_cmp, records_of};

use crate::fails::{look_fails, write_fails};
use crate::keeper::{KeepFail, Keeper};
use crate::kept::{Kept, Place, Records, Writes};
use crate::writing::{records_of, written};
use mesh_base_values::Str;
use mesh_house::Fails;
use mesh_list::{Duplicate, Sorted};
use std::alloc::Global;

/// Records in memory.
pub struct MapKeeper {
    kept: Sorted<Kept>,
    fails: Fails,
    next_write: u64,
    next_look: u64,
    faults: u64,
}

impl Drop for MapKeeper {
    fn drop(self) {
        let MapKeeper {
            kept: _,
            fails: _,
            next_write: _,
            next_look: _,
            faults: _,
        } = self;
    }
}

impl MapKeeper {
    /// No records, where these calls are to fail. It takes no memory.
    pub fn new(alloc: Global, fails: Fails) -> MapKeeper
        ensures told { map_told result ≡ record { records = Some []; faults = 0 } }
        ensures fails { map_fails result ≡ fails }
        ensures numbers { (next_write result ≡ 0) × (next_look result ≡ 0) }
    {
        MapKeeper {
            kept: Sorted::new(alloc),
            fails,
            next_write: 0,
            next_look: 0,
            faults: 0,
        }
    }

    // The records lie in order.
    fn tell_order(&self)
        ensures { ascends place_cmp kept_place (map_kept self.now) ≡ true }
    {
        let _records = self.kept.as_slice();
    }

    // Counts a call that only reads, and fails where it is listed.
    fn looking(&mut self) -> Result<(), KeepFail>
        ensures told { Looks (λ _. record {}) (map_told self.old) (map_told self.new) result }
        ensures listed { LooksAsListed self.old self.new result }
    {
        self.tell_order();
        let number = self.next_look;
        self.next_look = number.saturating_add(1);
        if look_fails(self.fails.as_slice(), number) {
            self.faults = self.faults.saturating_add(1);
            return Err(KeepFail::Failed);
        }
        Ok(())
    }
}

impl Keeper for MapKeeper {
    ghost told = { map_told };

    fn get(&mut self, alloc: Global, kind: u32, name: &Str) -> Result<Option<Str>, KeepFail>
        ensures told { Looks (λ kept. body_at kept kind name.now) (map_told self.old) (map_told self.new) result }
        ensures listed { LooksAsListed self.old self.new result }
    {
        self.looking()?;
        let place = Place {
            kind,
            name: name.copy()?,
        };
        match self.kept.find(&place) {
            Some(found) => Ok(Some(found.body.copy()?)),
            None => Ok(None),
        }
    }

    fn all(&mut self, alloc: Global, kind: u32) -> Result<Records, KeepFail>
        ensures told { Looks (λ kept. records_of kind kept) (map_told self.old) (map_told self.new) result }
        ensures listed { LooksAsListed self.old self.new result }
    {
        self.looking()?;
        Ok(records_of(alloc, kind, self.kept.as_slice())?)
    }

    fn write(&mut self, alloc: Global, writes: &Writes) -> Result<(), KeepFail>
        ensures told { Writing writes.now (map_told self.old) (map_told self.new) result }
        ensures listed { WritesAsListed writes.now self.old self.new result }
    {
        self.tell_order();
        let number = self.next_write;
        self.next_write = number.saturating_add(1);
        match write_fails(self.fails.as_slice(), number) {
            None => {
                self.kept = written(&self.kept, writes.as_slice())?;
                Ok(())
            }
            Some(after) => {
                self.faults = self.faults.saturating_add(1);
                if after {
                    self.kept = written(&self.kept, writes.as_slice())?;
                }
                Err(KeepFail::Failed)
            }
        }
    }

    fn faults(&self) -> u64 {
        self.faults
    }
}
