// Lists that are looked up by a key, in strictly ascending order of it.
ghost use Rattle.std.specs.Prelude.{◌≡◌, [], OnOk, OnErr, true};
ghost use Rattle.std.specs.Option.{option_copied};
ghost use Rattle.std.specs.declared.cmp.Ordering.{Ordering};
ghost use Rattle.std.specs.Cmp.{IsTotalOrder};
ghost use Rattle.std.proofs.lemmas.Map.Lookups.{CmpEqualImpliesEq};
ghost use Rattle.mesh_list.specs.Keyed.{found, placed, without, exchanged, ascends};

use crate::copies::Duplicate;
use crate::memory::Memory;
use crate::places::{exchange_in, find_in, place_in, remove_in};
use std::alloc::Global;
use std::cmp::Ordering;
use std::marker::Model;

/// A value that is found by a key. Two keys that compare alike are one.
pub trait Keyed: Drop {
    type Key;

    ghost key: { Self → Self.Key };

    ghost order: { Self.Key → Self.Key → Ordering };

    /// How this value's key stands to another key.
    fn compare(&self, other: &Self::Key) -> Ordering
        ensures { result ≡ order (key self.now) other.now };

    /// How this value's key stands to that of another value.
    fn against(&self, other: &Self) -> Ordering
        ensures { result ≡ order (key self.now) (key other.now) };

    ghost total: { IsTotalOrder order };

    ghost exact: { CmpEqualImpliesEq order };
}

/// A list in strictly ascending order of its keys.
pub struct Sorted<T: Keyed> {
    list: Vec<T>,
}

impl<T: Keyed + Drop> Drop for Sorted<T> {
    fn drop(self) {
        let Sorted { list: _ } = self;
    }
}

impl<T: Keyed> Model for Sorted<T> {
    ghost use Rattle.std.specs.Prelude.{List, true, ◌≡◌};
    ghost use Rattle.std.specs.Coded.{coded_list};
    ghost use Rattle.mesh_list.specs.Keyed.{ascends};

    ghost Value = { List T };

    ghost coded = { coded_list T.code };

    ghost view = { λ a. a.list.items };

    ghost invariant = { λ a. ascends T.order T.key a.list.items ≡ true };
}

impl<T: Keyed> Sorted<T> {
    /// The empty list, which takes no memory.
    pub fn new(alloc: Global) -> Sorted<T>
        ensures { result ≡ [] }
    {
        Sorted {
            list: Vec::new(alloc),
        }
    }

    pub fn as_slice(&self) -> &[T]
        ensures items { result.now ≡ self.now }
        ensures ascending { ascends T.order T.key self.now ≡ true }
    {
        self.list.as_slice()
    }

    /// The allocator that the items lie in.
    pub fn alloc(&self) -> Global {
        *self.list.allocator()
    }

    /// The item with this key, found by halves.
    pub fn find(&self, key: &T::Key) -> Option<&T>
        ensures { option_copied result ≡ found T.order T.key key.now self.now }
    {
        find_in(self.list.as_slice(), true, key)
    }

    /// Puts an item at its place, instead of the one that had its key. At `Err` nothing has changed.
    pub fn place(&mut self, item: T) -> Result<(), Memory>
        ensures ok { OnOk result (self.new ≡ placed T.order T.key item self.old) }
        ensures err { OnErr result (self.new ≡ self.old) }
    {
        place_in(&mut self.list, true, item)?;
        Ok(())
    }

    /// Takes the item with this key out.
    pub fn remove(&mut self, key: &T::Key) -> Option<T>
        ensures value { result ≡ found T.order T.key key.now self.old }
        ensures rest { self.new ≡ without T.order T.key key.now self.old }
    {
        remove_in(&mut self.list, true, key)
    }

    /// Puts an item where the one with its key stands, and answers that. Where there is none nothing changes.
    pub fn exchange(&mut self, item: T) -> Option<T>
        ensures value { result ≡ found T.order T.key (T.key item) self.old }
        ensures rest { self.new ≡ exchanged T.order T.key item self.old }
    {
        exchange_in(&mut self.list, true, item)
    }
}

impl<T: Keyed + Duplicate> Duplicate for Sorted<T> {
    fn copy(&self) -> Result<Sorted<T>, Memory> {
        let items = T::copy_items(self.alloc(), self.list.as_slice())?;
        Ok(Sorted {
            list: items.into_vec(),
        })
    }
}
