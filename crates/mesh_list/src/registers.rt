// Lists that are looked up by a key, in any order.
ghost use Rattle.std.specs.Prelude.{◌≡◌, [], OnOk, OnErr};
ghost use Rattle.std.specs.Option.{option_copied};
ghost use Rattle.mesh_list.specs.Keyed.{found, placed, without, exchanged};

use crate::copies::Duplicate;
use crate::keyed::Keyed;
use crate::memory::Memory;
use crate::places::{exchange_in, find_in, is_ascending, place_in, remove_in};
use std::alloc::Global;
use std::marker::Model;

/// A list in any order. It knows whether it is one that ascends, and is then searched by halves.
pub struct Register<T: Keyed> {
    list: Vec<T>,
    ascending: bool,
}

impl<T: Keyed + Drop> Drop for Register<T> {
    fn drop(self) {
        let Register {
            list: _,
            ascending: _,
        } = self;
    }
}

impl<T: Keyed> Model for Register<T> {
    ghost use Rattle.std.specs.Prelude.{List, true, ◌≡◌, IsTrue};
    ghost use Rattle.std.specs.Coded.{coded_list};
    ghost use Rattle.mesh_list.specs.Keyed.{ascends};

    ghost Value = { List T };

    ghost coded = { coded_list T.code };

    ghost view = { λ a. a.list.items };

    ghost invariant = { λ a. IsTrue a.ascending → ascends T.order T.key a.list.items ≡ true };
}

impl<T: Keyed> Register<T> {
    /// The empty list, which takes no memory.
    pub fn new(alloc: Global) -> Register<T>
        ensures { result ≡ [] }
    {
        Register {
            list: Vec::new(alloc),
            ascending: true,
        }
    }

    /// The list of these items, which stay where they lie.
    pub fn from_vec(items: Vec<T>) -> Register<T>
        ensures { result ≡ items.items }
    {
        let ascending = is_ascending(items.as_slice());
        Register {
            list: items,
            ascending,
        }
    }

    /// The items, which stay where they lie.
    pub fn into_vec(self) -> Vec<T>
        ensures { result.items ≡ self }
    {
        let Register { list, ascending: _ } = self;
        list
    }

    pub fn as_slice(&self) -> &[T]
        ensures { result.now ≡ self.now }
    {
        self.list.as_slice()
    }

    /// The allocator that the items lie in.
    pub fn alloc(&self) -> Global {
        *self.list.allocator()
    }

    /// The first item with this key.
    pub fn find(&self, key: &T::Key) -> Option<&T>
        ensures { option_copied result ≡ found T.order T.key key.now self.now }
    {
        find_in(self.list.as_slice(), self.ascending, key)
    }

    /// Puts an item in front of the first whose key is above its own, or instead of one with its key that comes
    /// before any such. At `Err` nothing has changed.
    pub fn place(&mut self, item: T) -> Result<(), Memory>
        ensures ok { OnOk result (self.new ≡ placed T.order T.key item self.old) }
        ensures err { OnErr result (self.new ≡ self.old) }
    {
        place_in(&mut self.list, self.ascending, item)?;
        Ok(())
    }

    /// Takes the first item with this key out.
    pub fn remove(&mut self, key: &T::Key) -> Option<T>
        ensures value { result ≡ found T.order T.key key.now self.old }
        ensures rest { self.new ≡ without T.order T.key key.now self.old }
    {
        remove_in(&mut self.list, self.ascending, key)
    }

    /// Puts an item where the first with its key stands, and answers that. Where there is none nothing changes.
    pub fn exchange(&mut self, item: T) -> Option<T>
        ensures value { result ≡ found T.order T.key (T.key item) self.old }
        ensures rest { self.new ≡ exchanged T.order T.key item self.old }
    {
        exchange_in(&mut self.list, self.ascending, item)
    }
}

impl<T: Keyed + Duplicate> Duplicate for Register<T> {
    fn copy(&self) -> Result<Register<T>, Memory> {
        let items = T::copy_items(self.alloc(), self.list.as_slice())?;
        Ok(Register {
            list: items.into_vec(),
            ascending: self.ascending,
        })
    }
}
