// The objects whose rows are known, so that each is computed once.
ghost use Rattle.std.specs.Prelude.{◌≡◌, ◌≤◌, [], IfOk, IfSome, OnOk};
ghost use Rattle.mesh_base_values.specs.Names.{name_cmp};
ghost use Rattle.mesh_base_values.specs.NameOrder.{names_exact, names_total};
ghost use Rattle.mesh_house.specs.declared.world.World.{World};
ghost use Rattle.mesh_layer.specs.Read.{AreKnown, IsFound};

use mesh_base_values::{Columns, Name, Rows};
use mesh_list::{Duplicate, Keyed, Memory, Sorted, both};
use std::cmp::Ordering;

/// An object's columns and rows, and how many stored queries stand behind one another there at most.
#[derive(Drop)]
pub struct Found {
    pub height: u64,
    pub columns: Columns,
    pub rows: Rows,
}

/// The same, by the object's name.
pub struct Entry {
    pub name: Name,
    pub found: Found,
}

impl Drop for Entry {
    fn drop(self) {
        let Entry { name: _, found: _ } = self;
    }
}

/// What is known so far, by name.
pub type Known = Sorted<Entry>;

impl Keyed for Entry {
    type Key = Name;

    ghost key = { λ e. e.name };

    ghost order = { name_cmp };

    ghost total = { names_total };

    ghost exact = { names_exact };

    fn compare(&self, other: &Name) -> Ordering {
        self.name.compare(other)
    }

    fn against(&self, other: &Entry) -> Ordering {
        self.name.compare(&other.name)
    }
}

impl Duplicate for Found {
    fn copy(&self) -> Result<Found, Memory> {
        let (columns, rows) = both(&self.columns, &self.rows)?;
        Ok(Found {
            height: self.height,
            columns,
            rows,
        })
    }
}

/// What is known of an object, where no more stored queries than that stand behind one another in it.
#[inline(never)]
pub(crate) fn known_at(known: &Known, depth: u64, name: &Name) -> Result<Option<Found>, Memory>
    ensures height { IfOk result (λ there. IfSome there (λ f. f.height ≤ depth)) }
    ensures found { IfOk result (λ there. IfSome there (λ f. (w : World) → AreKnown w known.now → IsFound w name.now f)) }
{
    match known.find(name) {
        Some(entry) if entry.found.height <= depth => Ok(Some(entry.found.copy()?)),
        _ => Ok(None),
    }
}

/// Keeps what was found of an object that stores a query. A table's rows are as soon read again as copied.
pub(crate) fn keep(known: &mut Known, name: &Name, found: &Found) -> Result<(), Memory>
    ensures { OnOk result ((w : World) → AreKnown w known.old → IsFound w name.now found.now → AreKnown w known.new) }
{
    if found.height == 0 {
        return Ok(());
    }
    let (name, found) = both(name, found)?;
    known.place(Entry { name, found })?;
    Ok(())
}
