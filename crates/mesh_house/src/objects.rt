// The objects of a warehouse.
ghost use Rattle.std.specs.Prelude.{◌≡◌, [], true, OnOk, OnErr, Some};
ghost use Rattle.std.specs.Option.{option_copied};
ghost use Rattle.mesh_base_values.specs.Names.{name_cmp};
ghost use Rattle.mesh_list.specs.Keyed.{found, placed, exchanged, without, ascends};
ghost use Rattle.mesh_base_values.specs.NameOrder.{names_exact, names_total};
ghost use Rattle.mesh_house.specs.World.{rows_of};
ghost use Rattle.mesh_house.specs.Objects.{object_name, is_physical, are_physical};
ghost use Rattle.mesh_house.specs.Outside.{itself, outside};

use crate::outside::thin;
use mesh_base::Own;
use mesh_base_values::{Columns, Name, Pairs, Rows};
use mesh_list::{Duplicate, Keyed, Memory, Register, Same};
use std::alloc::Global;
use std::cmp::Ordering;
use std::marker::Model;

/// What an object keeps: a table keeps its rows, and another object the query that its rows are computed by.
pub enum Body {
    /// The rows of a table.
    Rows(Rows),
    /// A stored query. The targets pair each model that it reads with the object that has its rows.
    Stored { own: Own, targets: Pairs },
}

impl Drop for Body {
    fn drop(self) {
        match self {
            Body::Rows(_) | Body::Stored { own: _, targets: _ } => {}
        }
    }
}

impl Body {
    /// The rows of a table; a stored query has none of its own.
    pub fn into_rows(self) -> Option<Rows>
        ensures { result ≡ rows_of (Some self) }
    {
        match self {
            Body::Rows(rows) => Some(rows),
            Body::Stored { own: _, targets: _ } => None,
        }
    }
}

/// A physical table or a stored query, with the columns that its rows have.
pub struct Object {
    pub name: Name,
    pub columns: Columns,
    pub body: Body,
}

impl Drop for Object {
    fn drop(self) {
        let Object {
            name: _,
            columns: _,
            body: _,
        } = self;
    }
}

impl Keyed for Object {
    type Key = Name;

    ghost key = { λ o. o.name };

    ghost order = { name_cmp };

    ghost total = { names_total };

    ghost exact = { names_exact };

    fn compare(&self, other: &Name) -> Ordering {
        self.name.compare(other)
    }

    fn against(&self, other: &Object) -> Ordering {
        self.name.compare(&other.name)
    }
}

/// Objects in strictly ascending order of their names, each of a schema where two underscores adjoin.
pub struct Objects {
    list: Register<Object>,
}

impl Drop for Objects {
    fn drop(self) {
        let Objects { list: _ } = self;
    }
}

impl Model for Objects {
    ghost use Rattle.std.specs.Prelude.{List, true, ◌≡◌};
    ghost use Rattle.std.specs.Coded.{codes};
    ghost use Rattle.mesh_base.specs.contracts.expressions.Expr as expr;
    ghost use Rattle.mesh_base_values.specs.Names.{name_cmp};
    ghost use Rattle.mesh_list.specs.Keyed.{ascends};
    ghost use Rattle.mesh_house.specs.declared.objects.Object.{Object};
    ghost use Rattle.mesh_house.specs.Objects.{are_physical, object_name};

    ghost Value = { List Object };

    ghost coded = { Prim.hlevel (codes, expr.the_row.coded) };

    ghost view = { λ a. a.list };

    ghost invariant = { λ a. (ascends name_cmp object_name a.list ≡ true) × (are_physical a.list ≡ true) };
}

impl Objects {
    /// No objects, which take no memory.
    pub fn new(alloc: Global) -> Objects
        ensures { result ≡ [] }
    {
        Objects {
            list: Register::new(alloc),
        }
    }

    /// The objects, which stay where they lie.
    pub fn as_slice(&self) -> &[Object]
        ensures items { result.now ≡ self.now }
        ensures ascending { ascends name_cmp object_name self.now ≡ true }
        ensures physical { are_physical self.now ≡ true }
    {
        self.list.as_slice()
    }

    /// The object of that name.
    pub fn find(&self, name: &Name) -> Option<&Object>
        ensures { option_copied result ≡ found name_cmp object_name name.now self.now }
    {
        self.list.find(name)
    }

    /// Puts an object at its place, instead of the one that had its name. At `Err` nothing has changed.
    pub fn place(&mut self, object: Object) -> Result<(), Memory>
        requires { is_physical object.name ≡ true }
        ensures ok { OnOk result (self.new ≡ placed name_cmp object_name object self.old) }
        ensures err { OnErr result (self.new ≡ self.old) }
    {
        self.list.place(object)?;
        Ok(())
    }

    /// Puts an object in place of the one that has its name, which is answered. Where there is none, nothing changes.
    pub fn exchange(&mut self, object: Object) -> Option<Object>
        requires { is_physical object.name ≡ true }
        ensures new { self.new ≡ exchanged name_cmp object_name object self.old }
        ensures old { result ≡ found name_cmp object_name object.name self.old }
    {
        self.list.exchange(object)
    }

    /// Takes the object of that name out, if it is there.
    pub fn remove(&mut self, name: &Name) -> Option<Object>
        ensures new { self.new ≡ without name_cmp object_name name.now self.old }
        ensures old { result ≡ found name_cmp object_name name.now self.old }
    {
        self.list.remove(name)
    }

    /// Takes the objects of these names out, those of them that are there, in one pass and without memory.
    pub(crate) fn remove_all(&mut self, names: &[Name])
        requires { ascends name_cmp itself names.now ≡ true }
        ensures { self.new ≡ outside name_cmp object_name names.now self.old }
    {
        thin(&mut self.list, names);
    }
}

impl Duplicate for Objects {
    fn copy(&self) -> Result<Objects, Memory> {
        Ok(Objects {
            list: self.list.copy()?,
        })
    }
}

impl Same for Objects {
    fn same(&self, other: &Objects) -> bool {
        self.list.same(&other.list)
    }
}
