// The FROM items of a SELECT, as its expressions see them.
ghost use Rattle.std.specs.Prelude.{◌≡◌, ◌<◌, length, None, IfSome, OnOk, OnErr};
ghost use Rattle.mesh_resolve_scope.specs.sight.Sight.{is_column, meant, nothing_seen, seeing};
ghost use Rattle.mesh_resolve_scope.specs.sight.Sole.{places_from, sole};

use crate::sight::index::{Index, add_seen};
use mesh_base_values::{ColType, Columns, Str};
use mesh_list::Memory;
use std::alloc::Global;
use std::collections::BTreeMap;
use std::marker::Model;

/// A FROM item: its place in FROM from 0, the name that it has in its SELECT, and its columns.
#[derive(Drop)]
pub struct Seen {
    pub place: u32,
    pub name: Str,
    pub columns: Columns,
}

/// A column that a name may mean: the place of its FROM item, and its type.
#[derive(Clone, Copy)]
pub struct Meant {
    pub item: u32,
    pub kind: ColType,
}

/// What an expression may name: columns of FROM items and, in an incremental model, macros. For the name of a column it
/// has what that means without the name of a FROM item, and for the name of a FROM item where that stands; either is
/// `None` where there are several.
pub struct Sight {
    from: Vec<Seen>,
    macros: bool,
    columns: Index<Meant>,
    places: Index<usize>,
}

impl Drop for Sight {
    fn drop(self) {
        let Sight {
            from: _,
            macros: _,
            columns: _,
            places: _,
        } = self;
    }
}

impl Model for Sight {
    ghost use Rattle.std.specs.Coded.{codes};
    ghost use Rattle.mesh_resolve_scope.specs.sight.InSight.{Sight as Shown};
    ghost use Rattle.mesh_resolve_scope.specs.sight.Sole.{IsIndexed};

    ghost Value = { Shown };

    ghost coded = { Prim.hlevel (codes) };

    ghost view = { λ s. record { from = s.from.items; macros = s.macros } };

    ghost invariant = { λ s. IsIndexed s.from.items s.columns s.places };
}

impl Sight {
    /// Nothing in sight, before the first FROM item.
    pub fn new(alloc: Global, macros: bool) -> Sight
        ensures { result ≡ nothing_seen macros }
    {
        Sight {
            from: Vec::new(alloc),
            macros,
            columns: BTreeMap::new(alloc),
            places: BTreeMap::new(alloc),
        }
    }

    /// One more FROM item, of this name and with these columns. Where memory is wanting, nothing is in sight any more.
    pub fn see(&mut self, name: Str, columns: Columns) -> Result<(), Memory>
        ensures ok { OnOk result (self.new ≡ seeing self.old name columns) }
        ensures err { OnErr result (self.new ≡ nothing_seen self.old.macros) }
    {
        let place = self.from.len();
        let added = if place > 0xffff_ffff {
            Err(Memory)
        } else {
            let place = place as u32;
            let seen = Seen {
                place,
                name,
                columns,
            };
            add_seen(&mut self.from, &mut self.columns, &mut self.places, seen)
        };
        if added.is_err() {
            self.from.clear();
            self.columns.clear();
            self.places.clear();
        }
        added
    }

    /// The FROM items, in their order.
    pub fn from(&self) -> &[Seen]
        ensures { result.now ≡ self.now.from }
    {
        self.from.as_slice()
    }

    /// Whether macros may stand here.
    pub fn macros(&self) -> bool
        ensures { result ≡ self.now.macros }
    {
        self.macros
    }

    /// Whether a column of some FROM item has that name.
    pub fn has_column(&self, name: &Str) -> bool
        ensures { result ≡ is_column name.now self.now.from }
    {
        self.columns.contains_key(name)
    }

    /// What the name of a column means where no FROM item is named.
    pub(crate) fn column(&self, name: &Str) -> Option<Option<Meant>>
        ensures { result ≡ sole (meant None name.now self.now.from) }
    {
        self.columns.get(name).copied()
    }

    /// Where the FROM item of that name stands.
    pub(crate) fn place(&self, name: &Str) -> Option<Option<usize>>
        ensures sole { result ≡ sole (places_from 0 name.now self.now.from) }
        ensures within { IfSome result (λ only. IfSome only (λ place. place < length self.now.from)) }
    {
        self.places.get(name).copied()
    }
}
