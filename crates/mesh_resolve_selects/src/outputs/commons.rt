// The common table expressions that stand before, found by their names.
ghost use Rattle.std.specs.Prelude.{◌≡◌, ◌<◌, [], ◌∷◌, ◌++◌, length, None, IfOk, IfSome, OnOk, OnErr};
ghost use Rattle.std.specs.List.{list_any};
ghost use Rattle.mesh_resolve_selects.specs.outputs.Commons.{cte_named, is_cte, place_named};

use mesh_base::{Rel, Selects};
use mesh_base_columns::select_columns;
use mesh_base_values::{Columns, Str};
use mesh_list::{Duplicate, Memory, Seq};
use std::alloc::Global;
use std::collections::BTreeMap;
use std::marker::Model;

/// A common table expression that stands before.
#[derive(Drop)]
pub struct Common {
    pub name: Str,
    pub selects: Selects,
}

/// The common table expressions so far, in their order, and the place of each name's first one.
pub struct Commons {
    list: Vec<Common>,
    places: BTreeMap<Str, usize>,
}

impl Drop for Commons {
    fn drop(self) {
        let Commons { list: _, places: _ } = self;
    }
}

impl Model for Commons {
    ghost use Rattle.std.specs.Prelude.{List, ℕ, ◌≡◌};
    ghost use Rattle.std.specs.Coded.{codes};
    ghost use Rattle.std.specs.BTreeMap.{get};
    ghost use Rattle.mesh_base.specs.contracts.expressions.Expr as expr;
    ghost use Rattle.mesh_base_values.specs.Names.{text_cmp};
    ghost use Rattle.mesh_resolve_selects.specs.declared.outputs.commons.Common.{Common};
    ghost use Rattle.mesh_resolve_selects.specs.outputs.Commons.{place_named};

    ghost Value = { List Common };

    ghost coded = { Prim.hlevel (codes, expr.the_row.coded) };

    ghost view = { λ s. s.list.items };

    ghost invariant = { λ s. (name : List ℕ) → get text_cmp s.places name ≡ place_named name s.list.items };
}

impl Commons {
    /// None yet.
    pub fn new(alloc: Global) -> Commons
        ensures { result ≡ [] }
    {
        Commons {
            list: Vec::new(alloc),
            places: BTreeMap::new(alloc),
        }
    }

    /// All of them.
    pub fn as_slice(&self) -> &[Common]
        ensures { result.now ≡ self.now }
    {
        self.list.as_slice()
    }

    /// One more, of a new name, behind the others.
    pub fn push(&mut self, c: Common) -> Result<(), Memory>
        requires new { place_named c.name self.old ≡ None }
        ensures ok { OnOk result (self.new ≡ self.old ++ c ∷ []) }
        ensures err { OnErr result (self.new ≡ self.old) }
    {
        let name = c.name.copy()?;
        let place = self.list.len();
        self.list.push(c)?;
        match self.places.insert(name, place) {
            Ok(_) => Ok(()),
            Err(_) => {
                drop(self.list.pop());
                Err(Memory)
            }
        }
    }

    /// The place of the first one of that name, from 0, found in steps in proportion to the logarithm of their number.
    #[tactic(auto, using(crate::proofs::outputs::Places::place_within))]
    pub fn place(&self, name: &Str) -> Option<usize>
        ensures first { result ≡ place_named name.now self.now }
        ensures within { IfSome result (λ i. i < length self.now) }
    {
        self.places.get(name).copied()
    }

    /// Whether one has that name.
    #[tactic(auto, using(crate::proofs::outputs::Places::has_place))]
    pub fn has(&self, name: &Str) -> bool
        ensures { result ≡ list_any (is_cte name.now) self.now }
    {
        self.place(name).is_some()
    }

    /// The same ones, as a list.
    pub fn into_seq(self) -> Seq<Common>
        ensures { result ≡ self }
    {
        let Commons { list, places: _ } = self;
        Seq::from_vec(list)
    }
}

/// The first CTE of that name, by its place, with its columns.
#[tactic(auto, using(crate::proofs::outputs::Places::named_at))]
pub fn cte_named(
    alloc: Global,
    ctes: &Commons,
    name: &Str,
) -> Result<Option<(Rel, Columns)>, Memory>
    ensures { IfOk result (λ found. found ≡ cte_named 0 ctes.now name.now) }
{
    let Some(place) = ctes.place(name) else {
        return Ok(None);
    };
    if place > 0xffff_ffff {
        return Err(Memory);
    }
    let columns = select_columns(alloc, ctes.as_slice()[place].selects.as_slice())?;
    Ok(Some((Rel::Cte(place as u32), columns)))
}
