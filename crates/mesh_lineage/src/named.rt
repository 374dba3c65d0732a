// The columns that expressions name, where the names lie.
ghost use Rattle.std.specs.Prelude.{◌≡◌, ◌++◌, ◌∷◌, [], Ok, OnOk};
ghost use Rattle.mesh_lineage.specs.Alike.{IsAlike};
ghost use Rattle.mesh_lineage.specs.Named.{places_of};

use mesh_base_values::Str;
use mesh_list::Memory;
use std::alloc::Global;
use std::marker::Model;

/// FROM items' places, each with a column's name, which lies in an expression. Contracts see the names.
pub(crate) struct Named<'a> {
    list: Vec<(u32, &'a Str)>,
}

impl Drop for Named<'_> {
    fn drop(self) {
        let Named { list: _ } = self;
    }
}

/// Two steps are done where each is.
pub(crate) fn both_done(first: Result<(), Memory>, second: Result<(), Memory>) -> Result<(), Memory>
    ensures { OnOk result ((first ≡ Ok tt) × (second ≡ Ok tt)) }
{
    first?;
    second
}

impl<'a> Model for Named<'a> {
    ghost use Rattle.std.specs.Prelude.{List};
    ghost use Rattle.mesh_spec_query.specs.Named.{Place};
    ghost use Rattle.mesh_lineage.specs.Named.{places_of};

    ghost Value = { List Place };

    ghost view = { λ n. places_of n.list.items };
}

impl<'a> Named<'a> {
    pub(crate) fn new(alloc: Global) -> Named<'a>
        ensures { result ≡ [] }
    {
        Named {
            list: Vec::new(alloc),
        }
    }

    pub(crate) fn push(&mut self, item: u32, name: &'a Str) -> Result<(), Memory>
        ensures { OnOk result (self.new ≡ self.old ++ (item, name.now) ∷ []) }
    {
        self.list.push((item, name))?;
        Ok(())
    }

    /// By FROM item and then by column.
    pub(crate) fn sort(&mut self)
        ensures { IsAlike self.new self.old }
    {
        self.list.sort_unstable();
    }

    pub(crate) fn as_slice(&self) -> &[(u32, &'a Str)]
        ensures { places_of result.now ≡ self.now }
    {
        self.list.as_slice()
    }
}
