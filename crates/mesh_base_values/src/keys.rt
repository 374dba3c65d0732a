// Names as keys of lists.
ghost use Rattle.std.specs.Prelude.{◌≡◌};
ghost use Rattle.mesh_base_values.specs.Names.{name_cmp};
ghost use Rattle.mesh_base_values.specs.NameOrder.{names_total, names_exact};

use crate::values::Name;
use mesh_list::Keyed;
use std::cmp::Ordering;

impl Keyed for Name {
    type Key = Name;

    ghost key = { λ n. n };

    ghost order = { name_cmp };

    fn compare(&self, other: &Name) -> Ordering {
        Name::compare(self, other)
    }

    fn against(&self, other: &Name) -> Ordering {
        Name::compare(self, other)
    }

    ghost total = { names_total };

    ghost exact = { names_exact };
}
