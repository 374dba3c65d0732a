// The relations that a query names.
ghost use Rattle.std.specs.Prelude.{◌≡◌};
ghost use Rattle.mesh_base.specs.declared.definitions.Defn.TheVariants.{Sql};
ghost use Rattle.mesh_base.specs.rules.Relations.{is_declared};
ghost use Rattle.mesh_base.specs.rules.Proper.{defn_names, from_names, is_among, names_of_all, rel_names, selects_names};

use crate::{Decl, FromItem, Query, Rel, Select, Selects};
use mesh_base_values::Name;

fn rel_is(rel: &Rel, name: &Name) -> bool
    ensures { result ≡ is_among (rel_names rel.now) name.now }
{
    match rel {
        Rel::Named(other) => other.compare(name).is_eq(),
        Rel::Cte(_) => false,
    }
}

fn from_has(from: &[FromItem], name: &Name) -> bool
    ensures { result ≡ is_among (from_names from.now) name.now }
{
    let mut found = false;
    for f in from {
        found = found || rel_is(&f.rel, name);
    }
    found
}

fn selects_have(selects: &[Select], name: &Name) -> bool
    ensures { result ≡ is_among (selects_names selects.now) name.now }
{
    let mut found = false;
    for select in selects {
        found = found || from_has(select.from.as_slice(), name);
    }
    found
}

fn ctes_have(ctes: &[Selects], name: &Name) -> bool
    ensures { result ≡ is_among (names_of_all ctes.now) name.now }
{
    let mut found = false;
    for selects in ctes {
        found = found || selects_have(selects.as_slice(), name);
    }
    found
}

/// Whether a query, or one of its CTEs, reads a relation of that name.
pub fn is_named(q: &Query, name: &Name) -> bool
    ensures { result ≡ is_among (defn_names (Sql q.now)) name.now }
{
    ctes_have(q.ctes.as_slice(), name) || selects_have(q.selects.as_slice(), name)
}

/// Whether one of the sources has the name.
pub fn is_declared(sources: &[Decl], name: &Name) -> bool
    ensures { result ≡ is_declared sources.now name.now }
{
    let mut found = false;
    for source in sources {
        found = found || source.name.compare(name).is_eq();
    }
    found
}
