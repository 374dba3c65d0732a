// The relations that a definition names, as they lie in it: its sources and its parents are among them.
ghost use Rattle.std.specs.Prelude.{◌≡◌};
ghost use Rattle.mesh_list.specs.Keyed.{ascends};
ghost use Rattle.mesh_base_values.specs.Names.{name_cmp};
ghost use Rattle.mesh_base.specs.rules.Relations.{is_declared};
ghost use Rattle.mesh_base.specs.rules.Proper.{defn_names, from_names, is_among, names_of_all, rel_names, selects_names};
ghost use Rattle.mesh_base.specs.Keys.{ref_name};
ghost use Rattle.mesh_house_book.specs.Named.{are_known, are_named, are_parents, is_known, is_parent};

use mesh_base::rules::{is_declared, is_named};
use mesh_base::{Defn, FromItem, Own, Ref, Rel, Select, Selects};
use mesh_base_values::Name;

fn defn_has(defn: &Defn, name: &Name) -> bool
    ensures { result ≡ is_among (defn_names defn.now) name.now }
{
    match defn {
        Defn::Seed { .. } => false,
        Defn::Sql(query) => is_named(query, name),
    }
}

fn is_parent(parents: &[Ref], name: &Name) -> bool
    ensures { result ≡ is_parent parents.now name.now }
{
    let mut found = false;
    for parent in parents {
        found = found || parent.name.compare(name).is_eq();
    }
    found
}

fn is_known(parents: &[Ref], own: &Own, name: &Name) -> bool
    ensures { result ≡ is_known parents.now own.now name.now }
{
    is_declared(own.sources.as_slice(), name) || is_parent(parents, name)
}

fn rel_is_known(parents: &[Ref], own: &Own, rel: &Rel) -> bool
    ensures { result ≡ are_known parents.now own.now (rel_names rel.now) }
{
    match rel {
        Rel::Named(name) => is_known(parents, own, name),
        Rel::Cte(_) => true,
    }
}

fn from_is_known(parents: &[Ref], own: &Own, from: &[FromItem]) -> bool
    ensures { result ≡ are_known parents.now own.now (from_names from.now) }
{
    let mut each = true;
    for f in from {
        each = each && rel_is_known(parents, own, &f.rel);
    }
    each
}

fn selects_are_known(parents: &[Ref], own: &Own, selects: &[Select]) -> bool
    ensures { result ≡ are_known parents.now own.now (selects_names selects.now) }
{
    let mut each = true;
    for select in selects {
        each = each && from_is_known(parents, own, select.from.as_slice());
    }
    each
}

fn ctes_are_known(parents: &[Ref], own: &Own, ctes: &[Selects]) -> bool
    ensures { result ≡ are_known parents.now own.now (names_of_all ctes.now) }
{
    let mut each = true;
    for selects in ctes {
        each = each && selects_are_known(parents, own, selects.as_slice());
    }
    each
}

fn are_known(parents: &[Ref], own: &Own) -> bool
    ensures { result ≡ are_known parents.now own.now (defn_names own.now.defn) }
{
    match &own.defn {
        Defn::Seed { .. } => true,
        Defn::Sql(query) => ctes_are_known(parents, own, query.ctes.as_slice())
            && selects_are_known(parents, own, query.selects.as_slice()),
    }
}

fn are_named(own: &Own, parents: &[Ref]) -> bool
    ensures { result ≡ are_named own.now parents.now }
{
    let mut each = true;
    for parent in parents {
        each = each
            && defn_has(&own.defn, &parent.name)
            && !is_declared(own.sources.as_slice(), &parent.name);
    }
    each
}

/// Whether each reference's name is above that of the one before it.
pub fn ascend(refs: &[Ref]) -> bool
    ensures { result ≡ ascends name_cmp ref_name refs.now }
{
    for (i, r) in refs.iter().enumerate() {
        match &refs[i + 1..] {
            [] => {}
            [next, ..] => if !r.name.compare(&next.name).is_lt() {
                return false;
            },
        }
    }
    true
}

/// Whether the names of the parents ascend, and are just those in the definition that none of its sources has.
pub fn are_parents(parents: &[Ref], own: &Own) -> bool
    ensures { result ≡ are_parents parents.now own.now }
{
    ascend(parents) && are_named(own, parents) && are_known(parents, own)
}
