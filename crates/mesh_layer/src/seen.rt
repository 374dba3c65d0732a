// Whether all that a stored query names is there: its sources, its targets and earlier CTEs.
ghost use Rattle.std.specs.Prelude.{◌≡◌, ◌||◌, [], slice_get};
ghost use Rattle.std.specs.Option.{is_some, option_copied};
ghost use Rattle.mesh_base.specs.rules.Relations.{is_declared, relation_columns};
ghost use Rattle.mesh_base.specs.rules.Seen.{rel_columns, are_there};
ghost use Rattle.mesh_spec_changes.specs.shown.Shown.{stored_relations, selects_there, ctes_there, is_query_there};
ghost use Rattle.mesh_layer.specs.Lost.{stored_query};
ghost use Rattle.mesh_layer.specs.Read.{is_target};

use mesh_base::rules::is_declared;
use mesh_base::{Defn, FromItem, Own, Query, Rel, Select, Selects};
use mesh_base_values::{Name, Pair};

fn is_target(targets: &[Pair], name: &Name) -> bool
    ensures { result ≡ is_target targets.now name.now }
{
    let mut found = false;
    for target in targets {
        found = found || target.first.compare(name).is_eq();
    }
    found
}

fn is_known(own: &Own, targets: &[Pair], name: &Name) -> bool
    ensures { result ≡ (is_declared own.now.sources name.now || is_target targets.now name.now) }
{
    is_declared(own.sources.as_slice(), name) || is_target(targets, name)
}

fn has_cte(ctes: &[Selects], at: u32) -> bool
    ensures { result ≡ is_some (slice_get ctes.now at) }
{
    match ctes.get(at as usize) {
        Some(_) => true,
        None => false,
    }
}

/// A stored query may name the relation, or the CTE, where these CTEs stand before.
fn is_there(own: &Own, targets: &[Pair], ctes: &[Selects], rel: &Rel) -> bool
    ensures { result ≡ is_some (rel_columns (stored_relations own.now targets.now) ctes.now rel.now) }
{
    match rel {
        Rel::Named(name) => is_known(own, targets, name),
        Rel::Cte(at) => has_cte(ctes, *at),
    }
}

fn are_there(own: &Own, targets: &[Pair], ctes: &[Selects], from: &[FromItem]) -> bool
    ensures { result ≡ are_there (stored_relations own.now targets.now) ctes.now from.now }
{
    let mut each = true;
    for f in from {
        each = each && is_there(own, targets, ctes, &f.rel);
    }
    each
}

fn selects_there(own: &Own, targets: &[Pair], ctes: &[Selects], selects: &[Select]) -> bool
    ensures { result ≡ selects_there (stored_relations own.now targets.now) ctes.now selects.now }
{
    let mut each = true;
    for s in selects {
        each = each && are_there(own, targets, ctes, s.from.as_slice());
    }
    each
}

fn ctes_there(own: &Own, targets: &[Pair], ctes: &[Selects]) -> bool
    ensures { result ≡ ctes_there (stored_relations own.now targets.now) [] ctes.now }
{
    for (i, selects) in ctes.iter().enumerate() {
        if !selects_there(own, targets, &ctes[..i], selects.as_slice()) {
            return false;
        }
    }
    true
}

fn is_query_there(own: &Own, targets: &[Pair], query: &Query) -> bool
    ensures { result ≡ is_query_there (stored_relations own.now targets.now) query.now }
{
    ctes_there(own, targets, query.ctes.as_slice())
        && selects_there(
            own,
            targets,
            query.ctes.as_slice(),
            query.selects.as_slice(),
        )
}

/// The query of a stored definition, where all that it names is there.
pub(crate) fn stored_query<'a>(own: &'a Own, targets: &[Pair]) -> Option<&'a Query>
    ensures { option_copied result ≡ stored_query own.now targets.now own.now.defn }
{
    match &own.defn {
        Defn::Seed { .. } => None,
        Defn::Sql(query) => {
            if is_query_there(own, targets, query) {
                Some(query)
            } else {
                None
            }
        }
    }
}
