// What is found of a model on the way down.
ghost use Rattle.std.specs.Prelude.{◌≡◌, ◌++◌, OnOk, map};
ghost use Rattle.mesh_base.specs.rules.Proper.{defn_names, from_names, names_of_all, rel_names, selects_names};
ghost use Rattle.mesh_trace.specs.Feeds.{alone, own_feeds, with_column};

use crate::traces::{Trace, Traces};
use mesh_base::{Defn, FromItem, Own, Reading, Reads, Rel, Select, Selects};
use mesh_list::{Duplicate, Memory};

fn add_rel(rel: &Rel, found: &mut Traces) -> Result<(), Memory>
    ensures { OnOk result (found.new ≡ found.old ++ map alone (rel_names rel.now)) }
{
    match rel {
        Rel::Cte(_) => Ok(()),
        Rel::Named(name) => {
            let relation = name.copy()?;
            found.push(Trace {
                relation,
                column: None,
            })
        }
    }
}

fn add_from(from: &[FromItem], found: &mut Traces) -> Result<(), Memory>
    ensures { OnOk result (found.new ≡ found.old ++ map alone (from_names from.now)) }
{
    for f in from {
        add_rel(&f.rel, found)?;
    }
    Ok(())
}

fn add_selects(selects: &[Select], found: &mut Traces) -> Result<(), Memory>
    ensures { OnOk result (found.new ≡ found.old ++ map alone (selects_names selects.now)) }
{
    for s in selects {
        add_from(s.from.as_slice(), found)?;
    }
    Ok(())
}

fn add_ctes(ctes: &[Selects], found: &mut Traces) -> Result<(), Memory>
    ensures { OnOk result (found.new ≡ found.old ++ map alone (names_of_all ctes.now)) }
{
    for c in ctes {
        add_selects(c.as_slice(), found)?;
    }
    Ok(())
}

fn add_relations(d: &Defn, found: &mut Traces) -> Result<(), Memory>
    ensures { OnOk result (found.new ≡ found.old ++ map alone (defn_names d.now)) }
{
    match d {
        Defn::Seed { .. } => Ok(()),
        Defn::Sql(q) => {
            add_ctes(q.ctes.as_slice(), found)?;
            add_selects(q.selects.as_slice(), found)
        }
    }
}

fn add_columns(needed: Reads, found: &mut Traces) -> Result<(), Memory>
    ensures { OnOk result (found.new ≡ found.old ++ map with_column needed) }
{
    for r in needed.into_vec() {
        let Reading { relation, column } = r;
        found.push(Trace {
            relation,
            column: Some(column),
        })?;
    }
    Ok(())
}

/// Each relation that a model reads, and the columns that it needs of them.
pub(crate) fn add_feeds(own: &Own, needed: Reads, found: &mut Traces) -> Result<(), Memory>
    ensures { OnOk result (found.new ≡ found.old ++ own_feeds own.now needed) }
{
    add_relations(&own.defn, found)?;
    add_columns(needed, found)
}
