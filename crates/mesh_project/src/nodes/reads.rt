// The relations of two parts that the text of a query names.
ghost use Rattle.std.specs.Prelude.{◌≡◌, ◌++◌, IfOk, OnOk};
ghost use Rattle.std.specs.List.{flat_map};
ghost use Rattle.mesh_project.specs.nodes.Reads.{cte_reads, from_reads, join_reads, join_rel, query_reads, rel_reads, select_reads, text_reads, union_reads};

use mesh_base_values::{Name, Names};
use mesh_list::{Memory, Seq, both};
use mesh_query_grammar::surface::{
    Surface, SurfaceCte, SurfaceFrom, SurfaceJoin, SurfaceRel, SurfaceSelect, SurfaceUnion,
};
use std::alloc::Global;

fn add_rel(names: &mut Names, rel: &SurfaceRel) -> Result<(), Memory>
    ensures { OnOk result (names.new ≡ names.old ++ rel_reads rel.now) }
{
    if let Some(schema) = &rel.schema {
        let (schema, model) = both(schema, &rel.name)?;
        names.push(Name { schema, model })?;
    }
    Ok(())
}

fn join_rel(join: &SurfaceJoin) -> &SurfaceRel
    ensures { result.now ≡ join_rel join.now }
{
    match join {
        SurfaceJoin::Comma { rel, .. } => rel,
        SurfaceJoin::Cross { rel, .. } => rel,
        SurfaceJoin::Inner { rel, .. } => rel,
        SurfaceJoin::Left { rel, .. } => rel,
    }
}

fn add_joins(names: &mut Names, joins: &[SurfaceJoin]) -> Result<(), Memory>
    ensures { OnOk result (names.new ≡ names.old ++ flat_map join_reads joins.now) }
{
    for join in joins {
        add_rel(names, join_rel(join))?;
    }
    Ok(())
}

fn add_from(names: &mut Names, from: &SurfaceFrom) -> Result<(), Memory>
    ensures { OnOk result (names.new ≡ names.old ++ rel_reads from.now.first ++ flat_map join_reads from.now.joins) }
{
    add_rel(names, &from.first)?;
    add_joins(names, from.joins.as_slice())
}

fn add_select(names: &mut Names, select: &SurfaceSelect) -> Result<(), Memory>
    ensures { OnOk result (names.new ≡ names.old ++ select_reads select.now) }
{
    match &select.from {
        None => Ok(()),
        Some(from) => add_from(names, from),
    }
}

fn add_union(names: &mut Names, union: &SurfaceUnion) -> Result<(), Memory>
    ensures { OnOk result (names.new ≡ names.old ++ union_reads union.now) }
{
    for select in union.selects.as_slice() {
        add_select(names, select)?;
    }
    Ok(())
}

fn add_ctes(names: &mut Names, ctes: &[SurfaceCte]) -> Result<(), Memory>
    ensures { OnOk result (names.new ≡ names.old ++ flat_map cte_reads ctes.now) }
{
    for cte in ctes {
        add_union(names, &cte.body)?;
    }
    Ok(())
}

/// The relations of two parts that the text of a model's query names, in its order, each as often as it stands there.
pub fn text_reads(alloc: Global, query: &Option<Surface>) -> Result<Names, Memory>
    ensures { IfOk result (λ names. names ≡ text_reads query.now) }
{
    let mut names = Seq::new(alloc);
    if let Some(query) = query {
        add_ctes(&mut names, query.ctes.as_slice())?;
        add_union(&mut names, &query.body)?;
    }
    Ok(names)
}
