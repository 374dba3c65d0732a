// The own definition of a model.
ghost use Rattle.std.specs.Prelude.{◌≡◌, not};
ghost use Rattle.std.specs.Option.{is_some};
ghost use Rattle.mesh_query_tokens.specs.Gives.{Gives};
ghost use Rattle.mesh_base_values.specs.Kinds.{time_column};
ghost use Rattle.mesh_resolve.specs.Owns.{are_same_columns, as_declared, body_of, is_seed, keeps_time, own, query_body, timed};

use crate::faults::no_time_column;
use crate::known::Known;
use crate::queries::resolve;
use crate::sources::sources_read;
use mesh_base::{Defn, Own, Sources};
use mesh_base_columns::select_columns;
use mesh_base_values::{ColType, Column, Kind, Seed, Str, same_text};
use mesh_list::{Duplicate, Memory, Seq, are_same, both};
use mesh_model_statement::model::ModelText;
use mesh_query_grammar::surface::Surface;
use mesh_query_tokens::ReadFault;
use mesh_resolve_types::{mismatch, unwritten};
use std::alloc::Global;

fn keeps_time(time: &Str, c: &Column) -> bool
    ensures { result ≡ keeps_time time.now c.now }
{
    same_text(c.name.as_slice(), time.as_slice()) && c.kind != ColType::Bool
}

// Whether a column keeps the time of an incremental kind.
fn timed(kind: &Kind, columns: &[Column]) -> Result<(), ReadFault>
    ensures { Gives result (timed (time_column kind.now) columns.now) }
{
    let Kind::Incremental { time, .. } = kind else {
        return Ok(());
    };
    for c in columns {
        if keeps_time(time, c) {
            return Ok(());
        }
    }
    Err(no_time_column(time.copy()?))
}

fn are_same_columns(a: &[Column], b: &[Column]) -> bool
    ensures { result ≡ are_same_columns a.now b.now }
{
    are_same(a, b)
}

fn as_declared(declared: &[Column], columns: &[Column]) -> Result<(), ReadFault>
    ensures { Gives result (as_declared declared.now columns.now) }
{
    if declared.is_empty() || are_same_columns(declared, columns) {
        Ok(())
    } else {
        Err(mismatch(0))
    }
}

// The body that a query is, with the sources that it reads.
#[tactic(auto, unfolding(crate::specs::Owns::query_body))]
fn query_body(
    alloc: Global,
    known: &Known,
    m: &ModelText,
    q: &Surface,
) -> Result<(Defn, Sources), ReadFault>
    ensures { Gives result (query_body known.now m.now.kind m.now.columns q.now) }
{
    let query = resolve(alloc, q, known)?;
    let columns = select_columns(alloc, query.selects.as_slice())?;
    timed(&m.kind, columns.as_slice())?;
    as_declared(m.columns.as_slice(), columns.as_slice())?;
    let sources = sources_read(alloc, known, &query)?;
    Ok((Defn::Sql(query), sources))
}

fn body_of(
    alloc: Global,
    known: &Known,
    m: &ModelText,
    seed: Option<Seed>,
) -> Result<(Defn, Sources), ReadFault>
    ensures { Gives result (body_of known.now m.now.kind m.now.columns seed m.now.query) }
{
    if let Some(Seed { columns, rows }) = seed {
        return Ok((Defn::Seed { columns, rows }, Seq::new(alloc)));
    }
    match &m.query {
        Some(q) => query_body(alloc, known, m, q),
        None => Err(unwritten(0)),
    }
}

/// What a model's file and its seed say, with the query resolved and each declared source that it reads, or the first
/// fault of its query. `known` is what that may read, with macros for an incremental model alone.
#[tactic(auto, unfolding(crate::specs::Owns::own))]
pub fn own_of(
    alloc: Global,
    m: &ModelText,
    seed: Option<Seed>,
    known: &Known,
) -> Result<Own, ReadFault>
    requires seeded { is_some seed ≡ is_seed m.now.kind }
    requires written { is_some m.now.query ≡ not (is_seed m.now.kind) }
    ensures { Gives result (own m.now seed known.now) }
{
    let (defn, sources) = body_of(alloc, known, m, seed)?;
    match both(&m.name, &m.kind) {
        Ok((name, kind)) => Ok(Own {
            name,
            kind,
            cron: m.cron,
            unit: m.unit,
            start: m.start,
            sources,
            defn,
        }),
        Err(Memory) => {
            drop(defn);
            Err(ReadFault::Memory)
        }
    }
}
