// Jobs over one table of numbers: each has the one row that lies in its bounds.
use mesh_base::{Defn, Input, Inputs, Job, Jobs, Own, Pools, Query};
use mesh_base_values::{Bounds, Cell, ColType, Column, Columns, Name, Row, Rows, Str};
use mesh_canon::canon::{CanonFault, read_own};
use mesh_cases::Trouble;
use mesh_list::{Duplicate, Memory, Seq, both, push_made, together};
use std::alloc::Global;

/// The view a.v: `SELECT x FROM a.t`.
const VIEW: &[u8] =
    b"(own 1:a 1:v (view) 9:0 0 * * * day none [] (query [] [(select all plain [(as 1:x int (col 0 1:x))] [(item first (rel 1:a 1:t) none)] none [] none)]))";

/// The query of the view.
pub fn query(alloc: Global) -> Result<Query, Trouble> {
    match read_own(alloc, VIEW) {
        Ok(own) => query_in(&own),
        Err(CanonFault::NotCanonical) => Err(Trouble::Case),
        Err(CanonFault::Memory) => Err(Trouble::Memory),
    }
}

fn query_in(own: &Own) -> Result<Query, Trouble> {
    match &own.defn {
        Defn::Sql(query) => Ok(query.copy()?),
        Defn::Seed { .. } => Err(Trouble::Case),
    }
}

fn columns(alloc: Global) -> Result<Columns, Memory> {
    let name = u8::copy_items(alloc, b"x")?;
    let mut columns = Seq::new(alloc);
    columns.push(Column {
        name,
        kind: ColType::Int,
    })?;
    Ok(columns)
}

fn row(alloc: Global, number: i64) -> Result<Row, Memory> {
    let mut row = Seq::new(alloc);
    row.push(Cell::Int(number))?;
    Ok(row)
}

fn rows(alloc: Global, count: u32) -> Result<Rows, Memory> {
    let mut rows = Seq::new(alloc);
    for number in 0..count {
        push_made(&mut rows, row(alloc, i64::from(number)))?;
    }
    Ok(rows)
}

fn name(alloc: Global) -> Result<Name, Memory> {
    let (schema, model) = together(u8::copy_items(alloc, b"a"), u8::copy_items(alloc, b"t"))?;
    Ok(Name { schema, model })
}

/// The table a.t with the numbers below a count.
fn table(alloc: Global, count: u32) -> Result<Input, Memory> {
    let (name, (columns, rows)) = together(
        name(alloc),
        together(columns(alloc), rows(alloc, count)),
    )?;
    Ok(Input {
        name,
        columns,
        rows,
    })
}

fn inputs(alloc: Global, count: u32) -> Result<Inputs, Memory> {
    let mut inputs = Seq::new(alloc);
    push_made(&mut inputs, table(alloc, count))?;
    Ok(inputs)
}

/// One pool, in which a.t has the numbers below a count.
pub fn pools(alloc: Global, count: u32) -> Result<Pools, Trouble> {
    let mut pools = Seq::new(alloc);
    push_made(&mut pools, inputs(alloc, count))?;
    Ok(pools)
}

/// The job of a number: of the rows it has that of the number.
pub fn job(query: &Query, time: &Str, number: u32) -> Result<Job, Memory> {
    let start = i64::from(number);
    let (time, query) = both(time, query)?;
    Ok(Job {
        query,
        pool: 0,
        bounds: Bounds {
            start,
            end: start + 1,
        },
        time: Some(time),
    })
}

/// The jobs of the numbers below a count.
pub fn jobs(alloc: Global, query: &Query, count: u32) -> Result<Jobs, Trouble> {
    let time = u8::copy_items(alloc, b"x")?;
    let mut jobs = Seq::new(alloc);
    for number in 0..count {
        push_made(&mut jobs, job(query, &time, number))?;
    }
    Ok(jobs)
}
