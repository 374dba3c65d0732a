// What a query is evaluated over, and what came of a command.
use crate::queries::Query;
use mesh_base_values::{Bounds, Columns, Name, Rows, Str};
use mesh_list::{Duplicate, Memory, Same, Seq, both};

pub type Inputs = Seq<Input>;

pub type Pools = Seq<Inputs>;

pub type Jobs = Seq<Job>;

/// A table by the name that a query reads it by.
pub struct Input {
    pub name: Name,
    pub columns: Columns,
    pub rows: Rows,
}

impl Drop for Input {
    fn drop(self) {
        let Input {
            name: _,
            columns: _,
            rows: _,
        } = self;
    }
}

/// A query to be evaluated over the inputs of the pool at the place `pool`, from 0. Where there is a time column, only
/// rows that lie in the bounds count.
pub struct Job {
    pub query: Query,
    pub pool: u32,
    pub bounds: Bounds,
    pub time: Option<Str>,
}

impl Drop for Job {
    fn drop(self) {
        let Job {
            query: _,
            pool: _,
            bounds: _,
            time: _,
        } = self;
    }
}

/// How many units were computed, and how many changes the warehouse was asked for.
#[derive(Clone, Copy, PartialEq, Eq)]
pub struct Done {
    pub units: u64,
    pub changes: u64,
}

/// How much went, and how many changes the warehouse was asked for.
#[derive(Clone, Copy, PartialEq, Eq)]
pub struct Swept {
    pub environments: u64,
    pub objects: u64,
    pub snapshots: u64,
    pub changes: u64,
}

impl Duplicate for Input {
    fn copy(&self) -> Result<Input, Memory> {
        let name = self.name.copy()?;
        let (columns, rows) = both(&self.columns, &self.rows)?;
        Ok(Input {
            name,
            columns,
            rows,
        })
    }
}

impl Same for Input {
    fn same(&self, other: &Input) -> bool {
        self.name.same(&other.name)
            && self.columns.same(&other.columns)
            && self.rows.same(&other.rows)
    }
}
