// What a model is by itself, once its files were read and resolved.
use crate::queries::Query;
use mesh_base_values::{Columns, Cron, Kind, Name, Rows, Str, Unit};
use mesh_list::{Duplicate, Memory, Same, Seq, both};

pub type Sources = Seq<Decl>;

pub type Externals = Seq<Decl>;

pub type Reads = Seq<Reading>;

/// The declaration of a source, which is timed if it declares a time column, and static if it declares none.
#[derive(Drop)]
pub struct Decl {
    pub name: Name,
    pub columns: Columns,
    pub time: Option<Str>,
}

pub enum Defn {
    Seed { columns: Columns, rows: Rows },
    Sql(Query),
}

impl Drop for Defn {
    fn drop(self) {
        match self {
            Defn::Seed {
                columns: _,
                rows: _,
            }
            | Defn::Sql(_) => {}
        }
    }
}

/// A model without its parents: it is what makes a table's rows, and what its fingerprint begins with. `start` is a
/// day, counted from 1970-01-01.
pub struct Own {
    pub name: Name,
    pub kind: Kind,
    pub cron: Cron,
    pub unit: Unit,
    pub start: Option<i32>,
    pub sources: Sources,
    pub defn: Defn,
}

impl Drop for Own {
    fn drop(self) {
        let Own {
            name: _,
            kind: _,
            cron: _,
            unit: _,
            start: _,
            sources: _,
            defn: _,
        } = self;
    }
}

/// A column of a model or a source that a query names.
#[derive(Drop)]
pub struct Reading {
    pub relation: Name,
    pub column: Str,
}

impl Duplicate for Decl {
    fn copy(&self) -> Result<Decl, Memory> {
        let (name, columns) = both(&self.name, &self.columns)?;
        let time = self.time.copy()?;
        Ok(Decl {
            name,
            columns,
            time,
        })
    }
}

impl Duplicate for Defn {
    fn copy(&self) -> Result<Defn, Memory> {
        match self {
            Defn::Seed { columns, rows } => {
                let (columns, rows) = both(columns, rows)?;
                Ok(Defn::Seed { columns, rows })
            }
            Defn::Sql(query) => Ok(Defn::Sql(query.copy()?)),
        }
    }
}

impl Duplicate for Own {
    fn copy(&self) -> Result<Own, Memory> {
        let (name, kind) = both(&self.name, &self.kind)?;
        let (sources, defn) = both(&self.sources, &self.defn)?;
        Ok(Own {
            name,
            kind,
            cron: self.cron,
            unit: self.unit,
            start: self.start,
            sources,
            defn,
        })
    }
}

impl Duplicate for Reading {
    fn copy(&self) -> Result<Reading, Memory> {
        let (relation, column) = both(&self.relation, &self.column)?;
        Ok(Reading { relation, column })
    }
}

impl Same for Decl {
    fn same(&self, other: &Decl) -> bool {
        self.name.same(&other.name)
            && self.columns.same(&other.columns)
            && self.time.same(&other.time)
    }
}

impl Same for Defn {
    fn same(&self, other: &Defn) -> bool {
        match self {
            Defn::Seed { columns, rows } => match other {
                Defn::Seed {
                    columns: c,
                    rows: r,
                } => columns.same(c) && rows.same(r),
                Defn::Sql(_) => false,
            },
            Defn::Sql(query) => match other {
                Defn::Seed { .. } => false,
                Defn::Sql(q) => query.same(q),
            },
        }
    }
}

impl Same for Own {
    fn same(&self, other: &Own) -> bool {
        self.name.same(&other.name)
            && self.kind.same(&other.kind)
            && self.cron == other.cron
            && self.unit == other.unit
            && self.start == other.start
            && self.sources.same(&other.sources)
            && self.defn.same(&other.defn)
    }
}

impl Same for Reading {
    fn same(&self, other: &Reading) -> bool {
        self.relation.same(&other.relation) && self.column.same(&other.column)
    }
}
