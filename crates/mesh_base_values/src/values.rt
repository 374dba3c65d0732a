// Cells, rows, columns and names.
ghost use Rattle.std.specs.Prelude.{◌≡◌};
ghost use Rattle.mesh_base_values.specs.Names.{name_cmp};

use mesh_list::Seq;
use std::cmp::Ordering;

/// Bytes.
pub type Str = Seq<u8>;

pub type Strs = Seq<Str>;

/// One cell for each column, in the columns' order.
pub type Row = Seq<Cell>;

pub type Rows = Seq<Row>;

pub type RowsList = Seq<Rows>;

pub type Columns = Seq<Column>;

pub type Names = Seq<Name>;

pub type Pairs = Seq<Pair>;

pub type Numbers = Seq<u64>;

/// The type of a column. INT has 64 bits with a sign, DATE is a day.
#[derive(Clone, Copy, PartialEq, Eq, PartialOrd, Ord)]
pub enum ColType {
    Int,
    Text,
    Date,
    Bool,
}

/// One value of a row, or NULL. The day of a DATE counts from 1970-01-01, in days.
#[derive(PartialEq, Eq, PartialOrd, Ord)]
pub enum Cell {
    Null,
    Int(i64),
    Text(Str),
    Date(i32),
    Bool(bool),
}

impl Drop for Cell {
    fn drop(self) {
        match self {
            Cell::Null | Cell::Int(_) | Cell::Text(_) | Cell::Date(_) | Cell::Bool(_) => {}
        }
    }
}

/// The two-part name of a model, a source, a table or a view.
#[derive(PartialEq, Eq, PartialOrd, Ord)]
pub struct Name {
    pub schema: Str,
    pub model: Str,
}

impl Drop for Name {
    fn drop(self) {
        let Name {
            schema: _,
            model: _,
        } = self;
    }
}

#[derive(PartialEq, Eq)]
pub struct Column {
    pub name: Str,
    pub kind: ColType,
}

impl Drop for Column {
    fn drop(self) {
        let Column { name: _, kind: _ } = self;
    }
}

/// The columns and the rows of a file.
#[derive(Drop)]
pub struct Seed {
    pub columns: Columns,
    pub rows: Rows,
}

/// Two names that belong together, as a model and the table that has its rows.
#[derive(Drop)]
pub struct Pair {
    pub first: Name,
    pub second: Name,
}

impl Name {
    /// By the bytes of the schema, and then by those of the model.
    pub fn compare(&self, other: &Name) -> Ordering
        ensures { result ≡ name_cmp self.now other.now }
    {
        self.schema
            .as_slice()
            .cmp(&other.schema.as_slice())
            .then(self.model.as_slice().cmp(&other.model.as_slice()))
    }
}
