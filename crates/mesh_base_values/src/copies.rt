// Copies of values, which are equal to them.
use crate::values::{Cell, ColType, Column, Name, Pair, Seed};
use mesh_list::{Duplicate, Memory, both};

impl Duplicate for ColType {
    fn copy(&self) -> Result<ColType, Memory> {
        Ok(*self)
    }
}

impl Duplicate for Cell {
    fn copy(&self) -> Result<Cell, Memory> {
        match self {
            Cell::Null => Ok(Cell::Null),
            Cell::Int(n) => Ok(Cell::Int(*n)),
            Cell::Text(text) => Ok(Cell::Text(text.copy()?)),
            Cell::Date(day) => Ok(Cell::Date(*day)),
            Cell::Bool(b) => Ok(Cell::Bool(*b)),
        }
    }
}

impl Duplicate for Name {
    fn copy(&self) -> Result<Name, Memory> {
        let (schema, model) = both(&self.schema, &self.model)?;
        Ok(Name { schema, model })
    }
}

impl Duplicate for Column {
    fn copy(&self) -> Result<Column, Memory> {
        Ok(Column {
            name: self.name.copy()?,
            kind: self.kind,
        })
    }
}

impl Duplicate for Seed {
    fn copy(&self) -> Result<Seed, Memory> {
        let (columns, rows) = both(&self.columns, &self.rows)?;
        Ok(Seed { columns, rows })
    }
}

impl Duplicate for Pair {
    fn copy(&self) -> Result<Pair, Memory> {
        let (first, second) = both(&self.first, &self.second)?;
        Ok(Pair { first, second })
    }
}
