// Tests whether two values are the same.
use crate::values::{Cell, ColType, Column, Name, Pair, Seed};
use mesh_list::Same;

impl Same for ColType {
    fn same(&self, other: &ColType) -> bool {
        self == other
    }
}

impl Same for Cell {
    fn same(&self, other: &Cell) -> bool {
        self == other
    }
}

impl Same for Name {
    fn same(&self, other: &Name) -> bool {
        self == other
    }
}

impl Same for Column {
    fn same(&self, other: &Column) -> bool {
        self == other
    }
}

impl Same for Seed {
    fn same(&self, other: &Seed) -> bool {
        self.columns.same(&other.columns) && self.rows.same(&other.rows)
    }
}

impl Same for Pair {
    fn same(&self, other: &Pair) -> bool {
        self.first.same(&other.first) && self.second.same(&other.second)
    }
}
