// What a definition reads, as relations: the sources that it declares, and its parents. The rules speak of them.
use mesh_base_values::{Columns, Name};

/// A model or a source, as a query reads it.
pub struct Relation {
    pub name: Name,
    pub columns: Columns,
}

impl Drop for Relation {
    fn drop(self) {
        let Relation {
            name: _,
            columns: _,
        } = self;
    }
}

/// A model, as another one stands on it.
pub struct Parent {
    pub rank: u32,
    pub name: Name,
    pub columns: Columns,
}

impl Drop for Parent {
    fn drop(self) {
        let Parent {
            rank: _,
            name: _,
            columns: _,
        } = self;
    }
}
