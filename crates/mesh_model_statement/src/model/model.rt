// What a model's file says.
use mesh_base_values::{Columns, Cron, Kind, Name, Str, Unit};
use mesh_query_grammar::surface::Surface;
use mesh_query_tokens::Tokens;

/// A model as it is written. `start` is a day counted from 1970-01-01. Without the property, `columns` is empty.
/// `path` is that of a SEED's file in the project, and `path_at` the byte at which its text begins, 0 where there is
/// none. `audits` are the tokens of that property's value as they stand in the file, none without it. A SEED has no
/// query.
pub struct ModelText {
    pub file: Str,
    pub name: Name,
    pub kind: Kind,
    pub cron: Cron,
    pub unit: Unit,
    pub start: Option<i32>,
    pub columns: Columns,
    pub path: Option<Str>,
    pub path_at: u64,
    pub audits: Tokens,
    pub query: Option<Surface>,
}

impl Drop for ModelText {
    fn drop(self) {
        let ModelText {
            file: _,
            name: _,
            kind: _,
            cron: _,
            unit: _,
            start: _,
            columns: _,
            path: _,
            path_at: _,
            audits: _,
            query: _,
        } = self;
    }
}
