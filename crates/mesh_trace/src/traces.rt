// The columns and relations that a column's values hang on.
use mesh_base_values::{Name, Str};
use mesh_list::{Duplicate, Memory, Seq, both};

pub type Traces = Seq<Trace>;

/// A column of a relation, or a relation whose rows are read and no column of it.
#[derive(Drop)]
pub struct Trace {
    pub relation: Name,
    pub column: Option<Str>,
}

impl Duplicate for Trace {
    fn copy(&self) -> Result<Trace, Memory> {
        let (relation, column) = both(&self.relation, &self.column)?;
        Ok(Trace { relation, column })
    }
}
