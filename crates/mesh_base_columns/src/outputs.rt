// The output columns of a model.
ghost use Rattle.std.specs.Prelude.{◌≡◌, IfOk};
ghost use Rattle.mesh_base.specs.Outputs.{columns_of, item_columns, select_columns};

use mesh_base::{Defn, Items, Own, Select};
use mesh_base_values::{Column, Columns};
use mesh_list::{Duplicate, Memory, Seq};
use std::alloc::Global;

/// The names and types of a seed's columns, or of the items of the query's first SELECT. A query without a SELECT has
/// none.
pub fn columns_of(own: &Own) -> Result<Columns, Memory>
    ensures { IfOk result (λ columns. columns ≡ columns_of own.now) }
{
    match &own.defn {
        Defn::Seed { columns, .. } => columns.copy(),
        Defn::Sql(query) => select_columns(query.selects.alloc(), query.selects.as_slice()),
    }
}

/// The columns of a UNION ALL, which are those of its first SELECT.
pub fn select_columns(alloc: Global, selects: &[Select]) -> Result<Columns, Memory>
    ensures { IfOk result (λ columns. columns ≡ select_columns selects.now) }
{
    match selects {
        [] => Ok(Seq::new(alloc)),
        [first, ..] => item_columns(&first.items),
    }
}

fn item_columns(items: &Items) -> Result<Columns, Memory>
    ensures { IfOk result (λ columns. columns ≡ item_columns items.now) }
{
    let mut columns = Seq::new(items.alloc());
    for item in items.as_slice() {
        columns.push(Column {
            name: item.name.copy()?,
            kind: item.kind,
        })?;
    }
    Ok(columns)
}
