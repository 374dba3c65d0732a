// The output columns of a definition, as they lie in it.
ghost use Rattle.std.specs.Prelude.{◌≡◌};
ghost use Rattle.mesh_base.specs.Outputs.{columns_of, item_columns, select_columns};
ghost use Rattle.mesh_base.specs.rules.Seen.{are_distinct, has_column};
ghost use Rattle.mesh_base.specs.rules.Proper.{has_its_time};

use mesh_base::rules::has_column;
use mesh_base::{Defn, Item, Own, Select};
use mesh_base_values::{Column, Kind, Str, same_text};

fn items_have(items: &[Item], name: &Str) -> bool
    ensures { result ≡ has_column (item_columns items.now) name.now }
{
    let mut found = false;
    for item in items {
        found = found || same_text(item.name.as_slice(), name.as_slice());
    }
    found
}

/// Whether the columns of a UNION ALL, which are those of its first SELECT, have one of that name.
pub fn selects_have(selects: &[Select], name: &Str) -> bool
    ensures { result ≡ has_column (select_columns selects.now) name.now }
{
    match selects {
        [] => false,
        [first, ..] => items_have(first.items.as_slice(), name),
    }
}

/// Whether a definition has an output column of that name.
pub fn own_has(own: &Own, name: &Str) -> bool
    ensures { result ≡ has_column (columns_of own.now) name.now }
{
    match &own.defn {
        Defn::Seed { columns, .. } => has_column(columns.as_slice(), name),
        Defn::Sql(query) => selects_have(query.selects.as_slice(), name),
    }
}

fn columns_differ(columns: &[Column]) -> bool
    ensures { result ≡ are_distinct columns.now }
{
    for (i, column) in columns.iter().enumerate() {
        if has_column(&columns[i + 1..], &column.name) {
            return false;
        }
    }
    true
}

fn items_differ(items: &[Item]) -> bool
    ensures { result ≡ are_distinct (item_columns items.now) }
{
    for (i, item) in items.iter().enumerate() {
        if items_have(&items[i + 1..], &item.name) {
            return false;
        }
    }
    true
}

fn selects_differ(selects: &[Select]) -> bool
    ensures { result ≡ are_distinct (select_columns selects.now) }
{
    match selects {
        [] => true,
        [first, ..] => items_differ(first.items.as_slice()),
    }
}

/// Whether no two output columns have one name.
pub fn are_distinct(own: &Own) -> bool
    ensures { result ≡ are_distinct (columns_of own.now) }
{
    match &own.defn {
        Defn::Seed { columns, .. } => columns_differ(columns.as_slice()),
        Defn::Sql(query) => selects_differ(query.selects.as_slice()),
    }
}

/// Whether a definition, if it is incremental, has a start and a column of the name that its kind gives for the time.
pub fn has_its_time(own: &Own) -> bool
    ensures { result ≡ has_its_time own.now.kind own.now.start (columns_of own.now) }
{
    match &own.kind {
        Kind::Incremental { time, .. } => own.start.is_some() && own_has(own, time),
        Kind::Full | Kind::View | Kind::Seed => true,
    }
}
