// Whether columns have one of a name.
ghost use Rattle.std.specs.Prelude.{◌≡◌};
ghost use Rattle.mesh_base.specs.rules.Seen.{has_column};

use mesh_base_values::{Column, Str, same_text};

/// Names are compared by their bytes.
pub fn has_column(columns: &[Column], name: &Str) -> bool
    ensures { result ≡ has_column columns.now name.now }
{
    let mut found = false;
    for column in columns {
        found = found || same_text(column.name.as_slice(), name.as_slice());
    }
    found
}
