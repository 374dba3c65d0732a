// What a query reads.
ghost use Rattle.std.specs.Prelude.{◌≡◌, slice_get};
ghost use Rattle.std.specs.Option.{option_copied};
ghost use Rattle.std.specs.Ordering.{is_eq};
ghost use Rattle.std.specs.List.{find};
ghost use Rattle.mesh_base_values.specs.Names.{name_cmp};
ghost use Rattle.mesh_spec_query.specs.Tables.{relation, columns_in, rows_in};

use mesh_base::{Input, Rel};
use mesh_base_values::{Column, Name, Row};

fn named<'x>(inputs: &'x [Input], name: &Name) -> Option<&'x Input>
    ensures { option_copied result ≡ find (λ input. is_eq (name_cmp input.name name.now)) inputs.now }
{
    inputs.iter().find(|input| input.name.compare(name).is_eq())
}

fn cte<'x>(ctes: &'x [Input], k: u32) -> Option<&'x Input>
    ensures { option_copied result ≡ slice_get ctes.now k }
{
    ctes.get(k as usize)
}

fn relation<'x>(inputs: &'x [Input], ctes: &'x [Input], rel: &Rel) -> Option<&'x Input>
    ensures { option_copied result ≡ relation inputs.now ctes.now rel.now }
{
    match rel {
        Rel::Named(name) => named(inputs, name),
        Rel::Cte(k) => cte(ctes, *k),
    }
}

pub(crate) fn columns_in<'x>(inputs: &'x [Input], ctes: &'x [Input], rel: &Rel) -> &'x [Column]
    ensures { result.now ≡ columns_in (relation inputs.now ctes.now rel.now) }
{
    match relation(inputs, ctes, rel) {
        Some(input) => input.columns.as_slice(),
        None => &[],
    }
}

pub(crate) fn rows_in<'x>(inputs: &'x [Input], ctes: &'x [Input], rel: &Rel) -> &'x [Row]
    ensures { result.now ≡ rows_in (relation inputs.now ctes.now rel.now) }
{
    match relation(inputs, ctes, rel) {
        Some(input) => input.rows.as_slice(),
        None => &[],
    }
}
