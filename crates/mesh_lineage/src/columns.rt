// The columns that expressions name.
ghost use Rattle.std.specs.Prelude.{◌≡◌, ◌++◌, OnOk, map};
ghost use Rattle.std.specs.List.{flat_map};
ghost use Rattle.mesh_spec_query.specs.Named.{columns, when_columns};

use crate::named::{Named, both_done};
use mesh_base::{Expr, When};
use mesh_list::Memory;

/// Puts the columns of an expression behind others.
#[cycle(columns)]
pub(crate) fn add_columns<'a>(e: &'a Expr, places: &mut Named<'a>) -> Result<(), Memory>
    ensures { OnOk result (places.new ≡ places.old ++ columns e.now) }
{
    match e {
        Expr::Literal(_) | Expr::Macro(_) | Expr::CountAll => Ok(()),
        Expr::Col { item, name } => places.push(*item, name),
        Expr::Neg(value)
        | Expr::Not(value)
        | Expr::IsNull(value)
        | Expr::Cast { value, .. }
        | Expr::Agg { value, .. } => add_columns(value.get(), places),
        Expr::Binary { left, right, .. } => both_done(
            add_columns(left.get(), places),
            add_columns(right.get(), places),
        ),
        Expr::Between { value, low, high } => both_done(
            add_columns(value.get(), places),
            both_done(
                add_columns(low.get(), places),
                add_columns(high.get(), places),
            ),
        ),
        Expr::OneOf { value, of } => both_done(
            add_columns(value.get(), places),
            add_all_columns(of.as_slice(), places),
        ),
        Expr::Call { args, .. } => add_all_columns(args.as_slice(), places),
        Expr::Case { whens, otherwise } => both_done(
            add_whens_columns(whens.as_slice(), places),
            add_columns(otherwise.get(), places),
        ),
    }
}

#[cycle(columns)]
pub(crate) fn add_all_columns<'a>(es: &'a [Expr], places: &mut Named<'a>) -> Result<(), Memory>
    ensures { OnOk result (places.new ≡ places.old ++ flat_map (λ x. x) (map columns es.now)) }
{
    for e in es {
        add_columns(e, places)?;
    }
    Ok(())
}

#[cycle(columns)]
fn add_whens_columns<'a>(whens: &'a [When], places: &mut Named<'a>) -> Result<(), Memory>
    ensures { OnOk result (places.new ≡ places.old ++ flat_map (λ x. x) (map when_columns whens.now)) }
{
    for w in whens {
        both_done(add_columns(&w.test, places), add_columns(&w.value, places))?;
    }
    Ok(())
}
