// Where no aggregate may stand.
ghost use Rattle.std.specs.Prelude.{◌≡◌, ◌++◌, OnOk, map};
ghost use Rattle.mesh_resolve_selects.specs.groups.Grouping.{all_together, barred, barred_when};

use mesh_base::{Expr, When};
use mesh_list::{Memory, Seq};

/// Whether each column and aggregate is an aggregate.
#[cycle(bars)]
pub(crate) fn bar(e: &Expr, breaches: &mut Seq<bool>) -> Result<(), Memory>
    ensures { OnOk result (breaches.new ≡ breaches.old ++ barred e.now) }
{
    match e {
        Expr::Literal(_) | Expr::Macro(_) => Ok(()),
        Expr::Col { .. } => breaches.push(false),
        Expr::CountAll => breaches.push(true),
        Expr::Neg(value) | Expr::Not(value) | Expr::IsNull(value) | Expr::Cast { value, .. } => bar(
            value.get(),
            breaches,
        ),
        Expr::Binary { left, right, .. } => {
            bar(left.get(), breaches)?;
            bar(right.get(), breaches)
        }
        Expr::Between { value, low, high } => {
            bar(value.get(), breaches)?;
            bar(low.get(), breaches)?;
            bar(high.get(), breaches)
        }
        Expr::OneOf { value, of } => {
            bar(value.get(), breaches)?;
            bar_all(of.as_slice(), breaches)
        }
        Expr::Call { args, .. } => bar_all(args.as_slice(), breaches),
        Expr::Case { whens, otherwise } => {
            bar_whens(whens.as_slice(), breaches)?;
            bar(otherwise.get(), breaches)
        }
        Expr::Agg { value, .. } => {
            bar(value.get(), breaches)?;
            breaches.push(true)
        }
    }
}

#[cycle(bars)]
fn bar_all(es: &[Expr], breaches: &mut Seq<bool>) -> Result<(), Memory>
    ensures { OnOk result (breaches.new ≡ breaches.old ++ all_together (map barred es.now)) }
{
    for e in es {
        bar(e, breaches)?;
    }
    Ok(())
}

#[cycle(bars)]
fn bar_whens(whens: &[When], breaches: &mut Seq<bool>) -> Result<(), Memory>
    ensures { OnOk result (breaches.new ≡ breaches.old ++ all_together (map barred_when whens.now)) }
{
    for w in whens {
        bar(&w.test, breaches)?;
        bar(&w.value, breaches)?;
    }
    Ok(())
}
