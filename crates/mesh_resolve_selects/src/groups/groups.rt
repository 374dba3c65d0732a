// The rule on groups, over resolved expressions.
ghost use Rattle.std.specs.Prelude.{◌≡◌, map};
ghost use Rattle.std.specs.List.{list_any};
ghost use Rattle.mesh_resolve_selects.specs.groups.Grouping.{has_aggregate, aggregate_when};

use mesh_base::{Expr, When};

/// Whether an aggregate stands anywhere in an expression.
#[cycle(aggregates)]
pub fn has_aggregate(e: &Expr) -> bool
    ensures { result ≡ has_aggregate e.now }
{
    match e {
        Expr::Literal(_) | Expr::Macro(_) | Expr::Col { .. } => false,
        Expr::CountAll | Expr::Agg { .. } => true,
        Expr::Neg(value) | Expr::Not(value) | Expr::IsNull(value) | Expr::Cast { value, .. } =>
            has_aggregate(value.get()),
        Expr::Binary { left, right, .. } => {
            has_aggregate(left.get()) || has_aggregate(right.get())
        }
        Expr::Between { value, low, high } => {
            has_aggregate(value.get()) || has_aggregate(low.get()) || has_aggregate(high.get())
        }
        Expr::OneOf { value, of } => has_aggregate(value.get()) || some_has(of.as_slice()),
        Expr::Call { args, .. } => some_has(args.as_slice()),
        Expr::Case { whens, otherwise } => {
            some_when_has(whens.as_slice()) || has_aggregate(otherwise.get())
        }
    }
}

#[cycle(aggregates)]
fn some_has(es: &[Expr]) -> bool
    ensures { result ≡ list_any (λ b. b) (map has_aggregate es.now) }
{
    let mut found = false;
    for e in es {
        found = found || has_aggregate(e);
    }
    found
}

#[cycle(aggregates)]
fn some_when_has(whens: &[When]) -> bool
    ensures { result ≡ list_any (λ b. b) (map aggregate_when whens.now) }
{
    let mut found = false;
    for w in whens {
        found = found || (has_aggregate(&w.test) || has_aggregate(&w.value));
    }
    found
}
