// Expressions. The functions call one another, as the types lead to one another.
ghost use Rattle.std.specs.Prelude.{◌≡◌, ◌&&◌, ◌^◌, nat_lt, true, map};
ghost use Rattle.std.specs.List.{list_all};
ghost use Rattle.mesh_canon_reading.specs.Fits.{expr_fits, option_fits, text_fits, when_fits};

use crate::held::held::Held;
use crate::held::values::{cell_rule, text_rule};
use mesh_base::{Expr, When};

fn column_rule(item: u32, name: &[u8])
    ensures { (nat_lt item (2 ^ 32) && text_fits name.now) ≡ true }
{
    text_rule(name)
}

#[cycle(rules)]
fn expr_rule(e: &Expr)
    ensures { expr_fits e.now ≡ true }
{
    match e {
        Expr::Literal(cell) => cell_rule(cell),
        Expr::Col { item, name } => column_rule(*item, name.as_slice()),
        Expr::Macro(_) | Expr::CountAll => {}
        Expr::Binary { op: _, left, right } => {
            expr_rule(left.get());
            expr_rule(right.get())
        }
        Expr::Neg(value) => expr_rule(value.get()),
        Expr::Not(value) => expr_rule(value.get()),
        Expr::IsNull(value) => expr_rule(value.get()),
        Expr::Between { value, low, high } => {
            expr_rule(value.get());
            expr_rule(low.get());
            expr_rule(high.get())
        }
        Expr::OneOf { value, of } => {
            expr_rule(value.get());
            exprs_rule(of.as_slice())
        }
        Expr::Cast { to: _, value } => expr_rule(value.get()),
        Expr::Call { func: _, args } => exprs_rule(args.as_slice()),
        Expr::Case { whens, otherwise } => {
            whens_rule(whens.as_slice());
            expr_rule(otherwise.get())
        }
        Expr::Agg { kind: _, value } => expr_rule(value.get()),
    }
}

#[cycle(rules)]
fn exprs_rule(all: &[Expr])
    ensures { list_all (λ b. b) (map expr_fits all.now) ≡ true }
{
    for e in all {
        expr_rule(e);
    }
}

#[cycle(rules)]
fn whens_rule(all: &[When])
    ensures { list_all (λ b. b) (map when_fits all.now) ≡ true }
{
    for w in all {
        when_rule(w);
    }
}

#[cycle(rules)]
fn when_rule(w: &When)
    ensures { when_fits w.now ≡ true }
{
    expr_rule(&w.test);
    expr_rule(&w.value)
}

impl Held for Expr {
    ghost fits = { expr_fits };

    fn rule(&self) {
        expr_rule(self)
    }
}

/// An expression fits, where there is one.
pub(crate) fn option_rule(e: &Option<Expr>)
    ensures { option_fits e.now ≡ true }
{
    match e {
        None => {}
        Some(e) => expr_rule(e),
    }
}
