// Copies of expressions. The functions call one another, as the types lead to one another.
ghost use Rattle.std.specs.Prelude.{◌≡◌, IfOk};

use crate::expressions::{Expr, Exprs, When, Whens};
use mesh_base_values::{Cell, Str};
use mesh_list::{Boxed, Duplicate, Memory, Seq, together};

impl Duplicate for Expr {
    fn copy(&self) -> Result<Expr, Memory> {
        expr_copied(self)
    }
}

impl Duplicate for When {
    fn copy(&self) -> Result<When, Memory> {
        when_copied(self)
    }
}

#[cycle(copy)]
fn expr_copied(e: &Expr) -> Result<Expr, Memory>
    ensures { IfOk result (λ made. made ≡ e.now) }
{
    match e {
        Expr::Literal(cell) => Ok(Expr::Literal(cell_copied(cell)?)),
        Expr::Col { item, name } => Ok(Expr::Col {
            item: *item,
            name: text_copied(name)?,
        }),
        Expr::Macro(var) => Ok(Expr::Macro(*var)),
        Expr::Binary { op, left, right } => {
            let (left, right) = together(boxed_copied(left), boxed_copied(right))?;
            Ok(Expr::Binary {
                op: *op,
                left,
                right,
            })
        }
        Expr::Neg(value) => Ok(Expr::Neg(boxed_copied(value)?)),
        Expr::Not(value) => Ok(Expr::Not(boxed_copied(value)?)),
        Expr::IsNull(value) => Ok(Expr::IsNull(boxed_copied(value)?)),
        Expr::Between { value, low, high } => {
            let (value, (low, high)) = together(
                boxed_copied(value),
                together(boxed_copied(low), boxed_copied(high)),
            )?;
            Ok(Expr::Between { value, low, high })
        }
        Expr::OneOf { value, of } => {
            let (value, of) = together(boxed_copied(value), exprs_copied(of))?;
            Ok(Expr::OneOf { value, of })
        }
        Expr::Cast { to, value } => Ok(Expr::Cast {
            to: *to,
            value: boxed_copied(value)?,
        }),
        Expr::Call { func, args } => Ok(Expr::Call {
            func: *func,
            args: exprs_copied(args)?,
        }),
        Expr::Case { whens, otherwise } => {
            let (whens, otherwise) = together(whens_copied(whens), boxed_copied(otherwise))?;
            Ok(Expr::Case { whens, otherwise })
        }
        Expr::CountAll => Ok(Expr::CountAll),
        Expr::Agg { kind, value } => Ok(Expr::Agg {
            kind: *kind,
            value: boxed_copied(value)?,
        }),
    }
}

#[cycle(copy)]
fn boxed_copied(boxed: &Boxed<Expr>) -> Result<Boxed<Expr>, Memory>
    ensures { IfOk result (λ made. made ≡ boxed.now) }
{
    Boxed::new(boxed.alloc(), expr_copied(boxed.get())?)
}

#[cycle(copy)]
fn exprs_copied(all: &Exprs) -> Result<Exprs, Memory>
    ensures { IfOk result (λ made. made ≡ all.now) }
{
    let mut made = Seq::new(all.alloc());
    for e in all.as_slice() {
        made.push(expr_copied(e)?)?;
    }
    Ok(made)
}

#[cycle(copy)]
fn whens_copied(all: &Whens) -> Result<Whens, Memory>
    ensures { IfOk result (λ made. made ≡ all.now) }
{
    let mut made = Seq::new(all.alloc());
    for w in all.as_slice() {
        made.push(when_copied(w)?)?;
    }
    Ok(made)
}

#[cycle(copy)]
fn when_copied(w: &When) -> Result<When, Memory>
    ensures { IfOk result (λ made. made ≡ w.now) }
{
    let (test, value) = together(expr_copied(&w.test), expr_copied(&w.value))?;
    Ok(When { test, value })
}

fn cell_copied(cell: &Cell) -> Result<Cell, Memory>
    ensures { IfOk result (λ made. made ≡ cell.now) }
{
    cell.copy()
}

fn text_copied(text: &Str) -> Result<Str, Memory>
    ensures { IfOk result (λ made. made ≡ text.now) }
{
    text.copy()
}
