// The values of operators.
ghost use Rattle.std.specs.Prelude.{◌≡◌, ◌+ℤ◌, ◌-ℤ◌, ◌*ℤ◌, ◌++◌, IfOk, IfSome, IsNone};
ghost use Rattle.std.specs.Ordering.{is_eq};
ghost use Rattle.std.specs.List.{list_any};
ghost use Rattle.mesh_spec_query.specs.Cells.{compared, compared_by, is_null, number, day, plus, minus, product, quotient, remainder, joined, comparison, both, either, opposite, negative, op_value, between};
ghost use Rattle.mesh_eval_rows.specs.Plain.{cell_of};

use crate::plain::Plain;
use mesh_base::Op;
use mesh_base_values::{Cell, Str};
use mesh_list::Memory;
use mesh_time_days::casts::is_day_number;
use std::cmp::Ordering;

/// Whether one of them is NULL.
pub fn has_null(cells: &[Cell]) -> bool
    ensures { result ≡ list_any is_null cells.now }
{
    cells.iter().any(|c| is_null(c))
}

/// Whether it is NULL.
pub fn is_null(x: &Cell) -> bool
    ensures { result ≡ is_null x.now }
{
    matches!(x, Cell::Null)
}

fn sum_of<'v>(a: i64, b: i64) -> Plain<'v>
    ensures { cell_of result ≡ number (a +ℤ b) }
{
    match a.checked_add(b) {
        Some(n) => Plain::Int(n),
        None => Plain::Null,
    }
}

fn difference_of<'v>(a: i64, b: i64) -> Plain<'v>
    ensures { cell_of result ≡ number (a -ℤ b) }
{
    match a.checked_sub(b) {
        Some(n) => Plain::Int(n),
        None => Plain::Null,
    }
}

fn product_of<'v>(a: i64, b: i64) -> Plain<'v>
    ensures { cell_of result ≡ number (a *ℤ b) }
{
    match a.checked_mul(b) {
        Some(n) => Plain::Int(n),
        None => Plain::Null,
    }
}

pub(crate) fn day_of<'v>(n: i64) -> Plain<'v>
    ensures { cell_of result ≡ day n }
{
    if is_day_number(n) {
        Plain::Date(n as i32)
    } else {
        Plain::Null
    }
}

fn quotient_of<'v>(a: i64, b: i64) -> Plain<'v>
    ensures { cell_of result ≡ quotient (Cell.Int a) (Cell.Int b) }
{
    match a.checked_div(b) {
        Some(n) => Plain::Int(n),
        None => Plain::Null,
    }
}

fn remainder_of<'v>(a: i64, b: i64) -> Plain<'v>
    ensures { cell_of result ≡ remainder (Cell.Int a) (Cell.Int b) }
{
    if b == 0 {
        Plain::Null
    } else if b == -1 {
        Plain::Int(0)
    } else {
        Plain::Int(a % b)
    }
}

fn later_day<'v>(d: i32, n: i64) -> Plain<'v>
    ensures { cell_of result ≡ day (d +ℤ n) }
{
    match (d as i64).checked_add(n) {
        Some(sum) => day_of(sum),
        None => Plain::Null,
    }
}

fn earlier_day<'v>(d: i32, n: i64) -> Plain<'v>
    ensures { cell_of result ≡ day (d -ℤ n) }
{
    match (d as i64).checked_sub(n) {
        Some(rest) => day_of(rest),
        None => Plain::Null,
    }
}

fn add<'v>(x: Plain, y: Plain) -> Plain<'v>
    ensures { cell_of result ≡ plus (cell_of x.entry) (cell_of y.entry) }
{
    match x {
        Plain::Int(a) => match y {
            Plain::Int(b) => sum_of(a, b),
            _ => Plain::Null,
        },
        Plain::Date(d) => match y {
            Plain::Int(n) => later_day(d, n),
            _ => Plain::Null,
        },
        _ => Plain::Null,
    }
}

fn subtract<'v>(x: Plain, y: Plain) -> Plain<'v>
    ensures { cell_of result ≡ minus (cell_of x.entry) (cell_of y.entry) }
{
    match x {
        Plain::Int(a) => match y {
            Plain::Int(b) => difference_of(a, b),
            _ => Plain::Null,
        },
        Plain::Date(d) => match y {
            Plain::Int(n) => earlier_day(d, n),
            Plain::Date(e) => Plain::Int(d as i64 - e as i64),
            _ => Plain::Null,
        },
        _ => Plain::Null,
    }
}

fn multiply<'v>(x: Plain, y: Plain) -> Plain<'v>
    ensures { cell_of result ≡ product (cell_of x.entry) (cell_of y.entry) }
{
    match x {
        Plain::Int(a) => match y {
            Plain::Int(b) => product_of(a, b),
            _ => Plain::Null,
        },
        _ => Plain::Null,
    }
}

fn divide<'v>(x: Plain, y: Plain) -> Plain<'v>
    ensures { cell_of result ≡ quotient (cell_of x.entry) (cell_of y.entry) }
{
    match x {
        Plain::Int(a) => match y {
            Plain::Int(b) => quotient_of(a, b),
            _ => Plain::Null,
        },
        _ => Plain::Null,
    }
}

fn rest<'v>(x: Plain, y: Plain) -> Plain<'v>
    ensures { cell_of result ≡ remainder (cell_of x.entry) (cell_of y.entry) }
{
    match x {
        Plain::Int(a) => match y {
            Plain::Int(b) => remainder_of(a, b),
            _ => Plain::Null,
        },
        _ => Plain::Null,
    }
}

fn compare(x: Plain, y: Plain) -> Option<Ordering>
    ensures { result ≡ comparison (cell_of x.entry) (cell_of y.entry) }
{
    match x {
        Plain::Int(a) => match y {
            Plain::Int(b) => Some(a.cmp(&b)),
            _ => None,
        },
        Plain::Text(a) => match y {
            Plain::Text(b) => Some(a.cmp(b)),
            _ => None,
        },
        Plain::Date(a) => match y {
            Plain::Date(b) => Some(a.cmp(&b)),
            _ => None,
        },
        Plain::Bool(a) => match y {
            Plain::Bool(b) => Some(a.cmp(&b)),
            _ => None,
        },
        Plain::Null => None,
    }
}

fn and<'v>(x: Plain, y: Plain) -> Plain<'v>
    ensures { cell_of result ≡ both (cell_of x.entry) (cell_of y.entry) }
{
    match x {
        Plain::Bool(a) => match y {
            Plain::Bool(b) => Plain::Bool(a && b),
            Plain::Null if !a => Plain::Bool(false),
            _ => Plain::Null,
        },
        Plain::Null => match y {
            Plain::Bool(false) => Plain::Bool(false),
            _ => Plain::Null,
        },
        _ => Plain::Null,
    }
}

/// One or the other, of three truths.
pub fn or<'v>(x: Plain, y: Plain) -> Plain<'v>
    ensures { cell_of result ≡ either (cell_of x.entry) (cell_of y.entry) }
{
    match x {
        Plain::Bool(a) => match y {
            Plain::Bool(b) => Plain::Bool(a || b),
            Plain::Null if a => Plain::Bool(true),
            _ => Plain::Null,
        },
        Plain::Null => match y {
            Plain::Bool(true) => Plain::Bool(true),
            _ => Plain::Null,
        },
        _ => Plain::Null,
    }
}

/// The other truth, and NULL of NULL.
pub fn not<'v>(x: Plain) -> Plain<'v>
    ensures { cell_of result ≡ opposite (cell_of x.entry) }
{
    match x {
        Plain::Bool(b) => Plain::Bool(!b),
        _ => Plain::Null,
    }
}

/// The negative number, and NULL where 64 bits do not hold it.
pub fn negate<'v>(x: Plain) -> Plain<'v>
    ensures { cell_of result ≡ negative (cell_of x.entry) }
{
    match x {
        Plain::Int(n) => match n.checked_neg() {
            Some(m) => Plain::Int(m),
            None => Plain::Null,
        },
        _ => Plain::Null,
    }
}

/// The value of an operator that makes no text, as all but `||` do.
pub fn operate<'v>(op: Op, x: Plain, y: Plain) -> Option<Plain<'v>>
    ensures value { IfSome result (λ v. cell_of v ≡ op_value op (cell_of x.entry) (cell_of y.entry)) }
    ensures none { IsNone result → op ≡ Op.Cat }
{
    match op {
        Op::Add => Some(add(x, y)),
        Op::Sub => Some(subtract(x, y)),
        Op::Mul => Some(multiply(x, y)),
        Op::Div => Some(divide(x, y)),
        Op::Rem => Some(rest(x, y)),
        Op::Cat => None,
        Op::And => Some(and(x, y)),
        Op::Or => Some(or(x, y)),
        Op::Eq | Op::Ne | Op::Lt | Op::Le | Op::Gt | Op::Ge => Some(compared(op, x, y)),
    }
}

fn compared<'v>(op: Op, x: Plain, y: Plain) -> Plain<'v>
    ensures { cell_of result ≡ compared_by op (cell_of x.entry) (cell_of y.entry) }
{
    match compare(x, y) {
        None => Plain::Null,
        Some(order) => match op {
            Op::Eq => Plain::Bool(order.is_eq()),
            Op::Ne => Plain::Bool(order.is_ne()),
            Op::Lt => Plain::Bool(order.is_lt()),
            Op::Le => Plain::Bool(order.is_le()),
            Op::Gt => Plain::Bool(order.is_gt()),
            _ => Plain::Bool(order.is_ge()),
        },
    }
}

/// The value of an operator between two cells.
pub fn operate_cells(op: Op, x: &Cell, y: &Cell) -> Result<Cell, Memory>
    ensures { IfOk result (λ v. v ≡ op_value op x.now y.now) }
{
    match operate(op, Plain::of(x), Plain::of(y)) {
        Some(v) => v.into_cell(),
        None => join(x, y),
    }
}

fn join(x: &Cell, y: &Cell) -> Result<Cell, Memory>
    ensures { IfOk result (λ v. v ≡ joined x.now y.now) }
{
    match x {
        Cell::Text(s) => match y {
            Cell::Text(t) => Ok(Cell::Text(join_texts(s, t)?)),
            _ => Ok(Cell::Null),
        },
        _ => Ok(Cell::Null),
    }
}

fn join_texts(s: &Str, t: &Str) -> Result<Str, Memory>
    ensures { IfOk result (λ v. v ≡ s.now ++ t.now) }
{
    let mut bytes = Vec::with_capacity(s.alloc(), s.len().saturating_add(t.len()))?;
    bytes.extend_from_slice(s.as_slice())?;
    bytes.extend_from_slice(t.as_slice())?;
    Ok(Str::from_vec(bytes))
}

/// Whether x equals y.
pub fn equal<'v>(x: Plain, y: Plain) -> Plain<'v>
    ensures { cell_of result ≡ compared is_eq (cell_of x.entry) (cell_of y.entry) }
{
    match compare(x, y) {
        None => Plain::Null,
        Some(order) => Plain::Bool(order.is_eq()),
    }
}

/// Whether x is neither below one nor above the other.
pub fn lies_between<'v>(x: Plain, low: Plain, high: Plain) -> Plain<'v>
    ensures { cell_of result ≡ between (cell_of x.entry) (cell_of low.entry) (cell_of high.entry) }
{
    and(compared(Op::Ge, x, low), compared(Op::Le, x, high))
}
