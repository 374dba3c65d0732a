// Expressions, written. The functions call one another, as the types lead to one another.
ghost use Rattle.std.specs.Prelude.{◌≡◌, ◌++◌, codes, map, OnOk};
ghost use Rattle.mesh_base.specs.declared.expressions.Expr.TheOpen.{Col, Macro};
ghost use Rattle.mesh_canon_text.specs.Text.{agg_word, expr_here, expr_text, func_word, gap, list_of, macro_word, op_word, option_text, when_text};

use crate::number_text::{put, put_between, put_number, put_pair, put_text_between};
use crate::value_text::{put_cell, type_word};
use crate::written::Written;
use mesh_base::{AggKind, Expr, Func, Op, Var, When};
use mesh_base_values::Str;
use mesh_list::Memory;

fn op_word(op: Op) -> &'static [u8]
    ensures { result.now ≡ op_word op }
{
    match op {
        Op::Add => b"add",
        Op::Sub => b"sub",
        Op::Mul => b"mul",
        Op::Div => b"div",
        Op::Rem => b"rem",
        Op::Cat => b"cat",
        Op::Eq => b"eq",
        Op::Ne => b"ne",
        Op::Lt => b"lt",
        Op::Le => b"le",
        Op::Gt => b"gt",
        Op::Ge => b"ge",
        Op::And => b"and",
        Op::Or => b"or",
    }
}

fn func_word(func: Func) -> &'static [u8]
    ensures { result.now ≡ func_word func }
{
    match func {
        Func::Abs => b"abs",
        Func::Length => b"length",
        Func::Upper => b"upper",
        Func::Lower => b"lower",
        Func::Nullif => b"nullif",
        Func::Coalesce => b"coalesce",
    }
}

fn agg_word(kind: AggKind) -> &'static [u8]
    ensures { result.now ≡ agg_word kind }
{
    match kind {
        AggKind::Count => b"count",
        AggKind::Countd => b"countd",
        AggKind::Sum => b"sum",
        AggKind::Min => b"min",
        AggKind::Max => b"max",
    }
}

fn macro_word(var: Var) -> &'static [u8]
    ensures { result.now ≡ macro_word var }
{
    match var {
        Var::StartDate => b"start_date",
        Var::EndDate => b"end_date",
        Var::StartDs => b"start_ds",
        Var::EndDs => b"end_ds",
        Var::StartEpoch => b"start_epoch",
        Var::EndEpoch => b"end_epoch",
    }
}

// What stands before a member at a place.
fn gap(place: usize) -> &'static [u8]
    ensures { result.now ≡ gap place }
{
    if place == 0 { b"" } else { b" " }
}

#[tactic(auto, unfolding(crate::specs::Text::expr_here))]
fn put_col(out: &mut Vec<u8>, item: u32, name: &Str) -> Result<(), Memory>
    ensures { OnOk result (out.new.items ≡ out.old.items ++ expr_here (Col item name.now)) }
{
    put(out, b"(col ")?;
    put_number(out, u64::from(item))?;
    put_text_between(out, b" ", name.as_slice(), b")")
}

#[tactic(auto, unfolding(crate::specs::Text::expr_here))]
fn put_macro(out: &mut Vec<u8>, var: Var) -> Result<(), Memory>
    ensures { OnOk result (out.new.items ≡ out.old.items ++ expr_here (Macro var)) }
{
    put_between(out, b"(var ", macro_word(var), b")")
}

#[cycle(put)]
#[tactic(auto, unfolding(crate::specs::Text::expr_here))]
fn put_expr(out: &mut Vec<u8>, e: &Expr) -> Result<(), Memory>
    ensures { OnOk result (out.new.items ≡ out.old.items ++ expr_text e.now) }
{
    match e {
        Expr::Literal(cell) => put_cell(out, cell),
        Expr::Col { item, name } => put_col(out, *item, name),
        Expr::Macro(var) => put_macro(out, *var),
        Expr::CountAll => put(out, b"(count)"),
        Expr::Binary { op, left, right } => {
            put_pair(out, b"(", op_word(*op))?;
            put_behind(out, b" ", left.get())?;
            put_last(out, b" ", right.get())
        }
        Expr::Neg(value) => put_last(out, b"(neg ", value.get()),
        Expr::Not(value) => put_last(out, b"(not ", value.get()),
        Expr::IsNull(value) => put_last(out, b"(isnull ", value.get()),
        Expr::Between { value, low, high } => {
            put_behind(out, b"(between ", value.get())?;
            put_behind(out, b" ", low.get())?;
            put_last(out, b" ", high.get())
        }
        Expr::OneOf { value, of } => {
            put_behind(out, b"(in ", value.get())?;
            put_last_list(out, of.as_slice())
        }
        Expr::Cast { to, value } => {
            put_pair(out, b"(cast ", type_word(*to))?;
            put_last(out, b" ", value.get())
        }
        Expr::Call { func, args } => {
            put_pair(out, b"(call ", func_word(*func))?;
            put_last_list(out, args.as_slice())
        }
        Expr::Case { whens, otherwise } => {
            put_case(out, whens.as_slice())?;
            put_last(out, b" ", otherwise.get())
        }
        Expr::Agg { kind, value } => {
            put_pair(out, b"(agg ", agg_word(*kind))?;
            put_last(out, b" ", value.get())
        }
    }
}

// An expression behind these bytes.
#[cycle(put)]
fn put_behind(out: &mut Vec<u8>, before: &[u8], e: &Expr) -> Result<(), Memory>
    ensures { OnOk result (out.new.items ≡ out.old.items ++ (before.now ++ expr_text e.now)) }
{
    put(out, before)?;
    put_expr(out, e)
}

/// The last part of a node, behind these bytes.
#[cycle(put)]
pub(crate) fn put_last(out: &mut Vec<u8>, before: &[u8], e: &Expr) -> Result<(), Memory>
    ensures { OnOk result (out.new.items ≡ out.old.items ++ (before.now ++ (expr_text e.now ++ codes ")"))) }
{
    put_behind(out, before, e)?;
    put(out, b")")
}

// A list as the last part of a node.
#[cycle(put)]
fn put_last_list(out: &mut Vec<u8>, all: &[Expr]) -> Result<(), Memory>
    ensures { OnOk result (out.new.items ≡ out.old.items ++ (codes " " ++ (list_of (λ t. t) (map expr_text all.now) ++ codes ")"))) }
{
    put(out, b" ")?;
    put_exprs(out, all)?;
    put(out, b")")
}

// The first part of a CASE.
#[cycle(put)]
fn put_case(out: &mut Vec<u8>, all: &[When]) -> Result<(), Memory>
    ensures { OnOk result (out.new.items ≡ out.old.items ++ (codes "(case " ++ list_of (λ t. t) (map when_text all.now))) }
{
    put(out, b"(case ")?;
    put_whens(out, all)
}

#[cycle(put)]
#[tactic(auto, unfolding(crate::specs::Text::list_of), using(crate::proofs::Members::members_push))]
fn put_exprs(out: &mut Vec<u8>, all: &[Expr]) -> Result<(), Memory>
    ensures { OnOk result (out.new.items ≡ out.old.items ++ list_of (λ t. t) (map expr_text all.now)) }
{
    put(out, b"[")?;
    for (i, e) in all.iter().enumerate() {
        put_behind(out, gap(i), e)?;
    }
    put(out, b"]")
}

#[cycle(put)]
#[tactic(auto, unfolding(crate::specs::Text::list_of), using(crate::proofs::Members::members_push))]
fn put_whens(out: &mut Vec<u8>, all: &[When]) -> Result<(), Memory>
    ensures { OnOk result (out.new.items ≡ out.old.items ++ list_of (λ t. t) (map when_text all.now)) }
{
    put(out, b"[")?;
    for (i, w) in all.iter().enumerate() {
        put(out, gap(i))?;
        put_when(out, w)?;
    }
    put(out, b"]")
}

#[cycle(put)]
#[tactic(auto, unfolding(crate::specs::Text::when_here))]
fn put_when(out: &mut Vec<u8>, w: &When) -> Result<(), Memory>
    ensures { OnOk result (out.new.items ≡ out.old.items ++ when_text w.now) }
{
    put_behind(out, b"(when ", &w.test)?;
    put_last(out, b" ", &w.value)
}

impl Written for Expr {
    ghost text = { expr_text };

    fn put(&self, out: &mut Vec<u8>) -> Result<(), Memory> {
        put_expr(out, self)
    }
}

// An expression, or `none`.
#[tactic(auto, unfolding(crate::specs::Text::option_text))]
fn put_option(out: &mut Vec<u8>, e: &Option<Expr>) -> Result<(), Memory>
    ensures { OnOk result (out.new.items ≡ out.old.items ++ option_text e.now) }
{
    match e {
        None => put(out, b"none"),
        Some(e) => put_expr(out, e),
    }
}

/// The same, and these bytes behind it.
pub(crate) fn put_option_then(
    out: &mut Vec<u8>,
    e: &Option<Expr>,
    behind: &[u8],
) -> Result<(), Memory>
    ensures { OnOk result (out.new.items ≡ out.old.items ++ (option_text e.now ++ behind.now)) }
{
    put_option(out, e)?;
    put(out, behind)
}
