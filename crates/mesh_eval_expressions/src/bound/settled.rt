// Expressions whose values take no memory.
ghost use Rattle.std.specs.Prelude.{◌≡◌, IfOk};
ghost use Rattle.mesh_base_values.specs.declared.values.Cell.{Cell as Shown};
ghost use Rattle.mesh_eval_expressions.specs.bound.Meaning.{Given, Means};

use crate::bound::forms::{Bound, BoundWhen};
use mesh_base::{Func, Op};
use mesh_base_values::ColType;
use mesh_list::{Boxed, Memory};
use std::alloc::Global;

fn makes_text(func: Func) -> bool {
    matches!(func, Func::Upper | Func::Lower)
}

fn joins_texts(op: Op) -> bool {
    matches!(op, Op::Cat)
}

/// A truth is read off a text in small letters, which is made too.
fn writes_text(to: ColType) -> bool {
    matches!(to, ColType::Text | ColType::Bool)
}

/// Whether no part of it makes a text, nor a list of a group's values.
#[cycle(plain)]
fn is_plain(b: &Bound) -> bool {
    match b {
        Bound::Lies(_) | Bound::Known(_) | Bound::Key(_) | Bound::Plain(_) => true,
        Bound::Binary { op, left, right } => {
            !joins_texts(*op) && is_plain(left.get()) && is_plain(right.get())
        }
        Bound::Neg(value) | Bound::Not(value) | Bound::IsNull(value) => is_plain(value.get()),
        Bound::Between { value, low, high } => {
            is_plain(value.get()) && is_plain(low.get()) && is_plain(high.get())
        }
        Bound::OneOf { value, of } => is_plain(value.get()) && are_plain(of.as_slice()),
        Bound::Call { func, args } => !makes_text(*func) && are_plain(args.as_slice()),
        Bound::Case { whens, otherwise } => {
            are_plain_whens(whens.as_slice()) && is_plain(otherwise.get())
        }
        Bound::Cast { to, value } => !writes_text(*to) && is_plain(value.get()),
        Bound::CountAll | Bound::Agg { kind: _, value: _ } => false,
    }
}

#[cycle(plain)]
fn are_plain(all: &[Bound]) -> bool {
    for b in all {
        if !is_plain(b) {
            return false;
        }
    }
    true
}

#[cycle(plain)]
fn are_plain_whens(whens: &[BoundWhen]) -> bool {
    for w in whens {
        if !is_plain(&w.test) || !is_plain(&w.value) {
            return false;
        }
    }
    true
}

fn is_and(op: Op) -> bool {
    matches!(op, Op::And)
}

/// Whether a mark would be of no use: its value lies somewhere, or it is an AND, of which each side is marked.
fn stands(b: &Bound) -> bool {
    match b {
        Bound::Lies(_) | Bound::Known(_) | Bound::Key(_) | Bound::Plain(_) => true,
        Bound::Binary {
            op,
            left: _,
            right: _,
        } => is_and(*op),
        _ => false,
    }
}

fn plain(alloc: Global, b: Bound) -> Result<Bound, Memory>
    ensures { (f : Given → Shown) → Means f b → IfOk result (Means f) }
{
    let value = Boxed::new(alloc, b)?;
    Ok(Bound::Plain(value))
}

/// The same, marked where its value takes no memory.
pub(crate) fn settled(alloc: Global, b: Result<Bound, Memory>) -> Result<Bound, Memory>
    ensures { (f : Given → Shown) → IfOk b (Means f) → IfOk result (Means f) }
{
    let b = b?;
    if !stands(&b) && is_plain(&b) {
        plain(alloc, b)
    } else {
        Ok(b)
    }
}
