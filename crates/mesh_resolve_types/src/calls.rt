// Functions and aggregates, over their arguments.
ghost use Rattle.std.specs.Prelude.{◌≡◌, ◌∷◌, [], IfOk};
ghost use Rattle.std.specs.declared.option.Option.TheVariants.{Some};
ghost use Rattle.mesh_base_values.specs.declared.values.ColType.TheVariants.{Int};
ghost use Rattle.mesh_base.specs.declared.expressions.Expr.{CountAll};
ghost use Rattle.mesh_base.specs.declared.expressions.AggKind.TheVariants.{Count};
ghost use Rattle.mesh_query_tokens.specs.Gives.{Gives, ◌>>=◌ as ◌onto◌};
ghost use Rattle.mesh_resolve_types.specs.Forms.{call, unary, alternatives, aggregate, only, counted, summed, extreme, called, with_parts, starred, distinct};

use crate::faults::unwritten;
use crate::lists::{all_marks, exprs_of, kinds_of};
use crate::rules::{are_one_kind, first_kind, may_be};
use crate::typed::{Typed, Typeds, judged, with_parts};
use mesh_base::{AggKind, Expr, Func};
use mesh_base_values::ColType;
use mesh_list::{Memory, Seq, together};
use mesh_query_grammar::surface::Function;
use mesh_query_tokens::ReadFault;
use std::alloc::Global;

fn call(
    alloc: Global,
    at: u64,
    kind: Option<ColType>,
    func: Func,
    ts: Typeds,
) -> Result<Typed, Memory>
    ensures { IfOk result (λ made. made ≡ call at kind func ts) }
{
    let (marks, args) = together(all_marks(&ts), exprs_of(ts))?;
    with_parts(alloc, at, kind, Expr::Call { func, args }, marks)
}

fn unary(
    alloc: Global,
    at: u64,
    func: Func,
    from: ColType,
    to: ColType,
    ts: Typeds,
) -> Result<Typed, ReadFault>
    ensures { Gives result (unary at func from to ts) }
{
    let kind = match ts.as_slice() {
        [t] => t.kind,
        _ => return Err(unwritten(at)),
    };
    judged(may_be(from, kind), at, call(alloc, at, Some(to), func, ts))
}

fn alternatives(alloc: Global, at: u64, func: Func, ts: Typeds) -> Result<Typed, ReadFault>
    ensures { Gives result (alternatives at func ts) }
{
    let kinds = kinds_of(&ts)?;
    let made = call(alloc, at, first_kind(kinds.as_slice()), func, ts);
    judged(are_one_kind(kinds.as_slice()), at, made)
}

fn aggregate(
    alloc: Global,
    at: u64,
    kind: AggKind,
    of: Option<ColType>,
    t: Typed,
) -> Result<Typed, Memory>
    ensures { IfOk result (λ made. made ≡ aggregate at kind of t) }
{
    let Typed {
        expr: value,
        mut marks,
        ..
    } = t;
    marks.push(at)?;
    with_parts(alloc, at, of, Expr::Agg { kind, value }, marks)
}

fn counted(alloc: Global, at: u64, kind: AggKind, t: Typed) -> Result<Typed, ReadFault>
    ensures { Gives result (counted at kind t) }
{
    Ok(aggregate(alloc, at, kind, Some(ColType::Int), t)?)
}

fn count(alloc: Global, at: u64, ts: Typeds) -> Result<Typed, ReadFault>
    ensures { Gives result (only at ts onto counted at Count) }
{
    counted(alloc, at, AggKind::Count, only(at, ts)?)
}

fn summed(alloc: Global, at: u64, ts: Typeds) -> Result<Typed, ReadFault>
    ensures { Gives result (only at ts onto summed at) }
{
    let t = only(at, ts)?;
    let fits = may_be(ColType::Int, t.kind);
    judged(
        fits,
        at,
        aggregate(alloc, at, AggKind::Sum, Some(ColType::Int), t),
    )
}

fn extreme(alloc: Global, at: u64, kind: AggKind, ts: Typeds) -> Result<Typed, ReadFault>
    ensures { Gives result (only at ts onto extreme at kind) }
{
    let t = only(at, ts)?;
    let of = t.kind;
    Ok(aggregate(alloc, at, kind, of, t)?)
}

fn only(at: u64, ts: Typeds) -> Result<Typed, ReadFault>
    ensures { Gives result (only at ts) }
{
    let mut rest = ts;
    match rest.pop() {
        Some(t) => {
            if rest.is_empty() {
                Ok(t)
            } else {
                Err(unwritten(at))
            }
        }
        None => Err(unwritten(at)),
    }
}

/// A function or an aggregate of its arguments.
#[tactic(auto, unfolding(crate::specs::Forms::called))]
pub fn called(alloc: Global, at: u64, function: Function, ts: Typeds) -> Result<Typed, ReadFault>
    ensures { Gives result (called at function ts) }
{
    match function {
        Function::Abs => unary(alloc, at, Func::Abs, ColType::Int, ColType::Int, ts),
        Function::Length => unary(alloc, at, Func::Length, ColType::Text, ColType::Int, ts),
        Function::Upper => unary(alloc, at, Func::Upper, ColType::Text, ColType::Text, ts),
        Function::Lower => unary(alloc, at, Func::Lower, ColType::Text, ColType::Text, ts),
        Function::Nullif => alternatives(alloc, at, Func::Nullif, ts),
        Function::Coalesce => alternatives(alloc, at, Func::Coalesce, ts),
        Function::Count => count(alloc, at, ts),
        Function::Sum => summed(alloc, at, ts),
        Function::Min => extreme(alloc, at, AggKind::Min, ts),
        Function::Max => extreme(alloc, at, AggKind::Max, ts),
    }
}

// The place of COUNT(*) is its mark.
fn count_all(alloc: Global, at: u64) -> Result<Typed, Memory>
    ensures { IfOk result (λ made. made ≡ with_parts at (Some Int) CountAll (at ∷ [])) }
{
    let mut mark = Seq::new(alloc);
    mark.push(at)?;
    with_parts(alloc, at, Some(ColType::Int), Expr::CountAll, mark)
}

/// A function of `*`, which is COUNT alone.
pub fn starred(alloc: Global, at: u64, function: Function) -> Result<Typed, ReadFault>
    ensures { Gives result (starred at function) }
{
    match function {
        Function::Count => Ok(count_all(alloc, at)?),
        _ => Err(unwritten(at)),
    }
}

/// A function with DISTINCT before its argument, which is COUNT alone.
pub fn distinct(alloc: Global, at: u64, function: Function, t: Typed) -> Result<Typed, ReadFault>
    ensures { Gives result (distinct at function t) }
{
    match function {
        Function::Count => counted(alloc, at, AggKind::Countd, t),
        _ => Err(unwritten(at)),
    }
}
