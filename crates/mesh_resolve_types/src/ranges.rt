// BETWEEN and IN: a value beside several others.
ghost use Rattle.std.specs.Prelude.{◌≡◌, IfOk};
ghost use Rattle.mesh_query_tokens.specs.Gives.{Gives};
ghost use Rattle.std.specs.List.{list_any};
ghost use Rattle.mesh_resolve_types.specs.Kinds.{is_date};
ghost use Rattle.mesh_resolve_types.specs.Forms.{range, within, between, are_all_alike, member, among, one_of};

use crate::dates::{dated, dated_all, is_date};
use crate::lists::{all_marks, exprs_of, three_marks, with_marks};
use crate::rules::are_alike;
use crate::typed::{Typed, Typeds, judged, with_made};
use mesh_base::Expr;
use mesh_base_values::ColType;
use mesh_list::{Memory, together};
use mesh_query_tokens::ReadFault;
use std::alloc::Global;

fn range(alloc: Global, at: u64, value: Typed, low: Typed, high: Typed) -> Result<Typed, Memory>
    ensures { IfOk result (λ made. made ≡ range at value low high) }
{
    let Typed {
        expr: value,
        marks: first,
        ..
    } = value;
    let Typed {
        expr: low,
        marks: second,
        ..
    } = low;
    let Typed {
        expr: high,
        marks: third,
        ..
    } = high;
    with_made(
        alloc,
        at,
        Some(ColType::Bool),
        Expr::Between { value, low, high },
        three_marks(first, second, &third),
    )
}

fn within(alloc: Global, at: u64, value: Typed, low: Typed, high: Typed) -> Result<Typed, ReadFault>
    ensures { Gives result (within at value low high) }
{
    let fits = are_alike(value.kind, low.kind) && are_alike(value.kind, high.kind);
    judged(fits, at, range(alloc, at, value, low, high))
}

/// BETWEEN. Where one of the three is a date, the text literals of days among them are dates.
#[tactic(auto, unfolding(crate::specs::Forms::between))]
pub fn between(
    alloc: Global,
    at: u64,
    value: Typed,
    low: Typed,
    high: Typed,
) -> Result<Typed, ReadFault>
    ensures { Gives result (between at value low high) }
{
    let turn = is_date(&value) || is_date(&low) || is_date(&high);
    let ends = together(dated(turn, low), dated(turn, high));
    let (value, ends) = together(dated(turn, value), ends)?;
    let (low, high) = ends;
    within(alloc, at, value, low, high)
}

fn are_all_alike(kind: Option<ColType>, ts: &[Typed]) -> bool
    ensures { result ≡ are_all_alike kind ts.now }
{
    ts.iter().all(|t| are_alike(kind, t.kind))
}

fn some_date(ts: &[Typed]) -> bool
    ensures { result ≡ list_any is_date ts.now }
{
    ts.iter().any(|t| is_date(t))
}

fn member(alloc: Global, at: u64, value: Typed, of: Typeds) -> Result<Typed, Memory>
    ensures { IfOk result (λ made. made ≡ member at value of) }
{
    let Typed {
        expr: value,
        marks,
        ..
    } = value;
    let (more, of) = together(all_marks(&of), exprs_of(of))?;
    with_made(
        alloc,
        at,
        Some(ColType::Bool),
        Expr::OneOf { value, of },
        with_marks(marks, &more),
    )
}

fn among(alloc: Global, at: u64, value: Typed, of: Typeds) -> Result<Typed, ReadFault>
    ensures { Gives result (among at value of) }
{
    let fits = are_all_alike(value.kind, of.as_slice());
    judged(fits, at, member(alloc, at, value, of))
}

/// IN. Where the value or a member is a date, the text literals of days among them are dates.
#[tactic(auto, unfolding(crate::specs::Forms::one_of))]
pub fn one_of(alloc: Global, at: u64, value: Typed, of: Typeds) -> Result<Typed, ReadFault>
    ensures { Gives result (one_of at value of) }
{
    let turn = is_date(&value) || some_date(of.as_slice());
    let (value, of) = together(dated(turn, value), dated_all(turn, of))?;
    among(alloc, at, value, of)
}
