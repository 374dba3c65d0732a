// CASE, over its operand, its arms and its ELSE.
ghost use Rattle.std.specs.Prelude.{◌≡◌, ◌++◌, ◌∷◌, [], map, IfOk};
ghost use Rattle.std.specs.List.{flat_map};
ghost use Rattle.mesh_query_tokens.specs.Gives.{Gives};
ghost use Rattle.mesh_query_tokens.specs.Walk.{all_of};
ghost use Rattle.mesh_resolve_types.specs.Forms.{test, arm, when, arm_marks, arm_kind, else_or_null, choice, case_of, cased};
ghost use Rattle.mesh_resolve_types.specs.Sizes.{IsSmall};

use crate::forms::compared;
use crate::lists::with_marks;
use crate::rules::{are_one_kind, first_kind, may_be};
use crate::sizes::is_small;
use crate::typed::{Arms, Typed, copied, judged, leaf, with_made};
use mesh_base::{Expr, Op, When, Whens};
use mesh_base_values::{Cell, ColType};
use mesh_list::{Memory, Seq, together};
use mesh_query_tokens::ReadFault;
use std::alloc::Global;

fn test(alloc: Global, at: u64, operand: &Option<Typed>, t: Typed) -> Result<Typed, ReadFault>
    ensures { Gives result (test at operand.now t) }
{
    match operand {
        None => {
            let fits = may_be(ColType::Bool, t.kind);
            judged(fits, at, Ok(t))
        }
        Some(operand) => compared(alloc, Op::Eq, at, copied(operand)?, t),
    }
}

fn arm(
    alloc: Global,
    at: u64,
    operand: &Option<Typed>,
    a: (Typed, Typed),
) -> Result<(Typed, Typed), ReadFault>
    ensures { Gives result (arm at operand.now a) }
{
    let (t, value) = a;
    let t = test(alloc, at, operand, t)?;
    Ok((t, value))
}

#[tactic(auto, unfolding(mesh_query_tokens::specs::Walk::along))]
fn tested(alloc: Global, at: u64, operand: &Option<Typed>, arms: Arms) -> Result<Arms, ReadFault>
    ensures { Gives result (all_of (map (arm at operand.now) arms)) }
{
    let mut made = Seq::new(alloc);
    for a in arms.into_vec() {
        made.push(arm(alloc, at, operand, a)?)?;
    }
    Ok(made)
}

// The operand is dropped once each WHEN has its copy.
fn tested_by(alloc: Global, at: u64, operand: Option<Typed>, arms: Arms) -> Result<Arms, ReadFault>
    ensures { Gives result (all_of (map (arm at operand) arms)) }
{
    tested(alloc, at, &operand, arms)
}

fn kinds_of(arms: &Arms, otherwise: Option<ColType>) -> Result<Seq<Option<ColType>>, Memory>
    ensures { IfOk result (λ made. made ≡ map arm_kind arms.now ++ otherwise ∷ []) }
{
    let mut made = Seq::new(arms.alloc());
    for a in arms.as_slice() {
        made.push(a.1.kind)?;
    }
    made.push(otherwise)?;
    Ok(made)
}

fn marks_of(arms: &Arms) -> Result<Seq<u64>, Memory>
    ensures { IfOk result (λ made. made ≡ flat_map arm_marks arms.now) }
{
    let mut made = Seq::new(arms.alloc());
    for a in arms.as_slice() {
        made = with_marks(with_marks(made, &a.0.marks)?, &a.1.marks)?;
    }
    Ok(made)
}

fn whens(arms: Arms) -> Result<Whens, Memory>
    ensures { IfOk result (λ made. made ≡ map when arms) }
{
    let mut made = Seq::new(arms.alloc());
    for a in arms.into_vec() {
        let (test, value) = a;
        made.push(When {
            test: test.expr.into_inner(),
            value: value.expr.into_inner(),
        })?;
    }
    Ok(made)
}

fn choice(
    alloc: Global,
    at: u64,
    kind: Option<ColType>,
    arms: Arms,
    otherwise: Typed,
) -> Result<Typed, Memory>
    ensures { IfOk result (λ made. made ≡ choice at kind arms otherwise) }
{
    let Typed {
        expr: otherwise,
        marks,
        ..
    } = otherwise;
    let (first, whens) = together(marks_of(&arms), whens(arms))?;
    with_made(
        alloc,
        at,
        kind,
        Expr::Case { whens, otherwise },
        with_marks(first, &marks),
    )
}

fn case_of(alloc: Global, at: u64, otherwise: Typed, arms: Arms) -> Result<Typed, ReadFault>
    ensures { Gives result (case_of at otherwise arms) }
{
    let kinds = kinds_of(&arms, otherwise.kind)?;
    let made = choice(alloc, at, first_kind(kinds.as_slice()), arms, otherwise);
    judged(are_one_kind(kinds.as_slice()), at, made)
}

fn else_or_null(alloc: Global, at: u64, otherwise: Option<Typed>) -> Result<Typed, Memory>
    ensures { IfOk result (λ made. made ≡ else_or_null at otherwise) }
{
    match otherwise {
        Some(t) => Ok(t),
        None => leaf(alloc, at, None, Expr::Literal(Cell::Null)),
    }
}

#[tactic(auto, unfolding(crate::specs::Forms::cased))]
fn written_out(
    alloc: Global,
    at: u64,
    operand: Option<Typed>,
    arms: Arms,
    otherwise: Option<Typed>,
) -> Result<Typed, ReadFault>
    requires { IsSmall operand arms otherwise }
    ensures { Gives result (cased at operand arms otherwise) }
{
    let otherwise = else_or_null(alloc, at, otherwise)?;
    let arms = tested_by(alloc, at, operand, arms)?;
    case_of(alloc, at, otherwise, arms)
}

/// CASE. Where it has an operand, each WHEN compares a copy of it. One that would grow too large so is never begun, and
/// gives `Memory`.
pub fn cased(
    alloc: Global,
    at: u64,
    operand: Option<Typed>,
    arms: Arms,
    otherwise: Option<Typed>,
) -> Result<Typed, ReadFault>
    ensures { Gives result (cased at operand arms otherwise) }
{
    if is_small(&operand, &arms, &otherwise) {
        written_out(alloc, at, operand, arms, otherwise)
    } else {
        Err(ReadFault::Memory)
    }
}
