// Expressions whose columns and types are known.
ghost use Rattle.std.specs.Prelude.{◌≡◌, IfOk, Ok};
ghost use Rattle.mesh_query_tokens.specs.Gives.{Gives};
ghost use Rattle.mesh_query_tokens.specs.Walk.{provided};
ghost use Rattle.mesh_resolve_types.specs.Faults.{mismatch};
ghost use Rattle.mesh_resolve_types.specs.declared.typed.Typed.{Typed};
ghost use Rattle.mesh_resolve_types.specs.Forms.{leaf, with_parts};

use crate::faults::mismatch;
use mesh_base::Expr;
use mesh_base_values::ColType;
use mesh_list::{Boxed, Duplicate, Memory, Seq, both, together};
use mesh_query_tokens::ReadFault;
use std::alloc::Global;

/// Expressions side by side, as the arguments of a function.
pub type Typeds = Seq<Typed>;

/// The arms of a CASE: each its test, or what its operand is compared with, and its value.
pub type Arms = Seq<(Typed, Typed)>;

/// A resolved expression. `at` is the place of its first byte, without the parentheses round the whole of it. `kind` is
/// none for a NULL whose type its place decides. `marks` are the places of its columns and aggregates, in the order of
/// the walk.
#[derive(Drop)]
pub struct Typed {
    pub at: u64,
    pub kind: Option<ColType>,
    pub expr: Boxed<Expr>,
    pub marks: Seq<u64>,
}

pub(crate) fn with_parts(
    alloc: Global,
    at: u64,
    kind: Option<ColType>,
    expr: Expr,
    marks: Seq<u64>,
) -> Result<Typed, Memory>
    ensures { IfOk result (λ made. made ≡ with_parts at kind expr marks) }
{
    let expr = Boxed::new(alloc, expr)?;
    Ok(Typed {
        at,
        kind,
        expr,
        marks,
    })
}

/// The same with marks for which memory may be wanting.
pub(crate) fn with_made(
    alloc: Global,
    at: u64,
    kind: Option<ColType>,
    expr: Expr,
    marks: Result<Seq<u64>, Memory>,
) -> Result<Typed, Memory>
    ensures { IfOk result (λ made. (marks ≡ Ok made.marks) × (made ≡ with_parts at kind expr made.marks)) }
{
    let (expr, marks) = together(Boxed::new(alloc, expr), marks)?;
    Ok(Typed {
        at,
        kind,
        expr,
        marks,
    })
}

/// What was made, where the types that it asks for stand there.
pub(crate) fn judged(fits: bool, at: u64, made: Result<Typed, Memory>) -> Result<Typed, ReadFault>
    ensures { (t : Typed) → IfOk made (λ it. it ≡ t) → Gives result (provided fits t (mismatch at)) }
{
    if fits { Ok(made?) } else { Err(mismatch(at)) }
}

/// A literal or a macro, which has no mark.
pub fn leaf(alloc: Global, at: u64, kind: Option<ColType>, expr: Expr) -> Result<Typed, Memory>
    ensures { IfOk result (λ made. made ≡ leaf at kind expr) }
{
    with_parts(alloc, at, kind, expr, Seq::new(alloc))
}

pub(crate) fn copied(t: &Typed) -> Result<Typed, Memory>
    ensures { IfOk result (λ made. made ≡ t.now) }
{
    let (marks, expr) = both(&t.marks, t.expr.get())?;
    with_parts(t.expr.alloc(), t.at, t.kind, expr, marks)
}
