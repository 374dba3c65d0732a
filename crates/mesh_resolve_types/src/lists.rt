// Several expressions together.
ghost use Rattle.std.specs.Prelude.{◌≡◌, ◌++◌, map, IfOk};
ghost use Rattle.mesh_resolve_types.specs.Kinds.{kind_of};
ghost use Rattle.mesh_resolve_types.specs.Forms.{expr_of, all_marks};

use crate::typed::Typeds;
use mesh_base::Exprs;
use mesh_base_values::ColType;
use mesh_list::{Memory, Seq};

pub(crate) fn kinds_of(ts: &Typeds) -> Result<Seq<Option<ColType>>, Memory>
    ensures { IfOk result (λ made. made ≡ map kind_of ts.now) }
{
    let mut made = Seq::new(ts.alloc());
    for t in ts.as_slice() {
        made.push(t.kind)?;
    }
    Ok(made)
}

/// The marks, and these behind them.
pub(crate) fn with_marks(marks: Seq<u64>, more: &Seq<u64>) -> Result<Seq<u64>, Memory>
    ensures { IfOk result (λ made. made ≡ marks ++ more.now) }
{
    let mut made = marks.into_vec();
    match made.extend_from_slice(more.as_slice()) {
        Ok(()) => Ok(Seq::from_vec(made)),
        Err(_) => Err(Memory),
    }
}

/// The marks of three parts, one behind the other.
pub(crate) fn three_marks(
    first: Seq<u64>,
    second: Seq<u64>,
    third: &Seq<u64>,
) -> Result<Seq<u64>, Memory>
    ensures { IfOk result (λ made. made ≡ first ++ (second ++ third.now)) }
{
    let rest = with_marks(second, third)?;
    with_marks(first, &rest)
}

pub(crate) fn all_marks(ts: &Typeds) -> Result<Seq<u64>, Memory>
    ensures { IfOk result (λ made. made ≡ all_marks ts.now) }
{
    let mut made = Seq::new(ts.alloc());
    for t in ts.as_slice() {
        made = with_marks(made, &t.marks)?;
    }
    Ok(made)
}

pub(crate) fn exprs_of(ts: Typeds) -> Result<Exprs, Memory>
    ensures { IfOk result (λ made. made ≡ map expr_of ts) }
{
    let mut made = Seq::new(ts.alloc());
    for t in ts.into_vec() {
        made.push(t.expr.into_inner())?;
    }
    Ok(made)
}
