// Which models may be computed side by side.
ghost use Rattle.std.specs.Prelude.{◌≡◌, ◌≤◌, length, IfOk};
ghost use Rattle.mesh_spec_changes.specs.due.Marks.{is_computed};
ghost use Rattle.mesh_exec.specs.Cuts.{AreRunsIf, IsReady};

use crate::fills::is_computed;
use crate::runs::{Runs, runs_of};
use mesh_exec_works::Work;
use mesh_list::{Memory, Seq};
use std::alloc::Global;

/// How many models may be computed side by side, and how many runs they may have.
pub(crate) const MOST: usize = 256;

/// What is to be done for a model, and the runs of its due parts where its rows are computed.
pub(crate) struct Cut<'a> {
    pub(crate) work: Work<'a>,
    pub(crate) runs: Runs<'a>,
}

impl Drop for Cut<'_> {
    fn drop(self) {
        let Cut { work: _, runs: _ } = self;
    }
}

pub(crate) type Cuts<'a> = Seq<Cut<'a>>;

fn runs_where_computed<'a>(alloc: Global, work: &Work<'a>) -> Result<Runs<'a>, Memory>
    ensures { IfOk result (λ runs. AreRunsIf (is_computed work.now.node.now.own.kind) work.now.node.now work.now.dues.now runs) }
{
    if is_computed(&work.node.own.kind) {
        runs_of(alloc, work.node, work.dues)
    } else {
        Ok(Seq::new(alloc))
    }
}

/// The first of some models that have one rank, at most so many, as far as all of them have few runs.
pub(crate) fn ready_of<'a>(
    alloc: Global,
    works: &[Work<'a>],
    most: usize,
) -> Result<Cuts<'a>, Memory>
    requires { most ≤ 256 }
    ensures { IfOk result (λ cuts. IsReady works.now cuts) }
{
    let mut made = Seq::new(alloc);
    let mut count: usize = 0;
    for work in works {
        if made.len() >= most || work.node.rank != works[0].node.rank {
            return Ok(made);
        }
        let runs = runs_where_computed(alloc, work)?;
        if runs.len() > MOST - count {
            return Ok(made);
        }
        count += runs.len();
        made.push(Cut { work: *work, runs })?;
    }
    Ok(made)
}
