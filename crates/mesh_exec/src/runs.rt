// The due parts of a model that one query computes.
ghost use Rattle.std.specs.Prelude.{◌≡◌, ◌≤◌, length, take, drop, IfOk, Some};
ghost use Rattle.mesh_lineage.specs.Joinable.{is_joinable};
ghost use Rattle.mesh_exec.specs.Runs.{AreRunsOf, begins_at, end_of, goes_on, last_end, run_ahead};

use mesh_base::{Due, Node};
use mesh_lineage::joinable;
use mesh_list::{Memory, Seq};
use std::alloc::Global;

/// How many units a run may have, and how many runs a wave.
const MOST_UNITS: usize = 256;

/// Adjoining units, or one due part.
#[derive(Clone, Copy)]
pub(crate) struct Run<'a> {
    pub(crate) dues: &'a [Due],
}

pub(crate) type Runs<'a> = Seq<Run<'a>>;

/// Whether a unit begins there.
fn begins_at(end: i64, due: &Due) -> bool
    ensures { result ≡ begins_at end due.now }
{
    match due {
        Due::Unit { start, .. } => *start == end,
        Due::Whole { .. } => false,
    }
}

fn end_of(due: &Due) -> i64
    ensures { result ≡ end_of due.now }
{
    match due {
        Due::Unit { end, .. } => *end,
        Due::Whole { .. } => 0,
    }
}

/// What the next part is to begin at.
fn next_begin(due: &Due) -> Option<i64>
    ensures { result ≡ Some (end_of due.now) }
{
    Some(end_of(due))
}

/// Whether a part goes on from the end of the one before it.
fn goes_on(joins: bool, last: Option<i64>, due: &Due) -> bool
    ensures { result ≡ goes_on joins last due.now }
{
    match last {
        None => true,
        Some(end) => joins && begins_at(end, due),
    }
}

/// How many due parts the longest run has that leads some.
fn count_run(joins: bool, dues: &[Due]) -> usize
    ensures within { result ≤ length dues.now }
    ensures front { take result dues.now ≡ run_ahead joins dues.now }
{
    let mut last = None;
    for (i, due) in dues.iter().enumerate() {
        if i >= MOST_UNITS {
            return i;
        }
        if !goes_on(joins, last, due) {
            return i;
        }
        last = next_begin(due);
    }
    dues.len()
}

/// Due parts in runs, each as long as it may be.
fn cut_in_runs<'a>(alloc: Global, joins: bool, dues: &'a [Due]) -> Result<Runs<'a>, Memory>
    ensures { IfOk result (λ runs. AreRunsOf joins dues.now runs) }
{
    let mut runs = Seq::new(alloc);
    let mut rest = dues;
    while 0 < rest.len() {
        let (run, behind) = rest.split_at(count_run(joins, rest));
        runs.push(Run { dues: run })?;
        rest = behind;
    }
    Ok(runs)
}

/// The due parts of a model in runs: adjoining units are in one where the rows of each are those of one query for all
/// of them that lie in the unit.
pub(crate) fn runs_of<'a>(alloc: Global, node: &Node, dues: &'a [Due]) -> Result<Runs<'a>, Memory>
    ensures { IfOk result (λ runs. AreRunsOf (is_joinable node.now.own) dues.now runs) }
{
    let joins = joinable(&node.own)?;
    cut_in_runs(alloc, joins, dues)
}

/// The end of the last of some due parts, or this one.
pub(crate) fn last_end(end: i64, dues: &[Due]) -> i64
    ensures { result ≡ last_end end dues.now }
{
    let mut last = end;
    for due in dues {
        last = end_of(due);
    }
    last
}

/// The first of the runs from a place on, as many as a wave may have.
pub(crate) fn runs_from<'b, 'a>(runs: &'b [Run<'a>], at: usize) -> &'b [Run<'a>]
    requires { at ≤ length runs.now }
    ensures { result.now ≡ take 256 (drop at runs.now) }
{
    let (_, rest) = runs.split_at(at);
    if rest.len() <= MOST_UNITS {
        return rest;
    }
    let (front, _) = rest.split_at(MOST_UNITS);
    front
}
