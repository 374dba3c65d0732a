// The text of a plan.
ghost use Rattle.std.specs.Prelude.{◌≡◌, ◌++◌, [], codes, IfOk, OnOk};
ghost use Rattle.std.specs.Fmt.{decimal};
ghost use Rattle.std.specs.List.{flat_map, slice_get};
ghost use Rattle.std.specs.Option.{option_copied};
ghost use Rattle.mesh_cli_print.specs.faults.Lines.{◌·◌, name_text};
ghost use Rattle.mesh_cli_print.specs.plans.Moments.{moment_text};
ghost use Rattle.mesh_cli_print.specs.plans.PlanText.{compared_lines, difference_line, difference_lines, differences, due_lines, end_of, head_line, head_word, line_of, node_text, plan_text, run_line, run_lines, span_text, units_line, whole_line, unsteady_line, unsteady_lines};

use crate::faults::{put, put_name, put_number};
use crate::plans::differences::{Difference, add_nodes, add_removed};
use crate::plans::moments::put_moment;
use crate::plans::runs::first_run;
use mesh_base::rules::Plan;
use mesh_base::{Due, Node};
use mesh_base_values::{Pair, Str};
use mesh_list::{Memory, Seq, Sorted};
use std::alloc::Global;

fn put_difference(out: &mut Vec<u8>, d: &Difference) -> Result<(), Memory>
    ensures { OnOk result (out.new.items ≡ out.old.items ++ difference_line d.now) }
{
    put(out, d.word.as_slice())?;
    put(out, b" ")?;
    put_name(out, &d.name)?;
    put(out, b" ")?;
    put(out, d.kind.as_slice())?;
    put(out, b"\n")
}

fn put_each_difference(out: &mut Vec<u8>, all: &[Difference]) -> Result<(), Memory>
    ensures { OnOk result (out.new.items ≡ out.old.items ++ flat_map difference_line all.now) }
{
    for d in all {
        put_difference(out, d)?;
    }
    Ok(())
}

fn put_differences(out: &mut Vec<u8>, all: &[Difference]) -> Result<(), Memory>
    ensures { OnOk result (out.new.items ≡ out.old.items ++ difference_lines all.now) }
{
    match all {
        [] => put(out, b"no changes\n"),
        [_, ..] => put_each_difference(out, all),
    }
}

fn differences(alloc: Global, p: &Plan) -> Result<Sorted<Difference>, Memory>
    ensures { IfOk result (λ made. made ≡ differences p.now) }
{
    let mut made = Sorted::new(alloc);
    add_nodes(&mut made, p.project.as_slice(), p.entries.as_slice())?;
    add_removed(&mut made, p.removed.as_slice())?;
    Ok(made)
}

fn put_unsteady_model(out: &mut Vec<u8>, pair: &Pair) -> Result<(), Memory>
    ensures { OnOk result (out.new.items ≡ out.old.items ++ unsteady_line pair.now) }
{
    put(out, b"unsteady ")?;
    put_name(out, &pair.first)?;
    put(out, b" reads ")?;
    put_name(out, &pair.second)?;
    put(out, b"\n")
}

fn put_unsteady(out: &mut Vec<u8>, pairs: &[Pair]) -> Result<(), Memory>
    ensures { OnOk result (out.new.items ≡ out.old.items ++ unsteady_lines pairs.now) }
{
    for pair in pairs {
        put_unsteady_model(out, pair)?;
    }
    Ok(())
}

#[tactic(auto, unfolding(crate::specs::plans::PlanText::node_text))]
fn put_node(out: &mut Vec<u8>, nodes: &[Node], place: u32) -> Result<(), Memory>
    ensures { OnOk result (out.new.items ≡ out.old.items ++ node_text (slice_get nodes.now place)) }
{
    match nodes.get(place as usize) {
        None => Ok(()),
        Some(n) => put_name(out, &n.own.name),
    }
}

fn put_whole(out: &mut Vec<u8>, nodes: &[Node], place: u32) -> Result<(), Memory>
    ensures { OnOk result (out.new.items ≡ out.old.items ++ whole_line nodes.now place) }
{
    put(out, b"due ")?;
    put_node(out, nodes, place)?;
    put(out, b" whole\n")
}

#[tactic(auto, unfolding(crate::specs::plans::PlanText::span_text))]
fn put_span(out: &mut Vec<u8>, start: i64, end: i64) -> Result<(), Memory>
    ensures { OnOk result (out.new.items ≡ out.old.items ++ span_text start end) }
{
    put(out, b" ")?;
    put_moment(out, start)?;
    put(out, b" ")?;
    put_moment(out, end)?;
    put(out, b" ")
}

fn put_units(
    out: &mut Vec<u8>,
    nodes: &[Node],
    place: u32,
    start: i64,
    end: i64,
    count: usize,
) -> Result<(), Memory>
    ensures { OnOk result (out.new.items ≡ out.old.items ++ units_line nodes.now place start end count) }
{
    put(out, b"due ")?;
    put_node(out, nodes, place)?;
    put_span(out, start, end)?;
    put_number(out, count as u64)?;
    put(out, b"\n")
}

fn end_of(due: Option<&Due>) -> i64
    ensures { result ≡ end_of (option_copied due.entry) }
{
    match due {
        Some(Due::Unit { end, .. }) => *end,
        Some(Due::Whole { .. }) | None => 0,
    }
}

fn put_line(
    out: &mut Vec<u8>,
    nodes: &[Node],
    first: Option<&Due>,
    last: Option<&Due>,
    count: usize,
) -> Result<(), Memory>
    ensures { OnOk result (out.new.items ≡ out.old.items ++ line_of nodes.now (option_copied first.entry) (option_copied last.entry) count) }
{
    match first {
        None => Ok(()),
        Some(Due::Whole { node, .. }) => put_whole(out, nodes, *node),
        Some(Due::Unit { node, start, .. }) => {
            put_units(out, nodes, *node, *start, end_of(last), count)
        }
    }
}

fn put_run(out: &mut Vec<u8>, nodes: &[Node], run: &[Due]) -> Result<(), Memory>
    ensures { OnOk result (out.new.items ≡ out.old.items ++ run_line nodes.now run.now) }
{
    let last = run.get(run.len().saturating_sub(1));
    put_line(out, nodes, run.get(0), last, run.len())
}

fn put_runs(out: &mut Vec<u8>, nodes: &[Node], dues: &[Due]) -> Result<(), Memory>
    ensures { OnOk result (out.new.items ≡ out.old.items ++ run_lines nodes.now dues.now) }
{
    let mut rest = dues;
    while 0 < rest.len() {
        let (run, after) = rest.split_at(first_run(rest));
        put_run(out, nodes, run)?;
        rest = after;
    }
    Ok(())
}

fn put_dues(out: &mut Vec<u8>, nodes: &[Node], dues: &[Due]) -> Result<(), Memory>
    ensures { OnOk result (out.new.items ≡ out.old.items ++ due_lines nodes.now dues.now) }
{
    match dues {
        [] => put(out, b"nothing due\n"),
        [_, ..] => put_runs(out, nodes, dues),
    }
}

fn put_compared(out: &mut Vec<u8>, p: &Plan) -> Result<(), Memory>
    ensures { OnOk result (out.new.items ≡ out.old.items ++ compared_lines p.now.run p.now) }
{
    if p.run {
        return Ok(());
    }
    let all = differences(p.env.alloc(), p)?;
    put_differences(out, all.as_slice())?;
    put_unsteady(out, p.unsteady.as_slice())
}

#[tactic(auto, unfolding(crate::specs::plans::PlanText::head_word))]
fn put_word(out: &mut Vec<u8>, run: bool) -> Result<(), Memory>
    ensures { OnOk result (out.new.items ≡ out.old.items ++ head_word run) }
{
    if run {
        put(out, b"run ")
    } else {
        put(out, b"plan ")
    }
}

fn put_head(out: &mut Vec<u8>, p: &Plan) -> Result<(), Memory>
    ensures { OnOk result (out.new.items ≡ out.old.items ++ head_line p.now) }
{
    put_word(out, p.run)?;
    put(out, p.env.as_slice())?;
    put(out, b" at ")?;
    put_moment(out, p.moment)?;
    put(out, b"\n")
}

fn put_count(out: &mut Vec<u8>, count: usize) -> Result<(), Memory>
    ensures { OnOk result (out.new.items ≡ out.old.items ++ (decimal count · codes " units\n")) }
{
    put_number(out, count as u64)?;
    put(out, b" units\n")
}

fn put_plan(out: &mut Vec<u8>, p: &Plan) -> Result<(), Memory>
    ensures { OnOk result (out.new.items ≡ out.old.items ++ plan_text p.now) }
{
    put_head(out, p)?;
    put_compared(out, p)?;
    put_dues(out, p.project.as_slice(), p.dues.as_slice())?;
    put_count(out, p.dues.len())
}

/// What is printed of a plan: its environment and moment; but for a run, the models that differ from those that the
/// environment lists, by name, and those that aren't steady; what is due, in the order of the plan; and the number of
/// that.
pub fn plan_text(p: &Plan) -> Result<Str, Memory>
    ensures { IfOk result (λ text. text ≡ plan_text p.now) }
{
    let mut out = Vec::new(p.env.alloc());
    put_plan(&mut out, p)?;
    Ok(Seq::from_vec(out))
}
