// What is to be done for each model of a plan.
ghost use Rattle.std.specs.Prelude.{◌≡◌, ◌++◌, ◌≤◌, IfOk, OnOk, length, map, take, drop};
ghost use Rattle.std.specs.List.{slice_get};
ghost use Rattle.std.specs.Option.{option_copied, option_map, option_to_list};
ghost use Rattle.mesh_exec_works.specs.Plain.{model_of, parents_at, plain_models, work_model};
ghost use Rattle.mesh_exec_works.specs.Executable.{place_of};
ghost use Rattle.mesh_exec_works.specs.Dues.{leading, behind};
ghost use Rattle.mesh_exec_works.specs.Works.{part_of, parts_from};

use mesh_base::{Due, Entry, Node};
use mesh_list::{Memory, Seq};
use std::alloc::Global;

/// A model of a plan, its entry, and what is due of it.
#[derive(Clone, Copy)]
pub struct Work<'a> {
    pub node: &'a Node,
    pub entry: &'a Entry,
    pub dues: &'a [Due],
}

/// Some models of a plan.
pub type Works<'a> = Seq<Work<'a>>;

fn place_of(due: &Due) -> u32
    ensures { result ≡ place_of due.now }
{
    match due {
        Due::Whole { node, .. } => *node,
        Due::Unit { node, .. } => *node,
    }
}

/// How many of the dues that are left are those of the model at a place.
fn count_leading(dues: &[Due], place: usize) -> usize
    ensures within { result ≤ length dues.now }
    ensures front { take result dues.now ≡ leading place dues.now }
    ensures rest { drop result dues.now ≡ behind place dues.now }
{
    for (i, due) in dues.iter().enumerate() {
        if place_of(due) as usize != place {
            return i;
        }
    }
    dues.len()
}

/// The models of a plan, each with all that is due of it.
pub fn works_of<'a>(
    alloc: Global,
    nodes: &'a [Node],
    entries: &'a [Entry],
    dues: &'a [Due],
) -> Result<Works<'a>, Memory>
    ensures { IfOk result (λ works. map part_of works ≡ parts_from 0 nodes.now entries.now dues.now) }
{
    let mut works = Seq::new(alloc);
    let mut rest = dues;
    for (i, node) in nodes.iter().enumerate() {
        let Some(entry) = entries.get(i) else {
            return Ok(works);
        };
        let (dues, behind) = rest.split_at(count_leading(rest, i));
        rest = behind;
        works.push(Work { node, entry, dues })?;
    }
    Ok(works)
}

fn node_at(nodes: &[Node], place: u32) -> Option<&Node>
    ensures { option_copied result ≡ slice_get nodes.now place }
{
    nodes.get(place as usize)
}

fn entry_at(entries: &[Entry], place: u32) -> Option<&Entry>
    ensures { option_copied result ≡ slice_get entries.now place }
{
    entries.get(place as usize)
}

/// The model at a place, and its entry.
#[tactic(auto, using(crate::proofs::Places::plain_at))]
pub(crate) fn model_at<'a>(
    nodes: &'a [Node],
    entries: &'a [Entry],
    place: u32,
) -> Option<(&'a Node, &'a Entry)>
    ensures { option_map (λ m. model_of m.0.now m.1.now) result ≡ slice_get (plain_models nodes.now entries.now) place }
{
    match node_at(nodes, place) {
        None => None,
        Some(node) => match entry_at(entries, place) {
            None => None,
            Some(entry) => Some((node, entry)),
        },
    }
}

fn push_model<'a>(
    models: &mut Works<'a>,
    nodes: &'a [Node],
    entries: &'a [Entry],
    place: u32,
) -> Result<(), Memory>
    ensures { OnOk result (map work_model models.new ≡ map work_model models.old ++ option_to_list (slice_get (plain_models nodes.now entries.now) place)) }
{
    match model_at(nodes, entries, place) {
        None => Ok(()),
        Some((node, entry)) => models.push(Work {
            node,
            entry,
            dues: &[],
        }),
    }
}

/// The models at these places, with nothing that is due.
pub(crate) fn parents_of<'a>(
    alloc: Global,
    nodes: &'a [Node],
    entries: &'a [Entry],
    places: &[u32],
) -> Result<Works<'a>, Memory>
    ensures { IfOk result (λ models. map work_model models ≡ parents_at (plain_models nodes.now entries.now) places.now) }
{
    let mut models = Seq::new(alloc);
    for place in places {
        push_model(&mut models, nodes, entries, *place)?;
    }
    Ok(models)
}
