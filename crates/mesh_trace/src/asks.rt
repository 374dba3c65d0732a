// What is asked of the models of a project, while a trace goes from a model down to its ancestors.
ghost use Rattle.std.specs.Prelude.{◌≡◌, IfOk, OnOk, Some};
ghost use Rattle.mesh_trace.specs.Asks.{ask_more, asked_at, asked_parent, asked_parents};
ghost use Rattle.mesh_trace.specs.Feeds.{needed_of};

use mesh_base::{Node, Reading};
use mesh_base_values::{Name, Strs};
use mesh_list::{Duplicate, Memory, Seq, push_made};
use std::alloc::Global;

// The columns of one relation.
fn needed_of(alloc: Global, name: &Name, needed: &[Reading]) -> Result<Strs, Memory>
    ensures { IfOk result (λ made. made ≡ needed_of name.now needed.now) }
{
    let mut made = Seq::new(alloc);
    for r in needed {
        if r.relation.compare(name).is_eq() {
            push_made(&mut made, r.column.copy())?;
        }
    }
    Ok(made)
}

fn joined(asked: Option<Strs>, more: Strs) -> Result<Strs, Memory>
    ensures { IfOk result (λ made. Some made ≡ ask_more asked more) }
{
    match asked {
        None => Ok(more),
        Some(mut all) => {
            all.append(more)?;
            Ok(all)
        }
    }
}

fn ask(asks: &mut Vec<Option<Strs>>, place: u32, more: Strs) -> Result<(), Memory>
    ensures { OnOk result (asks.new.items ≡ asked_at asks.old.items place more) }
{
    let at = place as usize;
    if at < asks.len() {
        let asked = std::mem::replace(&mut asks[at], None);
        let all = joined(asked, more)?;
        asks[at] = Some(all);
    }
    Ok(())
}

fn ask_parent(
    nodes: &[Node],
    needed: &[Reading],
    asks: &mut Vec<Option<Strs>>,
    place: u32,
) -> Result<(), Memory>
    ensures { OnOk result (asks.new.items ≡ asked_parent nodes.now needed.now asks.old.items place) }
{
    match nodes.get(place as usize) {
        None => Ok(()),
        Some(n) => {
            let more = needed_of(*asks.allocator(), &n.own.name, needed)?;
            ask(asks, place, more)
        }
    }
}

/// Asks of each parent what is needed of it.
pub(crate) fn ask_parents(
    nodes: &[Node],
    needed: &[Reading],
    asks: &mut Vec<Option<Strs>>,
    parents: &[u32],
) -> Result<(), Memory>
    ensures { OnOk result (asks.new.items ≡ asked_parents nodes.now needed.now asks.old.items parents.now) }
{
    for place in parents {
        ask_parent(nodes, needed, asks, *place)?;
    }
    Ok(())
}
