// From a model down to its ancestors, each after all that read it.
ghost use Rattle.std.specs.Prelude.{◌≡◌, ◌<◌, ◌≤◌, ◌+◌, ◌++◌, ◌∷◌, [], IfOk, OnOk, IsTrue, Some, List, length};
ghost use Rattle.std.specs.List.{slice_get};
ghost use Rattle.mesh_base.specs.rules.Proper.{is_proper};
ghost use Rattle.mesh_spec_model.specs.Closures.{Closure, closures};
ghost use Rattle.mesh_lineage.specs.Alike.{IsAlike};
ghost use Rattle.mesh_trace.specs.Asks.{all_fed, asked_parents};
ghost use Rattle.mesh_trace.specs.Feeds.{feeds, needs, own_feeds};

use crate::asks::ask_parents;
use crate::found::add_feeds;
use crate::narrowed::needs;
use crate::traces::Traces;
use mesh_base::{Node, Reads};
use mesh_base_values::{Str, Strs};
use mesh_list::{Duplicate, Memory, Seq, push_made};
use std::alloc::Global;
use std::collections::BTreeSet;

/// A set of texts.
pub(crate) fn texts_of(alloc: Global, all: Strs) -> Result<BTreeSet<Str>, Memory>
    ensures { IfOk result (λ set. IsAlike set.keys all) }
{
    let texts = all.into_vec();
    let set: BTreeSet<Str> = texts.into_iter().collect(alloc)?;
    Ok(set)
}

fn needs_of(n: &Node, columns: Strs) -> Result<Reads, Memory>
    ensures { IfOk result (λ made. made ≡ needs n.now.own columns) }
{
    let wanted = texts_of(columns.alloc(), columns)?;
    let made = needs(&n.own, &wanted)?;
    Ok(made)
}

fn add_model(
    nodes: &[Node],
    n: &Node,
    columns: Strs,
    asks: &mut Vec<Option<Strs>>,
    found: &mut Traces,
) -> Result<(), Memory>
    ensures asks { OnOk result (asks.new.items ≡ asked_parents nodes.now (needs n.now.own columns) asks.old.items n.now.parents) }
    ensures found { OnOk result (found.new ≡ found.old ++ own_feeds n.now.own (needs n.now.own columns)) }
{
    let needed = needs_of(n, columns)?;
    ask_parents(nodes, needed.as_slice(), asks, n.parents.as_slice())?;
    add_feeds(&n.own, needed, found)
}

// What is asked of the model behind those of which something may be asked yet.
fn visit(
    nodes: &[Node],
    ask: Option<Strs>,
    asks: &mut Vec<Option<Strs>>,
    found: &mut Traces,
) -> Result<(), Memory>
    requires proper { IsTrue (is_proper nodes.now) }
    requires within { length asks.old.items < length nodes.now }
    ensures long { OnOk result (length asks.new.items ≡ length asks.old.items) }
    ensures fed { OnOk result (IsAlike (found.new ++ all_fed asks.new.items (closures nodes.now)) (found.old ++ all_fed (asks.old.items ++ ask ∷ []) (closures nodes.now))) }
{
    match ask {
        None => Ok(()),
        Some(columns) => add_model(nodes, &nodes[asks.len()], columns, asks, found),
    }
}

/// Finds all that is fed to what is asked.
pub(crate) fn walk(
    nodes: &[Node],
    asks: Vec<Option<Strs>>,
    found: &mut Traces,
) -> Result<(), Memory>
    requires proper { IsTrue (is_proper nodes.now) }
    requires within { length asks.items ≤ length nodes.now }
    ensures { OnOk result (IsAlike found.new (found.old ++ all_fed asks.items (closures nodes.now))) }
{
    let mut rest = asks;
    while let Some(ask) = rest.pop() {
        visit(nodes, ask, &mut rest, found)?;
    }
    Ok(())
}

fn nothing_asked(alloc: Global, count: usize) -> Result<Vec<Option<Strs>>, Memory>
    ensures long { IfOk result (λ asks. length asks.items ≡ count) }
    ensures nothing { IfOk result (λ asks. (cs : List Closure) → all_fed asks.items cs ≡ []) }
{
    let mut asks = Vec::new(alloc);
    for at in 0..count {
        asks.push(None)?;
    }
    Ok(asks)
}

/// One column of the model at a place is asked.
pub(crate) fn one_asked(
    alloc: Global,
    place: usize,
    column: &Str,
) -> Result<Vec<Option<Strs>>, Memory>
    ensures long { IfOk result (λ asks. length asks.items ≡ place + 1) }
    ensures fed { IfOk result (λ asks. (cs : List Closure) (c : Closure) → slice_get cs place ≡ Some c → all_fed asks.items cs ≡ feeds c (column.now ∷ [])) }
{
    let mut columns = Seq::new(alloc);
    push_made(&mut columns, column.copy())?;
    let mut asks = nothing_asked(alloc, place)?;
    asks.push(Some(columns))?;
    Ok(asks)
}
