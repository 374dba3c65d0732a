// The models of a project that aren't steady.
ghost use Rattle.std.specs.Prelude.{◌≡◌, ◌++◌, ◌∷◌, [], IfOk, OnOk};
ghost use Rattle.std.specs.List.{flat_map};
ghost use Rattle.mesh_spec_model.specs.Closures.{closures};
ghost use Rattle.mesh_lineage.specs.Pairs.{as_pairs};
ghost use Rattle.mesh_lineage.specs.Unsteady.{by_name, defn_breakers, least, pair_with, unsteady, unsteady_pair};
ghost use Rattle.mesh_lineage.specs.Reaches.{incremental_breaker, may_read_links, near_links, node_breaker, node_pair, node_reach, reaches_at};

use crate::breakers::{Links, defn_breaker, links_of};
use crate::reaches::{Reach, copied, reach_of, timed_of};
use mesh_base::rules::Project;
use mesh_base::{Node, Own};
use mesh_base_values::{Kind, Name, Pair, Pairs};
use mesh_list::{Duplicate, Memory, Seq};
use std::alloc::Global;
use std::collections::BTreeMap;

// The least name that breaks the rule of an incremental model, which may name these.
fn breaker_among(links: &Links, own: &Own) -> Result<Option<Name>, Memory>
    ensures { IfOk result (λ made. made ≡ least (defn_breakers (may_read_links links.now.sources (near_links links.now.parents)) own.now.defn)) }
{
    copied(defn_breaker(links, &own.defn)?)
}

// The same, where its parents stand at these places.
fn incremental_breaker(
    alloc: Global,
    own: &Own,
    reaches: &[Reach],
    places: &[u32],
) -> Result<Option<Name>, Memory>
    ensures { IfOk result (λ made. made ≡ incremental_breaker own.now (reaches_at reaches.now places.now)) }
{
    let links = links_of(alloc, own, reaches, places)?;
    breaker_among(&links, own)
}

// The least name that breaks the rule of a model whose parents stand at these places.
fn breaker_of(
    alloc: Global,
    own: &Own,
    reaches: &[Reach],
    places: &[u32],
) -> Result<Option<Name>, Memory>
    ensures { IfOk result (λ made. made ≡ node_breaker own.now (reaches_at reaches.now places.now)) }
{
    match &own.kind {
        Kind::Full => timed_of(own, reaches, places),
        Kind::View | Kind::Seed => Ok(None),
        Kind::Incremental { .. } => incremental_breaker(alloc, own, reaches, places),
    }
}

fn add_pair(pairs: &mut Pairs, name: &Name, breaker: Option<Name>) -> Result<(), Memory>
    ensures { OnOk result (pairs.new ≡ pairs.old ++ pair_with name.now breaker) }
{
    match breaker {
        None => Ok(()),
        Some(second) => {
            let first = name.copy()?;
            pairs.push(Pair { first, second })
        }
    }
}

fn add_reach(reaches: &mut Vec<Reach>, n: &Node) -> Result<(), Memory>
    ensures { OnOk result (reaches.new.items ≡ reaches.old.items ++ node_reach reaches.old.items n.now ∷ []) }
{
    let reach = reach_of(&n.own, reaches.as_slice(), n.parents.as_slice())?;
    reaches.push(reach)?;
    Ok(())
}

// Goes on to one more node.
fn add_node(pairs: &mut Pairs, reaches: &mut Vec<Reach>, n: &Node) -> Result<(), Memory>
    ensures reaches { OnOk result (reaches.new.items ≡ reaches.old.items ++ node_reach reaches.old.items n.now ∷ []) }
    ensures pairs { OnOk result (pairs.new ≡ pairs.old ++ node_pair reaches.old.items n.now) }
{
    let breaker = breaker_of(
        pairs.alloc(),
        &n.own,
        reaches.as_slice(),
        n.parents.as_slice(),
    )?;
    add_pair(pairs, &n.own.name, breaker)?;
    add_reach(reaches, n)
}

fn all_pairs(alloc: Global, nodes: &[Node]) -> Result<Pairs, Memory>
    ensures { IfOk result (λ made. made ≡ flat_map unsteady_pair (closures nodes.now)) }
{
    let mut pairs = Seq::new(alloc);
    let mut reaches = Vec::new(alloc);
    for n in nodes {
        add_node(&mut pairs, &mut reaches, n)?;
    }
    Ok(pairs)
}

// By the first names.
#[tactic(auto, using(crate::proofs::ByName::onto_none))]
fn by_name(alloc: Global, all: Pairs) -> Result<BTreeMap<Name, Name>, Memory>
    ensures { IfOk result (λ map. as_pairs map.entries ≡ by_name all) }
{
    let mut rest = all.into_vec();
    let mut map = BTreeMap::new(alloc);
    while let Some(pair) = rest.pop() {
        let Pair { first, second } = pair;
        map.insert(first, second)?;
    }
    Ok(map)
}

fn as_list(alloc: Global, map: BTreeMap<Name, Name>) -> Result<Pairs, Memory>
    ensures { IfOk result (λ made. made ≡ as_pairs map.entries) }
{
    let mut made = Seq::new(alloc);
    for (first, second) in map {
        made.push(Pair { first, second })?;
    }
    Ok(made)
}

/// By name, each model that isn't steady, with the least name that breaks the rule.
pub fn unsteady(p: &Project) -> Result<Pairs, Memory>
    ensures { IfOk result (λ made. made ≡ unsteady (closures p.now.nodes)) }
{
    let alloc = p.nodes.alloc();
    let pairs = all_pairs(alloc, p.as_slice())?;
    let map = by_name(alloc, pairs)?;
    as_list(alloc, map)
}
