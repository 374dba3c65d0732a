// Ranks, one after another: those whose parents have lower ones are next.
ghost use Rattle.std.specs.Prelude.{◌≡◌, ◌≤◌, ◌++◌, length, map, filter, not, slice_index, slice_set, IfOk, OnOk};
ghost use Rattle.std.specs.List.{list_all};
ghost use Rattle.mesh_project.specs.order.Links.{AreByName, AreLinks};
ghost use Rattle.mesh_project.specs.order.Peeled.{IsDone, IsRound, IsUnpeeled, at_rank, is_ready, ranks_with};

use crate::order::links::links_at;
use crate::order::readers::{Order, Ranked, Reader};
use mesh_list::{Memory, Seq};
use std::alloc::Global;

/// The ranks of all places, the models whose ranks are found, in their order, and the places of the others.
#[derive(Drop)]
pub(crate) struct Peeled {
    pub ranks: Vec<u32>,
    pub order: Order,
    pub rest: Seq<u32>,
}

fn rank_at(ranks: &[u32], at: u32) -> u32
    ensures { result ≡ slice_index ranks.now at }
{
    match ranks.get(at as usize) {
        Some(rank) => *rank,
        None => 0,
    }
}

// Whether all that a place leads to have ranks below this one.
fn is_ready(links: &[Seq<u32>], ranks: &[u32], rank: u32, at: u32) -> bool
    ensures { result ≡ is_ready links.now ranks.now rank at }
{
    for parent in links_at(links, at) {
        if rank_at(ranks, *parent) >= rank {
            return false;
        }
    }
    true
}

// The places that are ready for a rank, and the others, in their order.
fn sorted_out(
    alloc: Global,
    links: &[Seq<u32>],
    ranks: &[u32],
    rank: u32,
    rest: &[u32],
) -> Result<(Seq<u32>, Seq<u32>), Memory>
    ensures ready { IfOk result (λ made. made.0 ≡ filter (is_ready links.now ranks.now rank) rest.now) }
    ensures later { IfOk result (λ made. made.1 ≡ filter (λ at. not (is_ready links.now ranks.now rank at)) rest.now) }
{
    let mut ready = Seq::new(alloc);
    let mut later = Seq::new(alloc);
    for at in rest {
        if is_ready(links, ranks, rank, *at) {
            ready.push(*at)?;
        } else {
            later.push(*at)?;
        }
    }
    Ok((ready, later))
}

// Gives these models a rank.
fn rank_all(ranks: &mut Vec<u32>, ready: &[u32], rank: u32)
    ensures { ranks.new.items ≡ ranks_with ranks.old.items ready.now rank }
{
    for at in ready {
        set_rank(ranks, *at, rank);
    }
}

fn set_rank(ranks: &mut Vec<u32>, at: u32, rank: u32)
    ensures { ranks.new.items ≡ slice_set ranks.old.items at rank }
{
    let at = at as usize;
    if at < ranks.len() {
        ranks[at] = rank;
    }
}

// Puts these models behind the others, with a rank.
fn add_all(order: &mut Order, ready: &[u32], rank: u32) -> Result<(), Memory>
    ensures { OnOk result (order.new ≡ order.old ++ map (at_rank rank) ready.now) }
{
    for at in ready {
        order.push(Ranked { at: *at, rank })?;
    }
    Ok(())
}

// Gives those that are ready this rank, if there are some.
fn peel_one(
    alloc: Global,
    links: &[Seq<u32>],
    peeled: &mut Peeled,
    rank: u32,
) -> Result<bool, Memory>
    ensures { IfOk result (λ more. IsRound links.now rank more peeled.old peeled.new) }
{
    let (ready, later) = sorted_out(
        alloc,
        links,
        peeled.ranks.as_slice(),
        rank,
        peeled.rest.as_slice(),
    )?;
    if ready.is_empty() {
        return Ok(false);
    }
    add_all(&mut peeled.order, ready.as_slice(), rank)?;
    rank_all(&mut peeled.ranks, ready.as_slice(), rank);
    peeled.rest = later;
    Ok(true)
}

// The models with no ranks yet: in place of each there is their number.
fn unpeeled(alloc: Global, count: usize, by_name: Seq<u32>) -> Result<Peeled, Memory>
    requires { count ≤ 4096 }
    ensures { IfOk result (λ made. IsUnpeeled count by_name made) }
{
    let mut ranks = Vec::new(alloc);
    ranks.resize(count, count as u32)?;
    Ok(Peeled {
        ranks,
        order: Seq::new(alloc),
        rest: by_name,
    })
}

/// Gives models ranks, from 0 on, until none is left or each that is left reads one that is left.
pub(crate) fn peel_all(
    alloc: Global,
    models: &[Reader],
    links: &[Seq<u32>],
    by_name: Seq<u32>,
) -> Result<Peeled, Memory>
    requires few { length models.now ≤ 4096 }
    requires links { AreLinks models.now links.now }
    requires by_name { AreByName models.now by_name }
    ensures { IfOk result (λ made. IsDone models.now links.now made) }
{
    let mut peeled = unpeeled(alloc, models.len(), by_name)?;
    let mut rank = 0;
    'each_rank: while !peeled.rest.is_empty() {
        if !peel_one(alloc, links, &mut peeled, rank)? {
            return Ok(peeled);
        }
        rank += 1;
    }
    Ok(peeled)
}
