// Models by rank and name.
ghost use Rattle.std.specs.Prelude.{◌≤◌, length, IfOk, IfErr};
ghost use Rattle.mesh_project.specs.order.Order.{AreApart, IsOrder, MeansCycle, MeansOutcome};
ghost use Rattle.mesh_project.specs.order.Links.{AreLinks};
ghost use Rattle.mesh_project.specs.order.Peeled.{IsDone};

use crate::order::cycles::cyclic;
use crate::order::links::linked;
use crate::order::peel::{Peeled, peel_all};
use crate::order::readers::{Order, OrderFault, Outcome, Reader};
use mesh_list::{Memory, Seq};
use std::alloc::Global;

// The order that is found, or the names of those that are left and reach themselves.
fn answered(
    alloc: Global,
    models: &[Reader],
    links: &[Seq<u32>],
    peeled: Peeled,
) -> Result<Outcome, Memory>
    requires links { AreLinks models.now links.now }
    requires done { IsDone models.now links.now peeled }
    ensures { IfOk result (λ outcome. MeansOutcome models.now outcome) }
{
    if peeled.rest.is_empty() {
        return Ok(Outcome::Ordered(peeled.order));
    }
    let names = cyclic(alloc, models, links, peeled.rest.as_slice())?;
    Ok(Outcome::Cyclic(names))
}

fn order_or_cycle(alloc: Global, models: &[Reader]) -> Result<Outcome, Memory>
    requires apart { AreApart models.now }
    requires few { length models.now ≤ 4096 }
    ensures { IfOk result (λ outcome. MeansOutcome models.now outcome) }
{
    let (links, by_name) = linked(alloc, models)?;
    let peeled = peel_all(alloc, models, links.as_slice(), by_name)?;
    answered(alloc, models, links.as_slice(), peeled)
}

/// The models by rank and name, or those that reach themselves. No two have one name, and there are at most 4,096.
pub fn in_order(alloc: Global, models: &[Reader]) -> Result<Order, OrderFault>
    requires apart { AreApart models.now }
    requires few { length models.now ≤ 4096 }
    ensures order { IfOk result (λ order. IsOrder models.now order) }
    ensures cycle { IfErr result (λ fault. MeansCycle models.now fault) }
{
    match order_or_cycle(alloc, models) {
        Ok(Outcome::Ordered(order)) => Ok(order),
        Ok(Outcome::Cyclic(names)) => Err(OrderFault::Cycle { names }),
        Err(_) => Err(OrderFault::Memory),
    }
}
