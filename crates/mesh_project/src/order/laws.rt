// Laws of orders, ranks and cycles. These functions compute nothing.
ghost use Rattle.mesh_project.specs.order.Laws.{AreAsMany, AreCyclesOne, AreOrdersOne, AreRanksOne, HasNoCycle, StandBefore};

/// The law that one assignment alone gives each model its rank.
pub fn ranks_are_one()
    ensures { AreRanksOne }
{}

/// The law that models have one order.
#[tactic(auto, using(crate::proofs::order::Uniqueness::orders_one))]
pub fn orders_are_one()
    ensures { AreOrdersOne }
{}

/// The law that models have one list of those that reach themselves.
pub fn cycles_are_one()
    ensures { AreCyclesOne }
{}

/// The law that models that have an order have no cycle.
#[tactic(auto, using(crate::proofs::order::Uniqueness::no_cycle))]
pub fn orders_have_no_cycle()
    ensures { HasNoCycle }
{}

/// The law that in an order what a model reads stands before it.
#[tactic(auto, using(crate::proofs::order::Uniqueness::stand_before))]
pub fn parents_stand_before()
    ensures { StandBefore }
{}

/// The law that in an order each model stands once.
#[tactic(auto, using(crate::proofs::order::Uniqueness::as_many))]
pub fn orders_have_all_models()
    ensures { AreAsMany }
{}
