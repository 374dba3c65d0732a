// Readings, each once.
ghost use Rattle.std.specs.Prelude.{◌≡◌, IfOk};
ghost use Rattle.mesh_law_query.specs.Reads.{in_order, reading_cmp, reading_itself};
ghost use Rattle.mesh_list.specs.Keyed.{ascends};
ghost use Rattle.mesh_lineage.specs.Pairs.{as_readings};

use mesh_base::{Reading, Reads};
use mesh_base_values::{Name, Str};
use mesh_list::{Memory, Seq};
use std::alloc::Global;
use std::cmp::Ordering;
use std::collections::BTreeSet;

fn as_pairs(alloc: Global, all: Reads) -> Result<Vec<(Name, Str)>, Memory>
    ensures { IfOk result (λ made. as_readings made.items ≡ all) }
{
    let mut made = Vec::new(alloc);
    for reading in all.into_vec() {
        let Reading { relation, column } = reading;
        made.push((relation, column))?;
    }
    Ok(made)
}

// By relation and then by column.
fn ordered(alloc: Global, all: Reads) -> Result<BTreeSet<(Name, Str)>, Memory>
    ensures { IfOk result (λ set. as_readings set.keys ≡ in_order all) }
{
    let pairs = as_pairs(alloc, all)?;
    let set: BTreeSet<(Name, Str)> = pairs.into_iter().collect(alloc)?;
    Ok(set)
}

fn as_reads(alloc: Global, set: BTreeSet<(Name, Str)>) -> Result<Reads, Memory>
    ensures { IfOk result (λ made. made ≡ as_readings set.keys) }
{
    let mut made = Seq::new(alloc);
    for (relation, column) in set {
        made.push(Reading { relation, column })?;
    }
    Ok(made)
}

fn compare(a: &Reading, b: &Reading) -> Ordering
    ensures { result ≡ reading_cmp a.now b.now }
{
    let columns = a.column.as_slice().cmp(&b.column.as_slice());
    a.relation.compare(&b.relation).then(columns)
}

// Whether each is above the one before it.
fn ascend(all: &[Reading]) -> bool
    ensures { result ≡ ascends reading_cmp reading_itself all.now }
{
    for (i, r) in all.iter().enumerate() {
        match &all[i + 1..] {
            [] => {}
            [next, ..] => if !compare(r, next).is_lt() {
                return false;
            },
        }
    }
    true
}

/// By relation and then by column, each once: where they stand so already, as they are.
#[tactic(auto, using(crate::proofs::Orders::stays))]
pub(crate) fn in_order(alloc: Global, all: Reads) -> Result<Reads, Memory>
    ensures { IfOk result (λ made. made ≡ in_order all) }
{
    if ascend(all.as_slice()) {
        return Ok(all);
    }
    let set = ordered(alloc, all)?;
    as_reads(alloc, set)
}
