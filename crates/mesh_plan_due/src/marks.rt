// The marks of a model: how far it and the tables that it stands on go, by name.
ghost use Rattle.std.specs.Prelude.{◌≡◌, ◌≤◌, ◌+◌, length, take, IfOk, OnOk};
ghost use Rattle.mesh_spec_changes.specs.due.Marks.{is_computed};
ghost use Rattle.mesh_plan_due.specs.Marked.{AreSpots, HaveSpots, counts, row_marks, spots_in};
ghost use Rattle.mesh_plan_due.specs.Numbered.{HasCounted, IsNumbering};

use crate::lineages::has_bit;
use crate::numbers::{renumbered, take_bit};
use mesh_base::{Marks, Node};
use mesh_base_values::{Kind, Name};
use mesh_list::{Duplicate, Memory, Seq};
use std::alloc::Global;
use std::collections::BTreeMap;

/// A model among the others: its place, whether its table is computed from others, and its horizon.
#[derive(Clone, Copy)]
pub(crate) struct Spot {
    pub place: usize,
    pub computed: bool,
    pub horizon: i64,
}

fn is_computed(kind: &Kind) -> bool
    ensures { result ≡ is_computed kind.now }
{
    match kind {
        Kind::Full | Kind::Incremental { .. } => true,
        Kind::View | Kind::Seed => false,
    }
}

fn spots_by_name(
    alloc: Global,
    nodes: &[Node],
    seconds: &[i64],
) -> Result<BTreeMap<Name, Spot>, Memory>
    requires { length seconds.now ≡ length nodes.now }
    ensures { IfOk result (λ map. HaveSpots nodes.now nodes.now seconds.now map.entries) }
{
    let mut map = BTreeMap::new(alloc);
    for (at, node) in nodes.iter().enumerate() {
        let name = node.own.name.copy()?;
        let spot = Spot {
            place: at,
            computed: is_computed(&node.own.kind),
            horizon: seconds[at],
        };
        map.insert(name, spot)?;
    }
    Ok(map)
}

fn in_order(alloc: Global, map: BTreeMap<Name, Spot>) -> Result<Vec<Spot>, Memory>
    ensures { IfOk result (λ spots. spots.items ≡ spots_in map.entries) }
{
    let mut spots = Vec::new(alloc);
    for (_, spot) in map {
        spots.push(spot)?;
    }
    Ok(spots)
}

/// The models by name.
pub(crate) fn spots_of(alloc: Global, nodes: &[Node], seconds: &[i64]) -> Result<Vec<Spot>, Memory>
    requires { length seconds.now ≡ length nodes.now }
    ensures { IfOk result (λ spots. AreSpots nodes.now seconds.now spots.items) }
{
    let map = spots_by_name(alloc, nodes, seconds)?;
    in_order(alloc, map)
}

fn counts(row: &[u64], place: usize, spot: &Spot) -> bool
    ensures { result ≡ counts row.now place spot.now }
{
    has_bit(row, spot.place) && (spot.place == place || spot.computed)
}

/// Adds the mark of the model of a number, if it counts.
fn add_mark(
    made: &mut Marks,
    spots: &[Spot],
    row: &[u64],
    place: usize,
    number: usize,
) -> Result<(), Memory>
    requires { made.old ≡ row_marks (take number spots.now) row.now place }
    ensures { OnOk result (made.new ≡ row_marks (take (number + 1) spots.now) row.now place) }
{
    if let Some(spot) = spots.get(number) {
        if counts(row, place, spot) {
            made.push(spot.horizon)?;
        }
    }
    Ok(())
}

/// Adds the marks of those of the 64 models from the first whose bits a word has.
fn add_marks(
    made: &mut Marks,
    spots: &[Spot],
    row: &[u64],
    place: usize,
    word: u64,
    first: usize,
) -> Result<(), Memory>
    requires first { first ≤ length spots.now }
    requires word { HasCounted spots.now row.now place word first }
    requires made { made.old ≡ row_marks (take first spots.now) row.now place }
    ensures { OnOk result (made.new ≡ row_marks (take (first + 64) spots.now) row.now place) }
{
    let mut rest = word;
    while rest != 0 {
        let bit = take_bit(&mut rest);
        add_mark(made, spots, row, place, first + bit)?;
    }
    Ok(())
}

/// The marks of the model at a place, which has this row. It goes over the bits that the row has, in the order of the
/// models' names.
pub(crate) fn marks_at(
    alloc: Global,
    spots: &[Spot],
    numbers: &[usize],
    row: &[u64],
    place: usize,
) -> Result<Marks, Memory>
    requires { IsNumbering spots.now numbers.now }
    ensures { IfOk result (λ made. made ≡ row_marks spots.now row.now place) }
{
    let words = spots.len() / 64 + 1;
    let by_number = renumbered(alloc, numbers, row, words)?;
    let mut made = Seq::new(alloc);
    for at in 0..words {
        add_marks(&mut made, spots, row, place, by_number[at], 64 * at)?;
    }
    Ok(made)
}
