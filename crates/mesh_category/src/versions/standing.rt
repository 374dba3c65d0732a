// The snapshots that a list names, by rank and name.
ghost use Rattle.std.specs.Prelude.{◌≡◌, true, Some, if◌then◌else◌, IfOk, OnOk};
ghost use Rattle.std.specs.BTreeMap.{get};
ghost use Rattle.std.specs.Option.{option_copied};
ghost use Rattle.std.specs.Ordering.{is_eq};
ghost use Rattle.mesh_base_values.specs.Names.{name_cmp};
ghost use Rattle.mesh_base_values.specs.declared.values.Name.{Name};
ghost use Rattle.mesh_spec_changes.specs.listed.Listed.{entries, is_list_fit};
ghost use Rattle.mesh_category.specs.versions.Standing.{place_from, rank_of, rank_order, ranks_exact, ranks_total, snapshots_of, with_one};

use mesh_base::{Ref, Snapshot};
use mesh_base_values::Name;
use mesh_house_book::Book;
use mesh_list::{Duplicate, Keyed, Memory, Sorted};
use std::alloc::Global;
use std::cmp::Ordering;
use std::collections::BTreeMap;

/// What snapshots of one list are put in order by.
pub(crate) struct Rank {
    pub rank: u32,
    pub name: Name,
}

impl Drop for Rank {
    fn drop(self) {
        let Rank { rank: _, name: _ } = self;
    }
}

/// A snapshot of a book, where it lies.
pub(crate) struct Standing<'a> {
    pub snapshot: &'a Snapshot,
}

impl Drop for Standing<'_> {
    fn drop(self) {
        let Standing { snapshot: _ } = self;
    }
}

impl<'a> Keyed for Standing<'a> {
    type Key = Rank;

    ghost key = { rank_of };

    ghost order = { rank_order };

    fn compare(&self, other: &Rank) -> Ordering {
        self.snapshot
            .rank
            .cmp(&other.rank)
            .then(self.snapshot.name.compare(&other.name))
    }

    fn against(&self, other: &Standing<'a>) -> Ordering {
        self.snapshot
            .rank
            .cmp(&other.snapshot.rank)
            .then(self.snapshot.name.compare(&other.snapshot.name))
    }

    ghost total = { ranks_total };

    ghost exact = { ranks_exact };
}

// One snapshot more, where there is one.
#[tactic(auto, using(crate::proofs::versions::Ranks::placed_there))]
fn put<'a>(all: &mut Sorted<Standing<'a>>, s: Option<&'a Snapshot>) -> Result<(), Memory>
    ensures { OnOk result (snapshots_of all.new ≡ with_one (option_copied s.entry) (snapshots_of all.old)) }
{
    match s {
        None => Ok(()),
        Some(snapshot) => all.place(Standing { snapshot }),
    }
}

/// The snapshots that a list names. Where ranks ascend with the names each comes to the end.
pub(crate) fn collected<'a>(
    alloc: Global,
    b: &'a Book,
    list: &[Ref],
) -> Result<Sorted<Standing<'a>>, Memory>
    requires { is_list_fit b.now.snapshots list.now ≡ true }
    ensures { IfOk result (λ made. snapshots_of made ≡ entries b.now.snapshots list.now) }
{
    let mut made = Sorted::new(alloc);
    for r in list {
        put(&mut made, b.snapshots.find(r))?;
    }
    Ok(made)
}

// A place, which is a number of 32 bits.
fn as_place(at: usize) -> Result<u32, Memory>
    ensures { IfOk result (λ place. place ≡ at) }
{
    match u32::try_from(at) {
        Ok(place) => Ok(place),
        Err(_) => Err(Memory),
    }
}

// A name with its place, instead of the one that it had.
fn stand_at(places: &mut BTreeMap<Name, u32>, name: &Name, at: usize) -> Result<(), Memory>
    ensures { OnOk result ((other : Name) → get name_cmp places.new other ≡ (if is_eq (name_cmp name.now other) then Some at else get name_cmp places.old other)) }
{
    let place = as_place(at)?;
    let key = name.copy()?;
    match places.insert(key, place) {
        Ok(_) => Ok(()),
        Err(_) => Err(Memory),
    }
}

/// Where they stand, by their names.
pub(crate) fn places(alloc: Global, all: &[Standing]) -> Result<BTreeMap<Name, u32>, Memory>
    ensures { IfOk result (λ places. (name : Name) → get name_cmp places name ≡ place_from 0 name (snapshots_of all.now)) }
{
    let mut places = BTreeMap::new(alloc);
    let mut left = all.len();
    while left > 0 {
        left -= 1;
        let s = all[left].snapshot;
        stand_at(&mut places, &s.name, left)?;
    }
    Ok(places)
}
