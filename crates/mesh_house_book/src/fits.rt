// Whether a snapshot and an environment keep the rules of a well-formed book.
ghost use Rattle.std.specs.Prelude.{◌≡◌, true};
ghost use Rattle.std.specs.List.{list_all};
ghost use Rattle.std.specs.Option.{option_copied};
ghost use Rattle.mesh_list.specs.Keyed.{ascends};
ghost use Rattle.mesh_base_values.specs.Names.{name_cmp};
ghost use Rattle.mesh_base.specs.rules.Relations.{rank_over};
ghost use Rattle.mesh_base.specs.rules.Proper.{are_its_parents, is_body_of, is_plain_schema, is_well_formed, stands_on};
ghost use Rattle.mesh_base.specs.Keys.{ref_name};
ghost use Rattle.mesh_house_book.specs.WellFormed.{are_kept, has_parents, have_parents, is_above, is_env_fit, is_listed, is_snapshot_fit, parents_of, rank_at, snapshot_at, suits};

use crate::named::{are_parents, ascend};
use crate::outputs::{are_distinct, has_its_time};
use crate::seen::is_body_seen;
use mesh_base::{Defn, Env, Ref, Snapshot, Snapshots};
use mesh_base_values::{Kind, MOST_MODELS, has_two_underscores};
use mesh_list::Keyed;
use std::cmp::Ordering;

/// The greatest rank of a model: one less than the most models of a project.
pub const HIGHEST_RANK: u32 = 4_095;

/// Whether an item's key is above that of the item before it, where there is one.
pub fn is_above<T: Keyed>(before: Option<&T>, item: &T) -> bool
    ensures { result ≡ is_above T.order T.key (option_copied before.entry) item.now }
{
    match before {
        None => true,
        Some(before) => before.against(item).is_lt(),
    }
}

fn are_kept(all: &Snapshots, refs: &[Ref]) -> bool
    ensures { result ≡ are_kept all.now refs.now }
{
    let mut each = true;
    for r in refs {
        each = each && all.find(r).is_some();
    }
    each
}

fn rank_at(all: &Snapshots, parent: &Ref) -> u32
    ensures { result ≡ rank_at (snapshot_at all.now parent.now) }
{
    match all.find(parent) {
        None => 0,
        Some(snapshot) => snapshot.rank,
    }
}

fn rank_over(all: &Snapshots, parents: &[Ref]) -> u64
    ensures { result ≡ rank_over 0 (parents_of all.now parents.now) }
{
    let mut rank: u64 = 0;
    for parent in parents {
        rank = rank.max(rank_at(all, parent) as u64 + 1);
    }
    rank
}

fn suits(version: u32, kind: &Kind) -> bool
    ensures { result ≡ suits version kind.now }
{
    match kind {
        Kind::Incremental { lookback, .. } => version != 1 || *lookback == 0,
        Kind::Full | Kind::View | Kind::Seed => true,
    }
}

fn is_plain_schema(schema: &[u8]) -> bool
    ensures { result ≡ is_plain_schema schema.now }
{
    !has_two_underscores(schema) && !schema.ends_with(b"_")
}

fn is_body_of(kind: &Kind, defn: &Defn) -> bool
    ensures { result ≡ is_body_of kind.now defn.now }
{
    match kind {
        Kind::Seed => match defn {
            Defn::Seed { .. } => true,
            Defn::Sql(_) => false,
        },
        Kind::Full | Kind::View | Kind::Incremental { .. } => match defn {
            Defn::Seed { .. } => false,
            Defn::Sql(_) => true,
        },
    }
}

// The columns of the parents don't matter here, and are not looked up.
fn are_its_parents(all: &Snapshots, s: &Snapshot) -> bool
    ensures { result ≡ are_its_parents (parents_of all.now s.now.parents) s.now.own }
{
    are_parents(s.parents.as_slice(), &s.own)
}

fn is_well_formed(all: &Snapshots, s: &Snapshot) -> bool
    ensures { result ≡ is_well_formed (parents_of all.now s.now.parents) s.now.own }
{
    s.own.cron.rule();
    is_plain_schema(s.own.name.schema.as_slice())
        && is_body_of(&s.own.kind, &s.own.defn)
        && has_its_time(&s.own)
        && are_distinct(&s.own)
        && is_body_seen(all, s)
        && are_its_parents(all, s)
}

fn stands_on_its_parents(all: &Snapshots, s: &Snapshot) -> bool
    ensures { result ≡ stands_on (parents_of all.now s.now.parents) s.now.rank s.now.own }
{
    s.rank as u64 == rank_over(all, s.parents.as_slice()) && is_well_formed(all, s)
}

/// Whether a snapshot keeps its rule in a book of this version, after the one before it.
pub fn is_snapshot_fit(
    version: u32,
    all: &Snapshots,
    before: Option<&Snapshot>,
    s: &Snapshot,
) -> bool
    ensures { result ≡ is_snapshot_fit version all.now (option_copied before.entry) s.now }
{
    is_above(before, s)
        && has_two_underscores(s.object.schema.as_slice())
        && s.own.name.compare(&s.name).is_eq()
        && suits(version, &s.own.kind)
        && are_kept(all, s.parents.as_slice())
        && s.rank <= HIGHEST_RANK
        && stands_on_its_parents(all, s)
}

// The list ascends by name, so it is halved until the entry of that name is found.
fn is_listed(list: &[Ref], r: &Ref) -> bool
    requires { ascends name_cmp ref_name list.now ≡ true }
    ensures { result ≡ is_listed list.now r.now }
{
    if list.is_empty() {
        return false;
    }
    let middle = list.len() / 2;
    match list[middle].name.compare(&r.name) {
        Ordering::Less => is_listed(&list[middle + 1..], r),
        Ordering::Greater => is_listed(&list[..middle], r),
        Ordering::Equal => list[middle].compare(r).is_eq(),
    }
}

fn has_parents(all: &Snapshots, list: &[Ref], entry: &Ref) -> bool
    requires { ascends name_cmp ref_name list.now ≡ true }
    ensures { result ≡ has_parents all.now list.now entry.now }
{
    match all.find(entry) {
        None => true,
        Some(snapshot) => are_listed(list, snapshot.parents.as_slice()),
    }
}

fn are_listed(list: &[Ref], refs: &[Ref]) -> bool
    requires { ascends name_cmp ref_name list.now ≡ true }
    ensures { result ≡ list_all (is_listed list.now) refs.now }
{
    let mut each = true;
    for r in refs {
        each = each && is_listed(list, r);
    }
    each
}

fn have_parents(all: &Snapshots, list: &[Ref]) -> bool
    requires { ascends name_cmp ref_name list.now ≡ true }
    ensures { result ≡ have_parents all.now list.now list.now }
{
    let mut each = true;
    for entry in list {
        each = each && has_parents(all, list, entry);
    }
    each
}

/// Whether an environment keeps its rule, after the one before it.
pub fn is_env_fit(all: &Snapshots, before: Option<&Env>, e: &Env) -> bool
    ensures { result ≡ is_env_fit all.now (option_copied before.entry) e.now }
{
    let list = e.list.as_slice();
    is_above(before, e)
        && are_kept(all, list)
        && are_kept(all, e.previous.as_slice())
        && list.len() as u64 <= MOST_MODELS
        && ascend(list)
        && have_parents(all, list)
}
