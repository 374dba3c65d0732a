// The declared sources that a query reads.
ghost use Rattle.std.specs.Prelude.{◌≡◌, ◌≤◌, ◌&&◌, ◌++◌, length, not, true, IsTrue, IfOk, OnOk};
ghost use Rattle.std.specs.Option.{is_some};
ghost use Rattle.std.specs.List.{filter};
ghost use Rattle.std.specs.BTreeSet.{contains};
ghost use Rattle.mesh_base.specs.declared.definitions.Defn.TheVariants as body;
ghost use Rattle.mesh_list.specs.Keyed.{ascends, found, place_of, placed};
ghost use Rattle.mesh_base.specs.Keys.{input_name};
ghost use Rattle.mesh_base.specs.rules.Proper.{defn_names, from_names, is_among, names_of_all, selects_names};
ghost use Rattle.mesh_base_values.specs.declared.values.Name.{Name};
ghost use Rattle.mesh_base_values.specs.Names.{name_cmp};
ghost use Rattle.mesh_resolve.specs.Relations.{decl_name};
ghost use Rattle.mesh_resolve.specs.Owns.{in_order, is_read, sources_read};

use crate::catalog::{is_ascending, met};
use crate::known::Known;
use mesh_base::{Decl, FromItem, Query, Rel, Select, Selects, Sources};
use mesh_base_values::{Name, Names};
use mesh_list::{Duplicate, Memory, Seq, push_made};
use std::alloc::Global;
use std::collections::BTreeSet;

// Puts the names that FROM items read behind others.
fn add_from_names(names: &mut Names, from: &[FromItem]) -> Result<(), Memory>
    ensures { OnOk result (names.new ≡ names.old ++ from_names from.now) }
{
    for f in from {
        if let Rel::Named(name) = &f.rel {
            push_made(names, name.copy())?;
        }
    }
    Ok(())
}

fn add_selects_names(names: &mut Names, selects: &[Select]) -> Result<(), Memory>
    ensures { OnOk result (names.new ≡ names.old ++ selects_names selects.now) }
{
    for s in selects {
        add_from_names(names, s.from.as_slice())?;
    }
    Ok(())
}

fn add_all_names(names: &mut Names, ctes: &[Selects]) -> Result<(), Memory>
    ensures { OnOk result (names.new ≡ names.old ++ names_of_all ctes.now) }
{
    for c in ctes {
        add_selects_names(names, c.as_slice())?;
    }
    Ok(())
}

// The relations that a query names, in its order.
fn query_names(alloc: Global, q: &Query) -> Result<Names, Memory>
    ensures { IfOk result (λ names. names ≡ defn_names (body.Sql q.now)) }
{
    let mut names = Seq::new(alloc);
    add_all_names(&mut names, q.ctes.as_slice())?;
    add_selects_names(&mut names, q.selects.as_slice())?;
    Ok(names)
}

// The same names, to be asked for.
fn all_names(alloc: Global, names: Names) -> Result<BTreeSet<Name>, Memory>
    ensures { IfOk result (λ set. (name : Name) → contains name_cmp set name ≡ is_among names name) }
{
    let mut set = BTreeSet::new(alloc);
    for name in names.into_vec() {
        set.insert(name)?;
    }
    Ok(set)
}

// A declared source is read where the query names it; a model hides a source of its name.
fn is_read(known: &Known, set: &BTreeSet<Name>, d: &Decl) -> bool
    ensures { result ≡ (contains name_cmp set.now d.now.name && not (is_some (found name_cmp input_name d.now.name known.now.models))) }
{
    set.contains(&d.name) && met(known.models.as_slice(), &d.name).is_none()
}

// The declared sources that are read, in their order.
fn all_read(alloc: Global, known: &Known, names: Names) -> Result<Sources, Memory>
    ensures { IfOk result (λ read. read ≡ filter (is_read known.now names) known.now.sources) }
{
    let set = all_names(alloc, names)?;
    let mut read = Seq::new(alloc);
    for d in known.sources.as_slice() {
        if is_read(known, &set, d) {
            push_made(&mut read, d.copy())?;
        }
    }
    Ok(read)
}

// The number of declarations in front of the first whose name is not below that of this one.
fn place_of(list: &[Decl], d: &Decl) -> usize
    ensures place { result ≡ place_of name_cmp decl_name d.now.name list.now }
    ensures within { result ≤ length list.now }
{
    for (i, other) in list.iter().enumerate() {
        if !other.name.compare(&d.name).is_lt() {
            return i;
        }
    }
    list.len()
}

// Puts a declaration at its place, instead of the one that had its name.
fn place(list: &mut Vec<Decl>, d: Decl) -> Result<(), Memory>
    ensures { OnOk result (list.new.items ≡ placed name_cmp decl_name d list.old.items) }
{
    let at = place_of(list.as_slice(), &d);
    if at == list.len() {
        list.push(d)?;
        return Ok(());
    }
    if list[at].name.compare(&d.name).is_eq() {
        drop(std::mem::replace(&mut list[at], d));
        return Ok(());
    }
    list.insert(at, d)?;
    Ok(())
}

// Each once, in the order of the names. Where they stand so already, as they mostly do, nothing is moved.
#[tactic(auto, using(crate::proofs::Onto::onto_last, crate::proofs::Onto::onto_none, crate::proofs::Onto::stays))]
fn in_order(alloc: Global, all: Sources) -> Result<Sources, Memory>
    ensures { IfOk result (λ made. made ≡ in_order all) }
{
    if is_ascending(all.as_slice()) {
        return Ok(all);
    }
    let mut rest = all.into_vec();
    let mut made = Vec::new(alloc);
    while let Some(d) = rest.pop() {
        place(&mut made, d)?;
    }
    Ok(Seq::from_vec(made))
}

/// The declarations of the sources that a query reads, in the order of their names.
#[tactic(auto, unfolding(crate::specs::Owns::sources_read))]
pub(crate) fn sources_read(alloc: Global, known: &Known, q: &Query) -> Result<Sources, Memory>
    ensures { IfOk result (λ made. made ≡ sources_read known.now q.now) }
{
    let names = query_names(alloc, q)?;
    let read = all_read(alloc, known, names)?;
    in_order(alloc, read)
}
