// What is looked up of a book, a project and a list.
ghost use Rattle.std.specs.Prelude.{◌≡◌, ℕ, List, map, true, Some, if◌then◌else◌, IsTrue, IsSome, IfOk, OnOk};
ghost use Rattle.std.specs.BTreeMap.{get};
ghost use Rattle.std.specs.List.{list_any};
ghost use Rattle.std.specs.Option.{is_some, option_copied, option_map};
ghost use Rattle.std.specs.Ordering.{is_eq};
ghost use Rattle.mesh_base.specs.declared.snapshots.Node.{Node};
ghost use Rattle.mesh_base_values.specs.Names.{name_cmp, text_cmp};
ghost use Rattle.mesh_base_values.specs.declared.values.Name.{Name};
ghost use Rattle.mesh_category.specs.versions.Index.{IsIndex, again, given_as, holder, is_new, listed_print, node_print, stored_too, told_of};

use mesh_base::{Node, Ref, Snapshot};
use mesh_base_values::Name;
use mesh_list::{Duplicate, Memory, together};
use std::alloc::Global;
use std::collections::BTreeMap;

/// What a model's fingerprint stands for, as far as fingerprints tell.
#[derive(Clone, Copy)]
pub(crate) enum Told {
    /// No other model has it, and no snapshot.
    New,
    /// No other model has it, and of the snapshots the one at this place alone.
    Stored(usize),
    /// Several models have it, or several snapshots.
    Shared,
}

/// The fingerprints of a project, and what each stands for.
pub(crate) type Prints = BTreeMap<[u8; 32], Told>;

/// Names, and a fingerprint for each.
pub(crate) type Holders = BTreeMap<Name, [u8; 32]>;

/// What the fingerprints of a project stand for in a book, and, where one is new, those that have an object and those
/// of a list.
pub(crate) struct Index {
    pub told: Prints,
    pub objects: Holders,
    pub compared: Holders,
}

impl Drop for Index {
    fn drop(self) {
        let Index {
            told: _,
            objects: _,
            compared: _,
        } = self;
    }
}

fn given_as(again: bool) -> Told
    ensures { result ≡ given_as again }
{
    if again { Told::Shared } else { Told::New }
}

fn stored_too(at: usize, told: Told) -> Told
    ensures { result ≡ stored_too at told }
{
    match told {
        Told::New => Told::Stored(at),
        Told::Stored(_) | Told::Shared => Told::Shared,
    }
}

fn is_new(told: Option<&Told>) -> bool
    ensures { result ≡ is_new (option_copied told.entry) }
{
    match told {
        Some(Told::New) => true,
        _ => false,
    }
}

// A fingerprint with what it stands for, in place of what it had.
fn put(prints: &mut Prints, print: [u8; 32], told: Told) -> Result<(), Memory>
    ensures { OnOk result ((f : List ℕ) → get text_cmp prints.new f ≡ (if is_eq (text_cmp print f) then Some told else get text_cmp prints.old f)) }
{
    match prints.insert(print, told) {
        Ok(_) => Ok(()),
        Err(_) => Err(Memory),
    }
}

// One model's fingerprint more.
fn note(prints: &mut Prints, print: [u8; 32]) -> Result<(), Memory>
    ensures { OnOk result ((f : List ℕ) → get text_cmp prints.new f ≡ (if is_eq (text_cmp print f) then Some (given_as (is_some (get text_cmp prints.old print))) else get text_cmp prints.old f)) }
{
    let again = prints.contains_key(&print);
    put(prints, print, given_as(again))
}

// One snapshot's fingerprint more, which stands at this place.
fn meet(prints: &mut Prints, print: &[u8; 32], at: usize) -> Result<(), Memory>
    ensures { OnOk result ((f : List ℕ) → get text_cmp prints.new f ≡ (if is_eq (text_cmp print.now f) then option_map (stored_too at) (get text_cmp prints.old f) else get text_cmp prints.old f)) }
{
    match prints.get(print).copied() {
        None => Ok(()),
        Some(told) => put(prints, *print, stored_too(at, told)),
    }
}

/// What a fingerprint stands for, which a model has.
pub(crate) fn told_at(prints: &Prints, print: &[u8; 32]) -> Told
    requires { IsSome (get text_cmp prints.now print.now) }
    ensures { get text_cmp prints.now print.now ≡ Some result }
{
    *prints.get(print).unwrap()
}

// A name with its fingerprint, in place of what it had.
fn hold(holders: &mut Holders, name: &Name, print: [u8; 32]) -> Result<(), Memory>
    ensures { OnOk result ((other : Name) → get name_cmp holders.new other ≡ (if is_eq (name_cmp name.now other) then Some print else get name_cmp holders.old other)) }
{
    let key = name.copy()?;
    match holders.insert(key, print) {
        Ok(_) => Ok(()),
        Err(_) => Err(Memory),
    }
}

fn given(alloc: Global, nodes: &[Node]) -> Result<Prints, Memory>
    ensures { IfOk result (λ prints. (f : List ℕ) → get text_cmp prints f ≡ option_map given_as (again (map node_print nodes.now) f)) }
{
    let mut prints = BTreeMap::new(alloc);
    let mut left = nodes.len();
    while left > 0 {
        left -= 1;
        note(&mut prints, nodes[left].fingerprint)?;
    }
    Ok(prints)
}

// What the fingerprints of a project stand for: each snapshot is looked up among them.
fn told_each(alloc: Global, all: &[Snapshot], nodes: &[Node]) -> Result<Prints, Memory>
    ensures { IfOk result (λ prints. (f : List ℕ) → get text_cmp prints f ≡ told_of all.now nodes.now f) }
{
    let mut prints = given(alloc, nodes)?;
    let mut left = all.len();
    while left > 0 {
        left -= 1;
        meet(&mut prints, &all[left].fingerprint, left)?;
    }
    Ok(prints)
}

fn has_new(prints: &Prints, nodes: &[Node]) -> bool
    ensures { result ≡ list_any (λ (n : Node). is_new (get text_cmp prints.now n.fingerprint)) nodes.now }
{
    nodes.iter().any(|n| is_new(prints.get(&n.fingerprint)))
}

fn objects(alloc: Global, all: &[Snapshot]) -> Result<Holders, Memory>
    ensures { IfOk result (λ holders. (name : Name) → get name_cmp holders name ≡ holder all.now name) }
{
    let mut holders = BTreeMap::new(alloc);
    let mut left = all.len();
    while left > 0 {
        left -= 1;
        hold(&mut holders, &all[left].object, all[left].fingerprint)?;
    }
    Ok(holders)
}

fn compared(alloc: Global, base: &[Ref]) -> Result<Holders, Memory>
    ensures { IfOk result (λ holders. (name : Name) → get name_cmp holders name ≡ listed_print base.now name) }
{
    let mut holders = BTreeMap::new(alloc);
    let mut left = base.len();
    while left > 0 {
        left -= 1;
        hold(&mut holders, &base[left].name, base[left].fingerprint)?;
    }
    Ok(holders)
}

// Those that have an object, and those of the list, which only a new model asks for.
fn asked(
    alloc: Global,
    all: &[Snapshot],
    base: &[Ref],
    is_asked: bool,
) -> Result<(Holders, Holders), Memory>
    ensures objects { IfOk result (λ made. IsTrue is_asked → (name : Name) → get name_cmp made.0 name ≡ holder all.now name) }
    ensures compared { IfOk result (λ made. IsTrue is_asked → (name : Name) → get name_cmp made.1 name ≡ listed_print base.now name) }
{
    if is_asked {
        together(objects(alloc, all), compared(alloc, base))
    } else {
        Ok((BTreeMap::new(alloc), BTreeMap::new(alloc)))
    }
}

/// All that is looked up, so that each look-up takes steps in proportion to a logarithm.
pub(crate) fn indexed(
    alloc: Global,
    all: &[Snapshot],
    nodes: &[Node],
    base: &[Ref],
) -> Result<Index, Memory>
    ensures { IfOk result (λ index. IsIndex all.now nodes.now base.now index) }
{
    let told = told_each(alloc, all, nodes)?;
    let is_asked = has_new(&told, nodes);
    let (objects, compared) = asked(alloc, all, base, is_asked)?;
    Ok(Index {
        told,
        objects,
        compared,
    })
}
