// The models that stand before another one, found by their names.
ghost use Rattle.std.specs.Prelude.{◌≡◌, List, [], ◌∷◌, ◌++◌, length, IfOk, OnOk, OnErr};
ghost use Rattle.std.specs.BTreeMap.{get};
ghost use Rattle.mesh_base.specs.declared.snapshots.Node.{Node};
ghost use Rattle.mesh_base_values.specs.declared.values.Name.{Name};
ghost use Rattle.mesh_base_values.specs.Names.{name_cmp};
ghost use Rattle.mesh_base_values.specs.NameOrder.{names_total, names_exact};
ghost use Rattle.mesh_project.specs.nodes.Earlier.{named, new_place, noted, or_else, place_of};

use mesh_base::{Node, Nodes};
use mesh_base_values::Name;
use mesh_list::{Duplicate, Keyed, Memory, Seq, Sorted};
use std::alloc::Global;
use std::cmp::Ordering;
use std::collections::BTreeMap;
use std::marker::Model;

/// A model by its name, and its place among those that stand before.
pub struct Place {
    pub name: Name,
    pub at: u32,
}

impl Drop for Place {
    fn drop(self) {
        let Place { name: _, at: _ } = self;
    }
}

impl Keyed for Place {
    type Key = Name;

    ghost key = { λ p. p.name };

    ghost order = { name_cmp };

    fn compare(&self, other: &Name) -> Ordering {
        self.name.compare(other)
    }

    fn against(&self, other: &Place) -> Ordering {
        self.name.compare(&other.name)
    }

    ghost total = { names_total };

    ghost exact = { names_exact };
}

/// The models so far, in their order, and the place of each name's first one.
pub struct Earlier {
    nodes: Nodes,
    places: BTreeMap<Name, u32>,
}

impl Drop for Earlier {
    fn drop(self) {
        let Earlier {
            nodes: _,
            places: _,
        } = self;
    }
}

impl Model for Earlier {
    ghost use Rattle.std.specs.Prelude.{List, ◌≡◌};
    ghost use Rattle.std.specs.Coded.{codes};
    ghost use Rattle.std.specs.BTreeMap.{get};
    ghost use Rattle.mesh_base.specs.contracts.expressions.Expr as expr;
    ghost use Rattle.mesh_base.specs.declared.snapshots.Node.{Node};
    ghost use Rattle.mesh_base_values.specs.Names.{name_cmp};
    ghost use Rattle.mesh_base_values.specs.declared.values.Name.{Name};
    ghost use Rattle.mesh_project.specs.nodes.Earlier.{place_of};

    ghost Value = { List Node };

    ghost coded = { Prim.hlevel (codes, expr.the_row.coded) };

    ghost view = { λ s. s.nodes };

    ghost invariant = { λ s. (name : Name) → get name_cmp s.places name ≡ place_of s.nodes name };
}

// The next place, which is a number of 32 bits.
fn next_place(nodes: &Nodes) -> Result<u32, Memory>
    ensures { IfOk result (λ place. place ≡ length nodes.now) }
{
    match u32::try_from(nodes.len()) {
        Ok(place) => Ok(place),
        Err(_) => Err(Memory),
    }
}

// A name has this place, unless it had one.
fn add_place(places: &mut BTreeMap<Name, u32>, name: Name, place: u32) -> Result<(), Memory>
    ensures ok { OnOk result ((other : Name) → get name_cmp places.new other ≡ or_else (get name_cmp places.old other) (new_place name place other)) }
    ensures err { OnErr result ((other : Name) → get name_cmp places.new other ≡ get name_cmp places.old other) }
{
    if places.contains_key(&name) {
        return Ok(());
    }
    let Ok(_) = places.insert(name, place) else {
        return Err(Memory);
    };
    Ok(())
}

fn drop_last(nodes: &mut Nodes)
    ensures { (front : List Node) (last : Node) → nodes.old ≡ front ++ last ∷ [] → nodes.new ≡ front }
{
    nodes.pop();
}

impl Earlier {
    /// None yet.
    pub fn new(alloc: Global) -> Earlier
        ensures { result ≡ [] }
    {
        Earlier {
            nodes: Seq::new(alloc),
            places: BTreeMap::new(alloc),
        }
    }

    /// All of them.
    pub fn as_slice(&self) -> &[Node]
        ensures { result.now ≡ self.now }
    {
        self.nodes.as_slice()
    }

    /// The same ones, as a list.
    pub fn into_nodes(self) -> Nodes
        ensures { result ≡ self }
    {
        let Earlier { nodes, places: _ } = self;
        nodes
    }

    /// The place of the first one of that name, found in steps in proportion to the logarithm of their number.
    pub fn place(&self, name: &Name) -> Option<u32>
        ensures { result ≡ place_of self.now name.now }
    {
        self.places.get(name).copied()
    }

    /// One more behind the others.
    pub fn push(&mut self, node: Node) -> Result<(), Memory>
        ensures { OnOk result (self.new ≡ self.old ++ node ∷ []) }
    {
        let name = node.own.name.copy()?;
        let place = next_place(&self.nodes)?;
        self.nodes.push(node)?;
        match add_place(&mut self.places, name, place) {
            Ok(()) => Ok(()),
            Err(memory) => {
                drop_last(&mut self.nodes);
                Err(memory)
            }
        }
    }
}

// Notes a name where a model has it.
fn note(made: &mut Sorted<Place>, earlier: &Earlier, name: &Name) -> Result<(), Memory>
    ensures { OnOk result (made.new ≡ noted earlier.now made.old name.now) }
{
    if let Some(at) = earlier.place(name) {
        let name = name.copy()?;
        made.place(Place { name, at })?;
    }
    Ok(())
}

/// The models among these names, each once, ascending by name.
pub fn named(alloc: Global, earlier: &Earlier, names: &[Name]) -> Result<Sorted<Place>, Memory>
    ensures { IfOk result (λ made. made ≡ named earlier.now names.now) }
{
    let mut made = Sorted::new(alloc);
    for name in names {
        note(&mut made, earlier, name)?;
    }
    Ok(made)
}
