// The models that differ from those that an environment lists, by name.
ghost use Rattle.std.specs.Prelude.{◌≡◌, [], IfOk, OnOk};
ghost use Rattle.mesh_base_values.specs.NameOrder.{names_exact, names_total};
ghost use Rattle.mesh_base_values.specs.Names.{name_cmp};
ghost use Rattle.mesh_cli_print.specs.plans.PlanText.{category_word, kind_word, removal, with_difference, with_node_as, with_nodes, with_removed};

use mesh_base::{Category, Entry, Node};
use mesh_base_values::{Kind, Name, Pair, Str};
use mesh_list::{Duplicate, Keyed, Memory, Sorted, both};
use std::alloc::Global;
use std::cmp::Ordering;

/// How a model differs, in a word, and the word of its kind.
pub struct Difference {
    pub name: Name,
    pub word: Str,
    pub kind: Str,
}

impl Drop for Difference {
    fn drop(self) {
        let Difference {
            name: _,
            word: _,
            kind: _,
        } = self;
    }
}

impl Keyed for Difference {
    type Key = Name;

    ghost key = { λ d. d.name };

    ghost order = { name_cmp };

    fn compare(&self, other: &Name) -> Ordering {
        self.name.compare(other)
    }

    fn against(&self, other: &Difference) -> Ordering {
        self.name.compare(&other.name)
    }

    ghost total = { names_total };

    ghost exact = { names_exact };
}

fn category_word(category: Category) -> &'static [u8]
    ensures { result.now ≡ category_word category }
{
    match category {
        Category::Unchanged => b"unchanged",
        Category::Added => b"added",
        Category::Breaking => b"breaking",
        Category::NonBreaking => b"non-breaking",
        Category::IndirectBreaking => b"indirect-breaking",
        Category::IndirectNonBreaking => b"indirect-non-breaking",
    }
}

/// The word of a kind, as a model says it.
pub fn kind_word(kind: &Kind) -> &'static [u8]
    ensures { result.now ≡ kind_word kind.now }
{
    match kind {
        Kind::Full => b"FULL",
        Kind::View => b"VIEW",
        Kind::Seed => b"SEED",
        Kind::Incremental { .. } => b"INCREMENTAL_BY_TIME_RANGE",
    }
}

fn words(alloc: Global, word: &[u8], kind: &[u8]) -> Result<(Str, Str), Memory>
    ensures { IfOk result (λ made. made ≡ (word.now, kind.now)) }
{
    let word = u8::copy_items(alloc, word)?;
    let kind = u8::copy_items(alloc, kind)?;
    Ok((word, kind))
}

fn add(made: &mut Sorted<Difference>, name: &Name, word: &[u8], kind: &[u8]) -> Result<(), Memory>
    ensures { OnOk result (made.new ≡ with_difference made.old (record { name = name.now; word = word.now; kind = kind.now })) }
{
    let (word, kind) = words(made.alloc(), word, kind)?;
    let name = name.copy()?;
    made.place(Difference { name, word, kind })
}

fn add_node(made: &mut Sorted<Difference>, node: &Node, category: Category) -> Result<(), Memory>
    ensures { OnOk result (made.new ≡ with_node_as made.old node.now category) }
{
    match category {
        Category::Unchanged => Ok(()),
        Category::Added
        | Category::Breaking
        | Category::NonBreaking
        | Category::IndirectBreaking
        | Category::IndirectNonBreaking => add(
            made,
            &node.own.name,
            category_word(category),
            kind_word(&node.own.kind),
        ),
    }
}

/// Adds the models of a project, but for those that are unchanged.
pub(crate) fn add_nodes(
    made: &mut Sorted<Difference>,
    nodes: &[Node],
    entries: &[Entry],
) -> Result<(), Memory>
    ensures { OnOk result (made.new ≡ with_nodes made.old nodes.now entries.now) }
{
    for (i, node) in nodes.iter().enumerate() {
        let Some(entry) = entries.get(i) else {
            return Ok(());
        };
        add_node(made, node, entry.category)?;
    }
    Ok(())
}

/// Adds the models that the project no longer has.
pub(crate) fn add_removed(made: &mut Sorted<Difference>, removed: &[Pair]) -> Result<(), Memory>
    ensures { OnOk result (made.new ≡ with_removed made.old removed.now) }
{
    for pair in removed {
        add(made, &pair.first, b"removed", pair.second.model.as_slice())?;
    }
    Ok(())
}
