// The models that a project no longer has.
ghost use Rattle.std.specs.Prelude.{◌≡◌, ◌++◌, List, [], IfOk, OnOk};
ghost use Rattle.std.specs.BTreeSet.{contains};
ghost use Rattle.std.specs.Option.{option_copied};
ghost use Rattle.mesh_base_values.specs.Names.{name_cmp};
ghost use Rattle.mesh_base_values.specs.declared.values.Name.{Name};
ghost use Rattle.mesh_base.specs.declared.snapshots.Node.{Node};
ghost use Rattle.mesh_base.specs.rules.Proper.{has_node};
ghost use Rattle.mesh_cli_print.specs.plans.PlanText.{kind_word};
ghost use Rattle.mesh_plan.specs.Entries.{gone_as, gone_of};
ghost use Rattle.mesh_plan.specs.Plans.{removed};

use mesh_base::{Node, Ref, Snapshot};
use mesh_base_values::{Kind, Name, Pair, Pairs};
use mesh_cli_print::plans::kind_word;
use mesh_house_book::Book;
use mesh_list::{Duplicate, Memory, Seq};
use std::alloc::Global;
use std::collections::BTreeSet;

fn names_of(alloc: Global, nodes: &[Node]) -> Result<BTreeSet<Name>, Memory>
    ensures { IfOk result (λ set. (name : Name) → contains name_cmp set name ≡ has_node nodes.now name) }
{
    let mut set = BTreeSet::new(alloc);
    for node in nodes {
        set.insert(node.own.name.copy()?)?;
    }
    Ok(set)
}

// A name that has the word of a kind.
fn word_of(alloc: Global, kind: &Kind) -> Result<Name, Memory>
    ensures { IfOk result (λ name. name ≡ record { schema = []; model = kind_word kind.now }) }
{
    let model = Vec::from_slice(alloc, kind_word(kind))?;
    Ok(Name {
        schema: Seq::new(alloc),
        model: Seq::from_vec(model),
    })
}

fn put_as(gone: &mut Pairs, name: &Name, s: Option<&Snapshot>) -> Result<(), Memory>
    ensures { OnOk result (gone.new ≡ gone.old ++ gone_as name.now (option_copied s.entry)) }
{
    match s {
        None => Ok(()),
        Some(s) => {
            let first = name.copy()?;
            let second = word_of(gone.alloc(), &s.own.kind)?;
            gone.push(Pair { first, second })
        }
    }
}

fn put_gone(gone: &mut Pairs, b: &Book, names: &BTreeSet<Name>, r: &Ref) -> Result<(), Memory>
    ensures { OnOk result ((nodes : List Node) → ((name : Name) → contains name_cmp names.now name ≡ has_node nodes name) → gone.new ≡ gone.old ++ gone_of b.now.snapshots nodes r.now) }
{
    if names.contains(&r.name) {
        return Ok(());
    }
    put_as(gone, &r.name, b.snapshots.find(r))
}

/// The models of a list that a project doesn't have, in the list's order.
pub(crate) fn removed(
    alloc: Global,
    b: &Book,
    base: &[Ref],
    nodes: &[Node],
) -> Result<Pairs, Memory>
    ensures { IfOk result (λ gone. gone ≡ removed b.now base.now nodes.now) }
{
    let names = names_of(alloc, nodes)?;
    let mut gone = Seq::new(alloc);
    for r in base {
        put_gone(&mut gone, b, &names, r)?;
    }
    Ok(gone)
}
