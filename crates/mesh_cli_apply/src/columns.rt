// The columns of the models and sources that words name.
ghost use Rattle.std.specs.Prelude.{◌≡◌, ◌⊎◌, IfOk};
ghost use Rattle.std.specs.Option.{option_copied};
ghost use Rattle.std.specs.Ordering.{is_eq};
ghost use Rattle.mesh_base_values.specs.Names.{name_cmp};
ghost use Rattle.mesh_cli_print.specs.declared.printed.refusals.Refusal.TheVariants.{Memory as NoMemory};
ghost use Rattle.mesh_cli_apply.specs.Planning.{no_model};
ghost use Rattle.mesh_cli_apply.specs.Tracing.{Finds, declared_columns, found, model_columns, no_column, node_named, or_declared, source_named};

use crate::planned::no_model;
use mesh_base::rules::has_column;
use mesh_base::{Decl, Node};
use mesh_base_columns::columns_of;
use mesh_base_values::{Columns, Name, Str};
use mesh_cli_print::printed::Refusal;
use mesh_list::{Duplicate, Memory};
use mesh_query_tokens::FaultKind;
use std::alloc::Global;

fn is_model(node: &Node, name: &Name) -> bool
    ensures { result ≡ is_eq (name_cmp node.now.own.name name.now) }
{
    node.own.name.compare(name).is_eq()
}

fn node_named<'a>(nodes: &'a [Node], name: &Name) -> Option<&'a Node>
    ensures { option_copied result ≡ node_named nodes.now name.now }
{
    nodes.iter().find(|node| is_model(node, name))
}

/// The columns of the model of a name, if there is one.
pub(crate) fn model_columns(nodes: &[Node], name: &Name) -> Result<Option<Columns>, Memory>
    ensures { IfOk result (λ made. made ≡ model_columns nodes.now name.now) }
{
    match node_named(nodes, name) {
        None => Ok(None),
        Some(node) => Ok(Some(columns_of(&node.own)?)),
    }
}

fn is_source(source: &Decl, name: &Name) -> bool
    ensures { result ≡ is_eq (name_cmp source.now.name name.now) }
{
    source.name.compare(name).is_eq()
}

fn source_named<'a>(sources: &'a [Decl], name: &Name) -> Option<&'a Decl>
    ensures { option_copied result ≡ source_named sources.now name.now }
{
    sources.iter().find(|source| is_source(source, name))
}

fn declared_columns(sources: &[Decl], name: &Name) -> Result<Option<Columns>, Memory>
    ensures { IfOk result (λ made. made ≡ declared_columns sources.now name.now) }
{
    match source_named(sources, name) {
        None => Ok(None),
        Some(source) => Ok(Some(source.columns.copy()?)),
    }
}

/// These columns, or else those of the declared source of a name.
pub(crate) fn or_declared(
    columns: Option<Columns>,
    sources: &[Decl],
    name: &Name,
) -> Result<Option<Columns>, Memory>
    ensures { IfOk result (λ made. made ≡ or_declared columns sources.now name.now) }
{
    match columns {
        None => declared_columns(sources, name),
        Some(columns) => Ok(Some(columns)),
    }
}

fn no_column(alloc: Global, column: &Str) -> Result<Refusal, Memory>
    ensures { IfOk result (λ r. r ≡ no_column column.now) }
{
    let file = u8::copy_items(alloc, b"-")?;
    let name = column.copy()?;
    Ok(Refusal::Model {
        file,
        at: 0,
        kind: FaultKind::UnknownColumn { name },
    })
}

fn unknown_relation(alloc: Global, name: &Name) -> Refusal
    ensures { (result ≡ NoMemory) ⊎ (result ≡ no_model name.now) }
{
    match no_model(alloc, name) {
        Ok(refusal) => refusal,
        Err(_) => Refusal::Memory,
    }
}

fn unknown_column(alloc: Global, column: &Str) -> Refusal
    ensures { (result ≡ NoMemory) ⊎ (result ≡ no_column column.now) }
{
    match no_column(alloc, column) {
        Ok(refusal) => refusal,
        Err(_) => Refusal::Memory,
    }
}

/// Whether there are columns of a name's relation, and this one among them.
pub(crate) fn found(
    alloc: Global,
    name: &Name,
    column: &Str,
    columns: &Option<Columns>,
) -> Result<(), Refusal>
    ensures { Finds result (found name.now column.now columns.now) }
{
    match columns {
        None => Err(unknown_relation(alloc, name)),
        Some(columns) => {
            if has_column(columns.as_slice(), column) {
                Ok(())
            } else {
                Err(unknown_column(alloc, column))
            }
        }
    }
}
