// The query of an audit's file for a model.
ghost use Rattle.std.specs.Prelude.{◌≡◌, IfOk, IsErrOf, Result, map};
ghost use Rattle.mesh_query_grammar.specs.declared.surface.queries.Surface.{Surface as Tree};
ghost use Rattle.mesh_query_tokens.specs.Gives.{Gives as GivesText};
ghost use Rattle.mesh_query_tokens.specs.declared.faults.ReadFault.{ReadFault as Faults};
ghost use Rattle.mesh_model.specs.Reads.{IsQueryRead};
ghost use Rattle.mesh_project_files.specs.Loading.{Gives};
ghost use Rattle.mesh_project_files.specs.declared.faults.LoadFault.TheVariants as fault;
ghost use Rattle.mesh_project.specs.nodes.Nodes.{input_of};
ghost use Rattle.mesh_audit_files.specs.Queries.{IsQueryFor, in_query, known_in, query_of};

use crate::files::AuditFile;
use crate::text::{placeless, with_name};
use mesh_base::{Input, Inputs, Node, Query};
use mesh_base_columns::columns_of;
use mesh_base_values::{Name, Str};
use mesh_list::{Duplicate, Memory, Seq, push_made};
use mesh_project_files::{LoadFault, in_file};
use mesh_query::parse;
use mesh_query_tokens::{ReadFault, Tokens};
use mesh_resolve::{Known, resolve};
use std::alloc::Global;

fn input_of(alloc: Global, n: &Node) -> Result<Input, Memory>
    ensures { IfOk result (λ input. input ≡ input_of n.now) }
{
    let columns = columns_of(&n.own)?;
    let name = n.own.name.copy()?;
    Ok(Input {
        name,
        columns,
        rows: Seq::new(alloc),
    })
}

fn inputs_of(alloc: Global, nodes: &[Node]) -> Result<Inputs, Memory>
    ensures { IfOk result (λ inputs. inputs ≡ map input_of nodes.now) }
{
    let mut inputs = Seq::new(alloc);
    for n in nodes {
        push_made(&mut inputs, input_of(alloc, n))?;
    }
    Ok(inputs)
}

/// What an audit's query may name: the models of the project.
pub(crate) fn known_in(alloc: Global, nodes: &[Node]) -> Result<Known, Memory>
    ensures { IfOk result (λ known. known ≡ known_in nodes.now) }
{
    let models = inputs_of(alloc, nodes)?;
    Ok(Known {
        models,
        sources: Seq::new(alloc),
        macros: false,
    })
}

fn in_query<T: Drop>(file: &Str, read: Result<T, ReadFault>) -> Result<T, LoadFault>
    ensures gives { Gives result (in_query file.now read) }
    ensures alone { IsErrOf result fault.Folder → ⊥ }
{
    match read {
        Ok(x) => Ok(x),
        Err(fault) => in_file(file, Err(placeless(fault))),
    }
}

fn query_of(alloc: Global, known: &Known, tokens: &Tokens) -> Result<Query, ReadFault>
    ensures { (tree : Result Tree Faults) × IsQueryRead tokens.now 0 tree × GivesText result (query_of known.now tree) }
{
    match parse(tokens, 0) {
        Ok(tree) => resolve(alloc, &tree, known),
        Err(fault) => Err(fault),
    }
}

/// The query of an audit's file for a model.
pub(crate) fn query_for(
    alloc: Global,
    known: &Known,
    f: &AuditFile,
    model: &Name,
) -> Result<Query, LoadFault>
    ensures says { IsQueryFor known.now f.now model.now result }
    ensures alone { IsErrOf result fault.Folder → ⊥ }
{
    let tokens = with_name(alloc, model, f.text.tokens.as_slice())?;
    in_query(&f.file, query_of(alloc, known, &tokens))
}
