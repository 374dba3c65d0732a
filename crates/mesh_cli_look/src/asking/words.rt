// The words' query.
ghost use Rattle.std.specs.Prelude.{◌≡◌, ◌⊎◌, [], map, IfOk, Result};
ghost use Rattle.mesh_query_grammar.specs.declared.surface.queries.Surface.{Surface as Tree};
ghost use Rattle.mesh_query_tokens.specs.Text.{tokens};
ghost use Rattle.mesh_query_tokens.specs.declared.faults.ReadFault.{ReadFault as Faults};
ghost use Rattle.mesh_model.specs.Reads.{IsQueryRead};
ghost use Rattle.mesh_resolve.specs.Queries.{resolved};
ghost use Rattle.mesh_house_book.specs.WellFormed.{columns_at, snapshot_at};
ghost use Rattle.mesh_cli_print.specs.declared.printed.refusals.Refusal.TheVariants.{Memory as NoMemory};
ghost use Rattle.mesh_cli_look.specs.asking.Looks.{Gives};
ghost use Rattle.mesh_cli_look.specs.asking.Fetched.{known_of, model_seen, of_word, seen, tree_over, word, word_over, word_tokens, worded};

use crate::asking::books::list_of;
use mesh_base::{Input, Inputs, Query, Ref, Snapshots};
use mesh_base_columns::columns_of;
use mesh_base_values::{Columns, Str};
use mesh_cli_print::printed::Refusal;
use mesh_house_book::Book;
use mesh_list::{Duplicate, Memory, Seq};
use mesh_query::{parse, tokens};
use mesh_query_grammar::surface::Surface;
use mesh_query_tokens::{ReadFault, Tokens};
use mesh_resolve::{Known, resolve};
use std::alloc::Global;

fn of_word(alloc: Global, fault: ReadFault) -> Refusal
    ensures { (result ≡ NoMemory) ⊎ (result ≡ of_word fault) }
{
    match fault {
        ReadFault::Memory => Refusal::Memory,
        ReadFault::Fault { at, kind } => match Vec::from_slice(alloc, b"-") {
            Ok(file) => Refusal::Model {
                file: Seq::from_vec(file),
                at,
                kind,
            },
            Err(_) => Refusal::Memory,
        },
    }
}

fn word_tokens(alloc: Global, text: &Str) -> Result<Tokens, Refusal>
    ensures gives { Gives result (word (tokens text.now)) }
    ensures tokens { IfOk result (λ found. found ≡ word_tokens text.now) }
{
    match tokens(alloc, text.as_slice()) {
        Ok(found) => Ok(found),
        Err(fault) => Err(of_word(alloc, fault)),
    }
}

fn word_tree(alloc: Global, tokens: &Tokens) -> Result<Surface, Refusal>
    ensures { (query : Result Tree Faults) × IsQueryRead tokens.now 0 query × Gives result (word query) }
{
    match parse(tokens, 0) {
        Ok(found) => Ok(found),
        Err(fault) => Err(of_word(alloc, fault)),
    }
}

fn word_query(alloc: Global, tree: &Surface, known: &Known) -> Result<Query, Refusal>
    ensures { Gives result (word (resolved known.now tree.now)) }
{
    match resolve(alloc, tree, known) {
        Ok(query) => Ok(query),
        Err(fault) => Err(of_word(alloc, fault)),
    }
}

fn columns_at(alloc: Global, all: &Snapshots, r: &Ref) -> Result<Columns, Memory>
    ensures { IfOk result (λ columns. columns ≡ columns_at (snapshot_at all.now r.now)) }
{
    match all.find(r) {
        None => Ok(Seq::new(alloc)),
        Some(s) => columns_of(&s.own),
    }
}

fn model_seen(alloc: Global, all: &Snapshots, r: &Ref) -> Result<Input, Memory>
    ensures { IfOk result (λ model. model ≡ model_seen all.now r.now) }
{
    let name = r.name.copy()?;
    let columns = columns_at(alloc, all, r)?;
    Ok(Input {
        name,
        columns,
        rows: Seq::new(alloc),
    })
}

fn models_seen(alloc: Global, all: &Snapshots, list: &[Ref]) -> Result<Inputs, Memory>
    ensures { IfOk result (λ models. models ≡ map (model_seen all.now) list.now) }
{
    let mut models = Seq::new(alloc);
    for r in list {
        let model = model_seen(alloc, all, r)?;
        models.push(model)?;
    }
    Ok(models)
}

fn seen(alloc: Global, b: &Book, list: &[Ref]) -> Result<Known, Memory>
    ensures { IfOk result (λ known. known ≡ seen b.now list.now) }
{
    let models = models_seen(alloc, &b.snapshots, list)?;
    Ok(Known {
        models,
        sources: Seq::new(alloc),
        macros: false,
    })
}

fn tree_query(alloc: Global, known: &Known, tokens: &Tokens) -> Result<Query, Refusal>
    ensures { (query : Result Tree Faults) × IsQueryRead tokens.now 0 query
        × Gives result (tree_over known.now query) }
{
    let tree = word_tree(alloc, tokens)?;
    word_query(alloc, &tree, known)
}

fn word_of(alloc: Global, known: &Known, text: &Str) -> Result<Query, Refusal>
    ensures { (query : Result Tree Faults) × IsQueryRead (word_tokens text.now) 0 query
        × Gives result (word_over known.now text.now query) }
{
    let tokens = word_tokens(alloc, text)?;
    tree_query(alloc, known, &tokens)
}

fn known_of(alloc: Global, b: &Book, env: &Str) -> Result<Known, Refusal>
    ensures { Gives result (known_of b.now env.now) }
{
    let list = list_of(b, env)?;
    let known = seen(alloc, b, list.as_slice())?;
    Ok(known)
}

/// The words' query over the models of an environment.
pub(crate) fn worded(alloc: Global, b: &Book, env: &Str, text: &Str) -> Result<Query, Refusal>
    ensures { (query : Result Tree Faults) × IsQueryRead (word_tokens text.now) 0 query
        × Gives result (worded b.now env.now text.now query) }
{
    let known = known_of(alloc, b, env)?;
    word_of(alloc, &known, text)
}
